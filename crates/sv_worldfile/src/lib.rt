//! World files: the opening world of a long-lived server, its limits and who may write what, read from JSON.
#![tactic(auto)]

mod laws;
mod read;
mod rights;
mod world_file;

pub use laws::world_files_keep_the_limits;
pub use read::{MOST_BYTES, read_world};
pub use sv_scenario::{ReadFault, ScenarioCause, ScenarioFault, append_fault_line};
pub use world_file::{Results, WorldFile};
