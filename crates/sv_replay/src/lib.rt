//! The run of a scenario's schedule on one thread.
#![tactic(auto)]

mod laws;
mod machine;
mod opening;
mod played;
mod playing;
mod schedule;
mod server;
mod serving;

pub use laws::made_actions_fit;
pub use opening::{open_sequencer, opening_world};
pub use played::{committed_values, played_of};
pub use schedule::{ServedRun, run_over, run_schedule};
pub use server::{Server, are_ended};
