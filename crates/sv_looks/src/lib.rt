//! Looks, by which a client is told the values of several objects at one position, and the snapshots that a run tells of them and of what clients
//! observe.
#![tactic(auto)]

mod line;
mod looker;
mod looks;
mod snapshot;
mod taking;
mod texts;
mod top;
mod words;

pub use line::look_line;
pub use looker::Looker;
pub use looks::{is_look, look};
pub use snapshot::Snapshot;
pub use taking::snapshots;
pub use top::run_looks;
