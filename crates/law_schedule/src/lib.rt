//! The run that a scenario's schedule gives: its definition, and what holds of it.
#![tactic(auto)]

mod done;
mod replays;
mod sound;

pub use done::{scheduled_runs_end, served_runs_end};
pub use replays::scheduled_runs_are_replays;
pub use sound::{turns_keep_runs_sound, turns_keep_served_runs_sound};
