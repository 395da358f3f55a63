//! Laws of threaded play: the traffic of a run's sessions, and the record that it leaves, for every order of its threads.
#![tactic(auto)]

mod cutting;
mod runs;
mod sessions;

pub use cutting::cut_frames_are_front_frames;
pub use runs::{open_sessions_go_on, threaded_runs_leave_records};
pub use sessions::session_traffic_is_recorded;
