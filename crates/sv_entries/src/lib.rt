//! The lines of a living world's log: printing the line of an entry, and reading what a line asks.
#![tactic(auto)]

mod buffer;
mod laws;
mod print;
mod read;
mod refused;

pub use buffer::LineBuffer;
pub use laws::{causes_are_told, replies_go_by_faults, replies_have_one_text};
pub use read::{LineAsked, LineRequest, line_at};
pub use refused::bad_action;
