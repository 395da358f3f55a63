//! The sequencer: a core with a journal that is always a legal one.
#![tactic(auto)]

mod entering;
mod object;
mod sequencer;
mod step;

pub use entering::{enter_asked, enter_end, enter_reply, open_core};
pub use sequencer::Sequencer;
