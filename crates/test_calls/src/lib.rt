//! What the tests of commands and of sessions share: calls over files and outputs in memory, and what they printed; an end whose client wrote
//! all of its bytes before; frames; scenarios with their reports.
#![tactic(auto)]

mod calls;
mod ends;
pub mod examples;
pub mod frames;
pub mod scenarios;

pub use calls::{Printed, call, files, held, unread, words};
pub use ends::ScriptEnd;
