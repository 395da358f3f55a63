//! Why an object has its value: the actions that the value comes from. And the world at the end of a journal.
#![tactic(auto)]

mod answer;
mod ending;
mod execution;
mod explanation;
mod laws;
mod reasons;

pub use answer::Why;
pub use ending::world_at_end;
pub use explanation::why;
pub use laws::values_come_from_their_reasons;
