//! The values of objects at positions that a client holds.
#![tactic(auto)]

mod count;
mod crowded;
mod history;
mod store;
mod undo;

pub use store::Versions;
pub use undo::Undo;
