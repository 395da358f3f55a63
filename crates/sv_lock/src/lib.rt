//! A lock round an object whose steps have one history, whatever threads call them.
//!
//! Each caller has a pass, in which a proof sees how much of the history the caller has seen, and which entries in it are its own.
#![tactic(auto)]

mod desk;
mod lock;
mod object;
mod pass;
mod plays;
mod view;

pub use lock::SeqLock;
pub use object::Object;
pub use pass::Pass;
