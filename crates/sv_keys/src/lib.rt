//! Who may join a world: the digests of keys, from a file that is read again where it has changed.
#![tactic(auto)]

mod fault;
mod keys;
mod line;
mod rows;

pub use fault::{KeysFault, tell};
pub use keys::Keys;
