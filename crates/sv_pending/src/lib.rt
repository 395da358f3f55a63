//! A client's pending actions, with the results that it keeps for them.
#![tactic(auto)]

mod laws;
mod made;
mod overlay;
mod pending;
mod redo;

pub use laws::views_and_results_have_the_numbers_of_their_world;
pub use overlay::{Overlay, PendingItem};
pub use pending::Pending;
