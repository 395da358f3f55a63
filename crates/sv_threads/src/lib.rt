//! A scenario's run on threads: a job for each session and for each client, over one locked sequencer and a net.
#![tactic(auto)]

mod ending;
mod gathering;
mod locking;
mod opening;
mod outcome;
mod play;
mod settling;
mod tasks;

pub use ending::ending_of_fault;
pub use locking::lock_sequencer;
pub use outcome::{PlayFault, PlayedAll};
pub use play::play_all;
pub use tasks::{Service, Serviced};
