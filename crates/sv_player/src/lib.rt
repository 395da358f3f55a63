//! Clients that play their scripts over links.
#![tactic(auto)]

mod buffers;
mod outcome;
mod play;
mod playing;
mod replies;
mod session;
mod telling;

pub use outcome::{PlayerCause, PlayerOut, ReplyFault};
pub use play::{Role, play_client};
