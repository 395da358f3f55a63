//! One session of the server: its loop reads a client's frames, has the sequencer answer each request in turn, and writes the replies.
#![tactic(auto)]

mod outcome;
mod posting;
mod reading;
mod server;
mod session;
mod taking;

pub use outcome::SessionOut;
pub use posting::stop_for;
pub use session::serve_session;
