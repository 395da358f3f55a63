//! What HTTP requests are answered: files of a folder, the standing of the server, and the way to a WebSocket.
#![tactic(auto)]

mod counts;
mod figures;
mod keys;
mod kinds;
mod origins;
mod parts;
mod paths;
mod route;
mod site;

pub use counts::Counts;
pub use figures::{Figures, append_figures};
pub use site::Site;
