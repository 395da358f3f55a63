//! One connection of a client, with no input or output of its own: bytes in and requests out, replies in and bytes out.
#![tactic(auto)]

mod desk;
mod heard;
mod hello;
pub mod laws;
mod manner;
mod past;
mod peer;
mod socket;
mod web;

pub use desk::WebDesk;
pub use heard::Heard;
pub use hello::digest_of;
pub use manner::Manner;
pub use peer::Peer;
pub use web::FULL;
