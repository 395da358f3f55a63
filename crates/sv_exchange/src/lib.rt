//! Whole messages over bytes: an [`Inbox`] reads the next message from what came, and an [`Outbox`] writes messages as frames. Requests
//! and replies go the same way, each as a [`Message`].
//!
//! An [`Exchange`] is a client's whole connection with its session on one thread, built of the same halves.
#![tactic(auto)]

mod carrying;
mod exchange;
mod filling;
mod inbox;
mod laws;
mod message;
mod outbox;
mod renewing;

pub use exchange::Exchange;
pub use inbox::{Inbox, Incoming};
pub use laws::no_frame_begins_another;
pub use message::Message;
pub use outbox::Outbox;
