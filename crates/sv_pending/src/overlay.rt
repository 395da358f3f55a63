//! What pending actions tell their client.
use sv_world::{Action, Value};

/// What a client's pending actions say of an object.
#[derive(Clone, Copy, Debug)]
pub enum Overlay<'a> {
    /// No pending action writes it.
    Unwritten,
    /// The last pending action that writes it keeps no result.
    Unknown,
    /// The value that the last pending action that writes it keeps.
    Kept(&'a Value),
}

/// A pending action, its number, and the values that it keeps for its written objects.
#[derive(Clone, Copy, Debug)]
pub struct PendingItem<'a> {
    pub seq: u32,
    pub action: &'a Action,
    /// `None` where what the action reads is not all known.
    pub kept: Option<&'a [Value]>,
}
