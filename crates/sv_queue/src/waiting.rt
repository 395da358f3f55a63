//! An action in the queue.
use crate::slots::Slots;
use sv_lists::List;
use sv_world::{Action, ClientId, Value};

/// An accepted action that is not committed yet.
#[derive(Debug, Drop)]
pub struct WaitingAction {
    pub author: ClientId,
    pub seq: u32,
    pub action: Action,
    /// One value for each written object.
    pub result: Option<List<Value>>,
    /// The slots that the action was sent to.
    pub marks: Slots,
}
