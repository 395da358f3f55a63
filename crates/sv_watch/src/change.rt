//! Changes of views.
use sv_lists::Text;
use sv_world::{ClientId, ObjectId, Value};

/// A client's view of an object that an event of its trace changed.
#[derive(Debug, Drop)]
pub struct Change {
    pub client: ClientId,
    pub object: ObjectId,
    /// The number of the event in the client's trace, from 1.
    pub event: u32,
    /// The view before the event, and `None` where it was unknown.
    pub old: Option<Value>,
    pub new: Option<Value>,
}

/// A line that tells a change, without its end.
pub type Line = Text;
