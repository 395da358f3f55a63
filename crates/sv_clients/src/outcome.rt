//! What came of an action.
use sv_world::ObjectId;

/// What came of an action: it was accepted at a position; or it was dropped, with so many actions that influence it, the
/// farthest so far; or it was denied, for an object that its client may not write.
#[derive(Clone, Copy, Debug, Drop, PartialEq, Eq)]
pub enum Outcome {
    Accepted { pos: u32 },
    Dropped { chain: u32, far: u32 },
    Denied { object: ObjectId },
}

/// What stands in room that is not used yet.
impl Default for Outcome {
    fn default() -> Outcome {
        Outcome::Accepted { pos: 0 }
    }
}
