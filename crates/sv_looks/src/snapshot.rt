//! The snapshot of a look, and of what was observed.
use sv_lists::List;
use sv_wire::ObjectValue;
use sv_world::ClientId;

/// What a client was told by a look, or of what it observed: the values of some objects, all at one position.
#[derive(Debug, Drop)]
pub struct Snapshot {
    pub client: ClientId,
    /// The client's own number for the look; none for what it observed.
    pub seq: Option<u32>,
    /// Where the look stands in the one order of actions, from 1. What was observed stands just behind the position at which it was seen.
    pub pos: u32,
    /// The objects that the look reads, or that were observed, ascending, each with its value just before the position.
    pub values: List<ObjectValue>,
}
