//! What is answered of influence.
use sv_lists::List;
use sv_world::ObjectId;

/// What a relay of a position has for a session.
#[derive(Debug, Drop)]
pub struct Closure {
    /// The positions of its actions, ascending.
    pub items: List<u32>,
    /// The objects of its base values, ascending.
    pub head: List<ObjectId>,
}

/// What objects are at one position, for a session that acts on none of them.
#[derive(Debug, Drop)]
pub struct ConsistentCut {
    /// The position.
    pub last: u32,
    /// The positions of the actions that the session lacks, ascending.
    pub items: List<u32>,
    /// The objects of the base values, ascending.
    pub head: List<ObjectId>,
}

/// How much influences a new action.
#[derive(Clone, Copy, Debug, Drop, PartialEq, Eq)]
pub struct Chain {
    /// How many uncommitted actions do.
    pub count: u32,
    /// How far away the farthest of them was made, 0 where there is none.
    pub far: u32,
}
