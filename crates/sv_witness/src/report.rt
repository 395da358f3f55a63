//! Reports, and disputes between two of them.
use sv_lists::List;
use sv_world::{ClientId, Value};

/// What a client reported of a position.
#[derive(Debug, Drop)]
pub struct Report {
    pub client: ClientId,
    /// A value for each object that the position's action writes, ascending by object.
    pub values: List<Value>,
}

/// Two reports of one position that differ. One of the two clients computed wrongly, or lies.
#[derive(Debug, Drop)]
pub struct Dispute {
    /// The position in the one order of actions, from 1.
    pub pos: u32,
    /// The first report of it.
    pub first: Report,
    /// The first one that differs.
    pub second: Report,
}
