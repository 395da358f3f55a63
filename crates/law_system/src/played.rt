//! What a run leaves.
use sv_client::Trace;
use sv_journal::Journal;
use sv_lists::List;
use sv_world::{Shape, Value};

/// What a run leaves: its journal, and what each client did.
#[derive(Debug, Drop)]
pub struct Played {
    /// The shape of the run's world.
    pub shape: Shape,
    pub journal: Journal,
    /// One trace for each client, in the order of their numbers.
    pub traces: List<Trace>,
    /// The greatest position up to which all results are installed.
    pub commit: u32,
    /// The values of the objects at the commit, one for each.
    pub committed: List<Value>,
}
