//! The steps of a client, for contracts alone.
use crate::trace::TraceMark;
use std::snapshot::Snapshot;
use sv_lists::List;
use sv_wire::Reply;
use sv_world::{Action, ObjectId};

/// One step of a client. What was made, observed or got is seen by contracts alone, and takes no memory.
#[derive(Drop)]
pub(crate) enum Deed {
    Joined,
    Made(Snapshot<Action>),
    Polled,
    Observed(Snapshot<List<ObjectId>>, u16),
    Left,
    Got(Snapshot<Reply>),
    Noted(Snapshot<TraceMark>),
}
