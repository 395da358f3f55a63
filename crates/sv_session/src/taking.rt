//! Taking requests off what came.
ghost use Rattle.std.specs.Prelude.{◌≡◌};
ghost use Rattle.sv_session.specs.Answers.{IsTakenOff};

use std::alloc::Global;
use sv_exchange::{Inbox, Incoming};
use sv_wire::Request;

/// What is next in an inbox.
#[derive(Debug, Drop)]
pub(crate) enum Taken {
    /// A request, which is `Bad` for what is none.
    Request(Request),

    /// Less than a frame.
    NotYet,

    /// There was no memory for the request, which stays.
    Memory,
}

/// Takes the next request. A frame that is taken for `Bad` stays where it is, since nothing is read after it.
pub(crate) fn take_request(alloc: Global, inbox: &mut Inbox) -> Taken
    ensures { IsTakenOff result inbox.old inbox.new }
{
    match inbox.next(alloc) {
        Incoming::Whole(request) => Taken::Request(request),
        Incoming::NotYet => Taken::NotYet,
        Incoming::Malformed(_) => Taken::Request(Request::Bad),
        Incoming::TooLong(_) => Taken::Request(Request::Bad),
        Incoming::Memory => Taken::Memory,
    }
}
