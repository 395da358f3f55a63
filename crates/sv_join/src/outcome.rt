//! What a client that joins another program's server answers.
use std::alloc::{AllocError, AllocFailed};
use sv_client::Trace;
use sv_player::ReplyFault;
use sv_watch::Line;

/// What a client did that came to the end of its script, and the lines that tell the changes of its views.
#[derive(Debug, Drop)]
pub struct Joined {
    pub trace: Trace,
    pub lines: Vec<Line>,
}

/// Why a client did not come to the end of its script.
#[derive(Debug, Drop)]
pub enum JoinFault {
    /// A connection could not be made, or one failed.
    Link,

    /// The server gave a reply that the client does not take.
    Reply(ReplyFault),

    /// The server closed a connection over which a reply was awaited.
    Closed,

    Memory,
}

impl From<AllocError> for JoinFault {
    ghost use Rattle.std.specs.Prelude.{◌≡◌};
    ghost use Rattle.sv_join.specs.declared.outcome.JoinFault.TheVariants as faults;

    ghost from_gives = { λ _ e. e ≡ faults.Memory };

    fn from(_e: AllocError) -> JoinFault {
        JoinFault::Memory
    }
}

impl<T: Drop> From<AllocFailed<T>> for JoinFault {
    ghost use Rattle.std.specs.Prelude.{◌≡◌};
    ghost use Rattle.sv_join.specs.declared.outcome.JoinFault.TheVariants as faults;

    ghost from_gives = { λ _ e. e ≡ faults.Memory };

    fn from(_e: AllocFailed<T>) -> JoinFault {
        JoinFault::Memory
    }
}
