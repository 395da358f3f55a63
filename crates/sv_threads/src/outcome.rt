//! What a run on threads answers.
use std::alloc::{AllocError, AllocFailed};
use sv_client::Trace;
use sv_lists::List;
use sv_watch::Line;
use thiserror::Error;

/// What the clients did, and the lines that tell the changes of their views, client by client.
#[derive(Debug, Drop)]
pub struct PlayedAll {
    pub traces: List<Trace>,
    pub lines: Vec<Line>,
}

/// Why a run has no record.
#[derive(Clone, Copy, Debug, Drop, PartialEq, Eq, Error)]
pub enum PlayFault {
    #[error("a thread could not be started")]
    Start,
    #[error("a link failed")]
    Link,
    #[error("out of memory")]
    Memory,
}

impl From<AllocError> for PlayFault {
    ghost use Rattle.std.specs.Prelude.{◌≡◌};
    ghost use Rattle.sv_threads.specs.declared.outcome.PlayFault.TheVariants as faults;

    ghost from_gives = { λ _ e. e ≡ faults.Memory };

    fn from(_e: AllocError) -> PlayFault {
        PlayFault::Memory
    }
}

impl<T: Drop> From<AllocFailed<T>> for PlayFault {
    ghost use Rattle.std.specs.Prelude.{◌≡◌};
    ghost use Rattle.sv_threads.specs.declared.outcome.PlayFault.TheVariants as faults;

    ghost from_gives = { λ _ e. e ≡ faults.Memory };

    fn from(_e: AllocFailed<T>) -> PlayFault {
        PlayFault::Memory
    }
}
