//! How a player ends.
ghost use Rattle.std.specs.Prelude.{◌≡◌};
ghost use Rattle.sv_client.specs.Seen.{event_of_mark};
ghost use Rattle.sv_player.specs.Partings.{parting_event, parting_ending};

use std::alloc::{AllocError, AllocFailed};
use sv_client::{TakeFault, Trace, TraceMark};
use sv_watch::Line;
use sv_wire::Malformed;

/// Why a reply is not taken.
#[derive(Clone, Copy, Debug, PartialEq, Eq)]
pub enum ReplyFault {
    /// The client refuses it.
    Take(TakeFault),

    /// Its payload is no reply.
    Wire(Malformed),

    /// Its frame has a length over the limit.
    TooLong(u32),
}

/// Why a player stopped.
#[derive(Debug, Drop)]
pub enum PlayerCause {
    /// It left, and took the Bye.
    Finished,

    /// Its script quit.
    Quit,

    /// An end failed.
    LinkFault,

    /// An end told that no more bytes will come, while a reply was awaited.
    Closed,

    /// It could not take a reply of this session. The payload is empty where the frame was too long.
    BadReply {
        session: u16,
        payload: Vec<u8>,
        fault: ReplyFault,
    },

    Memory,
}

/// How a step ends its session.
#[derive(Clone, Copy)]
pub(crate) enum Parting {
    /// The session is cut, and another one may follow.
    Cut,

    /// The client quits.
    Quit,
}

impl Parting {
    /// What the trace notes of it.
    pub(crate) fn mark(self) -> TraceMark
        ensures { event_of_mark result ≡ parting_event self }
    {
        match self {
            Parting::Cut => TraceMark::Cut,
            Parting::Quit => TraceMark::Quit,
        }
    }

    pub(crate) fn ending(self) -> SessionEnd
        ensures { result ≡ parting_ending self }
    {
        match self {
            Parting::Cut => SessionEnd::Cut,
            Parting::Quit => SessionEnd::Quit,
        }
    }
}

/// How a session that nothing stopped ended.
#[derive(Clone, Copy)]
pub(crate) enum SessionEnd {
    /// The script cut it.
    Cut,

    /// The script quit.
    Quit,

    /// The client left, and took the Bye.
    Left,
}

impl From<AllocError> for PlayerCause {
    ghost use Rattle.std.specs.Prelude.{◌≡◌};
    ghost use Rattle.sv_player.specs.declared.outcome.PlayerCause.TheVariants as causes;

    ghost from_gives = { λ _ e. e ≡ causes.Memory };

    fn from(_e: AllocError) -> PlayerCause {
        PlayerCause::Memory
    }
}

impl<T: Drop> From<AllocFailed<T>> for PlayerCause {
    ghost use Rattle.std.specs.Prelude.{◌≡◌};
    ghost use Rattle.sv_player.specs.declared.outcome.PlayerCause.TheVariants as causes;

    ghost from_gives = { λ _ e. e ≡ causes.Memory };

    fn from(_e: AllocFailed<T>) -> PlayerCause {
        PlayerCause::Memory
    }
}

/// What a player did, and the ends that it was given, in their order.
#[derive(Debug, Drop)]
pub struct PlayerOut<E> {
    pub cause: PlayerCause,
    pub trace: Trace,
    pub lines: Vec<Line>,
    pub ends: Vec<E>,
}
