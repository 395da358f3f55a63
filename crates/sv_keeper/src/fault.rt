//! Why a kept world does not go on, or is not opened.
use sv_log::LogRefusal;

/// Why a request was not stepped, or the log not durable.
#[derive(Clone, Copy, Debug, Drop, PartialEq, Eq)]
pub enum KeepFault {
    /// The session had its End, or it is not the next one. Nothing changed.
    NotOpen,
    /// The session would be the next one, and too many are open. Nothing changed.
    NoRoom,
    /// There was no memory. Nothing changed.
    Memory,
    /// The log is not what the core says it is: a line is wanting, or a write or a sync failed. Nothing more is stepped, written or sent.
    Broken,
}

/// Why a line is not right.
#[derive(Clone, Copy, Debug, Drop, PartialEq, Eq)]
pub enum LineCause {
    /// It is none that a log has.
    Unread,
    /// Its session is not open, and not the next one that may begin.
    Session,
    /// It is not the next entry's line: its number is another one, or its request is answered otherwise.
    Other,
}

/// Why a log is not opened. Nothing of it was changed, but at `Disk`.
#[derive(Drop)]
pub enum OpenFault {
    /// The folder holds no log of this world.
    Refused(LogRefusal),
    /// A line of a file is not right. Lines count from 1.
    Line {
        file: String,
        line: u64,
        cause: LineCause,
    },
    /// The disk failed.
    Disk,
    Memory,
}

impl From<std::alloc::AllocError> for OpenFault {
    ghost use Rattle.std.specs.Prelude.{◌≡◌};
    ghost use Rattle.sv_keeper.specs.declared.fault.OpenFault.TheVariants as faults;

    ghost from_gives = { λ _ e. e ≡ faults.Memory };

    fn from(_e: std::alloc::AllocError) -> OpenFault {
        OpenFault::Memory
    }
}
