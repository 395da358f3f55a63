//! Why the loop stops.
use std::alloc::{AllocError, AllocFailed};
use sv_keeper::KeepFault;

#[derive(Clone, Copy, Debug, Drop, PartialEq, Eq)]
pub enum Halt {
    /// The log can't be written or synced.
    Log,
    /// The steward was answered what no honest client is.
    Steward,
    /// The waiting failed.
    Ports,
    Memory,
}

impl From<AllocError> for Halt {
    ghost use Rattle.std.specs.Prelude.{◌≡◌};
    ghost use Rattle.sv_office.specs.declared.halt.Halt.TheVariants as halts;

    ghost from_gives = { λ _ e. e ≡ halts.Memory };

    fn from(_e: AllocError) -> Halt {
        Halt::Memory
    }
}

impl<T: Drop> From<AllocFailed<T>> for Halt {
    ghost use Rattle.std.specs.Prelude.{◌≡◌};
    ghost use Rattle.sv_office.specs.declared.halt.Halt.TheVariants as halts;

    ghost from_gives = { λ _ e. e ≡ halts.Memory };

    fn from(_e: AllocFailed<T>) -> Halt {
        Halt::Memory
    }
}

impl From<KeepFault> for Halt {
    fn from(fault: KeepFault) -> Halt {
        match fault {
            KeepFault::Broken => Halt::Log,
            _ => Halt::Memory,
        }
    }
}
