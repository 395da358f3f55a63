//! What can go wrong.
use std::alloc::{AllocError, AllocFailed};
use sv_client::{MakeFault, ObserveFault, PollFault, TakeFault};
use thiserror::Error;

/// Why a call of a pilot failed.
#[derive(Clone, Copy, Debug, Drop, PartialEq, Eq, Error)]
pub enum Trouble {
    /// The end of the connection failed, or no more bytes will come.
    #[error("a connection failed")]
    Link,

    /// The front of what came is no reply, or one that the client does not take.
    #[error("the server sent what no client takes")]
    Reply,

    /// The game asked for what it may not ask. Nothing was done.
    #[error("the game asked for what may not be asked")]
    Game,

    #[error("out of memory")]
    Memory,
}

impl From<AllocError> for Trouble {
    ghost use Rattle.std.specs.Prelude.{◌≡◌};
    ghost use Rattle.sv_pilot.specs.declared.trouble.Trouble.TheVariants as troubles;

    ghost from_gives = { λ _ e. e ≡ troubles.Memory };

    fn from(_e: AllocError) -> Trouble {
        Trouble::Memory
    }
}

impl<T: Drop> From<AllocFailed<T>> for Trouble {
    ghost use Rattle.std.specs.Prelude.{◌≡◌};
    ghost use Rattle.sv_pilot.specs.declared.trouble.Trouble.TheVariants as troubles;

    ghost from_gives = { λ _ e. e ≡ troubles.Memory };

    fn from(_e: AllocFailed<T>) -> Trouble {
        Trouble::Memory
    }
}

impl From<TakeFault> for Trouble {
    ghost use Rattle.std.specs.Prelude.{◌≡◌};
    ghost use Rattle.sv_pilot.specs.Troubles.{trouble_of_take};

    ghost from_gives = { λ fault e. e ≡ trouble_of_take fault };

    fn from(fault: TakeFault) -> Trouble {
        match fault {
            TakeFault::Memory => Trouble::Memory,
            _ => Trouble::Reply,
        }
    }
}

impl From<MakeFault> for Trouble {
    ghost use Rattle.std.specs.Prelude.{◌≡◌};
    ghost use Rattle.sv_pilot.specs.Troubles.{trouble_of_make};

    ghost from_gives = { λ fault e. e ≡ trouble_of_make fault };

    fn from(fault: MakeFault) -> Trouble {
        match fault {
            MakeFault::Memory => Trouble::Memory,
            _ => Trouble::Game,
        }
    }
}

impl From<PollFault> for Trouble {
    ghost use Rattle.std.specs.Prelude.{◌≡◌};
    ghost use Rattle.sv_pilot.specs.Troubles.{trouble_of_poll};

    ghost from_gives = { λ fault e. e ≡ trouble_of_poll fault };

    fn from(fault: PollFault) -> Trouble {
        match fault {
            PollFault::Memory => Trouble::Memory,
            PollFault::Busy => Trouble::Game,
        }
    }
}

impl From<ObserveFault> for Trouble {
    ghost use Rattle.std.specs.Prelude.{◌≡◌};
    ghost use Rattle.sv_pilot.specs.Troubles.{trouble_of_observe};

    ghost from_gives = { λ fault e. e ≡ trouble_of_observe fault };

    fn from(fault: ObserveFault) -> Trouble {
        match fault {
            ObserveFault::Memory => Trouble::Memory,
            ObserveFault::BadObjects | ObserveFault::Busy => Trouble::Game,
        }
    }
}
