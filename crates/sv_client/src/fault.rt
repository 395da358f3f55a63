//! Why a client refuses a call.
use std::alloc::{AllocError, AllocFailed};
use sv_world::{BadAction, ObjectId};
use thiserror::Error;

/// Why a reply is not taken. The first cause in this order that applies is answered.
#[derive(Clone, Copy, Debug, Drop, PartialEq, Eq)]
pub enum TakeFault {
    /// Nothing is outstanding.
    Unasked,
    /// The oldest outstanding request has no reply of this kind.
    WrongKind,
    /// The head's objects or the items' positions do not ascend, the first item is at or below the reply's commit, that commit is
    /// below one that the client was told, or what was seen is known at no position, or at one below the commit or below an item.
    BadOrder,
    /// The head or an item is none of this world, or the reply is not for the client's oldest pending action.
    BadItem,
    /// The item at this position reads an object of which no value below it is held; or this object was observed, and none is held of it
    /// below this position, the first one behind what was seen.
    Missing { pos: u32, object: ObjectId },
    Memory,
}

impl From<AllocError> for TakeFault {
    ghost use Rattle.std.specs.Prelude.{◌≡◌};
    ghost use Rattle.sv_client.specs.declared.fault.TakeFault.TheVariants as faults;

    ghost from_gives = { λ _ e. e ≡ faults.Memory };

    fn from(_e: AllocError) -> TakeFault {
        TakeFault::Memory
    }
}

impl<T: Drop> From<AllocFailed<T>> for TakeFault {
    ghost use Rattle.std.specs.Prelude.{◌≡◌};
    ghost use Rattle.sv_client.specs.declared.fault.TakeFault.TheVariants as faults;

    ghost from_gives = { λ _ e. e ≡ faults.Memory };

    fn from(_e: AllocFailed<T>) -> TakeFault {
        TakeFault::Memory
    }
}

/// Why an action is not made.
#[derive(Clone, Copy, Debug, Drop, PartialEq, Eq, Error)]
pub enum MakeFault {
    #[error("the action is refused")]
    BadAction(BadAction),
    #[error("8 actions are pending")]
    Full,
    #[error("16 requests are outstanding")]
    Busy,
    #[error("out of memory")]
    Memory,
}

impl From<AllocError> for MakeFault {
    ghost use Rattle.std.specs.Prelude.{◌≡◌};
    ghost use Rattle.sv_client.specs.declared.fault.MakeFault.TheVariants as faults;

    ghost from_gives = { λ _ e. e ≡ faults.Memory };

    fn from(_e: AllocError) -> MakeFault {
        MakeFault::Memory
    }
}

impl<T: Drop> From<AllocFailed<T>> for MakeFault {
    ghost use Rattle.std.specs.Prelude.{◌≡◌};
    ghost use Rattle.sv_client.specs.declared.fault.MakeFault.TheVariants as faults;

    ghost from_gives = { λ _ e. e ≡ faults.Memory };

    fn from(_e: AllocFailed<T>) -> MakeFault {
        MakeFault::Memory
    }
}

/// Why the server is not polled.
#[derive(Clone, Copy, Debug, Drop, PartialEq, Eq, Error)]
pub enum PollFault {
    #[error("16 requests are outstanding")]
    Busy,
    #[error("out of memory")]
    Memory,
}

impl From<AllocError> for PollFault {
    ghost use Rattle.std.specs.Prelude.{◌≡◌};
    ghost use Rattle.sv_client.specs.declared.fault.PollFault.TheVariants as faults;

    ghost from_gives = { λ _ e. e ≡ faults.Memory };

    fn from(_e: AllocError) -> PollFault {
        PollFault::Memory
    }
}

impl<T: Drop> From<AllocFailed<T>> for PollFault {
    ghost use Rattle.std.specs.Prelude.{◌≡◌};
    ghost use Rattle.sv_client.specs.declared.fault.PollFault.TheVariants as faults;

    ghost from_gives = { λ _ e. e ≡ faults.Memory };

    fn from(_e: AllocFailed<T>) -> PollFault {
        PollFault::Memory
    }
}

/// Why objects are not observed.
#[derive(Clone, Copy, Debug, Drop, PartialEq, Eq, Error)]
pub enum ObserveFault {
    #[error("the objects are refused")]
    BadObjects,
    #[error("16 requests are outstanding")]
    Busy,
    #[error("out of memory")]
    Memory,
}

impl From<AllocError> for ObserveFault {
    ghost use Rattle.std.specs.Prelude.{◌≡◌};
    ghost use Rattle.sv_client.specs.declared.fault.ObserveFault.TheVariants as faults;

    ghost from_gives = { λ _ e. e ≡ faults.Memory };

    fn from(_e: AllocError) -> ObserveFault {
        ObserveFault::Memory
    }
}

impl<T: Drop> From<AllocFailed<T>> for ObserveFault {
    ghost use Rattle.std.specs.Prelude.{◌≡◌};
    ghost use Rattle.sv_client.specs.declared.fault.ObserveFault.TheVariants as faults;

    ghost from_gives = { λ _ e. e ≡ faults.Memory };

    fn from(_e: AllocFailed<T>) -> ObserveFault {
        ObserveFault::Memory
    }
}
