//! Why a payload is no message.
ghost use Rattle.std.specs.Prelude.{◌≡◌, length};
ghost use Rattle.sv_wire.specs.declared.fault.DecodeFault.TheVariants as faults;

use std::alloc::{AllocError, AllocFailed};

/// What is wrong with a field.
#[derive(Clone, Copy, Debug, PartialEq, Eq)]
pub enum WireCause {
    /// The payload ends before or inside the field.
    Short,
    /// A kind or node byte that is not allowed here.
    Kind,
    /// A count outside its range.
    Count,
    /// An object not above the one before it.
    Order,
    /// A mask bit at or above the count of reads.
    Mask,
    /// A code that no refusal has.
    Code,
    /// The node byte of a node too many.
    Large,
    /// The node byte of a node with too many nodes above it.
    Deep,
    /// A byte stands after the message's end.
    Rest,
}

/// The first refused field of a payload: the offset of its first byte, and what is wrong with it.
#[derive(Clone, Copy, Debug, PartialEq, Eq)]
pub struct Malformed {
    pub at: u32,
    pub cause: WireCause,
}

/// Why a payload could not be decoded.
#[derive(Clone, Copy, Debug, PartialEq, Eq)]
pub enum WireFault {
    Malformed(Malformed),
    Memory,
}

/// The first refused field: how many bytes are left of the payload from its first byte on, and what is wrong with it.
#[derive(Clone, Copy)]
pub struct Stop {
    pub left: usize,
    pub cause: WireCause,
}

#[derive(Clone, Copy)]
pub enum DecodeFault {
    Stop(Stop),
    Memory,
}

impl From<AllocError> for DecodeFault {
    ghost use Rattle.std.specs.Prelude.{◌≡◌};
    ghost use Rattle.sv_wire.specs.declared.fault.DecodeFault.TheVariants as faults;

    ghost from_gives = { λ _ e. e ≡ faults.Memory };

    fn from(_e: AllocError) -> DecodeFault {
        DecodeFault::Memory
    }
}

impl<T: Drop> From<AllocFailed<T>> for DecodeFault {
    ghost use Rattle.std.specs.Prelude.{◌≡◌};
    ghost use Rattle.sv_wire.specs.declared.fault.DecodeFault.TheVariants as faults;

    ghost from_gives = { λ _ e. e ≡ faults.Memory };

    fn from(_e: AllocFailed<T>) -> DecodeFault {
        DecodeFault::Memory
    }
}

/// Stops at the field that begins these bytes.
pub fn stop_at(bytes: &[u8], cause: WireCause) -> DecodeFault
    ensures { result ≡ faults.Stop (record { left = length bytes.now; cause = cause }) }
{
    DecodeFault::Stop(Stop {
        left: bytes.len(),
        cause,
    })
}
