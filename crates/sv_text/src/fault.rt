//! Why a text is no action.

ghost use Rattle.std.specs.Prelude.{◌≡◌};

use std::alloc::{AllocError, AllocFailed};

/// Why a token may not stand where it stands.
#[derive(Clone, Copy, Debug, Drop, PartialEq, Eq)]
pub enum TextCause {
    /// The byte begins no token.
    Character,
    /// A number with a leading zero, `-0`, or one outside the range that is wanted here.
    Number,
    /// The grammar has no such token here, or a word or number directly follows another.
    Expected,
    /// The object is not among the reads.
    NotRead,
    /// The object is not above the one before it.
    Order,
    /// The 17th read.
    TooMany,
    /// The start of the 65th node.
    TooLarge,
    /// The start of a node that has 8 nodes above it.
    TooDeep,
}

/// The first token that may not stand at its place, by the offset of its first byte, and why.
#[derive(Clone, Copy, Debug, Drop, PartialEq, Eq)]
pub struct TextFault {
    pub place: u32,
    pub cause: TextCause,
}

/// Why no action was read.
#[derive(Debug, Drop)]
pub enum ParseFault {
    /// The text is none of an action, and where that shows first.
    Text(TextFault),
    /// Memory ran out, which says nothing of the text.
    Memory,
}

impl From<TextFault> for ParseFault {
    ghost use Rattle.sv_text.specs.declared.fault.ParseFault.TheVariants.{Text};

    ghost from_gives = { λ f e. e ≡ Text f };

    fn from(fault: TextFault) -> ParseFault {
        ParseFault::Text(fault)
    }
}

impl From<AllocError> for ParseFault {
    ghost use Rattle.sv_text.specs.declared.fault.ParseFault.TheVariants.{Memory};

    ghost from_gives = { λ _ e. e ≡ Memory };

    fn from(_error: AllocError) -> ParseFault {
        ParseFault::Memory
    }
}

impl<T: Drop> From<AllocFailed<T>> for ParseFault {
    ghost use Rattle.sv_text.specs.declared.fault.ParseFault.TheVariants.{Memory};

    ghost from_gives = { λ _ e. e ≡ Memory };

    fn from(_error: AllocFailed<T>) -> ParseFault {
        ParseFault::Memory
    }
}
