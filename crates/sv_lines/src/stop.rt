//! Why the reading of a report stops before its end.
ghost use Rattle.std.specs.Prelude.{◌≡◌};

use std::alloc::{AllocError, AllocFailed};

/// Why reading stopped.
#[derive(Clone, Copy, Debug, Drop)]
pub enum LineStop {
    /// The line that comes next, with so many bytes left of the text, is wrong.
    Wrong { left: usize },
    Memory,
}

impl From<AllocError> for LineStop {
    ghost use Rattle.sv_lines.specs.declared.stop.LineStop.TheVariants.{Memory};

    ghost from_gives = { λ _ e. e ≡ Memory };

    fn from(_error: AllocError) -> LineStop {
        LineStop::Memory
    }
}

impl<T: Drop> From<AllocFailed<T>> for LineStop {
    ghost use Rattle.sv_lines.specs.declared.stop.LineStop.TheVariants.{Memory};

    ghost from_gives = { λ _ e. e ≡ Memory };

    fn from(_error: AllocFailed<T>) -> LineStop {
        LineStop::Memory
    }
}

/// Why a line could not be read.
#[derive(Clone, Copy, Debug, Drop)]
pub enum LineFault {
    /// It is none of those that are wanted here.
    Wrong,
    Memory,
}

impl From<AllocError> for LineFault {
    ghost use Rattle.sv_lines.specs.declared.stop.LineFault.TheVariants.{Memory};

    ghost from_gives = { λ _ e. e ≡ Memory };

    fn from(_error: AllocError) -> LineFault {
        LineFault::Memory
    }
}

impl<T: Drop> From<AllocFailed<T>> for LineFault {
    ghost use Rattle.sv_lines.specs.declared.stop.LineFault.TheVariants.{Memory};

    ghost from_gives = { λ _ e. e ≡ Memory };

    fn from(_error: AllocFailed<T>) -> LineFault {
        LineFault::Memory
    }
}
