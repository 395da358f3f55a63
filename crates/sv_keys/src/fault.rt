//! Why a file of keys is not taken, and how that is told.
ghost use Rattle.std.specs.Prelude.{◌≡◌};
ghost use Rattle.sv_bytes.specs.Writing.{GrewOrRose};
ghost use Rattle.sv_keys.specs.Keeping.{keys_line};

use std::alloc::{AllocError, AllocFailed};
use sv_bytes::{Sink, write_pieces};

/// Why a file of keys is not taken.
#[derive(Clone, Copy, Debug, Drop, PartialEq, Eq)]
pub enum KeysFault {
    /// It can't be read, or it is too long.
    File,
    /// This line is wrong. Lines count from 1.
    Line(u64),
    Memory,
}

impl From<AllocError> for KeysFault {
    ghost use Rattle.std.specs.Prelude.{◌≡◌};
    ghost use Rattle.sv_keys.specs.declared.fault.KeysFault.TheVariants as faults;

    ghost from_gives = { λ _ e. e ≡ faults.Memory };

    fn from(_e: AllocError) -> KeysFault {
        KeysFault::Memory
    }
}

impl<T: Drop> From<AllocFailed<T>> for KeysFault {
    ghost use Rattle.std.specs.Prelude.{◌≡◌};
    ghost use Rattle.sv_keys.specs.declared.fault.KeysFault.TheVariants as faults;

    ghost from_gives = { λ _ e. e ≡ faults.Memory };

    fn from(_e: AllocFailed<T>) -> KeysFault {
        KeysFault::Memory
    }
}

/// Writes the line that tells of a file of keys that is not taken.
pub fn tell<E: Sink>(fault: KeysFault, file: &str, err: &mut E)
    ensures { GrewOrRose (E.taken err.old) (E.taken err.new) (E.faults err.old) (E.faults err.new) (keys_line file.now fault) }
{
    match fault {
        KeysFault::Line(number) => {
            let mut digits = itoa::Buffer::new();
            let number = digits.format(number);
            write_pieces(
                err,
                &[b"keys: ", file.as_bytes(), b":", number.as_bytes(), b"\n"],
            );
        }
        KeysFault::File | KeysFault::Memory => {
            write_pieces(err, &[b"keys: ", file.as_bytes(), b"\n"]);
        }
    }
}
