//! How a call of the program ends.
ghost use Rattle.std.specs.Prelude.{◌≡◌};
ghost use Rattle.std.specs.Option.{option_copied};
ghost use Rattle.sv_bytes.specs.Writing.{GrewOrRose};
ghost use Rattle.sv_ending.specs.Statuses.{ending_line, status_of};

use crate::lines::{tell_file, tell_line};
use std::alloc::AllocError;
use sv_bytes::Sink;

/// How a call of the program ends.
#[derive(Debug, Drop)]
pub enum Ending {
    Done,

    /// The words are none that the call knows.
    Words,

    /// The file is no scenario. The line tells where and why.
    Scenario(String),

    /// The file can't be read.
    File,

    /// A thread could not be started.
    Start,

    /// A link failed.
    Link,

    /// The output failed.
    Out,

    /// There was no memory.
    Memory,

    /// What was read has nothing of the number that the words have.
    Range,
}

impl From<AllocError> for Ending {
    ghost use Rattle.std.specs.Prelude.{◌≡◌};
    ghost use Rattle.sv_ending.specs.declared.ending.Ending.TheVariants as endings;

    ghost from_gives = { λ _ e. e ≡ endings.Memory };

    fn from(_e: AllocError) -> Ending {
        Ending::Memory
    }
}

/// Writes the line that tells of an ending. `words_line` is the whole line that tells which words the call knows, with its line's end, and
/// `named` is the file that the words name. Where the writing fails, a front part of the line was written, and nobody is told.
pub fn tell<E: Sink>(ending: &Ending, words_line: &[u8], named: Option<&str>, err: &mut E)
    ensures { GrewOrRose (E.taken err.old) (E.taken err.new) (E.faults err.old) (E.faults err.new) (ending_line words_line.now ending.now (option_copied named.entry)) }
{
    match ending {
        Ending::Done => tell_line(b"", err),
        Ending::Words => tell_line(words_line, err),
        Ending::Scenario(line) => tell_line(line.as_bytes(), err),
        Ending::File => tell_file(named.unwrap_or(""), err),
        Ending::Start => tell_line(b"start\n", err),
        Ending::Link => tell_line(b"link\n", err),
        Ending::Out => tell_line(b"out\n", err),
        Ending::Memory => tell_line(b"memory\n", err),
        Ending::Range => tell_line(b"range\n", err),
    }
}

/// The status with which the program ends.
pub fn status_of(ending: &Ending) -> u8
    ensures { result ≡ status_of ending.now }
{
    match ending {
        Ending::Done => 0,
        Ending::Words => 2,
        Ending::Scenario(_) => 3,
        Ending::File => 4,
        Ending::Out => 5,
        Ending::Link => 6,
        Ending::Start => 7,
        Ending::Memory => 8,
        Ending::Range => 10,
    }
}
