//! The files and the writers of the system.
use super::again::{read_again, write_again};
use super::faults::FaultCount;
use super::reading::{Begun, Files, Read};
use super::writing::{Sink, Wrote};
use std::rt::Files as System;
use std::{fs, io};

/// The files of the system. It tells nothing of their contents.
#[derive(Drop)]
pub struct OsFiles<'r, R: System> {
    rt: &'r R,
    file: Option<R::File>,
    faults: FaultCount,
}

impl<'r, R: System> OsFiles<'r, R> {
    /// No file is begun.
    pub fn new(rt: &'r R) -> OsFiles<'r, R> {
        OsFiles {
            rt,
            file: None,
            faults: FaultCount::new(),
        }
    }
}

impl<'r, R: System> Files for OsFiles<'r, R> {
    ghost use Rattle.std.specs.Prelude.{None, is_some};

    ghost contents = { λ _ _. None };

    ghost left = { λ _. None };

    ghost is_open = { λ s. is_some s.file };

    ghost sure = { λ _ _. ⊥ };

    ghost calm = { λ _. ⊥ };

    ghost faults = { λ s. s.faults.value };

    fn begin(&mut self, name: &str) -> Begun {
        self.file = None;
        match fs::open(self.rt, name) {
            Ok(file) => {
                self.file = Some(file);
                Begun::Ready
            }
            Err(error) if error.kind() == io::ErrorKind::OutOfMemory => Begun::Memory,
            Err(_) => {
                self.faults.raise();
                Begun::Failed
            }
        }
    }

    fn read(&mut self, into: &mut [u8]) -> Read {
        let Some(file) = &mut self.file else {
            unreachable!()
        };
        match read_again(file, into) {
            Ok(0) => Read::Ended,
            Ok(count) => Read::Got(count),
            Err(_) => {
                self.faults.raise();
                Read::Failed
            }
        }
    }
}

/// A writer of the system, such as the standard output. It tells nothing of what it took.
#[derive(Drop)]
pub struct OsSink<W: io::Write + Drop> {
    writer: W,
    faults: FaultCount,
}

impl<W: io::Write + Drop> OsSink<W> {
    /// The writer has no buffer of its own: nothing here flushes it.
    pub fn new(writer: W) -> OsSink<W> {
        OsSink {
            writer,
            faults: FaultCount::new(),
        }
    }
}

impl<W: io::Write + Drop> Sink for OsSink<W> {
    ghost use Rattle.std.specs.Prelude.{None};

    ghost taken = { λ _. None };

    ghost faults = { λ s. s.faults.value };

    fn write(&mut self, piece: &[u8]) -> Wrote {
        match write_again(&mut self.writer, piece) {
            Ok(count) if count > 0 => Wrote::Took(count),
            _ => {
                self.faults.raise();
                Wrote::Failed
            }
        }
    }
}
