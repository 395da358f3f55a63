//! How the server ends.
ghost use Rattle.std.specs.Prelude.{◌≡◌, ◌⊎◌};
ghost use Rattle.sv_bytes.specs.Writing.{GrewOrRose};
ghost use Rattle.sv_host.specs.Lines.{ending_line, status_of};
ghost use Rattle.sv_host.specs.Statuses.{IsEarly, IsStatus};

use crate::telling::tell_standing;
use std::alloc::AllocError;
use sv_bytes::{Sink, write_pieces};
use sv_keys::{KeysFault, tell as tell_keys};

/// How a world stands that was served until it was to stop.
#[derive(Drop)]
pub struct Stopped {
    pub folder: String,
    pub entries: u64,
    pub commit: u32,
}

/// How a call of `host` ends.
#[derive(Drop)]
pub enum HostEnd {
    Done(Stopped),
    /// The words are none that the call knows.
    Words,
    /// The file is no world. The line tells where and why.
    World(String),
    /// This line of the file of keys is wrong.
    Keys(String, u64),
    /// This file can't be read.
    File(String),
    /// The door could not be opened, or the waiting failed.
    Link,
    Memory,
    /// This file of the log could not be written or synced.
    Disk(String),
    /// The log is refused. The line tells the file and the cause.
    Log(String),
    /// Another one has this folder or address.
    Busy(String),
}

impl From<AllocError> for HostEnd {
    ghost use Rattle.std.specs.Prelude.{◌≡◌};
    ghost use Rattle.sv_host.specs.declared.ending.HostEnd.TheVariants as endings;

    ghost from_gives = { λ _ e. e ≡ endings.Memory };

    fn from(_e: AllocError) -> HostEnd {
        HostEnd::Memory
    }
}

/// Writes the line that tells of an ending. Where the writing fails, a front part of the line was written, and nobody is told.
pub fn tell<E: Sink>(ending: &HostEnd, err: &mut E)
    ensures { GrewOrRose (E.taken err.old) (E.taken err.new) (E.faults err.old) (E.faults err.new) (ending_line ending.now) }
{
    match ending {
        HostEnd::Done(stopped) => {
            let folder = stopped.folder.as_str();
            tell_standing("stop", folder, stopped.entries, stopped.commit, err);
        }
        HostEnd::Words => {
            write_pieces(err, &[b"words: host WORLD DIR [OPTION ..]\n"]);
        }
        HostEnd::World(line) => {
            write_pieces(err, &[line.as_bytes()]);
        }
        HostEnd::Keys(name, line) => tell_keys(KeysFault::Line(*line), name.as_str(), err),
        HostEnd::File(name) => {
            write_pieces(err, &[b"file: ", name.as_bytes(), b"\n"]);
        }
        HostEnd::Link => {
            write_pieces(err, &[b"link\n"]);
        }
        HostEnd::Memory => {
            write_pieces(err, &[b"memory\n"]);
        }
        HostEnd::Disk(name) | HostEnd::Log(name) => {
            write_pieces(err, &[b"log: ", name.as_bytes(), b"\n"]);
        }
        HostEnd::Busy(name) => {
            write_pieces(err, &[b"busy: ", name.as_bytes(), b"\n"]);
        }
    }
}

/// The status with which the program ends.
pub fn status_of(ending: &HostEnd) -> u8
    ensures value { result ≡ status_of ending.now }
    ensures range { IsStatus result }
    ensures early { (result ≡ 2) ⊎ ((result ≡ 3) ⊎ (result ≡ 4)) → IsEarly ending.now }
{
    match ending {
        HostEnd::Done(_) => 0,
        HostEnd::Words => 2,
        HostEnd::World(_) | HostEnd::Keys(..) => 3,
        HostEnd::File(_) => 4,
        HostEnd::Disk(_) => 5,
        HostEnd::Link => 6,
        HostEnd::Memory => 8,
        HostEnd::Log(_) => 13,
        HostEnd::Busy(_) => 14,
    }
}
