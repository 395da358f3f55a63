//! What an end tells of itself, kept beside whatever carries its bytes.
ghost use Rattle.std.specs.Prelude.{◌≡◌, ◌+◌, ◌≤◌, if◌then◌else◌, IsTrue, IfOk, ◌↔◌, length};
ghost use Rattle.std.specs.Vec.{vec_len, vec_capacity};
ghost use Rattle.sv_link.specs.Ends.{new_end, EndReads, EndWrites, EndReadCause, EndWriteCause};
ghost use Rattle.sv_link.specs.Logs.{told_of, IsReadFault, IsWriteFault, CountsFault, faults_after};
ghost use Rattle.sv_link.specs.Streams.{ReadAnswer, WroteAnswer};

use crate::ends::{EndRead, EndWrote};
use crate::side::Side;
use std::alloc::Global;
use std::io;
use std::io::ErrorKind;

/// How many bytes a read takes at most. The log makes room for so many before it is known how many will come.
pub(crate) const MOST_READ: usize = 4_096;

/// The bytes that an end's own calls moved, and how these calls went.
#[derive(Drop)]
pub struct EndLog {
    pub(crate) sent: Vec<u8>,
    pub(crate) received: Vec<u8>,
    pub(crate) ended: bool,
    pub(crate) closed: bool,
    pub(crate) pair: u64,
    pub(crate) side: Side,
    pub(crate) faults: u64,
}

impl EndLog {
    /// A new end's: no call was made.
    pub fn new(alloc: Global, pair: u64, side: Side) -> EndLog
        ensures told { told_of result ≡ new_end pair side }
        ensures faults { result.faults ≡ 0 }
    {
        EndLog {
            sent: Vec::new(alloc),
            received: Vec::new(alloc),
            ended: false,
            closed: false,
            pair,
            side,
            faults: 0,
        }
    }

    // False where the count is full, which stands for running out of memory: no run counts so many.
    fn counts_fault(&mut self) -> bool
        ensures told { told_of self.new ≡ told_of self.old }
        ensures faults { self.new.faults ≡ (if result then self.old.faults + 1 else self.old.faults) }
        ensures counts { IsTrue result ↔ CountsFault self.old }
        ensures counted { self.new.faults ≡ faults_after self.old }
    {
        let Some(faults) = self.faults.checked_add(1) else {
            return false;
        };
        self.faults = faults;
        true
    }

    /// Counts the fault of a read, and gives its answer.
    pub(crate) fn read_failed(&mut self) -> EndRead
        ensures fault { IsReadFault result }
        ensures told { told_of self.new ≡ told_of self.old }
        ensures cause { EndReadCause self.old.faults self.new.faults result }
        ensures failed { result ≡ EndRead.Failed ↔ CountsFault self.old }
        ensures counted { self.new.faults ≡ faults_after self.old }
    {
        if self.counts_fault() {
            EndRead::Failed
        } else {
            EndRead::Memory
        }
    }

    /// Counts the fault of a write, and gives its answer.
    pub(crate) fn write_failed(&mut self) -> EndWrote
        ensures fault { IsWriteFault result }
        ensures told { told_of self.new ≡ told_of self.old }
        ensures cause { EndWriteCause self.old.faults self.new.faults result }
        ensures failed { result ≡ EndWrote.Failed ↔ CountsFault self.old }
        ensures counted { self.new.faults ≡ faults_after self.old }
    {
        if self.counts_fault() {
            EndWrote::Failed
        } else {
            EndWrote::Memory
        }
    }

    /// Notes what a stream answered to a read, and gives the end's answer. The room for the bytes is there.
    pub(crate) fn read_answered(&mut self, answer: io::Result<usize>, into: &[u8]) -> EndRead
        requires within { IfOk answer (λ n. (n ≤ length into.now) × (vec_len self.old.received + n ≤ vec_capacity self.old.received)) }
        ensures answer { ReadAnswer self.old answer result }
        ensures told { EndReads (told_of self.old) into.now result (told_of self.new) }
        ensures cause { EndReadCause self.old.faults self.new.faults result }
    {
        match answer {
            Ok(0) => {
                self.ended = true;
                EndRead::Ended
            }
            Ok(count) => {
                self.received.extend_from_slice(&into[..count]).unwrap();
                EndRead::Got(count)
            }
            Err(error) if error.kind() == ErrorKind::OutOfMemory => EndRead::Memory,
            Err(_) => self.read_failed(),
        }
    }

    /// Notes what a stream answered to a write, and gives the end's answer. The room for the bytes is there.
    pub(crate) fn write_answered(&mut self, answer: io::Result<usize>, piece: &[u8]) -> EndWrote
        requires within { IfOk answer (λ n. (n ≤ length piece.now) × (vec_len self.old.sent + n ≤ vec_capacity self.old.sent)) }
        ensures answer { WroteAnswer self.old answer result }
        ensures told { EndWrites (told_of self.old) piece.now result (told_of self.new) }
        ensures cause { EndWriteCause self.old.faults self.new.faults result }
    {
        match answer {
            Ok(0) => self.write_failed(),
            Ok(count) => {
                self.sent.extend_from_slice(&piece[..count]).unwrap();
                EndWrote::Took(count)
            }
            Err(error) if error.kind() == ErrorKind::OutOfMemory => EndWrote::Memory,
            Err(_) => self.write_failed(),
        }
    }
}
