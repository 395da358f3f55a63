//! Files that are read by name.
ghost use Rattle.std.specs.Prelude.{◌≡◌, ◌≢◌, ℕ, ◌<◌, ◌≤◌, List, Bool, true, Option, length, Ok, Err, IfOk, vec_len};
ghost use Rattle.sv_bytes.specs.Faults.{BeginCause, ReadCause, ReadAllCause};
ghost use Rattle.sv_bytes.specs.Reading.{is_ready, BeginsAt, IsPiece, ReadsNext, ReadsFront};

use std::alloc::{AllocError, Global};
use thiserror::Error;

/// What `begin` answers.
#[derive(Clone, Copy, Debug, PartialEq, Eq)]
pub enum Begun {
    /// The file can be read, from its first byte.
    Ready,
    /// There is no such file, or it can't be opened.
    Failed,
    /// There was no memory.
    Memory,
}

/// What `read` answers.
#[derive(Clone, Copy, Debug, PartialEq, Eq)]
pub enum Read {
    /// So many bytes came, and stand at the front of the buffer.
    Got(usize),
    /// The file has no more bytes.
    Ended,
    /// The read failed, and no byte came.
    Failed,
}

/// Files that are read by name, one at a time.
pub trait Files {
    // What the file of a name holds. None where the object doesn't tell it.
    ghost contents: { Self → List ℕ → Option (List ℕ) };

    // What is to come of the file last begun. None where the object doesn't tell it.
    ghost left: { Self → Option (List ℕ) };

    // The last `begin` answered Ready.
    ghost is_open: { Self → Bool };

    // `begin` of this name can't fail, nor can the reads that follow.
    ghost sure: { Self → List ℕ → Type 0 };

    // The reads of the file last begun can't fail.
    ghost calm: { Self → Type 0 };

    ghost faults: { Self → ℕ };

    /// Begins the file of this name.
    fn begin(&mut self, name: &str) -> Begun
        ensures begins { BeginsAt (contents self.old name.now) (left self.new) result }
        ensures open { is_open self.new ≡ is_ready result }
        ensures cause { BeginCause (faults self.old) (faults self.new) result }
        ensures certain { sure self.old name.now → (result ≢ Begun.Failed) × calm self.new }
        ensures same { (n : List ℕ) → contents self.new n ≡ contents self.old n }
        ensures stays_sure { (n : List ℕ) → sure self.old n → sure self.new n };

    /// Reads the next bytes of the file last begun.
    fn read(&mut self, into: &mut [u8]) -> Read
        requires open { is_open self.old ≡ true }
        requires room { 0 < length into.old }
        ensures piece { IsPiece (length into.old) result }
        ensures bytes { ReadsNext (left self.old) (left self.new) into.new result }
        ensures open { is_open self.new ≡ true }
        ensures cause { ReadCause (faults self.old) (faults self.new) result }
        ensures certain { calm self.old → (result ≢ Read.Failed) × calm self.new }
        ensures same { (n : List ℕ) → contents self.new n ≡ contents self.old n }
        ensures stays_sure { (n : List ℕ) → sure self.old n → sure self.new n };
}

/// Why a file was not read.
#[derive(Clone, Copy, Debug, PartialEq, Eq, Error)]
pub enum FileFault {
    #[error("the file can't be read")]
    Failed,
    #[error("out of memory")]
    Memory,
}

/// Reads the file of this name from its start, up to its end or to `limit` bytes, and never more.
pub fn read_all<F: Files>(
    alloc: Global,
    files: &mut F,
    name: &str,
    limit: usize,
) -> Result<Vec<u8>, FileFault>
    ensures front { IfOk result (λ v. ReadsFront (F.contents files.old name.now) limit v.items (F.left files.new)) }
    ensures bound { IfOk result (λ v. vec_len v ≤ limit) }
    ensures cause { ReadAllCause (F.faults files.old) (F.faults files.new) result }
    ensures certain { F.sure files.old name.now → result ≢ Err FileFault.Failed }
    ensures same { (n : List ℕ) → F.contents files.new n ≡ F.contents files.old n }
    ensures stays_sure { (n : List ℕ) → F.sure files.old n → F.sure files.new n }
{
    match files.begin(name) {
        Begun::Ready => {}
        Begun::Failed => return Err(FileFault::Failed),
        Begun::Memory => return Err(FileFault::Memory),
    }
    let mut bytes = Vec::new(alloc);
    let mut piece = [0u8; ASKED_AT_ONCE];
    while bytes.len() < limit {
        let room = (limit - bytes.len()).min(ASKED_AT_ONCE);
        match files.read(&mut piece[..room]) {
            Read::Got(count) => bytes
                .extend_from_slice(&piece[..count])
                .map_err(|_| FileFault::Memory)?,
            Read::Ended => break,
            Read::Failed => return Err(FileFault::Failed),
        }
    }
    Ok(bytes)
}

/// How many bytes a read of a file asks for at most.
const ASKED_AT_ONCE: usize = 4096;
