//! An end of a connection, which a thread holds.
ghost use Rattle.std.specs.Prelude.{◌≡◌, ◌≢◌, ℕ, ◌<◌, false, true, length};
ghost use Rattle.sv_link.specs.Ends.{Told, EndReads, EndWrites, Sends, EndReadCause, EndWriteCause, SentCause};

/// What a read of an end answers.
#[derive(Clone, Copy, Debug, PartialEq, Eq)]
pub enum EndRead {
    /// So many bytes came, and stand at the front of the buffer.
    Got(usize),

    /// No more bytes will come.
    Ended,

    /// The read failed, and no byte came.
    Failed,

    /// There was no memory, and no byte came.
    Memory,
}

/// What a write to an end answers.
#[derive(Clone, Copy, Debug, PartialEq, Eq)]
pub enum EndWrote {
    /// So many bytes at the front of the piece were taken.
    Took(usize),

    /// The write failed, and no byte was taken.
    Failed,

    /// There was no memory, and no byte was taken.
    Memory,
}

/// One end of a connection between a client and its session. Its other end is elsewhere, mostly with another thread.
///
/// Contracts see what it tells of itself: the bytes that its own calls moved, and no more. What became of them at the other end shows
/// when both are settled. Dropping an end closes it.
pub trait End: Drop {
    ghost told: { Self → Told };

    // How many calls answered that they failed.
    ghost faults: { Self → ℕ };

    // Its calls can't fail.
    ghost calm: { Self → Type 0 };

    /// Waits for bytes, and reads what has come, or a front part of it, as much as fits.
    fn read(&mut self, into: &mut [u8]) -> EndRead
        requires open { (told self.old).closed ≡ false }
        requires room { 0 < length into.old }
        ensures told { EndReads (told self.old) into.new result (told self.new) }
        ensures cause { EndReadCause (faults self.old) (faults self.new) result }
        ensures calm { calm self.old → (result ≢ EndRead.Failed) × calm self.new };

    /// Writes the front of the piece, as much as is taken at once.
    fn write(&mut self, piece: &[u8]) -> EndWrote
        requires open { (told self.old).closed ≡ false }
        requires some { 0 < length piece.now }
        ensures told { EndWrites (told self.old) piece.now result (told self.new) }
        ensures cause { EndWriteCause (faults self.old) (faults self.new) result }
        ensures calm { calm self.old → (result ≢ EndWrote.Failed) × calm self.new };

    /// Closes the end. It takes no memory.
    fn close(&mut self)
        ensures told { told self.new ≡ record (told self.old) { closed = true } }
        ensures faults { faults self.new ≡ faults self.old }
        ensures calm { calm self.old → calm self.new };
}

/// What became of bytes that were to be sent whole.
#[derive(Clone, Copy, Debug, PartialEq, Eq)]
pub enum Sent {
    /// All of them were taken.
    Whole,

    /// A write failed, after some front part was taken.
    Failed,

    /// There was no memory, after some front part was taken.
    Memory,
}

/// Writes all bytes to an end, in as many writes as it takes.
pub fn send_all<E: End>(end: &mut E, bytes: &[u8]) -> Sent
    requires open { (E.told end.old).closed ≡ false }
    ensures told { Sends (E.told end.old) bytes.now result (E.told end.new) }
    ensures cause { SentCause (E.faults end.old) (E.faults end.new) result }
    ensures calm { E.calm end.old → (result ≢ Sent.Failed) × E.calm end.new }
{
    let mut done = 0;
    while done < bytes.len() {
        match end.write(&bytes[done..]) {
            EndWrote::Took(count) => done += count,
            EndWrote::Failed => return Sent::Failed,
            EndWrote::Memory => return Sent::Memory,
        }
    }
    Sent::Whole
}
