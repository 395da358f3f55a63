//! Sinks that bytes are written to.
ghost use Rattle.std.specs.Prelude.{◌≡◌, ℕ, ◌<◌, List, ◌++◌, Option, length, MatchBool, IsTrue};
ghost use Rattle.std.specs.Bool.{OnTrue};
ghost use Rattle.sv_bytes.specs.Faults.{WriteCause, Rose};
ghost use Rattle.sv_bytes.specs.Writing.{TakesSome, WritesFront, Grew, GrewByPart, GrewOrRose, joined_pieces};

/// What `write` answers.
#[derive(Clone, Copy, Debug, PartialEq, Eq)]
pub enum Wrote {
    /// So many bytes of the piece were taken, from its front.
    Took(usize),
    /// The write failed, and no byte was taken.
    Failed,
}

/// What takes bytes, one piece after the other.
pub trait Sink {
    // All bytes taken so far. None where the object doesn't tell it.
    ghost taken: { Self → Option (List ℕ) };

    ghost faults: { Self → ℕ };

    /// Writes from the front of a piece that is not empty.
    fn write(&mut self, piece: &[u8]) -> Wrote
        requires { 0 < length piece.now }
        ensures count { TakesSome (length piece.now) result }
        ensures bytes { WritesFront (taken self.old) (taken self.new) piece.now result }
        ensures cause { WriteCause (faults self.old) (faults self.new) result };
}

/// Writes all the bytes, piece by piece. False where the sink failed before their end.
pub fn write_all<K: Sink>(sink: &mut K, bytes: &[u8]) -> bool
    ensures whole { OnTrue result (Grew (K.taken sink.old) (K.taken sink.new) bytes.now) }
    ensures part { GrewByPart (K.taken sink.old) (K.taken sink.new) bytes.now }
    ensures told { GrewOrRose (K.taken sink.old) (K.taken sink.new) (K.faults sink.old) (K.faults sink.new) bytes.now }
    ensures cause { MatchBool result (K.faults sink.new ≡ K.faults sink.old) (Rose (K.faults sink.old) (K.faults sink.new)) }
{
    let mut done = 0;
    while done < bytes.len() {
        match sink.write(&bytes[done..]) {
            Wrote::Took(count) => done += count,
            Wrote::Failed => return false,
        }
    }
    true
}

/// Writes several pieces in a row, as `write_all` of all of them joined, without taking memory.
pub fn write_pieces<K: Sink>(sink: &mut K, pieces: &[&[u8]]) -> bool
    ensures whole { OnTrue result (Grew (K.taken sink.old) (K.taken sink.new) (joined_pieces pieces.now)) }
    ensures part { GrewByPart (K.taken sink.old) (K.taken sink.new) (joined_pieces pieces.now) }
    ensures told { GrewOrRose (K.taken sink.old) (K.taken sink.new) (K.faults sink.old) (K.faults sink.new) (joined_pieces pieces.now) }
    ensures cause { MatchBool result (K.faults sink.new ≡ K.faults sink.old) (Rose (K.faults sink.old) (K.faults sink.new)) }
{
    for piece in pieces {
        if !write_all(sink, piece) {
            return false;
        }
    }
    true
}
