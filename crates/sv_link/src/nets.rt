//! Where pairs of ends come from, and where they are settled.
ghost use Rattle.std.specs.Prelude.{◌≡◌, ℕ, suc, ◌<◌, List};
ghost use Rattle.sv_link.specs.Nets.{Transcript, BothEnds, both_ends, BothArrived, AreTwoEnds, Settles, ListsUnmatched, SettleCause, counted, MakesPair, OwesPair, PairCause, IsCalmPair};

use crate::ends::End;

/// What `pair` answers.
#[derive(Debug, Drop)]
pub enum Pair<E> {
    /// The server's end, and the client's.
    Made(E, E),

    /// The connection could not be made.
    Failed,

    /// There was no memory.
    Memory,
}

/// What `settle` answers.
#[derive(Clone, Copy, Debug, PartialEq, Eq)]
pub enum Settle {
    /// What each end received is what the other sent, or a beginning of it.
    Matched,

    /// Bytes differ, or an end had a fault that counts.
    Failed,
}

/// Makes connections, and compares what their two ends tell once both are done.
///
/// Contracts see the transcripts of the pairs that matched, the pairs that did not, how many pairs were made, and how many of these are still
/// to be settled.
pub trait Net {
    type E: End + Send;

    ghost settled: { Self → List Transcript };

    // The pairs that were told as not matched.
    ghost unmatched: { Self → List BothEnds };

    // How many pairs were made. It is the number of the next one.
    ghost made: { Self → ℕ };

    // How many of these are not settled.
    ghost owed: { Self → ℕ };

    ghost faults: { Self → ℕ };

    // Pairs can't fail, nor can the ends' calls; and settling fails just where bytes differ.
    ghost calm: { Self → Type 0 };

    /// Makes a connection: the server's end, and the client's.
    fn pair(&mut self) -> Pair<Self::E>
        ensures made { MakesPair Self.E.told Self.E.faults (made self.old) (made self.new) result }
        ensures owed { OwesPair (owed self.old) (owed self.new) result }
        ensures settled { (settled self.new ≡ settled self.old) × (unmatched self.new ≡ unmatched self.old) }
        ensures cause { PairCause (faults self.old) (faults self.new) result }
        ensures calm { calm self.old → IsCalmPair Self.E.calm result × calm self.new };

    /// Takes both ends of a pair in, and compares them. `cut` says that the client left the session on its own: then no fault of the two
    /// ends counts. It takes no memory.
    fn settle(&mut self, server: Self::E, client: Self::E, cut: bool) -> Settle
        requires pair { AreTwoEnds (made self.old) (Self.E.told server) (Self.E.told client) }
        requires owed { 0 < owed self.old }
        ensures settles { Settles (Self.E.told server) (Self.E.faults server) (Self.E.told client) (Self.E.faults client) cut (settled self.old) (settled self.new) result }
        ensures unmatched { ListsUnmatched (both_ends (Self.E.told server) (Self.E.faults server) (Self.E.told client) (Self.E.faults client)) (unmatched self.old) (unmatched self.new) result }
        ensures made { made self.new ≡ made self.old }
        ensures owed { owed self.old ≡ suc (owed self.new) }
        ensures cause { SettleCause (faults self.old) (faults self.new) (counted cut (Self.E.faults server) (Self.E.faults client)) result }
        ensures calm { calm self.old → calm self.new }
        ensures certain { calm self.old → Self.E.calm server → Self.E.calm client → BothArrived (Self.E.told server) (Self.E.told client) → result ≡ Settle.Matched };
}
