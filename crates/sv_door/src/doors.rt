//! Where the ends of connections come from, where the other end is another program's.
ghost use Rattle.std.specs.Prelude.{◌≡◌, ℕ, suc, ◌<◌, List, ◌∷◌, ◌++◌, []};
ghost use Rattle.sv_link.specs.declared.side.Side.TheVariants.{Server, Client};
ghost use Rattle.sv_door.specs.Doors.{Passage, passage_of, MakesEnd, OwesEnd, MadeCause, IsCalmMade};

use sv_link::End;

/// What `accept` and `connect` answer.
#[derive(Debug, Drop)]
pub enum EndMade<E> {
    /// A new end of a connection.
    End(E),

    /// The connection could not be made.
    Failed,

    /// There was no memory.
    Memory,
}

/// Makes ends of connections to another program, by a number that both know: a port. It takes the ends back once they are done.
///
/// Contracts see what the ends that were given back had moved, how many ends were made, and how many of these are still to be given back.
pub trait Door {
    type E: End + Send;

    ghost given: { Self → List Passage };

    // How many ends were made. It is the number of the next one.
    ghost made: { Self → ℕ };

    // How many of these were not given back.
    ghost owed: { Self → ℕ };

    ghost faults: { Self → ℕ };

    // Ends can be made at this port, and their calls can't fail.
    ghost sure: { Self → ℕ → Type 0 };

    /// Waits for a client at this port, and makes the server's end of a connection to it.
    fn accept(&mut self, port: u16) -> EndMade<Self::E>
        ensures made { MakesEnd Self.E.told Self.E.faults Server (made self.old) (made self.new) result }
        ensures owed { OwesEnd (owed self.old) (owed self.new) result }
        ensures given { given self.new ≡ given self.old }
        ensures cause { MadeCause (faults self.old) (faults self.new) result }
        ensures certain { sure self.old port → IsCalmMade Self.E.calm result }
        ensures stays_sure { (p : ℕ) → sure self.old p → sure self.new p };

    /// Connects to a server at this port, and makes the client's end. It may wait for the server.
    fn connect(&mut self, port: u16) -> EndMade<Self::E>
        ensures made { MakesEnd Self.E.told Self.E.faults Client (made self.old) (made self.new) result }
        ensures owed { OwesEnd (owed self.old) (owed self.new) result }
        ensures given { given self.new ≡ given self.old }
        ensures cause { MadeCause (faults self.old) (faults self.new) result }
        ensures certain { sure self.old port → IsCalmMade Self.E.calm result }
        ensures stays_sure { (p : ℕ) → sure self.old p → sure self.new p };

    /// Takes an end back. It takes no memory.
    fn give_back(&mut self, end: Self::E)
        requires own { (Self.E.told end).pair < made self.old }
        requires owed { 0 < owed self.old }
        ensures given { given self.new ≡ given self.old ++ passage_of (Self.E.told end) (Self.E.faults end) ∷ [] }
        ensures made { made self.new ≡ made self.old }
        ensures owed { owed self.old ≡ suc (owed self.new) }
        ensures faults { faults self.new ≡ faults self.old }
        ensures stays_sure { (p : ℕ) → sure self.old p → sure self.new p };
}
