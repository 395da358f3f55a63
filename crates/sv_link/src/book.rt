//! What a net or a door keeps: how many it made, and what came of them.
ghost use Rattle.std.specs.Prelude.{◌≡◌, suc, ◌+◌, ◌<◌, ◌≤◌, ◌∷◌, ◌++◌, [], IsTrue};
ghost use Rattle.std.specs.Vec.{vec_len, vec_capacity};

use std::alloc::Global;
use sv_bytes::FaultCount;

/// What is kept of each pair or end that is done, and how many were made. It has room for those that are still to be done.
#[derive(Drop)]
pub struct Book<T: Drop> {
    pub kept: Vec<T>,
    pub made: u64,
    pub owed: usize,
    pub faults: FaultCount,
    ghost room: { vec_len kept + owed ≤ vec_capacity kept },
}

impl<T: Drop> Book<T> {
    ghost use Rattle.sv_link.specs.Books.{IsNewBook, CanOpen};

    /// Nothing was made.
    pub fn new(alloc: Global) -> Book<T>
        ensures { IsNewBook result }
    {
        Book {
            kept: Vec::new(alloc),
            made: 0,
            owed: 0,
            faults: FaultCount::new(),
        }
    }

    /// Takes the room for one more. False where there is no memory.
    pub fn takes_room(&mut self) -> bool
        ensures room { IsTrue result → CanOpen self.new }
        ensures same { (self.new.kept.items ≡ self.old.kept.items) × (self.new.made ≡ self.old.made) × (self.new.owed ≡ self.old.owed) × (self.new.faults ≡ self.old.faults) }
    {
        let Some(owed) = self.owed.checked_add(1) else {
            return false;
        };
        self.made < u64::MAX && self.kept.reserve(owed).is_ok()
    }

    /// Gives the number of a new one.
    pub fn take_number(&mut self) -> u64
        requires room { CanOpen self.old }
        ensures number { result ≡ self.old.made }
        ensures made { (self.new.made ≡ suc self.old.made) × (self.new.owed ≡ suc self.old.owed) }
        ensures same { (self.new.kept.items ≡ self.old.kept.items) × (self.new.faults ≡ self.old.faults) }
    {
        let number = self.made;
        self.made += 1;
        self.owed += 1;
        number
    }

    /// Counts a fault of the net's or the door's own.
    pub fn count_fault(&mut self)
        ensures counted { self.new.faults.value ≡ self.old.faults.value + 1 }
        ensures same { (self.new.kept.items ≡ self.old.kept.items) × (self.new.made ≡ self.old.made) × (self.new.owed ≡ self.old.owed) }
    {
        self.faults.raise();
    }

    /// Keeps what is left of one that is done.
    pub fn keep(&mut self, item: T)
        requires owed { 0 < self.old.owed }
        ensures kept { self.new.kept.items ≡ self.old.kept.items ++ item ∷ [] }
        ensures owed { self.old.owed ≡ suc self.new.owed }
        ensures same { (self.new.made ≡ self.old.made) × (self.new.faults ≡ self.old.faults) }
    {
        self.owed -= 1;
        self.kept.push_reserved(item);
    }
}
