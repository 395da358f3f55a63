//! Positions that are looked at next, in place.
ghost use Rattle.std.specs.Prelude.{◌≡◌, ◌<◌, ℕ, true, ◌+◌, ◌≤◌, [], ◌∷◌, ◌++◌, filter, length, nat_lt, IsTrue, IsFalse, IfNone, OnOk, OnErr, option_to_list};
ghost use Rattle.sv_world.specs.Control.{is_in};
ghost use Rattle.sv_world.specs.Faults.{is_ascending};
ghost use Rattle.sv_influence.specs.Writers.{most_waiting};

use arrayvec::ArrayVec;
use std::marker::Model;

/// There was no room for one more position.
#[derive(Debug, Drop)]
pub struct Full;

/// Up to 32 positions in ascending order, each once, which take no memory of their own.
#[derive(Drop)]
pub struct Wanted {
    items: ArrayVec<u32, 32>,
}

impl Model for Wanted {
    ghost use Rattle.std.specs.Prelude.{◌≡◌, ℕ, true, List};
    ghost use Rattle.sv_world.specs.Faults.{is_ascending};

    ghost Value = { List ℕ };

    ghost view = { λ a. a.items.items };

    ghost invariant = { λ a. is_ascending a.items.items ≡ true };
}

impl Wanted {
    pub fn new() -> Wanted
        ensures { result ≡ [] }
    {
        Wanted {
            items: ArrayVec::new(),
        }
    }

    /// The positions as they are otherwise, and this writer, where 0 stands for none.
    pub fn add_writer(&mut self, writer: u32) -> Result<(), Full>
        ensures added { OnOk result ((j : ℕ) → is_in j self.new ≡ is_in j (filter (λ k. nat_lt 0 k) (writer ∷ []) ++ self.old)) }
        ensures full { OnErr result (length self.old ≡ most_waiting) }
    {
        if writer == 0 {
            return Ok(());
        }
        self.insert(writer)
    }

    /// The positions as they are otherwise, and this one.
    pub fn insert(&mut self, pos: u32) -> Result<(), Full>
        ensures added { OnOk result ((j : ℕ) → is_in j self.new ≡ is_in j (pos ∷ self.old)) }
        ensures full { OnErr result (length self.old ≡ most_waiting) }
    {
        if self.is_full() {
            return Err(Full);
        }
        if self.is_below(pos) {
            self.push(pos);
        } else if !self.ends_at(pos) {
            self.place(pos);
        }
        Ok(())
    }

    fn is_full(&self) -> bool
        ensures not_full { IsFalse result → length self.now < most_waiting }
        ensures full { IsTrue result → length self.now ≡ most_waiting }
    {
        self.items.is_full()
    }

    /// Whether all of them are below a position.
    fn is_below(&self, pos: u32) -> bool
        ensures { IsTrue result → (j : ℕ) → is_in j self.now ≡ true → j < pos }
    {
        match self.items.last() {
            Some(last) => *last < pos,
            None => true,
        }
    }

    /// Whether a position is the greatest of them.
    fn ends_at(&self, pos: u32) -> bool
        ensures { IsTrue result → is_in pos self.now ≡ true }
    {
        match self.items.last() {
            Some(last) => *last == pos,
            None => false,
        }
    }

    /// Takes off the positions above it, which are few if any, and puts them back after it.
    fn place(&mut self, pos: u32)
        requires { length self.old < most_waiting }
        ensures added { (j : ℕ) → is_in j self.new ≡ is_in j (pos ∷ self.old) }
        ensures count { length self.new ≤ length self.old + 1 }
    {
        let Some(top) = self.pop() else {
            self.push(pos);
            return;
        };
        if top > pos {
            self.place(pos);
            self.push(top);
            return;
        }
        self.push(top);
        if top < pos {
            self.push(pos);
        }
    }

    /// Appends a position that is above all of them.
    fn push(&mut self, pos: u32)
        requires room { length self.old < most_waiting }
        requires above { (j : ℕ) → is_in j self.old ≡ true → j < pos }
        ensures { self.new ≡ self.old ++ pos ∷ [] }
    {
        self.items.push(pos);
    }

    /// Takes the greatest off.
    pub fn pop(&mut self) -> Option<u32>
        ensures greatest { self.old ≡ self.new ++ option_to_list result }
        ensures none { IfNone result (self.new ≡ []) }
        ensures ascending { is_ascending self.old ≡ true }
    {
        self.items.pop()
    }
}
