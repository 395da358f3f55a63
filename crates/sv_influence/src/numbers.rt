//! Sets of numbers.
ghost use Rattle.std.specs.Prelude.{◌≡◌, ◌<◌, ◌==◌, ℕ, true, length, [], ◌∷◌, ◌++◌, IsTrue, OnOk, IfNone, option_to_list};
ghost use Rattle.sv_world.specs.Control.{is_in};
ghost use Rattle.sv_world.specs.Faults.{is_ascending};

use smallvec::SmallVec;
use std::alloc::{AllocError, Global};
use std::marker::Model;

/// Numbers in ascending order, each once. Up to eight of them take no memory.
#[derive(Drop)]
pub struct Numbers {
    items: SmallVec<u32, 8>,
}

impl Model for Numbers {
    ghost use Rattle.std.specs.Prelude.{◌≡◌, ℕ, true, List};
    ghost use Rattle.sv_world.specs.Faults.{is_ascending};

    ghost Value = { List ℕ };

    ghost view = { λ a. a.items.items };

    ghost invariant = { λ a. is_ascending a.items.items ≡ true };
}

impl Numbers {
    pub fn new(alloc: Global) -> Numbers
        ensures { result ≡ [] }
    {
        Numbers {
            items: SmallVec::new(alloc),
        }
    }

    pub fn is_empty(&self) -> bool
        ensures { result ≡ (length self.now == 0) }
    {
        self.items.is_empty()
    }

    /// The numbers as they are otherwise, and this one.
    pub fn insert(&mut self, number: u32) -> Result<(), AllocError>
        ensures { OnOk result ((j : ℕ) → is_in j self.new ≡ is_in j (number ∷ self.old)) }
    {
        if self.is_below(number) {
            self.items.push(number)?;
            return Ok(());
        }
        match self.items.binary_search(&number) {
            Ok(_) => Ok(()),
            Err(place) => {
                self.items.insert(place, number)?;
                Ok(())
            }
        }
    }

    /// Whether all of them are below a number.
    fn is_below(&self, number: u32) -> bool
        ensures { IsTrue result → (j : ℕ) → is_in j self.now ≡ true → j < number }
    {
        match self.items.last() {
            Some(last) => *last < number,
            None => true,
        }
    }

    /// Takes the greatest off.
    pub fn pop(&mut self) -> Option<u32>
        ensures greatest { self.old ≡ self.new ++ option_to_list result }
        ensures none { IfNone result (self.new ≡ []) }
        ensures ascending { is_ascending self.old ≡ true }
    {
        self.items.pop()
    }

    pub fn as_slice(&self) -> &[u32]
        ensures items { result.now ≡ self.now }
        ensures ascending { is_ascending self.now ≡ true }
    {
        self.items.as_slice()
    }
}
