//! What shows that all lines are on the disk.
ghost use Rattle.std.specs.Prelude.{◌≡◌};

use std::marker::Model;

/// All lines of a kept world stand in its log, and are synced where its keeper syncs. Only a [`Keeper`](crate::Keeper) makes one, and while it lives
/// nothing can be stepped. Contracts see how many lines there are.
#[derive(Drop)]
pub struct Durable<'a> {
    pub(crate) count: &'a u64,
}

impl<'a> Model for Durable<'a> {
    ghost use Rattle.std.specs.Prelude.{ℕ};

    ghost Value = { ℕ };

    ghost view = { λ s. s.count.now };
}

impl<'a> Durable<'a> {
    /// How many lines are durable.
    pub fn entries(&self) -> u64
        ensures { result ≡ self.now }
    {
        *self.count
    }
}
