//! Bytes that went over connections, for contracts alone.
ghost use Rattle.std.specs.Prelude.{◌≡◌, ℕ, List, [], ◌∷◌, ◌++◌};

use std::marker::{Model, PhantomData};

/// Pieces of bytes, each under a connection's number. It takes no memory: contracts alone see them.
pub struct Pieces {
    marker: PhantomData<()>,
    pub ghost items: { List (ℕ × List ℕ) },
}

impl Model for Pieces {
    ghost use base.Fml.{ftrue};

    ghost also_owns = { λ _. ftrue };
}

impl Pieces {
    /// No piece went.
    pub fn new() -> Pieces
        ensures { result.items ≡ [] }
    {
        Pieces {
            marker: PhantomData,
        }
    }

    fn with(&self, number: &u64, piece: &[u8]) -> Pieces
        ensures { result.items ≡ self.now.items ++ (number.now, piece.now) ∷ [] }
    {
        Pieces {
            marker: PhantomData,
        }
    }

    /// One piece more went.
    pub fn note(&mut self, number: u64, piece: &[u8])
        ensures { self.new.items ≡ self.old.items ++ (number, piece.now) ∷ [] }
    {
        *self = self.with(&number, piece);
    }
}

impl Drop for Pieces {
    fn drop(self) {
        let Self { marker: _ } = self;
    }
}
