//! The files that are held in memory, and one that is being read.
ghost use Rattle.std.specs.Prelude.{◌≡◌, ◌≤◌, take, drop, length, min};

use std::marker::Model;

/// A name and the bytes of its file.
#[derive(Drop)]
pub(crate) struct Stored {
    pub(crate) name: Vec<u8>,
    pub(crate) bytes: Vec<u8>,
}

impl Model for Stored {
    ghost use Rattle.std.specs.Prelude.{ℕ, List};

    ghost Value = { List ℕ × List ℕ };

    ghost view = { λ s. (s.name.items, s.bytes.items) };
}

impl Stored {
    pub(crate) fn name(&self) -> &[u8]
        ensures { result.now ≡ self.now.0 }
    {
        self.name.as_slice()
    }

    pub(crate) fn bytes(&self) -> &[u8]
        ensures { result.now ≡ self.now.1 }
    {
        self.bytes.as_slice()
    }
}

/// The bytes of a file that are still to be read.
#[derive(Drop)]
pub(crate) struct Unread {
    bytes: Vec<u8>,
    place: usize,
}

impl Model for Unread {
    ghost use Rattle.std.specs.Prelude.{ℕ, List, drop, ◌≤◌};
    ghost use Rattle.std.specs.Vec.{vec_len};

    ghost Value = { List ℕ };

    ghost view = { λ u. drop u.place u.bytes.items };

    ghost invariant = { λ u. u.place ≤ vec_len u.bytes };
}

impl Unread {
    pub(crate) fn new(bytes: Vec<u8>) -> Unread
        ensures { result ≡ bytes.items }
    {
        Unread { bytes, place: 0 }
    }

    // Gives the next bytes, at most `step` of them.
    pub(crate) fn read(&mut self, into: &mut [u8], step: usize) -> usize
        ensures count { result ≡ min (min (length self.old) (length into.old)) step }
        ensures bytes { take result into.new ≡ take result self.old }
        ensures kept { drop result into.new ≡ drop result into.old }
        ensures left { self.new ≡ drop result self.old }
    {
        let rest = &self.bytes[self.place..];
        let count = rest.len().min(into.len()).min(step);
        into[..count].copy_from_slice(&rest[..count]);
        self.place += count;
        count
    }
}
