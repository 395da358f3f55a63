//! Where the objects that an action reads were last written.
ghost use Rattle.std.specs.Prelude.{◌≡◌, ◌<◌, replicate, slice_set, slice_index_or};
ghost use Rattle.sv_world.specs.Limits.{most_reads};

use std::marker::Model;
use sv_world::MOST_READS;

/// A position, or 0, for each slot of an action's reads.
#[derive(Debug, Drop)]
pub struct Sources {
    slots: [u32; MOST_READS],
}

impl Model for Sources {
    ghost use Rattle.std.specs.Prelude.{ℕ, List};

    ghost Value = { List ℕ };

    ghost view = { λ s. s.slots };
}

impl Sources {
    /// 0 in each slot.
    pub fn new() -> Sources
        ensures { result ≡ replicate most_reads 0 }
    {
        Sources {
            slots: [0; MOST_READS],
        }
    }

    pub fn get(&self, slot: usize) -> u32
        requires { slot < most_reads }
        ensures { result ≡ slice_index_or self.now slot 0 }
    {
        self.slots[slot]
    }

    pub fn set(&mut self, slot: usize, pos: u32)
        requires { slot < most_reads }
        ensures { self.new ≡ slice_set self.old slot pos }
    {
        self.slots[slot] = pos;
    }
}
