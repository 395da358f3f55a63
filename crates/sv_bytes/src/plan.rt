//! Which calls of an object in memory fail, and how many bytes one moves.
ghost use Rattle.std.specs.Prelude.{◌≡◌, ◌<◌, [], ◌∷◌, ◌++◌, Contains, IsTrue, OnOk, OnErr, ◌↔◌, ◌^◌, ◌-◌};
ghost use Rattle.sv_bytes.specs.Plans.{next_call};

use std::alloc::{AllocError, Global};

/// How an object in memory behaves: which of its calls fail, and how many bytes a call moves.
///
/// Calls are counted from 1. The count stops at `u64::MAX`.
#[derive(Drop)]
pub struct CallPlan {
    pub failing: Vec<u64>,
    pub made: u64,
    pub step: usize,
    ghost moves: { 0 < step },
}

impl CallPlan {
    /// No call fails, and a call moves as many bytes as it can.
    pub fn new(alloc: Global) -> CallPlan
        ensures calm { result.failing.items ≡ [] }
        ensures made { result.made ≡ 0 }
        ensures step { result.step ≡ 2 ^ 64 - 1 }
    {
        CallPlan {
            failing: Vec::new(alloc),
            made: 0,
            step: usize::MAX,
        }
    }

    /// Adds to the calls that fail.
    pub fn fail_at(&mut self, call: u64) -> Result<(), AllocError>
        ensures ok { OnOk result (self.new.failing.items ≡ self.old.failing.items ++ call ∷ []) }
        ensures err { OnErr result (self.new.failing.items ≡ self.old.failing.items) }
        ensures rest { (self.new.made ≡ self.old.made) × (self.new.step ≡ self.old.step) }
    {
        self.failing.push(call)?;
        Ok(())
    }

    /// Counts one call more, and answers whether this call fails.
    pub fn next_fails(&mut self) -> bool
        ensures fails { IsTrue result ↔ Contains self.new.failing.items self.new.made }
        ensures made { self.new.made ≡ next_call self.old.made }
        ensures rest { (self.new.failing ≡ self.old.failing) × (self.new.step ≡ self.old.step) }
    {
        self.made = self.made.saturating_add(1);
        self.failing.contains(&self.made)
    }
}
