//! A small object: a counter that lists what was added by whom.
ghost use Rattle.std.specs.Prelude.{◌≡◌, ℕ, ◌%◌, ◌^◌, ◌<◌, List, [], All, sum_by, refl};

use std::alloc::{AllocError, Global};
use std::hint;
use std::sync::Arc;
use sv_lock::Object;

/// So much was added, by the caller of this number.
#[derive(Clone, Copy)]
pub struct Added {
    pub by: u16,
    pub amount: u64,
}

/// Amounts are below `limit`, which is what no step changes. A reply is the total, of 64 bits.
#[derive(Drop)]
pub struct Counter {
    limit: u64,
    // Each call whose number it divides answers that memory ran out. None does where it is 0.
    failing: u64,
    calls: u64,
    total: u64,
    pub added: Vec<Added>,
    /// How long a call takes.
    pub pauses: u32,
    /// Goes when the counter does.
    pub mark: Option<Arc<u8>>,
    ghost counted: { total ≡ sum_by (λ e. e.amount) added.items % 2 ^ 64 },
    ghost small: { All (λ e. e.amount < limit) added.items },
}

impl Counter {
    pub fn new(alloc: Global, limit: u64, failing: u64) -> Counter
        ensures { (result.limit ≡ limit) × (result.added.items ≡ []) }
    {
        Counter {
            limit,
            failing,
            calls: 0,
            total: 0,
            added: Vec::new(alloc),
            pauses: 0,
            mark: None,
        }
    }
}

fn pause(times: u32) {
    for _ in 0..times {
        hint::spin_loop();
    }
}

impl Object for Counter {
    type Request = u64;

    type Reply = u64;

    type Entry = Added;

    type Base = u64;

    ghost base = { λ s. s.limit };

    ghost history = { λ s. s.added.items };

    ghost lawful = { λ limit history. All (λ e. e.amount < limit) history };

    ghost entry = { λ number amount total. record { by = number; amount = amount } };

    ghost number_of = { λ e. e.by };

    ghost whole = { λ total history. total ≡ sum_by (λ e. e.amount) history % 2 ^ 64 };

    ghost can_step = { λ limit number amount mine. amount < limit };

    ghost is_plain = { λ amount. ⊥ };

    ghost number_of_entry = { λ number amount total. refl };

    fn step(&mut self, number: u16, amount: u64) -> Result<u64, AllocError> {
        pause(self.pauses);
        self.calls = self.calls.wrapping_add(1);
        if self.failing != 0 && self.calls % self.failing == 0 {
            return Err(AllocError);
        }
        self.added.push(Added { by: number, amount })?;
        self.total = self.total.wrapping_add(amount);
        Ok(self.total)
    }

    fn certify(&self) {}
}
