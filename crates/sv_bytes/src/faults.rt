//! A count of faults.
ghost use Rattle.std.specs.Prelude.{◌≡◌, ℕ, ◌+◌};

use std::marker::{Model, PhantomData};

/// A count of faults, for contracts alone: it takes no room and can't overflow.
///
/// A reader or writer keeps one, and raises it whenever it answers that a call failed.
pub struct FaultCount {
    marker: PhantomData<()>,
    pub ghost value: { ℕ },
}

impl Model for FaultCount {
    ghost use base.Fml.{ftrue};

    ghost also_owns = { λ _. ftrue };
}

impl FaultCount {
    /// No fault was counted yet.
    pub fn new() -> FaultCount
        ensures { result.value ≡ 0 }
    {
        FaultCount {
            marker: PhantomData,
        }
    }

    fn raised(&self) -> FaultCount
        ensures { result.value ≡ self.now.value + 1 }
    {
        let _ = self;
        FaultCount {
            marker: PhantomData,
        }
    }

    /// Counts one fault more.
    pub fn raise(&mut self)
        ensures { self.new.value ≡ self.old.value + 1 }
    {
        *self = self.raised();
    }
}

impl Drop for FaultCount {
    fn drop(self) {
        let Self { marker: _ } = self;
    }
}

// SAFETY: a count has no bytes and owns nothing.
unsafe impl Send for FaultCount {}

// SAFETY: as for `Send`.
unsafe impl Sync for FaultCount {}
