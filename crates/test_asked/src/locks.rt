//! A server behind a lock.
ghost use Rattle.std.specs.Prelude.{◌≡◌, [], None, IfOk};

use std::alloc::Global;
use std::test::Fail;
use sv_lock::{Pass, SeqLock};
use sv_sequencer::Sequencer;

/// A lock with room for one pass, round a server that no one has asked anything yet, and its keeper.
pub fn locked(
    alloc: Global,
    sequencer: Sequencer,
) -> Result<(SeqLock<Sequencer>, Pass<Sequencer>), Fail>
    requires { sequencer.journal.entries ≡ [] }
    ensures keeper { IfOk result (λ made. made.1 ≡ record { lock = made.0.id; session = None; base = sequencer.rules; seen = []; mine = []; made = 0; ended = [] }) }
    ensures passes { IfOk result (λ made. made.0.passes ≡ 1) }
{
    match SeqLock::new(alloc, sequencer, 1) {
        Ok(made) => Ok(made),
        Err((refused, error)) => {
            drop(refused);
            Err(Fail::from(error))
        }
    }
}
