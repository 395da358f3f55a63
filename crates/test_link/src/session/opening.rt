//! A server of two objects of one number each, for two sessions.
ghost use Rattle.std.specs.Prelude.{◌≡◌, [], IfOk, Some};
ghost use Rattle.sv_journal.specs.Laws.{AreWithinLimits};

use std::alloc::Global;
use std::test::Fail;
use sv_sequencer::Sequencer;
use test_asked::world_of;

/// A server of two objects, 5 and 5, for two sessions.
pub fn opened(alloc: Global) -> Result<Sequencer, Fail>
    ensures empty { IfOk result (λ s. s.journal.entries ≡ []) }
    ensures sessions { IfOk result (λ s. s.rules.sessions ≡ Some 2) }
    ensures limits { IfOk result (λ s. AreWithinLimits s.rules) }
{
    Ok(Sequencer::new(alloc, world_of(alloc, &[5, 5])?, 4, None, 2)?)
}
