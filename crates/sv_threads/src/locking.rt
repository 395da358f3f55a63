//! The lock of a scenario's run.
ghost use Rattle.std.specs.Prelude.{◌≡◌, [], IfOk};
ghost use Rattle.sv_scenario.specs.Limits.{IsGoodScenario};
ghost use Rattle.sv_scenario.specs.Sessions.{session_count};
ghost use Rattle.law_system.specs.Records.{rules_of};
ghost use Rattle.sv_threads.specs.Given.{keeper_after};

use std::alloc::{AllocError, Global};
use sv_lock::{Pass, SeqLock};
use sv_scenario::{Scenario, sessions_of};
use sv_sequencer::Sequencer;

/// Locks a scenario's sequencer, which no one has asked anything yet, for a pass of each session. The keeper has made none.
pub fn lock_sequencer(
    alloc: Global,
    scenario: &Scenario,
    sequencer: Sequencer,
) -> Result<(SeqLock<Sequencer>, Pass<Sequencer>), AllocError>
    requires good { IsGoodScenario scenario.now }
    requires rules { sequencer.rules ≡ rules_of scenario.now }
    requires empty { sequencer.journal.entries ≡ [] }
    ensures passes { IfOk result (λ made. made.0.passes ≡ session_count scenario.now) }
    ensures keeper { IfOk result (λ made. made.1 ≡ keeper_after 0 made.0 scenario.now) }
{
    match SeqLock::new(alloc, sequencer, sessions_of(scenario)) {
        Ok(made) => Ok(made),
        Err((refused, error)) => {
            // A tree that is let go at the end of its scope makes a long proof.
            drop(refused);
            Err(error)
        }
    }
}
