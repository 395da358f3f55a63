//! The record of a run that came to its end.
ghost use Rattle.std.specs.Prelude.{List};
ghost use Rattle.sv_journal.specs.declared.entry.Entry.{Entry};
ghost use Rattle.sv_client.specs.declared.trace.Trace.{Trace};
ghost use Rattle.sv_scenario.specs.declared.scenario.Scenario.{Scenario};
ghost use Rattle.sv_scenario.specs.Limits.{IsGoodScenario};
ghost use Rattle.law_system.specs.Records.{IsRecordOf, ScriptsAreFollowed, IsFullRecord};

use crate::outcomes::actions_have_outcomes;
use crate::truth::{committed_world_is_serial, replicas_equal_serial_execution};
use sv_script::steps_are_done_in_order;

/// Runs of good scenarios leave full records, whatever the schedule: where a journal and traces are the record of a run's traffic, and each
/// trace follows its script to the end, all values and the committed world are those of the serial execution, each relay brought what its
/// items read, what was seen is one cut of the serial execution, each client did all of its script, and each action has its outcome.
///
/// `h` are the journal's entries with the latest first, and `Ls` the traces of the clients.
pub fn runs_leave_full_records()
    ensures { (scenario : Scenario) (h : List Entry) (Ls : List Trace) → IsGoodScenario scenario → IsRecordOf scenario h Ls →
        ScriptsAreFollowed scenario.world.shape scenario.clients Ls → IsFullRecord scenario h Ls }
{
    replicas_equal_serial_execution();
    committed_world_is_serial();
    steps_are_done_in_order();
    actions_have_outcomes();
}
