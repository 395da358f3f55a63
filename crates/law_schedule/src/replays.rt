//! A scheduled run is a full record.
ghost use Rattle.sv_scenario.specs.declared.scenario.Scenario.{Scenario};
ghost use Rattle.sv_scenario.specs.Limits.{IsGoodScenario};
ghost use Rattle.law_schedule.specs.Serving.{traces_of};
ghost use Rattle.law_schedule.specs.Schedule.{scheduled_run};
ghost use Rattle.law_schedule.specs.Records.{IsReplay};

use crate::done::scheduled_runs_end;
use law_system::runs_leave_full_records;

/// The headline, of the scheduled run of any scenario: its journal and its traces are the record of the run's traffic; each value at a
/// position, and the committed world, is the serial execution's; each relay brought what its items read; each client did all of its script;
/// no action was accepted twice, none dropped but for its chain or its distance, and each has one outcome.
pub fn scheduled_runs_are_replays()
    ensures { (scenario : Scenario) → IsGoodScenario scenario → IsReplay scenario (scheduled_run scenario).history (traces_of (scheduled_run scenario)) }
{
    scheduled_runs_end();
    runs_leave_full_records();
}
