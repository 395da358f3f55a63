//! Runs that scenarios schedule end.
ghost use Rattle.std.specs.Prelude.{◌≡◌, ℕ, ◌<◌};
ghost use Rattle.sv_scenario.specs.declared.scenario.Scenario.{Scenario};
ghost use Rattle.sv_scenario.specs.Limits.{IsGoodScenario};
ghost use Rattle.sv_scenario.specs.Sessions.{session_count};
ghost use Rattle.law_system.specs.Records.{IsRecordOf, ScriptsAreDone, ScriptsAreFollowed, ends_in};
ghost use Rattle.law_schedule.specs.Serving.{Run, Server, run_served, traces_of};
ghost use Rattle.law_schedule.specs.Schedule.{round, rules_of, scheduled_run};
ghost use Rattle.law_schedule.specs.Sound.{IsSound};
ghost use Rattle.law_schedule.specs.Served.{KeepsSound};
ghost use Rattle.law_schedule.specs.Done.{IsRunDone, NextRepliesAreTaken};

use sv_script::steps_are_done_in_order;

/// A scenario's scheduled run ends: within its rounds each client closes and each session has its End. Its journal and traces are then the
/// record of the run's traffic, and each trace follows its script to the end. A further round changes nothing.
pub fn scheduled_runs_end()
    ensures done { (scenario : Scenario) → IsGoodScenario scenario → IsRunDone scenario (scheduled_run scenario) }
    ensures traffic { (scenario : Scenario) → IsGoodScenario scenario → IsRecordOf scenario (scheduled_run scenario).history (traces_of (scheduled_run scenario)) }
    ensures scripts { (scenario : Scenario) → IsGoodScenario scenario → ScriptsAreFollowed scenario.world.shape scenario.clients (traces_of (scheduled_run scenario)) }
    ensures still { (scenario : Scenario) (run : Run) → IsGoodScenario scenario → IsSound scenario run → IsRunDone scenario run → round scenario run ≡ run }
{}

/// A scenario's run over any server that keeps what soundness needs, and of which no client refuses a reply, ends too: within its rounds each
/// client closes, each session has just one End, and each client did all of its script.
pub fn served_runs_end()
    ensures done { (server : Server) (scenario : Scenario) → KeepsSound server → NextRepliesAreTaken server scenario → IsGoodScenario scenario →
        IsRunDone scenario (run_served server scenario) }
    ensures ended { (server : Server) (scenario : Scenario) → KeepsSound server → NextRepliesAreTaken server scenario → IsGoodScenario scenario →
        (s : ℕ) → s < session_count scenario → ends_in (run_served server scenario).history s ≡ 1 }
    ensures scripts { (server : Server) (scenario : Scenario) → KeepsSound server → NextRepliesAreTaken server scenario → IsGoodScenario scenario →
        ScriptsAreDone scenario.world.shape scenario.clients (traces_of (run_served server scenario)) }
{
    steps_are_done_in_order();
}
