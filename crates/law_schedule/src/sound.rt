//! A scheduled run is sound at each moment, after whatever turns.
ghost use Rattle.std.specs.Prelude.{◌≡◌, ℕ, true, length, Some, slice_get};
ghost use Rattle.sv_journal.specs.History.{client_of};
ghost use Rattle.sv_scenario.specs.declared.scenario.Scenario.{Scenario};
ghost use Rattle.sv_scenario.specs.declared.scenario.Turn.{Turn};
ghost use Rattle.sv_scenario.specs.Limits.{IsGoodScenario, IsGoodTurn};
ghost use Rattle.sv_scenario.specs.Sessions.{session_count};
ghost use Rattle.law_schedule.specs.Players.{Player};
ghost use Rattle.law_schedule.specs.Serving.{Run, Server, opening_run, round_served, run_served, turn_served};
ghost use Rattle.law_schedule.specs.Schedule.{rules_of, turned, round, scheduled_run};
ghost use Rattle.law_schedule.specs.Served.{HearsJoins, IsSoundOver, KeepsSound};
ghost use Rattle.law_schedule.specs.Sound.{IsSound, has_joined};

/// The run of a good scenario is sound at its opening, after each turn and round, and at its end: its journal is legal, the traces of its
/// players fit it and are proper, and each player did its script so far.
///
/// So the laws of whole runs hold at each moment of it, whatever the schedule.
pub fn turns_keep_runs_sound()
    ensures opening { (scenario : Scenario) → IsGoodScenario scenario → IsSound scenario (opening_run scenario) }
    ensures turns { (scenario : Scenario) (run : Run) (turn : Turn) → IsGoodScenario scenario →
        IsGoodTurn (length scenario.clients) (session_count scenario) turn → IsSound scenario run → IsSound scenario (turned (rules_of scenario) run turn) }
    ensures rounds { (scenario : Scenario) (run : Run) → IsGoodScenario scenario → IsSound scenario run → IsSound scenario (round scenario run) }
    ensures run { (scenario : Scenario) → IsGoodScenario scenario → IsSound scenario (scheduled_run scenario) }
{}

/// The same holds over any server that keeps what this needs: the journal is the server's own, the traces of the players fit it, each request
/// as the server heard it, and each player did its script so far. Where the server hears who joins, each session that was joined as a client
/// is one that this client's player joined.
pub fn turns_keep_served_runs_sound()
    ensures opening { (server : Server) (scenario : Scenario) → IsGoodScenario scenario → IsSoundOver server scenario (opening_run scenario) }
    ensures turns { (server : Server) (scenario : Scenario) (run : Run) (turn : Turn) → KeepsSound server → IsGoodScenario scenario →
        IsGoodTurn (length scenario.clients) (session_count scenario) turn → IsSoundOver server scenario run → IsSoundOver server scenario (turn_served server run turn) }
    ensures rounds { (server : Server) (scenario : Scenario) (run : Run) → KeepsSound server → IsGoodScenario scenario → IsSoundOver server scenario run →
        IsSoundOver server scenario (round_served server (session_count scenario) run) }
    ensures run { (server : Server) (scenario : Scenario) → KeepsSound server → IsGoodScenario scenario → IsSoundOver server scenario (run_served server scenario) }
    ensures owned { (server : Server) (scenario : Scenario) (run : Run) (i : ℕ) (p : Player) (s : ℕ) → HearsJoins server → IsGoodScenario scenario → IsSoundOver server scenario run →
        slice_get run.players i ≡ Some p → client_of run.history s ≡ Some p.who.client.0 → has_joined p s ≡ true }
{}
