//! A law of scenario files.
ghost use Rattle.std.specs.Prelude.{◌≡◌, ℕ, List, Ok};
ghost use Rattle.sv_scenario.specs.declared.scenario.Scenario.{Scenario};
ghost use Rattle.sv_scenario.specs.Limits.{IsGoodScenario};
ghost use Rattle.sv_scenario.specs.Scenarios.{scenario_of};

/// The scenario that bytes are keeps the limits and rules.
///
/// So whatever is said of good scenarios holds of each one that a file is, as that quits come last.
pub fn scenarios_keep_the_limits()
    ensures { (bytes : List ℕ) (scenario : Scenario) → scenario_of bytes ≡ Ok scenario → IsGoodScenario scenario }
{}
