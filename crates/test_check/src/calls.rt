//! A check of a text against a scenario.
ghost use Rattle.std.specs.Prelude.{IfOk, IfSome};
ghost use Rattle.sv_scenario.specs.Limits.{IsGoodScenario};

use std::alloc::{AllocError, Global};
use sv_check::{Verdict, check};
use sv_scenario::{ReadFault, Scenario, read_scenario};

/// The scenario that a text is.
pub fn scenario_in(alloc: Global, text: &str) -> Result<Option<Scenario>, AllocError>
    ensures { IfOk result (λ found. IfSome found IsGoodScenario) }
{
    match read_scenario(alloc, text.as_bytes()) {
        Ok(scenario) => Ok(Some(scenario)),
        Err(ReadFault::Memory) => Err(AllocError),
        Err(_) => Ok(None),
    }
}

/// The number of the first wrong line of a text, 0 where it is the report of a run.
pub fn wrong_line(alloc: Global, scenario: &Scenario, text: &[u8]) -> Result<u32, AllocError>
    requires good { IsGoodScenario scenario.now }
{
    if text.len() >= 1 << 32 {
        return Ok(u32::MAX);
    }
    let verdict = check(alloc, scenario, text)?;
    let line = match &verdict {
        Verdict::Yes(_) => 0,
        Verdict::No { line } => *line,
    };
    drop(verdict);
    Ok(line)
}

/// Whether a text has this first wrong line, against the scenario that the other text is.
pub fn has_line(alloc: Global, scenario: &str, text: &[u8], line: u32) -> Result<bool, AllocError> {
    match scenario_in(alloc, scenario)? {
        None => Ok(false),
        Some(scenario) => {
            let is_so = wrong_line(alloc, &scenario, text)? == line;
            drop(scenario);
            Ok(is_so)
        }
    }
}
