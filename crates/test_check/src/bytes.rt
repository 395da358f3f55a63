//! Each report of the folder examples/, and the same with one byte changed.
ghost use Rattle.sv_scenario.specs.Limits.{IsGoodScenario};

use crate::calls::{scenario_in, wrong_line};
use std::alloc::{AllocError, Global};
use std::test::Fail;
use sv_scenario::Scenario;
use test_calls::examples::*;

/// Scenarios, the reports of their replays, and at how many places of each a byte is changed.
const REPORTS: [(&str, &str, usize); 15] = [
    (FIRST, FIRST_REPORT, 500),
    (EMPTY_SCRIPT, EMPTY_SCRIPT_REPORT, 500),
    (CONFLICT, CONFLICT_REPORT, 200),
    (TRADE, TRADE_REPORT, 200),
    (UNKNOWN_VIEW, UNKNOWN_VIEW_REPORT, 200),
    (SIXTEEN_READS, SIXTEEN_READS_REPORT, 200),
    (BOUND, BOUND_REPORT, 200),
    (REACH, REACH_REPORT, 200),
    (RETRY, RETRY_REPORT, 200),
    (ORPHAN, ORPHAN_REPORT, 200),
    (MARKETPLACE, MARKETPLACE_REPORT, 200),
    (LOOKS, LOOKS_REPORT, 200),
    (GREAT_TOTALS, GREAT_TOTALS_REPORT, 200),
    (TWO_VIEWS, TWO_VIEWS_REPORT, 200),
    (EDGES, EDGES_REPORT, 200),
];

/// The number of the line in which a byte stands.
fn line_at(text: &[u8], place: usize) -> u32 {
    let mut line = 1u32;
    for (at, byte) in text.iter().enumerate() {
        if at < place && *byte == b'\n' {
            line = line.wrapping_add(1);
        }
    }
    line
}

/// Whether a text with one byte changed, at each place that is a multiple of the step, is wrong in the line of that byte or a later one.
fn is_wrong_changed(
    alloc: Global,
    scenario: &Scenario,
    text: &[u8],
    step: usize,
) -> Result<bool, AllocError>
    requires good { IsGoodScenario scenario.now }
{
    let mut changed = Vec::from_slice(alloc, text)?;
    for place in 0..text.len() {
        if place % step.max(1) == 0 {
            let byte = text[place];
            changed[place] = byte ^ 1;
            if wrong_line(alloc, scenario, changed.as_slice())? < line_at(text, place) {
                return Ok(false);
            }
            changed[place] = byte;
        }
    }
    Ok(true)
}

/// Whether the report of a scenario is right, and the same wrong with a byte changed at so many places at least.
fn is_told_apart(
    alloc: Global,
    scenario: &str,
    text: &str,
    places: usize,
) -> Result<bool, AllocError> {
    match scenario_in(alloc, scenario)? {
        None => Ok(false),
        Some(scenario) => {
            let step = text.len() / places.max(1);
            let is_so = wrong_line(alloc, &scenario, text.as_bytes())? == 0
                && is_wrong_changed(alloc, &scenario, text.as_bytes(), step)?;
            drop(scenario);
            Ok(is_so)
        }
    }
}

#[test]
fn reports_are_right_and_with_a_byte_changed_wrong(rt: HostRuntime) -> Result<(), Fail> {
    for (scenario, text, places) in REPORTS {
        let is_so = is_told_apart(rt.alloc(), scenario, text, places)?;
        assert!(&rt; is_so, "{scenario}");
    }
    Ok(())
}
