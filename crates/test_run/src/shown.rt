//! The scenarios of the folder examples/, replayed and played.

use crate::calls::called_well;
use crate::plays::called_over_tcp;
use crate::texts::GREAT_TOTALS_BRIEF;
use std::alloc::{AllocError, Global};
use std::str;
use std::sync::Wait;
use std::test::Fail;
use std::thread::Threads;
use sv_link::OpenGate;
use test_calls::Printed;
use test_calls::examples::*;

/// Words, the scenario, the status, and the two outputs.
type Row<'a> = (&'a str, &'a str, u8, &'a str, &'a str);

/// Runs that print the same at each call.
const ROWS: [Row<'static>; 25] = [
    ("replay a", FIRST, 0, FIRST_REPORT, ""),
    ("replay a", EMPTY_SCRIPT, 0, EMPTY_SCRIPT_REPORT, ""),
    ("replay a", CONFLICT, 0, CONFLICT_REPORT, ""),
    ("replay a", TRADE, 0, TRADE_REPORT, ""),
    ("replay a", UNKNOWN_VIEW, 0, UNKNOWN_VIEW_REPORT, ""),
    ("replay a", SIXTEEN_READS, 0, SIXTEEN_READS_REPORT, ""),
    ("replay a", BOUND, 0, BOUND_REPORT, ""),
    ("replay a", REACH, 0, REACH_REPORT, ""),
    ("replay a", RETRY, 0, RETRY_REPORT, ""),
    ("replay a", ORPHAN, 0, ORPHAN_REPORT, ""),
    ("replay a", MARKETPLACE, 0, MARKETPLACE_REPORT, ""),
    ("replay a", LOOKS, 0, LOOKS_REPORT, ""),
    ("replay a", GREAT_TOTALS, 0, GREAT_TOTALS_REPORT, ""),
    ("replay a", TWO_VIEWS, 0, TWO_VIEWS_REPORT, ""),
    ("replay a", EDGES, 0, EDGES_REPORT, ""),
    ("replay a", OBSERVE, 0, OBSERVE_REPORT, ""),
    (
        "replay a",
        WRITTEN_OBJECT_NOT_READ,
        3,
        "",
        WRITTEN_OBJECT_NOT_READ_LINE,
    ),
    ("replay a", NO_SUCH_OBJECT, 3, "", NO_SUCH_OBJECT_LINE),
    ("replay a", SEVENTEEN_READS, 3, "", SEVENTEEN_READS_LINE),
    (
        "replay a",
        NUMBER_AFTER_OBJECT,
        3,
        "",
        NUMBER_AFTER_OBJECT_LINE,
    ),
    ("replay a", ORIGIN_TOO_FAR, 3, "", ORIGIN_TOO_FAR_LINE),
    ("play a --brief", GREAT_TOTALS, 0, GREAT_TOTALS_BRIEF, ""),
    ("play a", SIXTEEN_READS, 0, SIXTEEN_READS_REPORT, ""),
    ("play a", NO_SUCH_OBJECT, 3, "", NO_SUCH_OBJECT_LINE),
    ("play a", SEVENTEEN_READS, 3, "", SEVENTEEN_READS_LINE),
];

#[test]
fn examples_print_what_stands_beside_them(rt: HostRuntime) -> Result<(), Fail> {
    for (line, text, status, out, err) in ROWS {
        let printed = called_well(&rt, rt.alloc(), line, text, &OpenGate)?;
        assert!(rt; printed.is(status, out, err));
    }
    Ok(())
}

/// Scenarios whose clients come in any order: a run of them ends well.
const MIXED: [&str; 8] = [CONFLICT, BOUND, REACH, RETRY, ORPHAN, LOOKS, EDGES, OBSERVE];

fn ends_well<R: Threads + Wait + Sync>(
    rt: &R,
    alloc: Global,
    text: &str,
) -> Result<bool, AllocError> {
    let printed = called_well(rt, alloc, "play a", text, &OpenGate)?;
    let is_so = printed.status == 0 && printed.err.bytes().is_empty();
    drop(printed);
    Ok(is_so)
}

#[test]
fn plays_in_any_order_end_well(rt: HostRuntime) -> Result<(), Fail> {
    for text in MIXED {
        assert!(rt; ends_well(&rt, rt.alloc(), text)?);
    }
    Ok(())
}

/// The number in the line that begins with these bytes.
fn number_after(text: &str, begin: &str) -> u32 {
    for line in text.lines() {
        if let Some(number) = line.strip_prefix(begin) {
            return number.parse().unwrap_or(0);
        }
    }
    0
}

/// Whether a summary of the marketplace has its counts and sums, whichever actions were dropped: each action has an outcome, and no gold is
/// made or lost.
fn is_market_text(text: &str) -> bool {
    let accepted = number_after(text, "accepted ");
    let dropped = number_after(text, "dropped ");
    text.starts_with("clients 8\nsessions 16\nobjects 64\nmade 96\naccepted ")
        && text.ends_with("\ntotal 2: 3200\n")
        && accepted.saturating_add(dropped) == 96
}

/// Whether an answer, which is let go, is such a summary.
fn is_market(printed: Printed) -> bool {
    let is_so = match str::from_utf8(printed.out.bytes()) {
        Ok(text) => printed.status == 0 && printed.err.bytes().is_empty() && is_market_text(text),
        Err(_) => false,
    };
    drop(printed);
    is_so
}

#[test]
fn the_marketplace_makes_and_loses_nothing(rt: HostRuntime) -> Result<(), Fail> {
    let printed = called_well(&rt, rt.alloc(), "play a --brief", MARKETPLACE, &OpenGate)?;
    assert!(rt; is_market(printed));
    let printed = called_over_tcp(&rt, rt.alloc(), "play a --brief", MARKETPLACE)?;
    assert!(rt; is_market(printed));
    Ok(())
}
