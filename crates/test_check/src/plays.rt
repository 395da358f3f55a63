//! Reports of plays and replays, as the program prints them.

use crate::calls::has_line;
use std::alloc::{AllocError, Global};
use std::sync::Wait;
use std::test::Fail;
use std::thread::Threads;
use sv_link::{OpenGate, PipeNet, ThreadCrew};
use sv_run::run;
use test_calls::examples::*;
use test_calls::scenarios::*;
use test_calls::{Printed, held, words};

/// The scenarios of the folder examples/, and these.
const SCENARIOS: [&str; 20] = [
    FIRST,
    EMPTY_SCRIPT,
    CONFLICT,
    TRADE,
    UNKNOWN_VIEW,
    SIXTEEN_READS,
    BOUND,
    REACH,
    RETRY,
    ORPHAN,
    MARKETPLACE,
    LOOKS,
    OBSERVE,
    GREAT_TOTALS,
    TWO_VIEWS,
    EDGES,
    FULL,
    BOUND_0,
    APART,
    REJOINING,
];

/// The program's answer, where the file `a` has this scenario.
fn answer_of<R: Threads + Wait + Sync>(
    rt: &R,
    alloc: Global,
    line: &str,
    scenario: &str,
) -> Result<Printed, AllocError> {
    let words = words(alloc, line)?;
    let mut files = held(alloc, scenario)?;
    let mut net = PipeNet::new(alloc, rt);
    let mut crew = ThreadCrew::new(alloc);
    let mut printed = Printed::nothing(alloc)?;
    printed.status = run(
        rt,
        alloc,
        &words,
        &mut files,
        &mut net,
        &mut crew,
        &OpenGate,
        &mut printed.out,
        &mut printed.err,
    );
    Ok(printed)
}

/// Whether what the program prints of a scenario is right.
fn is_right<R: Threads + Wait + Sync>(
    rt: &R,
    alloc: Global,
    line: &str,
    scenario: &str,
) -> Result<bool, AllocError> {
    let printed = answer_of(rt, alloc, line, scenario)?;
    let is_so = has_line(alloc, scenario, printed.out.bytes(), 0)?;
    drop(printed);
    Ok(is_so)
}

#[test]
fn what_the_program_prints_is_right(rt: HostRuntime) -> Result<(), Fail> {
    for scenario in SCENARIOS {
        let is_so = is_right(&rt, rt.alloc(), "replay a", scenario)?
            && is_right(&rt, rt.alloc(), "play a", scenario)?
            && is_right(&rt, rt.alloc(), "play a", scenario)?;
        assert!(&rt; is_so, "{scenario}");
    }
    Ok(())
}
