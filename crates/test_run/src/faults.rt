//! Files, outputs, links and threads that fail.

use crate::calls::{Desk, called_well, desk_of};
use crate::lacking::LackingNet;
use crate::texts::*;
use std::alloc::{AllocError, Global};
use std::sync::Wait;
use std::test::Fail;
use std::thread::Threads;
use sv_link::{FewCrew, OpenGate, PipeNet, ThreadCrew};
use test_calls::Printed;
use test_calls::examples::{FIRST, FIRST_REPORT};

/// What has a call that fails.
#[derive(Clone, Copy, Debug)]
enum Failing {
    Net,
    ServerEnd,
    ClientEnd,

    /// No call: a settling in which one byte is taken as changed.
    Settling,
}

/// A scenario, and the brief report of its play.
#[derive(Clone, Copy)]
struct Play {
    text: &'static str,
    brief: &'static str,
}

/// A play over a net in memory one of whose calls fails, by its number from 1.
fn played<R: Threads + Wait + Sync>(
    rt: &R,
    alloc: Global,
    play: Play,
    failing: Failing,
    call: u64,
) -> Result<Printed, AllocError> {
    let mut net = PipeNet::new(alloc, rt);
    match failing {
        Failing::Net => net.fail_at(call)?,
        Failing::ServerEnd => net.fail_server_at(call)?,
        Failing::ClientEnd => net.fail_client_at(call)?,
        Failing::Settling => net.change_at(call)?,
    }
    let desk = Desk::new(alloc, play.text, net, ThreadCrew::new(alloc))?;
    desk.called(rt, alloc, "play a --brief", &OpenGate)
}

/// Whether all is printed, or else the play ends with status 6 and nothing printed; None where neither is so.
fn is_whole<R: Threads + Wait + Sync>(
    rt: &R,
    alloc: Global,
    play: Play,
    failing: Failing,
    call: u64,
) -> Result<Option<bool>, AllocError> {
    let printed = played(rt, alloc, play, failing, call)?;
    let found = if printed.has(0, play.brief, "") {
        Some(true)
    } else if printed.has(6, "", "link\n") {
        Some(false)
    } else {
        None
    };
    drop(printed);
    Ok(found)
}

/// How many calls end the play with status 6 and nothing printed if they fail, up to one at which all is printed. None where another status
/// comes.
fn faults_told<R: Threads + Wait + Sync>(
    rt: &R,
    alloc: Global,
    play: Play,
    failing: Failing,
) -> Result<Option<u64>, AllocError> {
    let mut count = 0;
    for call in 1..60 {
        match is_whole(rt, alloc, play, failing, call)? {
            Some(true) => return Ok(Some(count)),
            Some(false) => count = call,
            None => return Ok(None),
        }
    }
    Ok(None)
}

const ONE_ACT: Play = Play {
    text: FIRST,
    brief: FIRST_BRIEF,
};

const THREE_ACTS: Play = Play {
    text: BURST,
    brief: BURST_BRIEF,
};

const QUIT: Play = Play {
    text: QUITTING,
    brief: QUITTING_BRIEF,
};

/// Each kind of call, with the number of them: a pair and its settling; and of each end four writes and four reads, for the Join, the actions,
/// their results and the Leave, as many for three actions at once as for one. Once a client quits no fault of its session counts: the server's
/// end only reads the Join and writes the Welcome before.
const LINKS: [(Failing, Play, u64); 7] = [
    (Failing::Net, ONE_ACT, 2),
    (Failing::Settling, ONE_ACT, 1),
    (Failing::ServerEnd, ONE_ACT, 8),
    (Failing::ClientEnd, ONE_ACT, 8),
    (Failing::ServerEnd, THREE_ACTS, 8),
    (Failing::ClientEnd, THREE_ACTS, 8),
    (Failing::ServerEnd, QUIT, 2),
];

#[test]
fn failing_links_are_told(rt: HostRuntime) -> Result<(), Fail> {
    for (failing, play, calls) in LINKS {
        let told = faults_told(&rt, rt.alloc(), play, failing)?;
        assert!(rt; told == Some(calls), "{failing:?} {told:?}");
    }
    Ok(())
}

/// The faults of an end in a session that its client quit: reading the Poll, writing the reply, and reading on.
#[test]
fn faults_of_cut_sessions_are_not_told(rt: HostRuntime) -> Result<(), Fail> {
    for call in 3..6 {
        let whole = is_whole(&rt, rt.alloc(), QUIT, Failing::ServerEnd, call)?;
        assert!(rt; whole == Some(true), "{call}");
    }
    Ok(())
}

/// The calls of the one session's ends that fail and that find no memory, by their numbers from 1. Where a number is 0 none does.
#[derive(Clone, Copy, Debug)]
struct Wrong {
    server_fails: u64,
    client_fails: u64,
    server_lacks: u64,
    client_lacks: u64,
}

/// The status and the line of a play over such ends that prints nothing.
fn ends_with<R: Threads + Wait + Sync>(
    rt: &R,
    alloc: Global,
    wrong: Wrong,
    status: u8,
    line: &str,
) -> Result<bool, AllocError> {
    let mut net = PipeNet::new(alloc, rt);
    net.fail_server_at(wrong.server_fails)?;
    net.fail_client_at(wrong.client_fails)?;
    let net = LackingNet {
        net,
        server: wrong.server_lacks,
        client: wrong.client_lacks,
    };
    let desk = Desk::new(alloc, FIRST, net, ThreadCrew::new(alloc))?;
    Ok(
        desk.called(rt, alloc, "play a", &OpenGate)?
            .is(status, "", line),
    )
}

/// The n-th calls of the two ends find no memory, or one of them fails and the other finds none: then the link's fault is told.
#[test]
fn want_of_memory_hides_no_fault(rt: HostRuntime) -> Result<(), Fail> {
    for call in 1..9 {
        for (server_fails, client_fails, server_lacks, client_lacks, status, line) in [
            (0, 0, call, 0, 8, "memory\n"),
            (0, 0, 0, call, 8, "memory\n"),
            (call, 0, 0, call, 6, "link\n"),
            (0, call, call, 0, 6, "link\n"),
        ] {
            let wrong = Wrong {
                server_fails,
                client_fails,
                server_lacks,
                client_lacks,
            };
            assert!(rt;
                ends_with(&rt, rt.alloc(), wrong, status, line)?,
                "{wrong:?}"
            );
        }
    }
    Ok(())
}

/// The first example, played by a crew that refuses this start.
fn refused<R: Threads + Wait + Sync>(
    rt: &R,
    alloc: Global,
    start: usize,
) -> Result<Printed, AllocError> {
    let crew = FewCrew::new(alloc, start);
    let desk = Desk::new(alloc, FIRST, PipeNet::new(alloc, rt), crew)?;
    desk.called(rt, alloc, "play a", &OpenGate)
}

#[test]
fn refused_starts_are_told(rt: HostRuntime) -> Result<(), Fail> {
    for start in 0..2 {
        let printed = refused(&rt, rt.alloc(), start)?;
        assert!(rt; printed.is(7, "", "start\n"));
    }
    // There are two jobs.
    let printed = refused(&rt, rt.alloc(), 2)?;
    assert!(rt; printed.is(0, FIRST_REPORT, ""));
    Ok(())
}

#[test]
fn unknown_files_are_told(rt: HostRuntime) -> Result<(), Fail> {
    for line in ["replay b", "play b", "play b --brief", "play b --watch"] {
        let printed = called_well(&rt, rt.alloc(), line, FIRST, &OpenGate)?;
        assert!(rt; printed.is(4, "", "file: b\n"));
    }
    Ok(())
}

/// The first example, read nine bytes at a time from a file whose third call fails.
fn cut_in_the_middle<R: Threads + Wait + Sync>(
    rt: &R,
    alloc: Global,
    line: &str,
) -> Result<Printed, AllocError> {
    let mut desk = desk_of(rt, alloc, FIRST)?;
    desk.files.give_at_most(9);
    desk.files.fail_at(3)?;
    desk.called(rt, alloc, line, &OpenGate)
}

#[test]
fn files_that_fail_in_the_middle_are_told(rt: HostRuntime) -> Result<(), Fail> {
    for line in ["replay a", "play a"] {
        let printed = cut_in_the_middle(&rt, rt.alloc(), line)?;
        assert!(rt; printed.is(4, "", "file: a\n"));
    }
    Ok(())
}

/// The first example, with an output that takes at most ten bytes at a time, and whose call of this number fails.
fn written_in_part<R: Threads + Wait + Sync>(
    rt: &R,
    alloc: Global,
    line: &str,
    call: u64,
) -> Result<Printed, AllocError> {
    let mut desk = desk_of(rt, alloc, FIRST)?;
    desk.printed.out.take_at_most(10);
    desk.printed.out.fail_at(call)?;
    desk.called(rt, alloc, line, &OpenGate)
}

#[test]
fn failing_outputs_are_told(rt: HostRuntime) -> Result<(), Fail> {
    for line in ["replay a", "play a"] {
        let printed = written_in_part(&rt, rt.alloc(), line, 1)?;
        assert!(rt; printed.is(5, "", "out\n"));
        let printed = written_in_part(&rt, rt.alloc(), line, 2)?;
        assert!(rt; printed.is(5, "journal 5\n", "out\n"));
    }
    Ok(())
}
