//! Calls of the server by itself.

use crate::doors::{Script, ScriptDoor};
use std::alloc::{AllocError, Global};
use std::sync::Wait;
use std::test::Fail;
use std::thread::Threads;
use sv_link::{Crew, FewCrew, OpenGate, ThreadCrew};
use sv_serve::run_serve;
use test_calls::examples::FIRST;
use test_calls::scenarios::FIRST_SERVED;
use test_calls::{Printed, held, words};

/// What the client of the first example sends: a Join, the Submit of its action, a Done and a Leave.
const FIRST_BYTES: &[u8] = &[
    0, 0, 0, 10, 0x01, 0, 0, 0, 0, 0, 1, 1, 0, 0, 0, 0, 0, 0x23, 0x06, 0, 0, 0, 1, 1, 0, 0, 0, 1,
    0, 0, 0, 0, 0, 0, 0, 0, 1, 0x10, 0, 0, 0x22, 0x21, 0, 0, 0x20, 0, 0, 0, 0, 0, 0, 0, 1, 0, 0, 0,
    0x10, 0x03, 1, 0, 0, 0, 1, 1, 1, 0, 0, 0, 0, 0, 0, 0, 6, 0, 0, 0, 1, 0x05,
];

/// Only the End of the one session.
const ENDED_TEXT: &str = "journal 1\n1 s0 end -> bye\ncommit 0\n";

/// The answer to a line of words, over the file `a` with the first example, and clients that send these bytes.
fn called<R: Threads + Wait + Sync, C: Crew>(
    rt: &R,
    alloc: Global,
    line: &str,
    scripts: &[Script],
    crew: &mut C,
) -> Result<Printed, AllocError> {
    let words = words(alloc, line)?;
    let mut files = held(alloc, FIRST)?;
    let mut printed = Printed::nothing(alloc)?;
    let mut door = ScriptDoor::new(alloc, scripts);
    printed.status = run_serve(
        rt,
        alloc,
        &words,
        &mut files,
        &mut door,
        crew,
        &OpenGate,
        &mut printed.out,
        &mut printed.err,
    );
    Ok(printed)
}

/// Whether the server prints this where its one client sends these bytes.
fn prints<R: Threads + Wait + Sync>(
    rt: &R,
    alloc: Global,
    coming: &'static [u8],
    failing: u64,
    text: &str,
) -> Result<bool, AllocError> {
    let scripts = [Script { coming, failing }];
    let mut crew = ThreadCrew::new(alloc);
    let printed = called(rt, alloc, "serve a 1", &scripts, &mut crew)?;
    Ok(printed.is(0, text, ""))
}

#[test]
fn serves_one_action(rt: HostRuntime) -> Result<(), Fail> {
    assert!(rt; prints(&rt, rt.alloc(), FIRST_BYTES, 0, FIRST_SERVED)?);
    Ok(())
}

/// What a peer sends, the call of its end that fails, and what is printed.
const PEERS: &[(&[u8], u64, &str)] = &[
    // It closes at once, or after half a frame, or its end fails.
    (&[], 0, ENDED_TEXT),
    (&[0, 0, 0, 8, 0x01, 0], 0, ENDED_TEXT),
    (FIRST_BYTES, 1, ENDED_TEXT),
    // A kind that is none, and a length over the limit.
    (
        &[0, 0, 0, 1, 0xff],
        0,
        "journal 2\n1 s0 bad -> refused 1 0\n2 s0 end -> bye\ncommit 0\n",
    ),
    (
        &[0xff, 0xff, 0xff, 0xff, 1],
        0,
        "journal 2\n1 s0 bad -> refused 1 0\n2 s0 end -> bye\ncommit 0\n",
    ),
    // It joins under another's number, and closes.
    (
        &[0, 0, 0, 8, 0x01, 0, 7, 0, 0, 0, 1, 0],
        0,
        "journal 2\n1 s0 join c7 1 [] -> welcome 0 []\n2 s0 end -> bye\ncommit 0\n",
    ),
    // It joins and observes the one object, and closes.
    (
        &[
            0, 0, 0, 8, 0x01, 0, 0, 0, 0, 0, 1, 0, 0, 0, 0, 6, 0x07, 1, 0, 0, 0, 0,
        ],
        0,
        "journal 3\n1 s0 join c0 1 [] -> welcome 0 []\n2 s0 observe 0 [0] -> seen 0 at 0 [0=(5)] []\n3 s0 end -> bye\ncommit 0\n",
    ),
];

#[test]
fn peers_may_send_anything(rt: HostRuntime) -> Result<(), Fail> {
    for (coming, failing, text) in PEERS {
        assert!(rt; prints(&rt, rt.alloc(), *coming, *failing, *text)?);
    }
    Ok(())
}

/// A line of words, and whether it is one that the call takes.
const LINES: &[(&str, bool)] = &[
    ("serve a 1", true),
    ("serve a 65535", true),
    ("serve a 0", false),
    ("serve a 65536", false),
    ("serve a 01", false),
    ("serve a", false),
    ("serve a 1 1", false),
    ("join a 1", false),
    ("", false),
];

/// Whether a line of words is answered so, where the one client closes at once.
fn answers<R: Threads + Wait + Sync>(
    rt: &R,
    alloc: Global,
    line: &str,
    is_taken: bool,
) -> Result<bool, AllocError> {
    let scripts = [Script {
        coming: &[],
        failing: 0,
    }];
    let mut crew = ThreadCrew::new(alloc);
    let printed = called(rt, alloc, line, &scripts, &mut crew)?;
    Ok(if is_taken {
        printed.is(0, ENDED_TEXT, "")
    } else {
        printed.is(2, "", "words: serve FILE PORT\n")
    })
}

#[test]
fn takes_its_own_words(rt: HostRuntime) -> Result<(), Fail> {
    for (line, taken) in LINES {
        assert!(rt; answers(&rt, rt.alloc(), line, *taken)?);
    }
    Ok(())
}

#[test]
fn faults_have_their_statuses(rt: HostRuntime) -> Result<(), Fail> {
    let mut crew = ThreadCrew::new(rt.alloc());
    let refused = called(&rt, rt.alloc(), "serve a 1", &[], &mut crew)?;
    assert!(rt; refused.is(6, "", "link\n"));
    let scripts = [Script {
        coming: FIRST_BYTES,
        failing: 0,
    }];
    let mut few = FewCrew::new(rt.alloc(), 0);
    let unstarted = called(&rt, rt.alloc(), "serve a 1", &scripts, &mut few)?;
    assert!(rt; unstarted.is(7, "", "start\n"));
    Ok(())
}
