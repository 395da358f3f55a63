//! What is refused.
use super::{ask, check, check_from, opened, play};
use std::alloc::Global;
use std::test::Fail;
use sv_sequencer::Sequencer;
use sv_wire::Request;

const REFUSALS: &str = "\
1 s0 poll -> refused 2 0
2 s0 join c32 1 [] -> refused 10 0
3 s0 join c0 1 [1] -> refused 8 0
4 s0 join c0 1 [0] -> welcome 0 [0=(0)]
5 s0 join c0 2 [0] -> refused 3 0
6 s0 submit 9 reads 0 writes 0 { set @0.0 (@0.0 + 1); } -> refused 5 1
7 s0 submit 1 bad -> refused 6 4
8 s0 done [1:(1)] -> refused 7 0
9 s0 bad -> refused 1 0
10 s0 poll -> refused 4 0
";

#[test]
fn refusals(rt: HostRuntime) -> Result<(), Fail> {
    check(&rt, &[0], 8, None, REFUSALS)
}

/// A Done names positions that ascend, are accepted and were sent to the session, each with a value for each written object.
const BAD_DONES: &str = "\
1 s0 join c0 1 [] -> welcome 0 []
2 s1 join c1 1 [] -> welcome 0 []
3 s0 submit 1 reads 0 writes 0 { set @0.0 (@0.0 + 1); } -> relay 1 at 0 [0=(0)] [1:c0.1]
4 s0 submit 2 reads 0 writes 0 { set @0.0 (@0.0 + 1); } -> relay 2 at 0 [] [2:c0.2]
5 s0 done [] -> refused 7 0
6 s0 done [0:(1)] -> refused 7 0
7 s0 done [2:(2) 1:(1)] -> refused 7 0
8 s0 done [1:(1) 1:(1)] -> refused 7 0
9 s0 done [1:(1) 3:(3)] -> refused 7 0
10 s0 done [1:] -> refused 7 0
11 s0 done [1:(1)(1)] -> refused 7 0
12 s1 done [1:(1)] -> refused 7 0
13 s0 done [1:(1) 2:(2)] -> noted 2
14 s1 done [1:(1)(1)] -> noted 2
";

#[test]
fn bad_dones(rt: HostRuntime) -> Result<(), Fail> {
    check(&rt, &[0, 0], 8, None, BAD_DONES)
}

/// A first line, or none, and then Polls of a session, up to so many entries in all.
#[derive(Clone, Copy)]
struct Polls<'a> {
    first: &'a str,
    session: u16,
    entries: u16,
}

fn poll_all(alloc: Global, sequencer: &mut Sequencer, polls: Polls) -> Result<(), Fail> {
    play(alloc, sequencer, polls.first)?;
    for _ in sequencer.journal().len()..usize::from(polls.entries) {
        ask(sequencer, polls.session, Request::Poll)?;
    }
    Ok(())
}

/// After the Polls, each line is answered as it tells.
fn check_polled(
    alloc: Global,
    sequencer: &mut Sequencer,
    polls: Polls,
    lines: &str,
) -> Result<(), Fail> {
    poll_all(alloc, sequencer, polls)?;
    check_from(alloc, sequencer, 1, usize::from(polls.entries), lines)
}

fn check_after_polls(rt: &HostRuntime, polls: Polls, lines: &str) -> Result<(), Fail> {
    let mut sequencer = opened(rt.alloc(), &[0], 8, None)?;
    let told = check_polled(rt.alloc(), &mut sequencer, polls, lines);
    drop(sequencer);
    told
}

const JOINED: &str = "1 s0 join c0 1 [] -> welcome 0 []";

const LAST_REQUEST: &str = "\
1024 s0 poll -> idle
1025 s0 poll -> refused 9 0
1026 s0 poll -> refused 4 0
";

#[test]
fn last_request(rt: HostRuntime) -> Result<(), Fail> {
    let polls = Polls {
        first: JOINED,
        session: 0,
        entries: 1023,
    };
    check_after_polls(&rt, polls, LAST_REQUEST)
}

/// What is malformed is not looked at in a session that is spent.
const MALFORMED_REQUEST: &str = "\
1025 s0 bad -> refused 9 0
1026 s0 bad -> refused 4 0
";

#[test]
fn malformed_request_of_a_spent_session(rt: HostRuntime) -> Result<(), Fail> {
    let polls = Polls {
        first: JOINED,
        session: 0,
        entries: 1024,
    };
    check_after_polls(&rt, polls, MALFORMED_REQUEST)
}

const OBSERVE: &str = "\
1025 s0 observe 0 [0] -> refused 9 0
1026 s0 observe 0 [0] -> refused 4 0
";

#[test]
fn observe_of_a_spent_session(rt: HostRuntime) -> Result<(), Fail> {
    let polls = Polls {
        first: JOINED,
        session: 0,
        entries: 1024,
    };
    check_after_polls(&rt, polls, OBSERVE)
}

/// A session that never joined is spent too.
const SPENT_BEFORE_A_JOIN: &str = "\
1025 s1 join c0 1 [] -> refused 9 0
1026 s0 join c0 1 [] -> welcome 0 []
";

#[test]
fn spent_before_a_join(rt: HostRuntime) -> Result<(), Fail> {
    let polls = Polls {
        first: "",
        session: 1,
        entries: 1024,
    };
    check_after_polls(&rt, polls, SPENT_BEFORE_A_JOIN)
}
