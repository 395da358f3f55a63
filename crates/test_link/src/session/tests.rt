//! Tables of the bytes of a session.
ghost use Rattle.std.specs.Prelude.{◌≡◌, ◌<◌, false};
ghost use Rattle.sv_session.specs.Serving.{MayServe};
ghost use Rattle.test_calls.specs.Scripts.{told_of_script};

use crate::session::frames::*;
use crate::session::opening::opened;
use std::alloc::Global;
use std::sync::Wait;
use std::test::Fail;
use sv_link::OpenGate;
use sv_lock::{Pass, SeqLock};
use sv_sequencer::Sequencer;
use sv_session::{SessionOut, serve_session};
use test_asked::locked;
use test_calls::ScriptEnd;
use test_calls::frames::{BARE_WELCOME, BYE, joined};

/// What comes, in pieces, the outcome, and the frames of the replies.
type Row<'a> = (&'a [&'a [u8]], SessionOut, &'a [&'a [u8]]);

/// A session over an end that gives these bytes, at most `step` at a time, and whose call of number `failing` fails. It tells the outcome,
/// and what was sent.
fn serve_by<R: Wait>(
    rt: &R,
    alloc: Global,
    lock: &SeqLock<Sequencer>,
    pass: &mut Pass<Sequencer>,
    mut end: ScriptEnd,
) -> Result<(SessionOut, Vec<u8>), Fail>
    requires may { MayServe lock.now pass.old }
    requires open { (told_of_script end).closed ≡ false }
    ensures same { (pass.new.lock ≡ pass.old.lock) × (pass.new.session ≡ pass.old.session) }
{
    let out = serve_session(rt, alloc, lock, pass, &mut end, &OpenGate);
    if !end.is_closed() {
        return Err(Fail::new("the end is open"));
    }
    Ok((out, end.into_sent()))
}

fn serve<R: Wait>(
    rt: &R,
    alloc: Global,
    coming: &[u8],
    step: usize,
    failing: u64,
) -> Result<(SessionOut, Vec<u8>), Fail>
    requires { 0 < step }
{
    let mut end = ScriptEnd::new(alloc, coming, failing, 0)?;
    end.move_at_most(step);
    let sequencer = opened(alloc)?;
    let (lock, mut keeper) = locked(alloc, sequencer)?;
    let mut pass = lock.split(&mut keeper);
    let served = serve_by(rt, alloc, &lock, &mut pass, end);
    lock.join(&mut keeper, pass);
    drop(lock.close(keeper));
    served
}

/// The same at any number of bytes a call.
fn check_stream<R: Wait>(
    rt: &R,
    alloc: Global,
    coming: &[u8],
    outcome: SessionOut,
    replies: &[u8],
) -> Result<(), Fail> {
    for step in [1usize, 3, 100_000] {
        let (out, sent) = serve(rt, alloc, coming, step, 0)?;
        if out != outcome || sent.as_slice() != replies {
            return Err(Fail::new(format_args!("{out:?}, and not {outcome:?}")));
        }
    }
    Ok(())
}

fn check<R: Wait>(rt: &R, alloc: Global, rows: &[Row]) -> Result<(), Fail> {
    for (coming, outcome, replies) in rows {
        let coming = joined(alloc, coming)?;
        let replies = joined(alloc, replies)?;
        check_stream(rt, alloc, &coming, *outcome, &replies)?;
    }
    Ok(())
}

const ROWS: &[Row] = &[
    (&[], SessionOut::Closed, &[]),
    (&[POLL], SessionOut::Closed, &[REFUSED_2]),
    (&[LEAVE, POLL], SessionOut::Closed, &[REFUSED_2, REFUSED_2]),
    (&[POLL, LEAVE], SessionOut::Closed, &[REFUSED_2, REFUSED_2]),
    (&[JOIN_0, POLL], SessionOut::Closed, &[BARE_WELCOME, IDLE]),
    (&[JOIN_0, LEAVE], SessionOut::Left, &[BARE_WELCOME, BYE]),
    (
        &[JOIN_0, LEAVE, POLL],
        SessionOut::Left,
        &[BARE_WELCOME, BYE],
    ),
    (
        &[JOIN_0, SUBMIT_INC_0, LEAVE],
        SessionOut::Left,
        &[BARE_WELCOME, RELAY_INC_0, BYE],
    ),
    // What is seen stops no session.
    (&[OBSERVE_0], SessionOut::Closed, &[REFUSED_2]),
    (
        &[JOIN_0, OBSERVE_0, OBSERVE_2, POLL],
        SessionOut::Closed,
        &[BARE_WELCOME, SEEN_0, REFUSED_8, IDLE],
    ),
    (
        &[JOIN_0, SUBMIT_INC_0, OBSERVE_0, LEAVE],
        SessionOut::Left,
        &[BARE_WELCOME, RELAY_INC_0, SEEN_NOTHING_AT_1, BYE],
    ),
    // A frame that the end cuts off.
    (&[JOIN_0, &[0]], SessionOut::Closed, &[BARE_WELCOME]),
    (
        &[JOIN_0, &[0, 0, 0, 1]],
        SessionOut::Closed,
        &[BARE_WELCOME],
    ),
    (&[POLL, &[0, 1, 0, 0, 4]], SessionOut::Closed, &[REFUSED_2]),
    // Lengths over the limit.
    (&[&[0, 1, 0, 1]], SessionOut::Malformed, &[REFUSED_1]),
    (
        &[JOIN_0, &[0xff, 0xff, 0xff, 0xff], POLL],
        SessionOut::Malformed,
        &[BARE_WELCOME, REFUSED_1],
    ),
    // What follows a malformed payload is not looked at.
    (
        &[POLL, &[0, 0, 0, 0], POLL],
        SessionOut::Malformed,
        &[REFUSED_2, REFUSED_1],
    ),
];

#[test]
fn sessions_are_served(rt: HostRuntime) -> Result<(), Fail> {
    check(&rt, rt.alloc(), ROWS)
}

/// Payloads of no request, one of each cause and more.
const MALFORMED: &[&[u8]] = &[
    &[],
    &[0x06],
    &[0x02],
    &[0x09, 1, 2],
    &[0x07],
    &[0x07, 0, 0, 0],
    &[0x07, 1, 0, 0, 0],
    &[0x07, 1, 0, 0, 0, 0, 0],
    &[0x07, 2, 0, 1, 0, 1, 0, 0],
    &[0x81, 0, 0, 0, 0, 0, 0],
    &[0x04, 0x00],
    &[0x06, 0, 0, 0, 1, 0],
    &[0x06, 0, 0, 0, 1, 2, 0, 1, 0, 0, 0, 3],
    &[0x06, 0, 0, 0, 1, 1, 0, 0, 0, 2],
    &[0x01, 0, 0, 0, 0],
    &[0x03, 0x00],
    &[
        0x06, 0, 0, 0, 1, 1, 0, 0, 0, 0, 0, 0, 0, 0, 0, 0, 0, 0, 1, 0x11, 0x35, 0x35, 0x35, 0x35,
        0x35, 0x35, 0x35, 0x35,
    ],
];

/// A Poll, and then a frame of this payload.
fn behind_a_poll(alloc: Global, payload: &[u8]) -> Result<Vec<u8>, Fail> {
    let Ok(length) = u8::try_from(payload.len()) else {
        return Err(Fail::new("a long payload"));
    };
    let mut bytes = joined(alloc, &[POLL, &[0, 0, 0]])?;
    bytes.push(length)?;
    bytes.extend_from_slice(payload)?;
    Ok(bytes)
}

#[test]
fn malformed_payloads_end_their_session(rt: HostRuntime) -> Result<(), Fail> {
    let replies = joined(rt.alloc(), &[REFUSED_2, REFUSED_1])?;
    for payload in MALFORMED {
        let coming = behind_a_poll(rt.alloc(), payload)?;
        check_stream(&rt, rt.alloc(), &coming, SessionOut::Malformed, &replies)?;
    }
    Ok(())
}

fn repeated(alloc: Global, frame: &[u8], count: usize) -> Result<Vec<u8>, Fail> {
    let mut bytes = Vec::new(alloc);
    for _ in 0..count {
        bytes.extend_from_slice(frame)?;
    }
    Ok(bytes)
}

/// They came in one read, and all replies go in one write: a third call of the end would fail.
#[test]
fn a_session_makes_so_many_requests(rt: HostRuntime) -> Result<(), Fail> {
    let polls = repeated(rt.alloc(), POLL, 2_000)?;
    let mut replies = repeated(rt.alloc(), REFUSED_2, 1_024)?;
    replies.extend_from_slice(REFUSED_9)?;
    let (out, sent) = serve(&rt, rt.alloc(), &polls, 100_000, 3)?;
    assert_eq!(rt; out, SessionOut::Spent);
    assert!(rt; sent == replies);
    Ok(())
}

/// What comes at once, the outcome, the frames of the replies, and for each call of the end whether they all were sent before it.
type Calls<'a> = (&'a [&'a [u8]], SessionOut, &'a [&'a [u8]], &'a [bool]);

/// A session reads, writes all replies to what came at once, and only then reads on.
const CALLS: &[Calls] = &[
    (&[], SessionOut::Closed, &[], &[false]),
    (
        &[JOIN_0, SUBMIT_INC_0, POLL],
        SessionOut::Closed,
        &[BARE_WELCOME, RELAY_INC_0, IDLE],
        &[false, false, true],
    ),
    (
        &[JOIN_0, OBSERVE_0, POLL, LEAVE],
        SessionOut::Left,
        &[BARE_WELCOME, SEEN_0, IDLE, BYE],
        &[false, false],
    ),
    (
        &[POLL, POLL, &[0, 0, 0, 0]],
        SessionOut::Malformed,
        &[REFUSED_2, REFUSED_2, REFUSED_1],
        &[false, false],
    ),
];

/// Each call of the end fails in turn, up to one that does not come.
fn check_calls<R: Wait>(rt: &R, alloc: Global, row: &Calls) -> Result<(), Fail> {
    let (coming, outcome, replies, calls) = row;
    let coming = joined(alloc, *coming)?;
    let replies = joined(alloc, *replies)?;
    let mut failing = 1u64;
    for is_behind in *calls {
        let (out, sent) = serve(rt, alloc, &coming, 100_000, failing)?;
        let is_so = if *is_behind {
            sent == replies
        } else {
            sent.is_empty()
        };
        if out != SessionOut::LinkFault || !is_so {
            return Err(Fail::new(format_args!("{out:?} at call {failing}")));
        }
        failing = failing.wrapping_add(1);
    }
    let (out, sent) = serve(rt, alloc, &coming, 100_000, failing)?;
    if out != *outcome || sent != replies {
        return Err(Fail::new(format_args!("{out:?} at call {failing}")));
    }
    Ok(())
}

#[test]
fn replies_to_one_read_are_one_write(rt: HostRuntime) -> Result<(), Fail> {
    for row in CALLS {
        check_calls(&rt, rt.alloc(), row)?;
    }
    Ok(())
}

/// A frame of the greatest length comes whole. Its payload is no request.
#[test]
fn the_greatest_frame_is_malformed(rt: HostRuntime) -> Result<(), Fail> {
    let payload = repeated(rt.alloc(), &[0], 65_536)?;
    let coming = joined(rt.alloc(), &[&[0, 1, 0, 0], &payload, POLL])?;
    check_stream(&rt, rt.alloc(), &coming, SessionOut::Malformed, REFUSED_1)
}

/// Each call of the end fails in turn.
#[test]
fn links_fail(rt: HostRuntime) -> Result<(), Fail> {
    let coming = joined(rt.alloc(), &[JOIN_0, POLL, LEAVE])?;
    let whole = joined(rt.alloc(), &[BARE_WELCOME, IDLE, BYE])?;
    for failing in 1..200u64 {
        let (out, sent) = serve(&rt, rt.alloc(), &coming, 3, failing)?;
        if out == SessionOut::Left {
            assert!(rt; sent == whole);
            assert!(rt; failing > 10);
            return Ok(());
        }
        assert_eq!(rt; out, SessionOut::LinkFault);
        assert!(rt; whole.starts_with(&sent) && sent.len() < whole.len());
    }
    Err(Fail::new("a call fails for ever"))
}
