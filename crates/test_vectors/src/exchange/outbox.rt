//! What an outbox sends, and in how many writes.
ghost use Rattle.std.specs.Prelude.{◌≡◌, false};
ghost use Rattle.sv_wire.specs.Laws.{IsReply};

use crate::exchange::ends::{CountingEnd, Wrong};
use crate::exchange::great::great_seen;
use std::alloc::{AllocError, Global};
use std::process::Abort;
use std::test::Fail;
use sv_exchange::Outbox;
use sv_link::{End, Sent};
use sv_wire::Reply;

/// Puts a reply three times, and sends what waits.
fn put_three<E: End>(outbox: &mut Outbox, reply: &Reply, end: &mut E) -> Sent
    requires open { (E.told end.old).closed ≡ false }
    requires message { IsReply reply.now }
{
    let first = outbox.put(reply, end);
    if first != Sent::Whole {
        return first;
    }
    let second = outbox.put(reply, end);
    if second != Sent::Whole {
        return second;
    }
    let third = outbox.put(reply, end);
    if third != Sent::Whole {
        return third;
    }
    outbox.flush(end)
}

/// How three replies went: the answer, how many bytes the end took, and how many writes it had.
fn sent_of_three(
    alloc: Global,
    reply: &Reply,
    wrong: Wrong,
) -> Result<(Sent, usize, usize), AllocError>
    requires { IsReply reply.now }
{
    let mut outbox = Outbox::new(alloc)?;
    let mut end = CountingEnd::new(alloc, wrong);
    let sent = put_three(&mut outbox, reply, &mut end);
    Ok((sent, end.sent.len(), end.writes))
}

/// The writes that fail and that find no memory; and then the answer, how many frames the end took, and how many writes it had.
type Row = (usize, usize, Sent, usize, usize);

fn check(
    rt: &impl Abort,
    alloc: Global,
    reply: &Reply,
    frame: usize,
    rows: &[Row],
) -> Result<(), AllocError>
    requires { IsReply reply.now }
{
    for (failing, lacking, sent, frames, writes) in rows {
        let wrong = Wrong {
            failing: *failing,
            lacking: *lacking,
        };
        let expected = (*sent, frame.wrapping_mul(*frames), *writes);
        assert!(rt;
            sent_of_three(alloc, reply, wrong)? == expected,
            "{wrong:?}"
        );
    }
    Ok(())
}

/// All three fit.
#[test]
fn what_fits_is_one_write(rt: HostRuntime) -> Result<(), Fail> {
    let rows = [
        (0, 0, Sent::Whole, 3, 1),
        (1, 0, Sent::Failed, 0, 1),
        (0, 1, Sent::Memory, 0, 1),
        (2, 2, Sent::Whole, 3, 1),
    ];
    check(&rt, rt.alloc(), &Reply::Idle, 5, &rows)?;
    Ok(())
}

/// No two of them fit, so each is sent before the next one. What went wrong first is told, and no other write is tried.
#[test]
fn what_does_not_fit_is_sent_first(rt: HostRuntime) -> Result<(), Fail> {
    let rows = [
        (0, 0, Sent::Whole, 3, 3),
        (1, 0, Sent::Failed, 0, 1),
        (2, 0, Sent::Failed, 1, 2),
        (3, 0, Sent::Failed, 2, 3),
        (0, 1, Sent::Memory, 0, 1),
        (0, 2, Sent::Memory, 1, 2),
        (1, 2, Sent::Failed, 0, 1),
        (2, 1, Sent::Memory, 0, 1),
    ];
    let reply = great_seen(rt.alloc())?;
    check(&rt, rt.alloc(), &reply, 33_510, &rows)?;
    Ok(())
}
