//! What each side of an exchange takes, in tables of steps.
ghost use Rattle.std.specs.Prelude.{◌≡◌, false};
ghost use Rattle.sv_wire.specs.Laws.{IsRequest, IsReply};

use crate::exchange::great::{great_relay, great_seen};
use std::alloc::{AllocError, Global};
use std::process::Abort;
use std::test::Fail;
use sv_exchange::Exchange;
use sv_wire::{Reply, Request, encode_reply};

/// A step of one side. Messages are of a kind: 1 is Poll or Idle, 2 is Leave or Bye, and 0 is none.
#[derive(Clone, Copy)]
enum Step {
    Polls,
    Leaves,
    SendsIdle,
    SendsBye,
    TakesRequest(u8),
    TakesReply(u8),
    Closes,
    Stops,
    /// Whether the client's side is closed, and the server's.
    Tells(bool, bool),
}

fn request_kind(request: Option<Request>) -> u8 {
    match request {
        Some(Request::Poll) => 1,
        Some(Request::Leave) => 2,
        Some(_) => 3,
        None => 0,
    }
}

fn reply_kind(reply: Option<Reply>) -> u8 {
    match reply {
        Some(Reply::Idle) => 1,
        Some(Reply::Bye) => 2,
        Some(_) => 3,
        None => 0,
    }
}

fn ask(rt: &impl Abort, exchange: &mut Exchange, request: &Request) -> Result<(), AllocError>
    requires { IsRequest request.now }
{
    assert!(rt; !exchange.is_closed());
    exchange.send_request(request)
}

fn answer(rt: &impl Abort, exchange: &mut Exchange, reply: &Reply) -> Result<(), AllocError>
    requires { IsReply reply.now }
{
    assert!(rt; !exchange.is_stopped());
    exchange.send_reply(reply)
}

fn play(rt: &impl Abort, exchange: &mut Exchange, step: Step) -> Result<(), AllocError> {
    match step {
        Step::Polls => return ask(rt, exchange, &Request::Poll),
        Step::Leaves => return ask(rt, exchange, &Request::Leave),
        Step::SendsIdle => return answer(rt, exchange, &Reply::Idle),
        Step::SendsBye => return answer(rt, exchange, &Reply::Bye),
        Step::TakesRequest(kind) => {
            assert!(rt; request_kind(exchange.next_request()?) == kind);
        }
        Step::TakesReply(kind) => {
            assert!(rt; reply_kind(exchange.next_reply()?) == kind);
        }
        Step::Closes => exchange.close(),
        Step::Stops => exchange.stop(),
        Step::Tells(closed, stopped) => {
            assert!(rt; exchange.is_closed() == closed);
            assert!(rt; exchange.is_stopped() == stopped);
        }
    }
    Ok(())
}

fn play_each(rt: &impl Abort, exchange: &mut Exchange, steps: &[Step]) -> Result<(), AllocError> {
    for step in steps {
        play(rt, exchange, *step)?;
    }
    Ok(())
}

fn play_all(rt: &impl Abort, alloc: Global, steps: &[Step]) -> Result<(), AllocError> {
    let mut exchange = Exchange::new(alloc)?;
    let played = play_each(rt, &mut exchange, steps);
    drop(exchange);
    played
}

/// Both sides send before either takes; a closed side's messages still come; and what is sent when all was read goes through a new link,
/// whose closed sides are those of the old one.
#[test]
fn messages_wait_in_order(rt: HostRuntime) -> Result<(), Fail> {
    let several = [
        Step::Tells(false, false),
        Step::Polls,
        Step::Polls,
        Step::Leaves,
        Step::SendsIdle,
        Step::SendsBye,
        Step::TakesRequest(1),
        Step::TakesReply(1),
        Step::TakesRequest(1),
        Step::Closes,
        Step::Tells(true, false),
        Step::TakesRequest(2),
        Step::TakesRequest(0),
        Step::TakesReply(2),
        Step::TakesReply(0),
        Step::SendsBye,
        Step::Tells(true, false),
        Step::Stops,
        Step::Tells(true, true),
        Step::TakesReply(2),
        Step::TakesReply(0),
    ];
    play_all(&rt, rt.alloc(), &several)?;
    let one = [
        Step::TakesReply(0),
        Step::Stops,
        Step::Tells(false, true),
        Step::Leaves,
        Step::TakesRequest(2),
        Step::Tells(false, true),
    ];
    play_all(&rt, rt.alloc(), &one)?;
    Ok(())
}

/// A great reply's payload: how long it is, and how it begins.
struct Great {
    length: usize,
    front: [u8; 16],
}

const GREAT_RELAY: Great = Great {
    length: 32_946,
    front: [0x89, 0, 0, 0, 1, 0, 0, 0, 0, 2, 16, 0, 0, 4, 0x7f, 0xff],
};

/// It has the values of sixteen objects more.
const GREAT_SEEN: Great = Great {
    length: 33_506,
    front: [0x8b, 0, 0, 0, 1, 0, 0, 0, 0, 2, 32, 0, 0, 4, 0x7f, 0xff],
};

/// Whether the next reply is this great one.
fn takes_great(alloc: Global, exchange: &mut Exchange, great: &Great) -> Result<bool, AllocError> {
    let Some(taken) = exchange.next_reply()? else {
        return Ok(false);
    };
    let written = encode_reply(alloc, &taken);
    drop(taken);
    let written = written?;
    Ok(written.len() == great.length && written.starts_with(&great.front))
}

fn send_three(rt: &impl Abort, exchange: &mut Exchange, reply: &Reply) -> Result<(), AllocError>
    requires { IsReply reply.now }
{
    answer(rt, exchange, reply)?;
    answer(rt, exchange, reply)?;
    answer(rt, exchange, reply)
}

fn take_three(
    rt: &impl Abort,
    alloc: Global,
    exchange: &mut Exchange,
    great: &Great,
) -> Result<(), AllocError> {
    for _ in 0..3u8 {
        assert!(rt; takes_great(alloc, exchange, great)?);
    }
    play(rt, exchange, Step::TakesReply(0))
}

/// Three great relays are sent, then taken, and no reply is left; then three great ones of what was seen.
fn carry_three(rt: &impl Abort, alloc: Global, exchange: &mut Exchange) -> Result<(), AllocError> {
    let relay = great_relay(alloc)?;
    let sent = send_three(rt, exchange, &relay);
    drop(relay);
    sent?;
    take_three(rt, alloc, exchange, &GREAT_RELAY)?;
    let seen = great_seen(alloc)?;
    let sent = send_three(rt, exchange, &seen);
    drop(seen);
    sent?;
    take_three(rt, alloc, exchange, &GREAT_SEEN)
}

/// Three of them are more bytes than a reader has room for.
#[test]
fn great_replies_wait(rt: HostRuntime) -> Result<(), Fail> {
    let mut exchange = Exchange::new(rt.alloc())?;
    let carried = carry_three(&rt, rt.alloc(), &mut exchange);
    drop(exchange);
    carried?;
    Ok(())
}
