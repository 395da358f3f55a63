//! A session's turn.

ghost use Rattle.std.specs.Prelude.{◌≡◌, ◌<◌, ◌+◌, [], ◌∷◌, ◌++◌, true, false, length, IfOk, OnOk};
ghost use Rattle.sv_wire.specs.declared.message.Request.TheVariants as requests;
ghost use Rattle.sv_wire.specs.Laws.{IsReply};
ghost use Rattle.sv_journal.specs.Answer.{MayBeSession};
ghost use Rattle.sv_journal.specs.Sessions.{is_ended};
ghost use Rattle.sv_replay.specs.Serving.{whole_reply, with_answer, AnswersMessage, Entered, HadTurn, one_if};

use crate::server::Server;
use std::alloc::AllocError;
use sv_exchange::Exchange;
use sv_session::stop_for;
use sv_wire::{Reply, Request};

/// A session's turn: its next waiting request, or its End, which is due once its loop has stopped, or once the client's end is closed and no
/// request waits. Whether it found something to do.
pub(crate) fn serve<S: Server>(
    server: &mut S,
    channel: &mut Exchange,
    session: u16,
) -> Result<bool, AllocError>
    requires session { MayBeSession (S.view server.old).rules.sessions session }
    requires message { AnswersMessage (S.view server.old).server (S.view server.old).history session channel.old }
    ensures served { OnOk result (HadTurn session (S.view server.old) (S.view server.new) channel.old channel.new) }
    ensures found { IfOk result (λ found. length (S.view server.new).history ≡ length (S.view server.old).history + one_if found) }
{
    if server.is_ended(session) {
        return Ok(false);
    }
    if channel.is_stopped() {
        end(server, channel, session)?;
        return Ok(true);
    }
    match channel.next_request()? {
        Some(request) => {
            answer(server, channel, session, request)?;
            Ok(true)
        }
        None if channel.is_closed() => {
            end(server, channel, session)?;
            Ok(true)
        }
        None => Ok(false),
    }
}

/// Answers a request, which was taken from the connection.
fn answer<S: Server>(
    server: &mut S,
    channel: &mut Exchange,
    session: u16,
    request: Request,
) -> Result<(), AllocError>
    requires session { MayBeSession (S.view server.old).rules.sessions session }
    requires running { is_ended (S.view server.old).history session ≡ false }
    requires unstopped { channel.old.stopped ≡ false }
    requires message { IsReply (whole_reply (S.view server.old).server (S.view server.old).history session request) }
    ensures { OnOk result (Entered session request (S.view server.old) (S.view server.new) channel.new
        (with_answer (S.view server.old).server (S.view server.old).history session request channel.old)) }
{
    let reply = server.step(session, request)?;
    let stops = stop_for(&reply).is_some();
    send_answer(channel, &reply, stops)
}

/// Sends a reply to the client, after which the session's loop stops or goes on.
fn send_answer(channel: &mut Exchange, reply: &Reply, stops: bool) -> Result<(), AllocError>
    requires message { IsReply reply.now }
    requires running { channel.old.stopped ≡ false }
    ensures { OnOk result (channel.new ≡ record channel.old { replies = channel.old.replies ++ reply.now ∷ []; stopped = stops }) }
{
    channel.send_reply(reply)?;
    if stops {
        channel.stop();
    }
    Ok(())
}

/// Ends a session.
fn end<S: Server>(server: &mut S, channel: &mut Exchange, session: u16) -> Result<(), AllocError>
    requires session { MayBeSession (S.view server.old).rules.sessions session }
    requires running { is_ended (S.view server.old).history session ≡ false }
    ensures { OnOk result (Entered session requests.End (S.view server.old) (S.view server.new) channel.new (record channel.old { stopped = true })) }
{
    server.step(session, Request::End)?;
    channel.stop();
    Ok(())
}
