//! A client's connection to the server: requests go out, replies come in, over any end.
ghost use Rattle.std.specs.Prelude.{◌≡◌, ◌≢◌, ◌<◌, false, length, [], ◌∷◌, None, All, IfOk, IfErr, OnOk};
ghost use Rattle.sv_frame.specs.Frames.{first_frame, greatest_frame};
ghost use Rattle.sv_frame.specs.Answers.{Skips};
ghost use Rattle.sv_wire.specs.Grammar.{IsWireRequest};
ghost use Rattle.sv_pilot.specs.Lines.{line_of, asking, IsPartial};
ghost use Rattle.sv_pilot.specs.Sending.{trouble_of_sent, trouble_of_read, HasRead, Sends, Reads, IsSent, IsReadOn, IsReplyOf, IsFrontOf, IsReceived};

use crate::trouble::Trouble;
use std::alloc::Global;
use std::marker::Model;
use sv_exchange::Outbox;
use sv_frame::{FrameReader, NextFrame};
use sv_link::{End, EndRead, Sent};
use sv_wire::{Reply, Request, WireFault, decode_reply, read_request};

/// A connection. Contracts see what its end tells, which is open, how often the end failed, the bytes that came and were not taken as replies, and
/// those that wait to be sent.
#[derive(Drop)]
pub(crate) struct Connection<E: End> {
    alloc: Global,
    reader: FrameReader,
    outbox: Outbox,
    end: E,
}

impl<E: End> Model for Connection<E> {
    ghost use Rattle.std.specs.Prelude.{◌≡◌, false};
    ghost use Rattle.sv_pilot.specs.Lines.{Line};

    ghost Value = { Line };

    ghost view = { λ c. record { told = E.told c.end; faults = E.faults c.end; came = c.reader; waits = c.outbox } };

    ghost invariant = { λ c. (E.told c.end).closed ≡ false };
}

/// What a try to send tells.
fn whole(sent: Sent) -> Result<(), Trouble>
    ensures { result ≡ trouble_of_sent sent }
{
    match sent {
        Sent::Whole => Ok(()),
        Sent::Failed => Err(Trouble::Link),
        Sent::Memory => Err(Trouble::Memory),
    }
}

/// What a read tells.
fn some(read: EndRead) -> Result<(), Trouble>
    ensures { result ≡ trouble_of_read read }
{
    match read {
        EndRead::Got(_) => Ok(()),
        EndRead::Ended => Err(Trouble::Link),
        EndRead::Failed => Err(Trouble::Link),
        EndRead::Memory => Err(Trouble::Memory),
    }
}

/// The reply that a payload is.
fn reply_of(alloc: Global, payload: &[u8]) -> Result<Reply, Trouble>
    ensures { IsReplyOf payload.now result }
{
    match decode_reply(alloc, payload) {
        Ok(reply) => Ok(reply),
        Err(WireFault::Malformed(_)) => Err(Trouble::Reply),
        Err(WireFault::Memory) => Err(Trouble::Memory),
    }
}

impl<E: End> Connection<E> {
    ghost use Rattle.sv_pilot.specs.declared.trouble.Trouble.TheVariants as troubles;

    /// A connection over a new end. It fails with `Memory` alone.
    pub(crate) fn new(alloc: Global, end: E) -> Result<Connection<E>, Trouble>
        requires open { (E.told end).closed ≡ false }
        ensures line { IfOk result (λ connection. connection ≡ line_of (E.told end) (E.faults end)) }
        ensures memory { IfErr result (λ trouble. trouble ≡ troubles.Memory) }
    {
        let reader = FrameReader::new(alloc)?;
        let outbox = Outbox::new(alloc)?;
        Ok(Connection {
            alloc,
            reader,
            outbox,
            end,
        })
    }

    /// Puts a request behind those that wait to be sent.
    pub(crate) fn send(&mut self, request: &Request) -> Result<(), Trouble>
        requires { IsWireRequest request.now }
        ensures sent { Sends (asking self.old (request.now ∷ [])) self.new result }
        ensures answer { IsSent self.old self.new result }
    {
        read_request(request);
        whole(self.outbox.put(request, &mut self.end))
    }

    /// Puts requests behind those that wait to be sent.
    pub(crate) fn send_all(&mut self, requests: &[Request]) -> Result<(), Trouble>
        requires { All IsWireRequest requests.now }
        ensures sent { Sends (asking self.old requests.now) self.new result }
        ensures answer { IsSent self.old self.new result }
    {
        for request in requests {
            self.send(request)?;
        }
        Ok(())
    }

    /// Sends what waits.
    pub(crate) fn flush(&mut self) -> Result<(), Trouble>
        ensures sent { Sends self.old self.new result }
        ensures empty { OnOk result (self.new.waits ≡ []) }
        ensures answer { IsSent self.old self.new result }
    {
        whole(self.outbox.flush(&mut self.end))
    }

    /// Waits for more bytes.
    fn read(&mut self) -> Result<(), Trouble>
        requires room { length self.old.came < greatest_frame }
        requires partial { IsPartial self.old.came }
        ensures read { HasRead self.old self.new self.new.waits }
        ensures answer { IsReadOn self.old self.new result }
    {
        some(self.reader.read_from(&mut self.end))
    }

    /// The reply at the front of what came, where a whole frame has come, or a length over the limit.
    fn front(&self) -> Option<Result<Reply, Trouble>>
        ensures { IsFrontOf self.now.came result }
    {
        match self.reader.first() {
            NextFrame::Frame(payload) => Some(reply_of(self.alloc, payload)),
            NextFrame::NotYet => None,
            NextFrame::TooLong(_) => Some(Err(Trouble::Reply)),
        }
    }

    /// Waits for the next reply, which stays in front of what came.
    fn wait(&mut self) -> Result<Reply, Trouble>
        ensures read { HasRead self.old self.new self.new.waits }
        ensures received { IsReceived self.old self.new result }
    {
        loop {
            if let Some(reply) = self.front() {
                return reply;
            }
            self.read()?;
        }
    }

    /// Sends what waits, and waits for the next reply, which stays in front of what came.
    pub(crate) fn receive(&mut self) -> Result<Reply, Trouble>
        ensures read { Reads self.old self.new result }
        ensures received { IsReceived self.old self.new result }
    {
        self.flush()?;
        self.wait()
    }

    /// Takes the reply at the front of what came off.
    pub(crate) fn skip(&mut self)
        requires { first_frame self.old.came ≢ None }
        ensures told { self.new.told ≡ self.old.told }
        ensures faults { self.new.faults ≡ self.old.faults }
        ensures came { Skips self.old.came self.new.came }
        ensures waits { self.new.waits ≡ self.old.waits }
    {
        self.reader.skip();
    }
}
