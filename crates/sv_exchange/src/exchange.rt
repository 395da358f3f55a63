//! One connection of a client and its session.
ghost use Rattle.std.specs.Prelude.{◌≡◌, false, true, [], ◌∷◌, ◌++◌, IfOk, OnOk, OnErr, IfSome};
ghost use Rattle.sv_wire.specs.Laws.{IsRequest, IsReply};
ghost use Rattle.sv_exchange.specs.View.{new_exchange, TakesRequest, TakesReply};

use crate::carrying::{MessageRoom, send, take};
use crate::inbox::Inbox;
use std::alloc::{AllocError, Global};
use std::marker::Model;
use sv_link::{MemLink, Side};
use sv_wire::{Reply, Request};

/// One connection of a client and its session. Contracts see the requests that the client sent and the server has not taken, the replies
/// that the server sent and the client has not taken, and which sides are closed.
///
/// Each message goes as the bytes of its frame through a [`MemLink`], and each side reads frames in an [`Inbox`]. Where all that was written
/// has been read, the next message goes through a new link. So an exchange takes the memory of what waits, and of what was sent since both
/// sides had read all.
#[derive(Drop)]
pub struct Exchange {
    alloc: Global,
    link: MemLink,
    server: Inbox,
    client: Inbox,
    buffers: MessageRoom,
}

impl Model for Exchange {
    ghost use Rattle.std.specs.Coded.{codes};
    ghost use Rattle.sv_exchange.specs.View.{ExchangeView};
    ghost use Rattle.sv_wire.specs.contracts.message.Request as request;
    ghost use Rattle.sv_wire.specs.contracts.message.Reply as reply;

    ghost Value = { ExchangeView };

    ghost coded = { Prim.hlevel (codes, request.the_row.coded, reply.the_row.coded) };

    ghost use Rattle.sv_exchange.specs.Invariant.{model_of, IsExchange};

    ghost view = { model_of };

    ghost invariant = { IsExchange };
}

impl Exchange {
    /// Nothing sent, and both sides open. It takes the room for the greatest frame of each side.
    pub fn new(alloc: Global) -> Result<Exchange, AllocError>
        ensures { IfOk result (λ e. e ≡ new_exchange) }
    {
        Ok(Exchange {
            alloc,
            link: MemLink::new(alloc),
            server: Inbox::new(alloc)?,
            client: Inbox::new(alloc)?,
            buffers: MessageRoom::new(alloc),
        })
    }

    /// The client sends a request. Without memory nothing is sent.
    pub fn send_request(&mut self, request: &Request) -> Result<(), AllocError>
        requires message { IsRequest request.now }
        requires open { self.old.closed ≡ false }
        ensures ok { OnOk result (self.new ≡ record self.old { requests = self.old.requests ++ request.now ∷ [] }) }
        ensures err { OnErr result (self.new ≡ self.old) }
    {
        send(
            self.alloc,
            &mut self.buffers,
            &mut self.link,
            Side::Client,
            request,
        )
    }

    /// The server sends a reply. Without memory nothing is sent.
    pub fn send_reply(&mut self, reply: &Reply) -> Result<(), AllocError>
        requires message { IsReply reply.now }
        requires open { self.old.stopped ≡ false }
        ensures ok { OnOk result (self.new ≡ record self.old { replies = self.old.replies ++ reply.now ∷ [] }) }
        ensures err { OnErr result (self.new ≡ self.old) }
    {
        send(
            self.alloc,
            &mut self.buffers,
            &mut self.link,
            Side::Server,
            reply,
        )
    }

    /// The server takes the first request that waits, where one does. Without memory none is taken.
    pub fn next_request(&mut self) -> Result<Option<Request>, AllocError>
        ensures taken { IfOk result (λ answer. TakesRequest self.old self.new answer) }
        ensures message { IfOk result (λ answer. IfSome answer IsRequest) }
        ensures err { OnErr result (self.new ≡ self.old) }
    {
        take(self.alloc, &mut self.server, &mut self.link, Side::Server)
    }

    /// The client takes the first reply that waits, where one does. Without memory none is taken.
    pub fn next_reply(&mut self) -> Result<Option<Reply>, AllocError>
        ensures taken { IfOk result (λ answer. TakesReply self.old self.new answer) }
        ensures message { IfOk result (λ answer. IfSome answer IsReply) }
        ensures err { OnErr result (self.new ≡ self.old) }
    {
        take(self.alloc, &mut self.client, &mut self.link, Side::Client)
    }

    /// The client's side closes. What it sent can still be taken.
    pub fn close(&mut self)
        ensures { self.new ≡ record self.old { closed = true } }
    {
        self.link.close(Side::Client);
    }

    /// The server's side closes, since the session's loop stops. What it sent can still be taken.
    pub fn stop(&mut self)
        ensures { self.new ≡ record self.old { stopped = true } }
    {
        self.link.close(Side::Server);
    }

    /// Whether the client's side is closed.
    pub fn is_closed(&self) -> bool
        ensures { result ≡ self.now.closed }
    {
        self.link.is_closed(Side::Client)
    }

    /// Whether the server's side is closed.
    pub fn is_stopped(&self) -> bool
        ensures { result ≡ self.now.stopped }
    {
        self.link.is_closed(Side::Server)
    }
}
