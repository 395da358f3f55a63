//! Both ends of one connection, for one thread.
ghost use Rattle.std.specs.Prelude.{◌≡◌, ◌+◌, ◌++◌, length, take, drop, OnOk, OnErr, min};
ghost use Rattle.sv_link.specs.Sides.{new_side, other, side_of, with_side, unread, after_write, after_read, after_close};

use crate::channel::Channel;
use crate::side::Side;
use std::alloc::{AllocError, Global};
use std::marker::Model;

/// Both ends of one connection, for one thread. Contracts see what each side wrote, how much of it the other side has read, and whether
/// the side is closed.
///
/// Only [`write`](MemLink::write) takes memory. All that was written is kept, so a link takes the memory of what it carried.
#[derive(Debug, Drop)]
pub struct MemLink {
    server: Channel,
    client: Channel,
}

impl Model for MemLink {
    ghost use Rattle.sv_link.specs.Sides.{LinkView};

    ghost Value = { LinkView };

    ghost view = { λ l. record { server = l.server; client = l.client } };
}

impl MemLink {
    /// Nothing written, and both sides open.
    pub fn new(alloc: Global) -> MemLink
        ensures { result ≡ record { server = new_side; client = new_side } }
    {
        MemLink {
            server: Channel::new(alloc),
            client: Channel::new(alloc),
        }
    }

    /// Appends what a side writes. Without memory nothing is written.
    pub fn write(&mut self, side: Side, piece: &[u8]) -> Result<(), AllocError>
        ensures ok { OnOk result (self.new ≡ with_side self.old side (after_write (side_of self.old side) piece.now)) }
        ensures err { OnErr result (self.new ≡ self.old) }
    {
        match side {
            Side::Server => self.server.write(piece),
            Side::Client => self.client.write(piece),
        }
    }

    /// Reads what the other side wrote and this side has not read, as much as there is and fits.
    pub fn read(&mut self, side: Side, into: &mut [u8]) -> usize
        ensures count { result ≡ min (length into.old) (length (unread (side_of self.old (other side)))) }
        ensures bytes { into.new ≡ take result (unread (side_of self.old (other side))) ++ drop result into.old }
        ensures left { self.new ≡ with_side self.old (other side) (after_read (side_of self.old (other side)) result) }
    {
        match side {
            Side::Server => self.client.read(into),
            Side::Client => self.server.read(into),
        }
    }

    /// How many bytes of the other side this side has not read.
    pub fn waiting(&self, side: Side) -> usize
        ensures count { result ≡ length (unread (side_of self.now (other side))) }
        ensures read { (side_of self.now (other side)).read + result ≡ length (side_of self.now (other side)).written }
    {
        match side {
            Side::Server => self.client.waiting(),
            Side::Client => self.server.waiting(),
        }
    }

    /// Closes a side.
    pub fn close(&mut self, side: Side)
        ensures { self.new ≡ with_side self.old side (after_close (side_of self.old side)) }
    {
        match side {
            Side::Server => self.server.close(),
            Side::Client => self.client.close(),
        }
    }

    /// Whether a side is closed.
    pub fn is_closed(&self, side: Side) -> bool
        ensures { result ≡ (side_of self.now side).closed }
    {
        match side {
            Side::Server => self.server.is_closed(),
            Side::Client => self.client.is_closed(),
        }
    }
}
