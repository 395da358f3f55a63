//! What one side of a connection wrote.
ghost use Rattle.std.specs.Prelude.{◌≡◌, ◌+◌, ◌≤◌, false, true, [], ◌++◌, length, take, drop, OnOk, OnErr, min};
ghost use Rattle.sv_link.specs.Sides.{new_side, unread, after_write, after_read, after_close};

use std::alloc::{AllocError, Global};
use std::marker::Model;

/// What one side wrote, how many of these bytes the other side has read, and whether the side is closed.
///
/// The bytes that were read are kept, since contracts speak of all that was written. So the memory of a connection is the bytes that
/// it carried.
#[derive(Debug, Drop)]
pub(crate) struct Channel {
    bytes: Vec<u8>,
    taken: usize,
    closed: bool,
}

impl Model for Channel {
    ghost use Rattle.std.specs.Prelude.{◌≤◌};
    ghost use Rattle.std.specs.Vec.{vec_len};
    ghost use Rattle.sv_link.specs.Sides.{SideView};

    ghost Value = { SideView };

    ghost view = { λ c. record { written = c.bytes.items; read = c.taken; closed = c.closed } };

    ghost invariant = { λ c. c.taken ≤ vec_len c.bytes };
}

impl Channel {
    /// Nothing written, and open.
    pub(crate) fn new(alloc: Global) -> Channel
        ensures { result ≡ new_side }
    {
        Channel {
            bytes: Vec::new(alloc),
            taken: 0,
            closed: false,
        }
    }

    /// Appends what the side writes. Without memory nothing is written.
    pub(crate) fn write(&mut self, piece: &[u8]) -> Result<(), AllocError>
        ensures ok { OnOk result (self.new ≡ after_write self.old piece.now) }
        ensures err { OnErr result (self.new ≡ self.old) }
    {
        self.bytes.extend_from_slice(piece)?;
        Ok(())
    }

    /// How many bytes the other side has not read.
    pub(crate) fn waiting(&self) -> usize
        ensures count { result ≡ length (unread self.now) }
        ensures read { self.now.read + result ≡ length self.now.written }
    {
        self.bytes.len() - self.taken
    }

    /// Gives the other side what it has not read, as much as there is and fits.
    pub(crate) fn read(&mut self, into: &mut [u8]) -> usize
        ensures count { result ≡ min (length into.old) (length (unread self.old)) }
        ensures bytes { into.new ≡ take result (unread self.old) ++ drop result into.old }
        ensures left { self.new ≡ after_read self.old result }
    {
        let count = self.waiting().min(into.len());
        let start = self.taken;
        into[..count].copy_from_slice(&self.bytes[start..start + count]);
        self.taken += count;
        count
    }

    /// Closes the side.
    pub(crate) fn close(&mut self)
        ensures { self.new ≡ after_close self.old }
    {
        self.closed = true;
    }

    /// Whether the side is closed.
    pub(crate) fn is_closed(&self) -> bool
        ensures { result ≡ self.now.closed }
    {
        self.closed
    }
}
