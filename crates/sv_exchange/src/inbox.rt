//! Reading whole messages from what came.
ghost use Rattle.std.specs.Prelude.{◌≡◌, ◌≢◌, ◌<◌, [], false, None, IfOk, length, option_map};
ghost use Rattle.sv_link.specs.Ends.{EndReadCause};
ghost use Rattle.sv_link.specs.Sides.{other, side_of, unread};
ghost use Rattle.sv_frame.specs.Answers.{ReadsInto, Skips};
ghost use Rattle.sv_frame.specs.Frames.{greatest_frame, first_frame};
ghost use Rattle.sv_exchange.specs.Incoming.{ReadsFirst, Takes, KeepsRoom, first_payload_of, IsReadAs};
ghost use Rattle.sv_exchange.specs.Streams.{IsFilled, SideReadOn, IsWithin, not_taken};

use crate::filling::fill;
use crate::message::Message;
use std::alloc::{AllocError, Global};
use std::marker::Model;
use sv_frame::{FrameReader, NextFrame};
use sv_link::{End, EndRead, MemLink, Side};
use sv_wire::{Malformed, WireFault};

/// What the first frame of an inbox is read as.
#[derive(Debug, Drop)]
pub enum Incoming<M> {
    /// A message, which is taken off.
    Whole(M),

    /// No whole frame has come yet.
    NotYet,

    /// The first frame's payload is no message of this kind. It stays.
    Malformed(Malformed),

    /// The next frame's length is over the limit. No message can be read from here on.
    TooLong(u32),

    /// There was no memory for the message. Its frame stays.
    Memory,
}

/// What came over a connection and was not yet taken as messages. Contracts see the list of these bytes.
///
/// Its room, for one frame of the greatest length, is taken once, by `new`.
#[derive(Drop)]
pub struct Inbox {
    reader: FrameReader,
}

impl Model for Inbox {
    ghost use Rattle.std.specs.Prelude.{List, ℕ};

    ghost Value = { List ℕ };

    ghost view = { λ i. i.reader };
}

impl Inbox {
    /// Nothing came.
    pub fn new(alloc: Global) -> Result<Inbox, AllocError>
        ensures { IfOk result (λ inbox. inbox ≡ []) }
    {
        Ok(Inbox {
            reader: FrameReader::new(alloc)?,
        })
    }

    /// Waits for bytes of an end, and reads as many as have come and fit.
    pub fn read_from<E: End>(&mut self, end: &mut E) -> EndRead
        requires open { (E.told end.old).closed ≡ false }
        requires room { length self.old < greatest_frame }
        ensures came { ReadsInto (E.told end.old) self.old result (E.told end.new) self.new }
        ensures cause { EndReadCause (E.faults end.old) (E.faults end.new) result }
        ensures calm { E.calm end.old → (result ≢ EndRead.Failed) × E.calm end.new }
    {
        self.reader.read_from(end)
    }

    /// Reads what the other side wrote to a link, as much as there is and fits.
    pub(crate) fn read_link(&mut self, link: &mut MemLink, side: Side)
        requires { IsWithin (side_of link.old (other side)) }
        ensures same { not_taken self.new (side_of link.new (other side)) ≡ not_taken self.old (side_of link.old (other side)) }
        ensures filled { IsFilled self.new (unread (side_of link.new (other side))) }
        ensures link { SideReadOn link.old link.new side }
    {
        fill(link, side, &mut self.reader);
    }

    /// Takes the first message off, where a whole frame has come. Any other answer takes nothing off.
    pub fn next<M: Message>(&mut self, alloc: Global) -> Incoming<M>
        ensures reads { ReadsFirst M.read_at result self.old }
        ensures takes { Takes result self.old self.new }
        ensures room { KeepsRoom result self.new }
    {
        let answer = read_first(alloc, self.reader.first());
        if let Incoming::Whole(_) = &answer {
            self.reader.skip();
        }
        answer
    }

    /// The payload of the first frame, where a whole one has come.
    pub fn first_payload(&self) -> Option<&[u8]>
        ensures { option_map (λ payload. payload.now) result ≡ first_payload_of self.now }
    {
        match self.reader.first() {
            NextFrame::Frame(payload) => Some(payload),
            NextFrame::NotYet => None,
            NextFrame::TooLong(_) => None,
        }
    }

    /// Takes the first frame off, whatever its payload is.
    pub fn skip(&mut self)
        requires { first_frame self.old ≢ None }
        ensures { Skips self.old self.new }
    {
        self.reader.skip();
    }
}

/// What a frame at the front is read as.
fn read_first<M: Message>(alloc: Global, first: NextFrame<'_>) -> Incoming<M>
    ensures { IsReadAs M.read_at first.entry result }
{
    match first {
        NextFrame::Frame(payload) => match M::decode(alloc, payload) {
            Ok(message) => Incoming::Whole(message),
            Err(WireFault::Malformed(fault)) => Incoming::Malformed(fault),
            Err(WireFault::Memory) => Incoming::Memory,
        },
        NextFrame::NotYet => Incoming::NotYet,
        NextFrame::TooLong(size) => Incoming::TooLong(size),
    }
}
