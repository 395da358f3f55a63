//! Moving whole messages one way over a link.
ghost use Rattle.std.specs.Prelude.{◌≡◌, IfOk, OnOk, OnErr, IfSome};
ghost use Rattle.sv_frame.specs.Frames.{frame};
ghost use Rattle.sv_link.specs.Sides.{other, side_of};
ghost use Rattle.sv_exchange.specs.Streams.{SideReadOn, IsSameLink, Wrote};
ghost use Rattle.sv_exchange.specs.Carried.{IsLane, TakesFirst, waiting};

use crate::inbox::{Inbox, Incoming};
use crate::message::Message;
use crate::renewing::renew;
use std::alloc::{AllocError, Global};
use sv_frame::put_frame;
use sv_link::{MemLink, Side};

/// Room for the message that is being sent, which is kept from one to the next.
#[derive(Drop)]
pub(crate) struct MessageRoom {
    payload: Vec<u8>,
    framed: Vec<u8>,
}

impl MessageRoom {
    pub(crate) fn new(alloc: Global) -> MessageRoom {
        MessageRoom {
            payload: Vec::new(alloc),
            framed: Vec::new(alloc),
        }
    }
}

/// Sends a message for a side. Without memory nothing is sent.
pub(crate) fn send<M: Message>(
    alloc: Global,
    buffers: &mut MessageRoom,
    link: &mut MemLink,
    side: Side,
    message: &M,
) -> Result<(), AllocError>
    requires message { M.is_message message.now }
    ensures ok { OnOk result (Wrote link.old link.new side (frame (M.spelled message.now))) }
    ensures err { OnErr result (IsSameLink link.old link.new) }
{
    message.encode_into(&mut buffers.payload)?;
    buffers.framed.clear();
    put_frame(&buffers.payload, &mut buffers.framed)?;
    renew(alloc, link);
    link.write(side, &buffers.framed)
}

/// Takes the first message that waits for a side, where one does. Without memory none is taken.
pub(crate) fn take<M: Message>(
    alloc: Global,
    inbox: &mut Inbox,
    link: &mut MemLink,
    side: Side,
) -> Result<Option<M>, AllocError>
    requires lane { IsLane M.is_message M.spelled M.read_at inbox.old (side_of link.old (other side)) }
    ensures lane { IsLane M.is_message M.spelled M.read_at inbox.new (side_of link.new (other side)) }
    ensures link { SideReadOn link.old link.new side }
    ensures taken { IfOk result (λ answer. TakesFirst answer (waiting M.read_at inbox.old (side_of link.old (other side))) (waiting M.read_at inbox.new (side_of link.new (other side)))) }
    ensures message { IfOk result (λ answer. IfSome answer M.is_message) }
    ensures err { OnErr result (waiting M.read_at inbox.new (side_of link.new (other side)) ≡ waiting M.read_at inbox.old (side_of link.old (other side))) }
{
    M::is_read_back();
    inbox.read_link(link, side);
    match inbox.next::<M>(alloc) {
        Incoming::Whole(message) => Ok(Some(message)),
        Incoming::NotYet => Ok(None),
        Incoming::Memory => Err(AllocError),
        Incoming::Malformed(_) => unreachable!(),
        Incoming::TooLong(_) => unreachable!(),
    }
}
