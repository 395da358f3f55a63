//! Reading on, once every request that came is answered.
ghost use Rattle.std.specs.Prelude.{◌≡◌, ◌≢◌, ◌<◌, [], false, length, Some, IfOk};
ghost use Rattle.sv_frame.specs.Frames.{greatest_frame};
ghost use Rattle.sv_session.specs.Answers.{ReadsOnOrEnds, RoundCause};

use crate::outcome::SessionOut;
use std::alloc::{AllocError, Global};
use sv_exchange::{Inbox, Outbox};
use sv_link::{End, EndRead, Sent};

/// What came and is not taken yet, and what is to be sent.
#[derive(Drop)]
pub(crate) struct Boxes {
    pub(crate) inbox: Inbox,
    pub(crate) outbox: Outbox,
}

/// Sends all that waits, and reads what comes next.
pub(crate) fn read_on<E: End>(buffers: &mut Boxes, end: &mut E) -> Option<SessionOut>
    requires open { (E.told end.old).closed ≡ false }
    requires room { length buffers.old.inbox < greatest_frame }
    ensures reads { ReadsOnOrEnds result (E.told end.old) buffers.old.outbox buffers.old.inbox (E.told end.new) buffers.new.inbox buffers.new.outbox }
    ensures cause { RoundCause (E.faults end.old) (E.faults end.new) result }
    ensures calm { E.calm end.old → (result ≢ Some SessionOut.LinkFault) × E.calm end.new }
{
    match buffers.outbox.flush(end) {
        Sent::Whole => {}
        Sent::Failed => return Some(SessionOut::LinkFault),
        Sent::Memory => return Some(SessionOut::Memory),
    }
    match buffers.inbox.read_from(end) {
        EndRead::Got(_) => None,
        EndRead::Ended => Some(SessionOut::Closed),
        EndRead::Failed => Some(SessionOut::LinkFault),
        EndRead::Memory => Some(SessionOut::Memory),
    }
}

impl Boxes {
    /// Nothing came, and nothing is to be sent.
    pub(crate) fn new(alloc: Global) -> Result<Boxes, AllocError>
        ensures { IfOk result (λ b. (b.inbox ≡ []) × (b.outbox ≡ [])) }
    {
        Ok(Boxes {
            inbox: Inbox::new(alloc)?,
            outbox: Outbox::new(alloc)?,
        })
    }
}
