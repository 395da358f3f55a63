//! The rounds of a session's loop.
ghost use Rattle.std.specs.Prelude.{◌≡◌, ◌≢◌, false, Some, IfOk, OnErr, []};
ghost use Rattle.sv_journal.specs.Sessions.{is_end};
ghost use Rattle.sv_session.specs.Serving.{MayServe, SessionCause};
ghost use Rattle.sv_session.specs.Rounds.{StepsOn, Steps, Halts, stand};
ghost use Rattle.sv_session.specs.Answers.{IsRound, RoundCause};

use crate::outcome::SessionOut;
use crate::posting::post;
use crate::reading::{Boxes, read_on};
use crate::taking::{Taken, take_request};
use std::alloc::{AllocError, Global};
use std::sync::Wait;
use sv_journal::{full_replies_stay, legal_relays_name_accepted, legal_replies_are_messages};
use sv_link::{End, Gate};
use sv_lock::{Pass, SeqLock};
use sv_sequencer::Sequencer;
use sv_wire::{Reply, Request};

/// What all rounds of a session share.
#[derive(Drop)]
pub(crate) struct SessionLoop<'a, R, G> {
    pub(crate) rt: &'a R,
    pub(crate) alloc: Global,
    pub(crate) lock: &'a SeqLock<Sequencer>,
    pub(crate) gate: &'a G,
}

impl<R: Wait, G: Gate> SessionLoop<'_, R, G> {
    /// Passes the gate, and has the sequencer answer a request of this number in its session.
    fn step(
        &self,
        pass: &mut Pass<Sequencer>,
        number: u32,
        request: Request,
    ) -> Result<Reply, AllocError>
        requires may { MayServe self.now.lock.now pass.old }
        requires asked { is_end request ≡ false }
        ensures ok { IfOk result (λ reply. Steps pass.old request reply pass.new) }
        ensures err { OnErr result (StepsOn pass.old [] pass.new) }
    {
        let Some(session) = pass.session() else {
            unreachable!()
        };
        legal_relays_name_accepted();
        legal_replies_are_messages();
        self.gate.pass(session, number);
        self.lock.call(self.rt, pass, request)
    }

    /// One round: the next request is answered, or where none waits the end is read. Where the loop ends, it answers why.
    fn round<E: End>(
        &self,
        pass: &mut Pass<Sequencer>,
        end: &mut E,
        buffers: &mut Boxes,
        number: &mut u32,
    ) -> Option<SessionOut>
        requires may { MayServe self.now.lock.now pass.old }
        requires open { (E.told end.old).closed ≡ false }
        ensures round { IsRound result (stand (E.told end.old) pass.old buffers.old.inbox buffers.old.outbox) (stand (E.told end.new) pass.new buffers.new.inbox buffers.new.outbox) }
        ensures cause { RoundCause (E.faults end.old) (E.faults end.new) result }
        ensures calm { E.calm end.old → (result ≢ Some SessionOut.LinkFault) × E.calm end.new }
    {
        let request = match take_request(self.alloc, &mut buffers.inbox) {
            Taken::Request(request) => request,
            Taken::NotYet => return read_on(buffers, end),
            Taken::Memory => return Some(SessionOut::Memory),
        };
        *number = number.saturating_add(1);
        let Ok(reply) = self.step(pass, *number, request) else {
            return Some(SessionOut::Memory);
        };
        post(&reply, &mut buffers.outbox, end)
    }

    /// All rounds of a session, up to the one that ends it.
    fn serve<E: End>(
        &self,
        pass: &mut Pass<Sequencer>,
        end: &mut E,
        buffers: &mut Boxes,
    ) -> SessionOut
        requires may { MayServe self.now.lock.now pass.old }
        requires open { (E.told end.old).closed ≡ false }
        ensures halts { Halts (stand (E.told end.old) pass.old buffers.old.inbox buffers.old.outbox) result (E.told end.new) pass.new }
        ensures cause { SessionCause (E.faults end.old) (E.faults end.new) result }
        ensures calm { E.calm end.old → (result ≢ SessionOut.LinkFault) × E.calm end.new }
    {
        full_replies_stay();
        let mut number = 0;
        for _ in self.rt.forever() {
            match self.round(pass, end, buffers, &mut number) {
                None => {}
                Some(out) => return out,
            }
        }
        unreachable!()
    }

    /// The loop from the start, with nothing read or written yet.
    pub(crate) fn serve_all<E: End>(&self, pass: &mut Pass<Sequencer>, end: &mut E) -> SessionOut
        requires may { MayServe self.now.lock.now pass.old }
        requires open { (E.told end.old).closed ≡ false }
        ensures halts { Halts (stand (E.told end.old) pass.old [] []) result (E.told end.new) pass.new }
        ensures cause { SessionCause (E.faults end.old) (E.faults end.new) result }
        ensures calm { E.calm end.old → (result ≢ SessionOut.LinkFault) × E.calm end.new }
    {
        match Boxes::new(self.alloc) {
            Ok(mut buffers) => self.serve(pass, end, &mut buffers),
            Err(_) => SessionOut::Memory,
        }
    }
}
