//! What is decided is done: whatever may run out of memory comes first.
ghost use Rattle.std.specs.Prelude.{◌≡◌, ℕ, List, ◌+◌, true, false, ◌∷◌, Some, IfOk, OnErr};
ghost use Rattle.sv_wire.specs.declared.message.Request.{Request};
ghost use Rattle.sv_journal.specs.declared.entry.Entry.{Entry};
ghost use Rattle.sv_journal.specs.History.{Authored, full_reply};
ghost use Rattle.sv_journal.specs.Sessions.{is_end, is_ended};
ghost use Rattle.sv_journal.specs.Answer.{Rules};
ghost use Rattle.sv_core.specs.Cores.{core_rules, owed_by, open_by, session_at, SitsAt, Keeps, CarriedOut, Remained};
ghost use Rattle.sv_core.specs.Decisions.{reply_by, changes_nothing, DecisionHolds};
ghost use Rattle.sv_journal.specs.History.{end_entry};

use crate::answer::Answer;
use crate::decision::{ActionId, Decision};
use crate::seats::Seat;
use crate::server_core::Core;
use crate::sessions::note;
use std::alloc::AllocError;
use sv_influence::Chain;
use sv_journal::Logged;
use sv_wire::{Reply, Request};

impl Core {
    /// Does what was decided on a request of a session. `h` is a history that the core keeps, by which the decision holds.
    ///
    /// After running out of memory everything is as it was.
    #[inline(always)]
    pub fn carry_out(
        &mut self,
        seat: Seat,
        request: &Request,
        decision: Decision,
    ) -> Result<Answer, AllocError>
        ghost h: { List Entry }
        requires keeps { Keeps self.old h }
        requires seat { SitsAt self.old seat }
        requires more { is_end request.now ≡ false }
        requires holds { DecisionHolds (core_rules self.old) h seat.session request.now decision }
        ensures ok { IfOk result (CarriedOut self.old self.new h seat.session request.now decision) }
        ensures err { OnErr result (Remained self.old self.new h) }
    {
        match decision {
            Decision::Welcome { client, life } => self.welcome(seat, request, client, life),
            Decision::Drop {
                client,
                seq,
                chain,
                far,
            } => self.drop_new(
                seat,
                request,
                ActionId { client, seq },
                Chain { count: chain, far },
            ),
            Decision::Deny {
                client,
                seq,
                object,
            } => self.deny_new(seat, request, ActionId { client, seq }, object),
            Decision::Relay { seq, pos } => self.relay(seat, request, seq, pos),
            Decision::Accept { client, seq } => {
                self.accept_new(seat, request, ActionId { client, seq })
            }
            Decision::See => self.see(seat, request),
            Decision::Note => self.note_results(seat, request),
            _ => Ok(self.answer_plainly(seat, request, decision)),
        }
    }

    /// The End of a session. It takes no memory.
    pub fn end(&mut self, seat: Seat)
        ghost h: { List Entry }
        requires keeps { Keeps self.old h }
        requires seat { SitsAt self.old seat }
        requires first { is_ended h seat.session ≡ false }
        ensures rules { core_rules self.new ≡ core_rules self.old }
        ensures seats { (i : ℕ) → session_at self.new i ≡ session_at self.old i }
        ensures count { open_by self.new ≡ open_by self.old }
        ensures owed { owed_by self.new + 1 ≡ owed_by self.old }
        ensures keeps { Keeps self.new (end_entry seat.session ∷ h) }
    {
        note(&mut self.sessions, seat.slot, &Request::End, &Logged::Bye);
        self.owed -= 1;
    }

    /// Answers what changes nothing but its own session.
    #[inline(never)]
    fn answer_plainly(&mut self, seat: Seat, request: &Request, decision: Decision) -> Answer
        ghost h: { List Entry }
        requires keeps { Keeps self.old h }
        requires seat { SitsAt self.old seat }
        requires more { is_end request.now ≡ false }
        requires holds { DecisionHolds (core_rules self.old) h seat.session request.now decision }
        requires plain { changes_nothing decision ≡ true }
        ensures { CarriedOut self.old self.new h seat.session request.now decision result }
    {
        let answer = plain_answer(decision);
        note(&mut self.sessions, seat.slot, request, &answer.logged);
        answer
    }
}

/// The answer that a decision stands for by itself.
fn plain_answer(decision: Decision) -> Answer
    requires { changes_nothing decision ≡ true }
    ensures logged { (r : Rules) (h : List Entry) (s : ℕ) (request : Request) → result.logged ≡ reply_by r h s request decision }
    ensures reply { (A : List Authored) → result.reply ≡ full_reply A result.logged }
{
    match decision {
        Decision::Refuse { refusal, detail } => {
            let code = refusal.code();
            Answer {
                logged: Logged::Refused { code, detail },
                reply: Reply::Refused { code, detail },
            }
        }
        Decision::Repeat { seq, chain, far } => Answer {
            logged: Logged::Dropped { seq, chain, far },
            reply: Reply::Dropped { seq, chain, far },
        },
        Decision::RepeatDenied { seq, object } => Answer {
            logged: Logged::Denied { seq, object },
            reply: Reply::Denied { seq, object },
        },
        Decision::Settle { seq, pos } => Answer {
            logged: Logged::Settled { seq, pos },
            reply: Reply::Settled { seq, pos },
        },
        Decision::Idle => Answer {
            logged: Logged::Idle,
            reply: Reply::Idle,
        },
        Decision::Leave => Answer {
            logged: Logged::Bye,
            reply: Reply::Bye,
        },
        _ => unreachable!(),
    }
}
