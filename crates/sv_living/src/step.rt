//! A step of what is live. Its core decides by the history of the results that count, but for what the steward polls.
ghost use Rattle.std.specs.Prelude.{◌≡◌, ◌&&◌, List, ◌<◌, [], ◌∷◌, ◌++◌, true, false, None, length, IfOk, IfErr, IsOk, OnOk, OnErr, IsTrue, MatchResult};
ghost use Rattle.sv_world.specs.Limits.{most_open};
ghost use Rattle.sv_wire.specs.declared.message.Request.TheVariants as requests;
ghost use Rattle.sv_wire.specs.declared.message.Reply.TheVariants as replies;
ghost use Rattle.sv_journal.specs.declared.entry.Entry.{Entry};
ghost use Rattle.sv_journal.specs.declared.entry.Logged.TheVariants as logged;
ghost use Rattle.sv_journal.specs.Sessions.{is_end, is_ended};
ghost use Rattle.sv_journal.specs.Living.{is_stewards, heeded};
ghost use Rattle.sv_core.specs.Cores.{core_rules, open_by, SitsAt, Keeps, IsUnseated, Remained};
ghost use Rattle.sv_core.specs.Rows.{has_entry};
ghost use Rattle.sv_living.specs.Deciding.{answers_poll, IsDecided, IsDuePoll};
ghost use Rattle.sv_living.specs.Keeping.{Course, stewardship_of, stewardship_at, KeepsLiving, Moved, StoodStill, CarriedOn, Began, Left};
ghost use Rattle.sv_living.specs.Sessions.{is_open, most_session, may_begin, may_ask};
ghost use Rattle.sv_living.specs.Table.{ends_below};
ghost use Rattle.sv_living.specs.World.{IsStepFault, told};

use crate::due::due_decision;
use crate::fault::StepFault;
use crate::heard::{answers_poll, is_poll, is_silent, is_stewards};
use crate::live::Live;
use crate::stewards::Stewards;
use crate::table::OpenSessions;
use std::alloc::{AllocError, Global};
use sv_core::{Answer, Core, Decision, Seat};
use sv_journal::Logged;
use sv_lists::List;
use sv_wire::{Reply, Request};

/// What is done on a request that is no End. `g` has the history of all entries, and whose reports count.
#[tactic(auto, using(crate::proofs::Deciding::decided_other, crate::proofs::Deciding::decided_steward))]
fn decide(core: &Core, stewards: Stewards, seat: Seat, request: &Request) -> Decision
    ghost g: { Course }
    requires keeps { Keeps core.now (heeded g.w g.h) }
    requires stewards { g.w ≡ stewardship_of stewards }
    requires seat { SitsAt core.now seat }
    requires more { is_end request.now ≡ false }
    ensures { IsDecided g.w (core_rules core.now) g.h seat.session request.now result }
{
    if is_due_poll(core, stewards, seat, request) {
        return due_decision(core, seat);
    }
    let decision = core.decide(seat, request);
    if is_due(core, stewards, seat, request, decision) {
        due_decision(core, seat)
    } else {
        decision
    }
}

/// Whether the steward polls, and is not refused.
fn is_due(
    core: &Core,
    stewards: Stewards,
    seat: Seat,
    request: &Request,
    decision: Decision,
) -> bool
    ghost g: { Course }
    requires keeps { Keeps core.now (heeded g.w g.h) }
    requires stewards { g.w ≡ stewardship_of stewards }
    requires seat { SitsAt core.now seat }
    ensures { result ≡ (answers_poll request.now decision && is_stewards g.w.steward g.h seat.session) }
{
    answers_poll(request, decision) && is_stewards(core, stewards, seat)
}

/// Whether the steward polls, and it is sure at once that it is not refused. Then no abandoned position is looked for.
fn is_due_poll(core: &Core, stewards: Stewards, seat: Seat, request: &Request) -> bool
    ghost g: { Course }
    requires keeps { Keeps core.now (heeded g.w g.h) }
    requires stewards { g.w ≡ stewardship_of stewards }
    requires seat { SitsAt core.now seat }
    ensures { IsTrue result → IsDuePoll g.w (core_rules core.now) g.h seat.session request.now }
{
    is_poll(request) && is_stewards(core, stewards, seat) && core.may_poll(seat)
}

/// A report of no results.
fn silent(alloc: Global) -> Request
    ensures { result ≡ requests.Done [] }
{
    Request::Done {
        results: List::new(alloc),
    }
}

/// Answers a request that is no End. `g` has the history of all entries, and whose reports count. A report that does not count brings no results.
fn answer(
    alloc: Global,
    core: &mut Core,
    stewards: Stewards,
    seat: Seat,
    request: &Request,
) -> Result<Answer, AllocError>
    ghost g: { Course }
    requires keeps { Keeps core.old (heeded g.w g.h) }
    requires stewards { g.w ≡ stewardship_of stewards }
    requires seat { SitsAt core.old seat }
    requires more { is_end request.now ≡ false }
    ensures ok { IfOk result (CarriedOn core.old core.new g.w g.h seat.session request.now) }
    ensures err { OnErr result (Remained core.old core.new (heeded g.w g.h)) }
{
    let decision = decide(core, stewards, seat, request);
    if is_silent(core, stewards, seat, request) {
        let heard = silent(alloc);
        let answer = core.carry_out(seat, &heard, decision);
        // A tree that is let go at the end of its scope makes a long proof; a call that takes it, none.
        drop(heard);
        return answer;
    }
    core.carry_out(seat, request, decision)
}

/// The answer to an End.
fn bye() -> Answer
    ensures logged { result.logged ≡ logged.Bye }
    ensures reply { result.reply ≡ replies.Bye }
{
    Answer {
        logged: Logged::Bye,
        reply: Reply::Bye,
    }
}

/// The End of a session, whose slot is free then. `g` has the history of all entries, and whose reports count. It takes no memory.
#[inline(never)]
fn leave(core: &mut Core, seat: Seat)
    ghost g: { Course }
    requires keeps { Keeps core.old (heeded g.w g.h) }
    requires seat { SitsAt core.old seat }
    requires first { is_ended g.h seat.session ≡ false }
    ensures { Left core.old core.new g.w g.h seat }
{
    core.end(seat);
    core.close(seat);
}

/// Answers the first request of a session that sits at its slot, which is no End, and enters it into the table. `g` has the history of all entries, and whose reports count.
fn answer_first(
    alloc: Global,
    core: &mut Core,
    table: &mut OpenSessions,
    stewards: Stewards,
    seat: Seat,
    request: &Request,
) -> Result<Answer, AllocError>
    ghost g: { Course }
    requires keeps { Keeps core.old (heeded g.w g.h) }
    requires stewards { g.w ≡ stewardship_of stewards }
    requires seat { SitsAt core.old seat }
    requires below { ends_below seat.session table.old ≡ true }
    requires more { is_end request.now ≡ false }
    ensures ok { IfOk result (CarriedOn core.old core.new g.w g.h seat.session request.now) }
    ensures err { OnErr result (Remained core.old core.new (heeded g.w g.h)) }
    ensures entered { OnOk result (table.new ≡ table.old ++ seat ∷ []) }
    ensures table { OnErr result (table.new ≡ table.old) }
{
    table.push(seat)?;
    match answer(alloc, core, stewards, seat, request) {
        Ok(answer) => Ok(answer),
        Err(error) => {
            table.remove(seat.session);
            Err(error)
        }
    }
}

/// Seats the next session, and answers its first request, which is no End. `g` has the history of all entries, and whose reports count.
#[inline(never)]
fn begin(
    alloc: Global,
    core: &mut Core,
    table: &mut OpenSessions,
    stewards: Stewards,
    session: u64,
    request: &Request,
) -> Result<Answer, AllocError>
    ghost g: { Course }
    requires keeps { Keeps core.old (heeded g.w g.h) }
    requires stewards { g.w ≡ stewardship_of stewards }
    requires endless { (core_rules core.old).sessions ≡ None }
    requires first { has_entry g.h session ≡ false }
    requires unseated { IsUnseated core.old session }
    requires room { open_by core.old < most_open }
    requires below { ends_below session table.old ≡ true }
    requires more { is_end request.now ≡ false }
    ensures ok { IfOk result (Began core.old core.new table.old table.new g.w g.h session request.now) }
    ensures err { OnErr result (Remained core.old core.new (heeded g.w g.h)) }
    ensures table { OnErr result (table.new ≡ table.old) }
{
    let seat = core.open(session)?;
    match answer_first(alloc, core, table, stewards, seat, request) {
        Ok(answer) => Ok(answer),
        Err(error) => {
            core.close(seat);
            Err(error)
        }
    }
}

/// The answer, or that memory was wanting.
fn told(answered: Result<Answer, AllocError>) -> Result<Answer, StepFault>
    ensures { result ≡ told answered }
{
    match answered {
        Ok(answer) => Ok(answer),
        Err(_) => Err(StepFault::Memory),
    }
}

impl Live {
    /// Answers a request of a session that is open, or of the next one. `h` is the history of all entries so far.
    ///
    /// Where it is not answered everything is as it was, but for room.
    pub fn step(&mut self, session: u64, request: &Request) -> Result<Answer, StepFault>
        ghost h: { List Entry }
        requires { KeepsLiving self.old h }
        ensures ok { IfOk result (Moved self.old self.new h session request.now) }
        ensures err { IfErr result (λ _. StoodStill self.old self.new h) }
        ensures cause { MatchResult result (λ _. may_ask h session ≡ true) (IsStepFault h session) }
        ensures end { is_end request.now ≡ true → is_open h session ≡ true → IsOk result }
    {
        if let Some(seat) = self.table.seat_of(session) {
            return told(self.step_open(seat, request));
        }
        if session != self.next {
            return Err(StepFault::NotOpen);
        }
        if !self.may_begin() {
            return Err(StepFault::NoRoom);
        }
        told(self.step_first(session, request))
    }

    /// Answers a request of a session that is open.
    fn step_open(&mut self, seat: Seat, request: &Request) -> Result<Answer, AllocError>
        ghost g: { Course }
        requires keeps { KeepsLiving self.old g.h }
        requires stewards { g.w ≡ stewardship_at self.old }
        requires seat { SitsAt self.old.core seat }
        requires open { is_open g.h seat.session ≡ true }
        ensures ok { IfOk result (Moved self.old self.new g.h seat.session request.now) }
        ensures err { OnErr result (StoodStill self.old self.new g.h) }
        ensures end { is_end request.now ≡ true → IsOk result }
    {
        if let Request::End = request {
            leave(&mut self.core, seat);
            self.table.remove(seat.session);
            return Ok(bye());
        }
        answer(self.alloc, &mut self.core, self.stewards, seat, request)
    }

    /// Answers the first request of the next session. Its slot is free again where memory runs out.
    fn step_first(&mut self, session: u64, request: &Request) -> Result<Answer, AllocError>
        ghost g: { Course }
        requires keeps { KeepsLiving self.old g.h }
        requires stewards { g.w ≡ stewardship_at self.old }
        requires next { session ≡ self.old.next }
        requires begin { may_begin g.h ≡ true }
        requires room { length self.old.table < most_open }
        requires last { session < most_session }
        ensures ok { IfOk result (Moved self.old self.new g.h session request.now) }
        ensures err { OnErr result (StoodStill self.old self.new g.h) }
    {
        if let Request::End = request {
            return self.end_first(session);
        }
        match begin(
            self.alloc,
            &mut self.core,
            &mut self.table,
            self.stewards,
            session,
            request,
        ) {
            Ok(answer) => {
                self.next += 1;
                Ok(answer)
            }
            Err(error) => Err(error),
        }
    }

    /// The End of the next session, which makes no other request.
    #[inline(never)]
    fn end_first(&mut self, session: u64) -> Result<Answer, AllocError>
        ghost g: { Course }
        requires keeps { KeepsLiving self.old g.h }
        requires stewards { g.w ≡ stewardship_at self.old }
        requires next { session ≡ self.old.next }
        requires begin { may_begin g.h ≡ true }
        requires room { length self.old.table < most_open }
        requires last { session < most_session }
        ensures ok { IfOk result (Moved self.old self.new g.h session requests.End) }
        ensures err { OnErr result (StoodStill self.old self.new g.h) }
    {
        let seat = self.core.open(session)?;
        leave(&mut self.core, seat);
        self.next += 1;
        Ok(bye())
    }
}
