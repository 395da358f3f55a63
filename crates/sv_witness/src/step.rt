//! A step of a witnessing server. Its core decides by the history of what was agreed, but for what is noted and what is polled.
ghost use Rattle.std.specs.Prelude.{◌≡◌, ℕ, ◌≤◌, ◌<◌, ◌+◌, List, length, true, false, Some, All, IfOk, IsOk, OnErr, vec_len, vec_capacity};
ghost use Rattle.std.specs.List.{AllByRecursion};
ghost use Rattle.sv_wire.specs.declared.message.Done1.{Done1};
ghost use Rattle.sv_wire.specs.declared.message.Request.TheVariants as requests;
ghost use Rattle.sv_queue.specs.Queue.{last_position};
ghost use Rattle.sv_journal.specs.declared.entry.Entry.{Entry};
ghost use Rattle.sv_journal.specs.History.{client_of, is_noted};
ghost use Rattle.sv_journal.specs.Sessions.{is_end, is_ended};
ghost use Rattle.sv_journal.specs.Answer.{MayBeSession, is_bad_done};
ghost use Rattle.sv_journal.specs.Serving.{is_poll, noted_after, polled_after};
ghost use Rattle.sv_core.specs.Cores.{core_rules, session_at, queue_of, Keeps};
ghost use Rattle.sv_core.specs.Decisions.{DecisionHolds, reply_by, results_in};
ghost use Rattle.sv_sequencer.specs.Entering.{EnteredReply, NothingEntered};
ghost use Rattle.sv_journal.specs.History.{end_entry};
ghost use Rattle.sv_sequencer.specs.Step.{history, GrewByEntry, Stayed};
ghost use Rattle.sv_witness.specs.Reports.{agreed_history};
ghost use Rattle.sv_witness.specs.Kept.{kept_at, HasRoomFor, counted_results, agreed_results, new_disputes};
ghost use Rattle.sv_witness.specs.Due.{due_in};
ghost use Rattle.sv_witness.specs.Standing.{emptied, answers_poll, first_relay, Standing, Replied};
ghost use Rattle.sv_witness.specs.Step.{Witnesses};
ghost use Rattle.sv_witness.specs.Witnessed.{agreed, IsWitnessed, witnessed_reply};

use crate::disputes::enter_all;
use crate::due::first_due;
use crate::noting::{Noting, noting_of};
use crate::reports::{Reports, add_all, reserve_all};
use crate::testimony::{Asker, Testimony};
use crate::witness::Witness;
use std::alloc::{AllocError, Global};
use sv_core::{Core, Decided, Decision, Seat, reported_by};
use sv_journal::Journal;
use sv_lists::List;
use sv_queue::Queue;
use sv_sequencer::{enter_asked, enter_end, enter_reply};
use sv_wire::{Done1, Reply, Request};

fn is_poll(request: &Request) -> bool
    ensures { result ≡ is_poll request.now }
{
    match request {
        Request::Poll => true,
        _ => false,
    }
}

/// Whether the core decided how a Poll is answered that is not refused.
fn answers_poll(request: &Request, decision: Decision) -> bool
    ensures { result ≡ answers_poll request.now decision }
{
    match decision {
        Decision::Idle => true,
        Decision::Relay { .. } => is_poll(request),
        _ => false,
    }
}

/// What is done on a Poll that is not refused: the lowest position that is due is sent.
fn due_decision(core: &Core, reports: &Reports, asker: Asker) -> Decision
    ensures { result ≡ first_relay (due_in (queue_of core.now) reports.now asker.client asker.session) }
{
    match first_due(core.queue(), reports, asker) {
        Some(pos) => Decision::Relay { seq: 0, pos },
        None => Decision::Idle,
    }
}

/// What results of a session's client are, with room for all that they change. What is kept stays.
fn note_ahead(
    alloc: Global,
    queue: &Queue,
    testimony: &mut Testimony,
    asker: Asker,
    results: &[Done1],
) -> Result<Noting, AllocError>
    requires { All (λ (d : Done1). d.pos ≤ last_position queue.now) results.now }
    ensures reports { (p : ℕ) → kept_at testimony.new.reports p ≡ kept_at testimony.old.reports p }
    ensures rows { IfOk result (λ noting. AllByRecursion (λ (d : Done1). HasRoomFor testimony.new.reports d.pos) noting.counted.items) }
    ensures disputes { testimony.new.disputes.items ≡ testimony.old.disputes.items }
    ensures places { IfOk result (λ noting. vec_len testimony.new.disputes + length noting.disputes.items ≤ vec_capacity testimony.new.disputes) }
    ensures asker { IfOk result (λ noting. noting.asker ≡ asker) }
    ensures counted { IfOk result (λ noting. noting.counted.items ≡ counted_results queue.now.commit testimony.old.reports asker.client results.now) }
    ensures agreed { IfOk result (λ noting. noting.agreed.items ≡ agreed_results queue.now testimony.old.reports (counted_results queue.now.commit testimony.old.reports asker.client results.now)) }
    ensures made { IfOk result (λ noting. noting.disputes.items ≡ new_disputes testimony.old.reports asker.client (counted_results queue.now.commit testimony.old.reports asker.client results.now)) }
{
    let noting = noting_of(alloc, queue, &testimony.reports, asker, results)?;
    reserve_all(&mut testimony.reports, noting.counted.as_slice())?;
    testimony.disputes.reserve(noting.disputes.len())?;
    Ok(noting)
}

/// Does what was decided on a request that is not noted, and enters it. In the history of what was agreed, `h`, a Done that is not noted has no
/// results.
fn enter_emptied(
    alloc: Global,
    core: &mut Core,
    journal: &mut Journal,
    decided: Decided,
    request: Request,
) -> Result<Reply, AllocError>
    ghost h: { List Entry }
    requires keeps { Keeps core.old h }
    requires seat { session_at core.old decided.session ≡ Some decided.session }
    requires more { is_end request ≡ false }
    requires holds { DecisionHolds (core_rules core.old) h decided.session (emptied request) decided.decision }
    ensures ok { IfOk result (EnteredReply core.old core.new journal.old journal.new h decided.session request (emptied request) decided.decision) }
    ensures err { OnErr result (NothingEntered core.old core.new journal.old journal.new h) }
{
    if let Request::Done { .. } = request {
        let done = Request::Done {
            results: List::new(alloc),
        };
        let entered = enter_asked(core, journal, decided, request, &done);
        // A tree that is let go at the end of its scope makes a long proof; a call that takes it, none.
        drop(done);
        return entered;
    }
    enter_reply(core, journal, decided, request)
}

/// Notes a Done that is not bad, when all is known of its results and there is room for what they change, and enters it: those that bring
/// agreement are installed, and all count as the client's reports. `h` is the journal's history.
fn install(
    core: &mut Core,
    journal: &mut Journal,
    testimony: &mut Testimony,
    request: Request,
    noting: Noting,
) -> Result<Reply, AllocError>
    ghost h: { List Entry }
    requires standing { Standing core.old testimony.old.reports testimony.old.disputes.items h }
    requires seat { session_at core.old noting.asker.session ≡ Some noting.asker.session }
    requires joined { client_of h noting.asker.session ≡ Some noting.asker.client }
    requires done { request ≡ requests.Done (results_in request) }
    requires good { is_bad_done (core_rules core.old) (agreed_history h) noting.asker.session (results_in request) ≡ false }
    requires reply { witnessed_reply (core_rules core.old) h noting.asker.session request ≡ noted_after agreed h noting.asker.session request }
    requires counted { noting.counted.items ≡ counted_results (queue_of core.old).commit testimony.old.reports noting.asker.client (results_in request) }
    requires brought { noting.agreed.items ≡ agreed_results (queue_of core.old) testimony.old.reports noting.counted.items }
    requires made { noting.disputes.items ≡ new_disputes testimony.old.reports noting.asker.client noting.counted.items }
    requires rows { AllByRecursion (λ (d : Done1). HasRoomFor testimony.old.reports d.pos) noting.counted.items }
    requires places { vec_len testimony.old.disputes + length noting.disputes.items ≤ vec_capacity testimony.old.disputes }
    ensures ok { IfOk result (Replied core.old core.new journal.old journal.new testimony.new.reports testimony.new.disputes.items h noting.asker.session request) }
    ensures err { OnErr result (NothingEntered core.old core.new journal.old journal.new (agreed_history h)) }
    ensures testimony { OnErr result (testimony.new ≡ testimony.old) }
{
    let Noting {
        asker,
        counted,
        agreed,
        disputes: made,
    } = noting;
    let done = Request::Done {
        results: List::from_vec(agreed),
    };
    let before = core.commit();
    let noted = Decided {
        session: asker.session,
        decision: Decision::Note,
    };
    let entered = enter_asked(core, journal, noted, request, &done);
    drop(done);
    match entered {
        Ok(reply) => {
            add_all(&mut testimony.reports, asker.client, counted);
            enter_all(&mut testimony.disputes, made);
            testimony.reports.forget(before, core.commit());
            Ok(reply)
        }
        Err(error) => {
            drop(counted);
            drop(made);
            Err(error)
        }
    }
}

impl Witness {
    /// Answers a request of a session, whose End comes at most once, and enters both into the journal.
    ///
    /// A Done is noted, and each of its results counts as its client's report where it is the client's first of that position. A result that
    /// two clients report equally is installed, in the order of positions; that of an action that writes nothing by its first report. A Poll
    /// is sent the lowest position without a result that was not sent to the session and that its client did not report.
    ///
    /// The journal keeps the request itself. After running out of memory everything is as it was, but for room, and the request is let go. An End
    /// takes no memory.
    pub fn step(&mut self, session: u16, request: Request) -> Result<Reply, AllocError>
        requires session { MayBeSession self.old.rules.sessions session }
        requires first { is_end request ≡ true → is_ended (history self.old) session ≡ false }
        ensures ok { IfOk result (Witnesses self.old self.new session request) }
        ensures err { OnErr result (Stayed self.old self.new) }
        ensures legal { IsWitnessed self.new.rules (history self.new) }
        ensures end { is_end request ≡ true → IsOk result }
    {
        if let Request::End = request {
            drop(request);
            self.end(session);
            self.is_witnessed();
            return Ok(Reply::Bye);
        }
        let answer = self.answer(session, request);
        self.is_witnessed();
        answer
    }

    /// A law: the journal is legal at any time.
    fn is_witnessed(&self)
        ensures { IsWitnessed self.now.rules (history self.now) }
    {
        let _ = &self.core;
    }

    /// The End of a session: the journal has room for its entry. `h` is the journal's history.
    fn end(&mut self, session: u16)
        ghost h: { List Entry }
        requires past { h ≡ history self.old }
        requires session { MayBeSession self.old.rules.sessions session }
        requires first { is_ended h session ≡ false }
        ensures { GrewByEntry self.old self.new (end_entry session) }
    {
        enter_end(&mut self.core, &mut self.journal, session);
    }

    /// Answers a request that is no End. `h` is the journal's history.
    fn answer(&mut self, session: u16, request: Request) -> Result<Reply, AllocError>
        ghost h: { List Entry }
        requires past { h ≡ history self.old }
        requires session { MayBeSession self.old.rules.sessions session }
        requires more { is_end request ≡ false }
        ensures ok { IfOk result (Witnesses self.old self.new session request) }
        ensures err { OnErr result (Stayed self.old self.new) }
    {
        let seat = Seat::own(session);
        let decision = self.core.decide(seat, &request);
        if let Decision::Note = decision {
            return self.note_results(session, request);
        }
        if answers_poll(&request, decision) {
            return self.poll(session, request);
        }
        self.keep(session, request, decision)
    }

    /// Does what was decided, which notes nothing, and enters it. `h` is the journal's history.
    fn keep(
        &mut self,
        session: u16,
        request: Request,
        decision: Decision,
    ) -> Result<Reply, AllocError>
        ghost h: { List Entry }
        requires past { h ≡ history self.old }
        requires session { MayBeSession self.old.rules.sessions session }
        requires more { is_end request ≡ false }
        requires holds { DecisionHolds self.old.rules (agreed_history h) session (emptied request) decision }
        requires reply { reply_by self.old.rules (agreed_history h) session (emptied request) decision ≡ witnessed_reply self.old.rules h session request }
        requires quiet { is_noted (witnessed_reply self.old.rules h session request) ≡ false }
        ensures ok { IfOk result (Witnesses self.old self.new session request) }
        ensures err { OnErr result (Stayed self.old self.new) }
    {
        enter_emptied(
            self.alloc,
            &mut self.core,
            &mut self.journal,
            Decided { session, decision },
            request,
        )
    }

    /// Answers a Poll that is not refused: with the lowest position that is due. `h` is the journal's history.
    fn poll(&mut self, session: u16, request: Request) -> Result<Reply, AllocError>
        ghost h: { List Entry }
        requires past { h ≡ history self.old }
        requires session { MayBeSession self.old.rules.sessions session }
        requires poll { request ≡ requests.Poll }
        requires reply { witnessed_reply self.old.rules h session request ≡ polled_after agreed self.old.rules h session }
        ensures ok { IfOk result (Witnesses self.old self.new session request) }
        ensures err { OnErr result (Stayed self.old self.new) }
    {
        let seat = Seat::own(session);
        let Some(client) = self.core.client(seat) else {
            unreachable!();
        };
        let asker = Asker { client, session };
        let decision = due_decision(&self.core, &self.testimony.reports, asker);
        self.keep(session, request, decision)
    }

    /// Notes a Done that is not bad: its results count as the client's reports, and those that bring agreement are installed. `h` is the
    /// journal's history. All memory is taken first.
    fn note_results(&mut self, session: u16, request: Request) -> Result<Reply, AllocError>
        ghost h: { List Entry }
        requires past { h ≡ history self.old }
        requires session { MayBeSession self.old.rules.sessions session }
        requires done { request ≡ requests.Done (results_in request) }
        requires good { is_bad_done self.old.rules (agreed_history h) session (results_in request) ≡ false }
        requires reply { witnessed_reply self.old.rules h session request ≡ noted_after agreed h session request }
        ensures ok { IfOk result (Witnesses self.old self.new session request) }
        ensures err { OnErr result (Stayed self.old self.new) }
    {
        let seat = Seat::own(session);
        let Some(client) = self.core.client(seat) else {
            unreachable!();
        };
        let asker = Asker { client, session };
        let Ok(noting) = note_ahead(
            self.alloc,
            self.core.queue(),
            &mut self.testimony,
            asker,
            reported_by(&request),
        ) else {
            drop(request);
            return Err(AllocError);
        };
        install(
            &mut self.core,
            &mut self.journal,
            &mut self.testimony,
            request,
            noting,
        )
    }
}
