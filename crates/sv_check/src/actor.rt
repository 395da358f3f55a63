//! A client that does what the lines of its part tell.
ghost use Rattle.std.specs.Prelude.{◌≡◌, ℕ, ◌+◌, ◌<◌, ◌^◌, true, false, List, [], ◌∷◌, ◌++◌, length, reverse, codes, string_bytes, None, IfOk, IfSome, OnOk, MatchOption};
ghost use Rattle.std.specs.Fmt.{decimal};
ghost use Rattle.sv_world.specs.Limits.{most_sessions};
ghost use Rattle.sv_client.specs.declared.trace.Event.TheVariants as events;
ghost use Rattle.sv_client.specs.Traces.{joins};
ghost use Rattle.sv_client.specs.Taking.{first_fault_of_reply};
ghost use Rattle.sv_client.specs.Proper.{Proper};
ghost use Rattle.sv_client.specs.Seen.{trace_from};
ghost use Rattle.sv_report.specs.Again.{MayDo};
ghost use Rattle.sv_report.specs.Report.{event_text};
ghost use Rattle.sv_script.specs.Following.{must_join, is_welcomed, is_finished};
ghost use Rattle.sv_check.specs.Serving.{HasReplies, entries_of};
ghost use Rattle.sv_check.specs.Acting.{IsActing, WentOn, IsNextEvent, IsNextPlace, NoNextPlace, NoneComes, LookedAt, Joined, GotReply, DidEvent, journal_events, begins_got, is_other};
ghost use Rattle.sv_check.specs.Parts.{AreSomeEntries};
ghost use Rattle.sv_check.specs.Next.{IsLineOf, NoEvent};
ghost use Rattle.sv_check.specs.Stopping.{IfWrong};

use crate::journal::Served;
use crate::moves::next_event;
use crate::settled::is_settled;
use std::alloc::{AllocError, Global};
use sv_client::{Client, Event, MakeFault, ObserveFault, PollFault, TakeFault, Trace, TraceMark};
use sv_journal::{Entry, is_end};
use sv_lines::{LineStop, take_line};
use sv_report::{append_after, append_before};
use sv_scenario::Step;
use sv_script::is_bye;
use sv_wire::{Reply, Request, copy_reply};
use sv_world::{Action, MOST_SESSIONS, ObjectId, Shape, copy_action, copy_objects};

/// A client that does its script.
#[derive(Drop)]
pub(crate) struct Actor<'a> {
    pub client: Client,
    pub shape: Shape,
    pub script: &'a [Step],
    /// The steps that are left.
    pub left: &'a [Step],
    /// The number of its first session.
    pub first: u16,
    /// The session that it began last.
    pub session: Option<u16>,
    /// The place behind the entry of the latest reply of that session.
    pub place: usize,
    /// It is in no session, and joins one next.
    pub between: bool,
    /// Its session has its Welcome.
    pub welcomed: bool,
    /// It quit, or took the Bye.
    pub finished: bool,
    /// The requests of its latest session.
    pub asked: Vec<Request>,
    /// The journal has the first requests of each of its earlier sessions.
    pub fits: bool,
}

/// The place of the next entry of a session, from a place on, where that is no End.
#[tactic(auto, using(crate::proofs::Placing::sought_first, crate::proofs::Placing::sought_on, crate::proofs::Placing::sought_place, crate::proofs::Placing::sought_end, crate::proofs::Placing::sought_all))]
fn next_place(entries: &[Entry], session: u16, from: usize) -> Option<usize>
    ensures place { MatchOption result (NoNextPlace entries.now from session) (λ place. IsNextPlace entries.now from session place) }
    ensures within { IfSome result (λ place. place < length entries.now) }
    ensures small { IfSome result (λ place. place + 1 < 2 ^ 64) }
{
    for place in from..entries.len() {
        let entry = &entries[place];
        if entry.session == session {
            return if is_end(&entry.request) {
                None
            } else {
                Some(place)
            };
        }
    }
    None
}

/// Whether a text begins as the line of a reply that is got does.
fn begins_got(text: &[u8]) -> bool
    ensures { result ≡ begins_got text.now }
{
    matches!(text, [b'g', ..])
}

/// What comes after a line, where it comes next.
fn behind_line<'b>(text: &'b [u8], line: &[u8]) -> Option<&'b [u8]>
    ensures { MatchOption result ((rest : List ℕ) → text.now ≡ line.now ++ rest → ⊥) (λ rest. text.now ≡ line.now ++ rest.now) }
{
    match take_line(text, line) {
        Ok(rest) => Some(rest),
        Err(_) => None,
    }
}

fn join_line(alloc: Global, session: u16) -> Result<String, AllocError>
    ensures { IfOk result (λ line. string_bytes line ≡ (codes "join s" ++ decimal session) ++ 10 ∷ []) }
{
    format!(in alloc; "join s{session}\n")
}

fn append_got(session: u16, number: usize, out: &mut String) -> Result<(), AllocError>
    ensures { OnOk result (string_bytes out.new ≡ string_bytes out.old ++ (codes "got s" ++ decimal session ++ codes " #" ++ decimal number)) }
{
    write!(out, "got s{session} #{number}")
}

fn got_line(alloc: Global, session: u16, number: usize) -> Result<String, AllocError>
    ensures { IfOk result (λ line. string_bytes line ≡ codes "got s" ++ decimal session ++ codes " #" ++ decimal number ++ 10 ∷ []) }
{
    let mut line = String::new(alloc);
    append_got(session, number, &mut line)?;
    line.push_str("\n")?;
    Ok(line)
}

impl<'a> Actor<'a> {
    /// Looks whether the journal has the first requests of its latest session.
    pub(crate) fn settle(&mut self, entries: &[Entry])
        ensures { LookedAt entries.now self.old self.new }
    {
        if let Some(session) = self.session {
            self.fits = self.fits && is_settled(entries, session, self.asked.as_slice());
        }
    }

    fn join(&mut self) -> Result<(), AllocError>
        requires few { joins self.old.client.events < most_sessions }
        requires first { self.old.first < most_sessions }
        ensures { OnOk result (Joined self.old self.new) }
    {
        let session = self.first + self.client.sessions();
        self.asked = self.client.join()?;
        self.session = Some(session);
        self.place = 0;
        self.between = false;
        self.welcomed = false;
        self.finished = false;
        Ok(())
    }

    /// Takes the line of its next Join.
    fn take_join<'b>(
        &mut self,
        alloc: Global,
        served: &Served,
        text: &'b [u8],
    ) -> Result<&'b [u8], LineStop>
        requires acting { IsActing (entries_of served.now) self.old }
        requires needed { must_join self.old.client.events ≡ true }
        ensures on { OnOk result (WentOn (entries_of served.now) self.old self.new) }
        ensures told { IfOk result (λ rest. IsLineOf (entries_of served.now) (journal_events self.old) (journal_events self.new) text.now rest.now) }
        ensures wrong { IfWrong result (NoneComes (entries_of served.now) self.old text.now) }
    {
        let count = self.client.sessions();
        if count >= MOST_SESSIONS {
            return Err(LineStop::Wrong { left: text.len() });
        }
        let session = self.first + count;
        let line = join_line(alloc, session)?;
        let Some(rest) = behind_line(text, line.as_bytes()) else {
            return Err(LineStop::Wrong { left: text.len() });
        };
        self.settle(served.sequencer.journal().entries());
        self.join()?;
        Ok(rest)
    }

    /// Gets a reply. Whether the client takes it.
    fn get(&mut self, alloc: Global, reply: &Reply, place: usize) -> Result<bool, AllocError>
        requires { place + 1 < 2 ^ 64 }
        ensures took { IfOk result (λ took. took ≡ true → GotReply reply.now place self.old self.new) }
        ensures refused { IfOk result (λ took. took ≡ false → first_fault_of_reply self.old.client.who self.old.client.events reply.now ≡ None → ⊥) }
    {
        let copy = copy_reply(alloc, reply)?;
        match self.client.take(copy) {
            Ok(None) => {}
            Ok(Some(done)) => self.asked.push(done)?,
            Err(TakeFault::Memory) => return Err(AllocError),
            Err(_) => return Ok(false),
        }
        self.welcomed = true;
        self.finished = is_bye(reply);
        self.place = place + 1;
        Ok(true)
    }

    /// Takes the line of the next reply that it gets.
    fn take_got<'b>(
        &mut self,
        alloc: Global,
        served: &Served,
        text: &'b [u8],
    ) -> Result<&'b [u8], LineStop>
        requires acting { IsActing (entries_of served.now) self.old }
        requires replies { HasReplies served.now }
        requires right { AreSomeEntries (reverse (entries_of served.now)) }
        requires joined { must_join self.old.client.events ≡ false }
        requires here { is_finished self.old.client.events ≡ false }
        requires begins { begins_got text.now ≡ true }
        ensures on { OnOk result (WentOn (entries_of served.now) self.old self.new) }
        ensures told { IfOk result (λ rest. IsLineOf (entries_of served.now) (journal_events self.old) (journal_events self.new) text.now rest.now) }
        ensures wrong { IfWrong result (NoneComes (entries_of served.now) self.old text.now) }
    {
        let entries = served.sequencer.journal().entries();
        let Some(session) = self.session else {
            return Err(LineStop::Wrong { left: text.len() });
        };
        let Some(place) = next_place(entries, session, self.place) else {
            return Err(LineStop::Wrong { left: text.len() });
        };
        let line = got_line(alloc, session, place + 1)?;
        let Some(rest) = behind_line(text, line.as_bytes()) else {
            return Err(LineStop::Wrong { left: text.len() });
        };
        if self.get(alloc, &served.replies[place], place)? {
            Ok(rest)
        } else {
            Err(LineStop::Wrong { left: text.len() })
        }
    }

    fn make(&mut self, alloc: Global, action: &Action) -> Result<(), AllocError>
        requires { MayDo self.old.client.who self.old.client.events (events.Make action.now) }
        ensures { OnOk result (DidEvent (events.Make action.now) self.old self.new) }
    {
        let copy = copy_action(alloc, action)?;
        match self.client.make(copy) {
            Ok(request) => {
                self.asked.push(request)?;
                Ok(())
            }
            Err(MakeFault::Memory) => Err(AllocError),
            Err(_) => unreachable!(),
        }
    }

    fn poll(&mut self) -> Result<(), AllocError>
        requires { MayDo self.old.client.who self.old.client.events events.Poll }
        ensures { OnOk result (DidEvent events.Poll self.old self.new) }
    {
        match self.client.poll() {
            Ok(request) => {
                self.asked.push(request)?;
                Ok(())
            }
            Err(PollFault::Memory) => Err(AllocError),
            Err(PollFault::Busy) => unreachable!(),
        }
    }

    fn observe(&mut self, alloc: Global, objects: &[ObjectId], wait: u16) -> Result<(), AllocError>
        requires { MayDo self.old.client.who self.old.client.events (events.Observe objects.now wait) }
        ensures { OnOk result (DidEvent (events.Observe objects.now wait) self.old self.new) }
    {
        let copy = copy_objects(alloc, objects)?;
        match self.client.observe(copy, wait) {
            Ok(request) => {
                self.asked.push(request)?;
                Ok(())
            }
            Err(ObserveFault::Memory) => Err(AllocError),
            Err(_) => unreachable!(),
        }
    }

    fn leave(&mut self) -> Result<(), AllocError>
        requires { MayDo self.old.client.who self.old.client.events events.Leave }
        ensures { OnOk result (DidEvent events.Leave self.old self.new) }
    {
        let request = self.client.leave()?;
        self.asked.push(request)?;
        Ok(())
    }

    fn show(&mut self, alloc: Global, objects: &[ObjectId]) -> Result<(), AllocError>
        ensures { OnOk result (DidEvent (events.Show objects.now) self.old self.new) }
    {
        let copy = copy_objects(alloc, objects)?;
        self.client.note(TraceMark::Show(copy))
    }

    fn cut(&mut self) -> Result<(), AllocError>
        ensures { OnOk result (DidEvent events.Cut self.old self.new) }
    {
        self.client.note(TraceMark::Cut)?;
        self.between = true;
        Ok(())
    }

    fn quit(&mut self) -> Result<(), AllocError>
        ensures { OnOk result (DidEvent events.Quit self.old self.new) }
    {
        self.client.note(TraceMark::Quit)?;
        self.finished = true;
        Ok(())
    }

    /// Does an event that it may do, which is no Join and no Got.
    fn act(&mut self, alloc: Global, event: &Event) -> Result<(), AllocError>
        requires may { MayDo self.old.client.who self.old.client.events event.now }
        requires other { is_other event.now ≡ true }
        ensures { OnOk result (DidEvent event.now self.old self.new) }
    {
        match event {
            Event::Make(action) => self.make(alloc, action),
            Event::Poll => self.poll(),
            Event::Observe(objects, wait) => self.observe(alloc, objects.as_slice(), *wait),
            Event::Leave => self.leave(),
            Event::Show(objects) => self.show(alloc, objects.as_slice()),
            Event::Cut => self.cut(),
            Event::Quit => self.quit(),
            Event::Join(_) | Event::Got(_, _) => unreachable!(),
        }
    }

    /// Does its next step, or its Leave, with the steps that it leaves.
    fn do_next(
        &mut self,
        alloc: Global,
        served: &Served,
        event: &Event,
        left: &'a [Step],
    ) -> Result<(), AllocError>
        requires acting { IsActing (entries_of served.now) self.old }
        requires joined { must_join self.old.client.events ≡ false }
        requires here { is_finished self.old.client.events ≡ false }
        requires next { IsNextEvent self.old.client.who self.old.client.events self.old.left.now event.now left.now }
        ensures on { OnOk result (WentOn (entries_of served.now) self.old self.new) }
        ensures done { OnOk result (self.new.client.events ≡ event.now ∷ self.old.client.events) }
    {
        let _ = served;
        self.act(alloc, event)?;
        self.left = left;
        Ok(())
    }

    /// Does its next step, or its Leave, and tells its line.
    fn tell_next(
        &mut self,
        alloc: Global,
        served: &Served,
        event: &Event,
        left: &'a [Step],
    ) -> Result<String, AllocError>
        requires acting { IsActing (entries_of served.now) self.old }
        requires joined { must_join self.old.client.events ≡ false }
        requires here { is_finished self.old.client.events ≡ false }
        requires next { IsNextEvent self.old.client.who self.old.client.events self.old.left.now event.now left.now }
        ensures on { OnOk result (WentOn (entries_of served.now) self.old self.new) }
        ensures done { OnOk result (journal_events self.new ≡ event.now ∷ journal_events self.old) }
        ensures line { IfOk result (λ line. string_bytes line ≡ event_text (entries_of served.now) (journal_events self.old) event.now ++ 10 ∷ []) }
    {
        let mut line = String::new(alloc);
        append_before(&self.client, 0, event, &mut line)?;
        self.do_next(alloc, served, event, left)?;
        append_after(alloc, &self.client, event, &mut line)?;
        line.push_str("\n")?;
        Ok(line)
    }

    /// Takes the line of its next step, or of its Leave. Where the line is wrong, it is done all the same.
    fn take_step<'b>(
        &mut self,
        alloc: Global,
        served: &Served,
        text: &'b [u8],
    ) -> Result<&'b [u8], LineStop>
        requires acting { IsActing (entries_of served.now) self.old }
        requires joined { must_join self.old.client.events ≡ false }
        requires welcomed { is_welcomed self.old.client.events ≡ true }
        requires here { is_finished self.old.client.events ≡ false }
        requires begins { begins_got text.now ≡ false }
        ensures on { OnOk result (WentOn (entries_of served.now) self.old self.new) }
        ensures told { IfOk result (λ rest. IsLineOf (entries_of served.now) (journal_events self.old) (journal_events self.new) text.now rest.now) }
        ensures wrong { IfWrong result (NoneComes (entries_of served.now) self.old text.now) }
    {
        let Some((event, left)) = next_event(alloc, self.shape, &self.client, self.left)? else {
            return Err(LineStop::Wrong { left: text.len() });
        };
        let line = self.tell_next(alloc, served, &event, left)?;
        match behind_line(text, line.as_bytes()) {
            Some(rest) => Ok(rest),
            None => Err(LineStop::Wrong { left: text.len() }),
        }
    }

    /// Takes the line of its next event.
    pub(crate) fn take_event<'b>(
        &mut self,
        alloc: Global,
        served: &Served,
        text: &'b [u8],
    ) -> Result<&'b [u8], LineStop>
        requires acting { IsActing (entries_of served.now) self.old }
        requires replies { HasReplies served.now }
        requires right { AreSomeEntries (reverse (entries_of served.now)) }
        requires here { self.old.finished ≡ false }
        ensures on { OnOk result (WentOn (entries_of served.now) self.old self.new) }
        ensures told { IfOk result (λ rest. IsLineOf (entries_of served.now) (journal_events self.old) (journal_events self.new) text.now rest.now) }
        ensures wrong { IfWrong result (λ left. (left ≡ length text.now) × NoEvent self.old.client.who self.old.first (entries_of served.now) (journal_events self.old) self.old.left.now text.now) }
    {
        if self.between {
            return self.take_join(alloc, served, text);
        }
        if begins_got(text) {
            return self.take_got(alloc, served, text);
        }
        if self.welcomed {
            return self.take_step(alloc, served, text);
        }
        Err(LineStop::Wrong { left: text.len() })
    }

    /// What it did.
    pub(crate) fn into_trace(self) -> Trace
        requires { self.first < most_sessions }
        ensures trace { result ≡ trace_from self.entry.first self.entry.client }
        ensures proper { Proper self.entry.client.who.shape result }
    {
        let Actor { client, first, .. } = self;
        client.into_trace(first)
    }
}
