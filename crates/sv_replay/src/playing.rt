//! A client that plays its script.

ghost use Rattle.std.specs.Prelude.{◌≡◌, ◌<◌, ◌+◌, [], ◌∷◌, ◌++◌, true, false, length, option_to_list, slice_get, All, IfOk, OnOk};
ghost use Rattle.sv_world.specs.Limits.{most_sessions};
ghost use Rattle.sv_client.specs.declared.trace.Event.TheVariants as events;
ghost use Rattle.sv_client.specs.Traces.{joins};
ghost use Rattle.sv_client.specs.Proper.{MayMake, MayPoll, MayObserve, MayLeave};
ghost use Rattle.sv_client.specs.Seen.{newly_asked};
ghost use Rattle.sv_scenario.specs.declared.scenario.Step.TheVariants as steps;
ghost use Rattle.sv_script.specs.Following.{must_join};
ghost use Rattle.law_schedule.specs.Players.{player_turn, next_step, last_steps, takes, trace_of_player, is_calm, is_settled};
ghost use Rattle.sv_wire.specs.Laws.{IsRequest};
ghost use Rattle.sv_exchange.specs.View.{ExchangeView};
ghost use Rattle.sv_replay.specs.Messages.{AsksMessages, IsAfterTurn};
ghost use Rattle.sv_replay.specs.Players.{session_of, IsFit, IsNextFine, taken_from};
ghost use Rattle.sv_replay.specs.Serving.{one_if};
ghost use Rattle.sv_replay.specs.Machine.{player_of, AreFlags, IsInSession, Does, MovedPlayer};

use std::alloc::{AllocError, Global};
use sv_client::{Client, MakeFault, ObserveFault, PollFault, TakeFault, Trace, TraceMark};
use sv_exchange::Exchange;
use sv_lists::List;
use sv_scenario::Step;
use sv_wire::Request;
use sv_world::{Action, MOST_OUTSTANDING, MOST_PENDING, ObjectId, copy_action, copy_objects};

/// A client that plays its script.
#[derive(Drop)]
pub(crate) struct Playing<'a> {
    pub(crate) client: Client,
    /// The number of its first session.
    pub(crate) first: u16,
    /// The steps that are not done yet.
    pub(crate) left: &'a [Step],
    /// It is in no session, and joins one next.
    pub(crate) between: bool,
    /// Its session has its Welcome.
    pub(crate) welcomed: bool,
    /// It closed its last session's link for good.
    pub(crate) closed: bool,
}

impl<'a> Playing<'a> {
    /// A client that did nothing yet.
    pub(crate) fn new(client: Client, first: u16, left: &'a [Step]) -> Playing<'a>
        requires { client.events ≡ [] }
        ensures player { player_of result ≡ record { who = client.who; first = first; events = []; left = left.now; closed = false } }
        ensures flags { AreFlags result }
    {
        Playing {
            client,
            first,
            left,
            between: true,
            welcomed: false,
            closed: false,
        }
    }

    /// What it did.
    pub(crate) fn into_trace(self) -> Trace
        requires { self.first < most_sessions }
        ensures { result ≡ trace_of_player (player_of self.entry) }
    {
        let Playing { client, first, .. } = self;
        client.into_trace(first)
    }

    /// The session that it is in, or joins next.
    pub(crate) fn session(&self) -> u16
        requires flags { AreFlags self.now }
        requires fit { IsFit most_sessions (player_of self.now) }
        ensures { result ≡ session_of (player_of self.now) }
    {
        let begun = self.first + self.client.sessions();
        if self.between { begun } else { begun - 1 }
    }

    /// Its turn: it joins its first or next session, or does its next step, if it can.
    pub(crate) fn turn(&mut self, alloc: Global, channel: &mut Exchange) -> Result<(), AllocError>
        requires flags { AreFlags self.old }
        requires fit { IsFit most_sessions (player_of self.old) }
        requires after { IsAfterTurn (player_turn (player_of self.old)) }
        requires open { self.old.closed ≡ false → channel.old.closed ≡ false }
        ensures { OnOk result (MovedPlayer (player_turn (player_of self.old)) self.old self.new channel.old channel.new) }
    {
        if self.closed {
            return Ok(());
        }
        if self.between {
            return self.join(channel);
        }
        if self.welcomed {
            return self.step(alloc, channel);
        }
        Ok(())
    }

    fn join(&mut self, channel: &mut Exchange) -> Result<(), AllocError>
        requires few { joins self.old.client.events < most_sessions }
        requires messages { All IsRequest (newly_asked self.old.client.who self.old.client.events (events.Join (joins self.old.client.events))) }
        requires open { channel.old.closed ≡ false }
        ensures { OnOk result (Does (events.Join (joins self.old.client.events)) self.old.left.now self.old.closed self.old self.new channel.old channel.new) }
    {
        let requests = self.client.join()?;
        send_requests(channel, &requests)?;
        self.between = false;
        self.welcomed = false;
        Ok(())
    }

    /// Its next step, in a session that has its Welcome. A step that can't be done yet waits.
    fn step(&mut self, alloc: Global, channel: &mut Exchange) -> Result<(), AllocError>
        requires flags { AreFlags self.old }
        requires ready { IsInSession self.old }
        requires after { IsAfterTurn (next_step (player_of self.old) self.old.left.now) }
        requires open { channel.old.closed ≡ false }
        ensures { OnOk result (MovedPlayer (next_step (player_of self.old) self.old.left.now) self.old self.new channel.old channel.new) }
    {
        let Some((step, rest)) = self.left.split_first() else {
            return self.finish(channel);
        };
        match step {
            Step::Act(action) => self.act(alloc, channel, action, rest),
            Step::Poll => self.poll(channel, rest),
            Step::Observe(objects) => self.observe(alloc, channel, objects, rest),
            Step::Sync => {
                self.sync(rest);
                Ok(())
            }
            Step::Show(objects) => self.show(alloc, objects, rest),
            Step::Cut => self.cut(channel, rest),
            Step::Quit => self.quit(channel, rest),
        }
    }

    /// Whether it may have one more request outstanding.
    fn is_calm(&self) -> bool
        ensures { result ≡ is_calm (player_of self.now) }
    {
        self.client.outstanding() < MOST_OUTSTANDING
    }

    /// Whether no request is outstanding.
    fn is_settled(&self) -> bool
        ensures { result ≡ is_settled (player_of self.now) }
    {
        self.client.outstanding() == 0
    }

    fn act(
        &mut self,
        alloc: Global,
        channel: &mut Exchange,
        action: &Action,
        rest: &'a [Step],
    ) -> Result<(), AllocError>
        requires flags { AreFlags self.old }
        requires ready { IsInSession self.old }
        requires after { IsAfterTurn (next_step (player_of self.old) (steps.Act action.now ∷ rest.now)) }
        requires open { channel.old.closed ≡ false }
        ensures { OnOk result (MovedPlayer (next_step (player_of self.old) (steps.Act action.now ∷ rest.now)) self.old self.new channel.old channel.new) }
    {
        if self.client.pending() < MOST_PENDING && self.is_calm() {
            self.make(alloc, channel, action, rest)
        } else {
            Ok(())
        }
    }

    fn make(
        &mut self,
        alloc: Global,
        channel: &mut Exchange,
        action: &Action,
        rest: &'a [Step],
    ) -> Result<(), AllocError>
        requires flags { AreFlags self.old }
        requires ready { IsInSession self.old }
        requires may { MayMake self.old.client.who self.old.client.events action.now }
        requires messages { All IsRequest (newly_asked self.old.client.who self.old.client.events (events.Make action.now)) }
        requires open { channel.old.closed ≡ false }
        ensures { OnOk result (Does (events.Make action.now) rest.now self.old.closed self.old self.new channel.old channel.new) }
    {
        let copy = copy_action(alloc, action)?;
        match self.client.make(copy) {
            Ok(request) => channel.send_request(&request)?,
            Err(MakeFault::Memory) => return Err(AllocError),
            Err(_) => unreachable!(),
        }
        self.left = rest;
        Ok(())
    }

    fn poll(&mut self, channel: &mut Exchange, rest: &'a [Step]) -> Result<(), AllocError>
        requires flags { AreFlags self.old }
        requires ready { IsInSession self.old }
        requires after { IsAfterTurn (next_step (player_of self.old) (steps.Poll ∷ rest.now)) }
        requires open { channel.old.closed ≡ false }
        ensures { OnOk result (MovedPlayer (next_step (player_of self.old) (steps.Poll ∷ rest.now)) self.old self.new channel.old channel.new) }
    {
        if self.is_calm() {
            self.ask(channel, rest)
        } else {
            Ok(())
        }
    }

    /// Asks for an abandoned action.
    fn ask(&mut self, channel: &mut Exchange, rest: &'a [Step]) -> Result<(), AllocError>
        requires flags { AreFlags self.old }
        requires ready { IsInSession self.old }
        requires may { MayPoll self.old.client.who self.old.client.events }
        requires open { channel.old.closed ≡ false }
        ensures { OnOk result (Does events.Poll rest.now self.old.closed self.old self.new channel.old channel.new) }
    {
        match self.client.poll() {
            Ok(request) => channel.send_request(&request)?,
            Err(PollFault::Memory) => return Err(AllocError),
            Err(PollFault::Busy) => unreachable!(),
        }
        self.left = rest;
        Ok(())
    }

    fn observe(
        &mut self,
        alloc: Global,
        channel: &mut Exchange,
        objects: &List<ObjectId>,
        rest: &'a [Step],
    ) -> Result<(), AllocError>
        requires flags { AreFlags self.old }
        requires ready { IsInSession self.old }
        requires after { IsAfterTurn (next_step (player_of self.old) (steps.Observe objects.now ∷ rest.now)) }
        requires open { channel.old.closed ≡ false }
        ensures { OnOk result (MovedPlayer (next_step (player_of self.old) (steps.Observe objects.now ∷ rest.now)) self.old self.new channel.old channel.new) }
    {
        if self.is_calm() {
            self.look(alloc, channel, objects, rest)
        } else {
            Ok(())
        }
    }

    /// Asks what these objects are.
    fn look(
        &mut self,
        alloc: Global,
        channel: &mut Exchange,
        objects: &List<ObjectId>,
        rest: &'a [Step],
    ) -> Result<(), AllocError>
        requires flags { AreFlags self.old }
        requires ready { IsInSession self.old }
        requires may { MayObserve self.old.client.who self.old.client.events objects.now }
        requires messages { All IsRequest (newly_asked self.old.client.who self.old.client.events (events.Observe objects.now 0)) }
        requires open { channel.old.closed ≡ false }
        ensures { OnOk result (Does (events.Observe objects.now 0) rest.now self.old.closed self.old self.new channel.old channel.new) }
    {
        let copy = copy_objects(alloc, objects.as_slice())?;
        match self.client.observe(copy, 0) {
            Ok(request) => channel.send_request(&request)?,
            Err(ObserveFault::Memory) => return Err(AllocError),
            Err(_) => unreachable!(),
        }
        self.left = rest;
        Ok(())
    }

    fn sync(&mut self, rest: &'a [Step])
        requires flags { AreFlags self.old }
        ensures player { player_of self.new ≡ next_step (player_of self.old) (steps.Sync ∷ rest.now) }
        ensures flags { AreFlags self.new }
    {
        if self.is_settled() {
            self.left = rest;
        }
    }

    fn show(
        &mut self,
        alloc: Global,
        objects: &List<ObjectId>,
        rest: &'a [Step],
    ) -> Result<(), AllocError>
        requires flags { AreFlags self.old }
        requires ready { IsInSession self.old }
        ensures { (c : ExchangeView) → OnOk result (Does (events.Show objects.now) rest.now self.old.closed self.old self.new c c) }
    {
        let copy = copy_objects(alloc, objects.as_slice())?;
        self.client.note(TraceMark::Show(copy))?;
        self.left = rest;
        Ok(())
    }

    fn cut(&mut self, channel: &mut Exchange, rest: &'a [Step]) -> Result<(), AllocError>
        requires flags { AreFlags self.old }
        requires ready { IsInSession self.old }
        ensures { OnOk result (Does events.Cut rest.now self.old.closed self.old self.new channel.old channel.new) }
    {
        self.client.note(TraceMark::Cut)?;
        channel.close();
        self.left = rest;
        self.between = true;
        Ok(())
    }

    fn quit(&mut self, channel: &mut Exchange, rest: &'a [Step]) -> Result<(), AllocError>
        requires flags { AreFlags self.old }
        requires ready { IsInSession self.old }
        ensures { OnOk result (Does events.Quit rest.now true self.old self.new channel.old channel.new) }
    {
        self.client.note(TraceMark::Quit)?;
        channel.close();
        self.left = rest;
        self.closed = true;
        Ok(())
    }

    /// With all steps done, it leaves, and closes its link when it has its Bye; each when nothing is outstanding.
    fn finish(&mut self, channel: &mut Exchange) -> Result<(), AllocError>
        requires flags { AreFlags self.old }
        requires ready { IsInSession self.old }
        requires after { IsAfterTurn (last_steps (player_of self.old)) }
        requires open { channel.old.closed ≡ false }
        requires none { self.old.left.now ≡ [] }
        ensures { OnOk result (MovedPlayer (last_steps (player_of self.old)) self.old self.new channel.old channel.new) }
    {
        if !self.is_settled() {
            return Ok(());
        }
        if self.client.in_session() {
            return self.leave(channel);
        }
        channel.close();
        self.closed = true;
        Ok(())
    }

    fn leave(&mut self, channel: &mut Exchange) -> Result<(), AllocError>
        requires flags { AreFlags self.old }
        requires ready { IsInSession self.old }
        requires may { MayLeave self.old.client.who self.old.client.events }
        requires open { channel.old.closed ≡ false }
        ensures { OnOk result (Does events.Leave self.old.left.now self.old.closed self.old self.new channel.old channel.new) }
    {
        let request = self.client.leave()?;
        channel.send_request(&request)
    }

    /// Takes the next reply that waits for it, if its end of a session is open. Whether it took one.
    pub(crate) fn take(&mut self, channel: &mut Exchange) -> Result<bool, AllocError>
        requires flags { AreFlags self.old }
        requires fit { IsFit most_sessions (player_of self.old) }
        requires after { AsksMessages (taken_from channel.old.replies (player_of self.old)) }
        requires open { self.old.closed ≡ false → must_join self.old.client.events ≡ false → channel.old.closed ≡ false }
        requires fine { self.old.closed ≡ false → must_join self.old.client.events ≡ false → IsNextFine self.old.client.who self.old.client.events channel.old.replies }
        ensures taken { OnOk result (MovedPlayer (taken_from channel.old.replies (player_of self.old)) self.old self.new channel.old channel.new) }
        ensures found { IfOk result (λ found. length self.new.client.events ≡ length self.old.client.events + one_if found) }
    {
        if self.closed || self.between {
            return Ok(false);
        }
        self.take_next(channel)
    }

    fn take_next(&mut self, channel: &mut Exchange) -> Result<bool, AllocError>
        requires flags { AreFlags self.old }
        requires fit { IsFit most_sessions (player_of self.old) }
        requires linked { self.old.closed ≡ false }
        requires joined { must_join self.old.client.events ≡ false }
        requires after { AsksMessages (takes (player_of self.old) (session_of (player_of self.old)) (slice_get channel.old.replies 0)) }
        requires open { channel.old.closed ≡ false }
        requires fine { IsNextFine self.old.client.who self.old.client.events channel.old.replies }
        ensures taken { OnOk result (MovedPlayer (takes (player_of self.old) (session_of (player_of self.old)) (slice_get channel.old.replies 0)) self.old self.new channel.old channel.new) }
        ensures found { IfOk result (λ found. length self.new.client.events ≡ length self.old.client.events + one_if found) }
    {
        let Some(reply) = channel.next_reply()? else {
            return Ok(false);
        };
        match self.client.take(reply) {
            Ok(done) => {
                self.taken(channel, done)?;
                Ok(true)
            }
            Err(fault) => match fault {
                TakeFault::Memory => Err(AllocError),
                _ => unreachable!(),
            },
        }
    }

    /// Sends the Done of a reply that was taken.
    fn taken(&mut self, channel: &mut Exchange, done: Option<Request>) -> Result<(), AllocError>
        requires messages { All IsRequest (option_to_list done) }
        requires open { channel.old.closed ≡ false }
        ensures playing { self.new ≡ record self.old { welcomed = true } }
        ensures channel { OnOk result (channel.new ≡ record channel.old { requests = channel.old.requests ++ option_to_list done }) }
    {
        self.welcomed = true;
        match done {
            Some(request) => channel.send_request(&request),
            None => Ok(()),
        }
    }
}

/// Sends requests to the session, in order.
fn send_requests(channel: &mut Exchange, requests: &[Request]) -> Result<(), AllocError>
    requires messages { All IsRequest requests.now }
    requires open { channel.old.closed ≡ false }
    ensures { OnOk result (channel.new ≡ record channel.old { requests = channel.old.requests ++ requests.now }) }
{
    for request in requests {
        channel.send_request(request)?;
    }
    Ok(())
}
