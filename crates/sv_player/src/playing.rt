//! A client that does the steps of its script, and tells what they change of its views.
ghost use Rattle.std.specs.Prelude.{◌≡◌, ◌≢◌, ℕ, suc, ◌<◌, ◌≤◌, ◌∷◌, ◌++◌, map, option_to_list, is_some, false, All, IfOk, IfErr, IfSome, OnOk, OnErr, None, []};
ghost use Rattle.sv_world.specs.Limits.{most_sessions};
ghost use Rattle.sv_client.specs.declared.trace.Event.TheVariants as events;
ghost use Rattle.sv_client.specs.declared.fault.TakeFault.TheVariants as faults;
ghost use Rattle.sv_client.specs.Traces.{joins};
ghost use Rattle.sv_client.specs.Taking.{first_fault_of_reply};
ghost use Rattle.sv_client.specs.Proper.{MayMake, MayPoll, MayObserve, MayLeave};
ghost use Rattle.sv_client.specs.Seen.{event_of_mark, newly_asked, with_event};
ghost use Rattle.sv_client.specs.Answers.{IsTakeFault, got_now};
ghost use Rattle.sv_watch.specs.Told.{change_line, IsChangeIn};
ghost use Rattle.sv_script.specs.Laws.{most_events};
ghost use Rattle.sv_player.specs.Seen.{changes_since, seen_again};
ghost use Rattle.sv_player.specs.Going.{IsGoing, Did, DidInPart};

use crate::telling::{Seen, tell_changes};
use std::alloc::{AllocError, Global};
use sv_client::{Client, MakeFault, ObserveFault, PollFault, TakeFault, TraceMark};
use sv_lists::List;
use sv_scenario::Step;
use sv_watch::{Line, Watch};
use sv_wire::{Reply, Request};
use sv_world::{Action, ObjectId, copy_action, copy_objects};

/// A client on its way through its script.
#[derive(Drop)]
pub(crate) struct Player<'a> {
    pub(crate) alloc: Global,
    pub(crate) client: Client,
    /// The number of its first session.
    pub(crate) first: u16,
    pub(crate) script: &'a [Step],
    /// The steps that are not done yet.
    pub(crate) left: &'a [Step],
    /// Whether somebody watches. What changes of its views is told then, and else nothing is.
    pub(crate) watched: bool,
    /// What it sees of the objects of its interest, where somebody watches.
    pub(crate) seen: Vec<Seen>,
    /// The lines told so far.
    pub(crate) lines: Vec<Line>,
    /// How many events there were.
    pub(crate) count: u32,
}

impl<'a> Player<'a> {
    /// Begins the first or the next session.
    pub(crate) fn join(&mut self) -> Result<Vec<Request>, AllocError>
        requires few { joins self.old.client.events < most_sessions }
        requires count { self.old.count ≤ most_events }
        ensures requests { IfOk result (λ requests. requests.items ≡ newly_asked self.old.client.who self.old.client.events (events.Join (joins self.old.client.events))) }
        ensures ok { OnOk result (Did (events.Join (joins self.old.client.events)) self.old.left.now self.old self.new) }
        ensures err { OnErr result (self.new ≡ self.old) }
    {
        let requests = self.client.join()?;
        self.count += 1;
        Ok(requests)
    }

    /// Tells whoever watches what the event that was done last changed since the objects were seen, and sees them as they are now.
    fn tell(&mut self, watch: Option<&Watch>) -> Result<(), AllocError>
        requires count { self.old.count ≤ most_events }
        requires changes { IfSome watch (λ w. All (IsChangeIn w.now.shape) (changes_since self.old.client (suc self.old.count) self.old.seen.items)) }
        requires unseen { is_some watch ≡ false → self.old.seen.items ≡ [] }
        ensures same { (self.new.client ≡ self.old.client) × (self.new.script.now ≡ self.old.script.now) × (self.new.left.now ≡ self.old.left.now) × (self.new.first ≡ self.old.first) × (self.new.watched ≡ self.old.watched) }
        ensures count { self.new.count ≡ suc self.old.count }
        ensures told { OnOk result (self.new.lines.items ≡ self.old.lines.items ++ map change_line (changes_since self.old.client (suc self.old.count) self.old.seen.items)) }
        ensures seen { OnOk result (self.new.seen.items ≡ seen_again self.old.client.events self.old.seen.items) }
    {
        self.count += 1;
        match watch {
            Some(watch) => tell_changes(
                &self.client,
                self.count,
                &mut self.seen,
                watch,
                &mut self.lines,
            ),
            None => Ok(()),
        }
    }

    /// Makes the action of its next step.
    pub(crate) fn make(
        &mut self,
        action: &Action,
        rest: &'a [Step],
        watch: Option<&Watch>,
    ) -> Result<Request, AllocError>
        requires watch { IfSome watch (λ w. w.now.shape ≡ self.old.client.who.shape) }
        requires watched { self.old.watched ≡ is_some watch }
        requires going { IsGoing self.old }
        requires may { MayMake self.old.client.who self.old.client.events action.now }
        requires count { self.old.count ≤ most_events }
        ensures request { IfOk result (λ request. request ∷ [] ≡ newly_asked self.old.client.who self.old.client.events (events.Make action.now)) }
        ensures ok { OnOk result (Did (events.Make action.now) rest.now self.old self.new) }
        ensures err { OnErr result (DidInPart (events.Make action.now) self.old self.new) }
    {
        let copy = copy_action(self.alloc, action)?;
        let request = match self.client.make(copy) {
            Ok(request) => request,
            Err(MakeFault::Memory) => return Err(AllocError),
            Err(_) => unreachable!(),
        };
        self.left = rest;
        self.tell(watch)?;
        Ok(request)
    }

    /// Asks for an abandoned action.
    pub(crate) fn poll(&mut self, rest: &'a [Step]) -> Result<Request, AllocError>
        requires may { MayPoll self.old.client.who self.old.client.events }
        requires count { self.old.count ≤ most_events }
        ensures request { IfOk result (λ request. request ∷ [] ≡ newly_asked self.old.client.who self.old.client.events events.Poll) }
        ensures ok { OnOk result (Did events.Poll rest.now self.old self.new) }
        ensures err { OnErr result (self.new ≡ self.old) }
    {
        let request = match self.client.poll() {
            Ok(request) => request,
            Err(PollFault::Memory) => return Err(AllocError),
            Err(PollFault::Busy) => unreachable!(),
        };
        self.count += 1;
        self.left = rest;
        Ok(request)
    }

    /// Asks what objects are, and waits for no news of them.
    pub(crate) fn observe(
        &mut self,
        objects: &List<ObjectId>,
        rest: &'a [Step],
    ) -> Result<Request, AllocError>
        requires may { MayObserve self.old.client.who self.old.client.events objects.now }
        requires count { self.old.count ≤ most_events }
        ensures request { IfOk result (λ request. request ∷ [] ≡ newly_asked self.old.client.who self.old.client.events (events.Observe objects.now 0)) }
        ensures ok { OnOk result (Did (events.Observe objects.now 0) rest.now self.old self.new) }
        ensures err { OnErr result (self.new ≡ self.old) }
    {
        let copy = copy_objects(self.alloc, objects.as_slice())?;
        let request = match self.client.observe(copy, 0) {
            Ok(request) => request,
            Err(ObserveFault::Memory) => return Err(AllocError),
            Err(_) => unreachable!(),
        };
        self.count += 1;
        self.left = rest;
        Ok(request)
    }

    /// Leaves, with all steps done.
    pub(crate) fn leave(&mut self) -> Result<Request, AllocError>
        requires may { MayLeave self.old.client.who self.old.client.events }
        requires count { self.old.count ≤ most_events }
        ensures request { IfOk result (λ request. request ∷ [] ≡ newly_asked self.old.client.who self.old.client.events events.Leave) }
        ensures ok { OnOk result (Did events.Leave [] self.old self.new) }
        ensures err { OnErr result (self.new ≡ self.old) }
    {
        let request = self.client.leave()?;
        self.count += 1;
        self.left = &[];
        Ok(request)
    }

    /// Does a step that asks for nothing: a show, a cut or a quit.
    pub(crate) fn note(&mut self, mark: TraceMark, rest: &'a [Step]) -> Result<(), AllocError>
        requires count { self.old.count ≤ most_events }
        ensures ok { OnOk result (Did (event_of_mark mark) rest.now self.old self.new) }
        ensures err { OnErr result (self.new ≡ self.old) }
    {
        self.client.note(mark)?;
        self.count += 1;
        self.left = rest;
        Ok(())
    }

    /// Takes a reply, and answers the Done of its items, if it has any.
    pub(crate) fn take(
        &mut self,
        reply: Reply,
        watch: Option<&Watch>,
    ) -> Result<Option<Request>, TakeFault>
        requires watch { IfSome watch (λ w. w.now.shape ≡ self.old.client.who.shape) }
        requires watched { self.old.watched ≡ is_some watch }
        requires going { IsGoing self.old }
        requires count { self.old.count ≤ most_events }
        ensures fine { OnOk result (first_fault_of_reply self.old.client.who self.old.client.events reply ≡ None) }
        ensures done { IfOk result (λ done. option_to_list done ≡ newly_asked self.old.client.who self.old.client.events (got_now self.old.client.events reply)) }
        ensures ok { OnOk result (Did (got_now self.old.client.events reply) self.old.left.now self.old self.new) }
        ensures fault { IfErr result (IsTakeFault self.old.client.who self.old.client.events reply) }
        ensures refused { IfErr result (λ fault. fault ≢ faults.Memory → self.new ≡ self.old) }
        ensures part { OnErr result (DidInPart (got_now self.old.client.events reply) self.old self.new) }
        ensures known { OnErr result (self.new.client.events ≡ got_now self.old.client.events reply ∷ self.old.client.events → first_fault_of_reply self.old.client.who self.old.client.events reply ≡ None) }
    {
        let done = self.client.take(reply)?;
        self.tell(watch)?;
        Ok(done)
    }
}
