//! Playing one session over its end.
ghost use Rattle.std.specs.Prelude.{◌≡◌, ◌<◌, [], ◌∷◌, Some, None, true, false, length, is_some, IfOk, IfErr, IfSome, OnOk, OnErr, if◌then◌else◌};
ghost use Rattle.sv_world.specs.Limits.{most_outstanding, most_pending, most_sessions};
ghost use Rattle.sv_client.specs.declared.trace.Event.TheVariants as events;
ghost use Rattle.sv_client.specs.Traces.{joins, pending_of};
ghost use Rattle.sv_scenario.specs.declared.scenario.Step.TheVariants as steps;
ghost use Rattle.sv_script.specs.Following.{must_join, after_syncs};
ghost use Rattle.sv_script.specs.Next.{can_do};
ghost use Rattle.sv_exchange.specs.Outgoing.{KeepsBack};
ghost use Rattle.sv_player.specs.declared.outcome.PlayerCause.TheVariants as causes;
ghost use Rattle.sv_player.specs.Carried.{request_frames, which_end};
ghost use Rattle.sv_player.specs.Going.{IsGoing, IsReadyNow, Did, own_session, outstanding_of, next_steps, asked_by};
ghost use Rattle.sv_player.specs.Partings.{parting_step};
ghost use Rattle.sv_player.specs.Sessions.{IsInSession, IsFresh, IsSameEnd, IsTurn, IsKeptBack, IsMoved, IsSessionPlayed, IsSent, FaultCause};

use crate::buffers::Buffers;
use crate::outcome::{Parting, PlayerCause, SessionEnd};
use crate::playing::Player;
use sv_client::TraceMark;
use sv_link::{End, Sent};
use sv_lists::List;
use sv_scenario::Step;
use sv_script::{Next, next_step};
use sv_watch::Watch;
use sv_world::{Action, ObjectId, copy_objects};

/// What a try to send tells a player.
pub(crate) fn sent_whole(sent: Sent) -> Result<(), PlayerCause>
    ensures { IsSent sent result }
{
    match sent {
        Sent::Whole => Ok(()),
        Sent::Failed => Err(PlayerCause::LinkFault),
        Sent::Memory => Err(PlayerCause::Memory),
    }
}

impl<'a> Player<'a> {
    /// Begins the first or the next session.
    fn begin<E: End>(&mut self, buffers: &mut Buffers, end: &mut E) -> Result<(), PlayerCause>
        requires going { IsGoing self.old }
        requires needed { must_join self.old.client.events ≡ true }
        requires few { joins self.old.client.events < most_sessions }
        requires fresh { IsFresh (E.told end.old) }
        requires empty { (buffers.old.inbox ≡ []) × (buffers.old.outbox ≡ []) }
        ensures turn { IsTurn result (joins self.old.client.events) (events.Join (joins self.old.client.events)) self.old self.new buffers.new (E.told end.new) }
        ensures kept { KeepsBack buffers.old.outbox (length (request_frames (asked_by self.old (events.Join (joins self.old.client.events))))) (E.told end.old) (E.told end.new) }
        ensures same_end { which_end (E.told end.new) ≡ which_end (E.told end.old) }
        ensures cause { FaultCause (E.faults end.old) (E.faults end.new) result }
        ensures calm { E.calm end.old → E.calm end.new }
    {
        let requests = self.join()?;
        sent_whole(buffers.post_all(&requests, end))
    }

    /// Makes an action, and sends it.
    fn do_make<E: End>(
        &mut self,
        action: &Action,
        rest: &'a [Step],
        watch: Option<&Watch>,
        buffers: &mut Buffers,
        end: &mut E,
    ) -> Result<(), PlayerCause>
        requires watch { IfSome watch (λ w. w.now.shape ≡ self.old.client.who.shape) }
        requires watched { self.old.watched ≡ is_some watch }
        requires at { IsInSession self.old buffers.old (E.told end.old) }
        requires ready { IsReadyNow self.old }
        requires next { next_steps self.old ≡ steps.Act action.now ∷ rest.now }
        requires room { (length (pending_of self.old.client.events) < most_pending) × (length (outstanding_of self.old) < most_outstanding) }
        ensures turn { IsTurn result (own_session self.old) (events.Make action.now) self.old self.new buffers.new (E.told end.new) }
        ensures kept { KeepsBack buffers.old.outbox (length (request_frames (asked_by self.old (events.Make action.now)))) (E.told end.old) (E.told end.new) }
        ensures same_end { which_end (E.told end.new) ≡ which_end (E.told end.old) }
        ensures cause { FaultCause (E.faults end.old) (E.faults end.new) result }
        ensures calm { E.calm end.old → E.calm end.new }
    {
        let request = self.make(action, rest, watch)?;
        sent_whole(buffers.post(&request, end))
    }

    /// Asks for an abandoned action.
    fn do_poll<E: End>(
        &mut self,
        rest: &'a [Step],
        buffers: &mut Buffers,
        end: &mut E,
    ) -> Result<(), PlayerCause>
        requires at { IsInSession self.old buffers.old (E.told end.old) }
        requires ready { IsReadyNow self.old }
        requires next { next_steps self.old ≡ steps.Poll ∷ rest.now }
        requires room { length (outstanding_of self.old) < most_outstanding }
        ensures turn { IsTurn result (own_session self.old) events.Poll self.old self.new buffers.new (E.told end.new) }
        ensures kept { KeepsBack buffers.old.outbox (length (request_frames (asked_by self.old events.Poll))) (E.told end.old) (E.told end.new) }
        ensures same_end { which_end (E.told end.new) ≡ which_end (E.told end.old) }
        ensures cause { FaultCause (E.faults end.old) (E.faults end.new) result }
        ensures calm { E.calm end.old → E.calm end.new }
    {
        let request = self.poll(rest)?;
        sent_whole(buffers.post(&request, end))
    }

    /// Asks what objects are.
    fn do_observe<E: End>(
        &mut self,
        objects: &List<ObjectId>,
        rest: &'a [Step],
        buffers: &mut Buffers,
        end: &mut E,
    ) -> Result<(), PlayerCause>
        requires at { IsInSession self.old buffers.old (E.told end.old) }
        requires ready { IsReadyNow self.old }
        requires next { next_steps self.old ≡ steps.Observe objects.now ∷ rest.now }
        requires room { length (outstanding_of self.old) < most_outstanding }
        ensures turn { IsTurn result (own_session self.old) (events.Observe objects.now 0) self.old self.new buffers.new (E.told end.new) }
        ensures kept { KeepsBack buffers.old.outbox (length (request_frames (asked_by self.old (events.Observe objects.now 0)))) (E.told end.old) (E.told end.new) }
        ensures same_end { which_end (E.told end.new) ≡ which_end (E.told end.old) }
        ensures cause { FaultCause (E.faults end.old) (E.faults end.new) result }
        ensures calm { E.calm end.old → E.calm end.new }
    {
        let request = self.observe(objects, rest)?;
        sent_whole(buffers.post(&request, end))
    }

    /// Leaves, with all steps done.
    fn do_leave<E: End>(&mut self, buffers: &mut Buffers, end: &mut E) -> Result<(), PlayerCause>
        requires at { IsInSession self.old buffers.old (E.told end.old) }
        requires ready { IsReadyNow self.old }
        requires settled { outstanding_of self.old ≡ [] }
        requires done { after_syncs self.old.left.now ≡ [] }
        ensures turn { IsTurn result (own_session self.old) events.Leave self.old self.new buffers.new (E.told end.new) }
        ensures kept { KeepsBack buffers.old.outbox (length (request_frames (asked_by self.old events.Leave))) (E.told end.old) (E.told end.new) }
        ensures left { IfOk result (λ _. self.new.left.now ≡ []) }
        ensures same_end { which_end (E.told end.new) ≡ which_end (E.told end.old) }
        ensures cause { FaultCause (E.faults end.old) (E.faults end.new) result }
        ensures calm { E.calm end.old → E.calm end.new }
    {
        let request = self.leave()?;
        sent_whole(buffers.post(&request, end))
    }

    /// Shows what it sees of objects.
    fn do_show(&mut self, objects: &List<ObjectId>, rest: &'a [Step]) -> Result<(), PlayerCause>
        requires going { IsGoing self.old }
        requires ready { IsReadyNow self.old }
        requires next { next_steps self.old ≡ steps.Show objects.now ∷ rest.now }
        ensures ok { OnOk result (Did (events.Show objects.now) rest.now self.old self.new) }
        ensures err { OnErr result (self.new ≡ self.old) }
        ensures memory { IfErr result (λ cause. cause ≡ causes.Memory) }
    {
        let copy = copy_objects(self.alloc, objects.as_slice())?;
        self.note(TraceMark::Show(copy), rest)?;
        Ok(())
    }

    /// Sends what waits, and ends the session by its step.
    fn do_part<E: End>(
        &mut self,
        parting: Parting,
        rest: &'a [Step],
        buffers: &mut Buffers,
        end: &mut E,
    ) -> Result<SessionEnd, PlayerCause>
        requires at { IsInSession self.old buffers.old (E.told end.old) }
        requires ready { IsReadyNow self.old }
        requires next { next_steps self.old ≡ parting_step parting ∷ rest.now }
        ensures played { IsSessionPlayed result (own_session self.old) self.old self.new (E.told end.new) }
        ensures same_end { which_end (E.told end.new) ≡ which_end (E.told end.old) }
        ensures cause { FaultCause (E.faults end.old) (E.faults end.new) result }
        ensures calm { E.calm end.old → E.calm end.new }
    {
        self.send_all(buffers, end)?;
        self.note(parting.mark(), rest)?;
        Ok(parting.ending())
    }

    /// Does its next step, which can be done. How the session ended, if it did.
    fn do_step<E: End>(
        &mut self,
        step: &Step,
        rest: &'a [Step],
        watch: Option<&Watch>,
        buffers: &mut Buffers,
        end: &mut E,
    ) -> Result<Option<SessionEnd>, PlayerCause>
        requires watch { IfSome watch (λ w. w.now.shape ≡ self.old.client.who.shape) }
        requires watched { self.old.watched ≡ is_some watch }
        requires at { IsInSession self.old buffers.old (E.told end.old) }
        requires ready { IsReadyNow self.old }
        requires next { next_steps self.old ≡ step.now ∷ rest.now }
        requires can { can_do self.old.client.who self.old.client.events step.now ≡ true }
        ensures moved { IsMoved result (own_session self.old) self.old self.new buffers.new (E.told end.new) }
        ensures kept { IsKeptBack result self.old self.new buffers.old.outbox (E.told end.old) (E.told end.new) }
        ensures same_end { which_end (E.told end.new) ≡ which_end (E.told end.old) }
        ensures cause { FaultCause (E.faults end.old) (E.faults end.new) result }
        ensures calm { E.calm end.old → E.calm end.new }
    {
        match step {
            Step::Act(action) => {
                self.do_make(action, rest, watch, buffers, end)?;
                Ok(None)
            }
            Step::Poll => {
                self.do_poll(rest, buffers, end)?;
                Ok(None)
            }
            Step::Observe(objects) => {
                self.do_observe(objects, rest, buffers, end)?;
                Ok(None)
            }
            Step::Sync => unreachable!(),
            Step::Show(objects) => {
                self.do_show(objects, rest)?;
                Ok(None)
            }
            Step::Cut => Ok(Some(self.do_part(Parting::Cut, rest, buffers, end)?)),
            Step::Quit => Ok(Some(self.do_part(Parting::Quit, rest, buffers, end)?)),
        }
    }

    /// Its next move. How the session ended, if it did.
    fn go_on<E: End>(
        &mut self,
        watch: Option<&Watch>,
        buffers: &mut Buffers,
        end: &mut E,
    ) -> Result<Option<SessionEnd>, PlayerCause>
        requires watch { IfSome watch (λ w. w.now.shape ≡ self.old.client.who.shape) }
        requires watched { self.old.watched ≡ is_some watch }
        requires at { IsInSession self.old buffers.old (E.told end.old) }
        requires ready { IsReadyNow self.old }
        ensures moved { IsMoved result (own_session self.old) self.old self.new buffers.new (E.told end.new) }
        ensures kept { IsKeptBack result self.old self.new buffers.old.outbox (E.told end.old) (E.told end.new) }
        ensures same_end { which_end (E.told end.new) ≡ which_end (E.told end.old) }
        ensures cause { FaultCause (E.faults end.old) (E.faults end.new) result }
        ensures calm { E.calm end.old → E.calm end.new }
    {
        match next_step(&self.client, self.left) {
            Next::Wait => Ok(ending_of(self.receive(watch, buffers, end)?)),
            Next::Leave => {
                self.do_leave(buffers, end)?;
                Ok(None)
            }
            Next::Do(step, rest) => self.do_step(step, rest, watch, buffers, end),
        }
    }

    /// Plays its first or next session over an end.
    pub(crate) fn play_session<E: End>(
        &mut self,
        watch: Option<&Watch>,
        end: &mut E,
    ) -> Result<SessionEnd, PlayerCause>
        requires watch { IfSome watch (λ w. w.now.shape ≡ self.old.client.who.shape) }
        requires watched { self.old.watched ≡ is_some watch }
        requires going { IsGoing self.old }
        requires needed { must_join self.old.client.events ≡ true }
        requires few { joins self.old.client.events < most_sessions }
        requires fresh { IsFresh (E.told end.old) }
        ensures played { IsSessionPlayed result (joins self.old.client.events) self.old self.new (E.told end.new) }
        ensures end { IsSameEnd (E.told end.old) (E.told end.new) }
        ensures cause { FaultCause (E.faults end.old) (E.faults end.new) result }
        ensures calm { E.calm end.old → E.calm end.new }
    {
        let mut buffers = Buffers::new(self.alloc)?;
        self.begin(&mut buffers, end)?;
        if self.receive(watch, &mut buffers, end)? {
            return Ok(SessionEnd::Left);
        }
        loop {
            if let Some(ending) = self.go_on(watch, &mut buffers, end)? {
                return Ok(ending);
            }
        }
    }
}

fn ending_of(bye: bool) -> Option<SessionEnd>
    ensures { result ≡ (if bye then Some SessionEnd.Left else None) }
{
    if bye { Some(SessionEnd::Left) } else { None }
}
