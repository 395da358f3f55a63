//! What a client that follows its script does next, other than to join and to get a reply.
ghost use Rattle.std.specs.Prelude.{◌≡◌, true, false, [], Some, None, IfOk, MatchOption};
ghost use Rattle.sv_world.specs.Faults.{first_fault_of_action};
ghost use Rattle.sv_client.specs.declared.trace.Event.TheVariants as events;
ghost use Rattle.sv_client.specs.Taking.{outstanding};
ghost use Rattle.sv_client.specs.Proper.{MayMake, MayPoll, MayObserve, MayLeave};
ghost use Rattle.sv_scenario.specs.declared.scenario.Step.TheVariants as steps;
ghost use Rattle.sv_script.specs.Following.{event_of, must_join, is_welcomed, is_finished};
ghost use Rattle.sv_script.specs.Next.{can_do};
ghost use Rattle.sv_report.specs.Again.{MayDo};
ghost use Rattle.sv_check.specs.Acting.{IsNextEvent, NoNextEvent, NotNow};

use std::alloc::{AllocError, Global};
use sv_client::{Client, Event, MOST_MADE};
use sv_lists::List;
use sv_scenario::Step;
use sv_script::{Next, next_step};
use sv_world::{Action, ObjectId, Shape, check_action, copy_action, copy_objects, may_be_observed};

fn is_good(shape: Shape, action: &Action) -> bool
    ensures all { first_fault_of_action shape action.now ≡ None → result ≡ true }
    ensures right { result ≡ true → first_fault_of_action shape action.now ≡ None }
{
    match check_action(shape, action) {
        Ok(()) => true,
        Err(_) => false,
    }
}

#[tactic(auto, using(sv_script::proofs::Choosing::act_room))]
fn may_make(client: &Client, shape: Shape, action: &Action) -> bool
    requires shape { shape ≡ client.now.who.shape }
    requires can { can_do client.now.who client.now.events (steps.Act action.now) ≡ true }
    ensures all { MayMake client.now.who client.now.events action.now → result ≡ true }
    ensures right { result ≡ true → MayMake client.now.who client.now.events action.now }
{
    client.in_session() && client.made() < MOST_MADE && is_good(shape, action)
}

fn made(
    alloc: Global,
    shape: Shape,
    client: &Client,
    action: &Action,
) -> Result<Option<Event>, AllocError>
    requires shape { shape ≡ client.now.who.shape }
    requires can { can_do client.now.who client.now.events (steps.Act action.now) ≡ true }
    ensures { IfOk result (λ found. MatchOption found (MayMake client.now.who client.now.events action.now → ⊥) (λ e. (e ≡ events.Make action.now) × MayDo client.now.who client.now.events e)) }
{
    if !may_make(client, shape, action) {
        return Ok(None);
    }
    Ok(Some(Event::Make(copy_action(alloc, action)?)))
}

#[tactic(auto, using(sv_script::proofs::Choosing::ask_room))]
fn polled(client: &Client) -> Option<Event>
    requires can { can_do client.now.who client.now.events steps.Poll ≡ true }
    ensures { MatchOption result (MayPoll client.now.who client.now.events → ⊥) (λ e. (e ≡ events.Poll) × MayDo client.now.who client.now.events e) }
{
    if client.in_session() {
        Some(Event::Poll)
    } else {
        None
    }
}

#[tactic(auto, using(sv_script::proofs::Choosing::ask_room))]
fn may_look(client: &Client, shape: Shape, objects: &List<ObjectId>) -> bool
    requires shape { shape ≡ client.now.who.shape }
    requires can { can_do client.now.who client.now.events (steps.Observe objects.now) ≡ true }
    ensures all { MayObserve client.now.who client.now.events objects.now → result ≡ true }
    ensures right { result ≡ true → MayObserve client.now.who client.now.events objects.now }
{
    client.in_session() && may_be_observed(shape.objects, objects.as_slice())
}

fn observed(
    alloc: Global,
    shape: Shape,
    client: &Client,
    objects: &List<ObjectId>,
) -> Result<Option<Event>, AllocError>
    requires shape { shape ≡ client.now.who.shape }
    requires can { can_do client.now.who client.now.events (steps.Observe objects.now) ≡ true }
    ensures { IfOk result (λ found. MatchOption found (MayObserve client.now.who client.now.events objects.now → ⊥) (λ e. (e ≡ events.Observe objects.now 0) × MayDo client.now.who client.now.events e)) }
{
    if !may_look(client, shape, objects) {
        return Ok(None);
    }
    Ok(Some(Event::Observe(copy_objects(alloc, objects.as_slice())?, 0)))
}

/// The event of a step that can be done now, where it may be done.
fn event_of(
    alloc: Global,
    shape: Shape,
    client: &Client,
    step: &Step,
) -> Result<Option<Event>, AllocError>
    requires shape { shape ≡ client.now.who.shape }
    requires can { can_do client.now.who client.now.events step.now ≡ true }
    ensures { IfOk result (λ found. MatchOption found (NotNow client.now.who client.now.events step.now) (λ e. (event_of step.now ≡ Some e) × MayDo client.now.who client.now.events e)) }
{
    match step {
        Step::Act(action) => made(alloc, shape, client, action),
        Step::Poll => Ok(polled(client)),
        Step::Observe(objects) => observed(alloc, shape, client, objects),
        Step::Sync => unreachable!(),
        Step::Show(objects) => Ok(Some(Event::Show(copy_objects(alloc, objects.as_slice())?))),
        Step::Cut => Ok(Some(Event::Cut)),
        Step::Quit => Ok(Some(Event::Quit)),
    }
}

/// A client's Leave, where it may leave.
fn leaving(client: &Client) -> Option<Event>
    requires settled { outstanding client.now.who client.now.events ≡ [] }
    ensures { MatchOption result (MayLeave client.now.who client.now.events → ⊥) (λ e. (e ≡ events.Leave) × MayLeave client.now.who client.now.events) }
{
    if client.in_session() {
        Some(Event::Leave)
    } else {
        None
    }
}

/// The next event of a client in a session that has its Welcome, with the steps that it leaves; none where it has to wait for a reply.
#[tactic(auto, using(crate::proofs::Moving::next_step, crate::proofs::Moving::next_leave, crate::proofs::Moving::none_waits, crate::proofs::Moving::none_leaves, crate::proofs::Moving::none_does))]
pub(crate) fn next_event<'a>(
    alloc: Global,
    shape: Shape,
    client: &Client,
    steps: &'a [Step],
) -> Result<Option<(Event, &'a [Step])>, AllocError>
    requires shape { shape ≡ client.now.who.shape }
    requires joined { must_join client.now.events ≡ false }
    requires welcomed { is_welcomed client.now.events ≡ true }
    requires here { is_finished client.now.events ≡ false }
    ensures { IfOk result (λ found. MatchOption found (NoNextEvent client.now.who client.now.events steps.now) (λ x. IsNextEvent client.now.who client.now.events steps.now x.0 x.1.now)) }
{
    match next_step(client, steps) {
        Next::Wait => Ok(None),
        Next::Leave => Ok(match leaving(client) {
            Some(event) => Some((event, &[])),
            None => None,
        }),
        Next::Do(step, rest) => match event_of(alloc, shape, client, step)? {
            Some(event) => Ok(Some((event, rest))),
            None => Ok(None),
        },
    }
}
