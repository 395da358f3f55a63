//! The events of a trace, done again by a client.
ghost use Rattle.std.specs.Prelude.{◌≡◌, ◌∷◌, ◌<◌, true, None, OnOk, OnErr};
ghost use Rattle.sv_world.specs.Limits.{most_sessions};
ghost use Rattle.sv_client.specs.declared.trace.Event.TheVariants as events;
ghost use Rattle.sv_client.specs.Traces.{joins};
ghost use Rattle.sv_client.specs.Taking.{first_fault_of_reply};
ghost use Rattle.sv_client.specs.Proper.{MayMake, MayPoll, MayObserve, MayLeave};
ghost use Rattle.sv_client.specs.Answers.{got_now};
ghost use Rattle.sv_report.specs.Again.{MayDo, again};

use std::alloc::{AllocError, Global};
use sv_client::{Client, Event, MakeFault, ObserveFault, PollFault, TakeFault, TraceMark};
use sv_lists::List;
use sv_wire::{Reply, copy_reply};
use sv_world::{Action, ObjectId, copy_action, copy_objects};

fn join_again(client: &mut Client) -> Result<(), AllocError>
    requires { joins client.old.events < most_sessions }
    ensures who { OnOk result (client.new.who ≡ client.old.who) }
    ensures events { OnOk result (client.new.events ≡ events.Join (joins client.old.events) ∷ client.old.events) }
    ensures err { OnErr result (client.new ≡ client.old) }
{
    let _ = client.join()?;
    Ok(())
}

fn make_again(alloc: Global, client: &mut Client, action: &Action) -> Result<(), AllocError>
    requires { MayMake client.old.who client.old.events action.now }
    ensures who { OnOk result (client.new.who ≡ client.old.who) }
    ensures events { OnOk result (client.new.events ≡ events.Make action.now ∷ client.old.events) }
    ensures err { OnErr result (client.new ≡ client.old) }
{
    let copy = copy_action(alloc, action)?;
    match client.make(copy) {
        Ok(_) => Ok(()),
        Err(MakeFault::Memory) => Err(AllocError),
        Err(_) => unreachable!(),
    }
}

fn poll_again(client: &mut Client) -> Result<(), AllocError>
    requires { MayPoll client.old.who client.old.events }
    ensures who { OnOk result (client.new.who ≡ client.old.who) }
    ensures events { OnOk result (client.new.events ≡ events.Poll ∷ client.old.events) }
    ensures err { OnErr result (client.new ≡ client.old) }
{
    match client.poll() {
        Ok(_) => Ok(()),
        Err(PollFault::Memory) => Err(AllocError),
        Err(PollFault::Busy) => unreachable!(),
    }
}

fn observe_again(
    alloc: Global,
    client: &mut Client,
    objects: &[ObjectId],
    wait: u16,
) -> Result<(), AllocError>
    requires { MayObserve client.old.who client.old.events objects.now }
    ensures who { OnOk result (client.new.who ≡ client.old.who) }
    ensures events { OnOk result (client.new.events ≡ events.Observe objects.now wait ∷ client.old.events) }
    ensures err { OnErr result (client.new ≡ client.old) }
{
    let copy = copy_objects(alloc, objects)?;
    match client.observe(copy, wait) {
        Ok(_) => Ok(()),
        Err(ObserveFault::Memory) => Err(AllocError),
        Err(_) => unreachable!(),
    }
}

fn leave_again(client: &mut Client) -> Result<(), AllocError>
    requires { MayLeave client.old.who client.old.events }
    ensures who { OnOk result (client.new.who ≡ client.old.who) }
    ensures events { OnOk result (client.new.events ≡ events.Leave ∷ client.old.events) }
    ensures err { OnErr result (client.new ≡ client.old) }
{
    let _ = client.leave()?;
    Ok(())
}

fn take_again(alloc: Global, client: &mut Client, reply: &Reply) -> Result<(), AllocError>
    requires { first_fault_of_reply client.old.who client.old.events reply.now ≡ None }
    ensures who { OnOk result (client.new.who ≡ client.old.who) }
    ensures events { OnOk result (client.new.events ≡ got_now client.old.events reply.now ∷ client.old.events) }
    ensures err { OnErr result (client.new ≡ client.old) }
{
    let copy = copy_reply(alloc, reply)?;
    match client.take(copy) {
        Ok(_) => Ok(()),
        Err(TakeFault::Memory) => Err(AllocError),
        Err(_) => unreachable!(),
    }
}

fn show_again(alloc: Global, client: &mut Client, objects: &[ObjectId]) -> Result<(), AllocError>
    ensures who { OnOk result (client.new.who ≡ client.old.who) }
    ensures events { OnOk result (client.new.events ≡ events.Show objects.now ∷ client.old.events) }
    ensures err { OnErr result (client.new ≡ client.old) }
{
    let copy = copy_objects(alloc, objects)?;
    client.note(TraceMark::Show(copy))
}

/// Does an event of a trace again, which the client may do next. It fails only where memory runs out, and then the client is as it was.
///
/// The client counts its sessions from 0, whatever the session's number is in the trace.
pub fn do_again(alloc: Global, client: &mut Client, event: &Event) -> Result<(), AllocError>
    requires { MayDo client.old.who client.old.events event.now }
    ensures who { OnOk result (client.new.who ≡ client.old.who) }
    ensures events { OnOk result (client.new.events ≡ again client.old.events event.now ∷ client.old.events) }
    ensures err { OnErr result (client.new ≡ client.old) }
{
    match event {
        Event::Join(_) => join_again(client),
        Event::Make(action) => make_again(alloc, client, action),
        Event::Poll => poll_again(client),
        Event::Observe(objects, wait) => observe_again(alloc, client, objects.as_slice(), *wait),
        Event::Leave => leave_again(client),
        Event::Got(_, reply) => take_again(alloc, client, reply),
        Event::Cut => client.note(TraceMark::Cut),
        Event::Quit => client.note(TraceMark::Quit),
        Event::Show(objects) => show_again(alloc, client, objects.as_slice()),
    }
}
