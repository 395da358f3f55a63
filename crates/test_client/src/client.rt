//! Clients of two objects, with replies handed in by hand.
ghost use Rattle.std.specs.Prelude.{◌≡◌, ◌<◌, [], ◌∷◌, IfOk, if◌then◌else◌};

mod data;
mod observing;
mod rows;
mod steps;

use data::objects_of;
use std::alloc::Global;
use std::test::Fail;
use steps::{Step, goes};
use sv_client::{Client, Event, Trace};
use sv_lists::List;
use sv_world::{ClientId, ObjectId, Shape};

/// All objects that the client has an interest in: the first, or none.
fn interest_of(alloc: Global, in_first: bool) -> Result<List<ObjectId>, Fail>
    ensures { IfOk result (λ objects. objects ≡ (if in_first then record { 0 = 0 } ∷ [] else [])) }
{
    let mut objects = List::new(alloc);
    if in_first {
        objects.push(ObjectId(0))?;
    }
    Ok(objects)
}

/// A client of two objects of one number each.
fn client_of(alloc: Global, number: u16, in_first: bool) -> Result<Client, Fail>
    requires { number < 32 }
    ensures { IfOk result (λ client. client.who.shape.objects ≡ 2) }
{
    let interest = interest_of(alloc, in_first)?;
    let shape = Shape {
        objects: 2,
        attrs: 1,
    };
    Ok(Client::new(alloc, ClientId(number), shape, interest)?)
}

fn play(alloc: Global, client: &mut Client, steps: &[Step]) -> Result<(), Fail>
    requires { client.old.who.shape.objects ≡ 2 }
    ensures { client.new.who ≡ client.old.who }
{
    for (index, step) in steps.iter().enumerate() {
        if !goes(alloc, client, *step)? {
            return Err(Fail::new(format_args!("step {index}")));
        }
    }
    Ok(())
}

/// The events of a trace in order: each one's letter, with the session that it names, if any.
fn told(alloc: Global, trace: &Trace) -> Result<String, Fail> {
    let mut out = String::new(alloc);
    for event in trace.events.as_slice() {
        match event {
            Event::Join(session) => write!(out, " j{session}")?,
            Event::Got(session, _) => write!(out, " g{session}")?,
            Event::Make(_) => out.push_str(" m")?,
            Event::Poll => out.push_str(" p")?,
            Event::Observe(..) => out.push_str(" o")?,
            Event::Leave => out.push_str(" l")?,
            Event::Cut => out.push_str(" c")?,
            Event::Quit => out.push_str(" q")?,
            Event::Show(_) => out.push_str(" s")?,
        }
    }
    Ok(out)
}

/// The events that a trace has to have, where the first session has this number.
#[derive(Clone, Copy)]
struct Events<'a> {
    first: u16,
    told: &'a str,
}

/// Compares a trace, which is let go.
fn compare(alloc: Global, trace: Trace, wanted: &str) -> Result<(), Fail> {
    let text = told(alloc, &trace);
    drop(trace);
    let text = text?;
    if text.as_str() != wanted {
        return Err(Fail::new(format_args!("{text}, and not{wanted}")));
    }
    Ok(())
}

/// Each step goes as expected.
fn check(alloc: Global, number: u16, in_first: bool, steps: &[Step]) -> Result<(), Fail>
    requires { number < 32 }
{
    let mut client = client_of(alloc, number, in_first)?;
    let told = play(alloc, &mut client, steps);
    drop(client);
    told
}

/// Each step goes as expected, and the trace has these events.
fn check_trace(
    alloc: Global,
    number: u16,
    in_first: bool,
    steps: &[Step],
    events: Events,
) -> Result<(), Fail>
    requires client { number < 32 }
    requires first { events.first < 64 }
{
    let mut client = client_of(alloc, number, in_first)?;
    match play(alloc, &mut client, steps) {
        Ok(()) => compare(alloc, client.into_trace(events.first), events.told),
        Err(fail) => {
            drop(client);
            Err(fail)
        }
    }
}
