//! What a client does, step by step, and what it is to answer.
ghost use Rattle.std.specs.Prelude.{◌≡◌};

use super::data::{Answer, Deed, action_of, objects_of, reply_of};
use std::alloc::Global;
use std::test::Fail;
use sv_client::{Client, ObserveFault, TakeFault, TraceMark, View};
use sv_wire::{Done1, Request};
use sv_world::ObjectId;

/// What `take` answers: the results of the Done, nothing to ask, or a fault.
#[derive(Clone, Copy)]
pub enum Told<'a> {
    Nothing,
    Done(&'a [(u32, i64)]),
    Fault(TakeFault),
}

#[derive(Clone, Copy)]
pub enum Step<'a> {
    Join,
    Make(Deed),
    Poll,
    /// It asks what these objects are.
    Observe(&'a [u16]),
    /// So many objects from 0 on, or others, are not observed, for this cause.
    Refuse(&'a [u16], ObserveFault),
    Leave,
    Cut,
    /// A reply is handed in.
    Take(Answer<'a>, Told<'a>),
    /// The client looks at an object, and sees this number, or none.
    Show(u16, Option<i64>),
    /// The number that is held of an object below a position.
    Below(u16, u32, Option<i64>),
    /// How many actions are pending and how many requests are outstanding, and the commit told.
    Counts(usize, usize, u32),
}

fn number(view: View<'_>) -> Option<i64> {
    match view {
        View::Known(value) => value.as_slice().first().copied(),
        View::Unknown => None,
    }
}

fn joins(client: &mut Client) -> Result<bool, Fail>
    ensures { client.new.who ≡ client.old.who }
{
    if client.sessions() >= 64 {
        return Ok(false);
    }
    let requests = client.join()?;
    let is_so = requests.len() == client.pending() + 1;
    drop(requests);
    Ok(is_so)
}

fn makes(alloc: Global, client: &mut Client, deed: Deed) -> Result<bool, Fail>
    ensures { client.new.who ≡ client.old.who }
{
    if !client.in_session() || client.made() >= 65536 {
        return Ok(false);
    }
    let action = action_of(alloc, deed)?;
    drop(client.make(action)?);
    Ok(true)
}

fn polls(client: &mut Client) -> Result<bool, Fail>
    ensures { client.new.who ≡ client.old.who }
{
    if !client.in_session() {
        return Ok(false);
    }
    drop(client.poll()?);
    Ok(true)
}

fn are_numbered(objects: &[ObjectId], numbers: &[u16]) -> bool {
    if objects.len() != numbers.len() {
        return false;
    }
    for (object, number) in objects.iter().zip(numbers) {
        if object.0 != *number {
            return false;
        }
    }
    true
}

/// The request asks what these objects are, and waits for so many milliseconds. It is let go.
fn is_observe(request: Request, numbers: &[u16], expected: u16) -> bool {
    match request {
        Request::Observe { objects, wait } => {
            wait == expected && are_numbered(objects.as_slice(), numbers)
        }
        _ => false,
    }
}

fn observes(alloc: Global, client: &mut Client, numbers: &[u16]) -> Result<bool, Fail>
    ensures { client.new.who ≡ client.old.who }
{
    if !client.in_session() {
        return Ok(false);
    }
    let objects = objects_of(alloc, numbers)?;
    let request = client.observe(objects, 250)?;
    Ok(is_observe(request, numbers, 250))
}

fn refuses(
    alloc: Global,
    client: &mut Client,
    numbers: &[u16],
    expected: ObserveFault,
) -> Result<bool, Fail>
    ensures { client.new.who ≡ client.old.who }
{
    if !client.in_session() {
        return Ok(false);
    }
    let objects = objects_of(alloc, numbers)?;
    match client.observe(objects, 0) {
        Ok(request) => {
            drop(request);
            Ok(false)
        }
        Err(fault) => Ok(fault == expected),
    }
}

fn leaves(client: &mut Client) -> Result<bool, Fail>
    ensures { client.new.who ≡ client.old.who }
{
    if !client.in_session() || client.outstanding() > 0 {
        return Ok(false);
    }
    drop(client.leave()?);
    Ok(true)
}

fn cuts(client: &mut Client) -> Result<bool, Fail>
    ensures { client.new.who ≡ client.old.who }
{
    client.note(TraceMark::Cut)?;
    Ok(true)
}

fn shows(
    alloc: Global,
    client: &mut Client,
    object: u16,
    expected: Option<i64>,
) -> Result<bool, Fail>
    ensures { client.new.who ≡ client.old.who }
{
    let objects = objects_of(alloc, &[object])?;
    client.note(TraceMark::Show(objects))?;
    Ok(number(client.view(ObjectId(object))) == expected)
}

fn are_results(results: &[Done1], expected: &[(u32, i64)]) -> bool {
    if results.len() != expected.len() {
        return false;
    }
    for (result, (pos, number)) in results.iter().zip(expected) {
        let first = result.values.as_slice().first();
        let found = first.and_then(|value| value.as_slice().first().copied());
        if result.pos != *pos || found != Some(*number) {
            return false;
        }
    }
    true
}

fn is_told(asked: Option<&Request>, expected: Told) -> bool {
    match (asked, expected) {
        (None, Told::Nothing) => true,
        (Some(Request::Done { results }), Told::Done(numbers)) => {
            are_results(results.as_slice(), numbers)
        }
        _ => false,
    }
}

/// The same of what is let go.
fn tells(asked: Option<Request>, expected: Told) -> bool {
    let is_so = is_told(asked.as_ref(), expected);
    drop(asked);
    is_so
}

fn takes(alloc: Global, client: &mut Client, answer: Answer, expected: Told) -> Result<bool, Fail>
    ensures { client.new.who ≡ client.old.who }
{
    let reply = reply_of(alloc, answer)?;
    Ok(match client.take(reply) {
        Ok(asked) => tells(asked, expected),
        Err(fault) => matches!(expected, Told::Fault(other) if other == fault),
    })
}

fn holds_below(client: &Client, object: u16, pos: u32, expected: Option<i64>) -> bool
    requires { client.now.who.shape.objects ≡ 2 }
{
    if object >= 2 || pos <= client.told() {
        return false;
    }
    number(client.value_below(ObjectId(object), pos)) == expected
}

fn counts(client: &Client, pending: usize, outstanding: usize, told: u32) -> bool {
    client.pending() == pending && client.outstanding() == outstanding && client.told() == told
}

/// Whether a step of a client of two objects goes as expected.
pub fn goes(alloc: Global, client: &mut Client, step: Step) -> Result<bool, Fail>
    requires { client.old.who.shape.objects ≡ 2 }
    ensures { client.new.who ≡ client.old.who }
{
    match step {
        Step::Join => joins(client),
        Step::Make(deed) => makes(alloc, client, deed),
        Step::Poll => polls(client),
        Step::Observe(numbers) => observes(alloc, client, numbers),
        Step::Refuse(numbers, expected) => refuses(alloc, client, numbers, expected),
        Step::Leave => leaves(client),
        Step::Cut => cuts(client),
        Step::Take(answer, expected) => takes(alloc, client, answer, expected),
        Step::Show(object, expected) => shows(alloc, client, object, expected),
        Step::Below(object, pos, expected) => Ok(holds_below(client, object, pos, expected)),
        Step::Counts(pending, outstanding, told) => {
            Ok(counts(client, pending, outstanding, told))
        }
    }
}
