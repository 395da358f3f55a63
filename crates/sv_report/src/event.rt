//! An event that a client does again, and its line.
ghost use Rattle.std.specs.Prelude.{◌≡◌, ◌+◌, ◌<◌, ◌++◌, ◌∷◌, [], codes, string_bytes, OnOk};
ghost use Rattle.std.specs.Fmt.{decimal};
ghost use Rattle.sv_world.specs.declared.world.ObjectId.{ObjectId};
ghost use Rattle.sv_journal.specs.Pieces.{bracketed, objects_text};
ghost use Rattle.sv_client.specs.Traces.{makes, view_of};
ghost use Rattle.sv_client.specs.Proper.{most_made};
ghost use Rattle.sv_report.specs.Report.{shown_text};
ghost use Rattle.sv_report.specs.Again.{MayDo, again, text_of, text_before, text_after};

use crate::again::do_again;
use crate::kept::append_last;
use crate::shown::append_views;
use std::alloc::{AllocError, Global};
use sv_client::{Client, Event};
use sv_journal::append_objects;
use sv_world::ObjectId;

fn append_show(client: &Client, objects: &[ObjectId], out: &mut String) -> Result<(), AllocError>
    ensures { OnOk result (string_bytes out.new ≡ string_bytes out.old ++ codes "show "
        ++ bracketed (λ (o : ObjectId). shown_text o.0 (view_of client.now.events o.0)) objects.now) }
{
    out.push_str("show ")?;
    append_views(client, objects, out)
}

fn append_observe(objects: &[ObjectId], out: &mut String) -> Result<(), AllocError>
    ensures { OnOk result (string_bytes out.new ≡ string_bytes out.old ++ codes "observe " ++ objects_text objects.now) }
{
    out.push_str("observe ")?;
    append_objects(objects, out)
}

/// Appends the text of the event that a client does next, but for what it then keeps of an action.
pub fn append_before(
    client: &Client,
    number: usize,
    event: &Event,
    out: &mut String,
) -> Result<(), AllocError>
    requires { MayDo client.now.who client.now.events event.now }
    ensures { OnOk result (string_bytes out.new ≡ string_bytes out.old ++ text_before number client.now.events event.now) }
{
    match event {
        Event::Join(session) => write!(out, "join s{session}"),
        Event::Make(_) => append_make(client, out),
        Event::Poll => out.push_str("poll"),
        Event::Observe(objects, _) => append_observe(objects.as_slice(), out),
        Event::Leave => out.push_str("leave"),
        Event::Got(session, _) => write!(out, "got s{session} #{number}"),
        Event::Cut => out.push_str("cut"),
        Event::Quit => out.push_str("quit"),
        Event::Show(objects) => append_show(client, objects.as_slice(), out),
    }
}

/// Appends the number of the action that a client makes next.
fn append_make(client: &Client, out: &mut String) -> Result<(), AllocError>
    requires { makes client.now.events < most_made }
    ensures { OnOk result (string_bytes out.new ≡ string_bytes out.old ++ codes "make " ++ decimal (makes client.now.events + 1) ++ codes " kept ") }
{
    let seq = client.made() + 1;
    write!(out, "make {seq} kept ")
}

/// Appends what a client keeps of the action that it made, where the event that it did last is one.
pub fn append_after(
    alloc: Global,
    client: &Client,
    event: &Event,
    out: &mut String,
) -> Result<(), AllocError>
    ensures { OnOk result (string_bytes out.new ≡ string_bytes out.old ++ text_after client.now.events event.now) }
{
    match event {
        Event::Make(_) => append_last(alloc, client, out),
        Event::Join(_)
        | Event::Poll
        | Event::Observe(_, _)
        | Event::Leave
        | Event::Got(_, _)
        | Event::Cut
        | Event::Quit
        | Event::Show(_) => Ok(()),
    }
}

/// Does an event as `do_again` does, and appends its line, where the entry of the reply that it gets has this number.
///
/// What is told of an action is what the client kept when it made it: it is evaluated once. The call fails only where memory runs out,
/// and may then have done the event and put a part of the line.
pub(crate) fn tell_again(
    alloc: Global,
    client: &mut Client,
    number: usize,
    event: &Event,
    out: &mut String,
) -> Result<(), AllocError>
    requires { MayDo client.old.who client.old.events event.now }
    ensures who { OnOk result (client.new.who ≡ client.old.who) }
    ensures events { OnOk result (client.new.events ≡ again client.old.events event.now ∷ client.old.events) }
    ensures line { OnOk result (string_bytes out.new ≡ string_bytes out.old ++ text_of number client.old.events event.now ++ 10 ∷ []) }
{
    append_before(client, number, event, out)?;
    do_again(alloc, client, event)?;
    append_after(alloc, client, event, out)?;
    out.push_str("\n")
}
