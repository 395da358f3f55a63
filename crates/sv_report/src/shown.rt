//! Views as a look at objects prints them.
ghost use Rattle.std.specs.Prelude.{◌≡◌, ◌++◌, ◌∷◌, string_bytes, None, OnOk, codes};
ghost use Rattle.std.specs.List.{flat_map};
ghost use Rattle.sv_world.specs.declared.world.ObjectId.{ObjectId};
ghost use Rattle.sv_journal.specs.Pieces.{joined, bracketed};
ghost use Rattle.sv_client.specs.Traces.{view_of};
ghost use Rattle.sv_report.specs.Report.{shown_text};

use std::alloc::AllocError;
use sv_client::{Client, View};
use sv_journal::append_held;
use sv_world::ObjectId;

fn append_unknown(object: ObjectId, out: &mut String) -> Result<(), AllocError>
    ensures { OnOk result (string_bytes out.new ≡ string_bytes out.old ++ shown_text object.0 None) }
{
    let number = object.0;
    write!(out, "{number}=?")
}

fn append_one(client: &Client, object: ObjectId, out: &mut String) -> Result<(), AllocError>
    ensures { OnOk result (string_bytes out.new ≡ string_bytes out.old ++ shown_text object.0 (view_of client.now.events object.0)) }
{
    match client.view(object) {
        View::Known(value) => append_held(object, value.as_slice(), out),
        View::Unknown => append_unknown(object, out),
    }
}

/// Appends what a client sees of objects, as `[0=(6) 1=?]`.
pub(crate) fn append_views(
    client: &Client,
    objects: &[ObjectId],
    out: &mut String,
) -> Result<(), AllocError>
    ensures { OnOk result (string_bytes out.new ≡ string_bytes out.old ++ bracketed (λ (o : ObjectId). shown_text o.0 (view_of client.now.events o.0)) objects.now) }
{
    out.push_str("[")?;
    append_list(client, objects, out)?;
    out.push_str("]")
}

fn append_list(client: &Client, objects: &[ObjectId], out: &mut String) -> Result<(), AllocError>
    ensures { OnOk result (string_bytes out.new ≡ string_bytes out.old ++ joined 32 (λ (o : ObjectId). shown_text o.0 (view_of client.now.events o.0)) objects.now) }
{
    let [first, rest @ ..] = objects else {
        return Ok(());
    };
    append_one(client, *first, out)?;
    append_more(client, rest, out)
}

fn append_more(client: &Client, objects: &[ObjectId], out: &mut String) -> Result<(), AllocError>
    ensures { OnOk result (string_bytes out.new ≡ string_bytes out.old ++ flat_map (λ (o : ObjectId). 32 ∷ shown_text o.0 (view_of client.now.events o.0)) objects.now) }
{
    for object in objects {
        out.push_str(" ")?;
        append_one(client, *object, out)?;
    }
    Ok(())
}
