//! The result that a client keeps of an action that it made.
ghost use Rattle.std.specs.Prelude.{◌≡◌, ◌-◌, ◌++◌, ◌∷◌, length, option_map, slice_get, string_bytes, Some, OnOk};
ghost use Rattle.std.specs.List.{flat_map, zip};
ghost use Rattle.sv_world.specs.Sets.{numbers_of, write_set};
ghost use Rattle.sv_journal.specs.Pieces.{joined, held_text};
ghost use Rattle.sv_client.specs.Traces.{pending_of};
ghost use Rattle.sv_report.specs.Report.{kept_text};
ghost use Rattle.sv_report.specs.Again.{last_kept_text};

use std::alloc::{AllocError, Global};
use sv_client::Client;
use sv_eval::written_objects;
use sv_journal::append_held;
use sv_world::{Action, ObjectId, Value};

/// Appends what a client keeps of the action that it made last, as `[0=(6)]`, or `none`; nothing where no action is pending.
pub(crate) fn append_last(
    alloc: Global,
    client: &Client,
    out: &mut String,
) -> Result<(), AllocError>
    ensures { OnOk result (string_bytes out.new ≡ string_bytes out.old
        ++ last_kept_text (slice_get (pending_of client.now.events) (length (pending_of client.now.events) - 1))) }
{
    match client.made_last() {
        Some(last) => append_kept(alloc, last.action, last.kept, out),
        None => Ok(()),
    }
}

fn append_kept(
    alloc: Global,
    action: &Action,
    kept: Option<&[Value]>,
    out: &mut String,
) -> Result<(), AllocError>
    ensures { OnOk result (string_bytes out.new ≡ string_bytes out.old ++ kept_text (write_set action.now) (option_map (λ values. values.now) kept.entry)) }
{
    match kept {
        None => out.push_str("none"),
        Some(values) => append_result(alloc, action, values, out),
    }
}

fn append_result(
    alloc: Global,
    action: &Action,
    values: &[Value],
    out: &mut String,
) -> Result<(), AllocError>
    ensures { OnOk result (string_bytes out.new ≡ string_bytes out.old ++ kept_text (write_set action.now) (Some values.now)) }
{
    let written = written_objects(alloc, action)?;
    append_list(written.as_slice(), values, out)
}

/// Appends objects with their values, as `[0=(6) 2=(7)]`.
fn append_list(objects: &[ObjectId], values: &[Value], out: &mut String) -> Result<(), AllocError>
    ensures { OnOk result (string_bytes out.new ≡ string_bytes out.old ++ kept_text (numbers_of objects.now) (Some values.now)) }
{
    out.push_str("[")?;
    append_first(objects, values, out)?;
    out.push_str("]")
}

fn append_first(objects: &[ObjectId], values: &[Value], out: &mut String) -> Result<(), AllocError>
    ensures { OnOk result (string_bytes out.new ≡ string_bytes out.old
        ++ joined 32 (λ p. held_text p.0 p.1) (zip (numbers_of objects.now) values.now)) }
{
    let [object, objects @ ..] = objects else {
        return Ok(());
    };
    let [value, values @ ..] = values else {
        return Ok(());
    };
    append_held(*object, value.as_slice(), out)?;
    append_more(objects, values, out)
}

fn append_more(objects: &[ObjectId], values: &[Value], out: &mut String) -> Result<(), AllocError>
    ensures { OnOk result (string_bytes out.new ≡ string_bytes out.old
        ++ flat_map (λ p. 32 ∷ held_text p.0 p.1) (zip (numbers_of objects.now) values.now)) }
{
    let [object, objects @ ..] = objects else {
        return Ok(());
    };
    let [value, values @ ..] = values else {
        return Ok(());
    };
    out.push_str(" ")?;
    append_held(*object, value.as_slice(), out)?;
    append_more(objects, values, out)
}
