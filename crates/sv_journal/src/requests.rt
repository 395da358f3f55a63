//! Requests as they are printed. Where memory runs out a part of what is put may be left.
ghost use Rattle.std.specs.Prelude.{◌≡◌, ◌∷◌, ◌++◌, codes, string_bytes, OnOk};
ghost use Rattle.std.specs.List.{flat_map};
ghost use Rattle.std.specs.Fmt.{decimal};
ghost use Rattle.sv_wire.specs.declared.message.Done1.{Done1};
ghost use Rattle.sv_journal.specs.Pieces.{joined, bracketed, objects_text, result_text};
ghost use Rattle.sv_journal.specs.Text.{action_text, request_text};

use crate::pieces::append_values;
use crate::text::append_objects;
use itoa::Buffer;
use std::alloc::AllocError;
use sv_text::put_action;
use sv_wire::{Done1, Request};
use sv_world::{Action, ClientId, ObjectId, Shape, check_action};

/// A number.
pub fn put_decimal(number: u64, out: &mut String) -> Result<(), AllocError>
    ensures { OnOk result (string_bytes out.new ≡ string_bytes out.old ++ decimal number) }
{
    let mut digits = Buffer::new();
    out.push_str(digits.format(number))
}

/// A number behind a text.
pub fn put_behind(front: &str, number: u64, out: &mut String) -> Result<(), AllocError>
    ensures { OnOk result (string_bytes out.new ≡ string_bytes out.old ++ front.now ++ decimal number) }
{
    out.push_str(front)?;
    put_decimal(number, out)
}

fn put_join(
    client: ClientId,
    life: u32,
    interest: &[ObjectId],
    out: &mut String,
) -> Result<(), AllocError>
    ensures { OnOk result (string_bytes out.new ≡ string_bytes out.old ++ codes "join c" ++ decimal client.0 ++ codes " " ++ decimal life ++ codes " " ++ objects_text interest.now) }
{
    put_behind("join c", client.0 as u64, out)?;
    put_behind(" ", life as u64, out)?;
    out.push(' ')?;
    append_objects(interest, out)
}

fn put_shown(shape: Shape, action: &Action, out: &mut String) -> Result<(), AllocError>
    ensures { OnOk result (string_bytes out.new ≡ string_bytes out.old ++ action_text shape action.now) }
{
    match check_action(shape, action) {
        Ok(()) => put_action(out, action),
        Err(_) => out.push_str("bad"),
    }
}

fn put_submit(shape: Shape, seq: u32, action: &Action, out: &mut String) -> Result<(), AllocError>
    ensures { OnOk result (string_bytes out.new ≡ string_bytes out.old ++ codes "submit " ++ decimal seq ++ codes " " ++ action_text shape action.now) }
{
    put_behind("submit ", seq as u64, out)?;
    out.push(' ')?;
    put_shown(shape, action, out)
}

fn put_result(done: &Done1, out: &mut String) -> Result<(), AllocError>
    ensures { OnOk result (string_bytes out.new ≡ string_bytes out.old ++ result_text done.now) }
{
    put_decimal(done.pos as u64, out)?;
    out.push(':')?;
    append_values(done.values.as_slice(), out)
}

fn put_more_results(results: &[Done1], out: &mut String) -> Result<(), AllocError>
    ensures { OnOk result (string_bytes out.new ≡ string_bytes out.old ++ flat_map (λ (d : Done1). 32 ∷ result_text d) results.now) }
{
    for done in results {
        out.push(' ')?;
        put_result(done, out)?;
    }
    Ok(())
}

fn put_result_list(results: &[Done1], out: &mut String) -> Result<(), AllocError>
    ensures { OnOk result (string_bytes out.new ≡ string_bytes out.old ++ joined 32 result_text results.now) }
{
    let [first, rest @ ..] = results else {
        return Ok(());
    };
    put_result(first, out)?;
    put_more_results(rest, out)
}

fn put_done(results: &[Done1], out: &mut String) -> Result<(), AllocError>
    ensures { OnOk result (string_bytes out.new ≡ string_bytes out.old ++ codes "done " ++ bracketed result_text results.now) }
{
    out.push_str("done [")?;
    put_result_list(results, out)?;
    out.push(']')
}

fn put_observe(wait: u16, objects: &[ObjectId], out: &mut String) -> Result<(), AllocError>
    ensures { OnOk result (string_bytes out.new ≡ string_bytes out.old ++ codes "observe " ++ decimal wait ++ codes " " ++ objects_text objects.now) }
{
    put_behind("observe ", wait as u64, out)?;
    out.push(' ')?;
    append_objects(objects, out)
}

/// The text of a request. An action that is refused is shown as `bad`.
pub fn put_request(shape: Shape, request: &Request, out: &mut String) -> Result<(), AllocError>
    ensures { OnOk result (string_bytes out.new ≡ string_bytes out.old ++ request_text shape request.now) }
{
    match request {
        Request::Join {
            client,
            life,
            interest,
        } => put_join(*client, *life, interest.as_slice(), out),
        Request::Submit { seq, action } => put_submit(shape, *seq, action, out),
        Request::Done { results } => put_done(results.as_slice(), out),
        Request::Poll => out.push_str("poll"),
        Request::Observe { objects, wait } => put_observe(*wait, objects.as_slice(), out),
        Request::Leave => out.push_str("leave"),
        Request::Bad => out.push_str("bad"),
        Request::End => out.push_str("end"),
    }
}
