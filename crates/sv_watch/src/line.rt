//! The line that tells a change.
ghost use Rattle.std.specs.Prelude.{◌≡◌, ◌++◌, string_bytes, IfOk, OnOk};
ghost use Rattle.sv_watch.specs.Told.{numbers_text, view_text, change_line};
ghost use Rattle.std.specs.Fmt.{signed_decimal};

use crate::{Change, Line};
use std::alloc::{AllocError, Global};
use sv_lists::Text;
use sv_world::Value;

/// The line that tells a change, as `told c0 2 0 ? -> (5)`: the client, the event, the object, and the views before and after.
pub fn told_line(alloc: Global, change: &Change) -> Result<Line, AllocError>
    ensures { IfOk result (λ line. line ≡ change_line change.now) }
{
    let client = change.client.0;
    let event = change.event;
    let object = change.object.0;
    let mut text = format!(in alloc; "told c{client} {event} {object} ")?;
    push_view(alloc, &mut text, &change.old)?;
    text.push_str(" -> ")?;
    push_view(alloc, &mut text, &change.new)?;
    Ok(Text::from_string(text))
}

fn push_view(alloc: Global, text: &mut String, view: &Option<Value>) -> Result<(), AllocError>
    ensures { OnOk result (string_bytes text.new ≡ string_bytes text.old ++ view_text view.now) }
{
    match view {
        None => text.push('?'),
        Some(value) => {
            text.push('(')?;
            push_numbers(alloc, text, value.as_slice())?;
            text.push(')')
        }
    }
}

fn push_numbers(alloc: Global, text: &mut String, numbers: &[i64]) -> Result<(), AllocError>
    ensures { OnOk result (string_bytes text.new ≡ string_bytes text.old ++ numbers_text numbers.now) }
{
    let Some((first, rest)) = numbers.split_first() else {
        return Ok(());
    };
    push_number(alloc, text, *first)?;
    for number in rest {
        text.push(',')?;
        push_number(alloc, text, *number)?;
    }
    Ok(())
}

fn push_number(alloc: Global, text: &mut String, number: i64) -> Result<(), AllocError>
    ensures { OnOk result (string_bytes text.new ≡ string_bytes text.old ++ signed_decimal number) }
{
    let digits = format!(in alloc; "{number}")?;
    text.push_str(digits.as_str())
}
