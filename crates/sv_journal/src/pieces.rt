//! Heads, values and items as the journal prints them. Where memory runs out a part of what is appended may be left.
ghost use Rattle.std.specs.Prelude.{◌≡◌, ◌≤◌, ◌∷◌, ◌++◌, All, length, reverse, string_bytes, OnOk};
ghost use Rattle.std.specs.List.{flat_map};
ghost use Rattle.sv_wire.specs.declared.message.ObjectValue.{ObjectValue};
ghost use Rattle.sv_journal.specs.History.{accepted};
ghost use Rattle.sv_journal.specs.Pieces.{joined, bracketed, value_text, held_text, head_text};
ghost use Rattle.sv_journal.specs.Text.{item_text};

use crate::journal::Journal;
use crate::text::{append_held, append_value};
use std::alloc::AllocError;
use sv_wire::ObjectValue;
use sv_world::Value;

/// Appends a head, as `[0=(5) 3=(7)]`.
pub fn append_head(head: &[ObjectValue], out: &mut String) -> Result<(), AllocError>
    ensures { OnOk result (string_bytes out.new ≡ string_bytes out.old ++ head_text head.now) }
{
    out.push('[')?;
    append_head_values(head, out)?;
    out.push(']')
}

fn append_head_values(head: &[ObjectValue], out: &mut String) -> Result<(), AllocError>
    ensures { OnOk result (string_bytes out.new ≡ string_bytes out.old ++ joined 32 (λ (h : ObjectValue). held_text h.object.0 h.value) head.now) }
{
    let [first, rest @ ..] = head else {
        return Ok(());
    };
    append_held(first.object, first.value.as_slice(), out)?;
    append_more_head_values(rest, out)
}

fn append_more_head_values(head: &[ObjectValue], out: &mut String) -> Result<(), AllocError>
    ensures { OnOk result (string_bytes out.new ≡ string_bytes out.old ++ flat_map (λ (h : ObjectValue). 32 ∷ held_text h.object.0 h.value) head.now) }
{
    for held in head {
        out.push(' ')?;
        append_held(held.object, held.value.as_slice(), out)?;
    }
    Ok(())
}

/// Appends values, as `(7)(8)`.
pub fn append_values(values: &[Value], out: &mut String) -> Result<(), AllocError>
    ensures { OnOk result (string_bytes out.new ≡ string_bytes out.old ++ flat_map value_text values.now) }
{
    for value in values {
        append_value(value.as_slice(), out)?;
    }
    Ok(())
}

/// Appends the items at positions, as `[1:c0.1 3:c1.2]`.
pub fn append_items(
    journal: &Journal,
    positions: &[u32],
    out: &mut String,
) -> Result<(), AllocError>
    requires { All (λ p. (1 ≤ p) × (p ≤ length (accepted (reverse journal.now.entries)))) positions.now }
    ensures { OnOk result (string_bytes out.new ≡ string_bytes out.old ++ bracketed (item_text (accepted (reverse journal.now.entries))) positions.now) }
{
    out.push('[')?;
    append_item_list(journal, positions, out)?;
    out.push(']')
}

fn append_item_list(
    journal: &Journal,
    positions: &[u32],
    out: &mut String,
) -> Result<(), AllocError>
    requires { All (λ p. (1 ≤ p) × (p ≤ length (accepted (reverse journal.now.entries)))) positions.now }
    ensures { OnOk result (string_bytes out.new ≡ string_bytes out.old ++ joined 32 (item_text (accepted (reverse journal.now.entries))) positions.now) }
{
    let [first, rest @ ..] = positions else {
        return Ok(());
    };
    append_item(journal, *first, out)?;
    append_more_items(journal, rest, out)
}

fn append_more_items(
    journal: &Journal,
    positions: &[u32],
    out: &mut String,
) -> Result<(), AllocError>
    requires { All (λ p. (1 ≤ p) × (p ≤ length (accepted (reverse journal.now.entries)))) positions.now }
    ensures { OnOk result (string_bytes out.new ≡ string_bytes out.old ++ flat_map (λ p. 32 ∷ item_text (accepted (reverse journal.now.entries)) p) positions.now) }
{
    for pos in positions {
        out.push(' ')?;
        append_item(journal, *pos, out)?;
    }
    Ok(())
}

fn append_item(journal: &Journal, pos: u32, out: &mut String) -> Result<(), AllocError>
    requires first { 1 ≤ pos }
    requires last { pos ≤ length (accepted (reverse journal.now.entries)) }
    ensures { OnOk result (string_bytes out.new ≡ string_bytes out.old ++ item_text (accepted (reverse journal.now.entries)) pos) }
{
    let client = journal.author(pos).0;
    let seq = journal.author_seq(pos);
    write!(out, "{pos}:c{client}.{seq}")
}
