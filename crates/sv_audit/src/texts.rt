//! What is printed of why an object has its value.
ghost use Rattle.std.specs.Prelude.{◌≡◌, ◌≤◌, ◌++◌, All, codes, length, reverse, string_bytes, IfOk, OnOk};
ghost use Rattle.std.specs.Fmt.{decimal};
ghost use Rattle.std.specs.List.{flat_map};
ghost use Rattle.sv_journal.specs.History.{accepted};
ghost use Rattle.sv_journal.specs.Pieces.{held_text};
ghost use Rattle.sv_audit.specs.Texts.{reason_line, why_text};

use std::alloc::{AllocError, Global};
use sv_journal::{Journal, append_held};
use sv_text::append_action;
use sv_why::Why;
use sv_world::ObjectId;

/// Appends the line of a position.
fn append_reason(journal: &Journal, pos: u32, out: &mut String) -> Result<(), AllocError>
    requires first { 1 ≤ pos }
    requires last { pos ≤ length (accepted (reverse journal.now.entries)) }
    ensures { OnOk result (string_bytes out.new ≡ string_bytes out.old ++ reason_line (accepted (reverse journal.now.entries)) pos) }
{
    let client = journal.author(pos).0;
    let seq = journal.author_seq(pos);
    write!(out, "{pos} c{client}.{seq} ")?;
    append_action(journal.accepted(pos), out)?;
    out.push_str("\n")
}

fn append_reasons(journal: &Journal, positions: &[u32], out: &mut String) -> Result<(), AllocError>
    requires { All (λ p. (1 ≤ p) × (p ≤ length (accepted (reverse journal.now.entries)))) positions.now }
    ensures { OnOk result (string_bytes out.new ≡ string_bytes out.old ++ flat_map (reason_line (accepted (reverse journal.now.entries))) positions.now) }
{
    for pos in positions {
        append_reason(journal, *pos, out)?;
    }
    Ok(())
}

/// A line for each position that the value comes from, and then the value.
pub(crate) fn why_text(
    alloc: Global,
    journal: &Journal,
    object: ObjectId,
    why: &Why,
) -> Result<String, AllocError>
    requires { All (λ p. (1 ≤ p) × (p ≤ length (accepted (reverse journal.now.entries)))) why.now.positions }
    ensures { IfOk result (λ text. string_bytes text ≡ why_text (accepted (reverse journal.now.entries)) object.0 why.now.positions why.now.value) }
{
    let mut text = String::new(alloc);
    append_reasons(journal, why.positions.as_slice(), &mut text)?;
    text.push_str("value ")?;
    append_held(object, why.value.as_slice(), &mut text)?;
    text.push_str("\n")?;
    Ok(text)
}
