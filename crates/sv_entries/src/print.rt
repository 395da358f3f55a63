//! Printing the line of an entry. Where memory runs out, a part of what is put may be left.
ghost use Rattle.std.specs.Prelude.{◌≡◌, ◌∷◌, ◌++◌, codes, string_bytes, OnOk};
ghost use Rattle.std.specs.List.{flat_map};
ghost use Rattle.std.specs.Fmt.{decimal};
ghost use Rattle.sv_wire.specs.declared.message.Item.{Item};
ghost use Rattle.sv_journal.specs.Pieces.{joined, bracketed, head_text};
ghost use Rattle.sv_entries.specs.Lines.{sent_item, sent_text, living_line};

use std::alloc::AllocError;
use sv_journal::{append_head, put_behind, put_decimal, put_request};
use sv_wire::{Item, ObjectValue, Reply, Request};
use sv_world::Shape;

fn put_item(item: &Item, out: &mut String) -> Result<(), AllocError>
    ensures { OnOk result (string_bytes out.new ≡ string_bytes out.old ++ sent_item item.now) }
{
    put_decimal(item.pos as u64, out)?;
    put_behind(":c", item.client.0 as u64, out)?;
    put_behind(".", item.seq as u64, out)
}

fn put_more_items(items: &[Item], out: &mut String) -> Result<(), AllocError>
    ensures { OnOk result (string_bytes out.new ≡ string_bytes out.old ++ flat_map (λ (i : Item). 32 ∷ sent_item i) items.now) }
{
    for item in items {
        out.push(' ')?;
        put_item(item, out)?;
    }
    Ok(())
}

fn put_item_list(items: &[Item], out: &mut String) -> Result<(), AllocError>
    ensures { OnOk result (string_bytes out.new ≡ string_bytes out.old ++ joined 32 sent_item items.now) }
{
    let [first, rest @ ..] = items else {
        return Ok(());
    };
    put_item(first, out)?;
    put_more_items(rest, out)
}

fn put_items(items: &[Item], out: &mut String) -> Result<(), AllocError>
    ensures { OnOk result (string_bytes out.new ≡ string_bytes out.old ++ bracketed sent_item items.now) }
{
    out.push('[')?;
    put_item_list(items, out)?;
    out.push(']')
}

fn put_welcome(commit: u32, head: &[ObjectValue], out: &mut String) -> Result<(), AllocError>
    ensures { OnOk result (string_bytes out.new ≡ string_bytes out.old ++ codes "welcome " ++ decimal commit ++ codes " " ++ head_text head.now) }
{
    put_behind("welcome ", commit as u64, out)?;
    out.push(' ')?;
    append_head(head, out)
}

/// The commit, the base values and the items of a relay, and of what was seen.
fn put_sent(
    commit: u32,
    head: &[ObjectValue],
    items: &[Item],
    out: &mut String,
) -> Result<(), AllocError>
    ensures { OnOk result (string_bytes out.new ≡ string_bytes out.old ++ codes " at " ++ decimal commit ++ codes " " ++ head_text head.now ++ codes " " ++ bracketed sent_item items.now) }
{
    put_behind(" at ", commit as u64, out)?;
    out.push(' ')?;
    append_head(head, out)?;
    out.push(' ')?;
    put_items(items, out)
}

fn put_dropped(seq: u32, chain: u32, far: u32, out: &mut String) -> Result<(), AllocError>
    ensures { OnOk result (string_bytes out.new ≡ string_bytes out.old ++ codes "dropped " ++ decimal seq ++ codes " chain " ++ decimal chain ++ codes " far " ++ decimal far) }
{
    put_behind("dropped ", seq as u64, out)?;
    put_behind(" chain ", chain as u64, out)?;
    put_behind(" far ", far as u64, out)
}

/// Two numbers, each behind a text.
fn put_two(
    front: &str,
    number: u32,
    middle: &str,
    other: u32,
    out: &mut String,
) -> Result<(), AllocError>
    ensures { OnOk result (string_bytes out.new ≡ string_bytes out.old ++ front.now ++ decimal number ++ middle.now ++ decimal other) }
{
    put_behind(front, number as u64, out)?;
    put_behind(middle, other as u64, out)
}

fn put_reply(reply: &Reply, out: &mut String) -> Result<(), AllocError>
    ensures { OnOk result (string_bytes out.new ≡ string_bytes out.old ++ sent_text reply.now) }
{
    match reply {
        Reply::Welcome { commit, head } => put_welcome(*commit, head.as_slice(), out),
        Reply::Relay {
            seq,
            commit,
            head,
            items,
        } => {
            put_behind("relay ", *seq as u64, out)?;
            put_sent(*commit, head.as_slice(), items.as_slice(), out)
        }
        Reply::Dropped { seq, chain, far } => put_dropped(*seq, *chain, *far, out),
        Reply::Denied { seq, object } => {
            put_two("denied ", *seq, " object ", object.0 as u32, out)
        }
        Reply::Seen {
            last,
            commit,
            head,
            items,
        } => {
            put_behind("seen ", *last as u64, out)?;
            put_sent(*commit, head.as_slice(), items.as_slice(), out)
        }
        Reply::Settled { seq, pos } => put_two("settled ", *seq, " at ", *pos, out),
        Reply::Noted { commit } => put_behind("noted ", *commit as u64, out),
        Reply::Idle => out.push_str("idle"),
        Reply::Refused { code, detail } => { put_two("refused ", *code as u32, " ", *detail, out) }
        Reply::Bye => out.push_str("bye"),
    }
}

// ---- Lines

/// Puts the line of an entry.
pub(crate) fn put_line(
    shape: Shape,
    number: u64,
    session: u64,
    request: &Request,
    reply: &Reply,
    out: &mut String,
) -> Result<(), AllocError>
    ensures { OnOk result (string_bytes out.new ≡ string_bytes out.old ++ living_line shape number session request.now reply.now) }
{
    put_decimal(number, out)?;
    put_behind(" s", session, out)?;
    out.push(' ')?;
    put_request(shape, request, out)?;
    out.push_str(" -> ")?;
    put_reply(reply, out)?;
    out.push('\n')
}
