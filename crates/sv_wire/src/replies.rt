//! Reading replies.
ghost use Rattle.std.specs.Prelude.{◌≡◌};
ghost use Rattle.sv_wire.specs.Steps.{Gives};
ghost use Rattle.sv_wire.specs.Fields.{most_held, most_seen};
ghost use Rattle.sv_wire.specs.Messages.{welcome_from, work_from, relay_from, seen_from, dropped_from, denied_from, settled_from, noted_from, code_from, refused_from, reply_front, whole};

use crate::actions::items_of;
use crate::fault::{DecodeFault, WireCause, stop_at};
use crate::fields::{MOST_HELD, MOST_SEEN, byte_of, count_of, head_of, u16_of, u32_of};
use crate::kinds::{ReplyKind, reply_kind};
use crate::message::{Item, ObjectValue, Reply};
use crate::refusal::LAST_CODE;
use std::alloc::Global;
use sv_lists::List;
use sv_world::{MOST_ITEMS, ObjectId};

/// A head, and the actions that are evaluated on it.
type Work = (List<ObjectValue>, List<Item>);

#[tactic(auto, unfolding(crate::specs::Messages::welcome_from))]
fn welcome_of(alloc: Global, bytes: &[u8]) -> Result<(Reply, &[u8]), DecodeFault>
    ensures { Gives (λ x. (x.0, x.1.now)) result (welcome_from bytes.now) }
{
    let (commit, rest) = u32_of(bytes)?;
    let (head, rest) = head_of(alloc, MOST_HELD, rest)?;
    Ok((Reply::Welcome { commit, head }, rest))
}

#[tactic(auto, unfolding(crate::specs::Messages::work_from))]
fn work_of(alloc: Global, most: u16, bytes: &[u8]) -> Result<(Work, &[u8]), DecodeFault>
    ensures { Gives (λ x. (x.0, x.1.now)) result (work_from most bytes.now) }
{
    let (head, rest) = head_of(alloc, most, bytes)?;
    let (count, rest) = count_of(0, MOST_ITEMS as u8, rest)?;
    let (items, rest) = items_of(alloc, count, rest)?;
    Ok(((head, items), rest))
}

#[tactic(auto, unfolding(crate::specs::Messages::relay_from))]
fn relay_of(alloc: Global, bytes: &[u8]) -> Result<(Reply, &[u8]), DecodeFault>
    ensures { Gives (λ x. (x.0, x.1.now)) result (relay_from bytes.now) }
{
    let (seq, rest) = u32_of(bytes)?;
    let (commit, rest) = u32_of(rest)?;
    let ((head, items), rest) = work_of(alloc, MOST_HELD, rest)?;
    Ok((
        Reply::Relay {
            seq,
            commit,
            head,
            items,
        },
        rest,
    ))
}

#[tactic(auto, unfolding(crate::specs::Messages::seen_from))]
fn seen_of(alloc: Global, bytes: &[u8]) -> Result<(Reply, &[u8]), DecodeFault>
    ensures { Gives (λ x. (x.0, x.1.now)) result (seen_from bytes.now) }
{
    let (last, rest) = u32_of(bytes)?;
    let (commit, rest) = u32_of(rest)?;
    let ((head, items), rest) = work_of(alloc, MOST_SEEN, rest)?;
    Ok((
        Reply::Seen {
            last,
            commit,
            head,
            items,
        },
        rest,
    ))
}

#[tactic(auto, unfolding(crate::specs::Messages::dropped_from))]
fn dropped_of(bytes: &[u8]) -> Result<(Reply, &[u8]), DecodeFault>
    ensures { Gives (λ x. (x.0, x.1.now)) result (dropped_from bytes.now) }
{
    let (seq, rest) = u32_of(bytes)?;
    let (chain, rest) = u32_of(rest)?;
    let (far, rest) = u32_of(rest)?;
    Ok((Reply::Dropped { seq, chain, far }, rest))
}

#[tactic(auto, unfolding(crate::specs::Messages::denied_from))]
fn denied_of(bytes: &[u8]) -> Result<(Reply, &[u8]), DecodeFault>
    ensures { Gives (λ x. (x.0, x.1.now)) result (denied_from bytes.now) }
{
    let (seq, rest) = u32_of(bytes)?;
    let (object, rest) = u16_of(rest)?;
    Ok((
        Reply::Denied {
            seq,
            object: ObjectId(object),
        },
        rest,
    ))
}

#[tactic(auto, unfolding(crate::specs::Messages::settled_from))]
fn settled_of(bytes: &[u8]) -> Result<(Reply, &[u8]), DecodeFault>
    ensures { Gives (λ x. (x.0, x.1.now)) result (settled_from bytes.now) }
{
    let (seq, rest) = u32_of(bytes)?;
    let (pos, rest) = u32_of(rest)?;
    Ok((Reply::Settled { seq, pos }, rest))
}

#[tactic(auto, unfolding(crate::specs::Messages::noted_from))]
fn noted_of(bytes: &[u8]) -> Result<(Reply, &[u8]), DecodeFault>
    ensures { Gives (λ x. (x.0, x.1.now)) result (noted_from bytes.now) }
{
    let (commit, rest) = u32_of(bytes)?;
    Ok((Reply::Noted { commit }, rest))
}

#[tactic(auto, unfolding(crate::specs::Messages::code_from))]
fn code_of(bytes: &[u8]) -> Result<(u8, &[u8]), DecodeFault>
    ensures { Gives (λ x. (x.0, x.1.now)) result (code_from bytes.now) }
{
    let (code, rest) = byte_of(bytes)?;
    if code < 1 || LAST_CODE < code {
        return Err(stop_at(bytes, WireCause::Code));
    }
    Ok((code, rest))
}

#[tactic(auto, unfolding(crate::specs::Messages::refused_from))]
fn refused_of(bytes: &[u8]) -> Result<(Reply, &[u8]), DecodeFault>
    ensures { Gives (λ x. (x.0, x.1.now)) result (refused_from bytes.now) }
{
    let (code, rest) = code_of(bytes)?;
    let (detail, rest) = u32_of(rest)?;
    Ok((Reply::Refused { code, detail }, rest))
}

#[tactic(auto, unfolding(crate::specs::Messages::reply_front))]
fn reply_of(alloc: Global, payload: &[u8]) -> Result<(Reply, &[u8]), DecodeFault>
    ensures { Gives (λ x. (x.0, x.1.now)) result (reply_front payload.now) }
{
    let (byte, rest) = byte_of(payload)?;
    let Some(kind) = reply_kind(byte) else {
        return Err(stop_at(payload, WireCause::Kind));
    };
    match kind {
        ReplyKind::Welcome => welcome_of(alloc, rest),
        ReplyKind::Relay => relay_of(alloc, rest),
        ReplyKind::Dropped => dropped_of(rest),
        ReplyKind::Denied => denied_of(rest),
        ReplyKind::Seen => seen_of(alloc, rest),
        ReplyKind::Settled => settled_of(rest),
        ReplyKind::Noted => noted_of(rest),
        ReplyKind::Idle => Ok((Reply::Idle, rest)),
        ReplyKind::Refused => refused_of(rest),
        ReplyKind::Bye => Ok((Reply::Bye, rest)),
    }
}

/// The reply that a payload is, all of it.
#[tactic(auto, unfolding(crate::specs::Messages::whole))]
pub fn whole_reply(alloc: Global, payload: &[u8]) -> Result<Reply, DecodeFault>
    ensures { Gives (λ x. x) result (whole reply_front payload.now) }
{
    let (reply, rest) = reply_of(alloc, payload)?;
    if !rest.is_empty() {
        return Err(stop_at(rest, WireCause::Rest));
    }
    Ok(reply)
}
