//! What is looked at in a reply before anything of it is evaluated.
ghost use Rattle.std.specs.Prelude.{◌≡◌, nat_lt, Some, []};
ghost use Rattle.std.specs.List.{list_any};
ghost use Rattle.sv_pending.specs.Seen.{item_seen};
ghost use Rattle.sv_wire.specs.declared.message.Reply.TheVariants as replies;
ghost use Rattle.sv_client.specs.Taking.{head_ascends, items_ascend, begins_by, is_badly_cut, is_disordered, is_bad_head, is_for_front, is_own, ends_as_own};
ghost use Rattle.sv_client.specs.Taking.{has_bad_action, is_good_answer, is_unfit};

use crate::kinds::Awaited;
use crate::same::same_action;
use sv_pending::{Pending, PendingItem};
use sv_wire::{Item, ObjectValue, Reply};
use sv_world::{ClientId, MOST_POSITIONS, Shape, check_action};

fn head_ascends(head: &[ObjectValue]) -> bool
    ensures { result ≡ head_ascends head.now }
{
    let [first, rest @ ..] = head else {
        return true;
    };
    let mut last = first.object.0;
    for held in rest {
        if held.object.0 <= last {
            return false;
        }
        last = held.object.0;
    }
    true
}

fn items_ascend(items: &[Item]) -> bool
    ensures { result ≡ items_ascend items.now }
{
    let [first, rest @ ..] = items else {
        return true;
    };
    let mut last = first.pos;
    for item in rest {
        if item.pos <= last {
            return false;
        }
        last = item.pos;
    }
    true
}

fn begins_by(commit: u32, items: &[Item]) -> bool
    ensures { result ≡ begins_by commit items.now }
{
    match items.first() {
        Some(item) => item.pos <= commit,
        None => false,
    }
}

fn stand_above(last: u32, items: &[Item]) -> bool
    ensures { result ≡ list_any (λ i. nat_lt last i.pos) items.now }
{
    for item in items {
        if item.pos > last {
            return true;
        }
    }
    false
}

/// Whether what is known at a position stands below its commit or below an item, or where no action may stand.
fn is_badly_cut(last: u32, commit: u32, items: &[Item]) -> bool
    ensures { result ≡ is_badly_cut (replies.Seen last commit [] items.now) }
{
    last < commit || stand_above(last, items) || last > MOST_POSITIONS
}

/// Whether positions stand out of order, or the commit is below one that the client was told.
pub(crate) fn is_out_of_order(told: u32, reply: &Reply) -> bool
    ensures { result ≡ is_disordered told reply.now }
{
    match reply {
        Reply::Welcome { commit, head } => !head_ascends(head.as_slice()) || *commit < told,
        Reply::Relay {
            seq: _,
            commit,
            head,
            items,
        } => {
            !head_ascends(head.as_slice())
                || !items_ascend(items.as_slice())
                || begins_by(*commit, items.as_slice())
                || *commit < told
        }
        Reply::Seen {
            last,
            commit,
            head,
            items,
        } => {
            !head_ascends(head.as_slice())
                || !items_ascend(items.as_slice())
                || begins_by(*commit, items.as_slice())
                || *commit < told
                || is_badly_cut(*last, *commit, items.as_slice())
        }
        Reply::Noted { commit } => *commit < told,
        Reply::Dropped { .. }
        | Reply::Denied { .. }
        | Reply::Settled { .. }
        | Reply::Idle
        | Reply::Refused { .. }
        | Reply::Bye => false,
    }
}

fn is_bad_head(shape: Shape, head: &[ObjectValue]) -> bool
    ensures { result ≡ is_bad_head shape head.now }
{
    for held in head {
        if held.object.0 >= shape.objects || held.value.len() != usize::from(shape.attrs) {
            return true;
        }
    }
    false
}

fn has_bad_action(shape: Shape, items: &[Item]) -> bool
    ensures { result ≡ has_bad_action shape items.now }
{
    for item in items {
        if check_action(shape, &item.action).is_err() {
            return true;
        }
    }
    false
}

fn is_for_front(pending: &Pending, seq: u32) -> bool
    ensures { result ≡ is_for_front seq pending.now.items }
{
    match pending.front() {
        Some(front) => seq == front.seq,
        None => false,
    }
}

/// Whether the last item is the front pending action as the client's own.
fn ends_as_own(id: ClientId, pending: &Pending, items: &[Item]) -> bool
    ensures { result ≡ ends_as_own id pending.now.items items.now }
{
    let Some(front) = pending.front() else {
        return false;
    };
    match items.last() {
        Some(item) => is_own(id, &front, item),
        None => false,
    }
}

fn is_own(id: ClientId, front: &PendingItem<'_>, item: &Item) -> bool
    ensures { result ≡ is_own id (item_seen front.now) item.now }
{
    item.client.0 == id.0 && item.seq == front.seq && same_action(&item.action, front.action)
}

/// Whether a relay answers what is awaited, where its actions are good.
fn is_good_answer(
    id: ClientId,
    pending: &Pending,
    awaited: &Awaited,
    seq: u32,
    items: &[Item],
) -> bool
    ensures { result ≡ is_good_answer id pending.now.items (Some awaited.now) seq items.now }
{
    match awaited {
        Awaited::Poll => seq == 0,
        Awaited::Join | Awaited::Submit | Awaited::Done | Awaited::Observe(_) | Awaited::Leave =>
            is_for_front(pending, seq) && ends_as_own(id, pending, items),
    }
}

/// Whether the head or an item is none of this world, or the reply is not for the front pending action.
pub(crate) fn is_unfit(
    id: ClientId,
    shape: Shape,
    pending: &Pending,
    awaited: &Awaited,
    reply: &Reply,
) -> bool
    ensures { result ≡ is_unfit id shape pending.now.items (Some awaited.now) reply.now }
{
    match reply {
        Reply::Welcome { commit: _, head } => is_bad_head(shape, head.as_slice()),
        Reply::Relay {
            seq,
            commit: _,
            head,
            items,
        } => {
            is_bad_head(shape, head.as_slice())
                || items.as_slice().is_empty()
                || has_bad_action(shape, items.as_slice())
                || !is_good_answer(id, pending, awaited, *seq, items.as_slice())
        }
        Reply::Seen {
            last: _,
            commit: _,
            head,
            items,
        } => is_bad_head(shape, head.as_slice()) || has_bad_action(shape, items.as_slice()),
        Reply::Dropped { seq, .. } => !is_for_front(pending, *seq),
        Reply::Denied { seq, .. } => !is_for_front(pending, *seq),
        Reply::Settled { seq, .. } => !is_for_front(pending, *seq),
        Reply::Noted { .. } | Reply::Idle | Reply::Refused { .. } | Reply::Bye => false,
    }
}
