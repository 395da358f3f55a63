//! Equal copies of messages.
ghost use Rattle.std.specs.Prelude.{◌≡◌, IfOk};
ghost use Rattle.sv_wire.specs.declared.message.Reply.TheVariants as reply;

use crate::message::{Done1, Item, ObjectValue, Reply, Request};
use std::alloc::{AllocError, Global};
use sv_lists::List;
use sv_world::{copy_action, copy_objects, copy_value, copy_values};

fn copy_held(alloc: Global, held: &ObjectValue) -> Result<ObjectValue, AllocError>
    ensures { IfOk result (λ copy. copy ≡ held.now) }
{
    Ok(ObjectValue {
        object: held.object,
        value: copy_value(alloc, &held.value)?,
    })
}

/// An equal copy.
pub fn copy_head(alloc: Global, head: &[ObjectValue]) -> Result<List<ObjectValue>, AllocError>
    ensures { IfOk result (λ copy. copy ≡ head.now) }
{
    let mut copies = Vec::with_capacity(alloc, head.len())?;
    for held in head {
        copies.push(copy_held(alloc, held)?)?;
    }
    Ok(List::from_vec(copies))
}

fn copy_item(alloc: Global, item: &Item) -> Result<Item, AllocError>
    ensures { IfOk result (λ copy. copy ≡ item.now) }
{
    Ok(Item {
        pos: item.pos,
        client: item.client,
        seq: item.seq,
        action: copy_action(alloc, &item.action)?,
    })
}

fn copy_items(alloc: Global, items: &[Item]) -> Result<List<Item>, AllocError>
    ensures { IfOk result (λ copy. copy ≡ items.now) }
{
    let mut copies = Vec::with_capacity(alloc, items.len())?;
    for item in items {
        copies.push(copy_item(alloc, item)?)?;
    }
    Ok(List::from_vec(copies))
}

/// An equal copy.
pub fn copy_result(alloc: Global, found: &Done1) -> Result<Done1, AllocError>
    ensures { IfOk result (λ copy. copy ≡ found.now) }
{
    Ok(Done1 {
        pos: found.pos,
        values: copy_values(alloc, found.values.as_slice())?,
    })
}

fn copy_results(alloc: Global, results: &[Done1]) -> Result<List<Done1>, AllocError>
    ensures { IfOk result (λ copy. copy ≡ results.now) }
{
    let mut copies = Vec::with_capacity(alloc, results.len())?;
    for found in results {
        copies.push(copy_result(alloc, found)?)?;
    }
    Ok(List::from_vec(copies))
}

/// An equal copy.
pub fn copy_request(alloc: Global, request: &Request) -> Result<Request, AllocError>
    ensures { IfOk result (λ copy. copy ≡ request.now) }
{
    Ok(match request {
        Request::Join {
            client,
            life,
            interest,
        } => Request::Join {
            client: *client,
            life: *life,
            interest: copy_objects(alloc, interest.as_slice())?,
        },
        Request::Submit { seq, action } => Request::Submit {
            seq: *seq,
            action: copy_action(alloc, action)?,
        },
        Request::Done { results } => Request::Done {
            results: copy_results(alloc, results.as_slice())?,
        },
        Request::Poll => Request::Poll,
        Request::Observe { objects, wait } => Request::Observe {
            objects: copy_objects(alloc, objects.as_slice())?,
            wait: *wait,
        },
        Request::Leave => Request::Leave,
        Request::Bad => Request::Bad,
        Request::End => Request::End,
    })
}

fn copy_relay(
    alloc: Global,
    seq: u32,
    commit: u32,
    head: &[ObjectValue],
    items: &[Item],
) -> Result<Reply, AllocError>
    ensures { IfOk result (λ copy. copy ≡ reply.Relay seq commit head.now items.now) }
{
    let head = copy_head(alloc, head)?;
    let items = copy_items(alloc, items)?;
    Ok(Reply::Relay {
        seq,
        commit,
        head,
        items,
    })
}

fn copy_seen(
    alloc: Global,
    last: u32,
    commit: u32,
    head: &[ObjectValue],
    items: &[Item],
) -> Result<Reply, AllocError>
    ensures { IfOk result (λ copy. copy ≡ reply.Seen last commit head.now items.now) }
{
    let head = copy_head(alloc, head)?;
    let items = copy_items(alloc, items)?;
    Ok(Reply::Seen {
        last,
        commit,
        head,
        items,
    })
}

/// An equal copy.
pub fn copy_reply(alloc: Global, reply: &Reply) -> Result<Reply, AllocError>
    ensures { IfOk result (λ copy. copy ≡ reply.now) }
{
    match reply {
        Reply::Welcome { commit, head } => Ok(Reply::Welcome {
            commit: *commit,
            head: copy_head(alloc, head.as_slice())?,
        }),
        Reply::Relay {
            seq,
            commit,
            head,
            items,
        } => copy_relay(alloc, *seq, *commit, head.as_slice(), items.as_slice()),
        Reply::Dropped { seq, chain, far } => Ok(Reply::Dropped {
            seq: *seq,
            chain: *chain,
            far: *far,
        }),
        Reply::Denied { seq, object } => Ok(Reply::Denied {
            seq: *seq,
            object: *object,
        }),
        Reply::Seen {
            last,
            commit,
            head,
            items,
        } => copy_seen(alloc, *last, *commit, head.as_slice(), items.as_slice()),
        Reply::Settled { seq, pos } => Ok(Reply::Settled {
            seq: *seq,
            pos: *pos,
        }),
        Reply::Noted { commit } => Ok(Reply::Noted { commit: *commit }),
        Reply::Idle => Ok(Reply::Idle),
        Reply::Refused { code, detail } => Ok(Reply::Refused {
            code: *code,
            detail: *detail,
        }),
        Reply::Bye => Ok(Reply::Bye),
    }
}
