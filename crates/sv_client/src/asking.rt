//! The requests of a client, and what is kept of those that have no reply yet.
ghost use Rattle.std.specs.Prelude.{◌≡◌, ◌<◌, ◌++◌, [], ◌∷◌, map, length, take, drop, replicate, IfOk, OnOk};
ghost use Rattle.sv_wire.specs.declared.message.Request.TheVariants as requests;
ghost use Rattle.sv_client.specs.declared.kinds.Awaited.TheVariants as kinds;
ghost use Rattle.sv_client.specs.Traces.{submit_of};
ghost use Rattle.sv_client.specs.Kinds.{asks_for_done, done_kinds};

use crate::kinds::Awaited;
use std::alloc::{AllocError, Global};
use sv_lists::List;
use sv_pending::Pending;
use sv_wire::{Reply, Request};
use sv_world::{ClientId, ObjectId, copy_action};

/// Appends the Submit of the front action, if there is one.
fn push_front(
    alloc: Global,
    requests: &mut Vec<Request>,
    pending: &Pending,
) -> Result<(), AllocError>
    ensures { OnOk result (requests.new.items ≡ requests.old.items ++ map submit_of (take 1 pending.now.items)) }
{
    let Some(front) = pending.front() else {
        return Ok(());
    };
    let action = copy_action(alloc, front.action)?;
    requests.push(Request::Submit {
        seq: front.seq,
        action,
    })?;
    Ok(())
}

/// A Join, and a Submit for each pending action.
pub(crate) fn joining(
    alloc: Global,
    client: ClientId,
    life: u32,
    interest: List<ObjectId>,
    pending: &Pending,
) -> Result<Vec<Request>, AllocError>
    ensures { IfOk result (λ all. all.items ≡ requests.Join client life interest ∷ map submit_of pending.now.items) }
{
    let mut requests = Vec::new(alloc);
    requests.push(Request::Join {
        client,
        life,
        interest,
    })?;
    let mut rest = pending.copy()?;
    while rest.len() > 0 {
        push_front(alloc, &mut requests, &rest)?;
        rest.settle();
    }
    Ok(requests)
}

/// What is awaited after a Join with Submits for so many actions.
pub(crate) fn awaited_at_join(alloc: Global, count: usize) -> Result<Vec<Awaited>, AllocError>
    ensures { IfOk result (λ all. all.items ≡ kinds.Join ∷ replicate count kinds.Submit) }
{
    let mut awaited = Vec::new(alloc);
    awaited.push(Awaited::Join)?;
    for _ in 0..count {
        awaited.push(Awaited::Submit)?;
    }
    Ok(awaited)
}

fn asks_for_done(reply: &Reply) -> bool
    ensures { result ≡ asks_for_done reply.now }
{
    match reply {
        Reply::Relay { .. } => true,
        Reply::Seen { items, .. } => items.len() > 0,
        Reply::Welcome { .. }
        | Reply::Dropped { .. }
        | Reply::Denied { .. }
        | Reply::Settled { .. }
        | Reply::Noted { .. }
        | Reply::Idle
        | Reply::Refused { .. }
        | Reply::Bye => false,
    }
}

/// Takes the oldest request off, and awaits the Done of a reply that has one.
pub(crate) fn await_after(awaited: &mut Vec<Awaited>, reply: &Reply)
    requires { 0 < length awaited.old.items }
    ensures { awaited.new.items ≡ drop 1 awaited.old.items ++ done_kinds reply.now }
{
    let _ = awaited.remove(0);
    if asks_for_done(reply) {
        awaited.push_reserved(Awaited::Done);
    }
}
