//! Taking a reply that has passed all looks.
ghost use Rattle.std.specs.Prelude.{◌≡◌, ◌<◌, ℕ, Bool, List, length, All, IfOk, IfErr, OnErr};
ghost use Rattle.sv_client.specs.declared.trace.Event.{Event};
ghost use Rattle.sv_client.specs.Taking.{Identity};
ghost use Rattle.sv_client.specs.Evaluating.{IsFitting, AsksWithin};
ghost use Rattle.sv_client.specs.Invariant.{IsClientOf};
ghost use Rattle.sv_client.specs.Answers.{IsFine, IsTaken, IsTakeFault};

use crate::applying::try_apply;
use crate::asking::await_after;
use crate::commits::told_by;
use crate::fault::TakeFault;
use crate::kinds::Awaited;
use sv_pending::Pending;
use sv_versions::Versions;
use sv_wire::{Reply, Request};

/// Takes a reply, in which nothing but a missing value can still be wrong, and answers the Done of its items, if it has any.
///
/// All is changed in its place. After a refusal it is as before.
pub(crate) fn take_reply(
    versions: &mut Versions,
    pending: &mut Pending,
    awaited: &mut Vec<Awaited>,
    told: &mut u32,
    reply: &Reply,
) -> Result<Option<Request>, TakeFault>
    requires shape { versions.old.shape ≡ pending.old.shape }
    requires fits { IsFitting versions.old.shape.objects told.old reply.now }
    requires awaited { 0 < length awaited.old.items }
    requires within { All (AsksWithin versions.old.shape.objects) awaited.old.items }
    ensures ok { (who : Identity) (t : List Event) (sessions made : ℕ) (joined : Bool) → IsClientOf who t versions.old pending.old awaited.old.items sessions made told.old joined → IsFine who t reply.now → IfOk result (λ done. IsTaken who t reply.now done versions.new pending.new awaited.new.items told.new) }
    ensures fault { (who : Identity) (t : List Event) (sessions made : ℕ) (joined : Bool) → IsClientOf who t versions.old pending.old awaited.old.items sessions made told.old joined → IsFine who t reply.now → IfErr result (IsTakeFault who t reply.now) }
    ensures versions { OnErr result (versions.new ≡ versions.old) }
    ensures pending { OnErr result (pending.new ≡ pending.old) }
    ensures awaited { OnErr result (awaited.new.items ≡ awaited.old.items) }
    ensures told { OnErr result (told.new ≡ told.old) }
{
    let done = try_apply(versions, pending, *told, &awaited[0], reply)?;
    await_after(awaited, reply);
    let commit = told_by(reply, *told);
    versions.prune(commit);
    *told = commit;
    Ok(done)
}
