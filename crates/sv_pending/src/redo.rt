//! Computing kept results, each on the views over the actions before it.
ghost use Rattle.std.specs.Prelude.{◌≡◌, ◌<◌, ◌≤◌, map, length, take, option_copied, IfOk, IfSome, All, List, Option, ℤ};
ghost use Rattle.sv_world.specs.declared.world.ObjectId.{ObjectId};
ghost use Rattle.sv_world.specs.Sets.{write_set};
ghost use Rattle.sv_pending.specs.Pending.{overlay_of, view_over, views_over, kept_of, redone};
ghost use Rattle.sv_pending.specs.Made.{paired, overlay_by, place_in, IsWholeResult, AreWhole, ReadsWithin};
ghost use Rattle.sv_pending.specs.Seen.{overlay_seen};

use crate::Overlay;
use crate::made::{KeptValues, Made};
use std::alloc::{AllocError, Global};
use sv_eval::eval;
use sv_lists::List as Items;
use sv_versions::Versions;
use sv_world::{Action, ObjectId, Value, copy_value, is_in_mask};

/// The place of an object among those that an action writes.
fn place_of(action: &Action, object: ObjectId) -> Option<usize>
    ensures { result ≡ place_in object.0 (write_set action.now) }
{
    let reads = action.reads.as_slice();
    let mut place = 0;
    for (slot, read) in reads.iter().enumerate() {
        if is_in_mask(action.mask, slot) {
            if *read == object {
                return Some(place);
            }
            place += 1;
        }
    }
    None
}

/// What one action says of an object.
fn overlay_by<'a>(made: &'a Made, kept: &'a KeptValues, object: ObjectId) -> Overlay<'a>
    requires { IsWholeResult made.now.action kept.now }
    ensures { overlay_seen result ≡ overlay_by (record { seq = made.now.seq; action = made.now.action; kept = kept.now }) object.0 }
{
    let Some(place) = place_of(&made.action, object) else {
        return Overlay::Unwritten;
    };
    match kept {
        None => Overlay::Unknown,
        Some(values) => Overlay::Kept(&values.as_slice()[place]),
    }
}

/// What the last of the first actions that writes an object says of it. The search begins at the last of them, since a client's latest actions
/// are those that mostly decide.
#[tactic(auto, using(crate::proofs::Overlays::overlay_passed, crate::proofs::Overlays::overlay_unknown, crate::proofs::Overlays::overlay_kept, crate::proofs::Overlays::whole_at))]
fn overlay_before<'a>(
    made: &'a [Made],
    kept: &'a [KeptValues],
    count: usize,
    object: ObjectId,
) -> Overlay<'a>
    requires whole { AreWhole made.now kept.now }
    requires made { count ≤ length made.now }
    requires kept { count ≤ length kept.now }
    ensures { overlay_seen result ≡ overlay_of (take count (paired made.now kept.now)) object.0 }
{
    if count == 0 {
        return Overlay::Unwritten;
    }
    let last = count - 1;
    match overlay_by(&made[last], &kept[last], object) {
        Overlay::Unwritten => overlay_before(made, kept, last, object),
        Overlay::Unknown => Overlay::Unknown,
        Overlay::Kept(value) => Overlay::Kept(value),
    }
}

/// What the last of the actions that writes an object says of it.
#[tactic(auto, using(crate::proofs::Overlays::paired_within))]
pub fn overlay_in<'a>(made: &'a [Made], kept: &'a [KeptValues], object: ObjectId) -> Overlay<'a>
    requires { AreWhole made.now kept.now }
    ensures { overlay_seen result ≡ overlay_of (paired made.now kept.now) object.0 }
{
    let count = if made.len() < kept.len() {
        made.len()
    } else {
        kept.len()
    };
    overlay_before(made, kept, count, object)
}

/// An object's value over these actions, where it is known.
fn view_in<'a>(
    made: &'a [Made],
    kept: &'a [KeptValues],
    versions: &'a Versions,
    object: ObjectId,
) -> Option<&'a Value>
    requires whole { AreWhole made.now kept.now }
    requires object { object.0 < versions.now.shape.objects }
    ensures { option_copied result ≡ view_over versions.now.held (paired made.now kept.now) object.0 }
{
    match overlay_in(made, kept, object) {
        Overlay::Unwritten => versions.latest(object),
        Overlay::Unknown => None,
        Overlay::Kept(value) => Some(value),
    }
}

/// The values of objects over these actions, where all are known.
fn views_in(
    alloc: Global,
    made: &[Made],
    kept: &[KeptValues],
    versions: &Versions,
    objects: &[ObjectId],
) -> Result<KeptValues, AllocError>
    requires whole { AreWhole made.now kept.now }
    requires objects { All (λ (o : ObjectId). o.0 < versions.now.shape.objects) objects.now }
    ensures views { IfOk result (λ views. views ≡ views_over versions.now.held (paired made.now kept.now) (map (λ (o : ObjectId). o.0) objects.now)) }
    ensures long { IfOk result (λ views. IfSome views (λ values. length values ≡ length objects.now)) }
{
    let mut views = Vec::with_capacity(alloc, objects.len())?;
    for object in objects {
        let Some(value) = view_in(made, kept, versions, *object) else {
            return Ok(None);
        };
        views.push(copy_value(alloc, value)?)?;
    }
    Ok(Some(Items::from_vec(views)))
}

/// What an action would give its written objects over these actions.
pub fn kept_in(
    alloc: Global,
    made: &[Made],
    kept: &[KeptValues],
    versions: &Versions,
    action: &Action,
) -> Result<KeptValues, AllocError>
    requires whole { AreWhole made.now kept.now }
    requires reads { ReadsWithin versions.now.shape.objects action.now }
    ensures kept { IfOk result (λ values. values ≡ kept_of versions.now.held (paired made.now kept.now) action.now) }
    ensures whole { IfOk result (λ values. IsWholeResult action.now values) }
{
    let Some(values) = views_in(alloc, made, kept, versions, action.reads.as_slice())? else {
        return Ok(None);
    };
    let outcome = eval(alloc, action, values.as_slice())?;
    Ok(Some(outcome.writes))
}

/// The results of all actions, in order, each over the actions before it.
pub fn results_in(
    alloc: Global,
    made: &[Made],
    versions: &Versions,
) -> Result<Vec<KeptValues>, AllocError>
    requires { All (λ m. ReadsWithin versions.now.shape.objects m.action) made.now }
    ensures redone { IfOk result (λ done. (ks : List (Option (List (List ℤ)))) → length ks ≡ length made.now → paired made.now done.items ≡ redone versions.now.held (paired made.now ks)) }
    ensures whole { IfOk result (λ done. AreWhole made.now done.items) }
    ensures long { IfOk result (λ done. length done.items ≡ length made.now) }
{
    let mut done = Vec::with_capacity(alloc, made.len())?;
    for next in made {
        let kept = kept_in(alloc, made, &done, versions, &next.action)?;
        done.push(kept)?;
    }
    Ok(done)
}
