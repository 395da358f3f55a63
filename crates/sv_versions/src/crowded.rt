//! The objects that may have more than one version.
ghost use Rattle.std.specs.Prelude.{◌≡◌, ℕ, true, nat_lt, filter, length, slice_index_or, [], OnOk};
ghost use Rattle.sv_versions.specs.Histories.{ArePruned, is_listed};

use crate::history::History;
use std::alloc::AllocError;
use sv_world::ObjectId;

/// Lists an object that has one version, since it may have two afterwards. One that has more is listed already.
pub fn list_object(
    listed: &mut Vec<ObjectId>,
    object: ObjectId,
    count: usize,
) -> Result<(), AllocError>
    ensures there { OnOk result (count ≡ 1 → is_listed object.0 listed.new.items ≡ true) }
    ensures kept { (x : ℕ) → is_listed x listed.old.items ≡ true → is_listed x listed.new.items ≡ true }
{
    if count == 1 {
        listed.push(object)?;
    }
    Ok(())
}

/// Prunes the versions of the listed objects.
pub fn prune_each(histories: &mut Vec<History>, listed: &[ObjectId], commit: u32)
    ensures { ArePruned commit listed.now histories.old.items histories.new.items }
{
    for object in listed {
        let index = object.0 as usize;
        if index < histories.len() {
            let history = &mut histories[index];
            history.prune(commit);
        }
    }
}

/// Keeps those of the listed objects that have more than one version.
pub fn keep_crowded(listed: &mut Vec<ObjectId>, histories: &[History])
    ensures { listed.new.items ≡ filter (λ o. nat_lt 1 (length (slice_index_or histories.now o.0 []))) listed.old.items }
{
    listed.retain(|object| is_crowded(histories, *object));
}

fn is_crowded(histories: &[History], object: ObjectId) -> bool
    ensures { result ≡ nat_lt 1 (length (slice_index_or histories.now object.0 [])) }
{
    let index = object.0 as usize;
    if index < histories.len() {
        histories[index].len() > 1
    } else {
        false
    }
}
