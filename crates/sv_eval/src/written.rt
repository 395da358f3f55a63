//! The objects that an action writes.
ghost use Rattle.std.specs.Prelude.{◌≡◌, IfOk};
ghost use Rattle.sv_world.specs.Sets.{at_mask, numbers_of, write_set};

use std::alloc::{AllocError, Global};
use sv_lists::List;
use sv_world::{Action, ObjectId, is_in_mask};

/// The objects that an action writes, in order: those that it reads at the slots in its mask.
#[tactic(auto, using(crate::proofs::Masks::at_mask_map))]
pub fn written_objects(alloc: Global, action: &Action) -> Result<List<ObjectId>, AllocError>
    ensures objects { IfOk result (λ written. written ≡ at_mask action.now.mask 0 action.now.reads) }
    ensures numbers { IfOk result (λ written. numbers_of written ≡ write_set action.now) }
{
    let written = masked(alloc, action.mask, action.reads.as_slice())?;
    Ok(written)
}

/// The objects at the slots in a mask.
fn masked(alloc: Global, mask: u16, reads: &[ObjectId]) -> Result<List<ObjectId>, AllocError>
    ensures { IfOk result (λ written. written ≡ at_mask mask 0 reads.now) }
{
    let mut written = List::new(alloc);
    for (slot, object) in reads.iter().enumerate() {
        if is_in_mask(mask, slot) {
            written.push(*object)?;
        }
    }
    Ok(written)
}
