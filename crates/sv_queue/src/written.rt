//! The objects that an action writes, and rows that are changed at them.
ghost use Rattle.std.specs.Prelude.{◌≡◌, ◌+◌, ◌*◌, ◌<◌, ◌≤◌, ℕ, false, true, [], ◌++◌, length, map, replicate, slice_index_or, All, IfOk, IfSome, option_to_list};
ghost use Rattle.sv_world.specs.declared.world.ObjectId.{ObjectId};
ghost use Rattle.sv_world.specs.Control.{is_in};
ghost use Rattle.sv_world.specs.Faults.{is_ascending};
ghost use Rattle.sv_world.specs.Limits.{most_reads};
ghost use Rattle.sv_world.specs.Sets.{read_set, write_set};
ghost use Rattle.sv_eval.specs.Serial.{put_all};
ghost use Rattle.sv_queue.specs.Blocks.{AreMarked};
ghost use Rattle.sv_queue.specs.Slots.{SlotSet, no_slots};
ghost use Rattle.sv_queue.specs.Written.{CanWrite, IsChangedAt, writes_before};

use crate::rooms::BLOCK;
use crate::slots::Slots;
use std::alloc::{AllocError, Global};
use sv_lists::List;
use sv_world::{Action, ObjectId, Value};

/// The object in a slot of an action's reads, where the action may write it.
pub fn written_at(action: &Action, slot: usize) -> Option<ObjectId>
    requires slot { slot < length action.now.reads }
    requires few_reads { length action.now.reads ≤ most_reads }
    requires ascending { is_ascending (read_set action.now) ≡ true }
    ensures next { writes_before action.now (slot + 1) ≡ writes_before action.now slot ++ map (λ (x : ObjectId). x.0) (option_to_list result) }
    ensures read { IfSome result (λ x. x.0 ≡ slice_index_or (read_set action.now) slot 0) }
    ensures fresh { IfSome result (λ x. is_in x.0 (writes_before action.now slot) ≡ false) }
{
    if (action.mask >> slot) % 2 == 1 {
        Some(action.reads.as_slice()[slot])
    } else {
        None
    }
}

/// Replaces the values of the objects that an action writes.
pub fn put_values(committed: &mut List<Value>, action: &Action, values: List<Value>)
    requires can { CanWrite (length committed.old) action.now }
    requires values { length values ≡ length (write_set action.now) }
    ensures { committed.new ≡ put_all committed.old (write_set action.now) values }
{
    let mut values = values.into_vec().into_iter();
    for slot in 0..action.reads.len() {
        if let Some(object) = written_at(action, slot) {
            if let Some(value) = values.next() {
                committed.set(object.0 as usize, value);
            }
        }
    }
}

/// One empty set for each object.
pub fn no_rows(alloc: Global, objects: usize) -> Result<Vec<Slots>, AllocError>
    ensures { IfOk result (λ rows. rows.items ≡ replicate objects no_slots) }
{
    let mut rows = Vec::with_capacity(alloc, objects)?;
    for _ in 0..objects {
        rows.push(Slots::new(alloc))?;
    }
    Ok(rows)
}

/// Gives each object that an action writes to just these slots.
pub fn give_written(rows: &mut Vec<Slots>, action: &Action, slots: &Slots)
    requires can { CanWrite (length rows.old.items) action.now }
    requires room { All (λ (r : SlotSet). (s : ℕ) → is_in s slots.now.slots ≡ true → s < r.room) rows.old.items }
    ensures { IsChangedAt no_slots (λ (r : SlotSet). record r { slots = slots.now.slots }) (write_set action.now) rows.old.items rows.new.items }
{
    for slot in 0..action.reads.len() {
        if let Some(object) = written_at(action, slot) {
            let row = &mut rows[object.0 as usize];
            row.copy_from(slots);
        }
    }
}

/// Tells the block of each object that an action writes of these slots.
pub fn tell_blocks(blocks: &mut Vec<Slots>, action: &Action, slots: &Slots)
    requires can { CanWrite (64 * length blocks.old.items) action.now }
    requires room { All (λ (r : SlotSet). (s : ℕ) → is_in s slots.now.slots ≡ true → s < r.room) blocks.old.items }
    ensures { AreMarked (write_set action.now) slots.now.slots blocks.old.items blocks.new.items }
{
    for slot in 0..action.reads.len() {
        if let Some(object) = written_at(action, slot) {
            let block = &mut blocks[object.0 as usize / BLOCK];
            block.join(slots);
        }
    }
}
