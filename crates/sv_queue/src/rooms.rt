//! Room for more slots, and slots that are forgotten, in all sets of a queue.
ghost use Rattle.std.specs.Prelude.{◌≡◌, ◌==◌, ◌/◌, ◌≤◌, All, map, OnOk};
ghost use Rattle.sv_world.specs.Limits.{most_open};
ghost use Rattle.sv_queue.specs.Slots.{SlotSet, set_but};
ghost use Rattle.sv_queue.specs.Blocks.{AreCovered};
ghost use Rattle.sv_queue.specs.Rooms.{HaveGrown, AreWithout};
ghost use Rattle.sv_queue.specs.Marks.{all_queued, marks_of, waiting_but};

use crate::slots::Slots;
use crate::waiting::WaitingAction;
use std::alloc::AllocError;
use std::collections::VecDeque;

/// How many objects a block has.
pub const BLOCK: usize = 64;

/// Makes room in the marks of each action. After running out of memory some have more room, and all have the slots that they had.
pub fn make_marks_room(entries: &mut VecDeque<WaitingAction>, room: u16) -> Result<(), AllocError>
    requires { room ≤ most_open }
    ensures queued { all_queued entries.new.items ≡ all_queued entries.old.items }
    ensures grown { HaveGrown (marks_of entries.old.items) (marks_of entries.new.items) }
    ensures ok { OnOk result (All (λ (r : SlotSet). room ≤ r.room) (marks_of entries.new.items)) }
{
    for place in 0..entries.len() {
        let entry = &mut entries[place];
        entry.marks.make_room(room)?;
    }
    Ok(())
}

/// The same of the rows of objects.
pub fn make_given_room(rows: &mut Vec<Slots>, room: u16) -> Result<(), AllocError>
    requires { room ≤ most_open }
    ensures grown { HaveGrown rows.old.items rows.new.items }
    ensures ok { OnOk result (All (λ (r : SlotSet). room ≤ r.room) rows.new.items) }
{
    for place in 0..rows.len() {
        let row = &mut rows[place];
        row.make_room(room)?;
    }
    Ok(())
}

/// Takes a slot out of the marks of each action.
pub fn forget_marks(entries: &mut VecDeque<WaitingAction>, slot: u16)
    ensures { entries.new.items ≡ map (waiting_but slot) entries.old.items }
{
    for place in 0..entries.len() {
        let entry = &mut entries[place];
        entry.marks.remove(slot);
    }
}

/// Takes a slot out of the rows of objects and of their blocks. Only the rows of a block that has it are looked at.
pub fn forget_given(rows: &mut Vec<Slots>, blocks: &mut Vec<Slots>, slot: u16)
    requires { AreCovered rows.old.items blocks.old.items }
    ensures rows { rows.new.items ≡ map (set_but slot) rows.old.items }
    ensures blocks { blocks.new.items ≡ map (set_but slot) blocks.old.items }
{
    for place in 0..blocks.len() {
        let block = &mut blocks[place];
        if block.has(slot) {
            block.remove(slot);
            forget_in_block(rows, place, slot);
        }
    }
}

/// Takes a slot out of the rows of one block.
fn forget_in_block(rows: &mut Vec<Slots>, block: usize, slot: u16)
    ensures { AreWithout slot (λ x. x / 64 == block) rows.old.items rows.new.items }
{
    let start = block.saturating_mul(BLOCK).min(rows.len());
    let end = start.saturating_add(BLOCK).min(rows.len());
    for place in start..end {
        let row = &mut rows[place];
        row.remove(slot);
    }
}
