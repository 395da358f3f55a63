//! What a session lacks of objects at one position, and the greatest position at which it lacks few enough.
ghost use Rattle.std.specs.Prelude.{◌≡◌, ℕ, ◌+◌, ◌-◌, ◌*◌, ◌^◌, ◌<◌, ◌≤◌, true, nat_le, length, All, IfOk, IfSome, IfNone};
ghost use Rattle.sv_world.specs.Control.{is_in};
ghost use Rattle.sv_world.specs.Faults.{is_ascending, may_be_observed};
ghost use Rattle.sv_world.specs.Limits.{most_items};
ghost use Rattle.sv_world.specs.Sets.{numbers_of};
ghost use Rattle.sv_queue.specs.Queue.{last_position};
ghost use Rattle.sv_influence.specs.Lacking.{lacking_to_see, bases_to_see, latest_cut, MarksAreClosed};
ghost use Rattle.sv_influence.specs.Writers.{most_to_see};

use crate::answers::ConsistentCut;
use crate::lacking::{Found, Missing, listed};
use std::alloc::{AllocError, Global};
use std::sync::ledger::Ledger;
use sv_queue::{Queue, Steps};
use sv_world::{MOST_ITEMS, MOST_OBJECTS, ObjectId};

/// The greatest cut that the session of a slot can be shown of objects, and what it lacks of them there.
///
/// Mostly that is the last position. Where a session lacks too much of it, the cut is found by halves: what it lacks grows with the
/// position.
pub fn cut<L: Ledger>(
    alloc: Global,
    queue: &Queue,
    slot: u16,
    objects: &[ObjectId],
    steps: &mut Steps<L>,
) -> Result<ConsistentCut, AllocError>
    requires objects { may_be_observed queue.now.shape.objects (numbers_of objects.now) ≡ true }
    requires marks { MarksAreClosed queue.now slot }
    requires room { last_position queue.now < 2 ^ 32 - 1 }
    ensures last { IfOk result (λ c. c.last ≡ latest_cut queue.now slot (numbers_of objects.now)) }
    ensures items { IfOk result (λ c. c.items ≡ lacking_to_see queue.now slot (numbers_of objects.now) (latest_cut queue.now slot (numbers_of objects.now))) }
    ensures head { IfOk result (λ c. numbers_of c.head ≡ bases_to_see queue.now slot (numbers_of objects.now) (latest_cut queue.now slot (numbers_of objects.now))) }
    ensures ticks { (b : ℕ) → last_position queue.now - queue.now.commit ≤ 2 ^ b → steps.new ≤ steps.old + most_to_see * (b + 2) }
{
    let last = queue.last();
    if let Some(found) = see(alloc, queue, slot, objects, last, steps)? {
        return cut_at(alloc, queue, last, found);
    }
    let last = greatest_seen(alloc, queue, slot, objects, steps)?;
    match see(alloc, queue, slot, objects, last, steps)? {
        Some(found) => cut_at(alloc, queue, last, found),
        None => unreachable!(),
    }
}

fn cut_at(
    alloc: Global,
    queue: &Queue,
    last: u32,
    found: Found,
) -> Result<ConsistentCut, AllocError>
    requires { All (λ x. x < queue.now.shape.objects) found.bases }
    ensures last { IfOk result (λ c. c.last ≡ last) }
    ensures items { IfOk result (λ c. c.items ≡ found.items.items) }
    ensures head { IfOk result (λ c. numbers_of c.head ≡ found.bases) }
    ensures ascending { is_ascending found.bases ≡ true }
{
    let shape = queue.shape();
    prove!(shape.objects <= MOST_OBJECTS);
    let closure = listed(alloc, found)?;
    Ok(ConsistentCut {
        last,
        items: closure.items,
        head: closure.head,
    })
}

/// By halves, between a position at which a session lacks few enough and one at which it lacks too much.
fn greatest_seen<L: Ledger>(
    alloc: Global,
    queue: &Queue,
    slot: u16,
    objects: &[ObjectId],
    steps: &mut Steps<L>,
) -> Result<u32, AllocError>
    requires objects { may_be_observed queue.now.shape.objects (numbers_of objects.now) ≡ true }
    requires marks { MarksAreClosed queue.now slot }
    requires room { last_position queue.now < 2 ^ 32 - 1 }
    requires many { most_items < length (lacking_to_see queue.now slot (numbers_of objects.now) (last_position queue.now)) }
    ensures greatest { IfOk result (λ n. n ≡ latest_cut queue.now slot (numbers_of objects.now)) }
    ensures ticks { (b : ℕ) → last_position queue.now - queue.now.commit ≤ 2 ^ b → steps.new ≤ steps.old + most_to_see * b }
{
    let mut few = queue.commit();
    let mut many = queue.last();
    while many - few > 1 {
        let middle = few + (many - few) / 2;
        if lacks_few(alloc, queue, slot, objects, middle, steps)? {
            few = middle;
        } else {
            many = middle;
        }
    }
    Ok(few)
}

fn lacks_few<L: Ledger>(
    alloc: Global,
    queue: &Queue,
    slot: u16,
    objects: &[ObjectId],
    pos: u32,
    steps: &mut Steps<L>,
) -> Result<bool, AllocError>
    requires objects { may_be_observed queue.now.shape.objects (numbers_of objects.now) ≡ true }
    requires pos { (queue.now.commit ≤ pos) × (pos ≤ last_position queue.now) }
    requires room { last_position queue.now < 2 ^ 32 - 1 }
    ensures few { IfOk result (λ b. b ≡ nat_le (length (lacking_to_see queue.now slot (numbers_of objects.now) pos)) most_items) }
    ensures ticks { steps.new ≤ steps.old + most_to_see }
{
    let found = see(alloc, queue, slot, objects, pos, steps)?;
    Ok(found.is_some())
}

/// What a session lacks of objects at a position, where it is few enough. It stops as soon as one more is wanted. Where nothing is, it
/// takes no memory.
fn see<L: Ledger>(
    alloc: Global,
    queue: &Queue,
    slot: u16,
    objects: &[ObjectId],
    pos: u32,
    steps: &mut Steps<L>,
) -> Result<Option<Found>, AllocError>
    requires objects { may_be_observed queue.now.shape.objects (numbers_of objects.now) ≡ true }
    requires pos { (queue.now.commit ≤ pos) × (pos ≤ last_position queue.now) }
    requires room { last_position queue.now < 2 ^ 32 - 1 }
    ensures items { IfOk result (λ o. IfSome o (λ f. f.items.items ≡ lacking_to_see queue.now slot (numbers_of objects.now) pos)) }
    ensures bases { IfOk result (λ o. IfSome o (λ f. (x : ℕ) → is_in x f.bases ≡ is_in x (bases_to_see queue.now slot (numbers_of objects.now) pos))) }
    ensures few { IfOk result (λ o. IfSome o (λ f. length (lacking_to_see queue.now slot (numbers_of objects.now) pos) ≤ most_items)) }
    ensures many { IfOk result (λ o. IfNone o (most_items < length (lacking_to_see queue.now slot (numbers_of objects.now) pos))) }
    ensures ticks { steps.new ≤ steps.old + most_to_see }
{
    let mut missing = Missing::new(alloc);
    missing.read_below(queue, slot, objects, pos + 1, steps)?;
    let mut items = Vec::with_capacity(alloc, missing.room())?;
    while let Some(greatest) = missing.wanted.pop() {
        if items.len() == MOST_ITEMS {
            return Ok(None);
        }
        items.push(greatest)?;
        missing.expand(queue, slot, greatest, steps)?;
    }
    items.reverse();
    let Missing { bases, .. } = missing;
    Ok(Some(Found { items, bases }))
}
