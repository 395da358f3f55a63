//! Cuts of queues whose marks are looked at first, as a cut is asked of those alone whose marks are closed.
ghost use Rattle.std.specs.Prelude.{◌≡◌, ℕ, ◌+◌, ◌-◌, ◌*◌, ◌^◌, ◌<◌, ◌≤◌, true, IsTrue};
ghost use Rattle.sv_world.specs.Control.{is_in, action_at, last_writer};
ghost use Rattle.sv_world.specs.Faults.{may_be_observed};
ghost use Rattle.sv_world.specs.Sets.{read_set, numbers_of};
ghost use Rattle.sv_queue.specs.Queue.{IsUncommitted, last_position, queue_actions, sent_positions};
ghost use Rattle.sv_influence.specs.Lacking.{MarksAreClosed};

use std::alloc::{AllocError, Global};
use std::sync::ledger::Ledger;
use sv_influence::{ConsistentCut, cut};
use sv_queue::{Queue, Steps};
use sv_world::{ObjectId, may_be_observed};

/// Whether all that a position reads from is committed or marked.
fn reads_marked<L: Ledger>(queue: &Queue, pos: u32, session: u16, steps: &mut Steps<L>) -> bool
    requires { IsUncommitted queue.now pos }
    ensures { IsTrue result → (x : ℕ) → is_in x (read_set (action_at (queue_actions queue.now) pos)) ≡ true → queue.now.commit < last_writer (queue_actions queue.now) x pos → is_in (last_writer (queue_actions queue.now) x pos) (sent_positions queue.now session) ≡ true }
{
    let entry = queue.entry(pos, steps);
    for slot in 0..entry.action.reads.len() {
        let writer = queue.source(pos, slot, steps);
        if writer > queue.commit() && !queue.is_marked(writer, session, steps) {
            return false;
        }
    }
    true
}

/// Whether the marks of a session are closed.
fn has_closed_marks<L: Ledger>(queue: &Queue, session: u16, steps: &mut Steps<L>) -> bool
    ensures { IsTrue result → MarksAreClosed queue.now session }
{
    for before in queue.commit()..queue.last() {
        let pos = before + 1;
        if queue.is_marked(pos, session, steps) && !reads_marked(queue, pos, session, steps) {
            return false;
        }
    }
    true
}

/// At most 1,024 uncommitted positions take 10 halvings.
fn cut_of_many<L: Ledger>(
    alloc: Global,
    queue: &Queue,
    session: u16,
    objects: &[ObjectId],
    steps: &mut Steps<L>,
) -> Result<ConsistentCut, AllocError>
    requires objects { may_be_observed queue.now.shape.objects (numbers_of objects.now) ≡ true }
    requires marks { MarksAreClosed queue.now session }
    requires room { last_position queue.now < 2 ^ 32 - 1 }
    ensures looks { last_position queue.now - queue.now.commit ≤ 1024 → steps.new ≤ steps.old + 13452 }
{
    cut(alloc, queue, session, objects, steps)
}

/// The cut of these objects, where they may be observed and the session's marks are closed.
pub fn cut_of<L: Ledger>(
    alloc: Global,
    queue: &Queue,
    session: u16,
    objects: &[ObjectId],
    steps: &mut Steps<L>,
) -> Result<Option<ConsistentCut>, AllocError> {
    if queue.last() == u32::MAX
        || !may_be_observed(queue.shape().objects, objects)
        || !has_closed_marks(queue, session, steps)
    {
        return Ok(None);
    }
    Ok(Some(cut_of_many(alloc, queue, session, objects, steps)?))
}

/// The position of a cut that has just these items and objects; else, or where there is no cut, the greatest number.
pub fn shown<L: Ledger>(
    alloc: Global,
    queue: &Queue,
    session: u16,
    objects: &[ObjectId],
    due: (&[u32], &[ObjectId]),
    steps: &mut Steps<L>,
) -> Result<u32, AllocError> {
    let Some(cut) = cut_of(alloc, queue, session, objects, steps)? else {
        return Ok(u32::MAX);
    };
    if cut.items.as_slice() == due.0 && cut.head.as_slice() == due.1 {
        return Ok(cut.last);
    }
    Ok(u32::MAX)
}
