//! The world at the end of a journal.
ghost use Rattle.std.specs.Prelude.{◌≡◌, length, reverse, IfOk};
ghost use Rattle.sv_journal.specs.History.{accepted, actions_of};
ghost use Rattle.sv_why.specs.Reasons.{end_world};

use crate::execution::execute;
use law_system::Played;
use std::alloc::{AllocError, Global};
use sv_journal::Journal;
use sv_lists::List;
use sv_scenario::Scenario;
use sv_world::{Value, copy_values};

/// The world after so many accepted actions, which are all of the journal.
fn world_by(
    alloc: Global,
    opening: &[Value],
    journal: &Journal,
    last: u32,
) -> Result<List<Value>, AllocError>
    requires { last ≡ length (accepted (reverse journal.now.entries)) }
    ensures { IfOk result (λ world. world ≡ end_world opening.now (actions_of (reverse journal.now.entries))) }
{
    let mut world = copy_values(alloc, opening)?;
    let mut at = 0;
    while at < last {
        at += 1;
        execute(alloc, journal.accepted(at), &mut world)?;
    }
    Ok(world)
}

/// The position of the last accepted action, which is how many there are.
fn last_position(journal: &Journal) -> Result<u32, AllocError>
    ensures { IfOk result (λ last. last ≡ length (accepted (reverse journal.now.entries))) }
{
    let count = journal.accepted_count();
    if count > u32::MAX as usize {
        return Err(AllocError);
    }
    Ok(count as u32)
}

/// The world that all accepted actions of what was played give, executed in order from the opening world, and the last position.
///
/// It holds for every journal, legal or not. The time is in proportion to the journal, and the memory to the world. There is no memory for a
/// journal of 2 ^ 32 accepted actions or more.
pub fn world_at_end(
    alloc: Global,
    scenario: &Scenario,
    played: &Played,
) -> Result<(u32, List<Value>), AllocError>
    ensures last { IfOk result (λ r. r.0 ≡ length (accepted (reverse played.now.journal.entries))) }
    ensures world { IfOk result (λ r. r.1 ≡ end_world scenario.now.world.values (actions_of (reverse played.now.journal.entries))) }
{
    let last = last_position(&played.journal)?;
    let opening = scenario.world.values.as_slice();
    let world = world_by(alloc, opening, &played.journal, last)?;
    Ok((last, world))
}
