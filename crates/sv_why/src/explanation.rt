//! Why an object has its value at a position.
ghost use Rattle.std.specs.Prelude.{◌≡◌, ◌<◌, ◌≤◌, [], length, reverse, slice_index_or, All, IfOk};
ghost use Rattle.sv_journal.specs.History.{accepted, actions_of};
ghost use Rattle.sv_why.specs.Reasons.{world_by, Explains};

use crate::Why;
use crate::execution::{execute, value_of};
use crate::reasons::reasons_of;
use law_system::Played;
use std::alloc::{AllocError, Global};
use sv_journal::Journal;
use sv_scenario::Scenario;
use sv_world::{ObjectId, Value, copy_values};

/// The value that the actions at some positions alone give an object, executed in order on a copy of the opening world.
fn value_alone(
    alloc: Global,
    opening: &[Value],
    journal: &Journal,
    positions: &[u32],
    object: ObjectId,
) -> Result<Value, AllocError>
    requires { All (λ p. (1 ≤ p) × (p ≤ length (accepted (reverse journal.now.entries)))) positions.now }
    ensures { IfOk result (λ value. value ≡ slice_index_or (world_by opening.now (actions_of (reverse journal.now.entries)) positions.now) object.0 []) }
{
    let mut world = copy_values(alloc, opening)?;
    for pos in positions {
        execute(alloc, journal.accepted(*pos), &mut world)?;
    }
    value_of(alloc, world.as_slice(), object)
}

/// Why an object has its value after the first `pos` accepted actions of what was played: the positions of the actions that the value comes
/// from, and the value that these give alone, which is the serial one.
///
/// It holds for every journal, legal or not. The time is in proportion to the journal, and the memory to its positions and the world.
pub fn why(
    alloc: Global,
    scenario: &Scenario,
    played: &Played,
    object: ObjectId,
    pos: u32,
) -> Result<Why, AllocError>
    requires { pos ≤ length (accepted (reverse played.now.journal.entries)) }
    ensures { IfOk result (λ w. Explains scenario.now.world.values (actions_of (reverse played.now.journal.entries)) object.0 pos w.positions w.value) }
{
    let positions = reasons_of(alloc, &played.journal, object, pos)?;
    let value = value_alone(
        alloc,
        scenario.world.values.as_slice(),
        &played.journal,
        positions.as_slice(),
        object,
    )?;
    Ok(Why { positions, value })
}
