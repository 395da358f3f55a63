//! Why an object has its value in the scheduled run of a scenario.
ghost use Rattle.sv_scenario.specs.Limits.{IsGoodScenario};

use std::alloc::{AllocError, Global};
use sv_replay::run_schedule;
use sv_scenario::{ReadFault, Scenario, read_scenario};
use sv_why::{Why, why};
use sv_world::ObjectId;

fn told_of(
    alloc: Global,
    scenario: &Scenario,
    object: u16,
    pos: u32,
) -> Result<Option<Why>, AllocError>
    requires { IsGoodScenario scenario.now }
{
    let played = run_schedule(alloc, scenario)?;
    if pos as usize > played.journal.accepted_count() {
        return Ok(None);
    }
    let told = why(alloc, scenario, &played, ObjectId(object), pos)?;
    Ok(Some(told))
}

/// What is told of the run, none where it has no such position.
fn told(alloc: Global, scenario: &str, object: u16, pos: u32) -> Result<Option<Why>, AllocError> {
    match read_scenario(alloc, scenario.as_bytes()) {
        Ok(scenario) => told_of(alloc, &scenario, object, pos),
        Err(ReadFault::Memory) => Err(AllocError),
        Err(_) => Ok(None),
    }
}

/// What is expected of an object at a position: the positions that its value comes from, and the value.
#[derive(Clone, Copy, Drop)]
pub struct Expected<'a> {
    pub positions: &'a [u32],
    pub value: &'a [i64],
}

/// Whether the run tells just what is expected.
pub fn tells(
    alloc: Global,
    scenario: &str,
    object: u16,
    pos: u32,
    expected: Expected<'_>,
) -> Result<bool, AllocError> {
    let told = told(alloc, scenario, object, pos)?;
    Ok(match &told {
        Some(why) => {
            why.positions.as_slice() == expected.positions && why.value.as_slice() == expected.value
        }
        None => false,
    })
}
