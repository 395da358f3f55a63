//! From the bytes of a file to what they say.

ghost use Rattle.std.specs.Prelude.{◌≡◌, codes, IfOk, None};
ghost use Rattle.serde_json.specs.View.{view};
ghost use Rattle.sv_scenario.specs.Faults.{Gives};
ghost use Rattle.sv_scenario.specs.Keys.{value_if};
ghost use Rattle.sv_worldfile.specs.Limits.{IsGoodWorldFile};
ghost use Rattle.sv_worldfile.specs.Rights.{rights_of};
ghost use Rattle.sv_worldfile.specs.WorldFiles.{results_by, results_of, world_file_in, world_file_of};

use crate::rights::rights_of;
use crate::{ReadFault, Results, ScenarioCause, WorldFile};
use serde_json::Value;
use std::alloc::Global;
use sv_lists::List;
use sv_scenario::{at_key, keys_of, number_of_key, reach_in, refuse, value_in, world_of};
use sv_world::{MOST_BOUND, MOST_OBJECTS, Right};

/// The bytes that a file may have.
pub const MOST_BYTES: usize = 16_777_216;

fn rights_in(alloc: Global, objects: u16, value: &Value) -> Result<Option<List<Right>>, ReadFault>
    ensures { Gives (λ r. r) result (value_if (codes "rights") None (rights_of objects) (view value.now)) }
{
    match value.get("rights") {
        Some(rights) => at_key(alloc, "rights", rights_of(alloc, objects, rights)),
        None => Ok(None),
    }
}

fn results_by(alloc: Global, word: &str) -> Result<Results, ReadFault>
    ensures { Gives (λ r. r) result (results_by word.now) }
{
    if word == "first" {
        Ok(Results::First)
    } else if word == "authority" {
        Ok(Results::Authority)
    } else {
        Err(refuse(alloc, ScenarioCause::Kind))
    }
}

#[tactic(auto, unfolding(crate::specs::WorldFiles::results_of))]
fn results_of(alloc: Global, value: &Value) -> Result<Results, ReadFault>
    ensures { Gives (λ r. r) result (results_of (view value.now)) }
{
    match value.as_str() {
        Some(word) => results_by(alloc, word),
        None => Err(refuse(alloc, ScenarioCause::Kind)),
    }
}

fn results_in(alloc: Global, value: &Value) -> Result<Results, ReadFault>
    ensures { Gives (λ r. r) result (value_if (codes "results") Results.First results_of (view value.now)) }
{
    match value.get("results") {
        Some(results) => at_key(alloc, "results", results_of(alloc, results)),
        None => Ok(Results::First),
    }
}

#[tactic(auto, unfolding(crate::specs::WorldFiles::world_file_in))]
fn world_file_in(alloc: Global, value: &Value) -> Result<WorldFile, ReadFault>
    ensures { Gives (λ f. f) result (world_file_in (view value.now)) }
{
    keys_of(
        alloc,
        &["attrs", "objects", "bound"],
        &["reach", "rights", "results"],
        value,
    )?;
    let world = world_of(alloc, MOST_OBJECTS, value)?;
    let bound = number_of_key(alloc, "bound", 0, MOST_BOUND as u32, value)?;
    let reach = reach_in(alloc, value)?;
    let rights = rights_in(alloc, world.shape.objects, value)?;
    let results = results_in(alloc, value)?;
    Ok(WorldFile {
        world,
        bound: bound as u8,
        reach,
        rights,
        results,
    })
}

#[tactic(auto, unfolding(crate::specs::WorldFiles::world_file_of), using(sv_scenario::proofs::Utf8::is_text, sv_scenario::proofs::Utf8::is_no_text))]
fn world_file_of(alloc: Global, bytes: &[u8]) -> Result<WorldFile, ReadFault>
    ensures { Gives (λ f. f) result (world_file_of bytes.now) }
{
    if bytes.len() > MOST_BYTES {
        return Err(refuse(alloc, ScenarioCause::Size));
    }
    let Ok(text) = str::from_utf8(bytes) else {
        return Err(refuse(alloc, ScenarioCause::Json));
    };
    let value = value_in(alloc, text)?;
    world_file_in(alloc, &value)
}

/// Reads a world from the bytes of its file.
///
/// The bytes are a JSON object with the keys `attrs`, `objects`, `bound` and, where wanted, `reach`, `rights` and `results`. A fault is
/// the first one: the size of the file, JSON, and then the value from its top, where an object's keys come before their values, and a
/// list's length before its elements.
#[tactic(auto, using(crate::proofs::Kept::read_is_good))]
pub fn read_world(alloc: Global, bytes: &[u8]) -> Result<WorldFile, ReadFault>
    // What the bytes mean, or their first fault.
    ensures exact { Gives (λ file. file) result (world_file_of bytes.now) }
    ensures good { IfOk result IsGoodWorldFile }
{
    world_file_of(alloc, bytes)
}
