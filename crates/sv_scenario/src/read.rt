//! From the bytes of a file to its scenario.

ghost use Rattle.std.specs.Prelude.{◌≡◌, ◌≤◌, ◌∷◌, [], codes, length, vec_len, IfOk, None};
ghost use Rattle.serde_json.specs.Errors.{IsMemory};
ghost use Rattle.serde_json.specs.Read.{read};
ghost use Rattle.serde_json.specs.View.{view};
ghost use Rattle.sv_world.specs.Limits.{most_clients, most_sessions};
ghost use Rattle.sv_scenario.specs.Faults.{Gives};
ghost use Rattle.sv_scenario.specs.Keys.{keys_of, value_at, value_if};
ghost use Rattle.sv_scenario.specs.Limits.{IsGoodScenario};
ghost use Rattle.sv_scenario.specs.Numbers.{number_within, values_of};
ghost use Rattle.sv_scenario.specs.Scenarios.{world_of, reach_of, clients_of, scenario_in, scenario_of, value_in};
ghost use Rattle.sv_scenario.specs.Sessions.{sessions_in};
ghost use Rattle.sv_scenario.specs.Turns.{turns_of};

use crate::clients::clients_of;
use crate::keys::{keys_of, needed};
use crate::numbers::{number_within, values_of};
use crate::place::{at_key, refuse};
use crate::sessions::sessions_in;
use crate::turns::turns_of;
use crate::{Plan, ReadFault, Scenario, ScenarioCause, Turn};
use serde_json::Value;
use std::alloc::Global;
use sv_lists::List;
use sv_world::{
    MOST_ATTRS, MOST_BOUND, MOST_REACH, MOST_SCENARIO_OBJECTS, Shape, Value as ObjectValue, World,
};

/// The bytes that a file may have.
pub const MOST_SCENARIO_BYTES: usize = 4_194_304;

/// The whole number of a key, in a range.
pub fn number_of_key(
    alloc: Global,
    key: &str,
    low: u32,
    high: u32,
    value: &Value,
) -> Result<u32, ReadFault>
    ensures reads { Gives (λ n. n) result (value_at key.now (number_within low high) (view value.now)) }
    ensures high { IfOk result (λ n. n ≤ high) }
{
    let number = needed(alloc, key, value)?;
    at_key(alloc, key, number_within(alloc, low, high, number))
}

fn values_in(
    alloc: Global,
    most: u16,
    attrs: u32,
    value: &Value,
) -> Result<Vec<ObjectValue>, ReadFault>
    ensures reads { Gives (λ v. v.items) result (value_at (codes "objects") (values_of most attrs) (view value.now)) }
    ensures count { IfOk result (λ v. vec_len v ≤ most) }
{
    let values = needed(alloc, "objects", value)?;
    at_key(alloc, "objects", values_of(alloc, most, attrs, values))
}

/// A world of at most so many objects, by the keys `attrs` and `objects`.
#[tactic(auto, unfolding(crate::specs::Scenarios::world_of))]
pub fn world_of(alloc: Global, most: u16, value: &Value) -> Result<World, ReadFault>
    ensures { Gives (λ w. w) result (world_of most (view value.now)) }
{
    let attrs = number_of_key(alloc, "attrs", 1, MOST_ATTRS as u32, value)?;
    let values = values_in(alloc, most, attrs, value)?;
    let shape = Shape {
        objects: values.len() as u16,
        attrs: attrs as u8,
    };
    Ok(World {
        shape,
        values: List::from_vec(values),
    })
}

#[tactic(auto, unfolding(crate::specs::Scenarios::reach_of))]
fn reach_of(alloc: Global, value: &Value) -> Result<Option<u32>, ReadFault>
    ensures { Gives (λ n. n) result (reach_of (view value.now)) }
{
    let reach = number_within(alloc, 0, MOST_REACH, value)?;
    Ok(Some(reach))
}

/// The reach, where there is one.
pub fn reach_in(alloc: Global, value: &Value) -> Result<Option<u32>, ReadFault>
    ensures { Gives (λ n. n) result (value_if (codes "reach") None reach_of (view value.now)) }
{
    match value.get("reach") {
        Some(reach) => at_key(alloc, "reach", reach_of(alloc, reach)),
        None => Ok(None),
    }
}

fn clients_in(alloc: Global, shape: Shape, value: &Value) -> Result<List<Plan>, ReadFault>
    ensures reads { Gives (λ v. v) result (value_at (codes "clients") (clients_of shape) (view value.now)) }
    ensures count { IfOk result (λ v. length v ≤ most_clients) }
    ensures sessions { IfOk result (λ v. sessions_in v ≤ most_sessions) }
{
    let clients = needed(alloc, "clients", value)?;
    at_key(alloc, "clients", clients_of(alloc, shape, clients))
}

fn schedule_in(alloc: Global, clients: &[Plan], value: &Value) -> Result<List<Turn>, ReadFault>
    requires count { length clients.now ≤ most_clients }
    requires sessions { sessions_in clients.now ≤ most_sessions }
    ensures { Gives (λ v. v) result (value_if (codes "schedule") [] (turns_of (length clients.now) (sessions_in clients.now)) (view value.now)) }
{
    let sessions = sessions_in(clients);
    match value.get("schedule") {
        Some(turns) => {
            let turns = turns_of(alloc, clients.len() as u16, sessions, turns);
            at_key(alloc, "schedule", turns)
        }
        None => Ok(List::new(alloc)),
    }
}

#[tactic(auto, unfolding(crate::specs::Scenarios::scenario_in))]
fn scenario_in(alloc: Global, value: &Value) -> Result<Scenario, ReadFault>
    ensures { Gives (λ s. s) result (scenario_in (view value.now)) }
{
    keys_of(
        alloc,
        &["attrs", "objects", "bound", "clients"],
        &["reach", "schedule"],
        value,
    )?;
    let world = world_of(alloc, MOST_SCENARIO_OBJECTS, value)?;
    let bound = number_of_key(alloc, "bound", 0, MOST_BOUND as u32, value)?;
    let reach = reach_in(alloc, value)?;
    let clients = clients_in(alloc, world.shape, value)?;
    let schedule = schedule_in(alloc, clients.as_slice(), value)?;
    Ok(Scenario {
        world,
        bound: bound as u8,
        reach,
        clients,
        schedule,
    })
}

fn fault_of(alloc: Global, error: &serde_json::Error) -> ReadFault
    ensures memory { IsMemory error.now → result ≡ ReadFault.Memory }
    ensures json { ¬ IsMemory error.now → result ≡ ReadFault.Scenario (record { path = []; cause = ScenarioCause.Json }) }
{
    if error.is_memory() {
        ReadFault::Memory
    } else {
        refuse(alloc, ScenarioCause::Json)
    }
}

/// The JSON value that a text is.
pub fn value_in(alloc: Global, text: &str) -> Result<Value, ReadFault>
    ensures { Gives (λ v. view v) result (value_in text.now) }
{
    match Value::from_str(alloc, text) {
        Ok(value) => Ok(value),
        Err(error) => Err(fault_of(alloc, &error)),
    }
}

#[tactic(auto, unfolding(crate::specs::Scenarios::scenario_of), using(crate::proofs::Utf8::is_text, crate::proofs::Utf8::is_no_text))]
fn scenario_of(alloc: Global, bytes: &[u8]) -> Result<Scenario, ReadFault>
    ensures { Gives (λ s. s) result (scenario_of bytes.now) }
{
    if bytes.len() > MOST_SCENARIO_BYTES {
        return Err(refuse(alloc, ScenarioCause::Size));
    }
    let Ok(text) = str::from_utf8(bytes) else {
        return Err(refuse(alloc, ScenarioCause::Json));
    };
    let value = value_in(alloc, text)?;
    scenario_in(alloc, &value)
}

/// Reads a scenario from the bytes of its file.
///
/// The bytes are a JSON object with the keys `attrs`, `objects`, `bound`, `clients` and, where wanted, `reach` and `schedule`. A fault
/// is the first one: the size of the file, JSON, and then the value from its top, where an object's keys come before their values, and
/// a list's length before its elements.
#[tactic(auto, using(crate::proofs::Kept::read_is_good))]
pub fn read_scenario(alloc: Global, bytes: &[u8]) -> Result<Scenario, ReadFault>
    // The scenario that the bytes are, or their first fault.
    ensures exact { Gives (λ scenario. scenario) result (scenario_of bytes.now) }
    ensures good { IfOk result IsGoodScenario }
{
    scenario_of(alloc, bytes)
}
