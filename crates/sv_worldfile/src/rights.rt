//! The rights of a world file.

ghost use Rattle.std.specs.Prelude.{◌≡◌, [], codes};
ghost use Rattle.serde_json.specs.View.{view, items_view};
ghost use Rattle.sv_scenario.specs.Faults.{Gives, each};
ghost use Rattle.sv_scenario.specs.Keys.{value_at};
ghost use Rattle.sv_worldfile.specs.Rights.{next_client, pair_of, clients_of, objects_of, right_of, rights_of};

use serde_json::Value;
use std::alloc::Global;
use sv_lists::List;
use sv_scenario::{
    ReadFault, ScenarioCause, at_key, at_place, keys_of, list_within, needed, next_object,
    number_within, refuse,
};
use sv_world::{NumberRange, Right};

/// The rights that a file may have.
const MOST_RIGHTS: usize = 65_536;

/// A client's number that is at least so great.
#[tactic(auto, unfolding(crate::specs::Rights::next_client))]
fn next_client(alloc: Global, least: u16, value: &Value) -> Result<u16, ReadFault>
    ensures { Gives (λ n. n) result (next_client least (view value.now)) }
{
    let number = number_within(alloc, 0, 65_535, value)?;
    if u32::from(least) <= number {
        Ok(number as u16)
    } else {
        Err(refuse(alloc, ScenarioCause::Order))
    }
}

/// The first and the last of a list of two.
#[tactic(auto, unfolding(crate::specs::Rights::pair_of), using(crate::proofs::Pairs::too_few, crate::proofs::Pairs::too_many))]
fn pair_of(alloc: Global, value: &Value) -> Result<(&Value, &Value), ReadFault>
    ensures { Gives (λ p. (view p.0.now, view p.1.now)) result (pair_of (view value.now)) }
{
    let Some(items) = value.as_array() else {
        return Err(refuse(alloc, ScenarioCause::Kind));
    };
    match items.as_slice() {
        [first, last] => Ok((first, last)),
        // More than two and fewer are proved apart.
        [_, _, _, ..] => Err(refuse(alloc, ScenarioCause::Range)),
        _ => Err(refuse(alloc, ScenarioCause::Range)),
    }
}

/// From a first client to a last one.
#[tactic(auto, unfolding(crate::specs::Rights::clients_of))]
fn clients_of(alloc: Global, value: &Value) -> Result<NumberRange, ReadFault>
    ensures { Gives (λ r. r) result (clients_of (view value.now)) }
{
    let (first, last) = pair_of(alloc, value)?;
    let first = at_place(alloc, 0, next_client(alloc, 0, first))?;
    let last = at_place(alloc, 1, next_client(alloc, first, last))?;
    Ok(NumberRange { first, last })
}

/// From a first object to a last one.
#[tactic(auto, unfolding(crate::specs::Rights::objects_of))]
fn objects_of(alloc: Global, objects: u16, value: &Value) -> Result<NumberRange, ReadFault>
    ensures { Gives (λ r. r) result (objects_of objects (view value.now)) }
{
    let (first, last) = pair_of(alloc, value)?;
    let first = at_place(alloc, 0, next_object(alloc, objects, 0, first))?;
    let last = next_object(alloc, objects, u32::from(first.0), last);
    let last = at_place(alloc, 1, last)?;
    Ok(NumberRange {
        first: first.0,
        last: last.0,
    })
}

fn clients_in(alloc: Global, value: &Value) -> Result<NumberRange, ReadFault>
    ensures { Gives (λ r. r) result (value_at (codes "clients") clients_of (view value.now)) }
{
    let clients = needed(alloc, "clients", value)?;
    at_key(alloc, "clients", clients_of(alloc, clients))
}

fn objects_in(alloc: Global, objects: u16, value: &Value) -> Result<NumberRange, ReadFault>
    ensures { Gives (λ r. r) result (value_at (codes "objects") (objects_of objects) (view value.now)) }
{
    let written = needed(alloc, "objects", value)?;
    at_key(alloc, "objects", objects_of(alloc, objects, written))
}

#[tactic(auto, unfolding(crate::specs::Rights::right_of))]
fn right_of(alloc: Global, objects: u16, value: &Value) -> Result<Right, ReadFault>
    ensures { Gives (λ r. r) result (right_of objects (view value.now)) }
{
    keys_of(alloc, &["clients", "objects"], &[], value)?;
    let clients = clients_in(alloc, value)?;
    let objects = objects_in(alloc, objects, value)?;
    Ok(Right { clients, objects })
}

fn each_right(alloc: Global, objects: u16, values: &[Value]) -> Result<Vec<Right>, ReadFault>
    ensures { Gives (λ v. v.items) result (each (right_of objects) [] (items_view values.now)) }
{
    let mut all = Vec::new(alloc);
    let mut rest = values;
    while let [value, tail @ ..] = rest {
        let right = at_place(alloc, all.len(), right_of(alloc, objects, value))?;
        all.push(right)?;
        rest = tail;
    }
    Ok(all)
}

/// The rights over a world of so many objects.
#[tactic(auto, unfolding(crate::specs::Rights::rights_of))]
pub(crate) fn rights_of(
    alloc: Global,
    objects: u16,
    value: &Value,
) -> Result<Option<List<Right>>, ReadFault>
    ensures { Gives (λ r. r) result (rights_of objects (view value.now)) }
{
    let values = list_within(alloc, 0, MOST_RIGHTS, value)?;
    let rights = each_right(alloc, objects, values)?;
    Ok(Some(List::from_vec(rights)))
}
