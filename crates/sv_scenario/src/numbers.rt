//! Numbers and lists of a scenario file, and the values of its objects.

ghost use Rattle.std.specs.Prelude.{◌≡◌, ◌≤◌, [], length, vec_len, IfOk};
ghost use Rattle.serde_json.specs.View.{view, items_view};
ghost use Rattle.sv_scenario.specs.Faults.{Gives, each};
ghost use Rattle.sv_scenario.specs.Numbers.{whole_number, number_within, attribute_of, list_within, value_of, values_of};

use crate::place::{at_place, refuse};
use crate::{ReadFault, ScenarioCause};
use serde_json::Value;
use std::alloc::Global;
use sv_world::Value as ObjectValue;

#[tactic(auto, unfolding(crate::specs::Numbers::whole_number))]
fn whole_number(alloc: Global, value: &Value) -> Result<i128, ReadFault>
    ensures { Gives (λ n. n) result (whole_number (view value.now)) }
{
    let number = match value.as_number() {
        Some(number) => number.as_i128(),
        None => None,
    };
    match number {
        Some(number) => Ok(number),
        None => Err(refuse(alloc, ScenarioCause::Kind)),
    }
}

/// A whole number in a range.
#[tactic(auto, unfolding(crate::specs::Numbers::number_within))]
pub fn number_within(alloc: Global, low: u32, high: u32, value: &Value) -> Result<u32, ReadFault>
    ensures reads { Gives (λ n. n) result (number_within low high (view value.now)) }
    ensures high { IfOk result (λ n. n ≤ high) }
{
    let number = whole_number(alloc, value)?;
    if i128::from(low) <= number && number <= i128::from(high) {
        Ok(number as u32)
    } else {
        Err(refuse(alloc, ScenarioCause::Range))
    }
}

#[tactic(auto, unfolding(crate::specs::Numbers::attribute_of))]
fn attribute_of(alloc: Global, value: &Value) -> Result<i64, ReadFault>
    ensures { Gives (λ n. n) result (attribute_of (view value.now)) }
{
    let number = whole_number(alloc, value)?;
    if i128::from(i64::MIN) <= number && number <= i128::from(i64::MAX) {
        Ok(number as i64)
    } else {
        Err(refuse(alloc, ScenarioCause::Range))
    }
}

/// The items of a list of low to high of them.
#[tactic(auto, unfolding(crate::specs::Numbers::list_within), using(crate::proofs::Counts::count_items_is))]
pub fn list_within(
    alloc: Global,
    low: usize,
    high: usize,
    value: &Value,
) -> Result<&[Value], ReadFault>
    ensures reads { Gives (λ items. items_view items.now) result (list_within low high (view value.now)) }
    ensures low { IfOk result (λ items. low ≤ length items.now) }
    ensures high { IfOk result (λ items. length items.now ≤ high) }
{
    let Some(items) = value.as_array() else {
        return Err(refuse(alloc, ScenarioCause::Kind));
    };
    if low <= items.len() && items.len() <= high {
        Ok(items.as_slice())
    } else {
        Err(refuse(alloc, ScenarioCause::Range))
    }
}

fn attributes(alloc: Global, values: &[Value]) -> Result<Vec<i64>, ReadFault>
    ensures { Gives (λ v. v.items) result (each attribute_of [] (items_view values.now)) }
{
    let mut numbers = Vec::new(alloc);
    let mut rest = values;
    while let [value, tail @ ..] = rest {
        let number = at_place(alloc, numbers.len(), attribute_of(alloc, value))?;
        numbers.push(number)?;
        rest = tail;
    }
    Ok(numbers)
}

#[tactic(auto, unfolding(crate::specs::Numbers::value_of))]
fn value_of(alloc: Global, attrs: u32, value: &Value) -> Result<ObjectValue, ReadFault>
    ensures { Gives (λ v. v) result (value_of attrs (view value.now)) }
{
    let numbers = list_within(alloc, attrs as usize, attrs as usize, value)?;
    Ok(ObjectValue::from_vec(attributes(alloc, numbers)?))
}

/// The values of these objects, each of so many numbers.
pub fn each_value(
    alloc: Global,
    attrs: u32,
    values: &[Value],
) -> Result<Vec<ObjectValue>, ReadFault>
    ensures reads { Gives (λ v. v.items) result (each (value_of attrs) [] (items_view values.now)) }
    ensures count { IfOk result (λ v. vec_len v ≡ length values.now) }
{
    let mut all = Vec::new(alloc);
    let mut rest = values;
    while let [value, tail @ ..] = rest {
        let numbers = at_place(alloc, all.len(), value_of(alloc, attrs, value))?;
        all.push(numbers)?;
        rest = tail;
    }
    Ok(all)
}

/// The values of all objects, at most so many, each of so many numbers.
#[tactic(auto, unfolding(crate::specs::Numbers::values_of))]
pub(crate) fn values_of(
    alloc: Global,
    most: u16,
    attrs: u32,
    value: &Value,
) -> Result<Vec<ObjectValue>, ReadFault>
    ensures reads { Gives (λ v. v.items) result (values_of most attrs (view value.now)) }
    ensures count { IfOk result (λ v. vec_len v ≤ most) }
{
    let values = list_within(alloc, 1, most as usize, value)?;
    each_value(alloc, attrs, values)
}
