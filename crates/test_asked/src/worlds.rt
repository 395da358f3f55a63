//! Worlds of objects of one number each.
ghost use Rattle.std.specs.Prelude.{◌≡◌, ◌<◌, ◌≤◌, [], ◌∷◌, length, All, IfOk};
ghost use Rattle.sv_world.specs.Worlds.{IsGoodWorld};

use std::alloc::Global;
use std::test::Fail;
use sv_lists::List;
use sv_world::{Shape, Value, World};

fn value_of(alloc: Global, number: i64) -> Result<Value, Fail>
    ensures { IfOk result (λ value. value ≡ number ∷ []) }
{
    let mut value = Value::new(alloc);
    value.push(number)?;
    Ok(value)
}

/// A value of each number.
pub fn values_of(alloc: Global, numbers: &[i64]) -> Result<List<Value>, Fail>
    ensures count { IfOk result (λ values. length values ≡ length numbers.now) }
    ensures attrs { IfOk result (λ values. All (λ value. length value ≡ 1) values) }
{
    let mut values = List::new(alloc);
    for number in numbers {
        values.push(value_of(alloc, *number)?)?;
    }
    Ok(values)
}

/// The world of these objects.
pub fn world_of(alloc: Global, numbers: &[i64]) -> Result<World, Fail>
    ensures { IfOk result IsGoodWorld }
{
    if numbers.is_empty() || numbers.len() > 64 {
        return Err(Fail::new("no world has so many objects"));
    }
    let values = values_of(alloc, numbers)?;
    let shape = Shape {
        objects: numbers.len() as u16,
        attrs: 1,
    };
    Ok(World { shape, values })
}
