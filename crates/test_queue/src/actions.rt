//! Worlds, and actions without a body.
ghost use Rattle.std.specs.Prelude.{◌≡◌, ◌≤◌, [], ◌∷◌, IfOk};
ghost use Rattle.sv_world.specs.Worlds.{IsGoodWorld};

use std::alloc::{AllocError, Global};
use sv_lists::List;
use sv_world::{Action, Body, ObjectId, Point, Reads, Shape, Value, World};

pub fn value(alloc: Global, number: i64) -> Result<Value, AllocError>
    ensures { IfOk result (λ value. value ≡ number ∷ []) }
{
    let mut value = Value::new(alloc);
    value.push(number)?;
    Ok(value)
}

/// A world of objects of one number each, all 0.
pub fn world(alloc: Global, objects: u16) -> Result<World, AllocError>
    requires some { 1 ≤ objects }
    requires few { objects ≤ 4096 }
    ensures { IfOk result IsGoodWorld }
{
    let mut values = List::new(alloc);
    for _ in 0..objects {
        values.push(value(alloc, 0)?)?;
    }
    let shape = Shape { objects, attrs: 1 };
    Ok(World { shape, values })
}

/// An action that reads these objects and writes those of a mask.
fn acting(alloc: Global, reads: Reads, mask: u16, x: i32, y: i32) -> Result<Action, AllocError> {
    let body = Body::from_stmts(alloc, &[])?;
    Ok(Action {
        reads,
        mask,
        origin: Point { x, y },
        body,
    })
}

/// Reads the objects of a set of bits and writes those of another; made at a point.
pub fn action(alloc: Global, sets: (u64, u64), at: (i32, i32)) -> Result<Action, AllocError> {
    let mut objects = Reads::new(alloc);
    let mut mask = 0u16;
    let mut bit = 1u16;
    for object in 0..16u16 {
        if (sets.0 >> object) & 1 == 1 {
            objects.push(ObjectId(object))?;
            if (sets.1 >> object) & 1 == 1 {
                mask |= bit;
            }
            bit = bit.wrapping_mul(2);
        }
    }
    acting(alloc, objects, mask, at.0, at.1)
}

/// Reads and writes one object.
pub fn single(alloc: Global, object: u16) -> Result<Action, AllocError> {
    let mut objects = Reads::new(alloc);
    objects.push(ObjectId(object))?;
    acting(alloc, objects, 1, 0, 0)
}

/// Reads objects at equal steps and writes the first of them; made as far to the right as that one's number.
pub fn spread(alloc: Global, first: u16, step: u16, count: u16) -> Result<Action, AllocError> {
    let mut objects = Reads::new(alloc);
    let mut object = first;
    for _ in 0..count {
        objects.push(ObjectId(object))?;
        object = object.wrapping_add(step);
    }
    acting(alloc, objects, 1, i32::from(first), 0)
}
