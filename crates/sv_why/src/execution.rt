//! Executing one action on a whole world.
ghost use Rattle.std.specs.Prelude.{◌≡◌, [], slice_index_or, IfOk, OnOk};
ghost use Rattle.sv_world.specs.Sets.{numbers_of};
ghost use Rattle.sv_eval.specs.Serial.{put_all, values_at, world_after};

use std::alloc::{AllocError, Global};
use sv_eval::{eval, written_objects};
use sv_lists::List;
use sv_world::{Action, ObjectId, Value, copy_value};

/// An object's value, without numbers where the object is beyond the world.
pub(crate) fn value_of(
    alloc: Global,
    world: &[Value],
    object: ObjectId,
) -> Result<Value, AllocError>
    ensures { IfOk result (λ value. value ≡ slice_index_or world.now object.0 []) }
{
    match world.get(usize::from(object.0)) {
        Some(value) => copy_value(alloc, value),
        None => Ok(Value::new(alloc)),
    }
}

/// The values of some objects.
fn values_at(
    alloc: Global,
    world: &[Value],
    objects: &[ObjectId],
) -> Result<List<Value>, AllocError>
    ensures { IfOk result (λ values. values ≡ values_at world.now (numbers_of objects.now)) }
{
    let mut values = Vec::with_capacity(alloc, objects.len())?;
    for object in objects {
        values.push(value_of(alloc, world, *object)?)?;
    }
    Ok(List::from_vec(values))
}

/// Puts values on objects, one on each, in order.
fn put_all(
    alloc: Global,
    objects: &[ObjectId],
    values: &[Value],
    world: &mut List<Value>,
) -> Result<(), AllocError>
    ensures { OnOk result (world.new ≡ put_all world.old (numbers_of objects.now) values.now) }
{
    let [object, objects @ ..] = objects else {
        return Ok(());
    };
    let [value, values @ ..] = values else {
        return Ok(());
    };
    world.set(usize::from(object.0), copy_value(alloc, value)?);
    put_all(alloc, objects, values, world)
}

/// Executes an action.
pub(crate) fn execute(
    alloc: Global,
    action: &Action,
    world: &mut List<Value>,
) -> Result<(), AllocError>
    ensures { OnOk result (world.new ≡ world_after world.old action.now) }
{
    let values = values_at(alloc, world.as_slice(), action.reads.as_slice())?;
    let outcome = eval(alloc, action, values.as_slice())?;
    let written = written_objects(alloc, action)?;
    put_all(alloc, written.as_slice(), outcome.writes.as_slice(), world)
}
