//! Equal copies of values, objects and actions.
ghost use Rattle.std.specs.Prelude.{◌≡◌, IfOk};

use crate::{Action, ObjectId, Reads, Value};
use std::alloc::{AllocError, Global};
use sv_lists::List;

/// An equal copy.
pub fn copy_value(alloc: Global, value: &Value) -> Result<Value, AllocError>
    ensures { IfOk result (λ copy. copy ≡ value.now) }
{
    Value::from_slice(alloc, value.as_slice())
}

/// An equal copy.
pub fn copy_objects(alloc: Global, objects: &[ObjectId]) -> Result<List<ObjectId>, AllocError>
    ensures { IfOk result (λ copy. copy ≡ objects.now) }
{
    Ok(List::from_vec(Vec::from_slice(alloc, objects)?))
}

/// An equal copy.
pub fn copy_values(alloc: Global, values: &[Value]) -> Result<List<Value>, AllocError>
    ensures { IfOk result (λ copy. copy ≡ values.now) }
{
    let mut copies = Vec::with_capacity(alloc, values.len())?;
    for value in values {
        copies.push(copy_value(alloc, value)?)?;
    }
    Ok(List::from_vec(copies))
}

/// An equal copy, which shares the body.
pub fn copy_action(alloc: Global, action: &Action) -> Result<Action, AllocError>
    ensures { IfOk result (λ copy. copy ≡ action.now) }
{
    let reads = Reads::from_slice(alloc, action.reads.as_slice())?;
    let body = action.body.share()?;
    Ok(Action {
        reads,
        mask: action.mask,
        origin: action.origin,
        body,
    })
}
