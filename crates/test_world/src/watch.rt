//! Tests of the callbacks that are told of changes.
ghost use Rattle.std.specs.Prelude.{◌≡◌, IfOk, All};
ghost use Rattle.sv_watch.specs.Told.{HasLength, IsChangeIn};

use std::alloc::{AllocError, Global};
use std::test::Fail;
use sv_watch::{Change, Line, Watch, told_line};
use sv_world::{ClientId, ObjectId, Shape, Value};

fn view(alloc: Global, number: Option<i64>) -> Result<Option<Value>, AllocError>
    ensures { IfOk result (HasLength 1) }
{
    match number {
        None => Ok(None),
        Some(number) => Ok(Some(Value::from_slice(alloc, &[number])?)),
    }
}

/// A change of the only object of a world of one number.
fn change(
    alloc: Global,
    event: u32,
    old: Option<i64>,
    new: Option<i64>,
) -> Result<Change, AllocError>
    ensures { IfOk result (IsChangeIn (record { objects = 1; attrs = 1 })) }
{
    let old = view(alloc, old)?;
    let new = view(alloc, new)?;
    Ok(Change {
        client: ClientId(0),
        object: ObjectId(0),
        event,
        old,
        new,
    })
}

fn is_shared<T: Sync>(_value: &T) -> bool {
    true
}

/// What a watch that other threads may use tells of changes.
fn told(alloc: Global, changes: &[Change]) -> Result<Vec<Line>, AllocError>
    requires { All (IsChangeIn (record { objects = 1; attrs = 1 })) changes.now }
{
    let callback = Box::new(alloc, move |change: &Change| told_line(alloc, change))?;
    let shape = Shape {
        objects: 1,
        attrs: 1,
    };
    let watch = Watch::new(shape, callback);
    let mut lines = Vec::new(alloc);
    if is_shared(&watch) {
        watch.tell(changes, &mut lines)?;
    }
    Ok(lines)
}

#[test]
fn tells_changes(rt: HostRuntime) -> Result<(), Fail> {
    let first = change(rt.alloc(), 2, None, Some(5))?;
    let second = change(rt.alloc(), 3, Some(5), Some(6))?;
    let lines = told(rt.alloc(), &[first, second])?;
    let texts = match lines.as_slice() {
        [first, second] => (first.as_str(), second.as_str()),
        _ => ("", ""),
    };
    assert!(rt; texts == ("told c0 2 0 ? -> (5)", "told c0 3 0 (5) -> (6)"));
    Ok(())
}

/// The line of a change of three numbers to an unknown view.
fn long_line(alloc: Global) -> Result<Line, AllocError> {
    let old = Some(Value::from_slice(alloc, &[-1, 0, 7])?);
    let change = Change {
        client: ClientId(31),
        object: ObjectId(4095),
        event: 1024,
        old,
        new: None,
    };
    told_line(alloc, &change)
}

#[test]
fn tells_all_numbers(rt: HostRuntime) -> Result<(), Fail> {
    let line = long_line(rt.alloc())?;
    assert!(rt; line.as_str() == "told c31 1024 4095 (-1,0,7) -> ?");
    Ok(())
}
