//! Tests of the held versions.
ghost use Rattle.std.specs.Prelude.{◌≡◌, ◌<◌, IfOk};

use std::alloc::{AllocError, Global};
use std::test::Fail;
use sv_versions::{Undo, Versions};
use sv_world::{ObjectId, Shape, Value};

const OBJECT: ObjectId = ObjectId(1);

fn value(alloc: Global, number: i64) -> Result<Value, AllocError> {
    Value::from_slice(alloc, &[number])
}

fn number(value: Option<&Value>) -> Option<i64> {
    value?.as_slice().first().copied()
}

const TWO_OBJECTS: Shape = Shape {
    objects: 2,
    attrs: 1,
};

/// The second of two objects has these numbers at these positions.
fn filled(alloc: Global, puts: &[(u32, i64)]) -> Result<Versions, AllocError>
    ensures { IfOk result (λ versions. versions.shape.objects ≡ 2) }
{
    let mut versions = Versions::new(alloc, TWO_OBJECTS)?;
    for (pos, number) in puts {
        versions.put(OBJECT, *pos, value(alloc, *number)?)?;
    }
    Ok(versions)
}

/// Whether these are its numbers below these positions.
fn reads(versions: &Versions, wanted: &[(u32, Option<i64>)]) -> bool
    requires { versions.now.shape.objects ≡ 2 }
{
    for (pos, found) in wanted {
        if number(versions.read_below(OBJECT, *pos)) != *found {
            return false;
        }
    }
    true
}

#[test]
fn reads_below_a_position(rt: HostRuntime) -> Result<(), Fail> {
    let versions = filled(rt.alloc(), &[(1, 6), (3, 16), (0, 5)])?;
    assert!(rt; reads(&versions, &[(3, Some(6)), (1, Some(5)), (0, None)]));
    assert!(rt; number(versions.latest(OBJECT)) == Some(16));
    assert!(rt; versions.latest(ObjectId(0)).is_none());
    Ok(())
}

#[test]
fn prunes_at_a_commit(rt: HostRuntime) -> Result<(), Fail> {
    let mut versions = filled(rt.alloc(), &[(0, 5), (1, 6), (3, 16), (3, 17)])?;
    versions.prune(2);
    assert!(rt; versions.old_versions(OBJECT, 2) == 1);
    assert!(rt; versions.old_versions(OBJECT, 3) == 2);
    let copy = versions.copy()?;
    assert!(rt; copy.shape() == TWO_OBJECTS);
    assert!(rt; reads(&copy, &[(1, None), (3, Some(6))]));
    assert!(rt; number(copy.latest(OBJECT)) == Some(17));
    Ok(())
}

fn put_noted(
    alloc: Global,
    versions: &mut Versions,
    undo: &mut Undo,
    object: ObjectId,
    put: (u32, i64),
) -> Result<(), AllocError>
    requires { object.0 < versions.old.shape.objects }
    ensures { versions.new.shape ≡ versions.old.shape }
{
    let value = value(alloc, put.1)?;
    versions.put_noted(undo, object, put.0, value)?;
    Ok(())
}

/// Four puts, of which one replaces a number and one is of the other object.
fn put_four(alloc: Global, versions: &mut Versions) -> Result<Undo, AllocError>
    requires { versions.old.shape.objects ≡ 2 }
    ensures { versions.new.shape ≡ versions.old.shape }
{
    let mut undo = Undo::new(alloc);
    put_noted(alloc, versions, &mut undo, OBJECT, (2, 7))?;
    put_noted(alloc, versions, &mut undo, OBJECT, (3, 16))?;
    put_noted(alloc, versions, &mut undo, OBJECT, (2, 8))?;
    put_noted(alloc, versions, &mut undo, ObjectId(0), (1, 4))?;
    Ok(undo)
}

#[test]
fn takes_puts_back(rt: HostRuntime) -> Result<(), Fail> {
    let mut versions = filled(rt.alloc(), &[(0, 5), (2, 6)])?;
    let undo = put_four(rt.alloc(), &mut versions)?;
    assert!(rt; reads(&versions, &[(3, Some(8))]));
    assert!(rt; number(versions.latest(OBJECT)) == Some(16));
    versions.undo(undo);
    assert!(rt; reads(&versions, &[(3, Some(6)), (2, Some(5))]));
    assert!(rt; number(versions.latest(OBJECT)) == Some(6));
    assert!(rt; versions.old_versions(OBJECT, 3) == 2);
    assert!(rt; versions.latest(ObjectId(0)).is_none());
    Ok(())
}
