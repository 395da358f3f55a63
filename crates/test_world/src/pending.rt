//! Tests of pending actions and what is computed again.
ghost use Rattle.std.specs.Prelude.{◌≡◌, ◌<◌, IfOk};

use crate::texts::action_of;
use std::alloc::{AllocError, Global};
use std::test::Fail;
use sv_pending::{Overlay, Pending};
use sv_versions::Versions;
use sv_world::{ObjectId, Shape, Value, check_action};

const FIRST: ObjectId = ObjectId(0);

const SECOND: ObjectId = ObjectId(1);

const TWO_OBJECTS: Shape = Shape {
    objects: 2,
    attrs: 1,
};

/// What actions do to the first object: a sum, a product, a difference, and nothing, as it is only read, or is written as it is after both were
/// read.
const PLUS_1: &str = "reads 0 writes 0 { set @0.0 (@0.0 + 1); }";

const TIMES_3: &str = "reads 0 writes 0 { set @0.0 (@0.0 * 3); }";

const MINUS_5: &str = "reads 0 writes 0 { set @0.0 (@0.0 - 5); }";

const LOOK: &str = "reads 0 writes { }";

const KEEP: &str = "reads 0 1 writes 0 { }";

fn hold(alloc: Global, versions: &mut Versions, pos: u32, number: i64) -> Result<(), AllocError>
    requires { 0 < versions.old.shape.objects }
    ensures { versions.new.shape ≡ versions.old.shape }
{
    let value = Value::from_slice(alloc, &[number])?;
    versions.put(FIRST, pos, value)?;
    Ok(())
}

/// The first of two objects is held.
fn holding(alloc: Global, number: i64) -> Result<Versions, AllocError>
    ensures { IfOk result (λ versions. versions.shape ≡ record { objects = 2; attrs = 1 }) }
{
    let mut versions = Versions::new(alloc, TWO_OBJECTS)?;
    hold(alloc, &mut versions, 0, number)?;
    Ok(versions)
}

/// One more action is made.
fn make(
    alloc: Global,
    pending: &mut Pending,
    versions: &Versions,
    seq: u32,
    text: &str,
) -> Result<(), Fail>
    requires { versions.now.shape ≡ pending.old.shape }
    ensures { pending.new.shape ≡ pending.old.shape }
{
    let action = action_of(alloc, text)?;
    if check_action(versions.shape(), &action).is_err() || pending.len() >= 8 {
        drop(action);
        return Err(Fail::new("the action is not made"));
    }
    pending.add(seq, action, versions)?;
    Ok(())
}

/// The number that the pending actions leave of the first object.
fn shown(pending: &Pending) -> Option<i64> {
    match pending.overlay(FIRST) {
        Overlay::Kept(value) => value.as_slice().first().copied(),
        Overlay::Unwritten | Overlay::Unknown => None,
    }
}

/// The number of the first action, and the first number of its result.
fn front(pending: &Pending) -> Option<(u32, Option<i64>)> {
    let front = pending.front()?;
    let number = match front.kept {
        Some([value, ..]) => value.as_slice().first().copied(),
        _ => None,
    };
    Some((front.seq, number))
}

/// How many values the first action is to write, where its result is known.
fn front_values(pending: &Pending) -> Option<usize> {
    let front = pending.front()?;
    front.kept.map(|values| values.len())
}

/// Three actions, each on what the one before it leaves.
fn make_three(alloc: Global, pending: &mut Pending, versions: &Versions) -> Result<bool, Fail>
    requires { versions.now.shape ≡ pending.old.shape }
    ensures { pending.new.shape ≡ pending.old.shape }
{
    make(alloc, pending, versions, 1, PLUS_1)?;
    let first = shown(pending) == Some(11);
    make(alloc, pending, versions, 2, TIMES_3)?;
    let second = shown(pending) == Some(33);
    make(alloc, pending, versions, 3, MINUS_5)?;
    Ok(first && second && shown(pending) == Some(28))
}

/// The first action is settled, and the others are computed again.
fn settle(pending: &mut Pending, versions: &Versions) -> Result<(), AllocError>
    requires { versions.now.shape ≡ pending.old.shape }
{
    if pending.len() > 0 {
        pending.settle();
    }
    pending.reconcile(versions)
}

/// Whether the two actions left were computed again, the first as 63, and the copy shows what both leave.
fn is_reconciled(copy: Pending) -> bool {
    let is_so = copy.len() == 2 && front(&copy) == Some((2, Some(63))) && shown(&copy) == Some(58);
    drop(copy);
    is_so
}

/// Three actions are made on 10, and then the first one's result is 21.
fn reconciles(alloc: Global, versions: &mut Versions, pending: &mut Pending) -> Result<bool, Fail>
    requires shape { versions.old.shape ≡ record { objects = 2; attrs = 1 } }
    requires same { versions.old.shape ≡ pending.old.shape }
{
    let are_made = make_three(alloc, pending, versions)?;
    hold(alloc, versions, 2, 21)?;
    settle(pending, versions)?;
    Ok(is_reconciled(pending.copy()?) && are_made)
}

#[test]
fn reconciles_conflict(rt: HostRuntime) -> Result<(), Fail> {
    let mut versions = holding(rt.alloc(), 10)?;
    let mut pending = Pending::new(rt.alloc(), TWO_OBJECTS);
    let told = reconciles(rt.alloc(), &mut versions, &mut pending);
    drop(pending);
    drop(versions);
    assert!(rt; told?);
    Ok(())
}

/// Whether an action that writes nothing keeps no value, which is known once its read is.
fn looks_on(alloc: Global, versions: &mut Versions, pending: &mut Pending) -> Result<bool, Fail>
    requires shape { versions.old.shape ≡ record { objects = 2; attrs = 1 } }
    requires same { versions.old.shape ≡ pending.old.shape }
{
    make(alloc, pending, versions, 1, LOOK)?;
    let is_unknown = pending.len() == 1 && front_values(pending).is_none();
    hold(alloc, versions, 0, 10)?;
    pending.reconcile(versions)?;
    let is_known = front_values(pending) == Some(0);
    Ok(is_unknown && is_known && matches!(pending.overlay(FIRST), Overlay::Unwritten))
}

#[test]
fn keeps_nothing_of_what_writes_nothing(rt: HostRuntime) -> Result<(), Fail> {
    let mut versions = Versions::new(rt.alloc(), TWO_OBJECTS)?;
    let mut pending = Pending::new(rt.alloc(), TWO_OBJECTS);
    let told = looks_on(rt.alloc(), &mut versions, &mut pending);
    drop(pending);
    drop(versions);
    assert!(rt; told?);
    Ok(())
}

/// Whether the last of two writers, which keeps an unknown value, decides.
fn is_unknown(alloc: Global, versions: &Versions, pending: &mut Pending) -> Result<bool, Fail>
    requires shape { versions.now.shape ≡ record { objects = 2; attrs = 1 } }
    requires same { versions.now.shape ≡ pending.old.shape }
{
    make(alloc, pending, versions, 1, PLUS_1)?;
    make(alloc, pending, versions, 2, KEEP)?;
    Ok(
        matches!(pending.overlay(FIRST), Overlay::Unknown)
            && matches!(pending.overlay(SECOND), Overlay::Unwritten),
    )
}

#[test]
fn last_writer_decides(rt: HostRuntime) -> Result<(), Fail> {
    let versions = holding(rt.alloc(), 10)?;
    let mut pending = Pending::new(rt.alloc(), TWO_OBJECTS);
    let told = is_unknown(rt.alloc(), &versions, &mut pending);
    drop(pending);
    drop(versions);
    assert!(rt; told?);
    Ok(())
}
