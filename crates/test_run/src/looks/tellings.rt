//! The line of a snapshot.
use std::alloc::{AllocError, Global};
use std::test::Fail;
use sv_lists::List;
use sv_looks::{Snapshot, look_line};
use sv_wire::ObjectValue;
use sv_world::{ClientId, ObjectId, Value};

/// A snapshot of two objects with two numbers each.
fn snapshot(alloc: Global, seq: Option<u32>, pos: u32) -> Result<Snapshot, AllocError> {
    let mut values = List::new(alloc);
    for (object, numbers) in [(9, [-3, 4]), (4095, [0, i64::MIN])] {
        values.push(ObjectValue {
            object: ObjectId(object),
            value: Value::from_slice(alloc, &numbers)?,
        })?;
    }
    Ok(Snapshot {
        client: ClientId(31),
        seq,
        pos,
        values,
    })
}

/// The number for a look, or none; the position; and the line.
const LINES: &[(Option<u32>, u32, &str)] = &[
    (
        Some(12),
        70,
        "look c31 12 at 70 [9=(-3,4) 4095=(0,-9223372036854775808)]",
    ),
    (
        None,
        70,
        "seen c31 at 69 [9=(-3,4) 4095=(0,-9223372036854775808)]",
    ),
    (
        None,
        1,
        "seen c31 at 0 [9=(-3,4) 4095=(0,-9223372036854775808)]",
    ),
    (
        None,
        u32::MAX,
        "seen c31 at 4294967294 [9=(-3,4) 4095=(0,-9223372036854775808)]",
    ),
];

fn is_line(alloc: Global, seq: Option<u32>, pos: u32, text: &str) -> Result<bool, AllocError> {
    let line = look_line(alloc, &snapshot(alloc, seq, pos)?)?;
    Ok(line.as_str() == text)
}

#[test]
fn snapshots_have_their_lines(rt: HostRuntime) -> Result<(), Fail> {
    for (seq, pos, text) in LINES {
        assert!(&rt; is_line(rt.alloc(), *seq, *pos, text)?, "{text}");
    }
    Ok(())
}
