//! The positions and the value of an object at a position, worked out by hand from the scenario.
use crate::why::calls::{Expected, tells};
use std::test::Fail;
use test_calls::examples::{CONFLICT, LOOKS};

/// A chain over three objects, by one client, with an action of each that does not matter to the last.
const CHAIN: &str =
    r#"{"attrs":1,"objects":[[1],[2],[3]],"bound":32,"clients":[{"interest":[],"steps":[{"act":"reads 0 writes 0 { set @0.0 (@0.0 + 10); }"},{"act":"reads 2 writes 2 { set @2.0 (@2.0 * 7); }"},{"act":"reads 0 1 writes 1 { set @1.0 (@0.0 + @1.0); }"},{"act":"reads 0 writes 0 { set @0.0 0; }"},{"act":"reads 1 2 writes 2 { set @2.0 (@1.0 - @2.0); }"},{"act":"reads 0 2 writes 0 { set @0.0 (@0.0 + @2.0); }"}]}]}"#;

/// A division by zero, which keeps the value. The action still writes the object.
const VOID: &str =
    r#"{"attrs":2,"objects":[[7,8],[0,0]],"bound":4,"clients":[{"interest":[],"steps":[{"act":"reads 0 1 writes 0 { set @0.0 9; set @0.1 (1 / @1.0); }"}]}]}"#;

/// A scenario, an object and a position; the positions that its value there comes from, and the value.
const ROWS: [(&str, u16, u32, &[u32], &[i64]); 21] = [
    // Two clients in conflict. The first doubles 10, and the second adds 1, makes it three times as much and takes 5 away.
    (CONFLICT, 0, 0, &[], &[10]),
    (CONFLICT, 0, 1, &[1], &[20]),
    (CONFLICT, 0, 2, &[1, 2], &[21]),
    (CONFLICT, 0, 4, &[1, 2, 3, 4], &[58]),
    // Two objects that are written apart. The second action writes none.
    (LOOKS, 1, 3, &[3], &[21]),
    (LOOKS, 1, 2, &[], &[20]),
    (LOOKS, 0, 3, &[1], &[11]),
    (LOOKS, 0, 0, &[], &[10]),
    (CHAIN, 2, 5, &[1, 2, 3, 5], &[-8]),
    (CHAIN, 2, 6, &[1, 2, 3, 5], &[-8]),
    (CHAIN, 2, 4, &[2], &[21]),
    (CHAIN, 2, 1, &[], &[3]),
    (CHAIN, 1, 6, &[1, 3], &[13]),
    (CHAIN, 1, 2, &[], &[2]),
    (CHAIN, 0, 3, &[1], &[11]),
    (CHAIN, 0, 5, &[1, 4], &[0]),
    (CHAIN, 0, 6, &[1, 2, 3, 4, 5, 6], &[-8]),
    (VOID, 0, 1, &[1], &[7, 8]),
    (VOID, 1, 1, &[], &[0, 0]),
    // An object that no world has: it has no writer, and no numbers.
    (VOID, 2, 1, &[], &[]),
    (VOID, 65_535, 1, &[], &[]),
];

#[test]
fn values_come_from_these_positions(rt: HostRuntime) -> Result<(), Fail> {
    for (scenario, object, pos, positions, value) in ROWS {
        let expected = Expected { positions, value };
        let is_so = tells(rt.alloc(), scenario, object, pos, expected)?;
        assert!(&rt; is_so, "object {object} at {pos}");
    }
    Ok(())
}
