//! Gates on one thread.

use std::test::Fail;
use sv_link::{Gate, HoldGate};

/// Whether the first of two calls gives up that one thread makes, and whether they then did not meet.
fn gives_up(gate: &HoldGate, first: (u16, u32), second: (u16, u32)) -> bool {
    gate.pass(first.0, first.1);
    let is_first_alone = gate.gave_up() && !gate.met();
    gate.pass(second.0, second.1);
    is_first_alone && gate.gave_up() && !gate.met()
}

#[test]
fn gives_up_on_one_thread(rt: HostRuntime) -> Result<(), Fail> {
    for (first, second) in [((0, 2), (1, 3)), ((1, 3), (0, 2))] {
        let gate = HoldGate::new(0, 2, 1, 3);
        gate.pass(0, 1);
        gate.pass(1, 2);
        gate.pass(2, 2);
        assert!(rt; !gate.gave_up() && !gate.met());
        assert!(rt; gives_up(&gate, first, second), "{first:?}");
    }
    Ok(())
}
