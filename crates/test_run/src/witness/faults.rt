//! Files and outputs that fail.
use crate::witness::calls::witnessed;
use crate::witness::texts::FILES;
use std::test::Fail;
use test_calls::{Printed, call, files, unread};

/// Prints `accepted 1`, `dispute 1 c0 (2) c1 (1)`, `world 1` and `0=(1)`.
const LINE: &str = "witness program.json 0";

#[test]
fn failing_outputs_are_told(rt: HostRuntime) -> Result<(), Fail> {
    for (step, failing, front) in [
        (1_000, 1, ""),
        (9, 2, "accepted "),
        (19, 3, "accepted 1\ndispute 1 c0 (2) c1 (1)\nwor"),
    ] {
        let files = files(rt.alloc(), &FILES)?;
        let printed = Printed::cut(rt.alloc(), step, failing)?;
        let printed = call(witnessed, rt.alloc(), LINE, files, printed)?;
        assert!(&rt; printed.is(5, front, "out\n"), "{front}");
    }
    Ok(())
}

#[test]
fn failing_files_are_told(rt: HostRuntime) -> Result<(), Fail> {
    for failing in [1, 2, 3] {
        let files = unread(files(rt.alloc(), &FILES)?, failing)?;
        let printed = Printed::nothing(rt.alloc())?;
        let printed = call(witnessed, rt.alloc(), LINE, files, printed)?;
        assert!(&rt; printed.is(4, "", "file: program.json\n"), "{failing}");
    }
    Ok(())
}

#[test]
fn a_lost_line_changes_no_status(rt: HostRuntime) -> Result<(), Fail> {
    let files = files(rt.alloc(), &FILES)?;
    let printed = Printed::untold(rt.alloc())?;
    let printed = call(
        witnessed,
        rt.alloc(),
        "witness program.json 3",
        files,
        printed,
    )?;
    assert!(&rt; printed.is(10, "", ""));
    Ok(())
}
