//! Words, and a replay that ends in a full world.

use crate::calls::called_well;
use crate::texts::WORDS_LINE;
use std::alloc::{AllocError, Global};
use std::sync::Wait;
use std::test::Fail;
use std::thread::Threads;
use sv_link::OpenGate;
use test_calls::examples::FIRST;
use test_calls::scenarios::FULL;

/// Words, the text of the file `a`, and the status with what is told. Nothing is printed.
type Row<'a> = (&'a str, &'a str, u8, &'a str);

const ROWS: [Row<'static>; 17] = [
    ("", FIRST, 2, WORDS_LINE),
    ("spin x", FIRST, 2, WORDS_LINE),
    ("replay", FIRST, 2, WORDS_LINE),
    ("replay a b", FIRST, 2, WORDS_LINE),
    ("play", FIRST, 2, WORDS_LINE),
    ("play a --fast", FIRST, 2, WORDS_LINE),
    ("play a --brief --watch", FIRST, 2, WORDS_LINE),
    ("play --brief a", FIRST, 2, WORDS_LINE),
    ("load", FIRST, 2, WORDS_LINE),
    ("load 0", FIRST, 2, WORDS_LINE),
    ("load 193", FIRST, 2, WORDS_LINE),
    ("load 01", FIRST, 2, WORDS_LINE),
    ("load 1x", FIRST, 2, WORDS_LINE),
    ("load +1", FIRST, 2, WORDS_LINE),
    ("load 1 --brief", FIRST, 2, WORDS_LINE),
    ("replay b", FIRST, 4, "file: b\n"),
    ("replay a", "{}", 3, "scenario: /attrs: key\n"),
];

#[test]
fn words_are_answered(rt: HostRuntime) -> Result<(), Fail> {
    for (line, text, status, err) in ROWS {
        let printed = called_well(&rt, rt.alloc(), line, text, &OpenGate)?;
        assert!(rt; printed.is(status, "", err));
    }
    Ok(())
}

const FULL_END: &str =
    "show [0=(9223372036854775807)]\nleave\ngot s0 #4\nworld 1\n0=(9223372036854775807)\n";

fn stays_full<R: Threads + Wait + Sync>(rt: &R, alloc: Global) -> Result<bool, AllocError> {
    let printed = called_well(rt, alloc, "replay a", FULL, &OpenGate)?;
    let is_so = printed.status == 0 && printed.out.bytes().ends_with(FULL_END.as_bytes());
    drop(printed);
    Ok(is_so)
}

#[test]
fn a_value_that_overflows_stays(rt: HostRuntime) -> Result<(), Fail> {
    assert!(rt; stays_full(&rt, rt.alloc())?);
    Ok(())
}
