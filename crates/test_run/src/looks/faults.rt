//! Words, files and outputs that fail.
use crate::looks::calls::{called, looks};
use std::test::Fail;
use test_calls::scenarios::LOOK;
use test_calls::{Printed, call, held, unread};

const WORDS_LINE: &str = "words: looks FILE\n";

const LINE: &str = "look c0 1 at 1 [0=(5)]\n";

/// Words, the text of the file `a`, the status, and the two outputs.
const ROWS: &[(&str, &str, u8, &str, &str)] = &[
    ("looks a", LOOK, 0, LINE, ""),
    ("", LOOK, 2, "", WORDS_LINE),
    ("looks", LOOK, 2, "", WORDS_LINE),
    ("looks a a", LOOK, 2, "", WORDS_LINE),
    ("look a", LOOK, 2, "", WORDS_LINE),
    ("replay a", LOOK, 2, "", WORDS_LINE),
    ("a looks", LOOK, 2, "", WORDS_LINE),
    ("looks b", LOOK, 4, "", "file: b\n"),
    ("looks a", "{}", 3, "", "scenario: /attrs: key\n"),
    ("looks a", "look", 3, "", "scenario: : json\n"),
];

#[test]
fn calls_are_answered(rt: HostRuntime) -> Result<(), Fail> {
    for (line, text, status, out, err) in ROWS {
        let printed = called(rt.alloc(), line, text)?;
        assert!(&rt; printed.is(*status, out, err), "{line}");
    }
    Ok(())
}

#[test]
fn failing_outputs_are_told(rt: HostRuntime) -> Result<(), Fail> {
    for (step, failing, front) in [
        (100, 1, ""),
        (5, 2, "look "),
        (11, 3, "look c0 1 at 1 [0=(5)]"),
    ] {
        let files = held(rt.alloc(), LOOK)?;
        let printed = Printed::cut(rt.alloc(), step, failing)?;
        let printed = call(looks, rt.alloc(), "looks a", files, printed)?;
        assert!(&rt; printed.is(5, front, "out\n"), "{front}");
    }
    Ok(())
}

#[test]
fn failing_files_are_told(rt: HostRuntime) -> Result<(), Fail> {
    for failing in [1, 2, 3] {
        let files = unread(held(rt.alloc(), LOOK)?, failing)?;
        let printed = Printed::nothing(rt.alloc())?;
        let printed = call(looks, rt.alloc(), "looks a", files, printed)?;
        assert!(&rt; printed.is(4, "", "file: a\n"), "{failing}");
    }
    Ok(())
}

#[test]
fn a_lost_line_changes_no_status(rt: HostRuntime) -> Result<(), Fail> {
    let files = held(rt.alloc(), LOOK)?;
    let printed = Printed::untold(rt.alloc())?;
    let printed = call(looks, rt.alloc(), "looks b", files, printed)?;
    assert!(&rt; printed.is(4, "", ""));
    Ok(())
}
