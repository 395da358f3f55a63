//! What the call answers to words and files that are no run.
use crate::witness::calls::called;
use std::test::Fail;

const WORDS: &str = "words: witness FILE [K]\n";

/// A line of words, and the status with what is told.
const ROWS: [(&str, u8, &str); 20] = [
    ("", 2, WORDS),
    ("witness", 2, WORDS),
    ("witness program.json 0 0", 2, WORDS),
    ("witness program.json none.json", 2, WORDS),
    ("witness program.json 00", 2, WORDS),
    ("witness program.json 01", 2, WORDS),
    ("witness program.json -1", 2, WORDS),
    ("witness program.json +1", 2, WORDS),
    ("witness program.json 65536", 2, WORDS),
    ("witness absent 00", 2, WORDS),
    ("replay program.json", 2, WORDS),
    ("program.json witness", 2, WORDS),
    ("witness absent", 4, "file: absent\n"),
    ("witness absent 3", 4, "file: absent\n"),
    ("witness none.json", 3, "scenario: /attrs: key\n"),
    // A file that is no scenario comes before a liar that it lacks.
    ("witness none.json 3", 3, "scenario: /attrs: key\n"),
    ("witness program.json 3", 10, "range\n"),
    ("witness program.json 65535", 10, "range\n"),
    ("witness alone.json 1", 10, "range\n"),
    ("witness chain.json 1", 10, "range\n"),
];

#[test]
fn words_are_answered(rt: HostRuntime) -> Result<(), Fail> {
    for (line, status, err) in ROWS {
        let printed = called(rt.alloc(), line)?;
        assert!(&rt; printed.is(status, "", err), "{line}");
    }
    Ok(())
}
