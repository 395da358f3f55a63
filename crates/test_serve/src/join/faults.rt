//! What the client answers where it has no server to speak with.
use crate::join::calls::{PORT, called};
use std::test::Fail;
use sv_door::PipeDoor;

const WORDS_LINE: &str = "words: join FILE K PORT\n";

/// Words, with the status and the line beside the output.
const ROWS: &[(&str, u8, &str)] = &[
    ("", 2, WORDS_LINE),
    ("join a 0", 2, WORDS_LINE),
    ("join a 0 7000 7000", 2, WORDS_LINE),
    ("serve a 0 7000", 2, WORDS_LINE),
    ("join a 0 0", 2, WORDS_LINE),
    ("join a 0 65536", 2, WORDS_LINE),
    ("join a 0 07000", 2, WORDS_LINE),
    ("join a 00 7000", 2, WORDS_LINE),
    ("join a 65536 7000", 2, WORDS_LINE),
    ("join a -1 7000", 2, WORDS_LINE),
    ("join b 0 7000", 4, "file: b\n"),
    ("join a 1 7000", 10, "range\n"),
    ("join a 65535 7000", 10, "range\n"),
];

#[test]
fn words_are_answered(rt: HostRuntime) -> Result<(), Fail> {
    for (line, status, err) in ROWS {
        let mut door = PipeDoor::new(rt.alloc(), &rt, PORT)?;
        let printed = called(rt.alloc(), line, &mut door)?;
        assert!(&rt; printed.is(*status, "", err), "{line}");
    }
    Ok(())
}

#[test]
fn failing_links_are_told(rt: HostRuntime) -> Result<(), Fail> {
    for (door_call, end_call) in [(1, 0), (0, 1), (0, 2)] {
        let mut door = PipeDoor::new(rt.alloc(), &rt, PORT)?;
        door.fail_at(door_call)?;
        door.fail_end_at(end_call)?;
        let printed = called(rt.alloc(), "join a 0 7000", &mut door)?;
        assert!(&rt; printed.is(6, "", "link\n"), "{door_call} {end_call}");
    }
    Ok(())
}
