//! What the checker answers to words, files and outputs.
use crate::audit::calls::{FILES, called, checked};
use std::alloc::{AllocError, Global};
use std::test::Fail;
use sv_bytes::MemFiles;
use test_calls::examples::FIRST;
use test_calls::{Printed, call, files};

const CHECK_WORDS: &str = "words: check SCENARIO REPORT\n";

const WHY_WORDS: &str = "words: why SCENARIO REPORT OBJECT POSITION\n";

const WORLD_WORDS: &str = "words: world SCENARIO REPORT\n";

/// Why object 0 of the first scenario has its value at position 1.
const FIRST_WHY: &str = "1 c0.1 reads 0 writes 0 { set @0.0 (@0.0 + 1); }\nvalue 0=(6)\n";

/// Why object 0 of the second scenario has its value at position 2.
const CONFLICT_WHY: &str =
    "1 c0.1 reads 0 writes 0 { set @0.0 (@0.0 * 2); }\n2 c1.1 reads 0 writes 0 { set @0.0 (@0.0 + 1); }\nvalue 0=(21)\n";

/// Why object 1 of the third scenario has its value at position 3.
const LOOKS_WHY: &str = "3 c0.3 reads 1 writes 1 { set @1.0 (@1.0 + 1); }\nvalue 1=(21)\n";

/// Why object 0 of the fourth scenario has its value at position 1, which another client observed.
const OBSERVE_WHY: &str = "1 c0.1 reads 0 writes 0 { set @0.0 (@0.0 + 1); }\nvalue 0=(11)\n";

/// A line of words, and the status with both outputs.
const ROWS: [(&str, u8, &str, &str); 40] = [
    ("check first.json first.out", 0, "yes\n", ""),
    ("check conflict.json conflict.out", 0, "yes\n", ""),
    ("check looks.json looks.out", 0, "yes\n", ""),
    ("check observe.json observe.out", 0, "yes\n", ""),
    ("why conflict.json conflict.out 0 2", 0, CONFLICT_WHY, ""),
    ("why looks.json looks.out 1 3", 0, LOOKS_WHY, ""),
    ("why looks.json looks.out 1 2", 0, "value 1=(20)\n", ""),
    ("why looks.json looks.out 0 0", 0, "value 0=(10)\n", ""),
    ("why observe.json observe.out 0 1", 0, OBSERVE_WHY, ""),
    // The words.
    ("", 2, "", CHECK_WORDS),
    ("check", 2, "", CHECK_WORDS),
    ("check first.json", 2, "", CHECK_WORDS),
    ("check first.json first.out 0", 2, "", CHECK_WORDS),
    ("check first.json first.out 0 1", 2, "", CHECK_WORDS),
    ("audit first.json first.out", 2, "", CHECK_WORDS),
    ("why", 2, "", WHY_WORDS),
    ("why first.json first.out", 2, "", WHY_WORDS),
    ("why first.json first.out 0", 2, "", WHY_WORDS),
    ("why first.json first.out 0 1 2", 2, "", WHY_WORDS),
    ("why first.json first.out 00 1", 2, "", WHY_WORDS),
    ("why first.json first.out 0 01", 2, "", WHY_WORDS),
    ("why first.json first.out -1 1", 2, "", WHY_WORDS),
    ("why first.json first.out 0 +1", 2, "", WHY_WORDS),
    ("why first.json first.out 65536 1", 2, "", WHY_WORDS),
    ("why first.json first.out 0 4294967296", 2, "", WHY_WORDS),
    // The files: both are read before any is judged, and the first that can't be read is named.
    ("check absent first.out", 4, "", "file: absent\n"),
    ("check first.json absent", 4, "", "file: absent\n"),
    ("check missing absent", 4, "", "file: missing\n"),
    ("check none.json absent", 4, "", "file: absent\n"),
    ("why first.json absent 0 1", 4, "", "file: absent\n"),
    (
        "check none.json first.out",
        3,
        "",
        "scenario: /attrs: key\n",
    ),
    (
        "why none.json first.out 0 1",
        3,
        "",
        "scenario: /attrs: key\n",
    ),
    // The report of another scenario, and texts that are none.
    ("check first.json conflict.out", 9, "", "wrong line 3\n"),
    ("check first.json none.json", 9, "", "wrong line 1\n"),
    ("why first.json conflict.out 0 1", 9, "", "wrong line 3\n"),
    ("why first.json conflict.out 9 9", 9, "", "wrong line 3\n"),
    // The place.
    ("why looks.json looks.out 1 4", 10, "", "range\n"),
    ("why looks.json looks.out 2 3", 10, "", "range\n"),
    (
        "why looks.json looks.out 65535 4294967295",
        10,
        "",
        "range\n",
    ),
    (
        "why conflict.json conflict.out 0 4294967295",
        10,
        "",
        "range\n",
    ),
];

/// What `serve` prints, and the world at the end.
const SERVED_ROWS: [(&str, u8, &str, &str); 17] = [
    ("world first.json first.out", 0, "world 1\n0=(6)\n", ""),
    (
        "world looks.json looks.out",
        0,
        "world 3\n0=(11)\n1=(21)\n",
        "",
    ),
    ("check first.json served.out", 0, "yes\n", ""),
    ("why first.json served.out 0 1", 0, FIRST_WHY, ""),
    ("why first.json served.out 0 2", 10, "", "range\n"),
    ("world first.json served.out", 0, "world 1\n0=(6)\n", ""),
    ("check first.json bad.out", 9, "", "wrong line 2\n"),
    ("world first.json bad.out", 9, "", "wrong line 2\n"),
    ("check first.json false.out", 9, "", "wrong line 3\n"),
    ("why first.json false.out 0 0", 9, "", "wrong line 3\n"),
    ("check first.json long.out", 9, "", "wrong line 4\n"),
    ("check conflict.json served.out", 9, "", "wrong line 2\n"),
    ("world", 2, "", WORLD_WORDS),
    ("world first.json", 2, "", WORLD_WORDS),
    ("world first.json first.out 0", 2, "", WORLD_WORDS),
    ("world first.json first.out 0 1", 2, "", WORLD_WORDS),
    ("world first.json absent", 4, "", "file: absent\n"),
];

#[test]
fn words_are_answered(rt: HostRuntime) -> Result<(), Fail> {
    for (line, status, out, err) in ROWS {
        let printed = called(rt.alloc(), line)?;
        assert!(&rt; printed.is(status, out, err), "{line}");
    }
    Ok(())
}

#[test]
fn served_journals_are_answered(rt: HostRuntime) -> Result<(), Fail> {
    for (line, status, out, err) in SERVED_ROWS {
        let printed = called(rt.alloc(), line)?;
        assert!(&rt; printed.is(status, out, err), "{line}");
    }
    Ok(())
}

/// Files whose read of this number fails.
fn failing(alloc: Global, call: u64) -> Result<MemFiles, AllocError> {
    let mut files = files(alloc, &FILES)?;
    files.fail_at(call)?;
    Ok(files)
}

/// Each call of the files is a begin or a read. Each file here is read by one piece, and one more read tells its end.
#[test]
fn the_file_whose_reading_failed_is_named(rt: HostRuntime) -> Result<(), Fail> {
    let named = [
        (1, "file: first.json\n"),
        (2, "file: first.json\n"),
        (3, "file: first.json\n"),
        (4, "file: first.out\n"),
        (5, "file: first.out\n"),
        (6, "file: first.out\n"),
    ];
    for (number, err) in named {
        let files = failing(rt.alloc(), number)?;
        let printed = Printed::nothing(rt.alloc())?;
        let printed = call(
            checked,
            rt.alloc(),
            "check first.json first.out",
            files,
            printed,
        )?;
        assert!(&rt; printed.is(4, "", err), "call {number}");
    }
    Ok(())
}

#[test]
fn failing_outputs_are_told(rt: HostRuntime) -> Result<(), Fail> {
    for line in [
        "check first.json first.out",
        "why conflict.json conflict.out 0 2",
    ] {
        let files = files(rt.alloc(), &FILES)?;
        let printed = Printed::cut(rt.alloc(), 1_000, 1)?;
        let printed = call(checked, rt.alloc(), line, files, printed)?;
        assert!(&rt; printed.is(5, "", "out\n"), "{line}");
    }
    Ok(())
}

/// 67,108,865 bytes: one more than a report may have.
fn too_long(alloc: Global) -> Result<Vec<u8>, AllocError> {
    let block = vec![in alloc; 48; 65_536]?;
    let mut bytes = Vec::with_capacity(alloc, 67_108_865)?;
    for _ in 0..1_024 {
        bytes.extend_from_slice(&block)?;
    }
    bytes.push(48)?;
    Ok(bytes)
}

/// The first scenario, and a report that is too long.
fn with_too_long(alloc: Global) -> Result<MemFiles, AllocError> {
    let mut files = files(alloc, &[("first.json", FIRST)])?;
    let bytes = too_long(alloc)?;
    files.add("long", &bytes)?;
    drop(bytes);
    Ok(files)
}

#[test]
fn too_long_reports_have_no_line(rt: HostRuntime) -> Result<(), Fail> {
    let files = with_too_long(rt.alloc())?;
    let printed = Printed::nothing(rt.alloc())?;
    let printed = call(checked, rt.alloc(), "check first.json long", files, printed)?;
    assert!(&rt; printed.is(9, "", "wrong line 0\n"));
    Ok(())
}
