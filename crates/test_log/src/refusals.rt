//! Folders that are refused, each with its file, line and cause, and left as they were.
ghost use Rattle.std.specs.Prelude.{IfOk};
ghost use Rattle.sv_log.specs.Folders.{disk_in_memory};
ghost use Rattle.sv_log.specs.Rests.{IsAtRest};

use std::alloc::{AllocError, Global};
use std::process::Abort;
use std::test::Fail;
use sv_log::{Cause, Folder, LogRefusal, Loss, MemFolder, open_log, read_log};

const SPARE: usize = 8;

/// A name, and the bytes of its file.
type Stored = (&'static str, &'static str);

const WORLD: Stored = ("world.json", "{}");

/// Two lines.
const ONE: Stored = ("journal-00000000000000000001.txt", "1 a\n2 b\n");

/// The line behind these.
const THREE: Stored = ("journal-00000000000000000003.txt", "3 c\n");

/// A state whose sum is right.
const TWO: Stored = (
    "state-00000000000000000002.txt",
    "state 2\nsum 3ea200d0c755f69b1f7fc66043f6222555f131ac20be2513facae756c0075092\n",
);

/// A folder, and the file, the line and the cause that its refusal names.
struct Row {
    files: &'static [Stored],
    file: &'static str,
    line: u64,
    cause: Cause,
}

const ROWS: &[Row] = &[
    // A segment is missing: between two others, at the beginning, and behind a state.
    Row {
        files: &[WORLD, ONE, ("journal-00000000000000000005.txt", "5 e\n")],
        file: "journal-00000000000000000003.txt",
        line: 0,
        cause: Cause::Missing,
    },
    Row {
        files: &[WORLD, THREE],
        file: "journal-00000000000000000001.txt",
        line: 0,
        cause: Cause::Missing,
    },
    Row {
        files: &[WORLD, ONE, TWO],
        file: "journal-00000000000000000003.txt",
        line: 0,
        cause: Cause::Missing,
    },
    Row {
        files: &[WORLD, TWO],
        file: "journal-00000000000000000003.txt",
        line: 0,
        cause: Cause::Missing,
    },
    Row {
        files: &[
            WORLD,
            ONE,
            TWO,
            ("journal-00000000000000000004.txt", "4 d\n"),
        ],
        file: "journal-00000000000000000003.txt",
        line: 0,
        cause: Cause::Missing,
    },
    // A segment has no line, though another follows.
    Row {
        files: &[
            WORLD,
            ONE,
            ("journal-00000000000000000003.txt", ""),
            ("journal-00000000000000000004.txt", "4 d\n"),
        ],
        file: "journal-00000000000000000003.txt",
        line: 0,
        cause: Cause::Empty,
    },
    // The lines before do not end at a segment's number.
    Row {
        files: &[WORLD, ONE, ("journal-00000000000000000002.txt", "2 b\n")],
        file: "journal-00000000000000000002.txt",
        line: 0,
        cause: Cause::Misnamed,
    },
    // 19 digits, 21 digits, a sign, number 0, the number that has none behind it, a number beyond all, another ending, no number.
    Row {
        files: &[WORLD, ONE, ("journal-0000000000000000003.txt", "3 c\n")],
        file: "journal-0000000000000000003.txt",
        line: 0,
        cause: Cause::Misnamed,
    },
    Row {
        files: &[WORLD, ONE, ("journal-000000000000000000003.txt", "3 c\n")],
        file: "journal-000000000000000000003.txt",
        line: 0,
        cause: Cause::Misnamed,
    },
    Row {
        files: &[WORLD, ONE, ("journal-+0000000000000000003.txt", "3 c\n")],
        file: "journal-+0000000000000000003.txt",
        line: 0,
        cause: Cause::Misnamed,
    },
    Row {
        files: &[WORLD, ONE, ("journal-00000000000000000000.txt", "")],
        file: "journal-00000000000000000000.txt",
        line: 0,
        cause: Cause::Misnamed,
    },
    Row {
        files: &[WORLD, ONE, ("journal-18446744073709551615.txt", "")],
        file: "journal-18446744073709551615.txt",
        line: 0,
        cause: Cause::Misnamed,
    },
    Row {
        files: &[WORLD, ONE, ("state-18446744073709551617.txt", "")],
        file: "state-18446744073709551617.txt",
        line: 0,
        cause: Cause::Misnamed,
    },
    Row {
        files: &[WORLD, ONE, ("journal-00000000000000000003.txt.gz", "3 c\n")],
        file: "journal-00000000000000000003.txt.gz",
        line: 0,
        cause: Cause::Misnamed,
    },
    Row {
        files: &[WORLD, ONE, ("state-", "state 2\n")],
        file: "state-",
        line: 0,
        cause: Cause::Misnamed,
    },
    // Zeros in the middle of a segment, zeros at its end, and a torn line, where another segment follows.
    Row {
        files: &[
            WORLD,
            ("journal-00000000000000000001.txt", "1 a\n\0\0\0\0\n2 b\n"),
            THREE,
        ],
        file: "journal-00000000000000000001.txt",
        line: 2,
        cause: Cause::Behind,
    },
    Row {
        files: &[
            WORLD,
            ("journal-00000000000000000001.txt", "1 a\n2 b\n\0"),
            THREE,
        ],
        file: "journal-00000000000000000001.txt",
        line: 3,
        cause: Cause::Behind,
    },
    Row {
        files: &[
            WORLD,
            ("journal-00000000000000000001.txt", "1 a\n2 b"),
            THREE,
        ],
        file: "journal-00000000000000000001.txt",
        line: 2,
        cause: Cause::Behind,
    },
    // A state whose sum is wrong, and no older one: another digit, no sum, a text that was changed, no text.
    Row {
        files: &[
            WORLD,
            ONE,
            THREE,
            (
                "state-00000000000000000002.txt",
                "state 2\nsum 3ea200d0c755f69b1f7fc66043f6222555f131ac20be2513facae756c0075093\n",
            ),
        ],
        file: "state-00000000000000000002.txt",
        line: 0,
        cause: Cause::Sum,
    },
    Row {
        files: &[
            WORLD,
            ONE,
            THREE,
            ("state-00000000000000000002.txt", "state 2\n"),
        ],
        file: "state-00000000000000000002.txt",
        line: 0,
        cause: Cause::Sum,
    },
    Row {
        files: &[
            WORLD,
            ONE,
            THREE,
            (
                "state-00000000000000000002.txt",
                "state 3\nsum 3ea200d0c755f69b1f7fc66043f6222555f131ac20be2513facae756c0075092\n",
            ),
        ],
        file: "state-00000000000000000002.txt",
        line: 0,
        cause: Cause::Sum,
    },
    Row {
        files: &[WORLD, ONE, THREE, ("state-00000000000000000002.txt", "")],
        file: "state-00000000000000000002.txt",
        line: 0,
        cause: Cause::Sum,
    },
    // Another world, a part of this one, and none.
    Row {
        files: &[("world.json", "{ }"), ONE],
        file: "world.json",
        line: 0,
        cause: Cause::World,
    },
    Row {
        files: &[("world.json", "{")],
        file: "world.json",
        line: 0,
        cause: Cause::World,
    },
    Row {
        files: &[ONE],
        file: "world.json",
        line: 0,
        cause: Cause::Missing,
    },
];

fn folder_of(alloc: Global, files: &[Stored]) -> Result<MemFolder, AllocError>
    ensures rest { IfOk result (λ folder. IsAtRest (disk_in_memory folder)) }
{
    let mut folder = MemFolder::new(alloc);
    for (name, bytes) in files {
        folder = folder.with_file(name, bytes.as_bytes())?;
    }
    folder.crashed(0, Loss::Nothing)
}

fn is_told(rt: &impl Abort, row: &Row, refusal: &LogRefusal) {
    let file = row.file;
    assert!(rt; refusal.file.as_str() == file, "the file of {file}");
    assert!(rt; refusal.line == row.line, "the line of {file}");
    assert!(rt; refusal.cause == row.cause, "the cause of {file}");
}

// The folder has these files, byte for byte, and nothing was asked of it.
fn is_as_it_was(
    rt: &impl Abort,
    alloc: Global,
    row: &Row,
    folder: &mut MemFolder,
) -> Result<(), Fail> {
    assert!(rt; folder.asked() == 0);
    for (name, bytes) in row.files {
        match folder.file(name)? {
            Some(found) => assert!(rt; found.as_slice() == bytes.as_bytes()),
            None => panic!(rt; "the file is there"),
        }
    }
    match folder.names(alloc) {
        Ok(names) => assert!(rt; names.len() == row.files.len()),
        Err(_) => panic!(rt; "the names are listed"),
    }
    Ok(())
}

#[test]
fn refused_folders_are_left_as_they_were(rt: HostRuntime) -> Result<(), Fail> {
    let alloc = rt.alloc();
    for row in ROWS {
        let mut folder = folder_of(alloc, row.files)?;
        match read_log(alloc, &mut folder, WORLD.1.as_bytes()) {
            Err(refusal) => is_told(&rt, row, &refusal),
            Ok(_) => panic!(rt; "it is refused"),
        }
        is_as_it_was(&rt, alloc, row, &mut folder)?;
        let folder = folder_of(alloc, row.files)?;
        match open_log(alloc, folder, WORLD.1.as_bytes(), SPARE) {
            Err((refusal, mut folder)) => {
                is_told(&rt, row, &refusal);
                is_as_it_was(&rt, alloc, row, &mut folder)?;
            }
            Ok(_) => panic!(rt; "it is refused"),
        }
    }
    Ok(())
}

/// A folder that is not refused, and its text; the name and the bytes of what is kept beside; the last segment once it is open.
struct Kept {
    files: &'static [Stored],
    text: &'static str,
    rest: Option<Stored>,
    last: Stored,
}

const KEPT: &[Kept] = &[
    // Zeros alone behind the text, and a torn line, are no rest.
    Kept {
        files: &[WORLD, ("journal-00000000000000000001.txt", "1 a\n\0\0\0")],
        text: "1 a\n",
        rest: None,
        last: ("journal-00000000000000000001.txt", "1 a\n\0\0\0"),
    },
    Kept {
        files: &[WORLD, ("journal-00000000000000000001.txt", "1 a\n2 b\0\0")],
        text: "1 a\n",
        rest: None,
        last: ("journal-00000000000000000001.txt", "1 a\n\0\0\0\0\0"),
    },
    Kept {
        files: &[WORLD, ("journal-00000000000000000001.txt", "1 a\n2 b")],
        text: "1 a\n",
        rest: None,
        last: ("journal-00000000000000000001.txt", "1 a\n\0\0\0"),
    },
    // Bytes behind zeros are, from the first zero to the last byte that is not zero.
    Kept {
        files: &[
            WORLD,
            ("journal-00000000000000000001.txt", "1 a\n2\0\0b\n\0x\0\0"),
        ],
        text: "1 a\n",
        rest: Some(("rest-00000000000000000002.txt", "\0\0b\n\0x")),
        last: (
            "journal-00000000000000000001.txt",
            "1 a\n\0\0\0\0\0\0\0\0\0",
        ),
    },
    Kept {
        files: &[
            WORLD,
            ONE,
            TWO,
            ("journal-00000000000000000003.txt", "\0\n4 d\n"),
            ("rest-00000000000000000003.txt", "an older rest"),
        ],
        text: "",
        rest: Some(("rest-00000000000000000003.txt", "\0\n4 d\n")),
        last: ("journal-00000000000000000003.txt", "\0\0\0\0\0\0"),
    },
    // A state whose sum is wrong beside an older one whose sum is right.
    Kept {
        files: &[
            WORLD,
            ONE,
            TWO,
            THREE,
            (
                "state-00000000000000000003.txt",
                "state 3\nsum 3ea200d0c755f69b1f7fc66043f6222555f131ac20be2513facae756c0075092\n",
            ),
            ("journal-00000000000000000004.txt", "4 d\n"),
        ],
        text: "3 c\n4 d\n",
        rest: None,
        last: ("journal-00000000000000000004.txt", "4 d\n"),
    },
    // A wrong state that is older than one whose sum is right.
    Kept {
        files: &[
            WORLD,
            ONE,
            THREE,
            ("state-00000000000000000002.txt", "state"),
            (
                "state-00000000000000000003.txt",
                "state 3\nsum 39dfc3e250207b80c0df43ddee9433ab86f78c9617394f73adf7ca5b0b52bba7\n",
            ),
            ("journal-00000000000000000004.txt", "4 d\n"),
        ],
        text: "4 d\n",
        rest: None,
        last: ("journal-00000000000000000004.txt", "4 d\n"),
    },
    // Older segments may be gone, and other files may stand there.
    Kept {
        files: &[
            WORLD,
            TWO,
            THREE,
            ("lock", ""),
            ("notes", "journal-1"),
            ("new", "st"),
        ],
        text: "3 c\n",
        rest: None,
        last: THREE,
    },
];

#[test]
fn what_stands_behind_the_text_is_kept(rt: HostRuntime) -> Result<(), Fail> {
    let alloc = rt.alloc();
    for row in KEPT {
        let folder = folder_of(alloc, row.files)?;
        let Ok(mut log) = open_log(alloc, folder, WORLD.1.as_bytes(), SPARE) else {
            panic!(rt; "it is opened");
        };
        let folder = &mut log.segment.folder;
        let last = folder.file(row.last.0)?.unwrap_or(Vec::new(alloc));
        assert!(rt; last.as_slice() == row.last.1.as_bytes());
        if let Some((name, bytes)) = row.rest {
            let rest = folder.file(name)?.unwrap_or(Vec::new(alloc));
            assert!(rt; rest.as_slice() == bytes.as_bytes());
        }
        match read_log(alloc, folder, WORLD.1.as_bytes()) {
            Ok(reading) => assert!(rt; reading.text.as_slice() == row.text.as_bytes()),
            Err(_) => panic!(rt; "it is read"),
        }
    }
    Ok(())
}
