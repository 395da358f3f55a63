//! Calls of the checker over files in memory.
use std::alloc::{AllocError, Global};
use sv_audit::run_check;
use sv_bytes::{MemFiles, MemSink};
use test_calls::examples::{
    CONFLICT, CONFLICT_REPORT, FIRST, FIRST_REPORT, LOOKS, LOOKS_REPORT, OBSERVE, OBSERVE_REPORT,
};
use test_calls::{Printed, call, files};

/// What `serve` prints of the first scenario.
pub const FIRST_SERVED: &str =
    "journal 5\n1 s0 join c0 1 [0] -> welcome 0 [0=(5)]\n2 s0 submit 1 reads 0 writes 0 { set @0.0 (@0.0 + 1); } -> relay 1 at 0 [] [1:c0.1]\n3 s0 done [1:(6)] -> noted 1\n4 s0 leave -> bye\n5 s0 end -> bye\ncommit 1\n";

/// The same with a request that is none, with another commit, and with a line behind it.
pub const BAD_SERVED: &str = "journal 2\n1 s0 bad -> refused 1 0\n2 s0 end -> bye\ncommit 0\n";

pub const FALSE_SERVED: &str = "journal 1\n1 s0 end -> bye\ncommit 1\n";

pub const LONG_SERVED: &str = "journal 1\n1 s0 end -> bye\ncommit 0\ncommit 0\n";

/// Four scenarios and their reports, what `serve` prints, and one that is no scenario.
pub const FILES: [(&str, &str); 13] = [
    ("first.json", FIRST),
    ("first.out", FIRST_REPORT),
    ("conflict.json", CONFLICT),
    ("conflict.out", CONFLICT_REPORT),
    ("looks.json", LOOKS),
    ("looks.out", LOOKS_REPORT),
    ("observe.json", OBSERVE),
    ("observe.out", OBSERVE_REPORT),
    ("served.out", FIRST_SERVED),
    ("bad.out", BAD_SERVED),
    ("false.out", FALSE_SERVED),
    ("long.out", LONG_SERVED),
    ("none.json", "{}"),
];

/// The checker, over objects in memory.
pub fn checked(
    alloc: Global,
    words: &[String],
    files: &mut MemFiles,
    out: &mut MemSink,
    err: &mut MemSink,
) -> u8 {
    run_check(alloc, words, files, out, err)
}

/// The checker's answer to a line of words.
pub fn called(alloc: Global, line: &str) -> Result<Printed, AllocError> {
    let files = files(alloc, &FILES)?;
    call(checked, alloc, line, files, Printed::nothing(alloc)?)
}
