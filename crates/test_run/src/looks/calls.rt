//! Calls over objects in memory.
use std::alloc::{AllocError, Global};
use sv_bytes::{MemFiles, MemSink};
use sv_looks::run_looks;
use test_calls::{Printed, call, held};

/// The call that prints looks, over objects in memory.
pub fn looks(
    alloc: Global,
    words: &[String],
    files: &mut MemFiles,
    out: &mut MemSink,
    err: &mut MemSink,
) -> u8 {
    run_looks(alloc, words, files, out, err)
}

/// The answer to a line of words, where the file `a` has this text.
pub fn called(alloc: Global, line: &str, text: &str) -> Result<Printed, AllocError> {
    let files = held(alloc, text)?;
    call(looks, alloc, line, files, Printed::nothing(alloc)?)
}
