//! Calls of the witnessed run over files and outputs in memory.
use crate::witness::texts::FILES;
use std::alloc::{AllocError, Global};
use sv_bytes::{MemFiles, MemSink};
use sv_witness::run_witness;
use test_calls::{Printed, call, files};

/// The witnessed run, over objects in memory.
pub fn witnessed(
    alloc: Global,
    words: &[String],
    files: &mut MemFiles,
    out: &mut MemSink,
    err: &mut MemSink,
) -> u8 {
    run_witness(alloc, words, files, out, err)
}

/// The answer to a line of words.
pub fn called(alloc: Global, line: &str) -> Result<Printed, AllocError> {
    let files = files(alloc, &FILES)?;
    call(witnessed, alloc, line, files, Printed::nothing(alloc)?)
}
