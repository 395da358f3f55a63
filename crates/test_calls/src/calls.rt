//! Calls of commands over files and outputs in memory.
use std::alloc::{AllocError, Global};
use sv_bytes::{MemFiles, MemSink};

/// Room for the longest output.
const ROOM: usize = 65_536;

/// What a call printed on its two outputs, and its status.
#[derive(Drop)]
pub struct Printed {
    pub status: u8,
    pub out: MemSink,
    pub err: MemSink,
}

impl Printed {
    /// Nothing yet, with status 0.
    pub fn nothing(alloc: Global) -> Result<Printed, AllocError> {
        Ok(Printed {
            status: 0,
            out: MemSink::with_room(alloc, ROOM)?,
            err: MemSink::with_room(alloc, ROOM)?,
        })
    }

    /// The same with an output that takes at most so many bytes at a time, and whose call of this number fails.
    pub fn cut(alloc: Global, step: usize, call: u64) -> Result<Printed, AllocError> {
        let mut printed = Printed::nothing(alloc)?;
        printed.out.take_at_most(step.max(1));
        printed.out.fail_at(call)?;
        Ok(printed)
    }

    /// The same where no line can be written beside the output.
    pub fn untold(alloc: Global) -> Result<Printed, AllocError> {
        let mut printed = Printed::nothing(alloc)?;
        printed.err.fail_at(1)?;
        Ok(printed)
    }

    /// Whether it is this status, with just these outputs.
    pub fn has(&self, status: u8, out: &str, err: &str) -> bool {
        self.status == status
            && self.out.bytes() == out.as_bytes()
            && self.err.bytes() == err.as_bytes()
    }

    /// The same of an answer that is let go. (It is let go by a call, not where a test's scope ends: that makes a long proof.)
    pub fn is(self, status: u8, out: &str, err: &str) -> bool {
        let is_so = self.has(status, out, err);
        drop(self);
        is_so
    }
}

pub fn words(alloc: Global, line: &str) -> Result<Vec<String>, AllocError> {
    let mut words = Vec::new(alloc);
    for word in line.split_whitespace() {
        words.push(String::from_str(alloc, word)?)?;
    }
    Ok(words)
}

/// Files by their names, with their texts.
pub fn files(alloc: Global, named: &[(&str, &str)]) -> Result<MemFiles, AllocError> {
    let mut files = MemFiles::new(alloc);
    for (name, text) in named {
        files.add(name, text.as_bytes())?;
    }
    Ok(files)
}

/// The same files with short reads, of which the call of this number fails.
pub fn unread(mut files: MemFiles, call: u64) -> Result<MemFiles, AllocError> {
    files.fail_at(call)?;
    files.give_at_most(40);
    Ok(files)
}

/// The file `a` with this text.
pub fn held(alloc: Global, text: &str) -> Result<MemFiles, AllocError> {
    files(alloc, &[("a", text)])
}

/// Calls a command that needs no more than files and outputs, and lets the files go. What it prints comes behind what was printed.
pub fn call<C>(
    command: C,
    alloc: Global,
    line: &str,
    mut files: MemFiles,
    mut printed: Printed,
) -> Result<Printed, AllocError>
where
    C: Fn(Global, &[String], &mut MemFiles, &mut MemSink, &mut MemSink) -> u8,
    requires { C.IsAlwaysCallable command }
{
    let words = words(alloc, line)?;
    let status = command(
        alloc,
        &words,
        &mut files,
        &mut printed.out,
        &mut printed.err,
    );
    printed.status = status;
    drop(files);
    Ok(printed)
}
