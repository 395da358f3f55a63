//! Calls of the program over objects in memory.

use std::alloc::{AllocError, Global};
use std::sync::Wait;
use std::thread::Threads;
use sv_bytes::MemFiles;
use sv_link::{Crew, Gate, Net, PipeNet, ThreadCrew};
use sv_run::run;
use test_calls::{Printed, held, words};

/// What a call works with: files, a net and a crew; and what it prints.
#[derive(Drop)]
pub struct Desk<N, C> {
    pub files: MemFiles,
    pub net: N,
    pub crew: C,
    pub printed: Printed,
}

impl<N: Net + Drop, C: Crew + Drop> Desk<N, C> {
    /// The file `a` has this text, and nothing is printed yet.
    pub fn new(alloc: Global, text: &str, net: N, crew: C) -> Result<Desk<N, C>, AllocError> {
        Ok(Desk {
            files: held(alloc, text)?,
            net,
            crew,
            printed: Printed::nothing(alloc)?,
        })
    }

    /// The program's answer to a line of words.
    pub fn called<R: Threads + Wait + Sync, G: Gate + Sync>(
        self,
        rt: &R,
        alloc: Global,
        line: &str,
        gate: &G,
    ) -> Result<Printed, AllocError> {
        let mut desk = self;
        let words = words(alloc, line)?;
        desk.printed.status = run(
            rt,
            alloc,
            &words,
            &mut desk.files,
            &mut desk.net,
            &mut desk.crew,
            gate,
            &mut desk.printed.out,
            &mut desk.printed.err,
        );
        Ok(desk.printed)
    }
}

/// A desk at which nothing fails.
pub fn desk_of<'r, R: Wait + Sync>(
    rt: &'r R,
    alloc: Global,
    text: &str,
) -> Result<Desk<PipeNet<'r, R>, ThreadCrew>, AllocError> {
    Desk::new(alloc, text, PipeNet::new(alloc, rt), ThreadCrew::new(alloc))
}

/// The program's answer there.
pub fn called_well<R: Threads + Wait + Sync, G: Gate + Sync>(
    rt: &R,
    alloc: Global,
    line: &str,
    text: &str,
    gate: &G,
) -> Result<Printed, AllocError> {
    desk_of(rt, alloc, text)?.called(rt, alloc, line, gate)
}
