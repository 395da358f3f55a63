//! The adapters of the system's files and writers.

use crate::hostile::system::Turn::{Fails, Moves};
use crate::hostile::system::{OneFile, Slow, Turn};
use std::alloc::Global;
use std::io::ErrorKind;
use std::rt::Files as System;
use std::test::Fail;
use sv_bytes::{FileFault, OsFiles, OsSink, read_all, write_all};

/// Longer than what one read asks for.
const LONG: &[u8] = &[7; 5_000];

/// What the opening answers and what the reads do, the bytes of the file, and what is read of it up to 4,500 bytes.
type Reads = (
    Option<ErrorKind>,
    &'static [Turn],
    &'static [u8],
    Result<usize, FileFault>,
);

const READS: &[Reads] = &[
    (None, &[], b"hello", Ok(5)),
    (None, &[], b"", Ok(0)),
    (None, &[], LONG, Ok(4_500)),
    (None, &[Moves(1), Moves(1), Moves(1)], b"hello", Ok(5)),
    (None, &[Moves(4_095), Moves(1), Moves(1)], LONG, Ok(4_500)),
    (None, &[Moves(2), Moves(0)], b"hello", Ok(2)),
    (
        None,
        &[
            Fails(ErrorKind::Interrupted),
            Moves(1),
            Fails(ErrorKind::Interrupted),
            Fails(ErrorKind::Interrupted),
        ],
        b"hello",
        Ok(5),
    ),
    (
        None,
        &[Fails(ErrorKind::PermissionDenied)],
        b"hello",
        Err(FileFault::Failed),
    ),
    (
        None,
        &[Moves(3), Fails(ErrorKind::Other)],
        b"hello",
        Err(FileFault::Failed),
    ),
    (
        None,
        &[Fails(ErrorKind::Interrupted), Fails(ErrorKind::WouldBlock)],
        b"hello",
        Err(FileFault::Failed),
    ),
    (
        Some(ErrorKind::NotFound),
        &[],
        b"hello",
        Err(FileFault::Failed),
    ),
    (
        Some(ErrorKind::PermissionDenied),
        &[],
        b"hello",
        Err(FileFault::Failed),
    ),
    (
        Some(ErrorKind::OutOfMemory),
        &[],
        b"hello",
        Err(FileFault::Memory),
    ),
];

/// What is read of a system's one file.
fn front_of<R: System>(alloc: Global, system: &R) -> Result<Vec<u8>, FileFault> {
    let mut files = OsFiles::new(system);
    read_all(alloc, &mut files, "a", 4_500)
}

/// Whether just so much of the front of these bytes was read, or this fault was told.
fn is_front(
    read: Result<Vec<u8>, FileFault>,
    bytes: &[u8],
    wanted: Result<usize, FileFault>,
) -> bool {
    match (read, wanted) {
        (Ok(read), Ok(count)) => read.len() == count && bytes.starts_with(read.as_slice()),
        (Err(fault), Err(other)) => fault == other,
        _ => false,
    }
}

fn is_read(alloc: Global, row: Reads) -> bool {
    let (opening, turns, bytes, wanted) = row;
    let system = OneFile {
        alloc,
        opening,
        turns,
        bytes,
    };
    is_front(front_of(alloc, &system), bytes, wanted)
}

#[test]
fn files_are_read_whole_or_refused(rt: HostRuntime) -> Result<(), Fail> {
    for (place, row) in READS.iter().enumerate() {
        assert!(rt; is_read(rt.alloc(), *row), "row {place}");
    }
    Ok(())
}

/// What the writes do, whether all of it is told as written, and what is.
type Writes = (&'static [Turn], bool, &'static [u8]);

const WRITES: &[Writes] = &[
    (&[], true, b"hello"),
    (
        &[Moves(1), Moves(1), Moves(1), Moves(1), Moves(1)],
        true,
        b"hello",
    ),
    (&[Moves(2), Moves(2)], true, b"hello"),
    (
        &[
            Fails(ErrorKind::Interrupted),
            Moves(4),
            Fails(ErrorKind::Interrupted),
        ],
        true,
        b"hello",
    ),
    (&[Fails(ErrorKind::BrokenPipe)], false, b""),
    (&[Moves(3), Fails(ErrorKind::StorageFull)], false, b"hel"),
    (&[Moves(4), Moves(0)], false, b"hell"),
    (&[Fails(ErrorKind::OutOfMemory)], false, b""),
    (
        &[Fails(ErrorKind::Interrupted), Fails(ErrorKind::Other)],
        false,
        b"",
    ),
];

fn is_written(alloc: Global, row: Writes) -> bool {
    let (turns, whole, written) = row;
    let mut file = Slow::new(alloc, turns, b"");
    let mut sink = OsSink::new(&mut file);
    let told = write_all(&mut sink, b"hello");
    drop(sink);
    told == whole && file.written.as_slice() == written
}

#[test]
fn writes_are_told_by_what_was_written(rt: HostRuntime) -> Result<(), Fail> {
    for (place, row) in WRITES.iter().enumerate() {
        assert!(rt; is_written(rt.alloc(), *row), "row {place}");
    }
    Ok(())
}

/// A call that is interrupted for ever: so often it is made anew.
const INTERRUPTED: &[Turn] = &[Fails(ErrorKind::Interrupted); 1_000];

#[test]
fn calls_are_not_made_anew_for_ever(rt: HostRuntime) -> Result<(), Fail> {
    assert!(rt; is_read(rt.alloc(), (None, &INTERRUPTED[..999], b"hello", Ok(5))));
    assert!(rt;
        is_read(
            rt.alloc(),
            (None, INTERRUPTED, b"hello", Err(FileFault::Failed))
        )
    );
    assert!(rt; is_written(rt.alloc(), (&INTERRUPTED[..999], true, b"hello")));
    assert!(rt; is_written(rt.alloc(), (INTERRUPTED, false, b"")));
    Ok(())
}
