//! Tests of files and sinks, in memory and of the system.
ghost use Rattle.std.specs.Prelude.{◌<◌};

use std::alloc::{AllocError, Global};
use std::fs;
use std::test::Fail;
use sv_bytes::{FileFault, MemFiles, MemSink, OsFiles, OsSink, read_all, write_all, write_pieces};

fn greeting(alloc: Global, step: usize, failing: u64) -> Result<MemFiles, AllocError>
    requires { 0 < step }
{
    let mut files = MemFiles::new(alloc);
    files.add("greeting", b"hello")?;
    files.give_at_most(step);
    files.fail_at(failing)?;
    Ok(files)
}

fn hello_written(
    alloc: Global,
    room: usize,
    step: usize,
    failing: u64,
) -> Result<(bool, MemSink), AllocError>
    requires { 0 < step }
{
    let mut sink = MemSink::with_room(alloc, room)?;
    sink.take_at_most(step);
    sink.fail_at(failing)?;
    let is_whole = write_all(&mut sink, b"hello");
    Ok((is_whole, sink))
}

/// Whether just these bytes are read up to a limit.
fn is_read(
    alloc: Global,
    files: &mut MemFiles,
    limit: usize,
    wanted: &[u8],
) -> Result<bool, FileFault> {
    Ok(read_all(alloc, files, "greeting", limit)?.as_slice() == wanted)
}

#[test]
fn reads_up_to_the_limit(rt: HostRuntime) -> Result<(), Fail> {
    let mut files = greeting(rt.alloc(), 2, 0)?;
    let front = is_read(rt.alloc(), &mut files, 3, b"hel");
    let all = is_read(rt.alloc(), &mut files, 9, b"hello");
    drop(files);
    assert!(rt; front?);
    assert!(rt; all?);
    Ok(())
}

/// Whether the reading of a file fails.
fn fails(alloc: Global, step: usize, failing: u64, name: &str) -> Result<bool, AllocError>
    requires { 0 < step }
{
    let mut files = greeting(alloc, step, failing)?;
    let answer = read_all(alloc, &mut files, name, 9);
    drop(files);
    Ok(matches!(answer, Err(FileFault::Failed)))
}

#[test]
fn fails_at_an_unknown_name(rt: HostRuntime) -> Result<(), Fail> {
    assert!(rt; fails(rt.alloc(), 9, 0, "farewell")?);
    Ok(())
}

// `begin` is call 1, and each read gives two bytes: call 5 finds the end.
#[test]
fn fails_at_each_call(rt: HostRuntime) -> Result<(), Fail> {
    for call in 1..6 {
        assert!(rt; fails(rt.alloc(), 2, call, "greeting")?, "at {call}");
    }
    Ok(())
}

/// The bytes that a sink of so much room has after such a write, which is told as whole or not.
fn leaves(
    alloc: Global,
    room: usize,
    step: usize,
    failing: u64,
    wanted: (bool, &[u8]),
) -> Result<bool, AllocError>
    requires { 0 < step }
{
    let (is_whole, sink) = hello_written(alloc, room, step, failing)?;
    let (is_told, bytes) = wanted;
    let is_so = is_whole == is_told && sink.bytes() == bytes;
    drop(sink);
    Ok(is_so)
}

#[test]
fn writes_all(rt: HostRuntime) -> Result<(), Fail> {
    assert!(rt; leaves(rt.alloc(), 5, 2, 4, (true, b"hello"))?);
    Ok(())
}

#[test]
fn keeps_what_was_written_before_a_fault(rt: HostRuntime) -> Result<(), Fail> {
    assert!(rt; leaves(rt.alloc(), 5, 9, 1, (false, b""))?);
    assert!(rt; leaves(rt.alloc(), 5, 2, 2, (false, b"he"))?);
    // There is no room for the last byte.
    assert!(rt; leaves(rt.alloc(), 4, 9, 0, (false, b"hell"))?);
    Ok(())
}

fn writes_pieces(alloc: Global) -> Result<bool, AllocError> {
    let mut sink = MemSink::with_room(alloc, 20)?;
    let is_whole = write_pieces(
        &mut sink,
        &[b"file: ".as_slice(), b"a.json".as_slice(), b"\n".as_slice()],
    );
    let is_so = is_whole && sink.bytes() == b"file: a.json\n".as_slice();
    drop(sink);
    Ok(is_so)
}

#[test]
fn writes_pieces_in_a_row(rt: HostRuntime) -> Result<(), Fail> {
    assert!(rt; writes_pieces(rt.alloc())?);
    Ok(())
}

#[test]
fn writes_and_reads_a_file_of_the_system(rt: HostRuntime) -> Result<(), Fail> {
    let mut sink = OsSink::new(fs::create(&rt, "words.txt")?);
    assert!(rt; write_all(&mut sink, b"seven\nbytes"));
    let mut files = OsFiles::new(&rt);
    let bytes = read_all(rt.alloc(), &mut files, "words.txt", 5)?;
    assert_eq!(rt; bytes.as_slice(), b"seven".as_slice());
    Ok(())
}

// A directory can be begun, and its first read fails.
#[test]
fn fails_at_files_of_the_system(rt: HostRuntime) -> Result<(), Fail> {
    let mut files = OsFiles::new(&rt);
    let missing = read_all(rt.alloc(), &mut files, "missing.txt", 5);
    assert!(rt; matches!(missing, Err(FileFault::Failed)));
    let directory = read_all(rt.alloc(), &mut files, ".", 5);
    assert!(rt; matches!(directory, Err(FileFault::Failed)));
    Ok(())
}

#[test]
fn fails_at_a_file_that_is_not_written(rt: HostRuntime) -> Result<(), Fail> {
    fs::write(&rt, "read_only.txt", "words")?;
    let mut sink = OsSink::new(fs::open(&rt, "read_only.txt")?);
    assert!(rt; !write_all(&mut sink, b"more"));
    Ok(())
}
