//! Folders that are read.

use std::alloc::{AllocError, Global};
use std::process::Abort;
use std::test::Fail;
use sv_log::{LogRefusal, MemFolder, Reading, read_log, sum_line};

const WORLD: &str = "{\"attrs\":1,\"objects\":[[1]],\"bound\":4}";

const ONE: &str = "journal-00000000000000000001.txt";

const THREE: &str = "journal-00000000000000000003.txt";

const FIVE: &str = "journal-00000000000000000005.txt";

const STATE_TWO: &str = "state-00000000000000000002.txt";

const STATE_FOUR: &str = "state-00000000000000000004.txt";

fn put(folder: MemFolder, name: &str, bytes: &str) -> Result<MemFolder, AllocError> {
    folder.with_file(name, bytes.as_bytes())
}

/// A folder with the world, and one segment of this text.
fn with_one(alloc: Global, text: &str) -> Result<MemFolder, AllocError> {
    let folder = put(MemFolder::new(alloc), "world.json", WORLD)?;
    put(folder, ONE, text)
}

/// The bytes of a state with its sum.
fn state_of(alloc: Global, front: &str) -> Result<String, AllocError> {
    let mut bytes = String::from_str(alloc, front)?;
    let line = sum_line(alloc, front.as_bytes())?;
    bytes.push_str(line.as_str())?;
    Ok(bytes)
}

fn read(alloc: Global, mut folder: MemFolder) -> Result<Reading, LogRefusal> {
    read_log(alloc, &mut folder, WORLD.as_bytes())
}

fn is_read(rt: &impl Abort, alloc: Global, folder: MemFolder, text: &str, next: u64) {
    match read(alloc, folder) {
        Ok(reading) => {
            assert!(rt; reading.text.as_slice() == text.as_bytes());
            assert!(rt; reading.next == next);
        }
        Err(_) => panic!(rt; "it is read"),
    }
}

#[test]
fn reads_an_empty_log(rt: HostRuntime) -> Result<(), Fail> {
    let alloc = rt.alloc();
    is_read(&rt, alloc, MemFolder::new(alloc), "", 1);
    let folder = put(MemFolder::new(alloc), "world.json", WORLD)?;
    is_read(&rt, alloc, folder, "", 1);
    is_read(&rt, alloc, with_one(alloc, "")?, "", 1);
    is_read(&rt, alloc, with_one(alloc, "\0\0\0\0")?, "", 1);
    Ok(())
}

#[test]
fn reads_what_stands_before_the_first_zero(rt: HostRuntime) -> Result<(), Fail> {
    let alloc = rt.alloc();
    is_read(&rt, alloc, with_one(alloc, "1 a\n2 b\n")?, "1 a\n2 b\n", 3);
    is_read(
        &rt,
        alloc,
        with_one(alloc, "1 a\n2 b\n\0\0")?,
        "1 a\n2 b\n",
        3,
    );
    is_read(&rt, alloc, with_one(alloc, "1 a\n2 b")?, "1 a\n", 2);
    is_read(&rt, alloc, with_one(alloc, "1 a\n2 \0\n3 c\n")?, "1 a\n", 2);
    is_read(&rt, alloc, with_one(alloc, "1 a\n\0\02 b\n")?, "1 a\n", 2);
    Ok(())
}

#[test]
fn reads_segment_after_segment(rt: HostRuntime) -> Result<(), Fail> {
    let alloc = rt.alloc();
    let folder = put(with_one(alloc, "1 a\n2 b\n")?, THREE, "3 c\n\0\0")?;
    is_read(&rt, alloc, folder, "1 a\n2 b\n3 c\n", 4);
    let folder = put(with_one(alloc, "1 a\n2 b\n")?, THREE, "")?;
    is_read(&rt, alloc, folder, "1 a\n2 b\n", 3);
    Ok(())
}

#[test]
fn reads_from_the_newest_whole_state(rt: HostRuntime) -> Result<(), Fail> {
    let alloc = rt.alloc();
    let two = state_of(alloc, "state 2\n")?;
    let folder = put(with_one(alloc, "1 a\n2 b\n")?, STATE_TWO, two.as_str())?;
    let folder = put(folder, THREE, "3 c\n4 d\n")?;
    is_read(&rt, alloc, folder, "3 c\n4 d\n", 5);
    let folder = put(with_one(alloc, "1 a\n2 b\n")?, STATE_TWO, two.as_str())?;
    let folder = put(folder, THREE, "3 c\n4 d\n")?;
    let folder = put(folder, STATE_FOUR, "state 4\nsum 0\n")?;
    let folder = put(folder, FIVE, "5 e\n")?;
    is_read(&rt, alloc, folder, "3 c\n4 d\n5 e\n", 6);
    Ok(())
}
