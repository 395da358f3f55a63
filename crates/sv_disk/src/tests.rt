//! The log over a folder of the system.
ghost use Rattle.std.specs.Prelude.{◌≡◌, true};
ghost use Rattle.sv_log.specs.Logs.{HasSizes};

use crate::{DiskFault, DiskFolder, SyncMode};
use std::fs;
use std::process::Abort;
use std::test::Fail;
use sv_log::{Folder, Log, open_log, read_log, text_length};

const WORLD: &[u8] = b"{}";

const LAST: &str = "journal-00000000000000000001.txt";

fn opened<'r>(rt: &impl Abort, os: &'r HostRuntime, path: &str, mode: SyncMode) -> DiskFolder<'r> {
    match DiskFolder::open(os, path, mode) {
        Ok(folder) => folder,
        Err(_) => panic!(rt; "the folder is opened"),
    }
}

fn log_of<'r>(
    rt: &impl Abort,
    os: &'r HostRuntime,
    path: &str,
    mode: SyncMode,
) -> Log<DiskFolder<'r>>
    ensures sizes { HasSizes result.segment }
{
    match open_log(os.alloc(), opened(rt, os, path, mode), WORLD, 8) {
        Ok(log) => log,
        Err(_) => panic!(rt; "the log is opened"),
    }
}

fn append(rt: &impl Abort, log: &mut Log<DiskFolder<'_>>, lines: &str)
    requires sizes { HasSizes log.old.segment }
    ensures sizes { HasSizes log.new.segment }
{
    let bytes = lines.as_bytes();
    assert!(rt; text_length(bytes) == bytes.len());
    assert!(rt; log.append(bytes).is_ok());
}

fn sync(rt: &impl Abort, log: &mut Log<DiskFolder<'_>>)
    requires sizes { HasSizes log.old.segment }
    ensures sizes { HasSizes log.new.segment }
{
    assert!(rt; log.sync().is_ok());
}

fn has_text(rt: &impl Abort, os: &HostRuntime, folder: &mut DiskFolder<'_>, text: &str) {
    match read_log(os.alloc(), folder, WORLD) {
        Ok(reading) => assert!(rt; reading.text.as_slice() == text.as_bytes()),
        Err(_) => panic!(rt; "the log is read"),
    }
}

// Opens, appends and syncs, three times, the second time behind a torn write.
fn goes_on(rt: &impl Abort, os: &HostRuntime, path: &str, mode: SyncMode) -> Result<(), Fail> {
    let mut log = log_of(rt, os, path, mode);
    append(rt, &mut log, "1 a\n");
    sync(rt, &mut log);
    append(rt, &mut log, "2 b\n3 ccccccccccccccccc\n");
    sync(rt, &mut log);
    drop(log);
    let mut folder = opened(rt, os, path, mode);
    let all = "1 a\n2 b\n3 ccccccccccccccccc\n";
    has_text(rt, os, &mut folder, all);
    assert!(rt; folder.write_at(LAST, all.len(), b"4 \0d\n").is_ok());
    drop(folder);
    let mut log = log_of(rt, os, path, mode);
    append(rt, &mut log, "4 e\n");
    sync(rt, &mut log);
    drop(log);
    let mut folder = opened(rt, os, path, mode);
    has_text(rt, os, &mut folder, "1 a\n2 b\n3 ccccccccccccccccc\n4 e\n");
    Ok(())
}

#[test]
fn a_log_goes_on(rt: HostRuntime) -> Result<(), Fail> {
    for mode in [SyncMode::Waits, SyncMode::Never] {
        let _ = fs::remove_dir_all(&rt, "sv_disk_log");
        goes_on(&rt, &rt, "sv_disk_log", mode)?;
        let rest = fs::read(&rt, "sv_disk_log/rest-00000000000000000004.txt")?;
        assert!(rt; rest.as_slice() == b"\0d\n".as_slice());
    }
    fs::remove_dir_all(&rt, "sv_disk_log")?;
    Ok(())
}

#[test]
fn a_folder_is_held_by_one(rt: HostRuntime) -> Result<(), Fail> {
    let path = "sv_disk_held";
    let _ = fs::remove_dir_all(&rt, path);
    let first = opened(&rt, &rt, path, SyncMode::Waits);
    match DiskFolder::open(&rt, path, SyncMode::Never) {
        Err(fault) => assert!(rt; fault == DiskFault::Busy),
        Ok(_) => panic!(rt; "the folder is held"),
    }
    drop(first);
    drop(opened(&rt, &rt, path, SyncMode::Waits));
    match DiskFolder::open(&rt, "sv_disk_held/lock", SyncMode::Waits) {
        Err(fault) => assert!(rt; fault == DiskFault::Failed),
        Ok(_) => panic!(rt; "a file is no folder"),
    }
    fs::remove_dir_all(&rt, path)?;
    Ok(())
}

#[test]
fn each_call_does_what_it_says(rt: HostRuntime) -> Result<(), Fail> {
    let path = "sv_disk_calls";
    let _ = fs::remove_dir_all(&rt, path);
    let mut folder = opened(&rt, &rt, path, SyncMode::Waits);
    assert!(rt; folder.make("a", 3).is_ok());
    assert!(rt; folder.write_at("a", 1, b"xy").is_ok());
    assert!(rt; folder.grow("a", 20_000).is_ok());
    assert!(rt; folder.cut("a", 5).is_ok());
    assert!(rt; folder.sync("a").is_ok());
    assert!(rt; folder.rename("a", "b").is_ok());
    assert!(rt; folder.sync_folder().is_ok());
    assert!(rt; folder.make("c", 0).is_ok());
    let mut bytes = [7u8; 4];
    assert!(rt; folder.read_at("b", 1, &mut bytes) == Ok(4));
    assert!(rt; bytes == [b'x', b'y', 0, 0]);
    assert!(rt; folder.read_at("b", 3, &mut bytes) == Ok(2));
    assert!(rt; folder.read_at("b", 9, &mut bytes) == Ok(0));
    assert!(rt; folder.read_at("a", 0, &mut bytes).is_err());
    assert!(rt; folder.remove("c").is_ok());
    assert!(rt; folder.remove("c").is_err());
    match folder.names(rt.alloc()) {
        Ok(mut names) => {
            names.sort()?;
            assert!(rt; names.len() == 2);
            assert!(rt; names[0].as_str() == "b");
            assert!(rt; names[1].as_str() == "lock");
        }
        Err(_) => panic!(rt; "the names are listed"),
    }
    fs::remove_dir_all(&rt, path)?;
    Ok(())
}
