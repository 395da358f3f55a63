//! A locked folder of the system.
ghost use Rattle.std.specs.Prelude.{◌≡◌, IfOk, Ok};
ghost use Rattle.sv_bytes.specs.Faults.{ReadAllCause};

use super::calls::{Calls, SyncMode, path_of};
use std::alloc::{AllocError, Global};
use std::fs::{self, File, OpenOptions, TryLockError};
use std::io::{self, ErrorKind};
use sv_bytes::{FaultCount, FileFault};
use sv_log::Folder;

/// The file that a process locks, so that no other has the folder.
const LOCK: &str = "lock";

/// Why a folder was not opened.
#[derive(Clone, Copy, Debug, PartialEq, Eq)]
pub enum DiskFault {
    /// Another process has it.
    Busy,
    Failed,
    Memory,
}

impl From<io::Error> for DiskFault {
    fn from(error: io::Error) -> DiskFault {
        match error.kind() {
            ErrorKind::OutOfMemory => DiskFault::Memory,
            _ => DiskFault::Failed,
        }
    }
}

impl From<AllocError> for DiskFault {
    fn from(_error: AllocError) -> DiskFault {
        DiskFault::Memory
    }
}

/// A folder of the system, which one process has at a time.
///
/// Its contracts count its faults, and tell nothing of what its files hold. That they hold what a `Folder` says, and that all that stands
/// there was on the disk when the folder was opened, is trusted.
#[derive(Drop)]
pub struct DiskFolder<'r> {
    calls: Calls<'r>,
    // Held as long as the folder is.
    lock: File,
    faults: FaultCount,
}

impl<'r> DiskFolder<'r> {
    /// Opens a folder and locks it. It is made where it is not there.
    ///
    /// With `SyncMode::Waits` all that stands in it is on the disk then.
    pub fn open(
        rt: &'r HostRuntime,
        path: &str,
        mode: SyncMode,
    ) -> Result<DiskFolder<'r>, DiskFault> {
        make_folder(rt, path)?;
        let lock = lock_folder(rt, path)?;
        let calls = Calls::new(rt, path, mode)?;
        calls.sync_everything()?;
        Ok(DiskFolder {
            calls,
            lock,
            faults: FaultCount::new(),
        })
    }
}

fn make_folder(rt: &HostRuntime, path: &str) -> io::Result<()> {
    match fs::create_dir(rt, path) {
        Err(error) if error.kind() != ErrorKind::AlreadyExists => Err(error),
        _ => Ok(()),
    }
}

fn lock_folder(rt: &HostRuntime, path: &str) -> Result<File, DiskFault> {
    let path = path_of(rt.alloc(), path, LOCK)?;
    let file = OpenOptions::new()
        .read(true)
        .write(true)
        .create(true)
        .open(rt, &path)?;
    match file.try_lock() {
        Ok(()) => Ok(file),
        Err(TryLockError::WouldBlock) => Err(DiskFault::Busy),
        Err(TryLockError::Error(error)) => Err(DiskFault::from(error)),
    }
}

// The answer of a call, counted if it failed.
fn told<T: Drop>(faults: &mut FaultCount, answer: io::Result<T>) -> Result<T, FileFault>
    ensures value { IfOk result (λ value. answer ≡ Ok value) }
    ensures cause { ReadAllCause faults.old.value faults.new.value result }
{
    match answer {
        Ok(value) => Ok(value),
        Err(error) if error.kind() == ErrorKind::OutOfMemory => Err(FileFault::Memory),
        Err(_) => {
            faults.raise();
            Err(FileFault::Failed)
        }
    }
}

impl<'r> Folder for DiskFolder<'r> {
    ghost use Rattle.std.specs.Prelude.{[], None};

    ghost disk = { λ _. record { start = λ _. None; past = [] } };

    ghost is_honest = { λ _. ⊥ };

    ghost faults = { λ s. s.faults.value };

    fn names(&mut self, alloc: Global) -> Result<Vec<String>, FileFault> {
        told(&mut self.faults, self.calls.names(alloc))
    }

    fn read_at(&mut self, name: &str, at: usize, into: &mut [u8]) -> Result<usize, FileFault> {
        told(&mut self.faults, self.calls.read_at(name, at, into))
    }

    fn make(&mut self, name: &str, size: usize) -> Result<(), FileFault> {
        told(&mut self.faults, self.calls.make(name, size))
    }

    fn grow(&mut self, name: &str, size: usize) -> Result<(), FileFault> {
        told(&mut self.faults, self.calls.grow(name, size))
    }

    fn write_at(&mut self, name: &str, at: usize, bytes: &[u8]) -> Result<(), FileFault> {
        told(&mut self.faults, self.calls.write_at(name, at, bytes))
    }

    fn cut(&mut self, name: &str, size: usize) -> Result<(), FileFault> {
        told(&mut self.faults, self.calls.cut(name, size))
    }

    fn rename(&mut self, from: &str, to: &str) -> Result<(), FileFault> {
        told(&mut self.faults, self.calls.rename(from, to))
    }

    fn remove(&mut self, name: &str) -> Result<(), FileFault> {
        told(&mut self.faults, self.calls.remove(name))
    }

    fn sync(&mut self, name: &str) -> Result<(), FileFault> {
        told(&mut self.faults, self.calls.sync(name))
    }

    fn sync_folder(&mut self) -> Result<(), FileFault> {
        told(&mut self.faults, self.calls.sync_names())
    }
}
