//! The calls of the system, without their count of faults.
ghost use Rattle.std.specs.Prelude.{◌≤◌, length, IfOk};

use std::alloc::{AllocError, Global};
use std::fs::{self, File, OpenFile, OpenOptions};
use std::io::{self, ErrorKind};
use std::os::fd::AsRawFd;
use std::os::unix::fs::FileExt;

/// How many zeros are written at once.
const PIECE: usize = 16_384;

/// Whether a sync waits for the disk.
#[derive(Clone, Copy, Debug, PartialEq, Eq)]
pub enum SyncMode {
    Waits,
    /// What is synced outlives the process, and not the machine.
    Never,
}

/// The files of a folder, of which the one that was used last is open.
#[derive(Drop)]
pub(crate) struct Calls<'r> {
    rt: &'r HostRuntime,
    folder: String,
    mode: SyncMode,
    current: Option<Current>,
}

/// An open file and its name.
#[derive(Drop)]
struct Current {
    name: String,
    file: File,
}

impl<'r> Calls<'r> {
    pub(crate) fn new(
        rt: &'r HostRuntime,
        folder: &str,
        mode: SyncMode,
    ) -> Result<Calls<'r>, AllocError> {
        Ok(Calls {
            rt,
            folder: String::from_str(rt.alloc(), folder)?,
            mode,
            current: None,
        })
    }

    /// Puts all that stands in the folder on the disk, and the folder's own name.
    ///
    /// What a process that died left unsynced is synced then. The system's copies of the files are let go: where a sync failed, they may
    /// differ from what the disk has.
    pub(crate) fn sync_everything(&self) -> io::Result<()> {
        if self.mode == SyncMode::Never {
            return Ok(());
        }
        for entry in fs::read_dir(self.rt, self.folder.as_str())? {
            if let Some(entry) = named(entry)? {
                if entry.file_type()?.is_file() {
                    let file = File::open(self.rt, entry.path())?;
                    sync_file(&file)?;
                }
            }
        }
        self.sync_names()?;
        let above = path_of(self.rt.alloc(), self.folder.as_str(), "..")?;
        sync_folder(self.rt, above.as_str())
    }

    pub(crate) fn names(&self, alloc: Global) -> io::Result<Vec<String>> {
        let mut names = Vec::new(alloc);
        for entry in fs::read_dir(self.rt, self.folder.as_str())? {
            if let Some(entry) = named(entry)? {
                names.push(String::from_str(alloc, entry.file_name())?)?;
            }
        }
        Ok(names)
    }

    pub(crate) fn read_at(&mut self, name: &str, at: usize, into: &mut [u8]) -> io::Result<usize>
        ensures count { IfOk result (λ n. n ≤ length into.new) }
    {
        read_full(self.file(name)?, at, into)
    }

    pub(crate) fn make(&mut self, name: &str, size: usize) -> io::Result<()> {
        self.current = None;
        let path = self.path(name)?;
        let file = OpenOptions::new()
            .read(true)
            .write(true)
            .create(true)
            .truncate(true)
            .open(self.rt, &path)?;
        let name = String::from_str(self.rt.alloc(), name)?;
        put_zeros(&file, 0, size)?;
        self.current = Some(Current { name, file });
        Ok(())
    }

    pub(crate) fn grow(&mut self, name: &str, size: usize) -> io::Result<()> {
        let file = self.file(name)?;
        put_zeros(file, file.metadata()?.len(), size)
    }

    pub(crate) fn write_at(&mut self, name: &str, at: usize, bytes: &[u8]) -> io::Result<()> {
        self.file(name)?.write_all_at(bytes, at as u64)
    }

    pub(crate) fn cut(&mut self, name: &str, size: usize) -> io::Result<()> {
        self.file(name)?.set_len(size as u64)
    }

    pub(crate) fn rename(&mut self, from: &str, to: &str) -> io::Result<()> {
        self.current = None;
        fs::rename(self.rt, &self.path(from)?, &self.path(to)?)
    }

    pub(crate) fn remove(&mut self, name: &str) -> io::Result<()> {
        self.current = None;
        fs::remove_file(self.rt, &self.path(name)?)
    }

    pub(crate) fn sync(&mut self, name: &str) -> io::Result<()> {
        match self.mode {
            SyncMode::Never => Ok(()),
            SyncMode::Waits => self.file(name)?.sync_data(),
        }
    }

    pub(crate) fn sync_names(&self) -> io::Result<()> {
        match self.mode {
            SyncMode::Never => Ok(()),
            SyncMode::Waits => sync_folder(self.rt, self.folder.as_str()),
        }
    }

    fn path(&self, name: &str) -> Result<String, AllocError> {
        path_of(self.rt.alloc(), self.folder.as_str(), name)
    }

    // The file of this name, which stays open until another one is used.
    fn file(&mut self, name: &str) -> io::Result<&File> {
        let is_open = match &self.current {
            Some(current) => current.name.as_str() == name,
            None => false,
        };
        if !is_open {
            self.open(name)?;
        }
        match &self.current {
            Some(current) => Ok(&current.file),
            None => Err(io::Error::from(ErrorKind::NotFound)),
        }
    }

    #[inline(never)]
    fn open(&mut self, name: &str) -> io::Result<()> {
        self.current = None;
        let path = self.path(name)?;
        let file = OpenOptions::new()
            .read(true)
            .write(true)
            .open(self.rt, &path)?;
        let name = String::from_str(self.rt.alloc(), name)?;
        self.current = Some(Current { name, file });
        Ok(())
    }
}

pub(crate) fn path_of(alloc: Global, folder: &str, name: &str) -> Result<String, AllocError> {
    format!(in alloc; "{folder}/{name}")
}

// An entry, unless its name is no text, and so the name of no file that is asked for.
fn named(entry: io::Result<fs::DirEntry>) -> io::Result<Option<fs::DirEntry>> {
    match entry {
        Ok(entry) => Ok(Some(entry)),
        Err(error) if error.kind() == ErrorKind::InvalidFilename => Ok(None),
        Err(error) => Err(error),
    }
}

fn sync_file(file: &File) -> io::Result<()> {
    file.sync_all()?;
    match libc::posix_fadvise(file.as_raw_fd(), 0, 0, libc::POSIX_FADV_DONTNEED) {
        0 => Ok(()),
        error => Err(io::Error::from_raw_os_error(error)),
    }
}

fn sync_folder(rt: &HostRuntime, path: &str) -> io::Result<()> {
    let folder = OpenOptions::new().read(true).open(rt, path)?;
    folder.sync_all()
}

// Writes so many zeros from an offset on.
fn put_zeros(file: &File, at: u64, size: usize) -> io::Result<()> {
    let zeros = [0u8; PIECE];
    let mut left = size;
    let mut place = at;
    while left > 0 {
        let count = left.min(PIECE);
        file.write_all_at(&zeros[..count], place)?;
        left -= count;
        place = place.saturating_add(count as u64);
    }
    Ok(())
}

// Reads until the buffer is full or the file ends.
fn read_full(file: &File, at: usize, into: &mut [u8]) -> io::Result<usize>
    ensures count { IfOk result (λ n. n ≤ length into.new) }
{
    let mut done = 0;
    while done < into.len() {
        let place = (at as u64).saturating_add(done as u64);
        match file.read_at(&mut into[done..], place)? {
            0 => return Ok(done),
            count => done += count,
        }
    }
    Ok(done)
}
