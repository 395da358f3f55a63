//! A file system of one file, and a writer, whose calls do what a table says.

use std::alloc::{Allocator, Global};
use std::fs::{Metadata, OpenFile, OpenOptions};
use std::io;
use std::io::{ErrorKind, Read, Seek, SeekFrom, Write};
use std::rt::Files;

/// What a call does.
#[derive(Clone, Copy, Debug)]
pub enum Turn {
    /// It moves at most so many bytes.
    Moves(usize),

    /// It answers this error.
    Fails(ErrorKind),
}

fn refused<T>() -> io::Result<T> {
    Err(io::Error::from(ErrorKind::Unsupported))
}

/// A file whose reads and writes take one turn after the other. Behind the last one they move all that they can.
#[derive(Drop)]
pub struct Slow {
    turns: &'static [Turn],
    coming: &'static [u8],
    pub written: Vec<u8>,
}

impl Slow {
    pub fn new(alloc: Global, turns: &'static [Turn], coming: &'static [u8]) -> Slow {
        Slow {
            turns,
            coming,
            written: Vec::new(alloc),
        }
    }

    /// How many bytes the next call may move.
    fn most(&mut self) -> io::Result<usize> {
        let Some((turn, rest)) = self.turns.split_first() else {
            return Ok(usize::MAX);
        };
        self.turns = rest;
        match *turn {
            Turn::Moves(count) => Ok(count),
            Turn::Fails(kind) => Err(io::Error::from(kind)),
        }
    }
}

impl Read for Slow {
    fn read(&mut self, buf: &mut [u8]) -> io::Result<usize> {
        let count = self.most()?.min(buf.len()).min(self.coming.len());
        let (front, rest) = self.coming.split_at(count);
        buf[..count].copy_from_slice(front);
        self.coming = rest;
        Ok(count)
    }
}

impl Write for Slow {
    fn write(&mut self, buf: &[u8]) -> io::Result<usize> {
        let count = self.most()?.min(buf.len());
        self.written.extend_from_slice(&buf[..count])?;
        Ok(count)
    }

    fn flush(&mut self) -> io::Result<()> {
        Ok(())
    }
}

impl Seek for Slow {
    fn seek(&mut self, _to: SeekFrom) -> io::Result<u64> {
        refused()
    }
}

impl OpenFile for Slow {
    fn metadata(&self) -> io::Result<Metadata> {
        refused()
    }

    fn set_len(&self, _size: u64) -> io::Result<()> {
        refused()
    }

    fn sync_all(&self) -> io::Result<()> {
        refused()
    }

    fn sync_data(&self) -> io::Result<()> {
        refused()
    }
}

/// A system that opens this one file under every name, or answers an error.
#[derive(Drop)]
pub struct OneFile {
    pub alloc: Global,
    pub opening: Option<ErrorKind>,
    pub turns: &'static [Turn],
    pub bytes: &'static [u8],
}

impl Files for OneFile {
    type File = Slow;

    type Dir = Slow;

    fn open_file(&self, _how: &OpenOptions, _path: &str) -> io::Result<Slow> {
        match self.opening {
            Some(kind) => Err(io::Error::from(kind)),
            None => Ok(Slow::new(self.alloc, self.turns, self.bytes)),
        }
    }

    fn open_dir(&self, _path: &str) -> io::Result<Slow> {
        refused()
    }

    fn metadata(&self, _path: &str) -> io::Result<Metadata> {
        refused()
    }

    fn symlink_metadata(&self, _path: &str) -> io::Result<Metadata> {
        refused()
    }

    fn copy(&self, _from: &str, _to: &str) -> io::Result<u64> {
        refused()
    }

    fn rename(&self, _from: &str, _to: &str) -> io::Result<()> {
        refused()
    }

    fn remove_file(&self, _path: &str) -> io::Result<()> {
        refused()
    }

    fn create_dir(&self, _path: &str) -> io::Result<()> {
        refused()
    }

    fn remove_dir(&self, _path: &str) -> io::Result<()> {
        refused()
    }

    fn remove_dir_all<B: Allocator>(&self, _alloc: B, _path: &str) -> io::Result<()> {
        refused()
    }
}
