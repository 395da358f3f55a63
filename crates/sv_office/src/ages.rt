//! How long positions have been without a result.
use std::alloc::{AllocError, Global};

/// Up to which position actions were accepted at a time.
#[derive(Clone, Copy, Debug, Drop, PartialEq, Eq)]
struct Mark {
    last: u32,
    time: u64,
}

/// When the positions above the commit were accepted.
#[derive(Drop)]
pub struct Ages {
    marks: Vec<Mark>,
    /// How many of the marks are at or below the commit.
    past: usize,
}

/// How many marks are let go at once.
const MANY: usize = 1024;

impl Ages {
    pub fn new(alloc: Global) -> Ages {
        Ages {
            marks: Vec::new(alloc),
            past: 0,
        }
    }

    /// Notes that this is the last accepted position at a time.
    pub fn note(&mut self, last: u32, time: u64) -> Result<(), AllocError> {
        let is_noted = match self.marks.last() {
            Some(mark) => mark.last == last,
            None => false,
        };
        if !is_noted {
            self.marks.push(Mark { last, time })?;
        }
        Ok(())
    }

    // Whether the next mark is at or below the commit.
    fn is_past(&self, commit: u32) -> bool {
        match self.marks.get(self.past) {
            Some(mark) => mark.last <= commit,
            None => false,
        }
    }

    /// When the lowest position above the commit was accepted, where there is one.
    pub fn oldest(&mut self, commit: u32) -> Option<u64> {
        for _ in 0..self.marks.len() {
            if !self.is_past(commit) {
                break;
            }
            self.past = self.past.saturating_add(1);
        }
        if self.past >= MANY && self.past <= self.marks.len() {
            self.marks.drain(..self.past);
            self.past = 0;
        }
        let mark = self.marks.get(self.past)?;
        Some(mark.time)
    }
}
