//! A connection in memory, which two threads share.
ghost use Rattle.std.specs.Prelude.{◌≡◌, ◌≤◌, ◌<◌, ◌++◌, true, false, [], length, take, OnOk, OnErr, if◌then◌else◌};

use crate::side::Side;
use std::alloc::{AllocError, Global};
use std::collections::VecDeque;
use std::io::{Read, Write};
use std::sync::{Condvar, Mutex, Wait};

// The bytes that go one way, and were not read yet.
#[derive(Drop)]
struct Flow {
    bytes: VecDeque<u8>,
    // No more will be written.
    is_over: bool,
    // No more will be read.
    is_unread: bool,
}

impl Flow {
    fn new(alloc: Global) -> Flow
        ensures { (result.bytes.items ≡ []) × (result.is_over ≡ false) × (result.is_unread ≡ false) }
    {
        Flow {
            bytes: VecDeque::new(alloc),
            is_over: false,
            is_unread: false,
        }
    }

    fn put(&mut self, piece: &[u8]) -> Result<(), AllocError>
        ensures ok { OnOk result (self.new.bytes.items ≡ (if self.old.is_unread then self.old.bytes.items else self.old.bytes.items ++ piece.now)) }
        ensures err { OnErr result (self.new.bytes.items ≡ self.old.bytes.items) }
        ensures flags { (self.new.is_over ≡ self.old.is_over) × (self.new.is_unread ≡ self.old.is_unread) }
    {
        if self.is_unread {
            return Ok(());
        }
        match self.bytes.write(piece) {
            Ok(_) => Ok(()),
            Err(_) => Err(AllocError),
        }
    }

    fn take(&mut self, into: &mut [u8]) -> usize
        ensures count { result ≤ length into.new }
        ensures bytes { self.old.bytes.items ≡ take result into.new ++ self.new.bytes.items }
        ensures none { result ≡ 0 → 0 < length into.old → self.old.bytes.items ≡ [] }
        ensures flags { (self.new.is_over ≡ self.old.is_over) × (self.new.is_unread ≡ self.old.is_unread) }
    {
        self.bytes.read(into).unwrap_or(0)
    }

    fn end(&mut self)
        ensures { (self.new.bytes ≡ self.old.bytes) × (self.new.is_over ≡ true) × (self.new.is_unread ≡ self.old.is_unread) }
    {
        self.is_over = true;
    }

    fn leave(&mut self)
        ensures { (self.new.bytes.items ≡ []) × (self.new.is_over ≡ self.old.is_over) × (self.new.is_unread ≡ true) }
    {
        self.bytes.clear();
        self.is_unread = true;
    }
}

// One way of a connection. Whoever reads waits for bytes or for their end.
#[derive(Drop)]
pub(crate) struct Lane {
    flow: Mutex<Flow>,
    changed: Condvar,
}

impl Lane {
    fn new(alloc: Global) -> Lane {
        Lane {
            flow: Mutex::new(Flow::new(alloc)),
            changed: Condvar::new(),
        }
    }

    /// Takes all of the piece, or nothing where there is no memory. Where no more will be read, it goes nowhere.
    pub(crate) fn send<R: Wait>(&self, rt: &R, piece: &[u8]) -> Result<(), AllocError> {
        self.flow.lock(rt).put(piece)?;
        self.changed.notify_all();
        Ok(())
    }

    /// Waits for bytes, and reads as many as have come and fit: none where no more will come.
    pub(crate) fn receive<R: Wait>(&self, rt: &R, into: &mut [u8]) -> usize
        ensures { result ≤ length into.new }
    {
        let mut flow = self.changed.wait_while(rt, self.flow.lock(rt), |flow| {
            flow.bytes.is_empty() && !flow.is_over
        });
        flow.take(into)
    }

    /// No more will be written.
    pub(crate) fn end<R: Wait>(&self, rt: &R) {
        self.flow.lock(rt).end();
        self.changed.notify_all();
    }

    /// No more will be read.
    pub(crate) fn leave<R: Wait>(&self, rt: &R) {
        self.flow.lock(rt).leave();
    }
}

/// A connection in memory, which the two ends share.
#[derive(Drop)]
pub struct Pipe {
    to_server: Lane,
    to_client: Lane,
}

impl Pipe {
    /// Nothing was written, and both sides are open.
    pub fn new(alloc: Global) -> Pipe {
        Pipe {
            to_server: Lane::new(alloc),
            to_client: Lane::new(alloc),
        }
    }

    /// The way by which a side writes.
    pub(crate) fn from(&self, side: Side) -> &Lane {
        match side {
            Side::Server => &self.to_client,
            Side::Client => &self.to_server,
        }
    }

    /// The way by which a side reads.
    pub(crate) fn to(&self, side: Side) -> &Lane {
        match side {
            Side::Server => &self.to_server,
            Side::Client => &self.to_client,
        }
    }

    /// Closes a side: it writes no more, and reads no more.
    pub(crate) fn close<R: Wait>(&self, rt: &R, side: Side) {
        self.from(side).end(rt);
        self.to(side).leave(rt);
    }
}
