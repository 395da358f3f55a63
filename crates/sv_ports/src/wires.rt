//! What a script moves: connections that are made, and the bytes on them.
ghost use Rattle.std.specs.Prelude.{◌≡◌, ◌≤◌, length, vec_len};
ghost use Rattle.sv_ports.specs.Traffic.{PortReadsSome, WritesSome};

use crate::memory::Step;
use crate::ports::{PortRead, PortWrote, Ready};
use std::alloc::{AllocError, Global};

#[derive(Drop)]
struct Wire {
    waiting: Vec<u8>,
    is_ended: bool,
    fails_read: bool,
    fails_write: bool,
    takes: usize,
    taken: Vec<u8>,
    is_closed: bool,
}

impl Wire {
    fn new(alloc: Global) -> Wire {
        Wire {
            waiting: Vec::new(alloc),
            is_ended: false,
            fails_read: false,
            fails_write: false,
            takes: usize::MAX,
            taken: Vec::new(alloc),
            is_closed: false,
        }
    }

    // Does a step at this connection.
    fn change(&mut self, step: Step) -> Result<(), AllocError> {
        match step {
            Step::Bytes(_, bytes) => self.waiting.extend_from_slice(&bytes)?,
            Step::End(_) => self.is_ended = true,
            Step::FailRead(_) => self.fails_read = true,
            Step::FailWrite(_) => self.fails_write = true,
            Step::Take(_, count) => self.takes = count,
            _other => {}
        }
        Ok(())
    }

    fn read(&mut self, into: &mut [u8]) -> PortRead
        ensures { PortReadsSome (length into.new) result }
    {
        if self.fails_read {
            return PortRead::Failed;
        }
        read_front(&mut self.waiting, self.is_ended, into)
    }

    fn write(&mut self, piece: &[u8]) -> PortWrote
        ensures { WritesSome (length piece.now) result }
    {
        if self.fails_write {
            return PortWrote::Failed;
        }
        let count = self.takes.min(piece.len());
        if count == 0 {
            return PortWrote::NotYet;
        }
        if self.taken.extend_from_slice(&piece[..count]).is_err() {
            return PortWrote::Failed;
        }
        self.takes -= count;
        PortWrote::Took(count)
    }
}

// Moves what waits into the buffer, as much as fits.
fn read_front(waiting: &mut Vec<u8>, is_ended: bool, into: &mut [u8]) -> PortRead
    ensures { PortReadsSome (length into.new) result }
{
    let count = waiting.len().min(into.len());
    if count > 0 {
        into[..count].copy_from_slice(&waiting[..count]);
        waiting.drain(..count);
        return PortRead::Got(count);
    }
    if is_ended && waiting.is_empty() {
        return PortRead::Ended;
    }
    PortRead::NotYet
}

/// Connections under the numbers 0, 1, 2, .., and an input.
#[derive(Drop)]
pub(crate) struct Wires {
    alloc: Global,
    script: Vec<Step>,
    wires: Vec<Wire>,
    input: Vec<u8>,
    input_ended: bool,
}

impl Wires {
    pub(crate) fn new(alloc: Global, script: Vec<Step>) -> Wires {
        Wires {
            alloc,
            script,
            wires: Vec::new(alloc),
            input: Vec::new(alloc),
            input_ended: false,
        }
    }

    /// How many were made.
    pub(crate) fn made(&self) -> usize
        ensures { result ≡ vec_len self.now.wires }
    {
        self.wires.len()
    }

    pub(crate) fn taken(&self, number: u64) -> &[u8] {
        match self.wires.get(number as usize) {
            Some(wire) => wire.taken.as_slice(),
            None => &[],
        }
    }

    pub(crate) fn is_closed(&self, number: u64) -> bool {
        match self.wires.get(number as usize) {
            Some(wire) => wire.is_closed,
            None => false,
        }
    }

    /// Does the steps of the script up to a pause.
    pub(crate) fn run(&mut self, ready: &mut Ready) -> Result<(), AllocError> {
        for _ in 0..u64::MAX {
            let Some(step) = self.script.pop() else {
                return Ok(());
            };
            if !self.make(step, ready)? {
                return Ok(());
            }
        }
        Ok(())
    }

    // Does a step of the script. False at a pause.
    fn make(&mut self, step: Step, ready: &mut Ready) -> Result<bool, AllocError> {
        match step {
            Step::Connect => {
                self.wires.push(Wire::new(self.alloc))?;
                ready.door = true;
            }
            Step::Input(bytes) => {
                self.input.extend_from_slice(&bytes)?;
                ready.input = true;
            }
            Step::InputEnd => {
                self.input_ended = true;
                ready.input = true;
            }
            Step::Pause => return Ok(false),
            other => {
                if let Some(number) = self.change(other)? {
                    ready.numbers.push(number)?;
                }
            }
        }
        Ok(true)
    }

    // Does a step at a connection, and gives its number.
    fn change(&mut self, step: Step) -> Result<Option<u64>, AllocError> {
        let number = match &step {
            Step::Bytes(number, _)
            | Step::End(number)
            | Step::FailRead(number)
            | Step::FailWrite(number)
            | Step::Take(number, _) => *number,
            _ => return Ok(None),
        };
        let Some(wire) = self.wires.get_mut(number as usize) else {
            return Ok(None);
        };
        wire.change(step)?;
        Ok(Some(number))
    }

    pub(crate) fn read(&mut self, number: u64, into: &mut [u8]) -> PortRead
        ensures { PortReadsSome (length into.new) result }
    {
        match self.wires.get_mut(number as usize) {
            Some(wire) => wire.read(into),
            None => PortRead::Failed,
        }
    }

    pub(crate) fn write(&mut self, number: u64, piece: &[u8]) -> PortWrote
        ensures { WritesSome (length piece.now) result }
    {
        match self.wires.get_mut(number as usize) {
            Some(wire) => wire.write(piece),
            None => PortWrote::Failed,
        }
    }

    pub(crate) fn close(&mut self, number: u64) {
        if let Some(wire) = self.wires.get_mut(number as usize) {
            wire.is_closed = true;
        }
    }

    pub(crate) fn read_input(&mut self, into: &mut [u8]) -> PortRead
        ensures { PortReadsSome (length into.new) result }
    {
        read_front(&mut self.input, self.input_ended, into)
    }
}
