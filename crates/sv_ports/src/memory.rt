//! Connections in memory, which a script moves.
ghost use Rattle.std.specs.Prelude.{◌≡◌, false, length};
ghost use Rattle.sv_ports.specs.Traffic.{nothing_told, bytes_of, PortReadsSome, WritesSome};
ghost use Rattle.sv_ports.specs.Memory.{traffic_of};

use crate::pieces::Pieces;
use crate::ports::{Accepted, PortRead, PortWrote, Ports, Ready, Waited};
use crate::wires::Wires;
use std::alloc::Global;
use sv_keeper::Durable;

/// What comes next at the door, the input or a connection.
#[derive(Drop)]
pub enum Step {
    /// A connection is made.
    Connect,
    /// These bytes come over the connection of a number, counted in the order in which they are made.
    Bytes(u64, Vec<u8>),
    /// No more comes over a connection.
    End(u64),
    /// The next read of a connection fails.
    FailRead(u64),
    /// The next write to a connection fails.
    FailWrite(u64),
    /// A connection takes so many bytes more, and then none until there is another such step.
    Take(u64, usize),
    /// These bytes come of the input.
    Input(Vec<u8>),
    /// The input ends.
    InputEnd,
    /// A wait ends here.
    Pause,
}

/// Connections in memory. Each wait does the steps of a script up to the next pause.
#[derive(Drop)]
pub struct MemPorts {
    wires: Wires,
    accepted: usize,
    written: Pieces,
    heard: Pieces,
    input: Pieces,
    input_ended: bool,
}

impl MemPorts {
    /// No connection is made. `script` has the last step first.
    pub fn new(alloc: Global, script: Vec<Step>) -> MemPorts
        ensures { traffic_of result ≡ nothing_told }
    {
        MemPorts {
            wires: Wires::new(alloc, script),
            accepted: 0,
            written: Pieces::new(),
            heard: Pieces::new(),
            input: Pieces::new(),
            input_ended: false,
        }
    }

    /// All bytes that a connection took.
    pub fn taken(&self, number: u64) -> &[u8] {
        self.wires.taken(number)
    }

    pub fn is_closed(&self, number: u64) -> bool {
        self.wires.is_closed(number)
    }
}

impl Ports for MemPorts {
    ghost told = { traffic_of };

    fn wait(&mut self, _limit: u64, ready: &mut Ready) -> Waited {
        match self.wires.run(ready) {
            Ok(()) => Waited::Done,
            Err(_) => Waited::Failed,
        }
    }

    fn accept(&mut self) -> Accepted {
        if self.accepted >= self.wires.made() {
            return Accepted::NotYet;
        }
        let number = self.accepted as u64;
        self.accepted += 1;
        Accepted::One(number)
    }

    fn read(&mut self, number: u64, into: &mut [u8]) -> PortRead {
        let answer = self.wires.read(number, into);
        if let PortRead::Got(count) = answer {
            self.heard.note(number, &into[..count]);
        }
        answer
    }

    fn write(&mut self, number: u64, piece: &[u8], _durable: &Durable<'_>) -> PortWrote {
        let answer = self.wires.write(number, piece);
        if let PortWrote::Took(count) = answer {
            self.written.note(number, &piece[..count]);
        }
        answer
    }

    fn close(&mut self, number: u64) {
        self.wires.close(number);
    }

    #[tactic(auto, using(crate::proofs::Bytes::own_more))]
    fn read_input(&mut self, into: &mut [u8]) -> PortRead {
        let answer = self.wires.read_input(into);
        match answer {
            PortRead::Got(count) => self.input.note(0, &into[..count]),
            PortRead::Ended => self.input_ended = true,
            PortRead::NotYet | PortRead::Failed => {}
        }
        answer
    }
}
