//! Connections that come and go.
ghost use Rattle.std.specs.Prelude.{◌≡◌};
ghost use Rattle.sv_ports.specs.Traffic.{Traffic, Accepts, PortReads, Writes, ReadsInput};

use sv_keeper::Durable;

/// What a wait tells of what may go on now.
#[derive(Drop)]
pub struct Ready {
    /// Connections may wait to be accepted.
    pub door: bool,
    /// The input may have more.
    pub input: bool,
    /// The connections that may be read from or written to.
    pub numbers: Vec<u64>,
}

impl Ready {
    /// Nothing is ready.
    pub fn new(alloc: std::alloc::Global) -> Ready {
        Ready {
            door: false,
            input: false,
            numbers: Vec::new(alloc),
        }
    }

    pub fn clear(&mut self) {
        self.door = false;
        self.input = false;
        self.numbers.clear();
    }
}

/// What a wait answers.
#[derive(Clone, Copy, Debug, Drop, PartialEq, Eq)]
pub enum Waited {
    /// Something is ready, or the time has passed.
    Done,
    /// The wait failed, or there was no memory.
    Failed,
}

/// What an accept answers.
#[derive(Clone, Copy, Debug, Drop, PartialEq, Eq)]
pub enum Accepted {
    /// A connection, under a number above all before it.
    One(u64),
    NotYet,
    /// The accept failed, or there was no memory. Others may wait still.
    Failed,
}

/// What a read answers.
#[derive(Clone, Copy, Debug, Drop, PartialEq, Eq)]
pub enum PortRead {
    /// So many bytes came, and stand at the front of the buffer.
    Got(usize),
    /// No byte has come. A wait tells when one has.
    NotYet,
    /// No more bytes will come.
    Ended,
    /// The read failed, and no byte came.
    Failed,
}

/// What a write answers.
#[derive(Clone, Copy, Debug, Drop, PartialEq, Eq)]
pub enum PortWrote {
    /// So many bytes at the front of the piece were taken.
    Took(usize),
    /// None was taken. A wait tells when some will be.
    NotYet,
    /// The write failed, and no byte was taken.
    Failed,
}

/// Connections that come through one door, under numbers, and an input. A number is never used twice.
///
/// Who is told that a connection is ready has to go on until `NotYet`: else it is not told again. Contracts see the bytes that the calls moved, and
/// no more: what became of them at the other end is not told.
pub trait Ports {
    ghost told: { Self → Traffic };

    /// Waits until something is ready, for so many milliseconds at most. It adds to what is ready already.
    fn wait(&mut self, limit: u64, ready: &mut Ready) -> Waited
        ensures { told self.new ≡ told self.old };

    /// Accepts a connection.
    fn accept(&mut self) -> Accepted
        ensures { Accepts (told self.old) result (told self.new) };

    /// Reads what has come, as much as fits. Where there is no room, it is `NotYet`.
    fn read(&mut self, number: u64, into: &mut [u8]) -> PortRead
        ensures { PortReads (told self.old) number into.new result (told self.new) };

    /// Writes the front of a piece, as much as is taken at once. Nothing is written before all lines are durable.
    fn write(&mut self, number: u64, piece: &[u8], durable: &Durable<'_>) -> PortWrote
        ensures { Writes (told self.old) number piece.now result (told self.new) };

    /// Closes a connection.
    fn close(&mut self, number: u64)
        ensures { told self.new ≡ told self.old };

    /// Reads what has come of the input. Where there is no room, it is `NotYet`.
    fn read_input(&mut self, into: &mut [u8]) -> PortRead
        ensures { ReadsInput (told self.old) into.new result (told self.new) };
}
