//! An end that counts its writes.
ghost use Rattle.std.specs.Prelude.{◌≡◌, false};

use std::alloc::Global;
use sv_bytes::FaultCount;
use sv_link::{End, EndRead, EndWrote};

/// The writes of an end that go wrong, by their numbers from 1: one fails, and one finds no memory. Where a number is 0 none does.
#[derive(Clone, Copy, Debug, Default)]
pub struct Wrong {
    pub failing: usize,
    pub lacking: usize,
}

/// The server's end. It takes what is written whole, where nothing goes wrong, and counts the writes. Nobody sends it anything.
#[derive(Drop)]
pub struct CountingEnd {
    wrong: Wrong,
    pub writes: usize,
    pub sent: Vec<u8>,
    ended: bool,
    closed: bool,
    faults: FaultCount,
}

impl CountingEnd {
    pub fn new(alloc: Global, wrong: Wrong) -> CountingEnd
        ensures { result.closed ≡ false }
    {
        CountingEnd {
            wrong,
            writes: 0,
            sent: Vec::new(alloc),
            ended: false,
            closed: false,
            faults: FaultCount::new(),
        }
    }
}

impl End for CountingEnd {
    ghost use Rattle.std.specs.Prelude.{[]};
    ghost use Rattle.sv_link.specs.declared.side.Side.TheVariants.{Server};

    ghost told = { λ e. record { sent = e.sent.items; received = []; ended = e.ended; closed = e.closed; pair = 0; side = Server } };

    ghost faults = { λ e. e.faults.value };

    ghost calm = { λ _. ⊥ };

    fn read(&mut self, _into: &mut [u8]) -> EndRead {
        self.ended = true;
        EndRead::Ended
    }

    fn write(&mut self, piece: &[u8]) -> EndWrote {
        self.writes = self.writes.wrapping_add(1);
        if self.writes == self.wrong.lacking {
            return EndWrote::Memory;
        }
        if self.writes == self.wrong.failing {
            self.faults.raise();
            return EndWrote::Failed;
        }
        if self.sent.extend_from_slice(piece).is_err() {
            return EndWrote::Memory;
        }
        EndWrote::Took(piece.len())
    }

    fn close(&mut self) {
        self.closed = true;
    }
}
