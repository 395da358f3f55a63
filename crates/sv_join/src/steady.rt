//! Ends whose faults were never counted.
use sv_link::{End, EndRead, EndWrote};

/// An end of a door. Where its calls can't fail, none of them did: so a player that it is given to has no fault to stop for.
#[derive(Drop)]
pub(crate) struct Steady<E> {
    pub(crate) end: E,
}

impl<E: End> End for Steady<E> {
    ghost use Rattle.std.specs.Prelude.{◌≡◌};

    ghost told = { λ s. E.told s.end };

    ghost faults = { λ s. E.faults s.end };

    ghost calm = { λ s. E.calm s.end × (E.faults s.end ≡ 0) };

    fn read(&mut self, into: &mut [u8]) -> EndRead {
        self.end.read(into)
    }

    fn write(&mut self, piece: &[u8]) -> EndWrote {
        self.end.write(piece)
    }

    fn close(&mut self) {
        self.end.close()
    }
}
