//! A net whose ends find no memory at one of their calls.
ghost use Rattle.std.specs.Prelude.{◌≡◌};

use sv_link::{End, EndRead, EndWrote, Net, Pair, Settle};

/// An end over another one. Its reads and writes are counted together, from 1, and one of them finds no memory. Where its number is 0 none does.
#[derive(Drop)]
pub struct LackingEnd<E> {
    end: E,
    calls: u64,
    lacking: u64,
}

impl<E> LackingEnd<E> {
    fn lacks(&mut self) -> bool
        ensures { self.new.end ≡ self.old.end }
    {
        self.calls = self.calls.wrapping_add(1);
        self.calls == self.lacking
    }
}

impl<E: End> End for LackingEnd<E> {
    ghost told = { λ e. E.told e.end };

    ghost faults = { λ e. E.faults e.end };

    ghost calm = { λ e. E.calm e.end };

    fn read(&mut self, into: &mut [u8]) -> EndRead {
        if self.lacks() {
            return EndRead::Memory;
        }
        self.end.read(into)
    }

    fn write(&mut self, piece: &[u8]) -> EndWrote {
        if self.lacks() {
            return EndWrote::Memory;
        }
        self.end.write(piece)
    }

    fn close(&mut self) {
        self.end.close();
    }
}

/// A net over another one. Each of its servers' ends finds no memory at the call of one number, and each of its clients' at that of another.
#[derive(Drop)]
pub struct LackingNet<N> {
    pub net: N,
    pub server: u64,
    pub client: u64,
}

impl<N: Net> Net for LackingNet<N> {
    type E = LackingEnd<N::E>;

    ghost settled = { λ n. N.settled n.net };

    ghost unmatched = { λ n. N.unmatched n.net };

    ghost made = { λ n. N.made n.net };

    ghost owed = { λ n. N.owed n.net };

    ghost faults = { λ n. N.faults n.net };

    ghost calm = { λ n. N.calm n.net };

    fn pair(&mut self) -> Pair<LackingEnd<N::E>> {
        match self.net.pair() {
            Pair::Made(server, client) => Pair::Made(
                LackingEnd {
                    end: server,
                    calls: 0,
                    lacking: self.server,
                },
                LackingEnd {
                    end: client,
                    calls: 0,
                    lacking: self.client,
                },
            ),
            Pair::Failed => Pair::Failed,
            Pair::Memory => Pair::Memory,
        }
    }

    fn settle(&mut self, server: LackingEnd<N::E>, client: LackingEnd<N::E>, cut: bool) -> Settle {
        let LackingEnd { end: server, .. } = server;
        let LackingEnd { end: client, .. } = client;
        self.net.settle(server, client, cut)
    }
}
