//! A caller's right to a lock.
ghost use Rattle.std.specs.Prelude.{◌≡◌, IsSome};

use crate::object::Object;
use crate::plays::LockSeat;
use std::marker::Model;

/// A caller's right to a lock, and what it knows of the history. Contracts see its lock, its session number, the base
/// of the lock's object, what it has seen, and its own entries.
///
/// One pass is the keeper's: it makes the others, and takes them in again. A pass may be let go, but then its lock can't be closed.
#[derive(Drop)]
pub struct Pass<O: Object> {
    pub(crate) seat: LockSeat<O>,
    pub(crate) session: Option<u16>,
    // The keeper's count of the passes that it made.
    pub(crate) made: u16,
    ghost based: { IsSome seat.me.0.base },
}

impl<O: Object> Model for Pass<O> {
    ghost use Rattle.sv_lock.specs.Passes.{PassView};
    ghost use Rattle.sv_lock.specs.Rest.{the, mine_in, ended_in, Rests};

    ghost Value = { PassView O.Base O.Entry };

    ghost view = { λ p. record { lock = p.seat.table_id; session = p.session; base = the p.seat.me.0.base p.based; seen = p.seat.me.0.seen; mine = mine_in p.session p.seat.me.0.lists; made = p.made; ended = ended_in p.session p.seat.me.0.lists } };

    ghost invariant = { λ p. Rests O.number_of p.session p.made p.seat.me };
}

impl<O: Object> Pass<O> {
    /// The number of the session that makes its calls with this pass, and None for the keeper.
    pub fn session(&self) -> Option<u16>
        ensures { result ≡ self.now.session }
    {
        self.session
    }
}
