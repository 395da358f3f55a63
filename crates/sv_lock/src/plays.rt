//! The rule of the lock's table, and what each step on it tells.
use crate::object::Object;
use crate::view::SeatView;
use atomic_table::{Join, Play, Seat, Split, Table, TableRule};
use std::alloc::Global;
use std::snapshot::Snapshot;

/// The one word is 0 exactly where the one slot has the object.
pub struct OneHolder;

impl<O: Object> TableRule<O, SeatView<O::Base, O::Entry>, Snapshot<O>> for OneHolder {
    ghost use Rattle.sv_lock.specs.Holding.{OneHistory, first_keeper};

    ghost holds = { λ key. OneHistory O.base O.history O.lawful O.number_of (O.base key.value) };

    ghost first = { λ key. first_keeper (O.base key.value) };
}

pub type LockSeat<O: Object> = Seat<O, SeatView<O::Base, O::Entry>>;

pub type LockTable<O: Object> = Table<
    O,
    SeatView<O::Base, O::Entry>,
    Snapshot<O>,
    OneHolder,
    Global,
>;

/// Takes the object, if it is at home.
pub struct Take;

impl<O: Object> Play<O, SeatView<O::Base, O::Entry>> for Take {
    ghost use Rattle.sv_lock.specs.Holding.{tried};

    ghost then = { λ _. tried O.base O.history O.number_of };
}

/// Brings the object home.
pub struct Return;

impl<O: Object> Play<O, SeatView<O::Base, O::Entry>> for Return {
    ghost use Rattle.sv_lock.specs.Holding.{returned};

    ghost then = { λ _. returned O.history O.number_of };
}

/// Sees the whole history.
pub struct Learn;

impl<O: Object> Play<O, SeatView<O::Base, O::Entry>> for Learn {
    ghost use Rattle.sv_lock.specs.Holding.{learned};

    ghost then = { λ _. learned O.lawful O.number_of };
}

/// Makes the pass of the next number.
pub struct SplitOff;

impl<B, E> Split<SeatView<B, E>> for SplitOff {
    ghost use Rattle.sv_lock.specs.Holding.{one_more, next_pass};

    ghost left = { one_more };

    ghost right = { next_pass };
}

/// Takes a pass in.
pub struct Glue;

impl<B, E> Join<SeatView<B, E>> for Glue {
    ghost use Rattle.sv_lock.specs.Holding.{taken_in, spent};

    ghost both = { taken_in };

    ghost spent = { spent };
}
