//! The table of the lock: the steps of one seat, each on its own.
ghost use Rattle.std.specs.Prelude.{◌≡◌, ℕ, ◌<◌, ◌==◌, List, [], ◌∷◌, ◌++◌, map, Contains, Option, Some, None, IfOk, IfErr, OnErr, IsOk, IsSome, MatchBool, MatchResult, true, length};
ghost use mathlib.Core.List.{IsPrefix};
ghost use Rattle.sv_lock.specs.declared.view.Stage.TheVariants.{Idle, Holds};
ghost use Rattle.sv_lock.specs.Histories.{entries_of, AreJust, AreBelow, GoesOnTo};
ghost use Rattle.sv_lock.specs.Holding.{staged, renewed, one_more, next_pass, taken_in, first_keeper, MayTake, Took, MayReturn, Called, Learned, ClosesTable};
ghost use Rattle.sv_lock.specs.Rest.{first_list};

use crate::object::Object;
use crate::plays::{Glue, Learn, LockSeat, LockTable, Return, SplitOff, Take};
use atomic_table::{Refused, Table};
use std::alloc::{AllocError, Global};
use std::hint;
use std::snapshot::Snapshot;
use std::sync::Wait;

// The word of the table says whether the object is taken, and whether somebody may sleep until it is given back.
const FREE: u64 = 0;

const HELD: u64 = 1;

const AWAITED: u64 = 2;

// How often a thread looks before it sleeps. A look takes about a nanosecond; the number was chosen by the time of whole loads.
const LOOKS_BEFORE_SLEEP: u32 = 16_000;

/// The table of the lock, and how its callers wait.
///
/// Who is about to sleep makes the word `AWAITED`, and sleeps only while it is that. Who gives the object back makes it `FREE`,
/// and wakes one sleeper where it was `AWAITED`. So no wake is lost:
///
/// - As long as somebody sleeps, the word is `AWAITED`, or one who was woken, or is being woken, has yet to make it so again.
///   For only a giving back takes the word away from `AWAITED`, and it wakes one.
/// - Who was woken makes the word `AWAITED` before anything else, whether it then takes the object or sleeps again. So the
///   giving back that comes next wakes one more, and no sleeper is left behind.
///
/// Others may take the object and give it back before one who was woken looks. Then that one sleeps again, or finds it free.
#[derive(Drop)]
pub struct Desk<O: Object> {
    pub table: LockTable<O>,
    pub ghost sized: { (table.shared.table_id.words ≡ 1) × (table.shared.table_id.slots ≡ 1) },
}

impl<O: Object> Desk<O> {
    // Takes the object if it is free, and says whether it did.
    fn try_take(&self, seat: &mut LockSeat<O>) -> bool
        requires table { seat.old.table_id ≡ self.now.table.shared.table_id }
        requires may { MayTake seat.old.me }
        ensures table { seat.new.table_id ≡ seat.old.table_id }
        ensures took { MatchBool result (Took O.base O.history O.number_of seat.old.me seat.new.me) (seat.new.me ≡ seat.old.me) }
    {
        self.table
            .shared
            .compare_exchange::<Take>(seat, 0, FREE, HELD)
            == FREE
    }

    // The same, and says to whoever has it that somebody may sleep.
    fn take_or_ask(&self, seat: &mut LockSeat<O>) -> bool
        requires table { seat.old.table_id ≡ self.now.table.shared.table_id }
        requires may { MayTake seat.old.me }
        ensures table { seat.new.table_id ≡ seat.old.table_id }
        ensures took { MatchBool result (Took O.base O.history O.number_of seat.old.me seat.new.me) (seat.new.me ≡ seat.old.me) }
    {
        self.table.shared.swap::<Take>(seat, 0, AWAITED) == FREE
    }

    // Looks for a short while, and says whether it took the object.
    fn spin(&self, seat: &mut LockSeat<O>) -> bool
        requires table { seat.old.table_id ≡ self.now.table.shared.table_id }
        requires may { MayTake seat.old.me }
        ensures table { seat.new.table_id ≡ seat.old.table_id }
        ensures took { MatchBool result (Took O.base O.history O.number_of seat.old.me seat.new.me) (seat.new.me ≡ seat.old.me) }
    {
        for _ in 0..LOOKS_BEFORE_SLEEP {
            if self.table.shared.peek(0) == FREE && self.try_take(seat) {
                return true;
            }
            hint::spin_loop();
        }
        false
    }

    // Sleeps until it finds the object free, so that many threads on few processors leave these to the one that has it.
    fn sleep<R: Wait>(&self, rt: &R, seat: &mut LockSeat<O>)
        requires table { seat.old.table_id ≡ self.now.table.shared.table_id }
        requires may { MayTake seat.old.me }
        ensures table { seat.new.table_id ≡ seat.old.table_id }
        ensures took { Took O.base O.history O.number_of seat.old.me seat.new.me }
    {
        for _ in rt.forever() {
            if self.take_or_ask(seat) {
                return;
            }
            self.table.shared.park(rt, 0, AWAITED as u32);
        }
        unreachable!()
    }

    /// Has the object in hand, once no other seat has it.
    pub fn take<R: Wait>(&self, rt: &R, seat: &mut LockSeat<O>)
        requires table { seat.old.table_id ≡ self.now.table.shared.table_id }
        requires may { MayTake seat.old.me }
        ensures table { seat.new.table_id ≡ seat.old.table_id }
        ensures took { Took O.base O.history O.number_of seat.old.me seat.new.me }
    {
        if !self.try_take(seat) && !self.spin(seat) {
            self.sleep(rt, seat);
        }
    }

    // Gives the object back, and answers what the word was.
    fn release(&self, seat: &mut LockSeat<O>) -> u64
        requires table { seat.old.table_id ≡ self.now.table.shared.table_id }
        requires may { MayReturn O.base O.history O.lawful O.number_of seat.old.me }
        ensures table { seat.new.table_id ≡ seat.old.table_id }
        ensures returned { (y : O) → seat.old.me.1 ≡ (0, y) ∷ [] → seat.new.me ≡ (staged seat.old.me.0 Idle (O.history y) (renewed O.number_of (O.history y) seat.old.me.0.lists), []) }
    {
        self.table.shared.swap::<Return>(seat, 0, FREE)
    }

    /// Gives the object back, and wakes one who sleeps, if anyone does.
    pub fn give_back(&self, seat: &mut LockSeat<O>)
        requires table { seat.old.table_id ≡ self.now.table.shared.table_id }
        requires may { MayReturn O.base O.history O.lawful O.number_of seat.old.me }
        ensures table { seat.new.table_id ≡ seat.old.table_id }
        ensures returned { (y : O) → seat.old.me.1 ≡ (0, y) ∷ [] → seat.new.me ≡ (staged seat.old.me.0 Idle (O.history y) (renewed O.number_of (O.history y) seat.old.me.0.lists), []) }
    {
        if self.release(seat) == AWAITED {
            self.table.shared.wake_one(0);
        }
    }

    /// One step of the object in hand, which takes the request.
    pub fn step(
        &self,
        seat: &mut LockSeat<O>,
        number: u16,
        request: O::Request,
    ) -> Result<O::Reply, AllocError>
        requires table { seat.old.table_id ≡ self.now.table.shared.table_id }
        requires held { (x : O) × (seat.old.me.1 ≡ (0, x) ∷ []) × O.can_step (O.base x) number request (entries_of O.number_of number (O.history x)) }
        ensures table { seat.new.table_id ≡ seat.old.table_id }
        ensures plain { O.is_plain request → IsOk result }
        ensures seat { (x : O) × (y : O) × (seat.old.me.1 ≡ (0, x) ∷ []) × (seat.new.me ≡ (seat.old.me.0, (0, y) ∷ [])) × (O.base y ≡ O.base x) × O.lawful (O.base y) (O.history y)
            × IfOk result (λ r. O.history y ≡ O.history x ++ O.entry number request r ∷ []) × IfOk result (λ r. O.whole r (O.history y)) × OnErr result (O.history y ≡ O.history x) }
    {
        let object = seat.slot_mut(&self.table.shared, 0);
        let reply = object.step(number, request);
        object.certify();
        reply
    }

    /// One call by the seat of a session's pass.
    pub fn run<R: Wait>(
        &self,
        rt: &R,
        seat: &mut LockSeat<O>,
        number: u16,
        request: O::Request,
    ) -> Result<O::Reply, AllocError>
        requires table { seat.old.table_id ≡ self.now.table.shared.table_id }
        requires idle { (seat.old.me.0.stage ≡ Idle) × (seat.old.me.1 ≡ []) }
        requires number { seat.old.me.0.lists ≡ (number, first_list seat.old.me.0.lists) ∷ [] }
        requires can { (b : O.Base) × (seat.old.me.0.base ≡ Some b) × O.can_step b number request (first_list seat.old.me.0.lists) }
        ensures table { seat.new.table_id ≡ seat.old.table_id }
        ensures plain { O.is_plain request → IsOk result }
        ensures ran { Called O.lawful O.number_of number (first_list seat.old.me.0.lists) (O.entry number request) O.whole seat.old.me seat.new.me result }
    {
        self.take(rt, seat);
        let answer = self.step(seat, number, request);
        self.give_back(seat);
        answer
    }

    /// Makes the seat of the next pass.
    pub fn cut(&self, keeper: &mut LockSeat<O>) -> LockSeat<O>
        requires table { keeper.old.table_id ≡ self.now.table.shared.table_id }
        requires keeper { (keeper.old.me.0.stage ≡ Idle) × (keeper.old.me.0.keeps ≡ true) }
        ensures keeper { (keeper.new.table_id ≡ keeper.old.table_id) × (keeper.new.me ≡ (one_more keeper.old.me.0, keeper.old.me.1)) }
        ensures pass { (result.table_id ≡ keeper.old.table_id) × (result.me ≡ (next_pass keeper.old.me.0, [])) }
    {
        self.table.shared.split_seat::<SplitOff>(keeper)
    }

    /// Sees the whole history.
    pub fn learn(&self, seat: &mut LockSeat<O>)
        requires table { seat.old.table_id ≡ self.now.table.shared.table_id }
        requires idle { seat.old.me.0.stage ≡ Idle }
        ensures table { seat.new.table_id ≡ seat.old.table_id }
        ensures learned { Learned O.lawful O.number_of seat.old.me seat.new.me }
    {
        self.table.shared.load::<Learn>(seat, 0);
    }

    /// Takes a pass's seat in, and sees the whole history.
    pub fn glue(&self, keeper: &mut LockSeat<O>, other: LockSeat<O>)
        requires tables { (keeper.old.table_id ≡ self.now.table.shared.table_id) × (other.table_id ≡ self.now.table.shared.table_id) }
        requires keeper { keeper.old.me.0.stage ≡ Idle }
        requires other { (other.me.0.stage ≡ Idle) × (other.me.1 ≡ []) }
        ensures table { keeper.new.table_id ≡ keeper.old.table_id }
        ensures learned { Learned O.lawful O.number_of (taken_in keeper.old.me.0 other.me.0, keeper.old.me.1) keeper.new.me }
    {
        self.table.shared.join_seat::<Glue>(keeper, other);
        self.learn(keeper);
    }

    /// The table of an object, and the keeper's seat. Without memory the object comes back.
    pub fn open(alloc: Global, object: O) -> Result<(Desk<O>, LockSeat<O>), O>
        requires { O.history object ≡ [] }
        ensures ok { IfOk result (λ r. (r.1.table_id ≡ r.0.table.shared.table_id) × (r.1.me ≡ (first_keeper (O.base object), []))) }
        ensures err { IfErr result (λ o. o ≡ object) }
    {
        object.certify();
        let opening = Snapshot::of(&object);
        let slots = one_slot(alloc, object)?;
        match Table::new(alloc, [FREE].as_slice(), slots, &opening) {
            Ok((table, seat)) => Ok((Desk { table }, seat)),
            Err(Refused { slots }) => Err(only(slots)),
        }
    }

    /// The object, once no other seat has a number.
    pub fn close(self, keeper: LockSeat<O>) -> O
        requires table { keeper.table_id ≡ self.table.shared.table_id }
        requires keeper { (keeper.me.0.stage ≡ Idle) × (keeper.me.0.keeps ≡ true) }
        requires based { IsSome keeper.me.0.base }
        requires all { (n : ℕ) → n < keeper.me.0.made → Contains (map (λ x. x.0) keeper.me.0.lists) n }
        ensures { ClosesTable O.base O.history O.lawful O.number_of keeper.me.0 result }
    {
        let Desk { table } = self;
        let mut closed = table.close_with(keeper);
        let object = closed.take(0);
        closed.free();
        object
    }
}

fn one_slot<T>(alloc: Global, value: T) -> Result<Vec<T>, T>
    ensures { MatchResult result (λ v. v.items ≡ value ∷ []) (λ x. x ≡ value) }
{
    let mut slots = Vec::new(alloc);
    match slots.push(value) {
        Ok(()) => Ok(slots),
        Err(failed) => {
            slots.destroy_empty();
            Err(failed.value)
        }
    }
}

fn only<T>(mut slots: Vec<T>) -> T
    requires { length slots.items ≡ 1 }
    ensures { slots.items ≡ result ∷ [] }
{
    let Some(value) = slots.pop() else {
        unreachable!()
    };
    slots.destroy_empty();
    value
}
