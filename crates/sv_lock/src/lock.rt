//! The lock, and what a caller does with a pass.
ghost use Rattle.std.specs.Prelude.{◌≡◌, ℕ, ◌+◌, ◌<◌, ◌≤◌, List, [], ◌∷◌, ◌++◌, Some, None, IfOk, IfErr, OnErr, IsOk, IsSome};
ghost use mathlib.Core.List.{IsPrefix};
ghost use Rattle.sv_lock.specs.Histories.{entries_of, AreJust, AreBelow, GoesOnTo};
ghost use Rattle.sv_lock.specs.Passes.{most_passes, session_number, AllEnded};

use crate::desk::Desk;
use crate::object::Object;
use crate::pass::Pass;
use std::alloc::{AllocError, Global};
use std::marker::Model;
use std::sync::Wait;

/// A lock round an object, which any number of threads share by reference. Whoever runs when the object is free takes it. So
/// the lock keeps no order among its callers, and one of them may be passed by others any number of times.
///
/// It may be let go where its object may, whatever became of its passes. `close` gives the object back instead.
///
/// Contracts see which lock it is, and for how many passes it is made.
#[derive(Drop)]
pub struct SeqLock<O: Object> {
    desk: Desk<O>,
    passes: u16,
}

impl<O: Object> Model for SeqLock<O> {
    ghost use Rattle.std.specs.Prelude.{◌≤◌};
    ghost use Rattle.sv_lock.specs.Passes.{LockView, most_passes};

    ghost Value = { LockView };

    ghost view = { λ l. record { id = l.desk.table.shared.table_id; passes = l.passes } };

    ghost invariant = { λ l. l.passes ≤ most_passes };
}

impl<O: Object> SeqLock<O> {
    /// A lock for so many passes, and its keeper. Without memory the object comes back.
    pub fn new(
        alloc: Global,
        object: O,
        passes: u16,
    ) -> Result<(SeqLock<O>, Pass<O>), (O, AllocError)>
        requires passes { (0 < passes) × (passes ≤ most_passes) }
        requires empty { O.history object ≡ [] }
        ensures lock { IfOk result (λ r. r.0.passes ≡ passes) }
        ensures keeper { IfOk result (λ r. r.1 ≡ record { lock = r.0.id; session = None; base = O.base object; seen = []; mine = []; made = 0; ended = [] }) }
        ensures err { IfErr result (λ e. e.0 ≡ object) }
    {
        match Desk::open(alloc, object) {
            Ok((desk, seat)) => {
                let keeper = Pass {
                    seat,
                    session: None,
                    made: 0,
                };
                Ok((SeqLock { desk, passes }, keeper))
            }
            Err(object) => Err((object, AllocError)),
        }
    }

    /// Makes the pass of the next session number. It has seen what the keeper has.
    pub fn split(&self, keeper: &mut Pass<O>) -> Pass<O>
        requires lock { keeper.old.lock ≡ self.now.id }
        requires keeper { keeper.old.session ≡ None }
        requires room { keeper.old.made < self.now.passes }
        ensures keeper { keeper.new ≡ record keeper.old { made = keeper.old.made + 1 } }
        ensures pass { result ≡ record { lock = keeper.old.lock; session = Some keeper.old.made; base = keeper.old.base; seen = keeper.old.seen; mine = []; made = 0; ended = [] } }
    {
        let seat = self.desk.cut(&mut keeper.seat);
        let number = keeper.made;
        keeper.made += 1;
        Pass {
            seat,
            session: Some(number),
            made: 0,
        }
    }

    /// Calls the object, once no one else has it. The object takes the request: where memory runs out it is let go.
    pub fn call<R: Wait>(
        &self,
        rt: &R,
        pass: &mut Pass<O>,
        request: O::Request,
    ) -> Result<O::Reply, AllocError>
        requires lock { pass.old.lock ≡ self.now.id }
        requires session { IsSome pass.old.session }
        requires can { O.can_step pass.old.base (session_number pass.old) request pass.old.mine }
        ensures same { (pass.new.lock ≡ pass.old.lock) × (pass.new.session ≡ pass.old.session) × (pass.new.base ≡ pass.old.base) × (pass.new.made ≡ pass.old.made) × (pass.new.ended ≡ pass.old.ended) }
        ensures seen { IfOk result (λ r. GoesOnTo pass.old.seen (O.entry (session_number pass.old) request r) pass.new.seen) }
        ensures mine { IfOk result (λ r. pass.new.mine ≡ pass.old.mine ++ O.entry (session_number pass.old) request r ∷ []) }
        ensures whole { IfOk result (λ r. O.whole r pass.new.seen) }
        ensures err { OnErr result (IsPrefix pass.old.seen pass.new.seen × (pass.new.mine ≡ pass.old.mine)) }
        ensures plain { O.is_plain request → IsOk result }
        ensures just { entries_of O.number_of (session_number pass.new) pass.new.seen ≡ pass.new.mine }
        ensures lawful { O.lawful pass.new.base pass.new.seen }
    {
        let Some(number) = pass.session else {
            unreachable!()
        };
        self.desk.run(rt, &mut pass.seat, number, request)
    }

    /// Takes a pass in, with what it had seen. The keeper then has seen the whole history.
    pub fn join(&self, keeper: &mut Pass<O>, pass: Pass<O>)
        requires keeper { (keeper.old.lock ≡ self.now.id) × (keeper.old.session ≡ None) }
        requires pass { (pass.lock ≡ self.now.id) × IsSome pass.session }
        ensures same { (keeper.new.lock ≡ keeper.old.lock) × (keeper.new.session ≡ keeper.old.session) × (keeper.new.base ≡ keeper.old.base) × (keeper.new.mine ≡ keeper.old.mine) × (keeper.new.made ≡ keeper.old.made) }
        ensures ended { keeper.new.ended ≡ keeper.old.ended ++ (session_number pass, pass.mine) ∷ [] }
        ensures seen { IsPrefix keeper.old.seen keeper.new.seen × IsPrefix pass.seen keeper.new.seen }
        ensures just { AreJust O.number_of keeper.new.seen keeper.new.ended }
        ensures below { AreBelow O.number_of keeper.new.made keeper.new.seen }
        ensures lawful { O.lawful keeper.new.base keeper.new.seen }
    {
        let Pass {
            seat,
            session: _,
            made: _,
        } = pass;
        self.desk.glue(&mut keeper.seat, seat);
    }

    /// Gives the object back, once every pass that was made was joined. The keeper then has seen the whole history.
    pub fn close(self, keeper: Pass<O>) -> O
        requires keeper { (keeper.lock ≡ self.id) × (keeper.session ≡ None) }
        requires ended { AllEnded keeper }
        ensures base { O.base result ≡ keeper.base }
        ensures seen { O.history result ≡ keeper.seen }
        ensures just { AreJust O.number_of (O.history result) keeper.ended }
        ensures below { AreBelow O.number_of keeper.made (O.history result) }
        ensures lawful { O.lawful keeper.base (O.history result) }
    {
        let Pass {
            seat,
            session: _,
            made: _,
        } = keeper;
        let SeqLock { desk, passes: _ } = self;
        desk.close(seat)
    }
}
