//! Taking in what the sessions left.
ghost use Rattle.std.specs.Prelude.{◌≡◌, ◌+◌, ◌≤◌, ◌++◌, ◌||◌, length, None};
ghost use Rattle.std.specs.List.{AllByRecursion, list_any};
ghost use Rattle.sv_threads.specs.RunRemains.{is_memory, IsOfLock, JoinedPasses};
ghost use Rattle.sv_threads.specs.declared.tasks.Serviced.{Serviced as Left};
ghost use Rattle.sv_serve.specs.Giving.{kept_served, IsServedOf};

use sv_door::Door;
use sv_lock::{Pass, SeqLock};
use sv_sequencer::Sequencer;
use sv_session::SessionOut;
use sv_threads::Serviced;

/// Whether memory was lacking before, or in a session that ended so.
fn lacks(lacked: bool, out: SessionOut) -> bool
    ensures { result ≡ (lacked || is_memory out) }
{
    match out {
        SessionOut::Memory => true,
        _ => lacked,
    }
}

/// Has the keeper take all passes in and gives all ends back, in the order of the sessions. Whether a session had no memory.
pub(crate) fn take_in<D: Door>(
    lock: &SeqLock<Sequencer>,
    keeper: &mut Pass<Sequencer>,
    served: Vec<Serviced<D::E>>,
    door: &mut D,
) -> bool
    requires keeper { (keeper.old.lock ≡ lock.now.id) × (keeper.old.session ≡ None) }
    requires passes { AllByRecursion (IsOfLock lock.now) served.items }
    requires own { AllByRecursion (IsServedOf D.E.told (D.made door.old)) served.items }
    requires owed { length served.items ≤ D.owed door.old }
    ensures joined { JoinedPasses served.items keeper.old keeper.new }
    ensures given { D.given door.new ≡ D.given door.old ++ kept_served D.E.told D.E.faults served.items }
    ensures made { D.made door.new ≡ D.made door.old }
    ensures owed { D.owed door.old ≡ D.owed door.new + length served.items }
    ensures faults { D.faults door.new ≡ D.faults door.old }
    ensures lacked { result ≡ list_any (λ (y : Left D.E). is_memory y.out) served.items }
{
    let mut lacked = false;
    for session in served {
        let Serviced { pass, end, out } = session;
        lock.join(keeper, pass);
        door.give_back(end);
        lacked = lacks(lacked, out);
    }
    lacked
}
