//! The sessions of a scenario, served to whoever connects.
ghost use Rattle.std.specs.Prelude.{◌≡◌, ◌≢◌, ◌+◌, ◌≤◌, reverse, IfOk, Err};
ghost use Rattle.sv_scenario.specs.Limits.{IsGoodScenario};
ghost use Rattle.sv_scenario.specs.Sessions.{session_count};
ghost use Rattle.sv_sequencer.specs.Step.{history};
ghost use Rattle.sv_threads.specs.Given.{keeper_after};
ghost use Rattle.sv_threads.specs.Moved.{moved};
ghost use Rattle.sv_threads.specs.Playing.{PlayCause, RunsOnce, TookAllIn};
ghost use Rattle.sv_serve.specs.Giving.{doorway, GivesBack};
ghost use Rattle.sv_serve.specs.Hosting.{IsHosted};

use crate::accepting::{ServeShared, give_back_all};
use crate::taking::take_in;
use law_asked::read_scenario_numbers;
use std::alloc::Global;
use std::sync::Wait;
use std::thread::Threads;
use sv_door::Door;
use sv_journal::{full_replies_stay, legal_relays_name_accepted};
use sv_link::{Crew, Gate, Ran};
use sv_lock::Pass;
use sv_replay::open_sequencer;
use sv_scenario::Scenario;
use sv_sequencer::Sequencer;
use sv_threads::{PlayFault, lock_sequencer};

/// Serves each session over a connection of its own, all at once, and waits for all of them.
fn serve_sessions<D: Door, C: Crew, G: Gate + Sync, R: Threads + Wait + Sync>(
    rt: &R,
    host: &ServeShared<'_, G>,
    keeper: &mut Pass<Sequencer>,
    door: &mut D,
    crew: &mut C,
) -> Result<(), PlayFault>
    requires good { IsGoodScenario host.now.scenario.now }
    requires passes { host.now.lock.now.passes ≡ session_count host.now.scenario.now }
    requires keeper { keeper.old ≡ keeper_after 0 host.now.lock.now host.now.scenario.now }
    ensures hosted { IfOk result (λ _. IsHosted host.now.scenario.now (reverse keeper.new.seen) (moved (D.given door.old) (D.given door.new) (C.ran crew.old) (C.ran crew.new))) }
    ensures keeper { IfOk result (λ _. TookAllIn host.now.scenario.now keeper.old keeper.new) }
    ensures cause { PlayCause (C.faults crew.old) (C.faults crew.new) (D.faults door.old) (D.faults door.new) result }
    ensures back { GivesBack (C.ran crew.old) (C.ran crew.new) (doorway (D.given door.old) (D.made door.old) (D.owed door.old)) (doorway (D.given door.new) (D.made door.new) (D.owed door.new)) result }
    ensures most { D.made door.new ≤ D.made door.old + session_count host.now.scenario.now }
    ensures ran { RunsOnce (session_count host.now.scenario.now) (C.ran crew.old) (C.ran crew.new) result }
    ensures certain { D.sure door.old host.now.port → result ≢ Err PlayFault.Link }
{
    full_replies_stay();
    legal_relays_name_accepted();
    read_scenario_numbers(host.scenario);
    let services = host.accept_all(door, keeper)?;
    let served = match crew.run_all(rt, services) {
        Ran::Done(served) => served,
        Ran::Failed => return Err(PlayFault::Start),
        Ran::Memory(services) => {
            give_back_all(door, services);
            return Err(PlayFault::Memory);
        }
    };
    if take_in(host.lock, keeper, served, door) {
        return Err(PlayFault::Memory);
    }
    Ok(())
}

/// Serves the sessions of a scenario to whoever connects at the port, and hands the sequencer out that answered them.
///
/// It accepts one connection for each session, in the order of their numbers, before it serves any of them. A peer may send anything, close
/// at any time or fall silent: its session alone ends by it. Once all sessions are over their ends are given back, in the same order; so are
/// those that were accepted where no session is served, but where a thread could not be started. The answer is Link where a connection could
/// not be made: then no session is served. It is Start where a thread could not be started, and Memory where there or in a session there was no
/// memory.
pub fn serve_scenario<D: Door, C: Crew, G: Gate + Sync, R: Threads + Wait + Sync>(
    rt: &R,
    alloc: Global,
    scenario: &Scenario,
    port: u16,
    door: &mut D,
    crew: &mut C,
    gate: &G,
) -> Result<Sequencer, PlayFault>
    requires good { IsGoodScenario scenario.now }
    ensures hosted { IfOk result (λ s. IsHosted scenario.now (history s) (moved (D.given door.old) (D.given door.new) (C.ran crew.old) (C.ran crew.new))) }
    ensures cause { PlayCause (C.faults crew.old) (C.faults crew.new) (D.faults door.old) (D.faults door.new) result }
    ensures back { GivesBack (C.ran crew.old) (C.ran crew.new) (doorway (D.given door.old) (D.made door.old) (D.owed door.old)) (doorway (D.given door.new) (D.made door.new) (D.owed door.new)) result }
    ensures most { D.made door.new ≤ D.made door.old + session_count scenario.now }
    ensures ran { RunsOnce (session_count scenario.now) (C.ran crew.old) (C.ran crew.new) result }
    ensures certain { D.sure door.old port → result ≢ Err PlayFault.Link }
{
    let sequencer = open_sequencer(alloc, scenario)?;
    let (lock, mut keeper) = lock_sequencer(alloc, scenario, sequencer)?;
    let host = ServeShared {
        alloc,
        scenario,
        lock: &lock,
        gate,
        port,
    };
    serve_sessions(rt, &host, &mut keeper, door, crew)?;
    Ok(lock.close(keeper))
}
