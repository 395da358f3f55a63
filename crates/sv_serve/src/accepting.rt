//! Accepting the connections of a scenario's sessions.
ghost use Rattle.std.specs.Prelude.{◌≡◌, ◌≢◌, ℕ, ◌+◌, ◌<◌, ◌≤◌, ◌++◌, length, Err, IfOk, OnOk, OnErr, false};
ghost use Rattle.std.specs.List.{AllByRecursion};
ghost use Rattle.sv_link.specs.declared.side.Side.TheVariants.{Server};
ghost use Rattle.sv_scenario.specs.Limits.{IsGoodScenario};
ghost use Rattle.sv_scenario.specs.Sessions.{session_count};
ghost use Rattle.law_system.specs.Places.{EachPlace};
ghost use Rattle.sv_threads.specs.Given.{keeper_after, pass_of, setting, IsNewEnd, IsService};
ghost use Rattle.sv_threads.specs.Opening.{OpeningCause};
ghost use Rattle.sv_serve.specs.Giving.{doorway, kept_unserved, GaveUnused, IsUnservedOf};

use std::alloc::Global;
use sv_door::{Door, EndMade};
use sv_link::Gate;
use sv_lock::{Pass, SeqLock};
use sv_scenario::{Scenario, sessions_of};
use sv_sequencer::Sequencer;
use sv_threads::{PlayFault, Service};

/// What all sessions share.
#[derive(Drop)]
pub(crate) struct ServeShared<'a, G> {
    pub(crate) alloc: Global,
    pub(crate) scenario: &'a Scenario,
    pub(crate) lock: &'a SeqLock<Sequencer>,
    pub(crate) gate: &'a G,
    /// Their peers connect here.
    pub(crate) port: u16,
}

impl<'a, G: Gate> ServeShared<'a, G> {
    /// Accepts the connection of the next session, and makes its pass.
    fn accept_next<D: Door>(
        &self,
        door: &mut D,
        keeper: &mut Pass<Sequencer>,
    ) -> Result<Service<'a, D::E, G>, PlayFault>
        requires keeper { keeper.old ≡ keeper_after keeper.old.made self.now.lock.now self.now.scenario.now }
        requires room { keeper.old.made < self.now.lock.now.passes }
        ensures service { IfOk result (λ x. (x.lock.now ≡ self.now.lock.now) × (x.pass ≡ pass_of keeper.old.made self.now.lock.now self.now.scenario.now)) }
        ensures end { IfOk result (λ x. IsNewEnd D.E.told D.E.faults D.E.calm (D.sure door.old self.now.port) Server (D.made door.old) x.end) }
        ensures keeper { OnOk result (keeper.new ≡ keeper_after (keeper.old.made + 1) self.now.lock.now self.now.scenario.now) }
        ensures more { OnOk result ((D.made door.new ≡ D.made door.old + 1) × (D.owed door.new ≡ D.owed door.old + 1)) }
        ensures none { OnErr result ((D.made door.new ≡ D.made door.old) × (D.owed door.new ≡ D.owed door.old)) }
        ensures given { D.given door.new ≡ D.given door.old }
        ensures cause { OpeningCause (D.faults door.old) (D.faults door.new) result }
        ensures certain { D.sure door.old self.now.port → result ≢ Err PlayFault.Link }
        ensures stays_sure { (p : ℕ) → D.sure door.old p → D.sure door.new p }
    {
        let end = match door.accept(self.port) {
            EndMade::End(end) => end,
            EndMade::Failed => return Err(PlayFault::Link),
            EndMade::Memory => return Err(PlayFault::Memory),
        };
        Ok(Service {
            alloc: self.alloc,
            lock: self.lock,
            pass: self.lock.split(keeper),
            end,
            gate: self.gate,
        })
    }

    /// Accepts a connection for each session, in the order of their numbers. Where one could not be made, those before it are given back.
    pub(crate) fn accept_all<D: Door>(
        &self,
        door: &mut D,
        keeper: &mut Pass<Sequencer>,
    ) -> Result<Vec<Service<'a, D::E, G>>, PlayFault>
        requires good { IsGoodScenario self.now.scenario.now }
        requires keeper { keeper.old ≡ keeper_after 0 self.now.lock.now self.now.scenario.now }
        requires passes { self.now.lock.now.passes ≡ session_count self.now.scenario.now }
        ensures count { IfOk result (λ services. length services.items ≡ session_count self.now.scenario.now) }
        ensures services { IfOk result (λ services. EachPlace (IsService D.E.told D.E.faults D.E.calm (setting self.now.lock.now self.now.scenario.now (D.made door.old) (D.sure door.old self.now.port) false)) services.items) }
        ensures keeper { OnOk result (keeper.new ≡ keeper_after (session_count self.now.scenario.now) self.now.lock.now self.now.scenario.now) }
        ensures made { OnOk result (D.made door.new ≡ D.made door.old + session_count self.now.scenario.now) }
        ensures owed { OnOk result (D.owed door.new ≡ D.owed door.old + session_count self.now.scenario.now) }
        ensures given { OnOk result (D.given door.new ≡ D.given door.old) }
        ensures most { D.made door.new ≤ D.made door.old + session_count self.now.scenario.now }
        ensures back { OnErr result (GaveUnused (doorway (D.given door.old) (D.made door.old) (D.owed door.old)) (doorway (D.given door.new) (D.made door.new) (D.owed door.new))) }
        ensures cause { OpeningCause (D.faults door.old) (D.faults door.new) result }
        ensures certain { D.sure door.old self.now.port → result ≢ Err PlayFault.Link }
    {
        let count = sessions_of(self.scenario);
        let mut services = Vec::with_capacity(self.alloc, usize::from(count))?;
        for _ in 0..count {
            match self.accept_next(door, keeper) {
                Ok(service) => services.push_reserved(service),
                Err(fault) => {
                    give_back_all(door, services);
                    return Err(fault);
                }
            }
        }
        Ok(services)
    }
}

/// Gives the ends of sessions back that are not served after all, in order.
pub(crate) fn give_back_all<D: Door, G>(door: &mut D, services: Vec<Service<'_, D::E, G>>)
    requires own { AllByRecursion (IsUnservedOf D.E.told (D.made door.old)) services.items }
    requires owed { length services.items ≤ D.owed door.old }
    ensures given { D.given door.new ≡ D.given door.old ++ kept_unserved D.E.told D.E.faults services.entry.items }
    ensures made { D.made door.new ≡ D.made door.old }
    ensures owed { D.owed door.old ≡ D.owed door.new + length services.entry.items }
    ensures faults { D.faults door.new ≡ D.faults door.old }
{
    for service in services {
        let Service { end, .. } = service;
        door.give_back(end);
    }
}
