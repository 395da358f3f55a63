//! Opening a run: a pair of ends and a pass of the lock for each session, and a client for each plan.
ghost use Rattle.std.specs.Prelude.{◌≡◌, ◌≢◌, ◌+◌, ◌<◌, ◌≤◌, ◌++◌, [], length, Err, IfOk, OnOk, OnErr, vec_len};
ghost use Rattle.std.specs.List.{flat_map};
ghost use Rattle.std.specs.Vec.{vec_capacity};
ghost use Rattle.std.specs.Vec.Iter.{into_iter_items};
ghost use Rattle.sv_world.specs.Limits.{most_clients, most_sessions};
ghost use Rattle.sv_link.specs.declared.side.Side.TheVariants.{Server, Client as ClientSide};
ghost use Rattle.sv_scenario.specs.Limits.{IsGoodScenario, IsGoodPlan};
ghost use Rattle.sv_scenario.specs.Sessions.{session_count, sessions_of_plan};
ghost use Rattle.law_system.specs.Places.{EachPlace};
ghost use Rattle.sv_threads.specs.Places.{EachClient};
ghost use Rattle.sv_threads.specs.Tasks.{services_of, parts_of};
ghost use Rattle.sv_threads.specs.Given.{keeper_after, pass_of, setting, ends_given, IsNewEnd, IsEndOf, IsPartOf, IsPart, IsService};
ghost use Rattle.sv_threads.specs.RunRemains.{RemainsHaveRoom};
ghost use Rattle.sv_threads.specs.Opening.{OpeningCause, IsEntrant, EachEntrant, IsRoomFor, HoldsUnused};
ghost use Rattle.sv_threads.specs.Pairs.{pairing};

use crate::gathering::RunRemains;
use crate::outcome::PlayFault;
use crate::tasks::{Part, Service, Task, Teller};
use std::alloc::{AllocError, Global};
use std::vec::IntoIter;
use sv_client::Client;
use sv_link::{Gate, Net, Pair};
use sv_lock::{Pass, SeqLock};
use sv_scenario::{Plan, Scenario, sessions_of, sessions_of_plan};
use sv_sequencer::Sequencer;
use sv_world::{ClientId, copy_objects};

/// What the threads of a run share.
#[derive(Drop)]
pub(crate) struct RunShared<'a, G, W> {
    pub(crate) alloc: Global,
    pub(crate) scenario: &'a Scenario,
    pub(crate) lock: &'a SeqLock<Sequencer>,
    pub(crate) gate: &'a G,
    pub(crate) teller: &'a W,
}

/// A client that has no end yet, and room for its ends.
#[derive(Drop)]
pub(crate) struct Entrant<E> {
    client: Client,
    ends: Vec<E>,
}

/// Room for what is opened.
#[derive(Drop)]
pub(crate) struct OpeningRoom<'a, E, G, W> {
    services: Vec<Service<'a, E, G>>,
    ends: Vec<E>,
    parts: Vec<Part<'a, E, W>>,
    tasks: Vec<Task<'a, E, G, W>>,
}

impl<'a, E: Drop, G, W> OpeningRoom<'a, E, G, W> {
    /// Room for so many sessions and clients.
    fn new(
        alloc: Global,
        sessions: u16,
        clients: usize,
    ) -> Result<OpeningRoom<'a, E, G, W>, AllocError>
        requires { clients ≤ most_clients }
        ensures { IfOk result (IsRoomFor sessions clients) }
    {
        let sessions = sessions as usize;
        Ok(OpeningRoom {
            services: Vec::with_capacity(alloc, sessions)?,
            ends: Vec::with_capacity(alloc, sessions)?,
            parts: Vec::with_capacity(alloc, clients)?,
            tasks: Vec::with_capacity(alloc, sessions + clients)?,
        })
    }
}

impl<'a, G, W: Teller> RunShared<'a, G, W> {
    /// A client, before it has any end.
    fn make_entrant<E: Drop>(&self, number: u16, plan: &Plan) -> Result<Entrant<E>, AllocError>
        requires number { number < most_clients }
        requires plan { IsGoodPlan self.now.scenario.now.world.shape plan.now }
        ensures { IfOk result (IsEntrant self.now.scenario.now.world.shape number plan.now) }
    {
        let interest = copy_objects(self.alloc, plan.interest.as_slice())?;
        let shape = self.scenario.world.shape;
        Ok(Entrant {
            client: Client::new(self.alloc, ClientId(number), shape, interest)?,
            ends: Vec::with_capacity(self.alloc, sessions_of_plan(plan))?,
        })
    }

    /// All clients, before any pair is made.
    fn make_entrants<E: Drop>(&self) -> Result<Vec<Entrant<E>>, AllocError>
        requires { IsGoodScenario self.now.scenario.now }
        ensures { IfOk result (λ entrants. EachEntrant self.now.scenario.now.world.shape 0 self.now.scenario.now.clients entrants.items) }
    {
        let mut entrants = Vec::new(self.alloc);
        let mut number = 0;
        for plan in self.scenario.clients.as_slice() {
            entrants.push(self.make_entrant(number, plan)?)?;
            number += 1;
        }
        Ok(entrants)
    }

    /// Opens the next session: what serves it, and its client's end.
    fn open_session<N: Net>(
        &self,
        net: &mut N,
        keeper: &mut Pass<Sequencer>,
    ) -> Result<(Service<'a, N::E, G>, N::E), PlayFault>
        requires keeper { keeper.old ≡ keeper_after keeper.old.made self.now.lock.now self.now.scenario.now }
        requires room { keeper.old.made < self.now.lock.now.passes }
        ensures service { IfOk result (λ r. (r.0.lock.now ≡ self.now.lock.now) × (r.0.pass ≡ pass_of keeper.old.made self.now.lock.now self.now.scenario.now)) }
        ensures server { IfOk result (λ r. IsNewEnd N.E.told N.E.faults N.E.calm (N.calm net.old) Server (N.made net.old) r.0.end) }
        ensures client { IfOk result (λ r. IsNewEnd N.E.told N.E.faults N.E.calm (N.calm net.old) ClientSide (N.made net.old) r.1) }
        ensures keeper { OnOk result (keeper.new ≡ keeper_after (keeper.old.made + 1) self.now.lock.now self.now.scenario.now) }
        ensures pairs { OnOk result ((N.made net.new ≡ N.made net.old + 1) × (N.owed net.new ≡ N.owed net.old + 1)) }
        ensures none { OnErr result ((N.made net.new ≡ N.made net.old) × (N.owed net.new ≡ N.owed net.old)) }
        ensures settled { (N.settled net.new ≡ N.settled net.old) × (N.unmatched net.new ≡ N.unmatched net.old) }
        ensures cause { OpeningCause (N.faults net.old) (N.faults net.new) result }
        ensures calm { N.calm net.old → (result ≢ Err PlayFault.Link) × N.calm net.new }
    {
        let (server, client) = match net.pair() {
            Pair::Made(server, client) => (server, client),
            Pair::Failed => return Err(PlayFault::Link),
            Pair::Memory => return Err(PlayFault::Memory),
        };
        let service = Service {
            alloc: self.alloc,
            lock: self.lock,
            pass: self.lock.split(keeper),
            end: server,
            gate: self.gate,
        };
        Ok((service, client))
    }

    /// Opens all sessions, in the order of their numbers: what serves each, and its client's end. Where one can't be opened, those before it are
    /// left open.
    fn open_sessions<N: Net>(
        &self,
        net: &mut N,
        keeper: &mut Pass<Sequencer>,
        services: &mut Vec<Service<'a, N::E, G>>,
        ends: &mut Vec<N::E>,
    ) -> Result<(), PlayFault>
        requires good { IsGoodScenario self.now.scenario.now }
        requires keeper { keeper.old ≡ keeper_after 0 self.now.lock.now self.now.scenario.now }
        requires passes { self.now.lock.now.passes ≡ session_count self.now.scenario.now }
        requires empty { (services.old.items ≡ []) × (ends.old.items ≡ []) }
        requires room { (session_count self.now.scenario.now ≤ vec_capacity services.old) × (session_count self.now.scenario.now ≤ vec_capacity ends.old) }
        ensures all { OnOk result (length services.new.items ≡ session_count self.now.scenario.now) }
        ensures few { length services.new.items ≤ session_count self.now.scenario.now }
        ensures as_many { length ends.new.items ≡ length services.new.items }
        ensures services { EachPlace (IsService N.E.told N.E.faults N.E.calm (setting self.now.lock.now self.now.scenario.now (N.made net.old) (N.calm net.old) (W.telling self.now.teller.now).watched)) services.new.items }
        ensures clients { EachPlace (IsEndOf N.E.told N.E.faults N.E.calm (setting self.now.lock.now self.now.scenario.now (N.made net.old) (N.calm net.old) (W.telling self.now.teller.now).watched) ClientSide) ends.new.items }
        ensures keeper { OnOk result (keeper.new ≡ keeper_after (session_count self.now.scenario.now) self.now.lock.now self.now.scenario.now) }
        ensures pairs { (N.made net.new ≡ N.made net.old + length services.new.items) × (N.owed net.new ≡ N.owed net.old + length services.new.items) }
        ensures settled { (N.settled net.new ≡ N.settled net.old) × (N.unmatched net.new ≡ N.unmatched net.old) }
        ensures cause { OpeningCause (N.faults net.old) (N.faults net.new) result }
        ensures calm { N.calm net.old → (result ≢ Err PlayFault.Link) × N.calm net.new }
    {
        for _ in 0..sessions_of(self.scenario) {
            let (service, end) = self.open_session(net, keeper)?;
            services.push_reserved(service);
            ends.push_reserved(end);
        }
        Ok(())
    }

    /// A client over its ends.
    fn open_part<E: Drop>(
        &self,
        first: u16,
        plan: &'a Plan,
        client: Client,
        ends: Vec<E>,
    ) -> Part<'a, E, W>
        ensures client { (result.client ≡ client) × (result.script.now ≡ plan.now.steps) × (result.first ≡ first) }
        ensures ends { result.ends.items ≡ ends.items }
        ensures teller { result.teller.now ≡ self.now.teller.now }
    {
        Part {
            alloc: self.alloc,
            client,
            script: plan.steps.as_slice(),
            first,
            ends,
            teller: self.teller,
        }
    }

    /// All clients, each over the ends of its sessions. It takes no memory.
    fn open_parts<E: Drop>(
        &self,
        entrants: Vec<Entrant<E>>,
        ends: Vec<E>,
        room: Vec<Part<'a, E, W>>,
    ) -> Vec<Part<'a, E, W>>
        requires good { IsGoodScenario self.now.scenario.now }
        requires teller { (W.telling self.now.teller.now).shape ≡ self.now.scenario.now.world.shape }
        requires entrants { EachEntrant self.now.scenario.now.world.shape 0 self.now.scenario.now.clients entrants.items }
        requires count { length ends.items ≡ session_count self.now.scenario.now }
        requires empty { room.items ≡ [] }
        requires room { length self.now.scenario.now.clients ≤ vec_capacity room }
        ensures parts { EachClient (IsPartOf W.telling self.now.scenario.now.world.shape (W.telling self.now.teller.now).watched) 0 0 self.now.scenario.now.clients result.items }
        ensures ends { flat_map ends_given result.items ≡ ends.items }
    {
        let mut parts = room;
        let mut left = ends.into_iter();
        let mut waiting = entrants.into_iter();
        let mut first = 0;
        for plan in self.scenario.clients.as_slice() {
            let Some(entrant) = waiting.next() else {
                unreachable!()
            };
            let Entrant { client, mut ends } = entrant;
            let count = sessions_of_plan(plan) as u16;
            take_ends(&mut left, count, &mut ends);
            parts.push_reserved(self.open_part(first, plan, client, ends));
            first += count;
        }
        parts
    }

    /// Opens the run: a task for each session, and one for each client. Where that fails, the ends that were opened are left. All memory but
    /// the net's own is taken before the first pair is made.
    pub(crate) fn open<N: Net>(
        &self,
        net: &mut N,
        keeper: &mut Pass<Sequencer>,
        left: &mut RunRemains<N::E>,
    ) -> Result<Vec<Task<'a, N::E, G, W>>, PlayFault>
        requires good { IsGoodScenario self.now.scenario.now }
        requires teller { (W.telling self.now.teller.now).shape ≡ self.now.scenario.now.world.shape }
        requires keeper { keeper.old ≡ keeper_after 0 self.now.lock.now self.now.scenario.now }
        requires passes { self.now.lock.now.passes ≡ session_count self.now.scenario.now }
        requires empty { (left.old.servers.items ≡ []) × (left.old.clients.items ≡ []) }
        requires room { (session_count self.now.scenario.now ≤ vec_capacity left.old.servers) × (session_count self.now.scenario.now ≤ vec_capacity left.old.clients) }
        ensures count { IfOk result (λ tasks. length (services_of tasks.items) ≡ session_count self.now.scenario.now) }
        ensures services { IfOk result (λ tasks. EachPlace (IsService N.E.told N.E.faults N.E.calm (setting self.now.lock.now self.now.scenario.now (N.made net.old) (N.calm net.old) (W.telling self.now.teller.now).watched)) (services_of tasks.items)) }
        ensures parts { IfOk result (λ tasks. EachClient (IsPart N.E.told N.E.faults N.E.calm W.telling (setting self.now.lock.now self.now.scenario.now (N.made net.old) (N.calm net.old) (W.telling self.now.teller.now).watched)) 0 0 self.now.scenario.now.clients (parts_of tasks.items)) }
        ensures keeper { OnOk result (keeper.new ≡ keeper_after (session_count self.now.scenario.now) self.now.lock.now self.now.scenario.now) }
        ensures pairs { OnOk result ((N.made net.new ≡ N.made net.old + session_count self.now.scenario.now) × (N.owed net.new ≡ N.owed net.old + session_count self.now.scenario.now)) }
        ensures settled { OnOk result ((N.settled net.new ≡ N.settled net.old) × (N.unmatched net.new ≡ N.unmatched net.old)) }
        ensures same { OnOk result (left.new ≡ left.old) }
        ensures most { N.made net.new ≤ N.made net.old + session_count self.now.scenario.now }
        ensures unused { OnErr result (HoldsUnused N.E.told N.E.faults N.E.calm (N.calm net.old) (pairing (N.settled net.old) (N.unmatched net.old) (N.made net.old) (N.owed net.old)) (pairing (N.settled net.new) (N.unmatched net.new) (N.made net.new) (N.owed net.new)) left.new.servers.items left.new.clients.items) }
        ensures cause { OpeningCause (N.faults net.old) (N.faults net.new) result }
        ensures calm { N.calm net.old → (result ≢ Err PlayFault.Link) × N.calm net.new }
    {
        let entrants = self.make_entrants()?;
        let OpeningRoom {
            mut services,
            mut ends,
            parts,
            tasks,
        } = OpeningRoom::new(
            self.alloc,
            sessions_of(self.scenario),
            self.scenario.clients.len(),
        )?;
        match self.open_sessions(net, keeper, &mut services, &mut ends) {
            Ok(()) => {
                let parts = self.open_parts(entrants, ends, parts);
                Ok(make_tasks(tasks, services, parts))
            }
            Err(fault) => {
                left.take_services(services);
                left.take_unplayed(ends);
                Err(fault)
            }
        }
    }
}

/// A task for each. It takes no memory.
fn make_tasks<'a, E: Drop, G, W>(
    room: Vec<Task<'a, E, G, W>>,
    services: Vec<Service<'a, E, G>>,
    parts: Vec<Part<'a, E, W>>,
) -> Vec<Task<'a, E, G, W>>
    requires empty { room.items ≡ [] }
    requires room { length services.items + length parts.items ≤ vec_capacity room }
    ensures services { services_of result.items ≡ services.entry.items }
    ensures parts { parts_of result.items ≡ parts.entry.items }
{
    let mut tasks = room;
    for service in services {
        tasks.push_reserved(Task::Serve(service));
    }
    for part in parts {
        tasks.push_reserved(Task::Play(part));
    }
    tasks
}

/// The next ends, so many.
fn take_ends<E: Drop>(left: &mut IntoIter<E>, count: u16, into: &mut Vec<E>)
    requires enough { count ≤ length (into_iter_items left.old) }
    requires empty { into.old.items ≡ [] }
    requires room { count ≤ vec_capacity into.old }
    ensures count { length into.new.items ≡ count }
    ensures ends { into_iter_items left.old ≡ into.new.items ++ into_iter_items left.new }
{
    for _ in 0..count {
        let Some(end) = left.next() else {
            unreachable!()
        };
        into.push_reserved(end);
    }
}
