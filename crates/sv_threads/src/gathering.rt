//! Gathering what the threads of a run leave.
ghost use Rattle.std.specs.Prelude.{◌≡◌, ◌+◌, ◌<◌, ◌≤◌, ◌++◌, ◌||◌, List, [], ◌∷◌, length, map, reverse, IfOk, vec_len};
ghost use Rattle.std.specs.List.{AllByRecursion, flat_map};
ghost use Rattle.std.specs.Vec.{vec_capacity};
ghost use Rattle.sv_world.specs.Limits.{most_sessions};
ghost use Rattle.sv_client.specs.declared.trace.Event.{Event};
ghost use Rattle.sv_client.specs.Traces.{current_session};
ghost use Rattle.sv_player.specs.Stops.{is_cut};
ghost use Rattle.sv_threads.specs.Given.{ends_given};
ghost use Rattle.sv_threads.specs.Opening.{server_end, uncut};
ghost use Rattle.sv_threads.specs.Tasks.{services_of, parts_of, serviced_of, played_of};
ghost use Rattle.sv_threads.specs.RunRemains.{ends_from, ends_of, is_memory, is_unplayed, RemainsHaveRoom, HasFewSessions, Gathered, JoinedPasses, IsOfLock};

use crate::tasks::{Part, Service, Serviced, Task, TaskOut};
use std::alloc::{AllocError, Global};
use sv_client::{Event, Trace};
use sv_link::End;
use sv_lock::{Pass, SeqLock};
use sv_player::{PlayerCause, PlayerOut};
use sv_sequencer::Sequencer;
use sv_session::SessionOut;
use sv_watch::Line;

/// A client's end, once its client is done. `cut` says whether the client left the session on its own.
#[derive(Drop)]
pub(crate) struct ClientEnd<E> {
    pub(crate) end: E,
    pub(crate) cut: bool,
}

/// The ends of all sessions, in the order of their numbers, and what each client did. `lacked` says whether a task had no memory.
#[derive(Drop)]
pub(crate) struct RunRemains<E> {
    pub(crate) servers: Vec<E>,
    pub(crate) clients: Vec<ClientEnd<E>>,
    pub(crate) traces: Vec<Trace>,
    pub(crate) lines: Vec<Vec<Line>>,
    pub(crate) lacked: bool,
}

/// The session that is current after an event, where it was `current` before.
fn current_after(current: Option<u16>, event: &Event) -> Option<u16>
    ensures { (t : List Event) → current ≡ current_session t → result ≡ current_session (event.now ∷ t) }
{
    match event {
        Event::Join(number) => Some(*number),
        _ => current,
    }
}

/// Whether an event ends a session, where this one is current.
fn ends(current: Option<u16>, event: &Event, session: u16) -> bool
    ensures { (t : List Event) → current ≡ current_session t → is_cut (event.now ∷ t) session ≡ (result || is_cut t session) }
{
    match (event, current) {
        (Event::Cut | Event::Quit, Some(number)) => number == session,
        _ => false,
    }
}

/// Whether a trace cut a session, or quit in it.
fn was_cut(trace: &Trace, session: u16) -> bool
    ensures { result ≡ is_cut (reverse trace.now.events) session }
{
    let mut current = None;
    let mut cut = false;
    for event in trace.events.as_slice() {
        cut = ends(current, event, session) || cut;
        current = current_after(current, event);
    }
    cut
}

impl<E: Drop> RunRemains<E> {
    /// Nothing, with room for so many sessions and clients.
    pub(crate) fn new(
        alloc: Global,
        sessions: u16,
        clients: usize,
    ) -> Result<RunRemains<E>, AllocError>
        ensures room { IfOk result (RemainsHaveRoom sessions sessions clients) }
        ensures empty { IfOk result (Gathered []) }
    {
        Ok(RunRemains {
            servers: Vec::with_capacity(alloc, sessions as usize)?,
            clients: Vec::with_capacity(alloc, sessions as usize)?,
            traces: Vec::with_capacity(alloc, clients)?,
            lines: Vec::with_capacity(alloc, clients)?,
            lacked: false,
        })
    }

    /// Takes a session's end in.
    fn take_server(&mut self, end: E, out: SessionOut)
        requires { vec_len self.old.servers < vec_capacity self.old.servers }
        ensures server { self.new.servers.items ≡ self.old.servers.items ++ end ∷ [] }
        ensures lacked { self.new.lacked ≡ (self.old.lacked || is_memory out) }
        ensures same { (self.new.clients ≡ self.old.clients) × (self.new.traces ≡ self.old.traces) × (self.new.lines ≡ self.old.lines) }
        ensures room { (vec_len self.new.servers ≡ vec_len self.old.servers + 1) × (vec_capacity self.new.servers ≡ vec_capacity self.old.servers) }
    {
        self.servers.push_reserved(end);
        if let SessionOut::Memory = out {
            self.lacked = true;
        }
    }

    /// Takes the ends of sessions back that nobody serves, in order.
    pub(crate) fn take_services<G>(&mut self, services: Vec<Service<'_, E, G>>)
        requires room { vec_len self.old.servers + length services.items ≤ vec_capacity self.old.servers }
        ensures servers { self.new.servers.items ≡ self.old.servers.items ++ map server_end services.entry.items }
        ensures same { self.new.clients ≡ self.old.clients }
    {
        for service in services {
            let Service { end, .. } = service;
            self.servers.push_reserved(end);
        }
    }

    /// Takes ends back with which no client plays, in order.
    pub(crate) fn take_unplayed(&mut self, ends: Vec<E>)
        requires room { vec_len self.old.clients + length ends.items ≤ vec_capacity self.old.clients }
        ensures clients { self.new.clients.items ≡ self.old.clients.items ++ map uncut ends.items }
        ensures size { vec_len self.new.clients ≡ vec_len self.old.clients + length ends.items }
        ensures room { vec_capacity self.new.clients ≡ vec_capacity self.old.clients }
        ensures same { self.new.servers ≡ self.old.servers }
    {
        for end in ends {
            self.clients.push_reserved(ClientEnd { end, cut: false });
        }
    }

    /// Takes a client's ends in.
    fn take_ends(&mut self, trace: &Trace, ends: Vec<E>)
        requires numbers { trace.now.first + length ends.items ≤ most_sessions }
        requires room { vec_len self.old.clients + length ends.items ≤ vec_capacity self.old.clients }
        ensures ends { self.new.clients.items ≡ self.old.clients.items ++ ends_from trace.now trace.now.first ends.items }
        ensures same { (self.new.servers ≡ self.old.servers) × (self.new.traces ≡ self.old.traces) × (self.new.lines ≡ self.old.lines) × (self.new.lacked ≡ self.old.lacked) }
        ensures size { vec_len self.new.clients ≡ vec_len self.old.clients + length ends.items }
        ensures room { vec_capacity self.new.clients ≡ vec_capacity self.old.clients }
    {
        let mut session = trace.first;
        for end in ends {
            self.clients.push_reserved(ClientEnd {
                end,
                cut: was_cut(trace, session),
            });
            session += 1;
        }
    }

    /// Takes what a client did in.
    fn take_client(&mut self, player: PlayerOut<E>)
        requires numbers { player.trace.first + length player.ends.items ≤ most_sessions }
        requires clients { vec_len self.old.clients + length player.ends.items ≤ vec_capacity self.old.clients }
        requires traces { vec_len self.old.traces < vec_capacity self.old.traces }
        requires lines { vec_len self.old.lines < vec_capacity self.old.lines }
        ensures ends { self.new.clients.items ≡ self.old.clients.items ++ ends_of player }
        ensures trace { self.new.traces.items ≡ self.old.traces.items ++ player.trace ∷ [] }
        ensures lines { self.new.lines.items ≡ self.old.lines.items ++ player.lines ∷ [] }
        ensures lacked { self.new.lacked ≡ (self.old.lacked || is_unplayed player.cause) }
        ensures same { self.new.servers ≡ self.old.servers }
        ensures size { (vec_len self.new.clients ≡ vec_len self.old.clients + length player.ends.items) × (vec_len self.new.traces ≡ vec_len self.old.traces + 1) × (vec_len self.new.lines ≡ vec_len self.old.lines + 1) }
        ensures room { (vec_capacity self.new.clients ≡ vec_capacity self.old.clients) × (vec_capacity self.new.traces ≡ vec_capacity self.old.traces) × (vec_capacity self.new.lines ≡ vec_capacity self.old.lines) }
    {
        let PlayerOut {
            cause,
            trace,
            lines,
            ends,
        } = player;
        self.take_ends(&trace, ends);
        self.traces.push_reserved(trace);
        self.lines.push_reserved(lines);
        if let PlayerCause::Memory = cause {
            self.lacked = true;
        }
    }
}

/// Takes in what all tasks left, and has the keeper take the passes in. It takes no memory.
pub(crate) fn gather<E: End>(
    lock: &SeqLock<Sequencer>,
    keeper: &mut Pass<Sequencer>,
    outs: Vec<TaskOut<E>>,
    left: &mut RunRemains<E>,
)
    requires keeper { (keeper.old.lock ≡ lock.now.id) × (keeper.old.session ≡ None) }
    requires passes { AllByRecursion (IsOfLock lock.now) (serviced_of outs.items) }
    requires numbers { AllByRecursion HasFewSessions (played_of outs.items) }
    requires empty { Gathered [] left.old }
    requires room { RemainsHaveRoom (length (serviced_of outs.items)) (length (flat_map ends_of (played_of outs.items))) (length (played_of outs.items)) left.old }
    ensures gathered { Gathered outs.items left.new }
    ensures joined { JoinedPasses (serviced_of outs.items) keeper.old keeper.new }
{
    for out in outs {
        match out {
            TaskOut::Served(Serviced { pass, end, out }) => {
                lock.join(keeper, pass);
                left.take_server(end, out);
            }
            TaskOut::Played(player) => left.take_client(player),
        }
    }
}

/// Takes the ends of tasks back that were not done. It takes no memory.
pub(crate) fn take_back<E: Drop, G, W>(tasks: Vec<Task<'_, E, G, W>>, left: &mut RunRemains<E>)
    requires servers { vec_len left.old.servers + length (services_of tasks.items) ≤ vec_capacity left.old.servers }
    requires clients { vec_len left.old.clients + length (flat_map ends_given (parts_of tasks.items)) ≤ vec_capacity left.old.clients }
    ensures servers { left.new.servers.items ≡ left.old.servers.items ++ map server_end (services_of tasks.entry.items) }
    ensures clients { left.new.clients.items ≡ left.old.clients.items ++ map uncut (flat_map ends_given (parts_of tasks.entry.items)) }
{
    for task in tasks {
        match task {
            Task::Serve(service) => {
                let Service { end, .. } = service;
                left.servers.push_reserved(end);
            }
            Task::Play(part) => {
                let Part { ends, .. } = part;
                left.take_unplayed(ends);
            }
        }
    }
}
