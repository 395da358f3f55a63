//! What the threads of a run do: serve a session, or play a client.
ghost use Rattle.std.specs.Prelude.{true, false};
ghost use Rattle.sv_threads.specs.Tasks.{MayBeServed, MayTakePart, TookPart, WasServed};
ghost use Rattle.sv_threads.specs.Telling.{Telling};

use std::alloc::Global;
use std::sync::Wait;
use std::thread::Threads;
use sv_client::Client;
use sv_link::{End, Gate, Job};
use sv_lock::{Pass, SeqLock};
use sv_player::{PlayerOut, Role, play_client};
use sv_scenario::Step;
use sv_sequencer::Sequencer;
use sv_session::{SessionOut, serve_session};
use sv_watch::Watch;
use sv_world::Shape;

/// A session that is to be served, over one end and by one pass.
#[derive(Drop)]
pub struct Service<'a, E, G> {
    pub alloc: Global,
    pub lock: &'a SeqLock<Sequencer>,
    pub pass: Pass<Sequencer>,
    pub end: E,
    pub gate: &'a G,
}

/// What tells the changes of views, where clients play. It stands for `Watch`, so that no type of a task has its callback.
pub(crate) trait Teller {
    ghost telling: { Self → Telling };

    /// Plays a role, and tells what changes.
    fn play<E: End>(&self, role: Role<'_, E>) -> PlayerOut<E>
        requires { MayTakePart E.told (telling self.now).shape role.client role.script.now role.first role.ends.items }
        ensures { TookPart E.told E.faults E.calm (telling self.now).watched role.entry.client role.entry.script.now role.entry.first role.entry.ends.items result };
}

impl Teller for Watch {
    ghost telling = { λ w. record { shape = w.shape; watched = true } };

    fn play<E: End>(&self, role: Role<'_, E>) -> PlayerOut<E> {
        play_client(role, Some(self))
    }
}

/// What stands for a watch where nobody watches: it tells nothing.
#[derive(Drop)]
pub(crate) struct Silence {
    pub(crate) shape: Shape,
}

impl Teller for Silence {
    ghost telling = { λ s. record { shape = s.shape; watched = false } };

    fn play<E: End>(&self, role: Role<'_, E>) -> PlayerOut<E> {
        play_client(role, None)
    }
}

/// A client that is to play its script.
#[derive(Drop)]
pub(crate) struct Part<'a, E, W> {
    pub(crate) alloc: Global,
    pub(crate) client: Client,
    pub(crate) script: &'a [Step],
    pub(crate) first: u16,
    pub(crate) ends: Vec<E>,
    pub(crate) teller: &'a W,
}

/// What one thread does.
#[derive(Drop)]
pub(crate) enum Task<'a, E, G, W> {
    Serve(Service<'a, E, G>),
    Play(Part<'a, E, W>),
}

/// A session that was served.
#[derive(Drop)]
pub struct Serviced<E> {
    pub pass: Pass<Sequencer>,
    pub end: E,
    pub out: SessionOut,
}

/// What became of a task.
#[derive(Drop)]
pub(crate) enum TaskOut<E> {
    Served(Serviced<E>),
    Played(PlayerOut<E>),
}

impl<'a, E: End, G: Gate> Service<'a, E, G> {
    /// Serves the session, to its End.
    fn serve<R: Wait>(self, rt: &R) -> Serviced<E>
        requires may { MayBeServed E.told self }
        ensures { WasServed E.told E.faults E.calm self.entry result }
    {
        let Service {
            alloc,
            lock,
            mut pass,
            mut end,
            gate,
        } = self;
        let out = serve_session(rt, alloc, lock, &mut pass, &mut end, gate);
        Serviced { pass, end, out }
    }
}

impl<'a, E: End + Send, G: Gate + Sync> Job for Service<'a, E, G> {
    ghost use Rattle.sv_threads.specs.Tasks.{MayBeServed, WasServed};

    type Out = Serviced<E>;

    ghost ready = { MayBeServed E.told };

    ghost keeps = { WasServed E.told E.faults E.calm };

    fn run<R: Threads + Wait + Sync>(self, rt: &R) -> Serviced<E> {
        self.serve(rt)
    }
}

impl<'a, E: End, W: Teller> Part<'a, E, W> {
    /// Plays the script, until the client is finished or something stops it.
    fn play(self) -> PlayerOut<E>
        requires { MayTakePart E.told (W.telling self.teller.now).shape self.client self.script.now self.first self.ends.items }
        ensures { TookPart E.told E.faults E.calm (W.telling self.entry.teller.now).watched self.entry.client self.entry.script.now self.entry.first self.entry.ends.items result }
    {
        let Part {
            alloc,
            client,
            script,
            first,
            ends,
            teller,
        } = self;
        teller.play(Role {
            alloc,
            client,
            script,
            first,
            ends,
        })
    }
}

impl<'a, E: End + Send, G: Gate + Sync, W: Teller + Sync> Job for Task<'a, E, G, W> {
    ghost use Rattle.sv_threads.specs.Tasks.{IsReady, KeepsTask};

    type Out = TaskOut<E>;

    ghost ready = { IsReady E.told W.telling };

    ghost keeps = { KeepsTask E.told E.faults E.calm W.telling };

    fn run<R: Threads + Wait + Sync>(self, rt: &R) -> TaskOut<E> {
        match self {
            Task::Serve(service) => TaskOut::Served(service.serve(rt)),
            Task::Play(part) => TaskOut::Played(part.play()),
        }
    }
}
