//! What a run asks of its server.
ghost use Rattle.std.specs.Prelude.{◌≡◌, ℕ, ◌<◌, ℤ, List, [], Some, true, false, slice_index_or, IfOk};
ghost use Rattle.sv_journal.specs.Answer.{MayBeSession};
ghost use Rattle.sv_journal.specs.Sessions.{is_end, is_ended};
ghost use Rattle.sv_replay.specs.Serving.{Answers, ServerView, sequencer_view, sequencer_world};

use std::alloc::AllocError;
use sv_sequencer::Sequencer;
use sv_wire::{Reply, Request};
use sv_world::{ObjectId, Value};

/// A server that a run can be played over: it answers the requests of sessions, and keeps a journal of them.
pub trait Server: Drop {
    // What it was opened with, how it answers, and what it was asked so far.
    ghost view: { Self → ServerView };

    // The values of all objects at its commit.
    ghost world: { Self → List (List ℤ) };

    /// How many sessions it was opened for.
    fn sessions(&self) -> u16
        ensures { Some result ≡ (view self.now).rules.sessions };

    /// Whether a session had its End.
    fn is_ended(&self, session: u16) -> bool
        requires { MayBeSession (view self.now).rules.sessions session }
        ensures { result ≡ is_ended (view self.now).history session };

    /// Answers a request of a session, whose End comes at most once, and enters both into its journal. Where it does not, the request is let go.
    fn step(&mut self, session: u16, request: Request) -> Result<Reply, AllocError>
        requires session { MayBeSession (view self.old).rules.sessions session }
        requires first { is_end request ≡ true → is_ended (view self.old).history session ≡ false }
        ensures { IfOk result (Answers (view self.old) (view self.new) session request) };

    /// The value of an object at the commit.
    fn committed(&self, object: ObjectId) -> &Value
        requires { object.0 < (view self.now).rules.world.shape.objects }
        ensures { result.now ≡ slice_index_or (world self.now) object.0 [] };
}

/// Whether each session of a server had its End.
#[tactic(auto, using(crate::proofs::Limited::below_may, crate::proofs::Limited::may_below))]
pub fn are_ended<S: Server>(server: &S) -> bool
    ensures all { result ≡ true → (s : ℕ) → MayBeSession (S.view server.now).rules.sessions s → is_ended (S.view server.now).history s ≡ true }
    ensures not { result ≡ false → ((s : ℕ) → MayBeSession (S.view server.now).rules.sessions s → is_ended (S.view server.now).history s ≡ true) → ⊥ }
{
    for session in 0..server.sessions() {
        if !server.is_ended(session) {
            return false;
        }
    }
    true
}

impl Server for Sequencer {
    ghost view = { sequencer_view };

    ghost world = { sequencer_world };

    fn sessions(&self) -> u16 {
        self.sessions()
    }

    fn is_ended(&self, session: u16) -> bool {
        self.is_ended(session)
    }

    fn step(&mut self, session: u16, request: Request) -> Result<Reply, AllocError> {
        self.step(session, request)
    }

    fn committed(&self, object: ObjectId) -> &Value {
        self.committed(object)
    }
}
