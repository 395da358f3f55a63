//! A witnessing server that hears lies of one client.
ghost use Rattle.std.specs.Prelude.{◌≡◌};
ghost use Rattle.sv_journal.specs.Answer.{MayBeSession};
ghost use Rattle.sv_sequencer.specs.Step.{history};
ghost use Rattle.sv_witness.specs.Lying.{hears_lies, lying_view, lying_world};

use crate::lie::lie_for;
use crate::witness::Witness;
use std::alloc::{AllocError, Global};
use sv_replay::Server;
use sv_wire::{Reply, Request};
use sv_world::{ObjectId, Value};

/// A witnessing server, and the client that lies to it, if one does: whatever that client's sessions ask, the server hears the lie.
#[derive(Drop)]
pub(crate) struct Lying {
    pub(crate) alloc: Global,
    pub(crate) witness: Witness,
    pub(crate) liar: Option<u16>,
}

impl Lying {
    /// Whether the liar joined a session.
    fn hears_lies(&self, session: u16) -> bool
        requires { MayBeSession self.now.witness.rules.sessions session }
        ensures { result ≡ hears_lies self.now.liar (history self.now.witness) session }
    {
        match (self.liar, self.witness.client(session)) {
            (Some(liar), Some(client)) => client == liar,
            _ => false,
        }
    }
}

impl Server for Lying {
    ghost view = { lying_view };

    ghost world = { lying_world };

    fn sessions(&self) -> u16 {
        self.witness.sessions()
    }

    fn is_ended(&self, session: u16) -> bool {
        self.witness.is_ended(session)
    }

    fn step(&mut self, session: u16, request: Request) -> Result<Reply, AllocError> {
        if self.hears_lies(session) {
            let lie = lie_for(self.alloc, request)?;
            self.witness.step(session, lie)
        } else {
            self.witness.step(session, request)
        }
    }

    fn committed(&self, object: ObjectId) -> &Value {
        self.witness.committed(object)
    }
}
