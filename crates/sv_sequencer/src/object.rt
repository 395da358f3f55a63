//! The sequencer under a lock: threads share it, and it answers their requests in turn.
ghost use Rattle.std.specs.Prelude.{◌≡◌, true, reverse, refl};
ghost use Rattle.sv_journal.specs.Sessions.{is_end};
ghost use Rattle.sv_journal.specs.Answer.{Legal};
ghost use Rattle.sv_sequencer.specs.Shared.{IsFullInOrder, MayAsk};
ghost use Rattle.sv_journal.specs.History.{logged_of};
ghost use Rattle.sv_journal.specs.History.{entry_of};

use crate::sequencer::Sequencer;
use std::alloc::AllocError;
use sv_core::Opened;
use sv_journal::Entry;
use sv_lock::Object;
use sv_wire::{Reply, Request};

impl Object for Sequencer {
    type Request = Request;

    type Reply = Reply;

    type Entry = Entry;

    type Base = Opened;

    ghost base = { λ s. s.rules };

    ghost history = { λ s. s.journal.entries };

    ghost lawful = { λ rules entries. Legal rules (reverse entries) };

    ghost entry = { λ session request reply. entry_of session request (logged_of reply) };

    ghost number_of = { λ e. e.session };

    ghost whole = { IsFullInOrder };

    ghost can_step = { MayAsk };

    ghost is_plain = { λ request. is_end request ≡ true };

    ghost number_of_entry = { λ session request reply. refl };

    fn step(&mut self, session: u16, request: Request) -> Result<Reply, AllocError> {
        self.step(session, request)
    }

    fn certify(&self) {
        let _journal = self.journal();
    }
}
