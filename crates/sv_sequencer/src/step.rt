//! A step of the sequencer: what its core decides and does goes into its journal.
ghost use Rattle.std.specs.Prelude.{◌≡◌, List, true, false, IfOk, IsOk, OnErr};
ghost use Rattle.sv_journal.specs.declared.entry.Entry.{Entry};
ghost use Rattle.sv_journal.specs.Sessions.{is_end, is_ended};
ghost use Rattle.sv_journal.specs.Answer.{MayBeSession, Legal};
ghost use Rattle.sv_journal.specs.History.{end_entry};
ghost use Rattle.sv_sequencer.specs.Step.{history, GrewByEntry, StepAnswered, Stayed};

use crate::entering::{enter_end, enter_reply};
use crate::sequencer::Sequencer;
use std::alloc::AllocError;
use sv_core::{Decided, Seat};
use sv_wire::{Reply, Request};

impl Sequencer {
    /// Answers a request of a session, whose End comes at most once, and enters both into the journal.
    ///
    /// The journal keeps the request itself. After running out of memory everything is as it was, but for room in the journal, and the request is
    /// let go. An End takes no memory.
    pub fn step(&mut self, session: u16, request: Request) -> Result<Reply, AllocError>
        requires session { MayBeSession self.old.rules.sessions session }
        requires first { is_end request ≡ true → is_ended (history self.old) session ≡ false }
        ensures ok { IfOk result (StepAnswered self.old self.new session request) }
        ensures err { OnErr result (Stayed self.old self.new) }
        ensures legal { Legal self.new.rules (history self.new) }
        ensures end { is_end request ≡ true → IsOk result }
    {
        if let Request::End = request {
            // A tree that is let go at the end of its scope makes a long proof; a call that takes it, none.
            drop(request);
            self.end(session);
            self.is_legal();
            return Ok(Reply::Bye);
        }
        let answer = self.answer(session, request);
        self.is_legal();
        answer
    }

    /// A law: the journal is legal at any time.
    fn is_legal(&self)
        ensures { Legal self.now.rules (history self.now) }
    {
        let _ = &self.core;
    }

    /// The End of a session: the journal has room for its entry. `h` is the journal's history.
    fn end(&mut self, session: u16)
        ghost h: { List Entry }
        requires past { h ≡ history self.old }
        requires session { MayBeSession self.old.rules.sessions session }
        requires first { is_ended h session ≡ false }
        ensures { GrewByEntry self.old self.new (end_entry session) }
    {
        enter_end(&mut self.core, &mut self.journal, session);
    }

    /// Answers a request that is no End. `h` is the journal's history. The room for the Ends that are to come stays.
    fn answer(&mut self, session: u16, request: Request) -> Result<Reply, AllocError>
        ghost h: { List Entry }
        requires past { h ≡ history self.old }
        requires session { MayBeSession self.old.rules.sessions session }
        requires more { is_end request ≡ false }
        ensures ok { IfOk result (StepAnswered self.old self.new session request) }
        ensures err { OnErr result (Stayed self.old self.new) }
    {
        let seat = Seat::own(session);
        let decision = self.core.decide(seat, &request);
        enter_reply(
            &mut self.core,
            &mut self.journal,
            Decided { session, decision },
            request,
        )
    }
}
