//! What a witnessing server tells of its sessions and of the order of actions.
ghost use Rattle.std.specs.Prelude.{◌≡◌, Some, length};
ghost use Rattle.sv_journal.specs.History.{accepted, client_of};
ghost use Rattle.sv_journal.specs.Sessions.{is_ended};
ghost use Rattle.sv_journal.specs.Answer.{MayBeSession};
ghost use Rattle.sv_sequencer.specs.Step.{history};

use crate::witness::Witness;
use sv_core::Seat;

impl Witness {
    /// How many sessions there may be.
    pub fn sessions(&self) -> u16
        ensures { Some result ≡ self.now.rules.sessions }
    {
        self.core.sessions().unwrap()
    }

    /// Whether a session had its End.
    pub fn is_ended(&self, session: u16) -> bool
        requires { MayBeSession self.now.rules.sessions session }
        ensures { result ≡ is_ended (history self.now) session }
    {
        self.core.is_ended(Seat::own(session))
    }

    /// The client of a session, once it has joined.
    pub fn client(&self, session: u16) -> Option<u16>
        requires { MayBeSession self.now.rules.sessions session }
        ensures { result ≡ client_of (history self.now) session }
    {
        self.core.client(Seat::own(session))
    }

    /// How many actions were accepted.
    pub fn accepted(&self) -> usize
        ensures { result ≡ length (accepted (history self.now)) }
    {
        self.core.last() as usize
    }
}
