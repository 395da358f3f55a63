//! The server that takes what each client reports: a core, and the journal of all that it was asked.
ghost use Rattle.std.specs.Prelude.{◌≡◌, ◌<◌, ◌≤◌, Some, [], slice_index_or, IfOk, IfSome};
ghost use Rattle.sv_world.specs.Limits.{most_bound, most_reach, most_sessions};
ghost use Rattle.sv_world.specs.Worlds.{IsGoodWorld};
ghost use Rattle.sv_journal.specs.History.{commit_of, committed_of};
ghost use Rattle.sv_journal.specs.Answer.{scenario_rules, MayBeSession, Legal};
ghost use Rattle.sv_journal.specs.Sessions.{is_ended};
ghost use Rattle.sv_sequencer.specs.Step.{history};

use crate::entering::open_core;
use std::alloc::{AllocError, Global};
use std::marker::Model;
use sv_core::{Core, Seat};
use sv_journal::Journal;
use sv_world::{ObjectId, Value, World};

/// The server's core with its journal: it puts the actions of all sessions in one order, and keeps every request with its reply.
#[derive(Drop)]
pub struct Sequencer {
    pub(crate) core: Core,
    /// It has room for the Ends that are to come.
    pub(crate) journal: Journal,
}

impl Model for Sequencer {
    ghost use Rattle.std.specs.Coded.{codes};
    ghost use Rattle.sv_journal.specs.contracts.entry.Entry as entry;
    ghost use Rattle.sv_sequencer.specs.Step.{SequencerView};

    ghost Value = { SequencerView };

    ghost coded = { Prim.hlevel (codes, entry.the_row.coded) };

    ghost use Rattle.sv_sequencer.specs.Invariant.{model_of, IsSequencer};

    ghost view = { model_of };

    ghost invariant = { IsSequencer };
}

impl Sequencer {
    /// Opens a server for so many sessions.
    ///
    /// An action is dropped where more than `bound` actions influence it, or, where a reach is given, one that was made farther away.
    /// The journal has room for the Ends of all sessions from the start.
    pub fn new(
        alloc: Global,
        world: World,
        bound: u8,
        reach: Option<u32>,
        sessions: u16,
    ) -> Result<Sequencer, AllocError>
        requires world { IsGoodWorld world }
        requires bound { bound ≤ most_bound }
        requires reach { IfSome reach (λ far. far ≤ most_reach) }
        requires some { 1 ≤ sessions }
        requires few { sessions ≤ most_sessions }
        ensures rules { IfOk result (λ s. s.rules ≡ scenario_rules world bound reach sessions) }
        ensures empty { IfOk result (λ s. s.journal.entries ≡ []) }
    {
        let (core, journal) = open_core(alloc, world, bound, reach, sessions)?;
        Ok(Sequencer { core, journal })
    }

    /// Every request so far with its reply.
    pub fn journal(&self) -> &Journal
        ensures journal { result.now ≡ self.now.journal }
        ensures legal { Legal self.now.rules (history self.now) }
    {
        &self.journal
    }

    /// Hands the journal out.
    pub fn into_journal(self) -> Journal
        ensures journal { result ≡ self.journal }
        ensures legal { Legal self.rules (history self) }
    {
        let Sequencer { journal, .. } = self;
        journal
    }

    /// The greatest position up to which all results are installed.
    pub fn commit(&self) -> u32
        ensures { result ≡ commit_of (history self.now) }
    {
        self.core.commit()
    }

    /// The value of an object at the commit.
    pub fn committed(&self, object: ObjectId) -> &Value
        requires { object.0 < self.now.rules.world.shape.objects }
        ensures { result.now ≡ slice_index_or (committed_of self.now.rules.world.values (history self.now)) object.0 [] }
    {
        self.core.committed(object)
    }

    /// How many sessions there may be.
    pub fn sessions(&self) -> u16
        ensures { Some result ≡ self.now.rules.sessions }
    {
        self.core.sessions().unwrap()
    }

    /// Whether a session had its End.
    pub fn is_ended(&self, session: u16) -> bool
        requires { MayBeSession self.now.rules.sessions session }
        ensures { result ≡ is_ended (history self.now) session }
    {
        self.core.is_ended(Seat::own(session))
    }
}
