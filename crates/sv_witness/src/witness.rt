//! A server that trusts no client alone, and what it tells.
ghost use Rattle.std.specs.Prelude.{◌≡◌, ◌<◌, [], slice_index_or};
ghost use Rattle.sv_sequencer.specs.Step.{history};
ghost use Rattle.sv_witness.specs.Reports.{agreed_commit, agreed_world};
ghost use Rattle.sv_witness.specs.Witnessed.{IsWitnessed};
ghost use Rattle.sv_witness.specs.Disputes.{disputes_of};

use crate::report::Dispute;
use crate::testimony::Testimony;
use std::alloc::Global;
use std::marker::Model;
use sv_core::Core;
use sv_journal::Journal;
use sv_world::{ObjectId, Value};

/// A server's core that trusts no client alone: it installs a result once two different clients report it.
///
/// Else it does as a [`sv_sequencer::Sequencer`] does: it puts the actions of all sessions in one order, and keeps every request with its reply
/// in its journal. A Poll asks for any position whose result is not agreed, so that clients without actions of their own can report too.
#[derive(Drop)]
pub struct Witness {
    pub(crate) alloc: Global,
    pub(crate) core: Core,
    /// It has room for the Ends that are to come.
    pub(crate) journal: Journal,
    pub(crate) testimony: Testimony,
}

impl Model for Witness {
    ghost use Rattle.std.specs.Coded.{codes};
    ghost use Rattle.sv_journal.specs.contracts.entry.Entry as entry;
    ghost use Rattle.sv_sequencer.specs.Step.{SequencerView};

    ghost Value = { SequencerView };

    ghost coded = { Prim.hlevel (codes, entry.the_row.coded) };

    ghost use Rattle.sv_witness.specs.Invariant.{model_of, IsWitness};

    ghost view = { model_of };

    ghost invariant = { IsWitness };
}

impl Witness {
    /// Every request so far with its reply.
    pub fn journal(&self) -> &Journal
        ensures journal { result.now ≡ self.now.journal }
        ensures legal { IsWitnessed self.now.rules (history self.now) }
    {
        &self.journal
    }

    /// The greatest position up to which all results are agreed.
    pub fn commit(&self) -> u32
        ensures { result ≡ agreed_commit (history self.now) }
    {
        self.core.commit()
    }

    /// The value of an object at the commit.
    pub fn committed(&self, object: ObjectId) -> &Value
        requires { object.0 < self.now.rules.world.shape.objects }
        ensures { result.now ≡ slice_index_or (agreed_world self.now.rules.world.values (history self.now)) object.0 [] }
    {
        self.core.committed(object)
    }

    /// The positions of which two clients' reports differ, ascending, with the first two such reports of each.
    pub fn disputes(&self) -> &[Dispute]
        ensures { result.now ≡ disputes_of (history self.now) }
    {
        &self.testimony.disputes
    }
}
