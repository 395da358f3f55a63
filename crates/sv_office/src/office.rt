//! What answers: the kept world, who may join, and what is told of it.
ghost use Rattle.std.specs.Coded.{Coded-set, codes};
ghost use Rattle.sv_world.specs.contracts.action.Stmt as statements;
ghost use Rattle.sv_office.specs.Knowing.{IsTrusted};
ghost use Rattle.sv_office.specs.Offices.{IsSound};

use crate::ages::Ages;
use crate::steward::Steward;
use std::alloc::Global;
use std::hash::RandomState;
use sv_keeper::Keeper;
use sv_keys::Keys;
use sv_log::Folder;
use sv_site::{Counts, Figures};

/// How the server is to behave. Times are in milliseconds.
#[derive(Clone, Copy, Debug, Drop, PartialEq, Eq)]
pub struct Policy {
    pub idle: u64,
    pub report_within: u64,
    /// The steward's reports alone count.
    pub authority: bool,
    /// It stops by a line of the input.
    pub stops: bool,
}

/// What the connections are answered by. It knows of each only while it answers it. Its world is within the limits, its steward's session has
/// entries, and nobody else reports as the steward.
#[derive(Drop)]
pub struct Office<F: Folder> {
    pub alloc: Global,
    pub keeper: Keeper<F>,
    pub policy: Policy,
    pub counts: Counts,
    pub steward: Option<Steward>,
    pub keys: Option<Keys>,
    pub ages: Ages,
    /// The time of this turn.
    pub time: u64,
    /// For the connections that speak HTTP.
    pub random: RandomState,
    /// The folder of the site.
    pub site: Option<String>,
    /// Pages of these origins may upgrade too.
    pub origins: Vec<String>,
    ghost sound: { IsSound keeper.world steward },
    ghost trusted: { IsTrusted keeper steward } by { Prim.hlevel (Coded-set, codes, statements.the_row.coded) },
}

impl<F: Folder> Office<F> {
    /// What is told of it.
    pub fn figures(&self) -> Figures {
        Figures {
            clients: self.keeper.client_count() as u64,
            sessions: self.keeper.next_session(),
            open: self.keeper.open_count() as u64,
            entries: self.keeper.entries(),
            accepted: self.keeper.last() as u64,
            commit: self.keeper.commit() as u64,
            log_bytes: self.keeper.log_bytes(),
            syncs: self.keeper.syncs(),
            seconds: self.time / 1000,
            counts: self.counts,
        }
    }
}
