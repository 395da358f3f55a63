//! How a witnessing server is opened.
ghost use Rattle.std.specs.Prelude.{◌≡◌, ◌≤◌, [], IfOk, IfSome};
ghost use Rattle.sv_world.specs.Limits.{most_bound, most_reach, most_sessions};
ghost use Rattle.sv_world.specs.Worlds.{IsGoodWorld};
ghost use Rattle.sv_journal.specs.Answer.{scenario_rules};

use crate::reports::Reports;
use crate::testimony::Testimony;
use crate::witness::Witness;
use std::alloc::{AllocError, Global};
use sv_sequencer::open_core;
use sv_world::World;

impl Witness {
    /// Opens a server for so many sessions.
    ///
    /// An action is dropped where more than `bound` actions influence it, or, where a reach is given, one that was made farther away.
    /// The journal has room for the Ends of all sessions from the start.
    pub fn new(
        alloc: Global,
        world: World,
        bound: u8,
        reach: Option<u32>,
        sessions: u16,
    ) -> Result<Witness, AllocError>
        requires world { IsGoodWorld world }
        requires bound { bound ≤ most_bound }
        requires reach { IfSome reach (λ far. far ≤ most_reach) }
        requires some { 1 ≤ sessions }
        requires few { sessions ≤ most_sessions }
        ensures rules { IfOk result (λ s. s.rules ≡ scenario_rules world bound reach sessions) }
        ensures empty { IfOk result (λ s. s.journal.entries ≡ []) }
    {
        let (core, journal) = open_core(alloc, world, bound, reach, sessions)?;
        Ok(Witness {
            alloc,
            core,
            journal,
            testimony: Testimony {
                reports: Reports::new(alloc),
                disputes: Vec::new(alloc),
            },
        })
    }
}
