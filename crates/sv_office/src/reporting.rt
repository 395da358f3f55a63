//! When the steward reports.
ghost use Rattle.std.specs.Prelude.{◌≡◌, OnOk};
ghost use Rattle.sv_keeper.specs.Keeping.{AreDurable};
ghost use Rattle.sv_office.specs.Entering.{GoesOn, IsReport, IsStewards, KeepsOwn, WasReported};
ghost use Rattle.sv_office.specs.Offices.{session_of};

use crate::halt::Halt;
use crate::office::Office;
use sv_log::Folder;

/// How many results the steward reports in one turn at most.
const MOST_REPORTS: u32 = 64;

impl<F: Folder> Office<F> {
    // Has the steward poll once and report what it was answered. Says whether there was something.
    #[tactic(auto, using(crate::proofs::Adding::goes_nowhere, crate::proofs::Entered::sound_stays))]
    #[inline(never)]
    fn report_once(&mut self) -> Result<bool, Halt>
        ensures steward { session_of self.new.steward ≡ session_of self.old.steward }
        ensures reported { OnOk result (WasReported (session_of self.old.steward) self.old.keeper.world.history self.new.keeper.world.history) }
        ensures added { GoesOn (IsReport (session_of self.old.steward)) self.old.keeper.world self.new.keeper.world }
        ensures keys { self.new.keys ≡ self.old.keys }
        ensures policy { self.new.policy ≡ self.old.policy }
    {
        let Some(steward) = &mut self.steward else {
            return Ok(false);
        };
        let count = steward.report(&mut self.keeper)?;
        self.counts.reported_by_steward = self.counts.reported_by_steward.saturating_add(count);
        Ok(count > 0)
    }

    /// With authority: has the steward report what was accepted just now.
    pub fn report_accepted(&mut self) -> Result<(), Halt>
        ensures steward { session_of self.new.steward ≡ session_of self.old.steward }
        ensures reported { OnOk result (WasReported (session_of self.old.steward) self.old.keeper.world.history self.new.keeper.world.history) }
        ensures added { GoesOn (IsReport (session_of self.old.steward)) self.old.keeper.world self.new.keeper.world }
        ensures keys { self.new.keys ≡ self.old.keys }
        ensures policy { self.new.policy ≡ self.old.policy }
    {
        self.report_once()?;
        Ok(())
    }

    /// When the steward is to report, where something is without a result.
    pub fn report_due(&mut self) -> Option<u64>
        ensures keeper { self.new.keeper ≡ self.old.keeper }
        ensures steward { self.new.steward ≡ self.old.steward }
        ensures keys { self.new.keys ≡ self.old.keys }
        ensures policy { self.new.policy ≡ self.old.policy }
    {
        if self.steward.is_none() || self.policy.authority {
            return None;
        }
        let oldest = self.ages.oldest(self.keeper.commit())?;
        Some(oldest.saturating_add(self.policy.report_within))
    }

    // Notes up to which position actions were accepted, where some have no result.
    fn note_last(&mut self) -> Result<(), Halt>
        ensures keeper { self.new.keeper ≡ self.old.keeper }
        ensures steward { self.new.steward ≡ self.old.steward }
        ensures keys { self.new.keys ≡ self.old.keys }
        ensures policy { self.new.policy ≡ self.old.policy }
    {
        if self.keeper.commit() < self.keeper.last() {
            self.ages.note(self.keeper.last(), self.time)?;
        }
        Ok(())
    }

    // Whether the steward is to report now.
    fn is_report_due(&mut self) -> bool
        ensures keeper { self.new.keeper ≡ self.old.keeper }
        ensures steward { self.new.steward ≡ self.old.steward }
        ensures keys { self.new.keys ≡ self.old.keys }
        ensures policy { self.new.policy ≡ self.old.policy }
    {
        match self.report_due() {
            Some(due) => due <= self.time,
            None => false,
        }
    }

    /// Has the steward report what was without a result for too long.
    #[tactic(auto, using(crate::proofs::Adding::goes_nowhere, crate::proofs::Stewarding::of_more))]
    pub fn report_old(&mut self) -> Result<(), Halt>
        ensures steward { session_of self.new.steward ≡ session_of self.old.steward }
        ensures added { GoesOn (IsReport (session_of self.old.steward)) self.old.keeper.world self.new.keeper.world }
        ensures keys { self.new.keys ≡ self.old.keys }
        ensures policy { self.new.policy ≡ self.old.policy }
    {
        if self.steward.is_none() || self.policy.authority {
            return Ok(());
        }
        self.note_last()?;
        for _ in 0..MOST_REPORTS {
            if !self.is_report_due() || !self.report_once()? {
                break;
            }
        }
        Ok(())
    }

    /// Has the steward report until there is nothing without a result.
    #[tactic(auto, using(crate::proofs::Adding::goes_nowhere, crate::proofs::Stewarding::of_more))]
    pub fn report_all(&mut self) -> Result<(), Halt>
        ensures steward { session_of self.new.steward ≡ session_of self.old.steward }
        ensures added { GoesOn (IsReport (session_of self.old.steward)) self.old.keeper.world self.new.keeper.world }
        ensures keys { self.new.keys ≡ self.old.keys }
        ensures policy { self.new.policy ≡ self.old.policy }
    {
        for _ in 0..u64::MAX {
            if !self.report_once()? {
                break;
            }
        }
        Ok(())
    }

    // The steward joins, where there is one.
    #[tactic(auto, using(crate::proofs::Adding::goes_nowhere))]
    fn join(&mut self) -> Result<(), Halt>
        ensures session { KeepsOwn self.old.keeper.world.history (session_of self.old.steward) (session_of self.new.steward) }
        ensures added { GoesOn (IsStewards self.old.keeper.world.history (session_of self.old.steward)) self.old.keeper.world self.new.keeper.world }
        ensures keys { self.new.keys ≡ self.old.keys }
        ensures policy { self.new.policy ≡ self.old.policy }
    {
        if let Some(steward) = &mut self.steward {
            steward.join(&mut self.keeper)?;
        }
        Ok(())
    }

    /// The steward joins and reports, before anybody is served.
    pub fn begin(&mut self) -> Result<(), Halt>
        ensures added { GoesOn (IsStewards self.old.keeper.world.history (session_of self.old.steward)) self.old.keeper.world self.new.keeper.world }
        ensures durable { OnOk result (AreDurable F.disk F.is_honest self.new.keeper) }
        ensures keys { self.new.keys ≡ self.old.keys }
        ensures policy { self.new.policy ≡ self.old.policy }
    {
        self.join()?;
        self.report_all()?;
        match self.keeper.make_durable() {
            Ok(()) => Ok(()),
            Err(_) => Err(Halt::Log),
        }
    }
}
