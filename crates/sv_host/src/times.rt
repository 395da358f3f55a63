//! What is done because time has passed.
ghost use Rattle.std.specs.Prelude.{◌≡◌, OnOk};
ghost use Rattle.sv_office.specs.Offices.{session_of};
ghost use Rattle.sv_host.specs.Joining.{LetsNobodyIn};
ghost use Rattle.sv_host.specs.Rooms.{AreServed, Continues, KeepsWritten};

use crate::host::Host;
use sv_log::Folder;
use sv_office::Halt;

/// How often the connections are looked at.
const LOOK: u64 = 250;

/// How long a turn waits at most.
const LONGEST_WAIT: u64 = 1000;

impl<F: Folder> Host<F> {
    // Whether a connection is idle: no whole request came of it for so long. Time in which an Observe is held does not count.
    fn is_idle(&self, number: u64) -> bool {
        match self.room.guests.get(number) {
            Some(guest) => {
                let guest = guest.get();
                guest.held.is_none()
                    && self.office.time.saturating_sub(guest.heard) >= self.office.policy.idle
            }
            None => false,
        }
    }

    // Ends a connection that is idle.
    #[inline(never)]
    #[tactic(auto, using(crate::proofs::Written::continues_then, crate::proofs::Written::continues_same))]
    fn dismiss(&mut self, number: u64) -> Result<(), Halt>
        requires served { AreServed self.old.office.keeper.world (session_of self.old.office.steward) self.old.room.guests }
        ensures served { OnOk result (AreServed self.new.office.keeper.world (session_of self.new.office.steward) self.new.room.guests) }
        ensures written { OnOk result (KeepsWritten self.old.office.keeper.world self.old.room.guests self.new.office.keeper.world self.new.room.guests) }
        ensures goes { Continues self.old.office.keeper.world self.new.office.keeper.world }
        ensures nobody { LetsNobodyIn self.old.office.keys self.new.office.keys self.old.office.keeper.world self.new.office.keeper.world }
    {
        let Some(mut guest) = self.take_out(number) else {
            return Ok(());
        };
        self.drop_guest(guest.get_mut());
        self.end_guest(guest.get_mut())?;
        self.put_back(number, guest)
    }

    // Ends a connection where it is idle.
    #[tactic(auto, using(crate::proofs::Written::continues_same))]
    fn dismiss_idle(&mut self, number: u64) -> Result<(), Halt>
        requires served { AreServed self.old.office.keeper.world (session_of self.old.office.steward) self.old.room.guests }
        ensures served { OnOk result (AreServed self.new.office.keeper.world (session_of self.new.office.steward) self.new.room.guests) }
        ensures written { OnOk result (KeepsWritten self.old.office.keeper.world self.old.room.guests self.new.office.keeper.world self.new.room.guests) }
        ensures goes { Continues self.old.office.keeper.world self.new.office.keeper.world }
        ensures nobody { LetsNobodyIn self.old.office.keys self.new.office.keys self.old.office.keeper.world self.new.office.keeper.world }
    {
        if !self.is_idle(number) {
            return Ok(());
        }
        self.dismiss(number)
    }

    // Looks at all connections.
    #[inline(never)]
    #[tactic(auto, using(crate::proofs::Written::continues_then, crate::proofs::Written::continues_same))]
    fn look_at_all(&mut self) -> Result<(), Halt>
        requires served { AreServed self.old.office.keeper.world (session_of self.old.office.steward) self.old.room.guests }
        ensures served { OnOk result (AreServed self.new.office.keeper.world (session_of self.new.office.steward) self.new.room.guests) }
        ensures written { OnOk result (KeepsWritten self.old.office.keeper.world self.old.room.guests self.new.office.keeper.world self.new.room.guests) }
        ensures goes { Continues self.old.office.keeper.world self.new.office.keeper.world }
        ensures nobody { LetsNobodyIn self.old.office.keys self.new.office.keys self.old.office.keeper.world self.new.office.keeper.world }
    {
        for place in 0..self.room.guests.len() {
            let Some(number) = self.room.guests.number_at(place) else {
                return Ok(());
            };
            self.dismiss_idle(number)?;
        }
        Ok(())
    }

    /// Ends the connections that are idle.
    #[tactic(auto, using(crate::proofs::Written::continues_then, crate::proofs::Written::continues_same))]
    pub fn look_for_idle(&mut self) -> Result<(), Halt>
        requires served { AreServed self.old.office.keeper.world (session_of self.old.office.steward) self.old.room.guests }
        ensures served { OnOk result (AreServed self.new.office.keeper.world (session_of self.new.office.steward) self.new.room.guests) }
        ensures written { OnOk result (KeepsWritten self.old.office.keeper.world self.old.room.guests self.new.office.keeper.world self.new.room.guests) }
        ensures goes { Continues self.old.office.keeper.world self.new.office.keeper.world }
        ensures nobody { LetsNobodyIn self.old.office.keys self.new.office.keys self.old.office.keeper.world self.new.office.keeper.world }
    {
        if self.office.time < self.room.next_look {
            return Ok(());
        }
        self.room.next_look = self.office.time.saturating_add(LOOK);
        self.look_at_all()
    }

    // Whether a turn has something to do at once.
    fn is_pressed(&self) -> bool {
        !self.room.busy.is_empty()
            || !self.office.keeper.is_durable()
            || (self.room.ready.door && !self.room.door_fails)
    }

    /// For how long the next turn may wait.
    pub fn limit(&mut self) -> u64
        requires served { AreServed self.old.office.keeper.world (session_of self.old.office.steward) self.old.room.guests }
        ensures served { AreServed self.new.office.keeper.world (session_of self.new.office.steward) self.new.room.guests }
        ensures written { KeepsWritten self.old.office.keeper.world self.old.room.guests self.new.office.keeper.world self.new.room.guests }
        ensures world { self.new.office.keeper ≡ self.old.office.keeper }
        ensures keys { self.new.office.keys ≡ self.old.office.keys }
    {
        if self.is_pressed() {
            return 0;
        }
        let mut until = self.office.time.saturating_add(LONGEST_WAIT);
        if !self.room.guests.is_empty() || self.room.door_fails {
            until = until.min(self.room.next_look);
        }
        if !self.room.held.is_empty() {
            until = until.min(self.room.held_until);
        }
        if let Some(due) = self.office.report_due() {
            until = until.min(due);
        }
        until.saturating_sub(self.office.time)
    }
}
