//! Observes that wait for news.
ghost use Rattle.std.specs.Prelude.{OnOk};
ghost use Rattle.sv_office.specs.Offices.{session_of};
ghost use Rattle.sv_host.specs.Joining.{LetsNobodyIn};
ghost use Rattle.sv_host.specs.Rooms.{AreServed, Continues, KeepsWritten};

use crate::host::Host;
use sv_log::Folder;
use sv_office::{Halt, HeldObserve};

impl<F: Folder> Host<F> {
    // How the held Observe of a connection stands, where it is there.
    fn standing_of(&self, number: u64) -> HeldObserve {
        match self.room.guests.get(number) {
            Some(guest) => self.office.standing_of_held(guest.get()),
            None => HeldObserve::Nothing,
        }
    }

    // Takes a connection off the list, and answers its held Observe, where it has one.
    #[inline(never)]
    #[tactic(auto, using(crate::proofs::Written::continues_then, crate::proofs::Written::continues_same))]
    fn take_off(&mut self, number: u64) -> Result<(), Halt>
        requires served { AreServed self.old.office.keeper.world (session_of self.old.office.steward) self.old.room.guests }
        ensures served { OnOk result (AreServed self.new.office.keeper.world (session_of self.new.office.steward) self.new.room.guests) }
        ensures written { OnOk result (KeepsWritten self.old.office.keeper.world self.old.room.guests self.new.office.keeper.world self.new.room.guests) }
        ensures goes { Continues self.old.office.keeper.world self.new.office.keeper.world }
        ensures nobody { LetsNobodyIn self.old.office.keys self.new.office.keys self.old.office.keeper.world self.new.office.keeper.world }
    {
        let Some(mut guest) = self.take_out(number) else {
            return Ok(());
        };
        self.release_guest(guest.get_mut())?;
        self.unlist(guest.get_mut());
        self.put_back(number, guest)
    }

    // Looks at a connection of the list, and keeps it there where it waits on.
    #[inline(never)]
    #[tactic(auto, using(crate::proofs::Written::continues_then, crate::proofs::Written::continues_same))]
    fn look_at(&mut self, number: u64) -> Result<(), Halt>
        requires served { AreServed self.old.office.keeper.world (session_of self.old.office.steward) self.old.room.guests }
        ensures served { OnOk result (AreServed self.new.office.keeper.world (session_of self.new.office.steward) self.new.room.guests) }
        ensures written { OnOk result (KeepsWritten self.old.office.keeper.world self.old.room.guests self.new.office.keeper.world self.new.room.guests) }
        ensures goes { Continues self.old.office.keeper.world self.new.office.keeper.world }
        ensures nobody { LetsNobodyIn self.old.office.keys self.new.office.keys self.old.office.keeper.world self.new.office.keeper.world }
    {
        match self.standing_of(number) {
            HeldObserve::Until(time) => {
                self.room.held_until = self.room.held_until.min(time);
                self.room.held.push(number)?;
                Ok(())
            }
            HeldObserve::Due | HeldObserve::Nothing => self.take_off(number),
        }
    }

    // Looks at each of these.
    #[tactic(auto, using(crate::proofs::Written::continues_then, crate::proofs::Written::continues_same))]
    fn look_at_each(&mut self, numbers: &[u64]) -> Result<(), Halt>
        requires served { AreServed self.old.office.keeper.world (session_of self.old.office.steward) self.old.room.guests }
        ensures served { OnOk result (AreServed self.new.office.keeper.world (session_of self.new.office.steward) self.new.room.guests) }
        ensures written { OnOk result (KeepsWritten self.old.office.keeper.world self.old.room.guests self.new.office.keeper.world self.new.room.guests) }
        ensures goes { Continues self.old.office.keeper.world self.new.office.keeper.world }
        ensures nobody { LetsNobodyIn self.old.office.keys self.new.office.keys self.old.office.keeper.world self.new.office.keeper.world }
    {
        for number in numbers {
            self.look_at(*number)?;
        }
        Ok(())
    }

    /// Answers the held Observes for which there is news, or whose time has passed.
    #[tactic(auto, using(crate::proofs::Written::continues_then, crate::proofs::Written::continues_same))]
    pub fn look_at_held(&mut self) -> Result<(), Halt>
        requires served { AreServed self.old.office.keeper.world (session_of self.old.office.steward) self.old.room.guests }
        ensures served { OnOk result (AreServed self.new.office.keeper.world (session_of self.new.office.steward) self.new.room.guests) }
        ensures written { OnOk result (KeepsWritten self.old.office.keeper.world self.old.room.guests self.new.office.keeper.world self.new.room.guests) }
        ensures goes { Continues self.old.office.keeper.world self.new.office.keeper.world }
        ensures nobody { LetsNobodyIn self.old.office.keys self.new.office.keys self.old.office.keeper.world self.new.office.keeper.world }
    {
        // A Join may end another session, so that each entry may be news.
        let entries = self.office.keeper.entries();
        if entries == self.room.seen_entries && self.office.time < self.room.held_until {
            return Ok(());
        }
        self.room.seen_entries = entries;
        self.room.held_until = u64::MAX;
        let listed = std::mem::replace(&mut self.room.held, Vec::new(self.alloc));
        self.look_at_each(&listed)
    }
}
