//! What the loop keeps.
ghost use Rattle.std.specs.Prelude.{◌≡◌, IfSome, IfNone, None, OnOk, MatchOption};
ghost use Rattle.sv_ports.specs.Traffic.{Traffic};
ghost use Rattle.sv_office.specs.Offices.{session_of};
ghost use Rattle.sv_host.specs.Joining.{LetsIn, LetsNobodyIn};
ghost use Rattle.sv_host.specs.Rooms.{AreServed, AreWritten, Continues, IsServedOut, IsWritten, KeepsOut, KeepsWritten, WroteNothing};

use crate::boxed::BoxedGuest;
use crate::room::Room;
use std::alloc::Global;
use sv_bytes::{Files, Sink};
use sv_log::Folder;
use sv_office::{Guest, Half, Halt, Office, Outside};
use sv_ports::Ports;

/// The server of a living world, between two turns of its loop.
#[derive(Drop)]
pub struct Host<F: Folder> {
    pub alloc: Global,
    pub office: Office<F>,
    pub room: Room,
}

impl<F: Folder> Host<F> {
    /// Takes a connection out, where it is there.
    pub fn take_out(&mut self, number: u64) -> Option<BoxedGuest>
        requires served { AreServed self.old.office.keeper.world (session_of self.old.office.steward) self.old.room.guests }
        ensures some { IfSome result (λ guest. IsServedOut self.new.office.keeper.world (session_of self.new.office.steward) self.new.room.guests guest) }
        ensures none { IfNone result (AreServed self.new.office.keeper.world (session_of self.new.office.steward) self.new.room.guests) }
        ensures office { self.new.office ≡ self.old.office }
        ensures written { (told : Traffic) → AreWritten self.old.office.keeper.world told self.old.room.guests
            → MatchOption result (AreWritten self.new.office.keeper.world told self.new.room.guests) (IsWritten self.new.office.keeper.world told self.new.room.guests number) }
    {
        self.room.guests.take(number)
    }

    /// Puts a connection back that was taken out.
    pub fn put_in(&mut self, number: u64, guest: BoxedGuest)
        requires taken { IsServedOut self.old.office.keeper.world (session_of self.old.office.steward) self.old.room.guests guest }
        ensures served { AreServed self.new.office.keeper.world (session_of self.new.office.steward) self.new.room.guests }
        ensures office { self.new.office ≡ self.old.office }
        ensures written { (told : Traffic) → IsWritten self.old.office.keeper.world told self.old.room.guests number guest → AreWritten self.new.office.keeper.world told self.new.room.guests }
    {
        // What it handed over and what waits is what its replies are told by.
        let _ = guest.get().peer.output();
        self.room.guests.put(number, guest);
    }

    /// Puts a connection back that was taken out. Something may be sent to it.
    pub fn put_back(&mut self, number: u64, guest: BoxedGuest) -> Result<(), Halt>
        requires taken { IsServedOut self.old.office.keeper.world (session_of self.old.office.steward) self.old.room.guests guest }
        ensures served { AreServed self.new.office.keeper.world (session_of self.new.office.steward) self.new.room.guests }
        ensures office { self.new.office ≡ self.old.office }
        ensures written { (told : Traffic) → IsWritten self.old.office.keeper.world told self.old.room.guests number guest → AreWritten self.new.office.keeper.world told self.new.room.guests }
    {
        self.put_in(number, guest);
        self.room.touched.push(number)?;
        Ok(())
    }

    /// Lets a connection go that was taken out, and whose session has its End.
    pub fn let_go(&mut self, number: u64, guest: BoxedGuest)
        requires taken { IsServedOut self.old.office.keeper.world (session_of self.old.office.steward) self.old.room.guests guest }
        requires over { guest.session ≡ None }
        ensures served { AreServed self.new.office.keeper.world (session_of self.new.office.steward) self.new.room.guests }
        ensures office { self.new.office ≡ self.old.office }
        ensures written { (told : Traffic) → IsWritten self.old.office.keeper.world told self.old.room.guests number guest → AreWritten self.new.office.keeper.world told self.new.room.guests }
    {
        let _ = guest.get().peer.output();
        self.room.guests.remove(number);
    }

    /// Puts a connection with a held Observe into the list of them.
    pub fn list(&mut self, number: u64, guest: &mut Guest) -> Result<(), Halt>
        requires taken { IsServedOut self.old.office.keeper.world (session_of self.old.office.steward) self.old.room.guests guest.old }
        ensures taken { IsServedOut self.new.office.keeper.world (session_of self.new.office.steward) self.new.room.guests guest.new }
        ensures office { self.new.office ≡ self.old.office }
        ensures written { KeepsOut self.old.office.keeper.world self.old.room.guests guest.old self.new.office.keeper.world self.new.room.guests guest.new }
    {
        self.room.list(number, guest)
    }

    /// Notes that a connection is in the list no more.
    pub fn unlist(&mut self, guest: &mut Guest)
        requires taken { IsServedOut self.old.office.keeper.world (session_of self.old.office.steward) self.old.room.guests guest.old }
        ensures taken { IsServedOut self.new.office.keeper.world (session_of self.new.office.steward) self.new.room.guests guest.new }
        ensures written { KeepsOut self.old.office.keeper.world self.old.room.guests guest.old self.new.office.keeper.world self.new.room.guests guest.new }
        ensures office { self.new.office ≡ self.old.office }
    {
        guest.is_listed = false;
    }

    /// Closes a connection at once.
    pub fn drop_guest(&mut self, guest: &mut Guest)
        requires taken { IsServedOut self.old.office.keeper.world (session_of self.old.office.steward) self.old.room.guests guest.old }
        ensures taken { IsServedOut self.new.office.keeper.world (session_of self.new.office.steward) self.new.room.guests guest.new }
        ensures written { KeepsOut self.old.office.keeper.world self.old.room.guests guest.old self.new.office.keeper.world self.new.room.guests guest.new }
        ensures office { self.new.office ≡ self.old.office }
    {
        guest.leave();
    }

    /// Takes what a connection asks, in its turn. `piece` is for what is read at once.
    #[tactic(auto, using(crate::proofs::Written::heard_nothing))]
    pub fn hear_guest<P: Ports, L: Files, E: Sink>(
        &mut self,
        outside: &mut Outside<'_, '_, '_, P, L, E>,
        number: u64,
        guest: &mut Guest,
        piece: &mut [u8],
        half: Half,
    ) -> Result<(), Halt>
        requires taken { IsServedOut self.old.office.keeper.world (session_of self.old.office.steward) self.old.room.guests guest.old }
        ensures taken { OnOk result (IsServedOut self.new.office.keeper.world (session_of self.new.office.steward) self.new.room.guests guest.new) }
        ensures written { OnOk result (IsWritten self.old.office.keeper.world (P.told outside.old.ports.now) self.old.room.guests number guest.old
            → IsWritten self.new.office.keeper.world (P.told outside.new.ports.now) self.new.room.guests number guest.new) }
        ensures goes { Continues self.old.office.keeper.world self.new.office.keeper.world }
        ensures joins { LetsIn (L.contents outside.old.files.now) (L.contents outside.new.files.now) self.old.office.keys self.new.office.keys self.old.office.keeper.world self.new.office.keeper.world }
        ensures still { WroteNothing (P.told outside.old.ports.now) (P.told outside.new.ports.now) }
        ensures lent { outside.new.ports.ghost_name ≡ outside.old.ports.ghost_name }
    {
        self.office.hear(outside, number, guest, piece, half)?;
        self.office.keeper.is_lawful();
        Ok(())
    }

    /// Answers the held Observe of a connection, where it is served and has one.
    #[tactic(auto, using(crate::proofs::Written::continues, crate::proofs::Written::continues_same))]
    pub fn release_guest(&mut self, guest: &mut Guest) -> Result<(), Halt>
        requires taken { IsServedOut self.old.office.keeper.world (session_of self.old.office.steward) self.old.room.guests guest.old }
        ensures taken { OnOk result (IsServedOut self.new.office.keeper.world (session_of self.new.office.steward) self.new.room.guests guest.new) }
        ensures written { OnOk result (KeepsOut self.old.office.keeper.world self.old.room.guests guest.old self.new.office.keeper.world self.new.room.guests guest.new) }
        ensures goes { Continues self.old.office.keeper.world self.new.office.keeper.world }
        ensures nobody { LetsNobodyIn self.old.office.keys self.new.office.keys self.old.office.keeper.world self.new.office.keeper.world }
    {
        if !guest.is_open() {
            return Ok(());
        }
        self.office.release(guest)?;
        self.office.keeper.is_lawful();
        Ok(())
    }

    /// Enters the End of a connection's session, where it has one.
    #[tactic(auto, using(crate::proofs::Written::continues))]
    pub fn end_guest(&mut self, guest: &mut Guest) -> Result<(), Halt>
        requires taken { IsServedOut self.old.office.keeper.world (session_of self.old.office.steward) self.old.room.guests guest.old }
        ensures taken { OnOk result (IsServedOut self.new.office.keeper.world (session_of self.new.office.steward) self.new.room.guests guest.new) }
        ensures written { OnOk result (KeepsOut self.old.office.keeper.world self.old.room.guests guest.old self.new.office.keeper.world self.new.room.guests guest.new) }
        ensures over { OnOk result (guest.new.session ≡ None) }
        ensures goes { Continues self.old.office.keeper.world self.new.office.keeper.world }
        ensures nobody { LetsNobodyIn self.old.office.keys self.new.office.keys self.old.office.keeper.world self.new.office.keeper.world }
    {
        self.office.end(guest)?;
        self.office.keeper.is_lawful();
        Ok(())
    }

    /// Has the steward report what was without a result for too long.
    #[tactic(auto, using(crate::proofs::Written::continues))]
    pub fn report(&mut self) -> Result<(), Halt>
        requires served { AreServed self.old.office.keeper.world (session_of self.old.office.steward) self.old.room.guests }
        ensures served { OnOk result (AreServed self.new.office.keeper.world (session_of self.new.office.steward) self.new.room.guests) }
        ensures written { OnOk result (KeepsWritten self.old.office.keeper.world self.old.room.guests self.new.office.keeper.world self.new.room.guests) }
        ensures goes { Continues self.old.office.keeper.world self.new.office.keeper.world }
        ensures nobody { LetsNobodyIn self.old.office.keys self.new.office.keys self.old.office.keeper.world self.new.office.keeper.world }
    {
        self.office.report_old()?;
        self.office.keeper.is_lawful();
        Ok(())
    }
}
