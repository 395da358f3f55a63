//! The loop, and its orderly end.
ghost use Rattle.std.specs.Prelude.{◌≡◌, [], Option, OnOk};
ghost use Rattle.sv_journal.specs.Laws.{AreWithinLimits};
ghost use Rattle.sv_living.specs.Sessions.{open_sessions, AreInOrder};
ghost use Rattle.sv_keeper.specs.Keeping.{AreDurable};
ghost use Rattle.sv_office.specs.Entering.{GoesOn};
ghost use Rattle.sv_office.specs.Knowing.{IsTrusted};
ghost use Rattle.sv_office.specs.Offices.{session_of};
ghost use Rattle.sv_office.specs.declared.steward.Steward.{Steward};
ghost use Rattle.sv_ports.specs.Traffic.{nothing_told};
ghost use Rattle.sv_host.specs.Inputs.{WasToldToStop};
ghost use Rattle.sv_host.specs.Joining.{JoinByKeys, LetsNobodyIn};
ghost use Rattle.sv_host.specs.Rooms.{AnyEntry, AreServed, AllWereTold, AreWritten, Continues, IsAnEnd, KeepsWritten, LeftInput, WereWritten};

use crate::host::Host;
use crate::input::InputLines;
use crate::turn::Turned;
use std::sync::Wait;
use sv_bytes::{Files, Sink};
use sv_keeper::Keeper;
use sv_log::Folder;
use sv_office::{Halt, Outside, end_session};
use sv_ports::{Clock, Ports};

/// For how many turns it is waited at an orderly end for connections to take what they are sent.
const LAST_TURNS: u32 = 20;

/// For how long such a turn waits.
const LAST_WAIT: u64 = 25;

/// No world has so many open sessions.
const MOST_ENDS: u32 = 70_000;

// Enters the End of each session that is open.
fn end_each<F: Folder>(keeper: &mut Keeper<F>) -> Result<(), Halt>
    requires limits { AreWithinLimits keeper.old.world.rules }
    ensures ended { OnOk result (open_sessions keeper.new.world.history ≡ []) }
    ensures added { GoesOn IsAnEnd keeper.old.world keeper.new.world }
    ensures trusted { (steward : Option Steward) → IsTrusted keeper.old steward → IsTrusted keeper.new steward }
{
    for _ in 0..MOST_ENDS {
        let Some(session) = keeper.first_open() else {
            return Ok(());
        };
        end_session(keeper, session)?;
    }
    Err(Halt::Log)
}

// Enters the End of each session that is open, and makes it durable.
fn end_all<F: Folder>(keeper: &mut Keeper<F>) -> Result<(), Halt>
    requires limits { AreWithinLimits keeper.old.world.rules }
    ensures ended { OnOk result (open_sessions keeper.new.world.history ≡ []) }
    ensures durable { OnOk result (AreDurable F.disk F.is_honest keeper.new) }
    ensures added { GoesOn IsAnEnd keeper.old.world keeper.new.world }
    ensures order { OnOk result (AreInOrder keeper.new.world.history) }
    ensures trusted { (steward : Option Steward) → IsTrusted keeper.old steward → IsTrusted keeper.new steward }
{
    end_each(keeper)?;
    keeper.is_lawful();
    match keeper.make_durable() {
        Ok(()) => Ok(()),
        Err(_) => Err(Halt::Log),
    }
}

impl<F: Folder> Host<F> {
    /// Serves until it is told to stop. Then each session has its End, and all is durable.
    #[tactic(auto, using(crate::proofs::Behind::read_nothing, crate::proofs::Written::continues_then, crate::proofs::Written::continues_same))]
    pub fn serve<R: Wait, P: Ports, C: Clock, L: Files, E: Sink>(
        &mut self,
        rt: &R,
        outside: &mut Outside<'_, '_, '_, P, L, E>,
        piece: &mut [u8],
        clock: &mut C,
    ) -> Result<(), Halt>
        requires served { AreServed self.old.office.keeper.world (session_of self.old.office.steward) self.old.room.guests }
        ensures ended { OnOk result (open_sessions self.new.office.keeper.world.history ≡ []) }
        ensures durable { OnOk result (AreDurable F.disk F.is_honest self.new.office.keeper) }
        ensures told { OnOk result (AllWereTold self.new.office.keeper.world self.new.room.guests) }
        ensures written { OnOk result (AreWritten self.old.office.keeper.world (P.told outside.old.ports.now) self.old.room.guests → AreWritten self.new.office.keeper.world (P.told outside.new.ports.now) self.new.room.guests) }
        ensures goes { Continues self.old.office.keeper.world self.new.office.keeper.world }
        ensures joins { JoinByKeys (L.contents outside.old.files.now) self.old.office.keys self.old.office.keeper.world self.new.office.keeper.world }
        ensures lent { outside.new.ports.ghost_name ≡ outside.old.ports.ghost_name }
        ensures past { AreWritten self.old.office.keeper.world (P.told outside.old.ports.now) self.old.room.guests
            → WereWritten AnyEntry (P.told outside.new.ports.now) self.old.office.keeper.world self.new.office.keeper.world }
        ensures last { OnOk result (AreWritten self.old.office.keeper.world (P.told outside.old.ports.now) self.old.room.guests
            → WereWritten IsAnEnd (P.told outside.new.ports.now) self.old.office.keeper.world self.new.office.keeper.world) }
        ensures asked { OnOk result (P.told outside.old.ports.now ≡ nothing_told → WasToldToStop (P.told outside.new.ports.now)) }
    {
        let mut input = InputLines::new();
        for _ in rt.forever() {
            match self.turn(outside, piece, clock, &mut input)? {
                Turned::On => {}
                Turned::Stops => return self.stop(outside.ports),
            }
        }
        unreachable!()
    }

    // Touches all connections, and answers whether something is to be sent to one of them.
    fn touch_all(&mut self) -> Result<bool, Halt>
        requires served { AreServed self.old.office.keeper.world (session_of self.old.office.steward) self.old.room.guests }
        ensures served { AreServed self.new.office.keeper.world (session_of self.new.office.steward) self.new.room.guests }
        ensures written { KeepsWritten self.old.office.keeper.world self.old.room.guests self.new.office.keeper.world self.new.room.guests }
        ensures world { self.new.office.keeper ≡ self.old.office.keeper }
        ensures keys { self.new.office.keys ≡ self.old.office.keys }
    {
        let mut waits = false;
        for place in 0..self.room.guests.len() {
            let Some(number) = self.room.guests.number_at(place) else {
                break;
            };
            self.room.touched.push(number)?;
            if let Some(guest) = self.room.guests.get(number) {
                waits = waits || !guest.get().peer.output().is_empty();
            }
        }
        Ok(waits)
    }

    // Sends what was stepped, as far as connections take it.
    fn send_rest<P: Ports>(&mut self, ports: &mut P) -> Result<(), Halt>
        requires served { AreServed self.old.office.keeper.world (session_of self.old.office.steward) self.old.room.guests }
        ensures served { OnOk result (AreServed self.new.office.keeper.world (session_of self.new.office.steward) self.new.room.guests) }
        ensures written { OnOk result (AreWritten self.old.office.keeper.world (P.told ports.old) self.old.room.guests → AreWritten self.new.office.keeper.world (P.told ports.new) self.new.room.guests) }
        ensures goes { Continues self.old.office.keeper.world self.new.office.keeper.world }
        ensures nobody { LetsNobodyIn self.old.office.keys self.new.office.keys self.old.office.keeper.world self.new.office.keeper.world }
        ensures past { AreWritten self.old.office.keeper.world (P.told ports.old) self.old.room.guests → WereWritten AnyEntry (P.told ports.new) self.old.office.keeper.world self.new.office.keeper.world }
        ensures input { OnOk result (LeftInput (P.told ports.old) (P.told ports.new)) }
    {
        for _ in 0..LAST_TURNS {
            let waits = self.touch_all()?;
            self.send(ports)?;
            if !waits {
                return Ok(());
            }
            self.room.ready.clear();
            let _ = ports.wait(LAST_WAIT, &mut self.room.ready);
        }
        Ok(())
    }

    // Sends what was stepped, enters the End of each session, and makes it durable.
    fn stop<P: Ports>(&mut self, ports: &mut P) -> Result<(), Halt>
        requires served { AreServed self.old.office.keeper.world (session_of self.old.office.steward) self.old.room.guests }
        ensures ended { OnOk result (open_sessions self.new.office.keeper.world.history ≡ []) }
        ensures durable { OnOk result (AreDurable F.disk F.is_honest self.new.office.keeper) }
        ensures told { OnOk result (AllWereTold self.new.office.keeper.world self.new.room.guests) }
        ensures written { OnOk result (AreWritten self.old.office.keeper.world (P.told ports.old) self.old.room.guests → AreWritten self.new.office.keeper.world (P.told ports.new) self.new.room.guests) }
        ensures goes { Continues self.old.office.keeper.world self.new.office.keeper.world }
        ensures nobody { LetsNobodyIn self.old.office.keys self.new.office.keys self.old.office.keeper.world self.new.office.keeper.world }
        ensures past { AreWritten self.old.office.keeper.world (P.told ports.old) self.old.room.guests → WereWritten AnyEntry (P.told ports.new) self.old.office.keeper.world self.new.office.keeper.world }
        ensures last { OnOk result (AreWritten self.old.office.keeper.world (P.told ports.old) self.old.room.guests → WereWritten IsAnEnd (P.told ports.new) self.old.office.keeper.world self.new.office.keeper.world) }
        ensures input { OnOk result (LeftInput (P.told ports.old) (P.told ports.new)) }
    {
        self.send_rest(ports)?;
        let office = &mut self.office;
        end_all(&mut office.keeper)
    }
}
