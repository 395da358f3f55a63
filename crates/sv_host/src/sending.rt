//! Sending what was answered, once it is durable.
ghost use Rattle.std.specs.Prelude.{◌≡◌, ℕ, Option, OnOk};
ghost use Rattle.sv_living.specs.World.{WorldView};
ghost use Rattle.sv_office.specs.Offices.{session_of};
ghost use Rattle.sv_host.specs.Joining.{LetsNobodyIn};
ghost use Rattle.sv_host.specs.Rooms.{AnyEntry, AreServed, AreWritten, Continues, KeepsWritten, LeftInput, Sends, WasSent, WereWritten, WroteNothing};

use crate::boxed::BoxedGuest;
use crate::host::Host;
use crate::room::Room;
use std::alloc::Global;
use sv_keeper::Durable;
use sv_log::Folder;
use sv_office::{FULL, Guest, Halt, Standing};
use sv_ports::{Numbered, PortWrote, Ports};
use sv_site::Counts;

/// How many writes are made to one connection in a turn.
const MOST_WRITES: u32 = 64;

/// Writes to a connection what waits for it, as much as it takes.
fn flush<P: Ports>(
    ports: &mut P,
    number: u64,
    guest: &mut Guest,
    counts: &mut Counts,
    durable: &Durable<'_>,
)
    ensures guest { WasSent guest.old guest.new }
    ensures bytes { Sends number guest.old.peer guest.new.peer (P.told ports.old) (P.told ports.new) }
{
    for _ in 0..MOST_WRITES {
        if guest.peer.output().is_empty() {
            break;
        }
        match ports.write(number, guest.peer.output(), durable) {
            PortWrote::Took(count) => {
                counts.went(count);
                guest.peer.sent(count);
            }
            PortWrote::NotYet => return,
            PortWrote::Failed => {
                guest.leave();
                return;
            }
        }
    }
}

/// What becomes of a connection at the end of its turn.
#[derive(Clone, Copy, Debug, Drop, PartialEq, Eq)]
enum Then {
    Waits,
    /// It has more, which is taken in the next turn.
    GoesOn,
    /// It is closed.
    Goes,
}

/// What becomes of a connection to which all was sent that it takes.
fn then_of(guest: &Guest) -> Then {
    match guest.standing {
        Standing::Gone => Then::Goes,
        Standing::Closing if guest.peer.output().is_empty() => Then::Goes,
        Standing::Closing => Then::Waits,
        Standing::Open if guest.has_more && guest.peer.output().len() < FULL => Then::GoesOn,
        Standing::Open => Then::Waits,
    }
}

/// Sends to a connection that was taken out, and ends its turn.
fn send_out<P: Ports>(
    ports: &mut P,
    number: u64,
    guest: &mut Guest,
    counts: &mut Counts,
    durable: &Durable<'_>,
) -> Then
    ensures guest { WasSent guest.old guest.new }
    ensures bytes { Sends number guest.old.peer guest.new.peer (P.told ports.old) (P.told ports.new) }
{
    if guest.standing != Standing::Gone {
        flush(ports, number, guest, counts, durable);
    }
    guest.had_turn = false;
    then_of(guest)
}

/// Sends to a connection, and ends its turn.
fn send_to<P: Ports>(
    ports: &mut P,
    guests: &mut Numbered<BoxedGuest>,
    number: u64,
    counts: &mut Counts,
    durable: &Durable<'_>,
) -> Then
    ensures served { (v : WorldView) (steward : Option ℕ) → AreServed v steward guests.old → AreServed v steward guests.new }
    ensures written { (v : WorldView) → AreWritten v (P.told ports.old) guests.old → AreWritten v (P.told ports.new) guests.new }
    ensures input { LeftInput (P.told ports.old) (P.told ports.new) }
{
    let Some(mut guest) = guests.take(number) else {
        return Then::Waits;
    };
    let then = send_out(ports, number, guest.get_mut(), counts, durable);
    let _ = guest.get().peer.output();
    guests.put(number, guest);
    then
}

/// Sends to each of these. Those that have more are noted, and those that are over are given.
fn send_each<P: Ports>(
    alloc: Global,
    ports: &mut P,
    room: &mut Room,
    numbers: &[u64],
    counts: &mut Counts,
    durable: &Durable<'_>,
) -> Result<Vec<u64>, Halt>
    ensures served { (v : WorldView) (steward : Option ℕ) → AreServed v steward room.old.guests → AreServed v steward room.new.guests }
    ensures written { (v : WorldView) → AreWritten v (P.told ports.old) room.old.guests → AreWritten v (P.told ports.new) room.new.guests }
    ensures input { LeftInput (P.told ports.old) (P.told ports.new) }
{
    let mut gone = Vec::new(alloc);
    for number in numbers {
        match send_to(ports, &mut room.guests, *number, counts, durable) {
            Then::Waits => {}
            Then::GoesOn => room.busy.push(*number)?,
            Then::Goes => gone.push(*number)?,
        }
    }
    Ok(gone)
}

impl<F: Folder> Host<F> {
    // Makes all durable that was stepped.
    fn make_durable(&mut self) -> Result<(), Halt>
        requires served { AreServed self.old.office.keeper.world (session_of self.old.office.steward) self.old.room.guests }
        ensures served { AreServed self.new.office.keeper.world (session_of self.new.office.steward) self.new.room.guests }
        ensures written { KeepsWritten self.old.office.keeper.world self.old.room.guests self.new.office.keeper.world self.new.room.guests }
        ensures world { self.new.office.keeper.world ≡ self.old.office.keeper.world }
        ensures keys { self.new.office.keys ≡ self.old.office.keys }
    {
        let office = &mut self.office;
        match office.keeper.make_durable() {
            Ok(()) => Ok(()),
            Err(_) => Err(Halt::Log),
        }
    }

    // Sends to each of these, where all is durable, and gives those that are over.
    fn send_durable<P: Ports>(&mut self, ports: &mut P, numbers: &[u64]) -> Result<Vec<u64>, Halt>
        requires served { AreServed self.old.office.keeper.world (session_of self.old.office.steward) self.old.room.guests }
        ensures served { AreServed self.new.office.keeper.world (session_of self.new.office.steward) self.new.room.guests }
        ensures written { AreWritten self.old.office.keeper.world (P.told ports.old) self.old.room.guests → AreWritten self.new.office.keeper.world (P.told ports.new) self.new.room.guests }
        ensures world { self.new.office.keeper ≡ self.old.office.keeper }
        ensures keys { self.new.office.keys ≡ self.old.office.keys }
        ensures input { LeftInput (P.told ports.old) (P.told ports.new) }
    {
        let mut counts = self.office.counts;
        let office = &self.office;
        let Some(durable) = office.keeper.durable() else {
            return Err(Halt::Log);
        };
        let gone = send_each(
            self.alloc,
            ports,
            &mut self.room,
            numbers,
            &mut counts,
            &durable,
        );
        drop(durable);
        self.office.counts = counts;
        gone
    }

    // Closes each of these.
    #[tactic(auto, using(crate::proofs::Written::continues_then, crate::proofs::Written::continues_same, crate::proofs::Written::wrote_then, crate::proofs::Written::wrote_same))]
    fn depart_each<P: Ports>(&mut self, ports: &mut P, numbers: &[u64]) -> Result<(), Halt>
        requires served { AreServed self.old.office.keeper.world (session_of self.old.office.steward) self.old.room.guests }
        ensures served { OnOk result (AreServed self.new.office.keeper.world (session_of self.new.office.steward) self.new.room.guests) }
        ensures written { OnOk result (AreWritten self.old.office.keeper.world (P.told ports.old) self.old.room.guests → AreWritten self.new.office.keeper.world (P.told ports.new) self.new.room.guests) }
        ensures goes { Continues self.old.office.keeper.world self.new.office.keeper.world }
        ensures nobody { LetsNobodyIn self.old.office.keys self.new.office.keys self.old.office.keeper.world self.new.office.keeper.world }
        ensures still { WroteNothing (P.told ports.old) (P.told ports.new) }
    {
        for number in numbers {
            self.depart(ports, *number)?;
        }
        Ok(())
    }

    /// Makes all durable, and sends to each connection that was touched. Those that are over then are closed.
    pub fn send<P: Ports>(&mut self, ports: &mut P) -> Result<(), Halt>
        requires served { AreServed self.old.office.keeper.world (session_of self.old.office.steward) self.old.room.guests }
        ensures served { OnOk result (AreServed self.new.office.keeper.world (session_of self.new.office.steward) self.new.room.guests) }
        ensures written { OnOk result (AreWritten self.old.office.keeper.world (P.told ports.old) self.old.room.guests → AreWritten self.new.office.keeper.world (P.told ports.new) self.new.room.guests) }
        ensures goes { Continues self.old.office.keeper.world self.new.office.keeper.world }
        ensures nobody { LetsNobodyIn self.old.office.keys self.new.office.keys self.old.office.keeper.world self.new.office.keeper.world }
        ensures past { AreWritten self.old.office.keeper.world (P.told ports.old) self.old.room.guests → WereWritten AnyEntry (P.told ports.new) self.old.office.keeper.world self.new.office.keeper.world }
        ensures input { OnOk result (LeftInput (P.told ports.old) (P.told ports.new)) }
    {
        self.make_durable()?;
        let mut touched = std::mem::replace(&mut self.room.touched, Vec::new(self.alloc));
        let gone = self.send_durable(ports, &touched)?;
        // Its room is used again.
        touched.clear();
        self.room.touched = touched;
        self.depart_each(ports, &gone)
    }
}
