//! A turn of the loop.
ghost use Rattle.std.specs.Prelude.{◌≡◌, IfOk, MatchBool, OnOk};
ghost use Rattle.sv_office.specs.Offices.{session_of};
ghost use Rattle.sv_host.specs.Inputs.{IsReadTo, WasToldToStop};
ghost use Rattle.sv_host.specs.Joining.{LetsIn, LetsNobodyIn};
ghost use Rattle.sv_host.specs.declared.turn.Turned.TheVariants as turns;
ghost use Rattle.sv_host.specs.Rooms.{AnyEntry, AreServed, AreWritten, Continues, KeepsWritten, LeftInput, WereWritten, WroteNothing};

use crate::host::Host;
use crate::input::InputLines;
use sv_bytes::{Files, Sink};
use sv_log::Folder;
use sv_office::{Half, Halt, Outside};
use sv_ports::{Clock, PortRead, Ports, Waited};

/// How a turn ends.
#[derive(Clone, Copy, Debug, Drop, PartialEq, Eq)]
pub enum Turned {
    /// Another one follows.
    On,
    /// The input told to stop.
    Stops,
}

impl<F: Folder> Host<F> {
    // Waits until there is something to do.
    #[tactic(auto, using(crate::proofs::Written::wrote_same, crate::proofs::Written::closed_written))]
    fn wait<P: Ports, C: Clock>(&mut self, ports: &mut P, clock: &mut C) -> Result<(), Halt>
        requires served { AreServed self.old.office.keeper.world (session_of self.old.office.steward) self.old.room.guests }
        ensures served { AreServed self.new.office.keeper.world (session_of self.new.office.steward) self.new.room.guests }
        ensures written { AreWritten self.old.office.keeper.world (P.told ports.old) self.old.room.guests → AreWritten self.new.office.keeper.world (P.told ports.new) self.new.room.guests }
        ensures world { self.new.office.keeper ≡ self.old.office.keeper }
        ensures keys { self.new.office.keys ≡ self.old.office.keys }
        ensures still { WroteNothing (P.told ports.old) (P.told ports.new) }
    {
        let limit = self.limit();
        self.room.ready.numbers.clear();
        self.room.ready.input = false;
        match ports.wait(limit, &mut self.room.ready) {
            Waited::Done => {}
            Waited::Failed => return Err(Halt::Ports),
        }
        self.office.time = self.office.time.max(clock.now());
        Ok(())
    }

    // Whether the input tells to stop.
    #[inline(never)]
    fn is_told_to_stop<P: Ports>(
        &mut self,
        ports: &mut P,
        input: &mut InputLines,
    ) -> Result<bool, Halt>
        requires served { AreServed self.old.office.keeper.world (session_of self.old.office.steward) self.old.room.guests }
        ensures served { AreServed self.new.office.keeper.world (session_of self.new.office.steward) self.new.room.guests }
        ensures written { AreWritten self.old.office.keeper.world (P.told ports.old) self.old.room.guests → AreWritten self.new.office.keeper.world (P.told ports.new) self.new.room.guests }
        ensures world { self.new.office.keeper ≡ self.old.office.keeper }
        ensures keys { self.new.office.keys ≡ self.old.office.keys }
        ensures stops { IsReadTo (P.told ports.old) input.old → IfOk result (λ stops. MatchBool stops (WasToldToStop (P.told ports.new)) (IsReadTo (P.told ports.new) input.new)) }
    {
        if !self.office.policy.stops || !self.room.ready.input {
            return Ok(false);
        }
        let mut piece = [0; 512];
        match ports.read_input(&mut piece) {
            PortRead::Got(count) => Ok(input.take(&piece[..count])),
            PortRead::NotYet => Ok(false),
            PortRead::Ended => Ok(true),
            PortRead::Failed => Err(Halt::Ports),
        }
    }

    // Gives each connection that is ready, or had more, its turn.
    #[tactic(auto, using(crate::proofs::Written::continues_then, crate::proofs::Written::continues_same, crate::proofs::Written::wrote_then, crate::proofs::Written::wrote_same))]
    fn hear_all<P: Ports, L: Files, E: Sink>(
        &mut self,
        outside: &mut Outside<'_, '_, '_, P, L, E>,
        piece: &mut [u8],
    ) -> Result<(), Halt>
        requires served { AreServed self.old.office.keeper.world (session_of self.old.office.steward) self.old.room.guests }
        ensures served { OnOk result (AreServed self.new.office.keeper.world (session_of self.new.office.steward) self.new.room.guests) }
        ensures written { OnOk result (AreWritten self.old.office.keeper.world (P.told outside.old.ports.now) self.old.room.guests → AreWritten self.new.office.keeper.world (P.told outside.new.ports.now) self.new.room.guests) }
        ensures goes { Continues self.old.office.keeper.world self.new.office.keeper.world }
        ensures joins { LetsIn (L.contents outside.old.files.now) (L.contents outside.new.files.now) self.old.office.keys self.new.office.keys self.old.office.keeper.world self.new.office.keeper.world }
        ensures still { WroteNothing (P.told outside.old.ports.now) (P.told outside.new.ports.now) }
        ensures lent { outside.new.ports.ghost_name ≡ outside.old.ports.ghost_name }
    {
        let mut busy = std::mem::replace(&mut self.room.busy, Vec::new(self.alloc));
        self.hear_each(outside, &busy, piece, Half::Answers)?;
        let mut ready = std::mem::replace(&mut self.room.ready.numbers, Vec::new(self.alloc));
        // A program makes its connections one behind the other. In the order of their numbers it is sent its replies together, and is woken once for many.
        ready.sort_unstable();
        self.hear_each(outside, &ready, piece, Half::Reads)?;
        self.hear_each(outside, &ready, piece, Half::Answers)?;
        // Their room is used again.
        self.room.ready.numbers = ready;
        busy.clear();
        self.room.busy = busy;
        Ok(())
    }

    // Does what is due: idle connections end, the steward reports, and held Observes are answered.
    #[tactic(auto, using(crate::proofs::Written::continues_then))]
    fn do_due(&mut self) -> Result<(), Halt>
        requires served { AreServed self.old.office.keeper.world (session_of self.old.office.steward) self.old.room.guests }
        ensures served { OnOk result (AreServed self.new.office.keeper.world (session_of self.new.office.steward) self.new.room.guests) }
        ensures written { OnOk result (KeepsWritten self.old.office.keeper.world self.old.room.guests self.new.office.keeper.world self.new.room.guests) }
        ensures goes { Continues self.old.office.keeper.world self.new.office.keeper.world }
        ensures nobody { LetsNobodyIn self.old.office.keys self.new.office.keys self.old.office.keeper.world self.new.office.keeper.world }
    {
        self.look_for_idle()?;
        self.report()?;
        self.look_at_held()
    }

    // What is ready is stepped, all lines are durable at once, and then the replies go out.
    fn serve_all<P: Ports, L: Files, E: Sink>(
        &mut self,
        outside: &mut Outside<'_, '_, '_, P, L, E>,
        piece: &mut [u8],
    ) -> Result<(), Halt>
        requires served { AreServed self.old.office.keeper.world (session_of self.old.office.steward) self.old.room.guests }
        ensures served { OnOk result (AreServed self.new.office.keeper.world (session_of self.new.office.steward) self.new.room.guests) }
        ensures written { OnOk result (AreWritten self.old.office.keeper.world (P.told outside.old.ports.now) self.old.room.guests → AreWritten self.new.office.keeper.world (P.told outside.new.ports.now) self.new.room.guests) }
        ensures goes { Continues self.old.office.keeper.world self.new.office.keeper.world }
        ensures joins { LetsIn (L.contents outside.old.files.now) (L.contents outside.new.files.now) self.old.office.keys self.new.office.keys self.old.office.keeper.world self.new.office.keeper.world }
        ensures lent { outside.new.ports.ghost_name ≡ outside.old.ports.ghost_name }
        ensures past { AreWritten self.old.office.keeper.world (P.told outside.old.ports.now) self.old.room.guests
            → WereWritten AnyEntry (P.told outside.new.ports.now) self.old.office.keeper.world self.new.office.keeper.world }
        ensures input { OnOk result (LeftInput (P.told outside.old.ports.now) (P.told outside.new.ports.now)) }
    {
        self.accept(outside.ports);
        self.hear_all(outside, piece)?;
        self.do_due()?;
        self.send(outside.ports)
    }

    /// One turn.
    pub fn turn<P: Ports, C: Clock, L: Files, E: Sink>(
        &mut self,
        outside: &mut Outside<'_, '_, '_, P, L, E>,
        piece: &mut [u8],
        clock: &mut C,
        input: &mut InputLines,
    ) -> Result<Turned, Halt>
        requires served { AreServed self.old.office.keeper.world (session_of self.old.office.steward) self.old.room.guests }
        ensures served { OnOk result (AreServed self.new.office.keeper.world (session_of self.new.office.steward) self.new.room.guests) }
        ensures written { OnOk result (AreWritten self.old.office.keeper.world (P.told outside.old.ports.now) self.old.room.guests → AreWritten self.new.office.keeper.world (P.told outside.new.ports.now) self.new.room.guests) }
        ensures goes { Continues self.old.office.keeper.world self.new.office.keeper.world }
        ensures joins { LetsIn (L.contents outside.old.files.now) (L.contents outside.new.files.now) self.old.office.keys self.new.office.keys self.old.office.keeper.world self.new.office.keeper.world }
        ensures lent { outside.new.ports.ghost_name ≡ outside.old.ports.ghost_name }
        ensures past { AreWritten self.old.office.keeper.world (P.told outside.old.ports.now) self.old.room.guests
            → WereWritten AnyEntry (P.told outside.new.ports.now) self.old.office.keeper.world self.new.office.keeper.world }
        ensures stops { IsReadTo (P.told outside.old.ports.now) input.old → IfOk result (λ turned. turned ≡ turns.Stops → WasToldToStop (P.told outside.new.ports.now)) }
        ensures on { IsReadTo (P.told outside.old.ports.now) input.old → IfOk result (λ turned. turned ≡ turns.On → IsReadTo (P.told outside.new.ports.now) input.new) }
    {
        self.wait(outside.ports, clock)?;
        if self.is_told_to_stop(outside.ports, input)? {
            return Ok(Turned::Stops);
        }
        self.serve_all(outside, piece)?;
        Ok(Turned::On)
    }
}
