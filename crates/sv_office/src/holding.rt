//! Observes that wait for news.
ghost use Rattle.std.specs.Prelude.{◌≡◌, ◌≤◌, ◌<◌, ℕ, false, None, Some, IfSome, OnOk};
ghost use Rattle.sv_office.specs.Entering.{GoesOn, KeepsOwn, AsksInOne, CameOfHeld, MayEnter, MayHold, WasReleased};
ghost use Rattle.sv_office.specs.Guests.{HasYetToAsk};
ghost use Rattle.sv_office.specs.Holding.{IsHeld, IsWaiting};
ghost use Rattle.sv_office.specs.Offices.{IsNotStewards, session_of};
ghost use Rattle.sv_office.specs.Telling.{IsServedGuest};
ghost use Rattle.sv_office.specs.declared.guest.Standing.TheVariants as standing;

use crate::guest::Guest;
use crate::halt::Halt;
use crate::office::Office;
use crate::waiting::HeldObserve;
use sv_log::Folder;
use sv_wire::Request;

impl<F: Folder> Office<F> {
    /// Until when a request of a connection is held, where it is: an Observe with a wait, as long as its answer would show nothing.
    pub fn holds_until(&self, guest: &Guest, request: &Request) -> Option<u64>
        ensures { IfSome result (λ until. IsHeld self.now.keeper.world self.now.time guest.now request.now until) }
    {
        let Request::Observe { wait, .. } = request else {
            return None;
        };
        if *wait == 0 {
            return None;
        }
        let _quiet = self.quiet_answer(guest, request)?;
        Some(self.time.saturating_add(*wait as u64))
    }

    /// Answers the held Observe of a connection, where it has one. Then none is held of it.
    pub fn release(&mut self, guest: &mut Guest) -> Result<(), Halt>
        requires open { guest.old.standing ≡ standing.Open }
        requires served { IsServedGuest self.old.keeper.world guest.old }
        requires apart { IsNotStewards guest.old.session (session_of self.old.steward) }
        ensures served { OnOk result (IsServedGuest self.new.keeper.world guest.new) }
        ensures once { OnOk result (WasReleased (session_of self.old.steward) self.old.policy.authority guest.old.session guest.new.session self.old.keeper.world self.new.keeper.world guest.old.held) }
        ensures held { guest.new.held ≡ None }
        ensures added { GoesOn (CameOfHeld self.old.keeper.world.history (session_of self.old.steward) guest.old.session guest.old.held) self.old.keeper.world self.new.keeper.world }
        ensures may { MayHold self.old.keys guest.old.key guest.old.held
            → GoesOn (MayEnter self.old.keeper.world.history (session_of self.old.steward) guest.old.session self.old.keys guest.old.key) self.old.keeper.world self.new.keeper.world }
        ensures asked { AsksInOne (session_of self.old.steward) guest.old.session guest.new.session self.old.keeper.world.history self.new.keeper.world.history }
        ensures idle { OnOk result (HasYetToAsk guest.old guest.new self.old.keeper.world self.new.keeper.world) }
        ensures session { KeepsOwn self.old.keeper.world.history guest.old.session guest.new.session }
        ensures steward { session_of self.new.steward ≡ session_of self.old.steward }
        ensures keys { self.new.keys ≡ self.old.keys }
        ensures policy { self.new.policy ≡ self.old.policy }
        ensures key { guest.new.key ≡ guest.old.key }
        ensures spoken { guest.new.has_spoken ≡ guest.old.has_spoken }
        ensures sent { guest.new.peer.sent ≡ guest.old.peer.sent }
    {
        match guest.held.take() {
            None => Ok(()),
            Some(held) => {
                guest.heard = self.time;
                self.answer(guest, &held.request)
            }
        }
    }

    /// How the held Observe of a connection stands.
    pub fn standing_of_held(&self, guest: &Guest) -> HeldObserve
        ensures { self.now.keeper.is_broken ≡ false → IsWaiting self.now.keeper.world self.now.time guest.now result }
    {
        let Some(held) = &guest.held else {
            return HeldObserve::Nothing;
        };
        if held.until <= self.time {
            return HeldObserve::Due;
        }
        match self.quiet_answer(guest, &held.request) {
            Some(_) => HeldObserve::Until(held.until),
            None => HeldObserve::Due,
        }
    }
}
