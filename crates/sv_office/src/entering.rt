//! Entering what a session asks.
ghost use Rattle.std.specs.Prelude.{◌≡◌, ◌≢◌, ◌⊎◌, ℕ, true, false, Option, Some, Err, IfOk, IfErr, OnOk, OnErr};
ghost use Rattle.sv_journal.specs.Laws.{AreWithinLimits};
ghost use Rattle.sv_keeper.specs.Keeping.{Stepped, WasNotStepped};
ghost use Rattle.sv_keeper.specs.declared.fault.KeepFault.TheVariants as faults;
ghost use Rattle.sv_living.specs.Sessions.{AreInOrder};
ghost use Rattle.sv_living.specs.World.{after};
ghost use Rattle.sv_office.specs.Admitting.{is_stewards_number, number_in};
ghost use Rattle.sv_office.specs.Entering.{AsksIn, GoesOn, GrowsBy, IsEntryOf, WasEntered};
ghost use Rattle.sv_office.specs.Knowing.{IsAloneIn, IsTrusted};
ghost use Rattle.sv_office.specs.Trusting.{IsLegalWorld, ReportsSerially, StaysSerial};
ghost use Rattle.sv_office.specs.declared.steward.Steward.{Steward};
ghost use Rattle.sv_wire.specs.declared.message.Request.TheVariants as requests;

use crate::halt::Halt;
use law_journal::{serial_results_stay, stewards_sessions_are_joined};
use sv_keeper::{KeepFault, Keeper};
use sv_log::Folder;
use sv_wire::{Reply, Request};

/// The session in which one asks: the one that one has, or the next one.
pub(crate) fn asking_session<F: Folder>(keeper: &Keeper<F>, session: Option<u64>) -> u64
    ensures { AsksIn keeper.now.world.history session result }
{
    match session {
        Some(session) => session,
        None => {
            keeper.is_lawful();
            keeper.next_session()
        }
    }
}

// Steps a request. The keeper is kept afterwards too.
fn step_lawfully<F: Folder>(
    keeper: &mut Keeper<F>,
    session: u64,
    request: &Request,
) -> Result<Reply, KeepFault>
    ensures ok { IfOk result (Stepped keeper.old keeper.new session request.now) }
    ensures err { IfErr result (WasNotStepped keeper.old keeper.new session request.now) }
    ensures broken { keeper.old.is_broken ≡ true → (keeper.new ≡ keeper.old) × (result ≡ Err faults.Broken) }
    ensures legal { IsLegalWorld keeper.new.world }
    ensures order { AreInOrder keeper.new.world.history }
{
    let stepped = keeper.step(session, request);
    keeper.is_lawful();
    stepped
}

/// Enters what a session asks.
pub(crate) fn enter<F: Folder>(
    keeper: &mut Keeper<F>,
    session: u64,
    request: &Request,
) -> Result<Reply, KeepFault>
    requires limits { AreWithinLimits keeper.old.world.rules }
    ensures ok { IfOk result (WasEntered keeper.old.world keeper.new.world session request.now) }
    ensures one { (keeper.new.world ≡ keeper.old.world) ⊎ (keeper.new.world ≡ after keeper.old.world session request.now) }
    ensures same { IfErr result (λ fault. fault ≢ faults.Broken → keeper.new.world ≡ keeper.old.world) }
    ensures added { GrowsBy (IsEntryOf session request.now) keeper.old.world keeper.new.world }
    ensures serial { (keeper.old.is_broken ≡ false → ReportsSerially keeper.old.world session request.now) → StaysSerial keeper.old.world keeper.new.world }
    // Whose the open sessions are that were joined as the steward, where another asked, and where it asked itself.
    ensures others { is_stewards_number (number_in request.now) ≡ false → (mine : Option ℕ) → IsAloneIn keeper.old mine → IsAloneIn keeper.new mine }
    ensures own { (mine : Option ℕ) → AsksIn keeper.old.world.history mine session → IsAloneIn keeper.old mine → OnOk result (IsAloneIn keeper.new (Some session)) }
    ensures kept { (mine : Option ℕ) → IsAloneIn keeper.old mine → OnErr result (IsAloneIn keeper.new mine) }
{
    let stepped = step_lawfully(keeper, session, request);
    serial_results_stay();
    stewards_sessions_are_joined();
    stepped
}

/// Enters the End of a session, where it is open.
pub fn end_session<F: Folder>(keeper: &mut Keeper<F>, session: u64) -> Result<(), Halt>
    requires limits { AreWithinLimits keeper.old.world.rules }
    ensures added { GoesOn (IsEntryOf session requests.End) keeper.old.world keeper.new.world }
    ensures trusted { (steward : Option Steward) → IsTrusted keeper.old steward → IsTrusted keeper.new steward }
{
    match enter(keeper, session, &Request::End) {
        Ok(_reply) => Ok(()),
        Err(_) => Err(Halt::Log),
    }
}
