//! A connection in a box.
ghost use Rattle.std.specs.Prelude.{◌≡◌, IfOk};
ghost use Rattle.std.specs.Borrow.{Lends, sem};
ghost use Rattle.sv_office.specs.contracts.guest.Guest.{the_row as guest_row};
ghost use Rattle.sv_host.specs.contracts.boxed.BoxedGuest.{the_row};

use std::alloc::{AllocError, Global};
use std::marker::Model;
use sv_office::Guest;

/// A connection in a box of its own: so taking it out and putting it back moves a pointer, which is done many times for each action. Contracts
/// see the connection.
#[derive(Drop)]
pub struct BoxedGuest {
    inner: Box<Guest>,
}

impl Model for BoxedGuest {
    ghost use Rattle.sv_office.specs.contracts.guest.Guest as guest;
    ghost use Rattle.sv_office.specs.declared.guest.Guest.{Guest};

    ghost Value = { Guest };

    ghost coded = { guest.the_row.coded };

    ghost view = { λ b. b.inner.value };
}

impl BoxedGuest {
    pub fn new(alloc: Global, guest: Guest) -> Result<BoxedGuest, AllocError>
        ensures { IfOk result (λ b. b ≡ guest) }
    {
        Ok(BoxedGuest {
            inner: Box::new(alloc, guest)?,
        })
    }

    pub fn get(&self) -> &Guest
        ensures { result.now ≡ self.now }
    {
        &self.inner
    }

    pub fn get_mut(&mut self) -> &mut Guest
        ensures* lends { sem 𝓛 (Lends the_row guest_row self.entry result (λ w. w)) }
        ensures value { result.now ≡ self.old }
    {
        &mut self.inner
    }
}
