//! The connections.
ghost use Rattle.std.specs.Prelude.{◌≡◌, []};

use crate::boxed::BoxedGuest;
use std::alloc::Global;
use sv_office::{Guest, Halt};
use sv_ports::{Numbered, Ready};

/// The connections, and which of them are to be looked at.
#[derive(Drop)]
pub struct Room {
    pub guests: Numbered<BoxedGuest>,
    pub ready: Ready,
    /// Connections that had more than was taken of them in their turn.
    pub busy: Vec<u64>,
    /// Connections to which something may be sent in this turn.
    pub touched: Vec<u64>,
    /// Connections with a held Observe.
    pub held: Vec<u64>,
    /// No held Observe is to be answered before.
    pub held_until: u64,
    /// How many entries there were when the held Observes were looked at.
    pub seen_entries: u64,
    /// When the connections are looked at for those that are idle.
    pub next_look: u64,
    /// The last accept failed. Others may wait still.
    pub door_fails: bool,
}

impl Room {
    /// Nobody is there, and there are so many entries.
    pub fn new(alloc: Global, entries: u64) -> Room
        ensures guests { result.guests ≡ [] }
    {
        Room {
            guests: Numbered::new(alloc),
            ready: Ready::new(alloc),
            busy: Vec::new(alloc),
            touched: Vec::new(alloc),
            held: Vec::new(alloc),
            held_until: u64::MAX,
            seen_entries: entries,
            next_look: 0,
            door_fails: false,
        }
    }

    /// Puts a connection with a held Observe into the list of them.
    pub fn list(&mut self, number: u64, guest: &mut Guest) -> Result<(), Halt>
        ensures guest { guest.new ≡ record guest.old { is_listed = guest.new.is_listed } }
        ensures guests { self.new.guests ≡ self.old.guests }
    {
        let Some(held) = &guest.held else {
            return Ok(());
        };
        self.held_until = self.held_until.min(held.until);
        if !guest.is_listed {
            self.held.push(number)?;
            guest.is_listed = true;
        }
        Ok(())
    }
}
