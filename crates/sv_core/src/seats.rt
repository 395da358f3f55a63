//! Sessions take slots, and leave them.
ghost use Rattle.std.specs.Prelude.{◌≡◌, ℕ, List, ◌-◌, ◌<◌, ◌≤◌, false, if◌then◌else◌, Some, None, length, IfOk, OnErr, MatchOption};
ghost use Rattle.sv_world.specs.Limits.{most_open};
ghost use Rattle.sv_journal.specs.declared.entry.Entry.{Entry};
ghost use Rattle.sv_journal.specs.Answer.{MayBeSession};
ghost use Rattle.sv_core.specs.Cores.{core_rules, open_by, session_at, SitsAt, Keeps, IsKept, IsUnseated, MayClose, Remained, WasSeated, WasClosed};
ghost use Rattle.sv_core.specs.Rows.{seat_in, has_entry, is_seated, count_rows};

use crate::server_core::Core;
use crate::sessions::{SessionRow, new_session, no_session};
use std::alloc::AllocError;

/// A session, by its number, at the slot where it sits.
#[derive(Clone, Copy, Debug, Drop, PartialEq, Eq)]
pub struct Seat {
    pub slot: u16,
    pub session: u64,
}

impl Seat {
    /// Where a session of a scenario sits: at the slot of its own number.
    #[inline(always)]
    pub fn own(session: u16) -> Seat
        ensures { result ≡ record { slot = session; session = session } }
    {
        Seat {
            slot: session,
            session: session as u64,
        }
    }
}

impl Core {
    /// How many sessions sit at slots.
    pub fn open_sessions(&self) -> u16
        requires { IsKept self.now }
        ensures { result ≡ open_by self.now }
    {
        count_seated(self.sessions.as_slice())
    }

    /// Seats a new session at a free slot. `h` is a history that the core keeps, which has no entry of the session.
    #[inline(never)]
    pub fn open(&mut self, session: u64) -> Result<Seat, AllocError>
        ghost h: { List Entry }
        requires keeps { Keeps self.old h }
        requires may { MayBeSession (core_rules self.old).sessions session }
        requires first { has_entry h session ≡ false }
        requires unseated { IsUnseated self.old session }
        requires room { open_by self.old < most_open }
        ensures number { IfOk result (λ seat. seat.session ≡ session) }
        ensures ok { IfOk result (λ seat. WasSeated self.old self.new h seat) }
        ensures err { OnErr result (Remained self.old self.new h) }
    {
        match free_slot(self.sessions.as_slice()) {
            Some(slot) => Ok(self.take(Seat { slot, session })),
            None => self.take_next(session),
        }
    }

    /// Seats a new session at a slot that there is, which is free.
    fn take(&mut self, seat: Seat) -> Seat
        ghost h: { List Entry }
        requires keeps { Keeps self.old h }
        requires first { has_entry h seat.session ≡ false }
        requires unseated { IsUnseated self.old seat.session }
        requires low { seat.slot < length self.old.sessions.items }
        requires free { session_at self.old seat.slot ≡ None }
        ensures seat { result ≡ seat }
        ensures taken { WasSeated self.old self.new h seat }
    {
        self.sessions[seat.slot as usize] = new_session(self.opened.requests(), seat.session);
        self.owed += 1;
        seat
    }

    /// Seats a new session at a new slot, where no slot is free.
    fn take_next(&mut self, session: u64) -> Result<Seat, AllocError>
        ghost h: { List Entry }
        requires keeps { Keeps self.old h }
        requires first { has_entry h session ≡ false }
        requires unseated { IsUnseated self.old session }
        requires room { length self.old.sessions.items < most_open }
        ensures number { IfOk result (λ seat. seat.session ≡ session) }
        ensures ok { IfOk result (λ seat. WasSeated self.old self.new h seat) }
        ensures err { OnErr result (Remained self.old self.new h) }
    {
        let slot = self.sessions.len() as u16;
        self.queue.make_room(slot + 1)?;
        self.sessions
            .push(new_session(self.opened.requests(), session))?;
        self.owed += 1;
        Ok(Seat { slot, session })
    }

    /// Frees the slot of a session that had its End or made no request. What was sent to it is forgotten.
    #[inline(never)]
    pub fn close(&mut self, seat: Seat)
        ghost h: { List Entry }
        requires keeps { Keeps self.old h }
        requires seat { SitsAt self.old seat }
        requires last { MayClose h seat.session }
        ensures { WasClosed self.old self.new h seat }
    {
        let row = self.sessions[seat.slot as usize];
        self.owed = owed_without(self.owed, row.ended);
        self.sessions[seat.slot as usize] = no_session();
        self.queue.forget(seat.slot);
    }
}

/// How many Ends are to come once a session has left its slot, whose own may have come.
fn owed_without(owed: u16, ended: bool) -> u16
    requires { ended ≡ false → 1 ≤ owed }
    ensures { result ≡ (if ended then owed else owed - 1) }
{
    if ended { owed } else { owed - 1 }
}

/// The first slot where no session sits.
fn free_slot(rows: &[SessionRow]) -> Option<u16>
    requires { length rows.now < 65536 }
    ensures { MatchOption result (count_rows is_seated rows.now ≡ length rows.now) (λ slot. (slot < length rows.now) × (seat_in rows.now slot ≡ None)) }
{
    for slot in 0..rows.len() {
        if !is_seated(&rows[slot]) {
            return Some(slot as u16);
        }
    }
    None
}

fn count_seated(rows: &[SessionRow]) -> u16
    requires { length rows.now < 65536 }
    ensures { result ≡ count_rows is_seated rows.now }
{
    let mut count = 0;
    for slot in 0..rows.len() {
        if is_seated(&rows[slot]) {
            count += 1;
        }
    }
    count
}

fn is_seated(row: &SessionRow) -> bool
    ensures { result ≡ is_seated row.now }
{
    row.session.is_some()
}
