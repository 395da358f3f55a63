//! What a core keeps of each session, and what an entry makes of it.
ghost use Rattle.std.specs.Prelude.{◌≡◌, ℕ, ◌-◌, ◌<◌, ◌&&◌, nat_eq, false, None, map, option_map, length, IfOk, IfSome, IfNone, if◌then◌else◌};
ghost use Rattle.sv_world.specs.Control.{below};
ghost use Rattle.sv_journal.specs.History.{either, is_welcome, joining};
ghost use Rattle.sv_journal.specs.Sessions.{is_last, welcomes};
ghost use Rattle.sv_core.specs.Rows.{no_session, new_session, row_at, session_after};
ghost use Rattle.sv_journal.specs.History.{entry_of};

use std::alloc::{AllocError, Global};
use sv_journal::{Logged, is_end, joining};
use sv_wire::{Refusal, Request};

/// What a core keeps of a session, at the slot where it sits.
#[derive(Clone, Copy, Drop)]
pub struct SessionRow {
    /// The number of the session. None: no session sits there.
    pub session: Option<u64>,
    /// The number of its client, once it has joined.
    pub client: Option<u16>,
    pub over: bool,
    /// How many requests it may still make, where there is an end of them.
    pub left: Option<u16>,
    /// Its End has come.
    pub ended: bool,
}

/// The row of a slot where no session sits.
pub fn no_session() -> SessionRow
    ensures { result ≡ no_session }
{
    SessionRow {
        session: None,
        client: None,
        over: false,
        left: None,
        ended: false,
    }
}

/// The row of a session that has asked nothing, and may make so many requests.
pub fn new_session(requests: Option<u16>, session: u64) -> SessionRow
    ensures { result ≡ new_session requests session }
{
    SessionRow {
        session: Some(session),
        client: None,
        over: false,
        left: requests,
        ended: false,
    }
}

/// The rows of sessions that have asked nothing, each at the slot of its number.
pub fn new_sessions(
    alloc: Global,
    requests: Option<u16>,
    sessions: u16,
) -> Result<Vec<SessionRow>, AllocError>
    ensures { IfOk result (λ rows. rows.items ≡ map (new_session requests) (below sessions)) }
{
    let mut rows = Vec::with_capacity(alloc, sessions as usize)?;
    for session in 0..sessions {
        rows.push(new_session(requests, u64::from(session)))?;
    }
    Ok(rows)
}

/// Notes in the rows of the sessions what the one at a slot asked and was replied. Only a Join that is welcomed changes another row than the
/// asker's.
#[inline(always)]
pub fn note(rows: &mut Vec<SessionRow>, slot: u16, request: &Request, reply: &Logged)
    requires { length rows.old.items < 65536 }
    ensures count { length rows.new.items ≡ length rows.old.items }
    ensures rows { (i : ℕ) → i < length rows.old.items → row_at rows.new.items i ≡ session_after (nat_eq slot i) (entry_of slot request.now reply.now) (row_at rows.old.items i) }
{
    if is_welcome(reply) {
        note_in_all(rows, slot, request, reply);
    } else {
        note_in_own(rows, slot, request, reply);
    }
}

#[inline(never)]
fn note_in_all(rows: &mut Vec<SessionRow>, slot: u16, request: &Request, reply: &Logged)
    requires { length rows.old.items < 65536 }
    ensures count { length rows.new.items ≡ length rows.old.items }
    ensures rows { (i : ℕ) → i < length rows.old.items → row_at rows.new.items i ≡ session_after (nat_eq slot i) (entry_of slot request.now reply.now) (row_at rows.old.items i) }
{
    for place in 0..rows.len() {
        if let Some(row) = noted(slot as usize == place, request, reply, &rows[place]) {
            rows[place] = row;
        }
    }
}

// The row after a request, where it may be another one: it is the asker's, or has the client that the request joins.
#[tactic(auto, using(crate::proofs::Rows::row_of_another))]
fn noted(own: bool, request: &Request, reply: &Logged, row: &SessionRow) -> Option<SessionRow>
    ensures some { IfSome result (λ new. (asker : ℕ) → new ≡ session_after own (entry_of asker request.now reply.now) row.now) }
    ensures none { IfNone result ((asker : ℕ) → session_after own (entry_of asker request.now reply.now) row.now ≡ row.now) }
{
    if !own && row.client != joining(request) {
        return None;
    }
    Some(session_after(own, request, reply, row))
}

#[tactic(auto, using(crate::proofs::Rows::other_row_stays))]
fn note_in_own(rows: &mut Vec<SessionRow>, slot: u16, request: &Request, reply: &Logged)
    requires { is_welcome reply.now ≡ false }
    ensures count { length rows.new.items ≡ length rows.old.items }
    ensures rows { (i : ℕ) → i < length rows.old.items → row_at rows.new.items i ≡ session_after (nat_eq slot i) (entry_of slot request.now reply.now) (row_at rows.old.items i) }
{
    let own = slot as usize;
    if own < rows.len() {
        rows[own] = session_after(true, request, reply, &rows[own]);
    }
}

/// A row after a request, which may be that of its own session, and its reply.
fn session_after(own: bool, request: &Request, reply: &Logged, row: &SessionRow) -> SessionRow
    ensures { (asker : ℕ) → result ≡ session_after own (entry_of asker request.now reply.now) row.now }
{
    let ends = is_end(request);
    SessionRow {
        session: row.session,
        client: client_after(request, reply, own, row.client),
        over: row.over || is_over_by(request, reply, own, row.client),
        left: if own && !ends {
            one_less(row.left)
        } else {
            row.left
        },
        ended: (own && ends) || row.ended,
    }
}

/// One request less, where there is an end of them.
fn one_less(left: Option<u16>) -> Option<u16>
    ensures { result ≡ option_map (λ n. n - 1) left }
{
    match left {
        Some(left) => Some(left.saturating_sub(1)),
        None => None,
    }
}

/// The client of a session after a request and its reply, which may be its own.
fn client_after(request: &Request, reply: &Logged, own: bool, client: Option<u16>) -> Option<u16>
    ensures { result ≡ either client (if own && is_welcome reply.now then joining request.now else None) }
{
    if client.is_some() {
        return client;
    }
    if own && is_welcome(reply) {
        joining(request)
    } else {
        None
    }
}

/// Whether a session with this client is over by a request, which may be its own, and its reply.
fn is_over_by(request: &Request, reply: &Logged, own: bool, client: Option<u16>) -> bool
    ensures { (asker : ℕ) → result ≡ (if own then is_last reply.now else welcomes (entry_of asker request.now reply.now) client) }
{
    if own {
        is_last(reply)
    } else {
        welcomes(request, reply, client)
    }
}

/// Whether a request is a Join of this client that was welcomed.
fn welcomes(request: &Request, reply: &Logged, client: Option<u16>) -> bool
    ensures { (asker : ℕ) → result ≡ welcomes (entry_of asker request.now reply.now) client }
{
    let Some(client) = client else {
        return false;
    };
    if !is_welcome(reply) {
        return false;
    }
    match joining(request) {
        Some(joined) => joined == client,
        None => false,
    }
}

fn is_welcome(reply: &Logged) -> bool
    ensures { result ≡ is_welcome reply.now }
{
    match reply {
        Logged::Welcome { .. } => true,
        _ => false,
    }
}

/// Whether a reply ends its session.
fn is_last(reply: &Logged) -> bool
    ensures { result ≡ is_last reply.now }
{
    match reply {
        Logged::Bye => true,
        Logged::Refused { code, .. } => {
            *code == Refusal::Malformed.code() || *code == Refusal::TooManyRequests.code()
        }
        _ => false,
    }
}
