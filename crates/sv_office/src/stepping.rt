//! A request: it is refused a connection, held, answered without an entry, or stepped.
ghost use Rattle.std.specs.Prelude.{◌≡◌, ◌≢◌, ◌⊎◌, ℕ, true, false, List, None, Some, IfOk, OnOk, IfSome, IfNone, option_map, length};
ghost use Rattle.sv_world.specs.declared.world.ClientId.{ClientId};
ghost use Rattle.sv_wire.specs.Grammar.{IsWireReply};
ghost use Rattle.sv_journal.specs.declared.entry.Entry.{Entry};
ghost use Rattle.sv_journal.specs.History.{accepted, full_reply};
ghost use Rattle.sv_journal.specs.Laws.{AreWithinLimits};
ghost use Rattle.sv_journal.specs.Sessions.{is_end};
ghost use Rattle.sv_living.specs.Quiet.{IsQuietReply};
ghost use Rattle.sv_living.specs.Sessions.{AreInOrder};
ghost use Rattle.sv_living.specs.World.{WorldView, after, reply_in};
ghost use Rattle.sv_wire.specs.declared.message.Reply.{Reply};
ghost use Rattle.sv_wire.specs.declared.message.Request.{Request};
ghost use Rattle.sv_office.specs.Admitting.{is_admitted, is_stewards_number, number_in, shows_key};
ghost use Rattle.sv_office.specs.Entering.{GoesOn, KeepsOwn, AsksInOne, IsEndOf, IsEnded, Follows, CameOf, CameOfAsking, MayHold, WasFollowed, WasAnswered, IsReport};
ghost use Rattle.sv_office.specs.Guests.{HasYetToAsk, Stays};
ghost use Rattle.sv_office.specs.Offices.{IsNotStewards, session_of};
ghost use Rattle.sv_office.specs.Taking.{WasTaken};
ghost use Rattle.sv_office.specs.Telling.{IsServedGuest, IsOwed, WouldShowNothing, ShowsSomething};
ghost use Rattle.sv_office.specs.declared.guest.Standing.TheVariants as standing;

use crate::entering::{asking_session, enter};
use crate::guest::{Guest, Held};
use crate::halt::Halt;
use crate::office::Office;
use sv_journal::{is_stopping, served_replies_are_messages};
use sv_keeper::{KeepFault, Keeper};
use sv_keys::Keys;
use sv_log::Folder;
use sv_site::Counts;
use sv_wire::{Reply, Request, read_reply};
use sv_world::ClientId;

/// The client number of the steward.
pub const STEWARD_NUMBER: u16 = 65_535;

/// How a world stood before a request.
#[derive(Clone, Copy, Debug, Drop, PartialEq, Eq)]
struct Before {
    last: u32,
    outcomes: Option<u32>,
}

fn joining(request: &Request) -> Option<ClientId>
    ensures { option_map (λ (c : ClientId). c.0) result ≡ number_in request.now }
{
    match request {
        Request::Join { client, .. } => Some(*client),
        _ => None,
    }
}

// Notes the client as which a request joins.
fn note_client(client: &mut Option<ClientId>, request: &Request) {
    if let Some(joined) = joining(request) {
        *client = Some(joined);
    }
}

fn is_stewards(client: Option<ClientId>) -> bool
    ensures { result ≡ is_stewards_number (option_map (λ (c : ClientId). c.0) client) }
{
    match client {
        Some(client) => client.0 == STEWARD_NUMBER,
        None => false,
    }
}

/// Whether a key lets a client join, where keys are wanted, or lets ask anything else.
fn shows_key(keys: &Option<Keys>, key: &Option<[u8; 32]>, client: Option<ClientId>) -> bool
    ensures { result ≡ shows_key keys.now key.now (option_map (λ (c : ClientId). c.0) client) }
{
    let Some(keys) = keys else {
        return true;
    };
    let Some(digest) = key else {
        return false;
    };
    match client {
        Some(client) => keys.has(client, digest),
        None => true,
    }
}

/// What a session is answered next is a message, and sessions began in order.
fn answers_are_messages<F: Folder>(keeper: &Keeper<F>)
    requires { AreWithinLimits keeper.now.world.rules }
    ensures stepped { (s : ℕ) → (request : Request)
        → IsWireReply (full_reply (accepted (after keeper.now.world s request).history) (reply_in keeper.now.world s request)) }
    ensures order { AreInOrder keeper.now.world.history }
    ensures quiet { (s : ℕ) → (request : Request) → (reply : Reply)
        → IsQuietReply keeper.now.world.rules keeper.now.world.stewardship keeper.now.world.history s request (Some reply) → IsWireReply reply }
{
    keeper.is_lawful();
    served_replies_are_messages();
}

// Counts the reply by which a client has one more outcome.
fn count(counts: &mut Counts, is_new: bool, reply: &Reply) {
    if is_new {
        counts.answer(reply);
    }
}

// Puts a reply behind what is to be sent.
fn tell(guest: &mut Guest, reply: &Reply)
    requires message { IsWireReply reply.now }
    requires open { guest.old.standing ≡ standing.Open }
    ensures served { (v : WorldView) → IsOwed v guest.old reply.now → IsServedGuest v guest.new }
    ensures session { guest.new.session ≡ guest.old.session }
    ensures guest { Stays guest.old guest.new }
{
    read_reply(reply);
    if guest.peer.say(reply).is_err() {
        guest.leave();
    }
}

impl<F: Folder> Office<F> {
    // Whether a connection may ask this: where keys are wanted it showed one, it joins under no number but its key's, and never under the steward's.
    fn admits(&self, guest: &Guest, request: &Request) -> bool
        ensures { result ≡ is_admitted self.now.keys guest.now.key request.now }
    {
        let client = joining(request);
        !is_stewards(client) && shows_key(&self.keys, &guest.key, client)
    }

    /// Takes a request of a connection that is served. An End is none: only the server enters one.
    pub fn take_request(&mut self, guest: &mut Guest, request: Request) -> Result<(), Halt>
        requires asks { is_end request ≡ false }
        requires open { guest.old.standing ≡ standing.Open }
        requires served { IsServedGuest self.old.keeper.world guest.old }
        requires apart { IsNotStewards guest.old.session (session_of self.old.steward) }
        ensures served { OnOk result (IsServedGuest self.new.keeper.world guest.new) }
        ensures added { GoesOn (CameOfAsking self.old.keeper.world.history (session_of self.old.steward) self.old.keys guest.old request) self.old.keeper.world self.new.keeper.world }
        ensures asked { AsksInOne (session_of self.old.steward) guest.old.session guest.new.session self.old.keeper.world.history self.new.keeper.world.history }
        ensures idle { OnOk result (HasYetToAsk guest.old guest.new self.old.keeper.world self.new.keeper.world) }
        ensures session { KeepsOwn self.old.keeper.world.history guest.old.session guest.new.session }
        ensures steward { session_of self.new.steward ≡ session_of self.old.steward }
        ensures keys { self.new.keys ≡ self.old.keys }
        ensures policy { self.new.policy ≡ self.old.policy }
        ensures key { guest.new.key ≡ guest.old.key }
        ensures sent { guest.new.peer.sent ≡ guest.old.peer.sent }
        ensures taken { is_admitted self.old.keys guest.old.key request ≡ true → OnOk result (WasTaken (session_of self.old.steward) self.old.policy.authority
            guest.old.session guest.new.session guest.old.held self.old.keeper.world self.new.keeper.world request) }
        ensures refused { is_admitted self.old.keys guest.old.key request ≡ false → OnOk result (IsEnded guest.old.session guest.new.session self.old.keeper.world.history self.new.keeper.world.history) }
        ensures spoken { guest.new.has_spoken ≡ true }
        ensures held { IfSome guest.new.held (λ held. held.request ≡ request) }
        ensures may_hold { MayHold self.old.keys guest.old.key guest.new.held }
    {
        guest.heard = self.time;
        guest.has_spoken = true;
        if !self.admits(guest, &request) {
            self.counts.refuse();
            guest.leave();
            return self.end(guest);
        }
        self.release(guest)?;
        if !guest.is_open() {
            return Ok(());
        }
        if let Some(until) = self.holds_until(guest, &request) {
            guest.held = Some(Held { request, until });
            return Ok(());
        }
        self.answer(guest, &request)
    }

    /// Answers a request: without an entry, where it is an Observe that would show nothing, and else by a step.
    pub(crate) fn answer(&mut self, guest: &mut Guest, request: &Request) -> Result<(), Halt>
        requires asks { is_end request.now ≡ false }
        requires another { is_stewards_number (number_in request.now) ≡ false }
        requires open { guest.old.standing ≡ standing.Open }
        requires served { IsServedGuest self.old.keeper.world guest.old }
        requires apart { IsNotStewards guest.old.session (session_of self.old.steward) }
        ensures served { OnOk result (IsServedGuest self.new.keeper.world guest.new) }
        ensures answered { OnOk result (WasAnswered (session_of self.old.steward) self.old.policy.authority guest.old.session guest.new.session self.old.keeper.world self.new.keeper.world request.now) }
        ensures added { GoesOn (CameOf self.old.keeper.world.history (session_of self.old.steward) guest.old.session request.now) self.old.keeper.world self.new.keeper.world }
        ensures asked { AsksInOne (session_of self.old.steward) guest.old.session guest.new.session self.old.keeper.world.history self.new.keeper.world.history }
        ensures idle { OnOk result (HasYetToAsk guest.old guest.new self.old.keeper.world self.new.keeper.world) }
        ensures session { KeepsOwn self.old.keeper.world.history guest.old.session guest.new.session }
        ensures steward { session_of self.new.steward ≡ session_of self.old.steward }
        ensures keys { self.new.keys ≡ self.old.keys }
        ensures policy { self.new.policy ≡ self.old.policy }
        ensures guest { Stays guest.old guest.new }
        // An Observe that would show nothing is not entered.
        ensures quiet { self.old.keeper.is_broken ≡ false → (reply : Reply) → WouldShowNothing self.old.keeper.world guest.old request.now reply
            → self.new.keeper.world ≡ self.old.keeper.world }
    {
        if let Some(reply) = self.quiet_answer(guest, request) {
            answers_are_messages(&self.keeper);
            tell(guest, &reply);
            return Ok(());
        }
        self.step(guest, request)
    }

    /// What an Observe of a connection would be answered, where that shows nothing.
    pub fn quiet_answer(&self, guest: &Guest, request: &Request) -> Option<Reply>
        ensures some { IfSome result (λ reply. WouldShowNothing self.now.keeper.world guest.now request.now reply) }
        ensures none { self.now.keeper.is_broken ≡ false → IfNone result (ShowsSomething self.now.keeper.world guest.now request.now) }
    {
        let Request::Observe { .. } = request else {
            return None;
        };
        let session = guest.session?;
        self.keeper.quiet_answer(session, request)
    }

    // Steps a request, and does what its reply asks for.
    fn step(&mut self, guest: &mut Guest, request: &Request) -> Result<(), Halt>
        requires asks { is_end request.now ≡ false }
        requires another { is_stewards_number (number_in request.now) ≡ false }
        requires open { guest.old.standing ≡ standing.Open }
        requires served { IsServedGuest self.old.keeper.world guest.old }
        requires apart { IsNotStewards guest.old.session (session_of self.old.steward) }
        ensures served { OnOk result (IsServedGuest self.new.keeper.world guest.new) }
        ensures answered { OnOk result (WasAnswered (session_of self.old.steward) self.old.policy.authority guest.old.session guest.new.session self.old.keeper.world self.new.keeper.world request.now) }
        ensures added { GoesOn (CameOf self.old.keeper.world.history (session_of self.old.steward) guest.old.session request.now) self.old.keeper.world self.new.keeper.world }
        ensures asked { AsksInOne (session_of self.old.steward) guest.old.session guest.new.session self.old.keeper.world.history self.new.keeper.world.history }
        ensures idle { OnOk result (HasYetToAsk guest.old guest.new self.old.keeper.world self.new.keeper.world) }
        ensures session { KeepsOwn self.old.keeper.world.history guest.old.session guest.new.session }
        ensures steward { session_of self.new.steward ≡ session_of self.old.steward }
        ensures keys { self.new.keys ≡ self.old.keys }
        ensures policy { self.new.policy ≡ self.old.policy }
        ensures guest { Stays guest.old guest.new }
    {
        let session = asking_session(&self.keeper, guest.session);
        answers_are_messages(&self.keeper);
        note_client(&mut guest.client, request);
        let before = self.standing_of(guest.client, request);
        match enter(&mut self.keeper, session, request) {
            Ok(reply) => {
                guest.session = Some(session);
                self.take_reply(guest, &reply, before)
            }
            Err(KeepFault::Broken) => Err(Halt::Log),
            Err(KeepFault::NoRoom) => {
                self.counts.refuse();
                guest.leave();
                Ok(())
            }
            Err(_) => {
                guest.leave();
                self.end(guest)
            }
        }
    }

    // What a request may change: the last position, and by a Submit how many outcomes its client has.
    fn standing_of(&self, client: Option<ClientId>, request: &Request) -> Before
        ensures { result.last ≡ length (accepted self.now.keeper.world.history) }
    {
        let outcomes = match request {
            Request::Submit { .. } => self.outcomes_of(client),
            _ => None,
        };
        Before {
            last: self.keeper.last(),
            outcomes,
        }
    }

    fn outcomes_of(&self, client: Option<ClientId>) -> Option<u32> {
        Some(self.keeper.outcome_count(client?))
    }

    // Whether a client has another number of outcomes than before.
    fn has_new_outcome(&self, client: Option<ClientId>, before: Before) -> bool {
        before.outcomes.is_some() && self.outcomes_of(client) != before.outcomes
    }

    // With authority the steward reports what was accepted.
    fn report_at_once(&mut self, before: Before) -> Result<(), Halt>
        ensures followed { OnOk result (WasFollowed (session_of self.old.steward) self.old.policy.authority before.last None None
            self.old.keeper.world.history self.new.keeper.world.history) }
        ensures added { GoesOn (IsReport (session_of self.old.steward)) self.old.keeper.world self.new.keeper.world }
        ensures steward { session_of self.new.steward ≡ session_of self.old.steward }
        ensures keys { self.new.keys ≡ self.old.keys }
        ensures policy { self.new.policy ≡ self.old.policy }
    {
        if !self.policy.authority {
            return Ok(());
        }
        if self.keeper.last() == before.last {
            return Ok(());
        }
        self.report_accepted()
    }

    // Tells the reply of what was stepped. With authority the steward reports what was accepted. Where the session is over, its End is entered.
    fn take_reply(&mut self, guest: &mut Guest, reply: &Reply, before: Before) -> Result<(), Halt>
        requires message { IsWireReply reply.now }
        requires open { guest.old.standing ≡ standing.Open }
        requires owed { IsOwed self.old.keeper.world guest.old reply.now }
        requires apart { IsNotStewards guest.old.session (session_of self.old.steward) }
        ensures served { OnOk result (IsServedGuest self.new.keeper.world guest.new) }
        ensures followed { OnOk result (WasFollowed (session_of self.old.steward) self.old.policy.authority before.last guest.old.session guest.new.session
            self.old.keeper.world.history self.new.keeper.world.history) }
        ensures added { GoesOn (Follows (session_of self.old.steward) guest.old.session) self.old.keeper.world self.new.keeper.world }
        ensures session { guest.new.session ≡ guest.old.session ⊎ guest.new.session ≡ None }
        ensures still { guest.new.standing ≡ standing.Open → guest.new.session ≡ guest.old.session }
        ensures steward { session_of self.new.steward ≡ session_of self.old.steward }
        ensures keys { self.new.keys ≡ self.old.keys }
        ensures policy { self.new.policy ≡ self.old.policy }
        ensures guest { Stays guest.old guest.new }
    {
        let is_new = self.has_new_outcome(guest.client, before);
        count(&mut self.counts, is_new, reply);
        tell(guest, reply);
        self.report_at_once(before)?;
        self.keeper.is_lawful();
        if is_stopping(reply) || !guest.is_open() {
            guest.close();
            return self.end(guest);
        }
        Ok(())
    }

    /// Enters the End of a connection's session, where it has one. Then it has none, and is served no more.
    #[inline(never)]
    pub fn end(&mut self, guest: &mut Guest) -> Result<(), Halt>
        requires served { IsServedGuest self.old.keeper.world guest.old }
        ensures served { OnOk result (IsServedGuest self.new.keeper.world guest.new) }
        ensures ended { OnOk result (IsEnded guest.old.session guest.new.session self.old.keeper.world.history self.new.keeper.world.history) }
        ensures added { GoesOn (IsEndOf guest.old.session) self.old.keeper.world self.new.keeper.world }
        ensures session { guest.new.session ≡ None }
        // One that is served still had no session.
        ensures open { guest.new.standing ≡ standing.Open → (guest.old.standing ≡ standing.Open) × (guest.old.session ≡ None) × (self.new.keeper.world ≡ self.old.keeper.world) }
        ensures standing { guest.old.session ≢ None → guest.new.standing ≢ standing.Open }
        ensures steward { session_of self.new.steward ≡ session_of self.old.steward }
        ensures keys { self.new.keys ≡ self.old.keys }
        ensures policy { self.new.policy ≡ self.old.policy }
        ensures guest { Stays guest.old guest.new }
    {
        let Some(session) = guest.session else {
            return Ok(());
        };
        guest.close();
        guest.session = None;
        let Ok(_reply) = enter(&mut self.keeper, session, &Request::End) else {
            return Err(Halt::Log);
        };
        Ok(())
    }
}
