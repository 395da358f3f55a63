//! A client that game code drives.
ghost use Rattle.std.specs.Prelude.{◌≡◌, ◌⊎◌, ◌<◌, ◌≤◌, true, false, length, [], ◌∷◌, option_to_list, Ok, IfOk, IfErr, IfSome, OnOk, OnErr};
ghost use Rattle.sv_world.specs.Worlds.{IsGoodShape};
ghost use Rattle.sv_text.specs.Grammar.{IsActionText};
ghost use Rattle.sv_text.specs.Tokens.{tokens_of};
ghost use Rattle.sv_wire.specs.Grammar.{IsWireRequest, IsWireReply};
ghost use Rattle.sv_wire.specs.Messages.{reply_at};
ghost use Rattle.sv_exchange.specs.Incoming.{FirstReads};
ghost use Rattle.sv_client.specs.declared.trace.Event.TheVariants as events;
ghost use Rattle.sv_client.specs.Traces.{joins, makes, view_of};
ghost use Rattle.sv_client.specs.Taking.{outstanding};
ghost use Rattle.sv_client.specs.Proper.{IsReadyToMake, MayPoll, MayObserve, MayLeave, in_session, most_numbers};
ghost use Rattle.sv_pilot.specs.declared.trouble.Trouble.TheVariants as troubles;
ghost use Rattle.sv_pilot.specs.Troubles.{trouble_of_text};
ghost use Rattle.sv_pilot.specs.Hearing.{HearsSome, IsUpToDate};
ghost use Rattle.sv_pilot.specs.Lines.{line_of, IsCalm};
ghost use Rattle.sv_client.specs.declared.trace.Event.{Event};
ghost use Rattle.sv_pilot.specs.Doings.{Hears, HasTold, Takes, Did, posting, Stopped, StopsBy, Watched, StoppedWatch, NoReplyIsDue, IsSettled, MadeAction, StoppedMake, StoppedAction, weight, NoneMayBeMade, number_seen, text_limit};

use crate::audience::{Audience, Listener};
use crate::connection::Connection;
use crate::shapes::is_good_shape;
use crate::trouble::Trouble;
use std::alloc::Global;
use std::marker::Model;
use sv_client::{LeanClient, MOST_NUMBERS, View};
use sv_link::End;
use sv_lists::List;
use sv_text::{ParseFault, parse_action};
use sv_wire::{Reply, Request};
use sv_world::{Action, ObjectId, copy_objects};

/// A client over one connection, and a listener that is called for each change of what it sees of its interest.
///
/// Contracts see the client; of the connection what its end tells, how often the end failed, the bytes that came and were not taken as replies, and
/// those that wait to be sent; and the calls of the listener that went well.
#[derive(Drop)]
pub struct Pilot<E: End, L: Listener> {
    alloc: Global,
    client: LeanClient,
    connection: Connection<E>,
    audience: Audience<L>,
}

impl<E: End, L: Listener> Model for Pilot<E, L> {
    ghost use Rattle.std.specs.Prelude.{◌≡◌};
    ghost use Rattle.std.specs.Coded.{codes};
    ghost use Rattle.sv_client.specs.contracts.trace.Event as event_rows;
    ghost use Rattle.sv_client.specs.declared.trace.Event.{Event};
    ghost use Rattle.sv_pilot.specs.Doings.{Hears, HasTold, PilotView};

    ghost Value = { PilotView };

    ghost coded = { Prim.hlevel (codes, event_rows.the_row.coded) };

    ghost view = { λ p. record { client = p.client; line = p.connection; told = p.audience.heard } };

    ghost invariant = { λ p. p.audience.interest ≡ p.client.who.interest };
}

/// The text of an action has fewer bytes.
const TEXT_LIMIT: usize = 1_000;

/// Whether a text is to blame, or memory.
fn trouble_of(fault: ParseFault) -> Trouble
    ensures { result ≡ trouble_of_text fault }
{
    match fault {
        ParseFault::Text(_) => Trouble::Game,
        ParseFault::Memory => Trouble::Memory,
    }
}

impl<E: End, L: Listener> Pilot<E, L> {
    /// A pilot of a client over a new end, in no session. It fails with `Memory` alone.
    pub fn new(
        alloc: Global,
        client: LeanClient,
        end: E,
        listener: L,
    ) -> Result<Pilot<E, L>, Trouble>
        requires open { (E.told end).closed ≡ false }
        ensures pilot { IfOk result (λ pilot. pilot ≡ record { client = client; line = line_of (E.told end) (E.faults end); told = [] }) }
        ensures memory { IfErr result (λ trouble. trouble ≡ troubles.Memory) }
    {
        client.asks_messages();
        let audience = Audience::new(alloc, client.interest(), listener)?;
        let connection = Connection::new(alloc, end)?;
        Ok(Pilot {
            alloc,
            client,
            connection,
            audience,
        })
    }

    /// The client, which holds what is known.
    pub fn client(&self) -> &LeanClient
        ensures { result.now ≡ self.now.client }
    {
        &self.client
    }

    /// A number of an object as the player sees it, and 0 where it knows none.
    pub fn number(&self, object: ObjectId, attribute: usize) -> i64
        ensures { result ≡ number_seen (view_of self.now.client.events object.0) attribute }
    {
        match self.client.view(object) {
            View::Known(value) => match value.as_slice().get(attribute) {
                Some(number) => *number,
                None => 0,
            },
            View::Unknown => 0,
        }
    }

    /// Begins a session, and is told the objects of the interest. The listener is called after each reply for what changed.
    ///
    /// `Game` comes where so many were begun that a message has no room for the number of the next one, and then nothing was done. Else a session may
    /// have been begun: `Link` comes where the end failed or told that no more will come, `Reply` where the front of what came is no reply or one that
    /// the client does not take, and `Memory`.
    pub fn join(&mut self) -> Result<(), Trouble>
        ensures joined { OnOk result (Did (events.Join (joins self.old.client.events)) self.old self.new [] × IsSettled self.new × IsCalm self.old.line self.new.line) }
        ensures stopped { IfErr result (λ trouble. (trouble ≡ troubles.Game) ⊎ Stopped (events.Join (joins self.old.client.events)) self.old self.new trouble) }
        ensures refused { IfErr result (λ trouble. trouble ≡ troubles.Game → (self.new ≡ self.old) × (most_numbers ≤ joins self.old.client.events)) }
        ensures told { HasTold self.old self.new result }
    {
        if self.client.sessions() >= MOST_NUMBERS {
            return Err(Trouble::Game);
        }
        self.client.asks_messages();
        let requests = self.client.join()?;
        self.audience.tell(&self.client)?;
        self.connection.send_all(requests.as_slice())?;
        self.settle()
    }

    /// Goes on over another new end, in no session yet. The old one is closed. It fails with `Memory` alone, and then goes on over the old one.
    pub fn change_end(&mut self, end: E) -> Result<(), Trouble>
        requires open { (E.told end).closed ≡ false }
        ensures changed { OnOk result (self.new ≡ record self.old { line = line_of (E.told end) (E.faults end) }) }
        ensures err { OnErr result (self.new ≡ self.old) }
        ensures memory { IfErr result (λ trouble. trouble ≡ troubles.Memory) }
    {
        self.connection = Connection::new(self.alloc, end)?;
        Ok(())
    }

    /// Makes the action of a text of less than 1,000 bytes. The listener is called at once for what it is expected to change, and again where
    /// that was wrong.
    ///
    /// `Game` comes outside a session, for a text that is longer or that of no action, and for an action that the client may not make; then nothing
    /// was done. Else the action may have been made: `Link`, `Reply` and `Memory` come as at `join`.
    pub fn act(&mut self, text: &str) -> Result<(), Trouble>
        ensures made { OnOk result (MadeAction text.now self.old self.new [] × IsSettled self.new × IsCalm self.old.line self.new.line) }
        ensures stopped { IfErr result (λ trouble. (trouble ≡ troubles.Game) ⊎ StoppedAction text.now self.old self.new trouble) }
        ensures refused { IfErr result (λ trouble. trouble ≡ troubles.Game → (self.new ≡ self.old) × ((text_limit ≤ length text.now) ⊎ (NoneMayBeMade text.now self.old ⊎ (most_numbers ≤ makes self.old.client.events)))) }
        ensures told { HasTold self.old self.new result }
    {
        let action = self.read(text)?;
        self.make(action)
    }

    /// The action of a text.
    fn read(&self, text: &str) -> Result<Action, Trouble>
        ensures text { IfOk result (λ action. IsActionText action (tokens_of text.now)) }
        ensures only { IfOk result (λ action. (other : Action) → IsActionText other (tokens_of text.now) → other ≡ action) }
        ensures short { OnOk result (length text.now < text_limit) }
        ensures refused { IfErr result (λ trouble. trouble ≡ troubles.Game → (text_limit ≤ length text.now) ⊎ NoneMayBeMade text.now self.now) }
        ensures blame { IfErr result (λ trouble. (trouble ≡ troubles.Game) ⊎ (trouble ≡ troubles.Memory)) }
    {
        if text.len() >= TEXT_LIMIT {
            return Err(Trouble::Game);
        }
        match parse_action(self.alloc, text) {
            Ok(action) => Ok(action),
            Err(fault) => Err(trouble_of(fault)),
        }
    }

    /// Makes an action that was built. The listener is called as by `act`.
    ///
    /// `Game` comes outside a session and for an action that the client may not make, and then nothing was done. Else it may have been made: `Link`,
    /// `Reply` and `Memory` come as at `join`.
    pub fn make(&mut self, action: Action) -> Result<(), Trouble>
        ensures made { OnOk result (IsReadyToMake self.old.client.who self.old.client.events action × Did (events.Make action) self.old self.new [] × IsSettled self.new × IsCalm self.old.line self.new.line) }
        ensures stopped { IfErr result (λ trouble. (trouble ≡ troubles.Game) ⊎ StoppedMake action self.old self.new trouble) }
        ensures refused { IfErr result (λ trouble. trouble ≡ troubles.Game → (self.new ≡ self.old) × ((IsReadyToMake self.old.client.who self.old.client.events action → ⊥) ⊎ (most_numbers ≤ makes self.old.client.events))) }
        ensures told { HasTold self.old self.new result }
    {
        if !self.client.in_session() || self.client.made() >= MOST_NUMBERS {
            return Err(Trouble::Game);
        }
        self.client.asks_messages();
        let request = self.client.make(action)?;
        self.ask(&request)
    }

    /// Asks for an action that another client abandoned, if one is to be had.
    ///
    /// `Game` comes outside a session and where too many replies are due, and then nothing was asked. Else it may have been: `Link`, `Reply` and
    /// `Memory` come as at `join`.
    pub fn poll(&mut self) -> Result<(), Trouble>
        ensures polled { OnOk result (Did events.Poll self.old self.new [] × IsSettled self.new × IsCalm self.old.line self.new.line) }
        ensures stopped { IfErr result (λ trouble. (trouble ≡ troubles.Game) ⊎ Stopped events.Poll self.old self.new trouble) }
        ensures refused { IfErr result (λ trouble. trouble ≡ troubles.Game → (self.new ≡ self.old) × (MayPoll self.old.client.who self.old.client.events → ⊥)) }
        ensures told { HasTold self.old self.new result }
    {
        if !self.client.in_session() {
            return Err(Trouble::Game);
        }
        self.client.asks_messages();
        let request = self.client.poll()?;
        self.ask(&request)
    }

    /// Asks what objects are, all at one moment, and waits up to so many milliseconds for news of them. The listener is called for what is another of
    /// its interest.
    ///
    /// `Game` comes outside a session, for objects that may not be observed, and where too many replies are due; then nothing was asked. Else it may
    /// have been: `Link`, `Reply` and `Memory` come as at `join`.
    pub fn observe(&mut self, objects: List<ObjectId>, wait: u16) -> Result<(), Trouble>
        ensures observed { OnOk result (Did (events.Observe objects wait) self.old self.new [] × IsSettled self.new × IsCalm self.old.line self.new.line) }
        ensures stopped { IfErr result (λ trouble. (trouble ≡ troubles.Game) ⊎ Stopped (events.Observe objects wait) self.old self.new trouble) }
        ensures refused { IfErr result (λ trouble. trouble ≡ troubles.Game → (self.new ≡ self.old) × (MayObserve self.old.client.who self.old.client.events objects → ⊥)) }
        ensures told { HasTold self.old self.new result }
    {
        if !self.client.in_session() {
            return Err(Trouble::Game);
        }
        self.client.asks_messages();
        let request = self.client.observe(objects, wait)?;
        self.ask(&request)
    }

    /// Keeps asking what objects are, so often, each time when the answer before has come. It stops at the first trouble, which comes as at `observe`.
    pub fn watch(&mut self, objects: &[ObjectId], wait: u16, times: u32) -> Result<(), Trouble>
        ensures watched { OnOk result (Watched objects.now wait times self.old self.new) }
        ensures calm { OnOk result (IsCalm self.old.line self.new.line) }
        ensures stopped { IfErr result (StoppedWatch objects.now wait times self.old self.new) }
        ensures told { HasTold self.old self.new result }
    {
        for _ in 0..times {
            let asked = copy_objects(self.alloc, objects)?;
            self.observe(asked, wait)?;
        }
        Ok(())
    }

    /// Leaves the session.
    ///
    /// `Game` comes outside a session and while a reply is due, and then nothing was done. Else the session may have been left: `Link`, `Reply` and
    /// `Memory` come as at `join`.
    pub fn leave(&mut self) -> Result<(), Trouble>
        ensures left { OnOk result (Did events.Leave self.old self.new [] × IsSettled self.new × IsCalm self.old.line self.new.line) }
        ensures stopped { IfErr result (λ trouble. (trouble ≡ troubles.Game) ⊎ Stopped events.Leave self.old self.new trouble) }
        ensures refused { IfErr result (λ trouble. trouble ≡ troubles.Game → (self.new ≡ self.old) × (MayLeave self.old.client.who self.old.client.events → ⊥)) }
        ensures told { HasTold self.old self.new result }
    {
        if !self.client.in_session() || self.client.outstanding() != 0 {
            return Err(Trouble::Game);
        }
        self.client.asks_messages();
        let request = self.client.leave()?;
        self.ask(&request)
    }

    /// The listener. The connection is closed.
    pub fn into_listener(self) -> L {
        let Pilot { audience, .. } = self;
        audience.into_listener()
    }

    /// Tells what a request that was just made is expected to change, sends it, and takes all replies.
    fn ask(&mut self, request: &Request) -> Result<(), Trouble>
        requires { IsWireRequest request.now }
        ensures taken { Takes (posting self.old (request.now ∷ [])) self.new result }
        ensures settled { OnOk result (IsSettled self.new × IsCalm self.old.line self.new.line) }
        ensures why { IfErr result (StopsBy self.old self.new) }
        ensures told { (t : List Event) (e : Event) → self.old.client.events ≡ e ∷ t → Hears self.old.client.who t self.old.told self.new result }
    {
        self.audience.tell(&self.client)?;
        self.connection.send(request)?;
        self.settle()
    }

    /// Whether no reply is due.
    #[tactic(auto, using(crate::proofs::Taking::none_left))]
    fn is_settled(&self) -> bool
        ensures { result ≡ true → NoReplyIsDue self.now }
    {
        self.client.outstanding() == 0
    }

    /// Takes replies until none is due, and sends all that waits.
    fn settle(&mut self) -> Result<(), Trouble>
        ensures taken { Takes self.old self.new result }
        ensures settled { OnOk result (IsSettled self.new × IsCalm self.old.line self.new.line) }
        ensures why { IfErr result (StopsBy self.old self.new) }
        ensures told { HasTold self.old self.new result }
    {
        while !self.is_settled() {
            self.take_next()?;
        }
        self.connection.flush()
    }

    /// Waits for the next reply, and takes it.
    fn take_next(&mut self) -> Result<(), Trouble>
        ensures taken { Takes self.old self.new result }
        ensures calm { OnOk result (IsCalm self.old.line self.new.line) }
        ensures lighter { OnOk result (weight (outstanding self.new.client.who self.new.client.events) < weight (outstanding self.old.client.who self.old.client.events)) }
        ensures why { IfErr result (StopsBy self.old self.new) }
        ensures told { HasTold self.old self.new result }
    {
        let reply = self.connection.receive()?;
        self.take(&reply)
    }

    /// Takes the reply at the front of what came, reports the results that it asks for, and tells what it changed.
    fn take(&mut self, reply: &Reply) -> Result<(), Trouble>
        requires front { FirstReads reply_at self.old.line.came (Ok reply.now) }
        requires message { IsWireReply reply.now }
        ensures taken { Takes self.old self.new result }
        ensures calm { OnOk result (IsCalm self.old.line self.new.line) }
        ensures lighter { OnOk result (weight (outstanding self.new.client.who self.new.client.events) < weight (outstanding self.old.client.who self.old.client.events)) }
        ensures why { IfErr result (StopsBy self.old self.new) }
        ensures told { HasTold self.old self.new result }
    {
        self.client.asks_messages();
        let done = self.client.take(reply)?;
        self.client.in_turn();
        self.connection.skip();
        self.answer(done)?;
        self.tell()
    }

    /// Reports results, where there are any.
    fn answer(&mut self, done: Option<Request>) -> Result<(), Trouble>
        requires { IsGoodShape self.old.client.who.shape → IfSome done IsWireRequest }
        ensures taken { Takes (posting self.old (option_to_list done)) self.new result }
        ensures client { self.new.client ≡ self.old.client }
        ensures told { self.new.told ≡ self.old.told }
        ensures calm { OnOk result (IsCalm self.old.line self.new.line) }
        ensures why { IfErr result (StopsBy self.old self.new) }
    {
        let Some(request) = done else {
            return Ok(());
        };
        if !is_good_shape(self.client.shape()) {
            return Err(Trouble::Reply);
        }
        self.connection.send(&request)
    }

    /// Calls the listener for what changed.
    fn tell(&mut self) -> Result<(), Trouble>
        ensures same { self.new ≡ record self.old { told = self.new.told } }
        ensures some { HearsSome self.old.client.who self.old.client.events self.old.told self.new.told }
        ensures all { OnOk result (IsUpToDate self.old.client.who self.old.client.events self.new.told) }
        ensures memory { IfErr result (λ trouble. trouble ≡ troubles.Memory) }
    {
        self.audience.tell(&self.client)?;
        Ok(())
    }
}
