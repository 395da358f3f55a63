//! Receiving a reply.
ghost use Rattle.std.specs.Prelude.{◌≡◌, ◌≢◌, ◌<◌, [], None, false, true, length, option_to_list, is_some, All, IfOk, IfErr, IfSome, OnErr};
ghost use Rattle.sv_frame.specs.Frames.{first_frame, greatest_frame};
ghost use Rattle.sv_wire.specs.declared.message.Reply as reply_rows;
ghost use Rattle.sv_wire.specs.Grammar.{IsWireRequest};
ghost use Rattle.sv_wire.specs.Laws.{IsRequest};
ghost use Rattle.sv_client.specs.declared.fault.TakeFault.TheVariants as faults;
ghost use Rattle.sv_client.specs.declared.trace.Event.TheVariants as events;
ghost use Rattle.sv_client.specs.Answers.{IsTakeFault};
ghost use Rattle.sv_script.specs.Following.{must_join, is_bye};
ghost use Rattle.sv_exchange.specs.Outgoing.{KeepsBack};
ghost use Rattle.sv_player.specs.Carried.{request_frames};
ghost use Rattle.sv_player.specs.Going.{IsGoing, IsHereNow, own_session, own_number, outstanding_of, asked_by, can_go_on_now};
ghost use Rattle.sv_player.specs.Sessions.{IsInSession, IsStill, IsReceived, IsAnswered, KeepsEnd, IsFirst, IsFrameFault};

use crate::buffers::Buffers;
use crate::outcome::{PlayerCause, ReplyFault};
use crate::playing::Player;
use crate::session::sent_whole;
use sv_client::TakeFault;
use sv_exchange::{Inbox, Incoming};
use sv_link::{End, EndRead};
use sv_script::is_bye;
use sv_watch::Watch;
use sv_wire::{Reply, Request, WireFault, decode_reply};

impl<'a> Player<'a> {
    /// The number of its session.
    fn session_number(&self) -> u16
        requires going { IsGoing self.now }
        requires joined { must_join self.now.client.events ≡ false }
        ensures { result ≡ own_number self.now }
    {
        self.client.sessions() - 1 + self.first
    }

    /// Sends all that waits.
    pub(crate) fn send_all<E: End>(
        &self,
        buffers: &mut Buffers,
        end: &mut E,
    ) -> Result<(), PlayerCause>
        requires at { IsInSession self.now buffers.old (E.told end.old) }
        requires here { IsHereNow self.now }
        ensures still { IsStill result (own_session self.now) self.now buffers.new (E.told end.new) }
        ensures sent { IfOk result (λ _. buffers.new.outbox ≡ []) }
        ensures inbox { buffers.new.inbox ≡ buffers.old.inbox }
        ensures end { KeepsEnd E.told E.faults E.calm end.old end.new result }
    {
        sent_whole(buffers.outbox.flush(end))
    }

    /// Waits for more bytes. Whoever waits has sent all that is to be answered.
    fn read_on<E: End>(&self, buffers: &mut Buffers, end: &mut E) -> Result<(), PlayerCause>
        requires at { IsInSession self.now buffers.old (E.told end.old) }
        requires here { IsHereNow self.now }
        requires awaited { 0 < length (outstanding_of self.now) }
        requires flushed { buffers.old.outbox ≡ [] }
        requires none { first_frame buffers.old.inbox ≡ None }
        ensures still { IsStill result (own_session self.now) self.now buffers.new (E.told end.new) }
        ensures more { IfOk result (λ _. (length buffers.old.inbox < length buffers.new.inbox) × (length buffers.old.inbox < greatest_frame)) }
        ensures end { KeepsEnd E.told E.faults E.calm end.old end.new result }
    {
        match buffers.inbox.next::<Reply>(self.alloc) {
            Incoming::NotYet => {}
            Incoming::TooLong(size) => {
                return Err(PlayerCause::BadReply {
                    session: self.session_number(),
                    payload: Vec::new(self.alloc),
                    fault: ReplyFault::TooLong(size),
                });
            }
            _ => unreachable!(),
        }
        match buffers.inbox.read_from(end) {
            EndRead::Got(_) => Ok(()),
            EndRead::Ended => Err(PlayerCause::Closed),
            EndRead::Failed => Err(PlayerCause::LinkFault),
            EndRead::Memory => Err(PlayerCause::Memory),
        }
    }

    /// Waits until a whole frame has come. What waits to be sent is sent before that.
    fn await_frame<E: End>(&self, buffers: &mut Buffers, end: &mut E) -> Result<(), PlayerCause>
        requires at { IsInSession self.now buffers.old (E.told end.old) }
        requires here { IsHereNow self.now }
        requires awaited { 0 < length (outstanding_of self.now) }
        ensures still { IsStill result (own_session self.now) self.now buffers.new (E.told end.new) }
        ensures came { IfOk result (λ _. first_frame buffers.new.inbox ≢ None) }
        ensures end { KeepsEnd E.told E.faults E.calm end.old end.new result }
    {
        while buffers.inbox.first_payload().is_none() {
            self.send_all(buffers, end)?;
            self.read_on(buffers, end)?;
        }
        Ok(())
    }

    /// The reply in the first frame that came.
    fn read_first(&self, inbox: &Inbox) -> Result<Reply, PlayerCause>
        requires going { IsGoing self.now }
        requires joined { must_join self.now.client.events ≡ false }
        requires came { first_frame inbox.now ≢ None }
        ensures reply { IfOk result (IsFirst inbox.now) }
        ensures fault { IfErr result (IsFrameFault self.now.client.who self.now.client.events (own_number self.now) inbox.now) }
    {
        let Some(payload) = inbox.first_payload() else {
            unreachable!();
        };
        match decode_reply(self.alloc, payload) {
            Ok(reply) => Ok(reply),
            Err(WireFault::Malformed(fault)) => Err(PlayerCause::BadReply {
                session: self.session_number(),
                payload: Vec::from_slice(self.alloc, payload)?,
                fault: ReplyFault::Wire(fault),
            }),
            Err(WireFault::Memory) => Err(PlayerCause::Memory),
        }
    }

    /// Why the reply in the first frame is not taken.
    fn refusal(&self, inbox: &Inbox, fault: TakeFault) -> PlayerCause
        requires going { IsGoing self.now }
        requires joined { must_join self.now.client.events ≡ false }
        requires refused { (reply : Reply) × IsFirst inbox.now reply × IsTakeFault self.now.client.who self.now.client.events reply fault }
        requires some { fault ≢ faults.Memory }
        ensures { IsFrameFault self.now.client.who self.now.client.events (own_number self.now) inbox.now result }
    {
        let Some(payload) = inbox.first_payload() else {
            unreachable!();
        };
        let Ok(payload) = Vec::from_slice(self.alloc, payload) else {
            return PlayerCause::Memory;
        };
        PlayerCause::BadReply {
            session: self.session_number(),
            payload,
            fault: ReplyFault::Take(fault),
        }
    }

    /// Sends the Done of a reply that was taken, if it has one.
    fn answer<E: End>(
        &self,
        done: Option<Request>,
        buffers: &mut Buffers,
        end: &mut E,
    ) -> Result<(), PlayerCause>
        requires open { (E.told end.old).closed ≡ false }
        requires messages { All IsWireRequest (option_to_list done) }
        ensures posted { IsAnswered result (E.told end.old) buffers.old.outbox (request_frames (option_to_list done)) (E.told end.new) buffers.new.outbox }
        ensures kept { KeepsBack buffers.old.outbox (length (request_frames (option_to_list done))) (E.told end.old) (E.told end.new) }
        ensures are_messages { IfOk result (λ _. All IsRequest (option_to_list done)) }
        ensures quiet { option_to_list done ≡ [] → buffers.new ≡ buffers.old }
        ensures some { OnErr result (option_to_list done ≢ []) }
        ensures inbox { buffers.new.inbox ≡ buffers.old.inbox }
        ensures end { KeepsEnd E.told E.faults E.calm end.old end.new result }
    {
        match done {
            Some(request) => sent_whole(buffers.post(&request, end)),
            None => Ok(()),
        }
    }

    /// Takes a reply that was read of the first frame, and sends what it leads to. Whether it was the Bye, before which nothing waits.
    ///
    /// Before a fault is told, all that waits is sent.
    fn take_reply<E: End>(
        &mut self,
        reply: Reply,
        watch: Option<&Watch>,
        buffers: &mut Buffers,
        end: &mut E,
    ) -> Result<bool, PlayerCause>
        requires watch { IfSome watch (λ w. w.now.shape ≡ self.old.client.who.shape) }
        requires watched { self.old.watched ≡ is_some watch }
        requires at { IsInSession self.old buffers.old (E.told end.old) }
        requires here { IsHereNow self.old }
        requires waits { can_go_on_now self.old ≡ false }
        requires first { IsFirst buffers.old.inbox reply }
        requires flushed { is_bye reply ≡ true → buffers.old.outbox ≡ [] }
        ensures received { IsReceived result (own_session self.old) self.old self.new buffers.new (E.told end.new) }
        ensures kept { IfOk result (λ _. KeepsBack buffers.old.outbox (length (request_frames (asked_by self.old (events.Got (own_session self.old) reply)))) (E.told end.old) (E.told end.new)) }
        ensures end { KeepsEnd E.told E.faults E.calm end.old end.new result }
    {
        let bye = is_bye(&reply);
        match self.take(reply, watch) {
            Ok(done) => {
                buffers.inbox.skip();
                self.answer(done, buffers, end)?;
                Ok(bye)
            }
            Err(TakeFault::Memory) => {
                // The reply may stand in the trace already.
                buffers.inbox.skip();
                Err(PlayerCause::Memory)
            }
            Err(fault) => {
                self.send_all(buffers, end)?;
                Err(self.refusal(&buffers.inbox, fault))
            }
        }
    }

    /// Takes the next reply. Whether it was the Bye.
    ///
    /// What waits goes out together with what the replies that came lead to. Before it waits for one, before the Bye, and before a fault is
    /// told, all is sent.
    pub(crate) fn receive<E: End>(
        &mut self,
        watch: Option<&Watch>,
        buffers: &mut Buffers,
        end: &mut E,
    ) -> Result<bool, PlayerCause>
        requires watch { IfSome watch (λ w. w.now.shape ≡ self.old.client.who.shape) }
        requires watched { self.old.watched ≡ is_some watch }
        requires at { IsInSession self.old buffers.old (E.told end.old) }
        requires here { IsHereNow self.old }
        requires waits { can_go_on_now self.old ≡ false }
        requires awaited { 0 < length (outstanding_of self.old) }
        ensures received { IsReceived result (own_session self.old) self.old self.new buffers.new (E.told end.new) }
        ensures end { KeepsEnd E.told E.faults E.calm end.old end.new result }
    {
        self.await_frame(buffers, end)?;
        let reply = match self.read_first(&buffers.inbox) {
            Ok(reply) => reply,
            Err(cause) => {
                self.send_all(buffers, end)?;
                return Err(cause);
            }
        };
        if !is_bye(&reply) {
            return self.take_reply(reply, watch, buffers, end);
        }
        self.send_all(buffers, end)?;
        self.take_reply(reply, watch, buffers, end)
    }
}
