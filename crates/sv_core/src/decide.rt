//! What is done on a request: the rows of the rules in order.
ghost use Rattle.std.specs.Prelude.{◌≡◌, List, ◌<◌, ◌≤◌, false, Some, None, IsTrue, map, length};
ghost use Rattle.sv_world.specs.declared.world.ObjectId.{ObjectId};
ghost use Rattle.sv_world.specs.Faults.{first_fault_of_action, IsGoodAction};
ghost use Rattle.sv_world.specs.Sets.{numbers_of};
ghost use Rattle.sv_wire.specs.declared.message.Request.TheVariants as requests;
ghost use Rattle.sv_journal.specs.declared.entry.Entry.{Entry};
ghost use Rattle.sv_journal.specs.History.{Accepted, accepted, client_of, next_seq};
ghost use Rattle.sv_journal.specs.Sessions.{is_live, kept_outcome};
ghost use Rattle.sv_journal.specs.Answer.{reply_to_request, reply_to_open, reply_to_join, reply_to_member, reply_to_submit, reply_to_new, reply_to_good, reply_to_allowed, is_full, reply_to_done, reply_to_poll, reply_to_observe, orphans, is_good_interest};
ghost use Rattle.sv_core.specs.Decisions.{reply_by, DecisionHolds};
ghost use Rattle.sv_core.specs.Cores.{core_rules, SitsAt, Keeps};

use crate::decision::{ActionId, Decision};
use crate::seats::Seat;
use crate::server_core::Core;
use sv_clients::Outcome;
use sv_lists::List;
use sv_wire::{Done1, Refusal, Request};
use sv_world::{
    Action, ClientId, MOST_INTEREST, ObjectId, are_below, check_action, is_ascending,
    may_be_observed,
};

impl Core {
    /// What is done on a request of a session, where `h` is a history that the core keeps.
    pub fn decide(&self, seat: Seat, request: &Request) -> Decision
        ghost h: { List Entry }
        requires keeps { Keeps self.now h }
        requires seat { SitsAt self.now seat }
        ensures reply { reply_by (core_rules self.now) h seat.session request.now result ≡ reply_to_request (core_rules self.now) h seat.session request.now }
        ensures holds { DecisionHolds (core_rules self.now) h seat.session request.now result }
    {
        if self.is_over(seat) {
            return Decision::Refuse {
                refusal: Refusal::Over,
                detail: 0,
            };
        }
        if !self.has_more(seat) {
            return Decision::Refuse {
                refusal: Refusal::TooManyRequests,
                detail: 0,
            };
        }
        self.decide_open(seat, request)
    }

    /// In a session that is not over and not spent.
    fn decide_open(&self, seat: Seat, request: &Request) -> Decision
        ghost h: { List Entry }
        requires keeps { Keeps self.now h }
        requires seat { SitsAt self.now seat }
        ensures reply { reply_by (core_rules self.now) h seat.session request.now result ≡ reply_to_open (core_rules self.now) h seat.session request.now }
        ensures holds { DecisionHolds (core_rules self.now) h seat.session request.now result }
    {
        match request {
            Request::Bad => Decision::Refuse {
                refusal: Refusal::Malformed,
                detail: 0,
            },
            Request::Join {
                client,
                life,
                interest,
            } => self.decide_join(seat, *client, *life, interest),
            _ => self.decide_member(seat, request),
        }
    }

    #[inline(never)]
    fn decide_join(
        &self,
        seat: Seat,
        client: ClientId,
        life: u32,
        interest: &List<ObjectId>,
    ) -> Decision
        ghost h: { List Entry }
        requires keeps { Keeps self.now h }
        requires seat { SitsAt self.now seat }
        ensures reply { reply_by (core_rules self.now) h seat.session (requests.Join client life interest.now) result ≡ reply_to_join (core_rules self.now) h seat.session client.0 life (map (λ (o : ObjectId). o.0) interest.now) }
        ensures holds { DecisionHolds (core_rules self.now) h seat.session (requests.Join client life interest.now) result }
    {
        if self.is_live(seat) {
            return Decision::Refuse {
                refusal: Refusal::AlreadyJoined,
                detail: 0,
            };
        }
        if !self.opened.has_client(client) {
            return Decision::Refuse {
                refusal: Refusal::NoSuchClient,
                detail: 0,
            };
        }
        let greatest = self.life_of(client.0);
        if self.opened.is_no_next_life(greatest, life) {
            return Decision::Refuse {
                refusal: Refusal::OldLife,
                detail: greatest,
            };
        }
        let shape = self.shape();
        if is_good_interest(shape.objects, interest.as_slice()) {
            Decision::Welcome {
                client: client.0,
                life,
            }
        } else {
            Decision::Refuse {
                refusal: Refusal::BadInterest,
                detail: 0,
            }
        }
    }

    fn is_live(&self, seat: Seat) -> bool
        ghost h: { List Entry }
        requires keeps { Keeps self.now h }
        requires seat { SitsAt self.now seat }
        ensures { result ≡ is_live h seat.session }
    {
        let client = self.client_of(seat);
        client.is_some() && !self.is_over(seat)
    }

    /// In a session that only a Join may begin.
    fn decide_member(&self, seat: Seat, request: &Request) -> Decision
        ghost h: { List Entry }
        requires keeps { Keeps self.now h }
        requires seat { SitsAt self.now seat }
        ensures reply { reply_by (core_rules self.now) h seat.session request.now result ≡ reply_to_member (core_rules self.now) h seat.session (client_of h seat.session) request.now }
        ensures holds { DecisionHolds (core_rules self.now) h seat.session request.now result }
    {
        let Some(client) = self.client_of(seat) else {
            return Decision::Refuse {
                refusal: Refusal::NotJoined,
                detail: 0,
            };
        };
        match request {
            Request::Submit { seq, action } => self.decide_submit(seat, client, *seq, action),
            Request::Done { results } => self.decide_done(seat, results),
            Request::Poll => self.decide_poll(seat, client),
            Request::Observe { objects, wait } => self.decide_observe(seat, objects, *wait),
            _ => Decision::Leave,
        }
    }

    /// A repeated action is answered by what came of it.
    fn decide_submit(&self, seat: Seat, client: u16, seq: u32, action: &Action) -> Decision
        ghost h: { List Entry }
        requires keeps { Keeps self.now h }
        requires seat { SitsAt self.now seat }
        requires client { client_of h seat.session ≡ Some client }
        ensures reply { reply_by (core_rules self.now) h seat.session (requests.Submit seq action.now) result ≡ reply_to_submit (core_rules self.now) h seat.session client seq action.now (kept_outcome h client seq) }
        ensures holds { DecisionHolds (core_rules self.now) h seat.session (requests.Submit seq action.now) result }
    {
        match self.kept_outcome(client, seq) {
            Some(Outcome::Dropped { chain, far }) => Decision::Repeat { seq, chain, far },
            Some(Outcome::Denied { object }) => Decision::RepeatDenied { seq, object },
            Some(Outcome::Accepted { pos }) => {
                self.decide_accepted(seat, ActionId { client, seq }, pos, action)
            }
            None => self.decide_new(seat, client, seq, action),
        }
    }

    /// A repeated action that was accepted at a position.
    #[inline(never)]
    fn decide_accepted(&self, seat: Seat, id: ActionId, pos: u32, action: &Action) -> Decision
        ghost h: { List Entry }
        requires keeps { Keeps self.now h }
        requires client { client_of h seat.session ≡ Some id.client }
        requires earlier { id.seq < next_seq h id.client }
        requires placed { pos ≤ length (accepted h) }
        ensures reply { reply_by (core_rules self.now) h seat.session (requests.Submit id.seq action.now) result ≡ reply_to_submit (core_rules self.now) h seat.session id.client id.seq action.now (Some (Accepted pos)) }
        ensures holds { DecisionHolds (core_rules self.now) h seat.session (requests.Submit id.seq action.now) result }
    {
        let seq = id.seq;
        if self.is_committed(pos) {
            Decision::Settle { seq, pos }
        } else {
            Decision::Relay { seq, pos }
        }
    }

    fn decide_new(&self, seat: Seat, client: u16, seq: u32, action: &Action) -> Decision
        ghost h: { List Entry }
        requires keeps { Keeps self.now h }
        requires client { client_of h seat.session ≡ Some client }
        ensures reply { reply_by (core_rules self.now) h seat.session (requests.Submit seq action.now) result ≡ reply_to_new (core_rules self.now) h seat.session client seq action.now }
        ensures holds { DecisionHolds (core_rules self.now) h seat.session (requests.Submit seq action.now) result }
    {
        let next = self.next_seq(client);
        if seq != next {
            return Decision::Refuse {
                refusal: Refusal::WrongSequence,
                detail: next,
            };
        }
        match check_action(self.shape(), action) {
            Err(cause) => Decision::Refuse {
                refusal: Refusal::BadAction,
                detail: u32::from(cause.code()),
            },
            Ok(()) => self.decide_good(seat, client, seq, action),
        }
    }

    /// An action that the check passes.
    fn decide_good(&self, seat: Seat, client: u16, seq: u32, action: &Action) -> Decision
        ghost h: { List Entry }
        requires keeps { Keeps self.now h }
        requires client { client_of h seat.session ≡ Some client }
        requires next { seq ≡ next_seq h client }
        requires good { IsGoodAction (core_rules self.now).world.shape action.now }
        requires fault { first_fault_of_action (core_rules self.now).world.shape action.now ≡ None }
        ensures reply { reply_by (core_rules self.now) h seat.session (requests.Submit seq action.now) result ≡ reply_to_good (core_rules self.now) h seat.session client seq action.now }
        ensures holds { DecisionHolds (core_rules self.now) h seat.session (requests.Submit seq action.now) result }
    {
        if self.is_full(seq) {
            return Decision::Refuse {
                refusal: Refusal::Full,
                detail: 0,
            };
        }
        match self.opened.forbidden(client, action) {
            Some(object) => Decision::Deny {
                client,
                seq,
                object,
            },
            None => self.decide_allowed(seat, client, seq, action),
        }
    }

    /// An action that its client may make.
    fn decide_allowed(&self, seat: Seat, client: u16, seq: u32, action: &Action) -> Decision
        ghost h: { List Entry }
        requires keeps { Keeps self.now h }
        requires client { client_of h seat.session ≡ Some client }
        requires next { seq ≡ next_seq h client }
        requires room { is_full (core_rules self.now) h seq ≡ false }
        requires good { IsGoodAction (core_rules self.now).world.shape action.now }
        requires fault { first_fault_of_action (core_rules self.now).world.shape action.now ≡ None }
        ensures reply { reply_by (core_rules self.now) h seat.session (requests.Submit seq action.now) result ≡ reply_to_allowed (core_rules self.now) h seat.session seq action.now }
        ensures holds { DecisionHolds (core_rules self.now) h seat.session (requests.Submit seq action.now) result }
    {
        let found = self.chain_of(action);
        if self.opened.is_dropped(found.count, found.far) {
            Decision::Drop {
                client,
                seq,
                chain: found.count,
                far: found.far,
            }
        } else {
            Decision::Accept { client, seq }
        }
    }

    fn decide_done(&self, seat: Seat, results: &List<Done1>) -> Decision
        ghost h: { List Entry }
        requires keeps { Keeps self.now h }
        requires seat { SitsAt self.now seat }
        ensures reply { reply_by (core_rules self.now) h seat.session (requests.Done results.now) result ≡ reply_to_done (core_rules self.now) h seat.session results.now }
        ensures holds { DecisionHolds (core_rules self.now) h seat.session (requests.Done results.now) result }
    {
        if self.is_bad_done(seat, results.as_slice()) {
            Decision::Refuse {
                refusal: Refusal::BadResults,
                detail: 0,
            }
        } else {
            Decision::Note
        }
    }

    fn decide_poll(&self, seat: Seat, client: u16) -> Decision
        ghost h: { List Entry }
        requires keeps { Keeps self.now h }
        requires client { client_of h seat.session ≡ Some client }
        ensures reply { reply_by (core_rules self.now) h seat.session requests.Poll result ≡ reply_to_poll (core_rules self.now) h seat.session (orphans h) }
        ensures holds { DecisionHolds (core_rules self.now) h seat.session requests.Poll result }
    {
        match self.orphan() {
            Some(pos) => Decision::Relay { seq: 0, pos },
            None => Decision::Idle,
        }
    }

    /// Whether a Poll of a session is not refused. Then it is sent the first of the abandoned positions, where there is one.
    pub fn may_poll(&self, seat: Seat) -> bool
        ghost h: { List Entry }
        requires keeps { Keeps self.now h }
        requires seat { SitsAt self.now seat }
        ensures { IsTrue result → reply_to_request (core_rules self.now) h seat.session requests.Poll ≡ reply_to_poll (core_rules self.now) h seat.session (orphans h) }
    {
        !self.is_over(seat) && self.has_more(seat) && self.client_of(seat).is_some()
    }

    #[inline(never)]
    fn decide_observe(&self, seat: Seat, objects: &List<ObjectId>, wait: u16) -> Decision
        ghost h: { List Entry }
        requires keeps { Keeps self.now h }
        requires seat { SitsAt self.now seat }
        ensures reply { reply_by (core_rules self.now) h seat.session (requests.Observe objects.now wait) result ≡ reply_to_observe (core_rules self.now) h seat.session (numbers_of objects.now) }
        ensures holds { DecisionHolds (core_rules self.now) h seat.session (requests.Observe objects.now wait) result }
    {
        let shape = self.shape();
        if may_be_observed(shape.objects, objects.as_slice()) {
            Decision::See
        } else {
            Decision::Refuse {
                refusal: Refusal::BadInterest,
                detail: 0,
            }
        }
    }
}

/// Whether an interest has few enough objects, of so many, ascending.
fn is_good_interest(objects: u16, interest: &[ObjectId]) -> bool
    ensures { result ≡ is_good_interest objects (map (λ (o : ObjectId). o.0) interest.now) }
{
    interest.len() <= MOST_INTEREST && is_ascending(interest) && are_below(objects, interest)
}
