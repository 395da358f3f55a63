//! What a living world's core goes by of a request.
ghost use Rattle.std.specs.Prelude.{◌≡◌, ◌&&◌, not, List};
ghost use Rattle.sv_wire.specs.declared.message.Request.TheVariants as requests;
ghost use Rattle.sv_journal.specs.declared.entry.Entry.{Entry};
ghost use Rattle.sv_journal.specs.Serving.{is_poll};
ghost use Rattle.sv_journal.specs.Living.{is_stewards, counts, heeded};
ghost use Rattle.sv_core.specs.Cores.{SitsAt, Keeps};
ghost use Rattle.sv_living.specs.Deciding.{answers_poll, is_report};
ghost use Rattle.sv_living.specs.Keeping.{Course, stewardship_of};

use crate::stewards::Stewards;
use sv_core::{Core, Decision, Seat};
use sv_wire::Request;

/// Whether a session was joined as the steward. `h` is the history of all entries.
#[tactic(auto, using(crate::proofs::Heeding::client_heeded))]
pub(crate) fn is_stewards(core: &Core, stewards: Stewards, seat: Seat) -> bool
    ghost h: { List Entry }
    requires keeps { Keeps core.now (heeded (stewardship_of stewards) h) }
    requires seat { SitsAt core.now seat }
    ensures { result ≡ is_stewards stewards.steward h seat.session }
{
    match (stewards.steward, core.client(seat)) {
        (Some(steward), Some(client)) => client == steward,
        _ => false,
    }
}

/// Whether a session's reports bring results.
pub(crate) fn counts(core: &Core, stewards: Stewards, seat: Seat) -> bool
    ghost h: { List Entry }
    requires keeps { Keeps core.now (heeded (stewardship_of stewards) h) }
    requires seat { SitsAt core.now seat }
    ensures { result ≡ counts (stewardship_of stewards) h seat.session }
{
    !stewards.authority || is_stewards(core, stewards, seat)
}

/// Whether a request reports results that do not count.
pub(crate) fn is_silent(core: &Core, stewards: Stewards, seat: Seat, request: &Request) -> bool
    ghost g: { Course }
    requires keeps { Keeps core.now (heeded g.w g.h) }
    requires stewards { g.w ≡ stewardship_of stewards }
    requires seat { SitsAt core.now seat }
    ensures { result ≡ (is_report request.now && not (counts g.w g.h seat.session)) }
{
    is_report(request) && !counts(core, stewards, seat)
}

fn is_report(request: &Request) -> bool
    ensures { result ≡ is_report request.now }
{
    match request {
        Request::Done { .. } => true,
        _ => false,
    }
}

pub(crate) fn is_poll(request: &Request) -> bool
    ensures { result ≡ is_poll request.now }
{
    match request {
        Request::Poll => true,
        _ => false,
    }
}

/// Whether the core decided how a Poll is answered that is not refused.
pub(crate) fn answers_poll(request: &Request, decision: Decision) -> bool
    ensures { result ≡ answers_poll request.now decision }
{
    match decision {
        Decision::Idle => true,
        Decision::Relay { .. } => is_poll(request),
        _ => false,
    }
}
