//! What a steward's session is sent.
ghost use Rattle.std.specs.Prelude.{◌≡◌, ℕ, List, ◌<◌, ◌≤◌, [], ◌∷◌, length, MatchOption};
ghost use Rattle.sv_journal.specs.declared.entry.Entry.{Entry};
ghost use Rattle.sv_journal.specs.History.{accepted, commit_of};
ghost use Rattle.sv_journal.specs.Living.{unreported};
ghost use Rattle.sv_core.specs.Cores.{SitsAt, Keeps};
ghost use Rattle.sv_living.specs.Deciding.{is_unreported, first_relay};

use sv_core::{Core, Decision, Seat};

/// The lowest position above the commit that has no result and was not sent to a session.
fn first_unreported(core: &Core, seat: Seat) -> Option<u32>
    ghost h: { List Entry }
    requires keeps { Keeps core.now h }
    requires seat { SitsAt core.now seat }
    ensures { MatchOption result (unreported h seat.session ≡ []) (λ p. (rest : List ℕ) × (unreported h seat.session ≡ p ∷ rest)) }
{
    for before in core.commit()..core.last() {
        let pos = before + 1;
        if is_unreported(core, seat, pos) {
            return Some(pos);
        }
    }
    None
}

fn is_unreported(core: &Core, seat: Seat, pos: u32) -> bool
    ghost h: { List Entry }
    requires keeps { Keeps core.now h }
    requires seat { SitsAt core.now seat }
    requires low { commit_of h < pos }
    requires high { pos ≤ length (accepted h) }
    ensures { result ≡ is_unreported h seat.session pos }
{
    core.is_missing(pos) && !core.was_sent(pos, seat)
}

/// A Poll of the steward is sent the lowest such position.
#[inline(never)]
pub(crate) fn due_decision(core: &Core, seat: Seat) -> Decision
    ghost h: { List Entry }
    requires keeps { Keeps core.now h }
    requires seat { SitsAt core.now seat }
    ensures { result ≡ first_relay (unreported h seat.session) }
{
    match first_unreported(core, seat) {
        Some(pos) => Decision::Relay { seq: 0, pos },
        None => Decision::Idle,
    }
}
