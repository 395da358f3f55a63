//! Disputes, ascending by position.
ghost use Rattle.std.specs.Prelude.{◌≡◌, ◌+◌, ◌<◌, ◌≤◌, length, insert, slice_index_or, vec_len, vec_capacity, MatchOption};
ghost use Rattle.sv_witness.specs.declared.report.Dispute.{Dispute};
ghost use Rattle.sv_witness.specs.Disputes.{with_dispute, with_disputes};

use crate::report::Dispute;

/// The place of a dispute among others; none where there is one about its position.
fn place_of(disputes: &[Dispute], dispute: &Dispute) -> Option<usize>
    ensures { MatchOption result (with_dispute dispute.now disputes.now ≡ disputes.now)
        (λ place. (place ≤ length disputes.now) × (insert disputes.now place dispute.now ≡ with_dispute dispute.now disputes.now)) }
{
    for place in 0..disputes.len() {
        let pos = pos_at(disputes, place);
        if pos == dispute.pos {
            return None;
        }
        if pos > dispute.pos {
            return Some(place);
        }
    }
    Some(disputes.len())
}

fn pos_at(disputes: &[Dispute], place: usize) -> u32
    requires { place < length disputes.now }
    ensures { (d : Dispute) → result ≡ (slice_index_or disputes.now place d).pos }
{
    disputes[place].pos
}

/// Enters a dispute. It takes no memory.
fn enter(disputes: &mut Vec<Dispute>, dispute: Dispute)
    requires { vec_len disputes.old < vec_capacity disputes.old }
    ensures items { disputes.new.items ≡ with_dispute dispute disputes.old.items }
    ensures len { vec_len disputes.new ≤ vec_len disputes.old + 1 }
    ensures capacity { vec_capacity disputes.old ≤ vec_capacity disputes.new }
{
    match place_of(disputes, &dispute) {
        Some(place) => {
            if disputes.insert(place, dispute).is_err() {
                unreachable!();
            }
        }
        None => drop(dispute),
    }
}

/// Enters more disputes, for which there is room. It takes no memory.
pub fn enter_all(disputes: &mut Vec<Dispute>, new: Vec<Dispute>)
    requires { vec_len disputes.old + length new.items ≤ vec_capacity disputes.old }
    ensures { disputes.new.items ≡ with_disputes new.items disputes.old.items }
{
    let mut left = new.into_iter();
    while let Some(dispute) = left.next() {
        enter(disputes, dispute);
    }
}
