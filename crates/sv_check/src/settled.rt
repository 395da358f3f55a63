//! Whether the journal has the first requests of a session.
ghost use Rattle.std.specs.Prelude.{◌≡◌, ◌<◌, true, false, length, reverse, get_or, slice_get, Some};
ghost use Rattle.sv_check.specs.Acting.{IsSettled};

use sv_journal::{Entry, is_end};
use sv_lines::same_request;
use sv_wire::Request;

/// Whether a request is the next one of those asked.
#[tactic(auto, using(crate::proofs::Settling::got_there, crate::proofs::Settling::there_got))]
fn is_next(request: &Request, asked: &[Request], next: usize) -> bool
    ensures right { result ≡ true → (next < length asked.now) × (request.now ≡ get_or asked.now next request.now) }
    ensures all { slice_get asked.now next ≡ Some request.now → result ≡ true }
{
    next < asked.len() && same_request(request, &asked[next])
}

/// Whether the requests of a session are the first of those asked, with at most one End after them, and nothing else.
#[tactic(auto, using(crate::proofs::Settling::begins, crate::proofs::Settling::passes, crate::proofs::Settling::ends, crate::proofs::Settling::asks, crate::proofs::Settling::turned_more))]
pub(crate) fn is_settled(entries: &[Entry], session: u16, asked: &[Request]) -> bool
    ensures settled { result ≡ true → IsSettled (reverse entries.now) asked.now session }
    ensures unsettled { result ≡ false → IsSettled (reverse entries.now) asked.now session → ⊥ }
{
    let mut next = 0;
    let mut ended = false;
    for entry in entries {
        if entry.session == session {
            if ended {
                return false;
            }
            if is_end(&entry.request) {
                ended = true;
            } else if is_next(&entry.request, asked, next) {
                next += 1;
            } else {
                return false;
            }
        }
    }
    true
}
