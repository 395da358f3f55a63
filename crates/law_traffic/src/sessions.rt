//! Laws of one session.
ghost use Rattle.law_traffic.specs.Laws.{SessionTrafficIsRecorded, DoneSessionsFit, DoneSessionsHaveOneEnd};

use sv_journal::{full_replies_stay, legal_relays_name_accepted};

/// The bytes that the two ends of a session moved are those of the requests that its client asked and of the replies that the journal has,
/// as far as they went, and the journal fits the client's trace there, however the bytes were cut and whenever the session stopped.
///
/// What is asked is what the session's loop and its player promise, that the two ends matched, and that the replies can be sent.
pub fn session_traffic_is_recorded()
    ensures traffic { SessionTrafficIsRecorded }
    ensures fits { DoneSessionsFit }
    ensures ends { DoneSessionsHaveOneEnd }
{
    full_replies_stay();
    legal_relays_name_accepted();
}
