//! The laws of runs that the reading of a report rests on.
ghost use Rattle.sv_journal.specs.Laws.{FullRepliesStay, LegalRelaysNameAccepted};
ghost use Rattle.sv_script.specs.Laws.{StepsAreDoneInOrder};
ghost use Rattle.law_asked.specs.Asked.{AcceptedAreFew, RequestsAreMessages};

use law_asked::{accepted_are_few, requests_are_messages};
use sv_journal::{full_replies_stay, legal_relays_name_accepted};
use sv_script::steps_are_done_in_order;

/// All of these laws in one call.
pub(crate) fn laws_of_runs()
    ensures stay { FullRepliesStay }
    ensures named { LegalRelaysNameAccepted }
    ensures steps { StepsAreDoneInOrder }
    ensures few { AcceptedAreFew }
    ensures messages { RequestsAreMessages }
{
    full_replies_stay();
    legal_relays_name_accepted();
    steps_are_done_in_order();
    accepted_are_few();
    requests_are_messages();
}
