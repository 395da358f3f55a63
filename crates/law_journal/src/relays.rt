//! Laws of relays: which numbers they tell, and what they bring.
ghost use Rattle.law_journal.specs.Brought.{LegalRelaysBringWhatIsAsked, LegalRelaysHaveItems, LegalSessionsInOrderGetItems};
ghost use Rattle.law_journal.specs.Brought.{ServedRelaysBringWhatIsAsked, ServedRelaysHaveItems, ServedSessionsInOrderGetItems, TakenRelaysHaveItems};
ghost use Rattle.law_journal.specs.Numbered.{LegalRelaysOfZeroAnswerPolls, ServedRelaysOfZeroAnswerPolls, ServedRelaysTellTheirNumbers, TakenRelaysOfZeroAnswerPolls};

use sv_journal::{legal_journals_are_plain, served_relays_name_accepted};
use sv_world::{missing_influences_are_the_least_set, missing_influences_ascend};

/// A relay tells the number 0 just where it answers a Poll, and else that of the Submit that it answers.
///
/// So it is in every legal journal, in that of a server that goes by some of the results that it is told, and of each reply that a client took,
/// whoever sent it.
pub fn relays_of_zero_answer_polls()
    ensures legal { LegalRelaysOfZeroAnswerPolls }
    ensures served { ServedRelaysOfZeroAnswerPolls }
    ensures numbers { ServedRelaysTellTheirNumbers }
    ensures taken { TakenRelaysOfZeroAnswerPolls }
{
    legal_journals_are_plain();
}

/// A relay ends with what was asked: the action of its Submit, or the first position that is due to the session that polls; and it is empty just
/// where it answers a Submit whose action was sent to the session before. What an Observe sees has, with what was sent before, the last writers
/// of its objects at one position.
///
/// So each relay to a session that asks for no such action has items. And no client took one that has none.
pub fn relays_bring_what_is_asked()
    ensures legal { LegalRelaysBringWhatIsAsked }
    ensures served { ServedRelaysBringWhatIsAsked }
    ensures legal_items { LegalRelaysHaveItems }
    ensures served_items { ServedRelaysHaveItems }
    ensures taken_items { TakenRelaysHaveItems }
{
    missing_influences_are_the_least_set();
    missing_influences_ascend();
    legal_journals_are_plain();
    served_relays_name_accepted();
}

/// A session that asks in order is never sent an empty relay: each of its Submits has its client's next number, or repeats one before the session
/// polled or observed, and after Submits of lower numbers alone.
pub fn sessions_in_order_get_items()
    ensures legal { LegalSessionsInOrderGetItems }
    ensures served { ServedSessionsInOrderGetItems }
{
    missing_influences_are_the_least_set();
    missing_influences_ascend();
    legal_journals_are_plain();
    served_relays_name_accepted();
}
