//! Laws of journals.
ghost use Rattle.sv_journal.specs.Examples.{ExamplesAreAnswered};
ghost use Rattle.sv_journal.specs.Laws.{FullRepliesStay, LegalActionsAreGood, LegalActionsAreRightful, LegalCountsEnd, LegalRelaysAreSmall, LegalRelaysNameAccepted, LegalRepliesAreMessages, LegalSentIsClosed};
ghost use Rattle.sv_journal.specs.Laws.{LivingIsServed, PlainIsLegal, ServedActionsAreGood, ServedActionsAreRightful, ServedCountsEnd, ServedRelaysAreSmall, ServedRelaysNameAccepted, ServedRepliesAreMessages, ServedSentIsClosed};

use sv_world::{
    base_values_are_those_read_as_committed, good_actions_have_no_fault, missing_influences_ascend,
    missing_influences_only_shrink,
};

/// The definition of the server's replies gives those of the worked examples.
pub fn examples_are_answered()
    ensures { ExamplesAreAnswered }
{}

/// A whole reply over a beginning of a journal is the whole reply over all of it, where it names positions of the beginning.
pub fn full_replies_stay()
    ensures { FullRepliesStay }
{}

/// Each position that a reply of a legal journal names is that of an action that was accepted, so the journal can be printed.
pub fn legal_relays_name_accepted()
    ensures { LegalRelaysNameAccepted }
{
    missing_influences_ascend();
}

/// A relay of a legal journal has at most one item more than the bound on chains, and what is seen has at most 33.
pub fn legal_relays_are_small()
    ensures { LegalRelaysAreSmall }
{
    missing_influences_only_shrink();
}

/// No accepted action of a legal journal is one that its shape refuses.
pub fn legal_actions_are_good()
    ensures { LegalActionsAreGood }
{}

/// Every reply of a legal journal, with the items that it was sent with, is within the grammar of messages, whatever the clients ask. The
/// rules are to be within the limits; how large a number of a reply may be is not part of the grammar.
pub fn legal_replies_are_messages()
    ensures { LegalRepliesAreMessages }
{
    missing_influences_ascend();
    missing_influences_only_shrink();
    base_values_are_those_read_as_committed();
    good_actions_have_no_fault();
}

/// A server that trusts its clients is one of those that the laws below speak of: it has a keeping, and the journals that are legal for this
/// are the legal ones.
pub fn legal_journals_are_plain()
    ensures { PlainIsLegal }
{}

/// A living world's server is one of those that the laws below speak of too, whatever its stewardship. Where it has no steward, and every
/// client's reports count, it is one that trusts its clients.
pub fn living_worlds_are_served()
    ensures { LivingIsServed }
{}

/// Every accepted action writes only what its author may write, for a server that trusts its clients, and whatever results a server keeps.
pub fn accepted_actions_are_rightful()
    ensures legal { LegalActionsAreRightful }
    ensures served { ServedActionsAreRightful }
{}

/// No more actions are accepted than there are positions, and no client has more outcomes than an action has numbers.
pub fn counts_have_an_end()
    ensures legal { LegalCountsEnd }
    ensures served { ServedCountsEnd }
{}

/// Whatever results a server keeps, its replies name accepted actions alone.
pub fn served_relays_name_accepted()
    ensures { ServedRelaysNameAccepted }
{
    missing_influences_ascend();
}

/// Whatever results a server keeps, its relays have at most one item more than the bound on chains, and what is seen has at most 33.
pub fn served_relays_are_small()
    ensures { ServedRelaysAreSmall }
{
    missing_influences_only_shrink();
}

/// Whatever results a server keeps, it accepts no action that its shape refuses.
pub fn served_actions_are_good()
    ensures { ServedActionsAreGood }
{}

/// Whatever results a server keeps, each of its replies, with the items that it was sent with, is within the grammar of messages.
pub fn served_replies_are_messages()
    ensures { ServedRepliesAreMessages }
{
    missing_influences_ascend();
    missing_influences_only_shrink();
    base_values_are_those_read_as_committed();
    good_actions_have_no_fault();
}

/// What was sent to a session is closed: with each position, each position above the commit that its action reads from was sent too. So it
/// is for a server that trusts its clients, and whatever results a server keeps.
pub fn sent_positions_are_closed()
    ensures legal { LegalSentIsClosed }
    ensures served { ServedSentIsClosed }
{
    missing_influences_ascend();
}
