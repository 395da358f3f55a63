//! Laws of the positions at which sessions see objects.
ghost use Rattle.law_journal.specs.Cuts.{LegalCutsNeverGoBack, LegalOlderCutsHaveItems, ServedCutsNeverGoBack, ServedOlderCutsHaveItems};

use sv_journal::legal_journals_are_plain;
use sv_world::missing_influences_only_shrink;

/// A session never sees the same objects at a lower position than before.
pub fn what_is_seen_never_goes_back()
    ensures legal { LegalCutsNeverGoBack }
    ensures served { ServedCutsNeverGoBack }
{
    legal_journals_are_plain();
}

/// What is seen before the last position has an item, so a session that goes on to observe comes to the last one.
pub fn older_cuts_have_items()
    ensures legal { LegalOlderCutsHaveItems }
    ensures served { ServedOlderCutsHaveItems }
{
    missing_influences_only_shrink();
    legal_journals_are_plain();
}
