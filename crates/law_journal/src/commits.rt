//! Laws of the commit, and of journals that go on. They hold of every list of entries, legal or not.
ghost use Rattle.law_journal.specs.Committed.{CommitIsTheGreatest, JournalsKeepWhatTheyHave, NextHasNoResult};

/// The commit is the greatest position up to which each action was accepted and has a result; and where more actions were accepted, the next
/// one has none.
pub fn commit_is_the_greatest()
    ensures greatest { CommitIsTheGreatest }
    ensures next { NextHasNoResult }
{}

/// As a journal goes on, each accepted action keeps its position, each result stays the one that was reported first, the commit does not fall,
/// and the values at each position up to it stay.
pub fn journals_keep_what_they_have()
    ensures { JournalsKeepWhatTheyHave }
{}
