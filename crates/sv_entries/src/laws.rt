//! Laws of the lines of entries. Each is the contract of a function that does nothing.
ghost use Rattle.sv_entries.specs.Laws.{RepliesHaveOneText, EntriesHaveOneLine, CausesAreTold, CausesHaveNumbers, RepliesGoByFaults};

/// A reply as it was sent has the text that a journal has of it, and so its entry has one line.
pub fn replies_have_one_text()
    ensures replies { RepliesHaveOneText }
    ensures lines { EntriesHaveOneLine }
{}

/// Of each line's reply the cause is read that it tells: a cause where it is a refusal of an action, by the cause's number, and else none.
pub fn causes_are_told()
    ensures told { CausesAreTold }
    ensures numbers { CausesHaveNumbers }
{}

/// A living world answers Submits of refused actions by their first faults alone: each is refused for its own fault, or all get one reply.
pub fn replies_go_by_faults()
    ensures { RepliesGoByFaults }
{}
