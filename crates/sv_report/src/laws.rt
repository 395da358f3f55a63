//! A law of a record: which of its actions were dropped.
ghost use Rattle.sv_report.specs.Laws.{DropsAreOutcomes};

/// The new Submits that the summary counts as dropped are the dropped outcomes of all clients, as the journal's definitions have them.
pub fn drops_are_outcomes()
    ensures { DropsAreOutcomes }
{}
