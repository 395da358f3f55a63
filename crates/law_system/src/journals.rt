//! Legal journals make lawful deliveries.
ghost use Rattle.std.specs.Prelude.{◌≡◌, List, All};
ghost use Rattle.sv_world.specs.Faults.{IsGoodAction};
ghost use Rattle.sv_journal.specs.declared.entry.Entry.{Entry};
ghost use Rattle.sv_journal.specs.History.{Authored, accepted, actions_of};
ghost use Rattle.sv_journal.specs.Answer.{Rules, Legal};
ghost use Rattle.law_system.specs.Delivery.{AreLawful};
ghost use Rattle.law_system.specs.Journals.{deliveries_of, ResultsAreSerial};

/// The welcomes and relays of a legal journal, and what is seen, are lawful deliveries of good actions, where the results that it notes are
/// those of the serial execution.
///
/// `r` are the rules that the server was opened with, and `h` are the journal's entries with the latest first. A server that keeps a
/// legal journal so sends each session just what it lacks, whatever its clients ask; only a client that reports a wrong result can make
/// the values of its heads wrong.
pub fn legal_journals_make_lawful_deliveries()
    ensures lawful { (r : Rules) (h : List Entry) → Legal r h → ResultsAreSerial r.world.values (actions_of h) h →
        AreLawful r.world.shape.objects r.world.values (actions_of h) (deliveries_of h) }
    ensures good { (r : Rules) (h : List Entry) → Legal r h → All (λ (a : Authored). IsGoodAction r.world.shape a.action) (accepted h) }
{}
