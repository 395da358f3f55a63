//! All values, and the committed world, are those of the serial execution.
ghost use Rattle.std.specs.Prelude.{◌≡◌, List, length};
ghost use Rattle.sv_eval.specs.Serial.{serial_world};
ghost use Rattle.sv_journal.specs.declared.entry.Entry.{Entry};
ghost use Rattle.sv_journal.specs.History.{actions_of, commit_of, committed_of};
ghost use Rattle.sv_journal.specs.Answer.{Rules, Legal};
ghost use Rattle.sv_client.specs.declared.trace.Trace.{Trace};
ghost use Rattle.law_system.specs.Fits.{Fits};
ghost use Rattle.law_system.specs.Laws.{ReplicasAreSerial};
ghost use Rattle.law_system.specs.Serial.{RelaysAreSufficient};
ghost use Rattle.law_system.specs.Cuts.{SeenAreCuts};

/// Replicas equal serial execution: where a journal is legal and clients' traces fit it, each value that a client holds, and each value that
/// the journal prints at a position, is that of the serial execution, each relay that a client got brought what its items read, and the objects that
/// a client observed were seen as the serial execution has them at one position.
///
/// `r` are the rules that the server was opened with, `h` are the journal's entries with the latest first, and `Ls` the traces of its clients.
pub fn replicas_equal_serial_execution()
    ensures values { ReplicasAreSerial }
    ensures relays { (r : Rules) (h : List Entry) (Ls : List Trace) → length r.world.values ≡ r.world.shape.objects → Legal r h →
        Fits r.world.shape h Ls → RelaysAreSufficient h Ls }
    ensures seen { (r : Rules) (h : List Entry) (Ls : List Trace) → length r.world.values ≡ r.world.shape.objects → Legal r h →
        Fits r.world.shape h Ls → SeenAreCuts r.world.shape r.world.values h Ls }
{}

/// The committed world is serial: where a journal is legal and clients' traces fit it, the values of all objects at the commit are those that
/// the accepted actions up to the commit give, one after the other on one whole world.
///
/// `r`, `h` and `Ls` are as above.
pub fn committed_world_is_serial()
    ensures world { (r : Rules) (h : List Entry) (Ls : List Trace) → length r.world.values ≡ r.world.shape.objects → Legal r h →
        Fits r.world.shape h Ls → committed_of r.world.values h ≡ serial_world r.world.values (actions_of h) (commit_of h) }
{}
