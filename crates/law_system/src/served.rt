//! Laws of the journals of any server that goes by some of the results that it is told, as one that wants each result from two clients does.
//! A server that goes by all of them, and whose clients are all honest, is the case of the other laws of this crate.
ghost use Rattle.std.specs.Prelude.{◌≡◌, ◌<◌, ◌≤◌, ℕ, ℤ, true, List, All, length, reverse, slice_get, None, Some, [], ◌∷◌, ◌++◌};
ghost use Rattle.sv_world.specs.Faults.{IsGoodAction};
ghost use Rattle.sv_world.specs.Limits.{most_bound, most_positions};
ghost use Rattle.sv_eval.specs.Serial.{serial_world};
ghost use Rattle.sv_wire.specs.declared.message.Done1.{Done1};
ghost use Rattle.sv_wire.specs.declared.message.ObjectValue.{ObjectValue};
ghost use Rattle.sv_wire.specs.declared.message.Item.{Item};
ghost use Rattle.sv_wire.specs.declared.message.Reply.{Reply};
ghost use Rattle.sv_wire.specs.declared.message.Reply.TheVariants.{Relay};
ghost use Rattle.sv_wire.specs.declared.message.Request.TheVariants.{Done};
ghost use Rattle.sv_journal.specs.declared.entry.Entry.{Entry};
ghost use Rattle.sv_journal.specs.History.{Authored, accepted, actions_of, commit_of, committed_of};
ghost use Rattle.sv_journal.specs.Answer.{Rules};
ghost use Rattle.sv_journal.specs.Serving.{Keeping, LegalFor, IsKeeping};
ghost use Rattle.sv_client.specs.declared.trace.Trace.{Trace};
ghost use Rattle.sv_client.specs.Traces.{current_session, held_of, got};
ghost use Rattle.sv_client.specs.Taking.{first_fault_of_reply};
ghost use Rattle.sv_client.specs.Proper.{identity_of};
ghost use Rattle.sv_script.specs.Following.{is_finished};
ghost use Rattle.law_system.specs.Fits.{replies_in, has_session, FitsOne, Fits};
ghost use Rattle.law_system.specs.Served.{FitsBut, no_client, OwnsSessions, FitsButValues};
ghost use Rattle.law_system.specs.Outcomes.{HaveRightOutcomesFor, HasOutcomes};
ghost use Rattle.law_system.specs.Within.{KeepsLimits};
ghost use Rattle.law_system.specs.Serial.{AreSerial, AreSufficient, reply_held};
ghost use Rattle.law_system.specs.Cuts.{AreCuts};
ghost use Rattle.law_system.specs.Delivery.{AreLawful};
ghost use Rattle.law_system.specs.Journals.{deliveries_of, IsSerialResult, ResultsAreSerial};

/// The welcomes and relays of a journal, and what is seen, are lawful deliveries of good actions, where the results that its server goes by are
/// those of the serial execution.
///
/// `k` says which results the server goes by, `r` are the rules that it was opened with, and `h` are the journal's entries with the latest
/// first. Nothing is asked of its clients.
pub fn served_journals_make_lawful_deliveries()
    ensures lawful { (k : Keeping) (r : Rules) (h : List Entry) → IsKeeping k → LegalFor k r h → ResultsAreSerial r.world.values (actions_of h) (k.kept h) →
        AreLawful r.world.shape.objects r.world.values (actions_of h) (deliveries_of h) }
    ensures good { (k : Keeping) (r : Rules) (h : List Entry) → IsKeeping k → LegalFor k r h → All (λ (a : Authored). IsGoodAction r.world.shape a.action) (accepted h) }
{}

/// Honest clients report serial results, whatever the other clients do: a Done of an honest client's session reports, of each position, the
/// values that the serial execution gives there, where all results that its server went by until then are those of the serial execution.
///
/// `k`, `r` and `h` are as above; the journal went on with `e` and then with `later`; and `L` is the client's trace, which fits the whole
/// journal. So a server that goes by a result only where an honest client reports it goes by serial results alone, by induction.
pub fn honest_reports_are_serial()
    ensures { (k : Keeping) (r : Rules) (later : List Entry) (e : Entry) (h : List Entry) (L : Trace) (results : List Done1) → IsKeeping k →
        length r.world.values ≡ r.world.shape.objects → LegalFor k r (later ++ e ∷ h) → FitsOne r.world.shape (later ++ e ∷ h) L →
        ResultsAreSerial r.world.values (actions_of (later ++ e ∷ h)) (k.kept h) → has_session L e.session ≡ true → e.request ≡ Done results →
        All (IsSerialResult r.world.values (actions_of (later ++ e ∷ h))) results }
{}

/// Where the results that a server goes by are those of the serial execution, so are its committed world and each value that it sends; and
/// each client whose trace fits its journal, but for the values that it reports, holds serial values alone, got what its items read with each
/// relay, and saw the objects that it observed as the serial execution has them at one position.
///
/// `k`, `r` and `h` are as above, and `L` is the client's trace.
pub fn served_values_are_serial()
    ensures world { (k : Keeping) (r : Rules) (h : List Entry) → IsKeeping k → length r.world.values ≡ r.world.shape.objects → LegalFor k r h →
        ResultsAreSerial r.world.values (actions_of h) (k.kept h) →
        committed_of r.world.values (k.kept h) ≡ serial_world r.world.values (actions_of h) (commit_of (k.kept h)) }
    ensures heads { (k : Keeping) (r : Rules) (h : List Entry) → IsKeeping k → length r.world.values ≡ r.world.shape.objects → LegalFor k r h →
        ResultsAreSerial r.world.values (actions_of h) (k.kept h) → All (λ (e : Entry). AreSerial r.world.values (actions_of h) (reply_held e.reply)) h }
    ensures held { (k : Keeping) (r : Rules) (h : List Entry) (L : Trace) → IsKeeping k → length r.world.values ≡ r.world.shape.objects → LegalFor k r h →
        ResultsAreSerial r.world.values (actions_of h) (k.kept h) → FitsButValues r.world.shape h L →
        AreSerial r.world.values (actions_of h) (held_of (reverse L.events)) }
    ensures relays { (k : Keeping) (r : Rules) (h : List Entry) (L : Trace) → IsKeeping k → length r.world.values ≡ r.world.shape.objects → LegalFor k r h →
        ResultsAreSerial r.world.values (actions_of h) (k.kept h) → FitsButValues r.world.shape h L → AreSufficient (actions_of h) (reverse L.events) }
    ensures seen { (k : Keeping) (r : Rules) (h : List Entry) (L : Trace) → IsKeeping k → length r.world.values ≡ r.world.shape.objects → LegalFor k r h →
        ResultsAreSerial r.world.values (actions_of h) (k.kept h) → FitsButValues r.world.shape h L →
        AreCuts r.world.values (actions_of h) (identity_of r.world.shape L) (reverse L.events) }
{}

/// Clients are never refused, where the results that their server goes by are those of the serial execution: the next reply of the session
/// that a client began last has none of the faults for which a client refuses a reply, and a relay has items. It is enough that the client's
/// trace fits the journal but for the values that it reports, and has each session that was joined as the client; where all clients but one
/// are honest, each honest one's is such a trace; and where all clients are honest, the one is a client that there is not.
///
/// `k`, `r` and `h` are as above, `L` is the client's trace, which keeps the limits of the rules in the session `s`, and a position is left.
pub fn served_clients_are_never_refused()
    ensures faults { (k : Keeping) (r : Rules) (h : List Entry) (L : Trace) (s : ℕ) (reply : Reply) → IsKeeping k →
        length r.world.values ≡ r.world.shape.objects → All (λ (v : List ℤ). length v ≡ r.world.shape.attrs) r.world.values → r.bound ≤ most_bound →
        r.positions ≤ most_positions → length (accepted h) < r.positions → LegalFor k r h → ResultsAreSerial r.world.values (actions_of h) (k.kept h) → FitsButValues r.world.shape h L → OwnsSessions h L →
        current_session (reverse L.events) ≡ Some s → KeepsLimits r h L s →
        slice_get (replies_in (accepted h) h s) (length (got (reverse L.events) s)) ≡ Some reply →
        first_fault_of_reply (identity_of r.world.shape L) (reverse L.events) reply ≡ None }
    ensures items { (k : Keeping) (r : Rules) (h : List Entry) (L : Trace) (s seq commit : ℕ) (head : List ObjectValue) (items : List Item) → IsKeeping k →
        LegalFor k r h → FitsButValues r.world.shape h L → OwnsSessions h L →
        current_session (reverse L.events) ≡ Some s → KeepsLimits r h L s →
        slice_get (replies_in (accepted h) h s) (length (got (reverse L.events) s)) ≡ Some (Relay seq commit head items) → items ≡ [] → ⊥ }
    ensures honest { (liar : ℕ) (r : Rules) (h : List Entry) (Ls : List Trace) (i : ℕ) (L : Trace) → FitsBut liar r.world.shape h Ls →
        slice_get Ls i ≡ Some L → FitsButValues r.world.shape h L }
    ensures sessions { (liar : ℕ) (r : Rules) (h : List Entry) (Ls : List Trace) (i : ℕ) (L : Trace) → FitsBut liar r.world.shape h Ls →
        slice_get Ls i ≡ Some L → OwnsSessions h L }
    ensures all { (r : Rules) (h : List Entry) (Ls : List Trace) → Fits r.world.shape h Ls → FitsBut no_client r.world.shape h Ls }
{}

/// What comes of actions, whatever results a server goes by: each new action is denied, dropped or accepted for its reason, as for a server that
/// goes by all of them, where the commit is that of the results that it goes by; and a client that did all and left has one outcome for each of
/// its actions.
///
/// `k`, `r` and `h` are as above, and `L` is the client's trace. No action is accepted twice in any journal.
pub fn served_actions_have_outcomes()
    ensures judged { (k : Keeping) (r : Rules) (h : List Entry) → IsKeeping k → LegalFor k r h → HaveRightOutcomesFor k r h }
    ensures each { (k : Keeping) (r : Rules) (h : List Entry) (L : Trace) → IsKeeping k → LegalFor k r h → FitsButValues r.world.shape h L → OwnsSessions h L →
        is_finished (reverse L.events) ≡ true → HasOutcomes h L }
{}
