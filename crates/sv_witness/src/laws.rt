//! The laws of witnessed journals.
ghost use Rattle.std.specs.Prelude.{◌≡◌, ◌<◌, ◌≤◌, ℕ, ℤ, List, All, length, reverse, slice_get, None, Some, []};
ghost use Rattle.sv_world.specs.Control.{action_at};
ghost use Rattle.sv_world.specs.Limits.{most_bound, most_positions};
ghost use Rattle.sv_world.specs.Sets.{write_set};
ghost use Rattle.sv_wire.specs.declared.message.Reply.{Reply};
ghost use Rattle.sv_journal.specs.declared.entry.Entry.{Entry};
ghost use Rattle.sv_journal.specs.History.{client_of, outcomes_of, accepted, actions_of, result_at};
ghost use Rattle.sv_journal.specs.Sessions.{sent_to};
ghost use Rattle.sv_journal.specs.Answer.{Rules};
ghost use Rattle.sv_client.specs.declared.trace.Trace.{Trace};
ghost use Rattle.sv_client.specs.Traces.{current_session, got};
ghost use Rattle.sv_client.specs.Taking.{first_fault_of_reply};
ghost use Rattle.sv_client.specs.Proper.{identity_of};
ghost use Rattle.law_system.specs.Fits.{replies_in};
ghost use Rattle.sv_witness.specs.declared.report.Report.{Report};
ghost use Rattle.sv_witness.specs.Reports.{reports_of, agreed_history, agreed_result};
ghost use Rattle.sv_witness.specs.Agreement.{IsAmong, TwoAgree};
ghost use Rattle.sv_witness.specs.Disputes.{disputes_of, NamesClient};
ghost use Rattle.sv_witness.specs.Honesty.{IsReported, IsDisputed, AllGiveBut, NoneGiveNone};
ghost use Rattle.sv_witness.specs.Witnessed.{IsWitnessed};
ghost use Rattle.law_system.specs.Served.{FitsBut, no_client, OwnsSessions, FitsButValues};
ghost use Rattle.law_system.specs.Within.{KeepsLimits};
ghost use Rattle.sv_witness.specs.Tolerance.{IsTolerated, IsLiar};
ghost use Rattle.sv_witness.specs.Examples.{ExamplesAreWitnessed};

/// The history of what was agreed says what it should: in it a position has just the result that the reports of it
/// agree on, and two different clients gave that, unless the position's action writes nothing.
pub fn agreed_results_are_those_of_two_clients()
    ensures results { (h : List Entry) (p : ℕ) → result_at (agreed_history h) p ≡ agreed_result h p }
    ensures two { TwoAgree }
{}

/// Each report that counts is of a Done that was noted while the position was above the commit, in a session that had been joined as the
/// report's client.
pub fn reports_are_of_noted_dones()
    ensures { (h : List Entry) (p : ℕ) (r : Report) → IsAmong r (reports_of h p) → IsReported h p r }
{}

/// Each report that counts has a value for each object that the position's action writes. So its values are none just where the action writes
/// nothing.
pub fn reports_have_a_value_for_each_write()
    ensures { (r : Rules) (h : List Entry) (p : ℕ) (report : Report) → IsWitnessed r h → IsAmong report (reports_of h p) →
        length report.values ≡ length (write_set (action_at (actions_of h) p)) }
{}

/// Each dispute is of two reports of its position, which are of different clients and differ. So where all clients but one give the same
/// values of each position, each dispute names that one.
pub fn disputes_name_two_clients()
    ensures two { (h : List Entry) → All (IsDisputed h) (disputes_of h) }
    ensures liar { (liar : ℕ) (truth : ℕ → List (List ℤ)) (h : List Entry) → AllGiveBut liar truth h → All (NamesClient liar) (disputes_of h) }
{}

/// Where all clients but one give the same values of each position, these are what is agreed, whatever that one gives.
pub fn agreed_results_are_true()
    ensures { (liar : ℕ) (truth : ℕ → List (List ℤ)) (h : List Entry) → AllGiveBut liar truth h → NoneGiveNone truth h →
        (p : ℕ) (values : List (List ℤ)) → agreed_result h p ≡ Some values → values ≡ truth p }
{}

/// The history of what was agreed is that of the same sessions: it has the same accepted actions, the same outcomes of each client, and each
/// session has the same client and was sent the same positions.
pub fn agreed_histories_are_alike()
    ensures accepted { (h : List Entry) → accepted (agreed_history h) ≡ accepted h }
    ensures outcomes { (h : List Entry) (k : ℕ) → outcomes_of (agreed_history h) k ≡ outcomes_of h k }
    ensures clients { (h : List Entry) (s : ℕ) → client_of (agreed_history h) s ≡ client_of h s }
    ensures sent { (h : List Entry) (s : ℕ) → sent_to (agreed_history h) s ≡ sent_to h s }
{}

/// One lying client is tolerated: whatever one client reports, the committed world is the serial one, honest clients hold serial values alone,
/// each of their relays brings what its items read, what they see is one cut of the serial execution, and each dispute names the liar.
///
/// `r` are the rules that the server was opened with, `h` are the journal's entries with the latest first, and `Ls` the traces of the honest
/// clients. Nothing is promised of progress: where fewer than two clients report a position, its result is not installed.
pub fn one_lying_client_is_tolerated()
    ensures { (liar : ℕ) (r : Rules) (h : List Entry) (Ls : List Trace) → length r.world.values ≡ r.world.shape.objects → IsWitnessed r h →
        FitsBut liar r.world.shape h Ls → IsTolerated liar r h Ls }
{}

/// Where no client lies, there are no disputes: no two reports of a position differ.
pub fn honest_clients_have_no_disputes()
    ensures { (r : Rules) (h : List Entry) (Ls : List Trace) → length r.world.values ≡ r.world.shape.objects → r.clients ≤ no_client → IsWitnessed r h →
        FitsBut no_client r.world.shape h Ls → disputes_of h ≡ [] }
{}

/// Honest clients are never refused by a witnessing server, and no more is a client that differs from an honest one in the values of its Dones
/// alone: the next reply of the session that it began last has none of the faults for which a client refuses a reply, where the client keeps the
/// limits that the rules have for it, and a position is left. One that tells the lie of the program is such a client.
pub fn clients_of_a_witness_are_never_refused()
    ensures honest { (liar : ℕ) (r : Rules) (h : List Entry) (Ls : List Trace) (i : ℕ) (L : Trace) (s : ℕ) (reply : Reply) →
        length r.world.values ≡ r.world.shape.objects → All (λ (v : List ℤ). length v ≡ r.world.shape.attrs) r.world.values → r.bound ≤ most_bound →
        r.positions ≤ most_positions → length (accepted h) < r.positions → IsWitnessed r h → FitsBut liar r.world.shape h Ls → slice_get Ls i ≡ Some L →
        current_session (reverse L.events) ≡ Some s → KeepsLimits r h L s →
        slice_get (replies_in (accepted h) h s) (length (got (reverse L.events) s)) ≡ Some reply →
        first_fault_of_reply (identity_of r.world.shape L) (reverse L.events) reply ≡ None }
    ensures values { (r : Rules) (h : List Entry) (Ls : List Trace) (L : Trace) (s : ℕ) (reply : Reply) →
        length r.world.values ≡ r.world.shape.objects → All (λ (v : List ℤ). length v ≡ r.world.shape.attrs) r.world.values → r.bound ≤ most_bound →
        r.positions ≤ most_positions → length (accepted h) < r.positions → IsWitnessed r h → FitsBut L.client.0 r.world.shape h Ls → FitsButValues r.world.shape h L → OwnsSessions h L →
        current_session (reverse L.events) ≡ Some s → KeepsLimits r h L s →
        slice_get (replies_in (accepted h) h s) (length (got (reverse L.events) s)) ≡ Some reply →
        first_fault_of_reply (identity_of r.world.shape L) (reverse L.events) reply ≡ None }
    ensures lying { (r : Rules) (h : List Entry) (Ls : List Trace) (L : Trace) (s : ℕ) (reply : Reply) →
        length r.world.values ≡ r.world.shape.objects → All (λ (v : List ℤ). length v ≡ r.world.shape.attrs) r.world.values → r.bound ≤ most_bound →
        r.positions ≤ most_positions → length (accepted h) < r.positions → IsWitnessed r h → FitsBut L.client.0 r.world.shape h Ls → IsLiar r.world.shape h Ls L →
        current_session (reverse L.events) ≡ Some s → KeepsLimits r h L s →
        slice_get (replies_in (accepted h) h s) (length (got (reverse L.events) s)) ≡ Some reply →
        first_fault_of_reply (identity_of r.world.shape L) (reverse L.events) reply ≡ None }
{}

/// The worked examples are as they say.
pub fn witnessed_examples_hold()
    ensures { ExamplesAreWitnessed }
{}
