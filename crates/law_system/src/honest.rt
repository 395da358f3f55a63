//! Honest clients are never refused.
ghost use Rattle.std.specs.Prelude.{◌≡◌, ◌≤◌, ℕ, List, length, reverse, slice_get, Option, Some, []};
ghost use Rattle.sv_world.specs.declared.world.Shape.{Shape};
ghost use Rattle.sv_world.specs.declared.world.World.{World};
ghost use Rattle.sv_world.specs.Limits.{most_requests};
ghost use Rattle.sv_wire.specs.declared.message.ObjectValue.{ObjectValue};
ghost use Rattle.sv_wire.specs.declared.message.Item.{Item};
ghost use Rattle.sv_wire.specs.declared.message.Reply.TheVariants.{Relay};
ghost use Rattle.sv_journal.specs.declared.entry.Entry.{Entry};
ghost use Rattle.sv_journal.specs.History.{accepted};
ghost use Rattle.sv_journal.specs.Answer.{Rules, scenario_rules, Legal};
ghost use Rattle.sv_client.specs.declared.trace.Trace.{Trace};
ghost use Rattle.sv_client.specs.Traces.{current_session, requests_of, got};
ghost use Rattle.sv_client.specs.Proper.{Proper};
ghost use Rattle.sv_client.specs.Seen.{ClientView};
ghost use Rattle.law_system.specs.Clients.{IsClientTrace, trace_in, IsNumberedIn};
ghost use Rattle.law_system.specs.Fits.{replies_in, Fits};
ghost use Rattle.law_system.specs.Laws.{NeverRefused, NeverRefusedInScenarios};
ghost use Rattle.law_system.specs.Within.{KeepsLimits};

/// Honest clients are never refused: the next reply of the session that a client began last has none of the faults for which a client
/// refuses a reply, and a relay has items.
///
/// So it answers a request of the session, is no refusal and of a kind that the request may have, comes in order, has good items, is for
/// the action that it answers, and brings each value that its items read, or that it shows. `r` are the rules that the server was opened
/// with, `h` are the journal's entries with the latest first, `L` is one of the traces `Ls` of its clients, which keeps the limits of the rules in
/// its session `s`, and a position is left. With a scenario's rules a client keeps them where it asks at most 1,024 requests in the session.
pub fn honest_clients_are_never_refused()
    ensures faults { NeverRefused }
    ensures items { (r : Rules) (h : List Entry) (Ls : List Trace) (i : ℕ) (L : Trace) (s seq commit : ℕ) (head : List ObjectValue) (items : List Item) →
        Legal r h → Fits r.world.shape h Ls → slice_get Ls i ≡ Some L →
        current_session (reverse L.events) ≡ Some s → KeepsLimits r h L s →
        slice_get (replies_in (accepted h) h s) (length (got (reverse L.events) s)) ≡ Some (Relay seq commit head items) → items ≡ [] → ⊥ }
    ensures scenarios { NeverRefusedInScenarios }
    ensures limits { (world : World) (bound : ℕ) (reach : Option ℕ) (sessions : ℕ) (shape : Shape) (h : List Entry) (L : Trace) (s : ℕ) → Proper shape L →
        length (requests_of L s) ≤ most_requests → KeepsLimits (scenario_rules world bound reach sessions) h L s }
{}

/// Whose traces the laws of this crate speak of: those of a scenario's clients, and those of clients that join as often and make as many actions as
/// they like, while others' sessions stand between their own.
///
/// A client counts its own sessions from 0 on; `numbers` are those that the server gave them, one for each, in that order.
pub fn traces_are_honest_clients()
    ensures proper { (shape : Shape) (L : Trace) → Proper shape L → IsClientTrace shape L }
    ensures numbered { (numbers : List ℕ) (c : ClientView) → IsNumberedIn numbers c → IsClientTrace c.who.shape (trace_in numbers c) }
{}
