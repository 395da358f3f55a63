//! Laws of a client that got all that its session was told, whoever else asks what: step by step, with no whole trace that fits a whole journal.
ghost use Rattle.std.specs.Prelude.{◌≡◌, ℕ, false, ◌==◌, List, [], ◌∷◌, length, Option, Some, None, IfSome, option_to_list};
ghost use Rattle.std.specs.List.{list_any};
ghost use Rattle.sv_wire.specs.declared.message.Reply.{Reply};
ghost use Rattle.sv_wire.specs.declared.message.Request.{Request};
ghost use Rattle.sv_journal.specs.declared.entry.Entry.{Entry};
ghost use Rattle.sv_journal.specs.History.{accepted, actions_of, full_reply};
ghost use Rattle.sv_journal.specs.Answer.{Rules};
ghost use Rattle.sv_journal.specs.Serving.{Keeping, LegalFor, IsKeeping};
ghost use Rattle.sv_client.specs.declared.trace.Event.{Event};
ghost use Rattle.sv_client.specs.declared.trace.Event.TheVariants as events;
ghost use Rattle.sv_client.specs.Answers.{got_now};
ghost use Rattle.sv_client.specs.Seen.{newly_asked, only_joins};
ghost use Rattle.sv_client.specs.Taking.{Identity};
ghost use Rattle.sv_client.specs.Traces.{held_of};
ghost use Rattle.law_system.specs.Serial.{AreSerial, AreSufficient};
ghost use Rattle.law_system.specs.Told.{telling_by, all_got, GotWhatWasTold, ReportsSerial, GoesBySerial};

use crate::served::served_journals_make_lawful_deliveries;
use sv_journal::served_relays_name_accepted;

/// A client that got just what its session was told reports the results of the serial execution alone, where the server goes by such results
/// alone; it holds serial values, and each relay that it got brought what its items read.
///
/// `k` says which results the server goes by, `r` are the rules that it was opened with, and `h` are the journal's entries with the latest
/// first. `session` is the client's session, `who` is the client, and `t` its events, with the latest first; its own numbers for its sessions
/// make no difference. Nothing is asked of other clients, nor of what the client asked.
pub fn told_clients_report_serial_results()
    ensures reported { (k : Keeping) (r : Rules) (h : List Entry) (session : Option ℕ) (who : Identity) (t : List Event) (reply : Reply) (done : Option Request) →
        IsKeeping k → length r.world.values ≡ r.world.shape.objects → LegalFor k r h → GoesBySerial k r h → GotWhatWasTold h session (got_now t reply ∷ t) →
        option_to_list done ≡ newly_asked who t (got_now t reply) → IfSome done (ReportsSerial r.world.values (actions_of h)) }
    ensures held { (k : Keeping) (r : Rules) (h : List Entry) (session : Option ℕ) (t : List Event) → IsKeeping k →
        length r.world.values ≡ r.world.shape.objects → LegalFor k r h → GoesBySerial k r h → GotWhatWasTold h session t →
        AreSerial r.world.values (actions_of h) (held_of t) }
    ensures relays { (k : Keeping) (r : Rules) (h : List Entry) (session : Option ℕ) (t : List Event) → IsKeeping k →
        length r.world.values ≡ r.world.shape.objects → LegalFor k r h → GoesBySerial k r h → GotWhatWasTold h session t →
        AreSufficient (actions_of h) t }
{
    served_journals_make_lawful_deliveries();
    served_relays_name_accepted();
}

/// A client goes on to have got just what its session was told, one entry after the other.
///
/// `e` is an entry after `h`, and `t` are the client's events. It takes the reply to an entry of its session, as it was sent; a reply that tells
/// nothing, as a refusal, may as well be left; an entry of another session is none of its own. So it begins: a session without an entry was
/// told nothing; and one that got nothing may begin anew, as a client that began so many sessions before.
pub fn sessions_are_told_their_replies()
    ensures taken { (h : List Entry) (e : Entry) (n : ℕ) (t : List Event) → GotWhatWasTold h (Some e.session) t →
        GotWhatWasTold (e ∷ h) (Some e.session) (events.Got n (full_reply (accepted (e ∷ h)) e.reply) ∷ t) }
    ensures silent { (h : List Entry) (e : Entry) (t : List Event) → telling_by h e ≡ [] → GotWhatWasTold h (Some e.session) t →
        GotWhatWasTold (e ∷ h) (Some e.session) t }
    ensures others { (h : List Entry) (e : Entry) (s : ℕ) (t : List Event) → (e.session ≡ s → ⊥) → GotWhatWasTold h (Some s) t →
        GotWhatWasTold (e ∷ h) (Some s) t }
    ensures first { (h : List Entry) (s : ℕ) (t : List Event) → list_any (λ (e : Entry). e.session == s) h ≡ false → GotWhatWasTold h None t →
        GotWhatWasTold h (Some s) t }
    ensures anew { (h : List Entry) (session : Option ℕ) (t : List Event) (n : ℕ) → all_got t ≡ [] → GotWhatWasTold h session t →
        GotWhatWasTold h session (only_joins n) }
    ensures begun { (n : ℕ) → all_got (only_joins n) ≡ [] }
{}
