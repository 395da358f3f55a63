//! Laws of what a living world's core decides.
ghost use Rattle.std.specs.Prelude.{◌≡◌, ℕ, true, false, ◌&&◌, List};
ghost use Rattle.sv_wire.specs.declared.message.Request.{Request};
ghost use Rattle.sv_journal.specs.declared.entry.Entry.{Entry};
ghost use Rattle.sv_journal.specs.Sessions.{is_end};
ghost use Rattle.sv_journal.specs.Answer.{Rules, reply_to_request};
ghost use Rattle.sv_journal.specs.Living.{Stewardship, is_stewards, heeded, unreported};
ghost use Rattle.sv_core.specs.declared.decision.Decision.{Decision};
ghost use Rattle.sv_core.specs.Decisions.{reply_by, DecisionHolds};
ghost use Rattle.sv_living.specs.Deciding.{answers_poll, first_relay, IsDecided};

/// What a core decides by the results that count stands for the reply that the history of all entries gives, but where a steward polls and
/// is not refused: there this is to send the lowest position without a result that was not sent to its session.
pub fn decisions_are_by_what_counts()
    ensures decided { (w : Stewardship) (r : Rules) (h : List Entry) (s : ℕ) (q : Request) (d : Decision) → is_end q ≡ false →
        reply_by r (heeded w h) s q d ≡ reply_to_request r (heeded w h) s q → DecisionHolds r (heeded w h) s q d →
        (answers_poll q d && is_stewards w.steward h s) ≡ false → IsDecided w r h s q d }
    ensures steward { (w : Stewardship) (r : Rules) (h : List Entry) (s : ℕ) (q : Request) (d : Decision) → is_end q ≡ false →
        reply_by r (heeded w h) s q d ≡ reply_to_request r (heeded w h) s q →
        (answers_poll q d && is_stewards w.steward h s) ≡ true → IsDecided w r h s q (first_relay (unreported (heeded w h) s)) }
{}
