//! What comes of the actions that clients make.
ghost use Rattle.std.specs.Prelude.{◌≡◌, ◌<◌, ℕ, true, List, reverse, slice_get, None, Some};
ghost use Rattle.sv_world.specs.declared.action.Action.{Action};
ghost use Rattle.sv_journal.specs.declared.entry.Entry.{Entry};
ghost use Rattle.sv_journal.specs.History.{accepted};
ghost use Rattle.sv_journal.specs.Answer.{Rules, Legal};
ghost use Rattle.sv_client.specs.declared.trace.Trace.{Trace};
ghost use Rattle.sv_script.specs.Following.{is_finished};
ghost use Rattle.law_system.specs.Fits.{Fits};
ghost use Rattle.law_system.specs.Outcomes.{AreAcceptedOnce, HaveRightOutcomes, HasOutcomes, IsDropped, IsDenied};

/// No action is accepted twice; a new action is denied where its client may not write all that it writes, for the lowest such object; else it is
/// dropped just where its chain or its distance is over its limit, and told both, and is accepted within the limits; and a client that did all
/// and left has one outcome for each of its actions.
///
/// `r` are the rules that the server was opened with, `h` are the journal's entries with the latest first, and `L` is one of the traces `Ls`
/// of its clients. Where there is no reach, each dropped action has a chain over the bound. Where there are no rights, no action is denied.
pub fn actions_have_outcomes()
    ensures once { (h : List Entry) → AreAcceptedOnce (accepted h) }
    ensures judged { (r : Rules) (h : List Entry) → Legal r h → HaveRightOutcomes r h }
    ensures each { (r : Rules) (h : List Entry) (Ls : List Trace) (i : ℕ) (L : Trace) → Legal r h → Fits r.world.shape h Ls → slice_get Ls i ≡ Some L →
        is_finished (reverse L.events) ≡ true → HasOutcomes h L }
    ensures rights { (r : Rules) (k : ℕ) (a : Action) (object : ℕ) → r.rights ≡ None → IsDenied r k a object → ⊥ }
    ensures chains { (r : Rules) (h : List Entry) (a : Action) (chain far : ℕ) → r.reach ≡ None → IsDropped r h a chain far → r.bound < chain }
{}
