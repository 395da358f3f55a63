//! Laws of the action language. Each is the contract of a function that does nothing.

ghost use Rattle.std.specs.Prelude.{◌≡◌, List, ℕ, Ok};
ghost use Rattle.sv_world.specs.declared.action.Action.{Action};
ghost use Rattle.sv_text.specs.Tokens.{tokens_of};
ghost use Rattle.sv_text.specs.Reading.{reading};
ghost use Rattle.sv_text.specs.Grammar.{IsActionText};
ghost use Rattle.sv_text.specs.Canonical.{canonical};
ghost use Rattle.sv_text.specs.Printable.{IsPrintable};

/// A text that is read as an action is a text of that action, by the grammar.
pub fn what_is_read_is_a_text_of_it()
    ensures { (text : List ℕ) (action : Action) → reading (tokens_of text) ≡ Ok action → IsActionText action (tokens_of text) }
{}

/// A text of an action is read as that action.
pub fn each_text_of_an_action_is_read()
    ensures { (text : List ℕ) (action : Action) → IsActionText action (tokens_of text) → reading (tokens_of text) ≡ Ok action }
{}

/// The canonical text of an action is a text of it, and is read as it.
pub fn each_canonical_text_is_read()
    ensures text { (action : Action) → IsPrintable action → IsActionText action (tokens_of (canonical action)) }
    ensures read { (action : Action) → IsPrintable action → reading (tokens_of (canonical action)) ≡ Ok action }
{}

/// Actions with the same canonical text are the same.
pub fn canonical_texts_differ()
    ensures { (action other : Action) → IsPrintable action → IsPrintable other → canonical action ≡ canonical other → action ≡ other }
{}
