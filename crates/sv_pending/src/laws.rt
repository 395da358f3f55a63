//! Laws of views and of kept results.
ghost use Rattle.std.specs.Prelude.{◌≡◌, ℕ, List, All, length};
ghost use Rattle.std.specs.Option.{IfSome};
ghost use Rattle.sv_world.specs.declared.action.Action.{Action};
ghost use Rattle.sv_world.specs.Sets.{write_set};
ghost use Rattle.sv_versions.specs.Held.{Held};
ghost use Rattle.sv_pending.specs.Pending.{PendingAction, view_over, kept_of, redone};
ghost use Rattle.sv_pending.specs.Shapes.{IsLong, AreShaped};

/// A law of views: where all values held and kept have so many numbers, so have all views, and all results computed on them.
pub fn views_and_results_have_the_numbers_of_their_world()
    ensures views { (attrs x : ℕ) (held : List Held) (ps : List PendingAction) → All (λ h. IsLong attrs h.value) held → AreShaped attrs ps → IfSome (view_over held ps x) (IsLong attrs) }
    ensures kept { (attrs : ℕ) (held : List Held) (ps : List PendingAction) (a : Action) → All (λ h. IsLong attrs h.value) held → AreShaped attrs ps → IfSome (kept_of held ps a) (λ vs. (length vs ≡ length (write_set a)) × All (IsLong attrs) vs) }
    ensures redone { (attrs : ℕ) (held : List Held) (ps : List PendingAction) → All (λ h. IsLong attrs h.value) held → AreShaped attrs (redone held ps) }
{}
