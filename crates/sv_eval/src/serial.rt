//! A law of serial execution.
ghost use Rattle.std.specs.Prelude.{◌≡◌, ◌<◌, ℕ, ℤ, List, All, length};
ghost use Rattle.sv_world.specs.Sets.{read_set};
ghost use Rattle.sv_world.specs.declared.action.Action.{Action};
ghost use Rattle.sv_eval.specs.Serial.{serial_world};

/// A law of serial execution: a world keeps its number of objects and, where the actions read its objects only, the length of
/// their values.
pub fn serial_worlds_keep_their_shape()
    ensures counted { (opening : List (List ℤ)) (actions : List Action) (p : ℕ) → length (serial_world opening actions p) ≡ length opening }
    ensures shaped { (attrs : ℕ) (opening : List (List ℤ)) (actions : List Action) (p : ℕ) → All (λ value. length value ≡ attrs) opening → All (λ a. All (λ x. x < length opening) (read_set a)) actions → All (λ value. length value ≡ attrs) (serial_world opening actions p) }
{}
