//! A law of what a value comes from.
ghost use Rattle.std.specs.Prelude.{◌≡◌, ℕ, ℤ, List, [], slice_index_or};
ghost use Rattle.sv_world.specs.declared.action.Action.{Action};
ghost use Rattle.sv_eval.specs.Serial.{serial_world};
ghost use Rattle.sv_why.specs.Reasons.{reasons_of, world_by};

/// The actions that a value comes from give it alone: executed in order from the opening world, without all others, they give the object
/// the value that it has after all actions up to the position.
pub fn values_come_from_their_reasons()
    ensures { (opening : List (List ℤ)) (A : List Action) (x pos : ℕ) →
        slice_index_or (world_by opening A (reasons_of A x pos)) x [] ≡ slice_index_or (serial_world opening A pos) x [] }
{}
