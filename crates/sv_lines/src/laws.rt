//! Laws of the lines of a report. Each is the contract of a function that does nothing.
ghost use Rattle.std.specs.Prelude.{◌≡◌, ◌++◌, List, ℕ, codes};
ghost use Rattle.sv_world.specs.declared.world.Shape.{Shape};
ghost use Rattle.sv_wire.specs.declared.message.Request.{Request};
ghost use Rattle.sv_journal.specs.Text.{request_text};
ghost use Rattle.sv_lines.specs.Told.{IsTold};

/// The line of an entry tells its request, and where the reply begins: requests with the same text before an arrow are equal.
pub fn requests_are_told()
    ensures { (shape : Shape) (request other : Request) (reply answer : List ℕ) → IsTold shape request → IsTold shape other →
        request_text shape request ++ (codes " -> " ++ reply) ≡ request_text shape other ++ (codes " -> " ++ answer) → (request ≡ other) × (reply ≡ answer) }
{}
