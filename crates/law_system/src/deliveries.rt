//! Lawful deliveries make values serial.
ghost use Rattle.std.specs.Prelude.{◌≡◌, ℕ, ℤ, List, map, length, All};
ghost use Rattle.sv_world.specs.declared.world.Shape.{Shape};
ghost use Rattle.sv_world.specs.Faults.{IsGoodAction};
ghost use Rattle.sv_journal.specs.History.{Authored};
ghost use Rattle.sv_client.specs.declared.trace.Event.{Event};
ghost use Rattle.sv_client.specs.Traces.{held_of};
ghost use Rattle.law_system.specs.Fronts.{IsFront};
ghost use Rattle.law_system.specs.Serial.{AreSerial, AreSufficient};
ghost use Rattle.law_system.specs.Delivery.{Delivery, AreLawful, tellings_to, tellings_got};

/// Where what a client got, session by session, is the front of lawful deliveries, each value that it holds is that of the serial
/// execution, and each relay that it got brought what its items read.
///
/// `A` is the list of accepted actions with their authors, `ds` the deliveries and `t` the client's events, both with the latest first.
/// Nothing is asked of other clients, of the order between sessions, or of the server's other replies.
pub fn lawful_deliveries_make_values_serial()
    ensures values { (shape : Shape) (opening : List (List ℤ)) (A : List Authored) (ds : List Delivery) (t : List Event) →
        length opening ≡ shape.objects → All (λ (a : Authored). IsGoodAction shape a.action) A →
        AreLawful shape.objects opening (map (λ (a : Authored). a.action) A) ds →
        ((s : ℕ) → IsFront (tellings_got t s) (tellings_to A ds s)) →
        AreSerial opening (map (λ (a : Authored). a.action) A) (held_of t) }
    ensures relays { (shape : Shape) (opening : List (List ℤ)) (A : List Authored) (ds : List Delivery) (t : List Event) →
        length opening ≡ shape.objects → All (λ (a : Authored). IsGoodAction shape a.action) A →
        AreLawful shape.objects opening (map (λ (a : Authored). a.action) A) ds →
        ((s : ℕ) → IsFront (tellings_got t s) (tellings_to A ds s)) →
        AreSufficient (map (λ (a : Authored). a.action) A) t }
{}
