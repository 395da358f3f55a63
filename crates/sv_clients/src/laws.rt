//! Laws of rows.
ghost use Rattle.std.specs.Prelude.{ℕ, ◌≤◌, List, [], ◌∷◌, ◌++◌, length};
ghost use Rattle.sv_journal.specs.History.{Outcome};
ghost use Rattle.sv_journal.specs.Sessions.{kept_count};
ghost use Rattle.sv_clients.specs.Clients.{KeptClient, no_client, KeepsOutcomes, with_outcome};

/// A row that keeps outcomes keeps them with one more once that is noted, whatever life was noted; and it never has more than so many.
pub fn rows_go_on_keeping()
    ensures none { KeepsOutcomes [] no_client }
    ensures lives { (outcomes : List Outcome) (row : KeptClient) (life : ℕ) → KeepsOutcomes outcomes row → KeepsOutcomes outcomes (record row { life = life }) }
    ensures added { (outcomes : List Outcome) (row : KeptClient) (outcome : Outcome) → KeepsOutcomes outcomes row →
        KeepsOutcomes (outcomes ++ outcome ∷ []) (with_outcome outcome row) }
    ensures few { (outcomes : List Outcome) (row : KeptClient) → KeepsOutcomes outcomes row → length row.kept ≤ kept_count }
{}
