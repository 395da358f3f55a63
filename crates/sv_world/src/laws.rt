//! Laws of the definitions of missing influences, base values and influence.
//!
//! They hold for every list of actions, commit and set of marks, whoever sent what: none speaks of a value. In them `A` is a list of accepted
//! actions, a position in it is counted from 1, and `sent` are the positions that were sent to a session.
ghost use Rattle.std.specs.Prelude.{◌≡◌, ℕ, ◌+◌, ◌<◌, ◌≤◌, ◌↔◌, Bool, true, false, List, [], ◌∷◌, ◌++◌, filter, length, drop, replicate, nat_lt};
ghost use Rattle.sv_world.specs.declared.action.Action.{Action};
ghost use Rattle.sv_world.specs.Sets.{read_set};
ghost use Rattle.sv_world.specs.Control.{is_in, blank, action_at, last_writer, IsNeeded, IsClosed, needed_for, head_for, influence, IsInfluence, chain_length, influence_distance};
ghost use Rattle.sv_world.specs.Faults.{is_ascending};

/// What a session lacks of a position is nothing where the position was sent to it, and else exactly the least set that has the position
/// and is closed under the last writers that are above the commit and were not sent.
pub fn missing_influences_are_the_least_set()
    ensures sent { (A : List Action) (commit : ℕ) (sent : List ℕ) (i : ℕ) → is_in i sent ≡ true → needed_for A commit sent i ≡ [] }
    ensures exactly { (A : List Action) (commit : ℕ) (sent : List ℕ) (i j : ℕ) → commit < i → is_in i sent ≡ false →
        ((is_in j (needed_for A commit sent i) ≡ true) ↔ IsNeeded A commit sent i j) }
    ensures closed { (A : List Action) (commit : ℕ) (sent : List ℕ) (i : ℕ) → IsClosed A commit sent (λ j. is_in j (needed_for A commit sent i)) }
    ensures least { (A : List Action) (commit : ℕ) (sent : List ℕ) (i : ℕ) (p : ℕ → Bool) → p i ≡ true → IsClosed A commit sent p →
        (j : ℕ) → is_in j (needed_for A commit sent i) ≡ true → p j ≡ true }
{}

/// The positions of a relay ascend from above the commit to its own.
pub fn missing_influences_ascend()
    ensures ascending { (A : List Action) (commit : ℕ) (sent : List ℕ) (i : ℕ) → is_ascending (needed_for A commit sent i) ≡ true }
    ensures within { (A : List Action) (commit : ℕ) (sent : List ℕ) (i j : ℕ) → commit < i → is_in j (needed_for A commit sent i) ≡ true →
        (commit < j) × (j ≤ i) }
    ensures ends { (A : List Action) (commit : ℕ) (sent : List ℕ) (i : ℕ) → commit < i → is_in i sent ≡ false →
        (earlier : List ℕ) × (needed_for A commit sent i ≡ earlier ++ i ∷ []) }
{}

/// The influence of a new action is exactly the part above the commit of the least set that has the last writers of what it reads and is
/// closed under last writers; it ascends, and is what a relay of the new action to a session that was sent nothing has before the action.
pub fn influence_is_the_least_set()
    ensures exactly { (A : List Action) (commit : ℕ) (a : Action) (j : ℕ) →
        ((is_in j (influence A commit a) ≡ true) ↔ ((commit < j) × IsInfluence A a j)) }
    ensures least { (A : List Action) (commit : ℕ) (a : Action) (p : ℕ → Bool) →
        ((x : ℕ) → is_in x (read_set a) ≡ true → commit < last_writer A x (length A + 1) → p (last_writer A x (length A + 1)) ≡ true) →
        IsClosed A commit [] p → (j : ℕ) → is_in j (influence A commit a) ≡ true → p j ≡ true }
    ensures cut { (A : List Action) (commit : ℕ) (a : Action) → influence A commit a ≡ filter (λ j. nat_lt commit j) (influence A 0 a) }
    ensures ascending { (A : List Action) (commit : ℕ) (a : Action) → is_ascending (influence A commit a) ≡ true }
    ensures within { (A : List Action) (commit : ℕ) (a : Action) (j : ℕ) → is_in j (influence A commit a) ≡ true →
        (commit < j) × (j ≤ length A) }
    ensures relayed { (A : List Action) (commit : ℕ) (a : Action) →
        needed_for (A ++ a ∷ []) commit [] (length A + 1) ≡ influence A commit a ++ (length A + 1) ∷ [] }
{}

/// Marks at or below the commit, and later actions, change nothing.
pub fn only_marks_above_the_commit_count()
    ensures needed { (A later : List Action) (commit : ℕ) (s t : List ℕ) (i : ℕ) → commit < i → i ≤ length A →
        ((j : ℕ) → commit < j → is_in j s ≡ is_in j t) → needed_for (A ++ later) commit s i ≡ needed_for A commit t i }
    ensures head { (objects : ℕ) (A later : List Action) (commit : ℕ) (s t given : List ℕ) (i : ℕ) → commit < i → i ≤ length A →
        ((j : ℕ) → commit < j → is_in j s ≡ is_in j t) →
        head_for objects (A ++ later) commit s given i ≡ head_for objects A commit t given i }
{}

/// Blanks in place of the committed actions change nothing, so it is enough to keep those above the commit.
pub fn committed_actions_do_not_count()
    ensures needed { (A : List Action) (commit : ℕ) (sent : List ℕ) (i : ℕ) → commit < i →
        needed_for (replicate commit blank ++ drop commit A) commit sent i ≡ needed_for A commit sent i }
    ensures head { (objects : ℕ) (A : List Action) (commit : ℕ) (sent given : List ℕ) (i : ℕ) → commit < i →
        head_for objects (replicate commit blank ++ drop commit A) commit sent given i ≡ head_for objects A commit sent given i }
    ensures influence { (A : List Action) (commit : ℕ) (a : Action) → commit ≤ length A →
        influence (replicate commit blank ++ drop commit A) commit a ≡ influence A commit a }
    ensures chain { (A : List Action) (commit : ℕ) (a : Action) → commit ≤ length A →
        chain_length (replicate commit blank ++ drop commit A) commit a ≡ chain_length A commit a }
    ensures far { (A : List Action) (commit : ℕ) (a : Action) → commit ≤ length A →
        influence_distance (replicate commit blank ++ drop commit A) commit a ≡ influence_distance A commit a }
{}

/// With a later commit and more sent, what a session lacks of a position it lacked before, so a relay of an action has at most one item more
/// than the chain that the action had when it was placed.
pub fn missing_influences_only_shrink()
    ensures members { (A : List Action) (early late : ℕ) (s t : List ℕ) (i j : ℕ) → early ≤ late → late < i →
        ((k : ℕ) → late < k → is_in k s ≡ true → is_in k t ≡ true) →
        is_in j (needed_for A late t i) ≡ true → is_in j (needed_for A early s i) ≡ true }
    ensures shorter { (A : List Action) (early late : ℕ) (s t : List ℕ) (i : ℕ) → early ≤ late → late < i →
        ((k : ℕ) → late < k → is_in k s ≡ true → is_in k t ≡ true) →
        length (needed_for A late t i) ≤ length (needed_for A early s i) }
    ensures size { (A later : List Action) (early late : ℕ) (a : Action) (sent : List ℕ) → early ≤ late → late ≤ length A →
        length (needed_for (A ++ a ∷ later) late sent (length A + 1)) ≤ chain_length A early a + 1 }
{}

/// The base values are those of the objects, ascending, that some position needed reads as committed and that the session was not given.
pub fn base_values_are_those_read_as_committed()
    ensures ascending { (objects : ℕ) (A : List Action) (commit : ℕ) (sent given : List ℕ) (i : ℕ) →
        is_ascending (head_for objects A commit sent given i) ≡ true }
    ensures exactly { (objects : ℕ) (A : List Action) (commit : ℕ) (sent given : List ℕ) (i x : ℕ) →
        ((is_in x (head_for objects A commit sent given i) ≡ true) ↔
        ((x < objects) × ((is_in x given ≡ false) ×
        ((k : ℕ) × ((is_in k (needed_for A commit sent i) ≡ true) ×
        ((is_in x (read_set (action_at A k)) ≡ true) × (last_writer A x k ≤ commit))))))) }
{}
