//! Laws of cuts: what a session lacks of objects at a position, and the greatest position at which it lacks few enough.
//!
//! As the laws of missing influences they hold for every list of actions, commit and set of marks. In them `xs` are objects, and `n` is the
//! position at which they are seen.
ghost use Rattle.std.specs.Prelude.{◌≡◌, ◌≢◌, ℕ, suc, ◌<◌, ◌≤◌, ◌↔◌, ◌⊎◌, Bool, true, false, List, [], ◌∷◌, ◌++◌, length, drop, replicate};
ghost use Rattle.sv_world.specs.declared.action.Action.{Action};
ghost use Rattle.sv_world.specs.Sets.{read_set};
ghost use Rattle.sv_world.specs.Control.{is_in, blank, action_at, last_writer, IsNeeded, IsClosed, needed_for, SentIsClosed, with_reading, up_to, needed_to_see, head_to_see, greatest_cut};
ghost use Rattle.sv_world.specs.Faults.{is_ascending};
ghost use Rattle.sv_world.specs.Limits.{most_items};

/// The positions that a session lacks of objects at a position ascend from above the commit to it, so at the commit there are none. With
/// the reading action behind them they are what a relay of that action has.
pub fn what_is_needed_to_see_ascends()
    ensures ascending { (A : List Action) (commit : ℕ) (sent xs : List ℕ) (n : ℕ) → is_ascending (needed_to_see A commit sent xs n) ≡ true }
    ensures within { (A : List Action) (commit : ℕ) (sent xs : List ℕ) (n j : ℕ) → is_in j (needed_to_see A commit sent xs n) ≡ true →
        (commit < j) × (j ≤ n) }
    ensures none { (A : List Action) (commit : ℕ) (sent xs : List ℕ) → needed_to_see A commit sent xs commit ≡ [] }
    ensures relayed { (A : List Action) (commit : ℕ) (sent xs : List ℕ) (n : ℕ) → commit ≤ n →
        needed_for (with_reading A n xs) commit (up_to n sent) (suc n) ≡ needed_to_see A commit sent xs n ++ suc n ∷ [] }
{}

/// They are exactly the least set that has the last writers of the objects and, for each position in it, the last writers of what this
/// reads, where these are above the commit and were not sent.
pub fn what_is_needed_to_see_is_the_least_set()
    ensures exactly { (A : List Action) (commit : ℕ) (sent xs : List ℕ) (n j : ℕ) →
        ((is_in j (needed_to_see A commit sent xs n) ≡ true) ↔ ((j ≤ n) × IsNeeded (with_reading A n xs) commit (up_to n sent) (suc n) j)) }
    ensures direct { (A : List Action) (commit : ℕ) (sent xs : List ℕ) (n x : ℕ) → n ≤ length A → is_in x xs ≡ true →
        commit < last_writer A x (suc n) → is_in (last_writer A x (suc n)) sent ≡ false →
        is_in (last_writer A x (suc n)) (needed_to_see A commit sent xs n) ≡ true }
    ensures closed { (A : List Action) (commit : ℕ) (sent xs : List ℕ) (n : ℕ) → n ≤ length A →
        IsClosed A commit sent (λ j. is_in j (needed_to_see A commit sent xs n)) }
    ensures least { (A : List Action) (commit : ℕ) (sent xs : List ℕ) (n : ℕ) (p : ℕ → Bool) → n ≤ length A →
        ((x : ℕ) → is_in x xs ≡ true → commit < last_writer A x (suc n) → is_in (last_writer A x (suc n)) sent ≡ false →
        p (last_writer A x (suc n)) ≡ true) →
        IsClosed A commit sent p → (j : ℕ) → is_in j (needed_to_see A commit sent xs n) ≡ true → p j ≡ true }
{}

/// The base values are those of the objects, ascending, that are seen as committed, or that some position needed reads so, and that the
/// session was not given.
pub fn base_values_to_see_are_those_read_as_committed()
    ensures ascending { (objects : ℕ) (A : List Action) (commit : ℕ) (sent given xs : List ℕ) (n : ℕ) →
        is_ascending (head_to_see objects A commit sent given xs n) ≡ true }
    ensures exactly { (objects : ℕ) (A : List Action) (commit : ℕ) (sent given xs : List ℕ) (n x : ℕ) → commit ≤ n → n ≤ length A →
        ((is_in x (head_to_see objects A commit sent given xs n) ≡ true) ↔
        ((x < objects) × ((is_in x given ≡ false) ×
        (((is_in x xs ≡ true) × (last_writer A x (suc n) ≤ commit)) ⊎
        ((k : ℕ) × ((is_in k (needed_to_see A commit sent xs n) ≡ true) ×
        ((is_in x (read_set (action_at A k)) ≡ true) × (last_writer A x k ≤ commit)))))))) }
{}

/// Marks at or below the commit, and later actions, change nothing of what is seen at a position.
pub fn only_marks_above_the_commit_count_to_see()
    ensures needed { (A later : List Action) (commit : ℕ) (s t xs : List ℕ) (n : ℕ) → commit ≤ n → n ≤ length A →
        ((j : ℕ) → commit < j → is_in j s ≡ is_in j t) → needed_to_see (A ++ later) commit s xs n ≡ needed_to_see A commit t xs n }
    ensures head { (objects : ℕ) (A later : List Action) (commit : ℕ) (s t given xs : List ℕ) (n : ℕ) → commit ≤ n → n ≤ length A →
        ((j : ℕ) → commit < j → is_in j s ≡ is_in j t) →
        head_to_see objects (A ++ later) commit s given xs n ≡ head_to_see objects A commit t given xs n }
    ensures cut { (A : List Action) (commit : ℕ) (s t xs : List ℕ) → ((j : ℕ) → commit < j → is_in j s ≡ is_in j t) →
        greatest_cut A commit s xs ≡ greatest_cut A commit t xs }
{}

/// Blanks in place of the committed actions change nothing.
pub fn committed_actions_do_not_count_to_see()
    ensures needed { (A : List Action) (commit : ℕ) (sent xs : List ℕ) (n : ℕ) → commit ≤ n → n ≤ length A →
        needed_to_see (replicate commit blank ++ drop commit A) commit sent xs n ≡ needed_to_see A commit sent xs n }
    ensures head { (objects : ℕ) (A : List Action) (commit : ℕ) (sent given xs : List ℕ) (n : ℕ) → commit ≤ n → n ≤ length A →
        head_to_see objects (replicate commit blank ++ drop commit A) commit sent given xs n ≡ head_to_see objects A commit sent given xs n }
    ensures cut { (A : List Action) (commit : ℕ) (sent xs : List ℕ) → commit ≤ length A →
        greatest_cut (replicate commit blank ++ drop commit A) commit sent xs ≡ greatest_cut A commit sent xs }
{}

/// Of the same objects a session lacks more at a later position: what it lacks at the earlier one is among it. So a search by halves finds
/// the greatest cut.
pub fn what_is_needed_to_see_grows()
    ensures members { (A : List Action) (commit : ℕ) (sent xs : List ℕ) (m n : ℕ) → SentIsClosed A commit sent → m ≤ n → n ≤ length A →
        (j : ℕ) → is_in j (needed_to_see A commit sent xs m) ≡ true → is_in j (needed_to_see A commit sent xs n) ≡ true }
    ensures longer { (A : List Action) (commit : ℕ) (sent xs : List ℕ) (m n : ℕ) → SentIsClosed A commit sent → m ≤ n → n ≤ length A →
        length (needed_to_see A commit sent xs m) ≤ length (needed_to_see A commit sent xs n) }
{}

/// With a later commit, more sent and more actions behind, a session lacks no more at a position than before, so its cuts of the same
/// objects never go back.
pub fn cuts_never_go_back()
    ensures members { (A later : List Action) (early late : ℕ) (s t xs : List ℕ) (n : ℕ) → early ≤ late → n ≤ length A →
        ((k : ℕ) → late < k → is_in k s ≡ true → is_in k t ≡ true) →
        (j : ℕ) → is_in j (needed_to_see (A ++ later) late t xs n) ≡ true → is_in j (needed_to_see A early s xs n) ≡ true }
    ensures shorter { (A later : List Action) (early late : ℕ) (s t xs : List ℕ) (n : ℕ) → early ≤ late → n ≤ length A →
        ((k : ℕ) → late < k → is_in k s ≡ true → is_in k t ≡ true) →
        length (needed_to_see (A ++ later) late t xs n) ≤ length (needed_to_see A early s xs n) }
    ensures cut { (A later : List Action) (early late : ℕ) (s t xs : List ℕ) → early ≤ length A → early ≤ late →
        ((k : ℕ) → late < k → is_in k s ≡ true → is_in k t ≡ true) →
        greatest_cut A early s xs ≤ greatest_cut (A ++ later) late t xs }
{}

/// The greatest cut is a position from the commit to the last one, a session lacks at most as many positions at it as a relay may have,
/// and it is the greatest such one. Where what was sent is closed, it lacks no more at any position before it.
pub fn the_greatest_cut_is_the_greatest()
    ensures low { (A : List Action) (commit : ℕ) (sent xs : List ℕ) → commit ≤ greatest_cut A commit sent xs }
    ensures high { (A : List Action) (commit : ℕ) (sent xs : List ℕ) → commit ≤ length A → greatest_cut A commit sent xs ≤ length A }
    ensures few { (A : List Action) (commit : ℕ) (sent xs : List ℕ) →
        length (needed_to_see A commit sent xs (greatest_cut A commit sent xs)) ≤ most_items }
    ensures greatest { (A : List Action) (commit : ℕ) (sent xs : List ℕ) (n : ℕ) → n ≤ length A →
        length (needed_to_see A commit sent xs n) ≤ most_items → n ≤ greatest_cut A commit sent xs }
    ensures below { (A : List Action) (commit : ℕ) (sent xs : List ℕ) (n : ℕ) → commit ≤ length A → SentIsClosed A commit sent →
        n ≤ greatest_cut A commit sent xs → length (needed_to_see A commit sent xs n) ≤ most_items }
{}

/// Where nothing is needed at a position, what is needed at the next one is among what the action there needs. So a cut below the last
/// position has an item, where a relay of the action behind it has few enough.
pub fn an_older_cut_has_an_item()
    ensures next { (A : List Action) (commit : ℕ) (sent xs : List ℕ) (n : ℕ) → n < length A → needed_to_see A commit sent xs n ≡ [] →
        length (needed_to_see A commit sent xs (suc n)) ≤ length (needed_for A commit sent (suc n)) }
    ensures item { (A : List Action) (commit : ℕ) (sent xs : List ℕ) → greatest_cut A commit sent xs < length A →
        length (needed_for A commit sent (suc (greatest_cut A commit sent xs))) ≤ most_items →
        needed_to_see A commit sent xs (greatest_cut A commit sent xs) ≢ [] }
{}
