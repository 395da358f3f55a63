//! Two examples. docs/EMBEDDING.md goes through the first.
ghost use Rattle.std.specs.Prelude.{◌≡◌, [], ◌∷◌, pos, IfOk};
ghost use Rattle.sv_world.specs.declared.action.Expr.TheVariants.{Lit, Attr, Add, Sub, Mul, Div, Rem, Min, Max};
ghost use Rattle.sv_world.specs.declared.action.Cond.TheVariants.{Eq, Lt, Le, And, Or, Not};
ghost use Rattle.sv_world.specs.declared.action.Stmt.TheVariants.{Set, If};

use crate::{BuildError, body_of, get, number, set, when};
use std::alloc::Global;
use sv_world::Body;

/// The object in slot 0 pays a price to the one in slot 1, where it has so much. Attribute 2 is gold.
pub fn pay(alloc: Global, price: i64) -> Result<Body, BuildError>
    ensures { IfOk result (λ body. body ≡ If (Le (Lit price) (Attr 0 2))
        (Set 0 2 (Sub (Attr 0 2) (Lit price)) ∷ Set 1 2 (Add (Attr 1 2) (Lit price)) ∷ []) [] ∷ []) }
{
    let mine = get(0, 2);
    let yours = get(1, 2);
    let enough = number(price).le(mine);
    let trade = (set(0, 2, mine - price), set(1, 2, yours + price));
    body_of(alloc, when(enough, trade, ()))
}

/// The operators and conditions that the first has not, and three statements in a row.
pub fn mix(alloc: Global, least: i64) -> Result<Body, BuildError>
    ensures { IfOk result (λ body. body ≡
        If (Or (Not (Eq (Rem (Attr 0 0) (Lit (pos 2))) (Lit least))) (And (Lt (Attr 0 0) (Lit least)) (Le (Attr 0 1) (Attr 0 0))))
        []
        (Set 0 0 (Div (Mul (Attr 0 0) (Lit (pos 3))) (Attr 0 1)) ∷ Set 0 1 (Min (Attr 0 0) (Lit least))
        ∷ Set 1 0 (Max (Lit least) (Attr 1 0)) ∷ []) ∷ []) }
{
    let a = get(0, 0);
    let b = get(0, 1);
    let far = !(a % 2).eq(least) | a.lt(least) & b.le(a);
    let changes = (
        set(0, 0, a * 3 / b),
        set(0, 1, a.min(least)),
        set(1, 0, number(least).max(get(1, 0))),
    );
    body_of(alloc, when(far, (), changes))
}
