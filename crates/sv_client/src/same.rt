//! Whether two actions are the same, and whether two lists of values are.
ghost use Rattle.std.specs.Prelude.{◌≡◌, ℤ, List, true, ◌↔◌};
ghost use Rattle.sv_world.specs.declared.action.Action.{Action};
ghost use Rattle.sv_client.specs.Same.{is_same_action, is_same_point, are_same_reads, are_same_values};

use sv_world::{Action, ObjectId, Point, Value, same_body};

/// Whether two actions are equal.
#[tactic(auto, unfolding(crate::specs::Same::is_same_action))]
pub fn same_action(action: &Action, other: &Action) -> bool
    ensures { result ≡ is_same_action action.now other.now }
{
    same_reads(action.reads.as_slice(), other.reads.as_slice())
        && action.mask == other.mask
        && same_point(action.origin, other.origin)
        && same_body(&action.body, &other.body)
}

#[tactic(auto, unfolding(crate::specs::Same::are_same_reads))]
fn same_reads(reads: &[ObjectId], others: &[ObjectId]) -> bool
    ensures { result ≡ are_same_reads reads.now others.now }
{
    reads == others
}

#[tactic(auto, unfolding(crate::specs::Same::is_same_point))]
fn same_point(point: Point, other: Point) -> bool
    ensures { result ≡ is_same_point point other }
{
    point.x == other.x && point.y == other.y
}

/// A law of actions: the test that two are the same is passed just by equal ones.
pub fn same_actions_are_equal()
    ensures { (a b : Action) → (is_same_action a b ≡ true) ↔ (a ≡ b) }
{}

/// Whether two lists of values are equal.
pub fn are_same_values(values: &[Value], others: &[Value]) -> bool
    ensures { result ≡ are_same_values values.now others.now }
{
    let [value, rest @ ..] = values else {
        return others.is_empty();
    };
    let [other, other_rest @ ..] = others else {
        return false;
    };
    value.as_slice() == other.as_slice() && are_same_values(rest, other_rest)
}

/// A law of lists of values: the test that two are the same is passed just by equal ones.
pub fn same_values_are_equal()
    ensures { (vs ws : List (List ℤ)) → (are_same_values vs ws ≡ true) ↔ (vs ≡ ws) }
{}
