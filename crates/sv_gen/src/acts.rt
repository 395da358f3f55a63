//! Acts that move an amount from one object to another.

ghost use Rattle.std.specs.Prelude.{◌≡◌, ◌≤◌, ◌<◌, ◌*◌, ◌++◌, min, max, [], ◌∷◌, IfOk, OnOk};
ghost use Rattle.sv_world.specs.Spelled.{stmt_spelled};
ghost use Rattle.sv_world.specs.Sets.{object_numbered};
ghost use Rattle.sv_gen.specs.Generated.{slot_of, taken, added, transfer, act, most_load};
ghost use Rattle.sv_gen.specs.Changes.{change};

use std::alloc::{AllocError, Global};
use sv_world::{Action, Body, Node, ObjectId, Operator, Point, Reads};

fn slot_of(object: u16, other: u16) -> u8
    ensures { result ≡ slot_of object other }
{
    if object < other { 0 } else { 1 }
}

/// Appends a statement: an attribute of the object in a slot is made more or less by an amount.
#[tactic(auto, using(crate::proofs::Moves::change_is_spelled))]
fn push_change(
    nodes: &mut Vec<Node>,
    slot: u8,
    attr: u8,
    operator: Operator,
    amount: u16,
) -> Result<(), AllocError>
    ensures { OnOk result (nodes.new.items ≡ nodes.old.items ++ stmt_spelled (change slot attr operator amount)) }
{
    nodes.extend_from_slice(&[
        Node::Set { slot, attr },
        Node::Binary(operator),
        Node::Attr { slot, attr },
        Node::Lit(i64::from(amount)),
    ])
}

/// What an act reads: two objects, in order.
fn both(alloc: Global, from: u16, to: u16) -> Result<Reads, AllocError>
    ensures { IfOk result (λ reads. reads ≡ object_numbered (min from to) ∷ object_numbered (max from to) ∷ []) }
{
    let mut reads = Reads::new(alloc);
    reads.push(ObjectId(from.min(to)))?;
    reads.push(ObjectId(from.max(to)))?;
    Ok(reads)
}

/// Moves an amount of attribute 0 between two objects, and counts it on attribute 1 of the first one.
#[tactic(auto, using(crate::proofs::Moves::moves_are_a_body, crate::proofs::Moves::moves_are_seen))]
fn moves(alloc: Global, from: u16, to: u16, amount: u16) -> Result<Body, AllocError>
    ensures { IfOk result (λ body. body ≡ taken (slot_of from to) amount ∷ added (slot_of to from) 0 amount ∷ added (slot_of from to) 1 1 ∷ []) }
{
    let mut nodes = Vec::with_capacity(alloc, 13)?;
    nodes.push(Node::Block { count: 3, size: 12 })?;
    push_change(&mut nodes, slot_of(from, to), 0, Operator::Sub, amount)?;
    push_change(&mut nodes, slot_of(to, from), 0, Operator::Add, amount)?;
    push_change(&mut nodes, slot_of(from, to), 1, Operator::Add, 1)?;
    Body::from_nodes(nodes)
}

fn transfer(alloc: Global, from: u16, to: u16, amount: u16) -> Result<Action, AllocError>
    ensures { IfOk result (λ a. a ≡ transfer from to amount) }
{
    let body = moves(alloc, from, to, amount)?;
    let reads = both(alloc, from, to)?;
    Ok(Action {
        reads,
        mask: 3,
        origin: Point { x: 0, y: 0 },
        body,
    })
}

/// Act `index` among the four objects from `base` on, of a pair's client `half`.
pub(crate) fn act(alloc: Global, half: u16, base: u16, index: u16) -> Result<Action, AllocError>
    requires half { half ≤ 1 }
    requires base { base ≤ 4 * most_load }
    requires index { index < 16 }
    ensures { IfOk result (λ a. a ≡ act half base index) }
{
    let from = base + index % 4;
    let to = base + (index + 1 + half) % 4;
    transfer(alloc, from, to, 1 + index % 3)
}
