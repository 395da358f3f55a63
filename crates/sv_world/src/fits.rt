//! One walk over the nodes of a body that finds whether nothing in it is at fault.
ghost use Rattle.std.specs.Prelude.{◌≡◌, ◌+◌, ◌<◌, ◌≤◌, ◌&&◌, true, None, drop, length, IfSome};
ghost use Rattle.sv_world.specs.Sets.{is_in_mask};
ghost use Rattle.sv_world.specs.Parts.{first, second, parts, is_expr, is_cond, is_stmt, is_block};
ghost use Rattle.sv_world.specs.PartTrees.{part_nodes, part_depth, may_get, may_set, fits, IsUnfit};

use crate::names::is_in_mask;
use crate::{CondHead, ExprHead, NodeCursor, StmtHead};

/// What the slots and attributes that a body names keep to.
#[derive(Clone, Copy, Drop)]
pub(crate) struct Limits {
    /// Slots are below it.
    pub reads: usize,
    /// Slots that are set are in it.
    pub mask: u16,
    /// Attributes are below it.
    pub attrs: u8,
}

impl Limits {
    #[inline(always)]
    fn allow_get(&self, slot: u8, attr: u8) -> bool
        ensures { result ≡ may_get self.now slot attr }
    {
        usize::from(slot) < self.reads && attr < self.attrs
    }

    #[inline(always)]
    fn allow_set(&self, slot: u8, attr: u8) -> bool
        ensures { result ≡ may_set self.now slot attr }
    {
        is_in_mask(self.mask, usize::from(slot)) && self.allow_get(slot, attr)
    }
}

/// What is left of a number of nodes behind one more, where there is room for it.
#[inline(always)]
fn room(depth: u8, left: u8) -> Option<u8>
    ensures left { IfSome result (λ rest. rest + 1 ≡ left) }
    ensures depth { IfSome result (λ _. 1 ≤ depth) }
    ensures refuses { result ≡ None → 1 ≤ left → 1 ≤ depth → ⊥ }
{
    if depth == 0 {
        return None;
    }
    left.checked_sub(1)
}

// Each of these takes a tree from the cursor and gives what is left of a number of nodes, where the tree has no more of them, is nested at
// most `depth` deep, and keeps to the limits. Else it gives none, and the cursor is left in the middle.

#[cycle(exprs)]
#[inline(always)]
#[tactic(auto, using(crate::proofs::Measured::expr_measures))]
fn expr_fits(nodes: &mut NodeCursor<'_>, limits: &Limits, depth: u8, left: u8) -> Option<u8>
    requires { is_expr (first (parts nodes.old)) ≡ true }
    ensures fits { IfSome result (λ _. fits limits.now (first (parts nodes.old)) ≡ true) }
    ensures nodes { IfSome result (λ rest. rest + part_nodes (first (parts nodes.old)) ≡ left) }
    ensures depth { IfSome result (λ _. part_depth (first (parts nodes.old)) ≤ depth) }
    ensures refuses { result ≡ None → IsUnfit limits.now depth left (first (parts nodes.old)) }
    ensures rest { IfSome result (λ _. parts nodes.new ≡ drop 1 (parts nodes.old)) }
    ensures shorter { IfSome result (λ _. length nodes.new < length nodes.old) }
{
    match nodes.expr() {
        ExprHead::Lit(_) => {
            let left = room(depth, left)?;
            Some(left)
        }
        ExprHead::Attr { slot, attr } => {
            let left = room(depth, left)?;
            if !limits.allow_get(slot, attr) {
                return None;
            }
            Some(left)
        }
        ExprHead::Binary(_) => {
            let left = room(depth, left)?;
            pair_fits(nodes, limits, depth - 1, left)
        }
    }
}

#[cycle(exprs)]
#[tactic(auto, using(crate::proofs::Measured::expr_measures))]
fn pair_fits(nodes: &mut NodeCursor<'_>, limits: &Limits, depth: u8, left: u8) -> Option<u8>
    requires left { is_expr (first (parts nodes.old)) ≡ true }
    requires right { is_expr (second (parts nodes.old)) ≡ true }
    ensures fits { IfSome result (λ _. (fits limits.now (first (parts nodes.old)) && fits limits.now (second (parts nodes.old))) ≡ true) }
    ensures nodes { IfSome result (λ rest. rest + part_nodes (first (parts nodes.old)) + part_nodes (second (parts nodes.old)) ≡ left) }
    ensures depth { IfSome result (λ _. (part_depth (first (parts nodes.old)) ≤ depth) × (part_depth (second (parts nodes.old)) ≤ depth)) }
    ensures refuses { result ≡ None → fits limits.now (first (parts nodes.old)) ≡ true → fits limits.now (second (parts nodes.old)) ≡ true → part_nodes (first (parts nodes.old)) + part_nodes (second (parts nodes.old)) ≤ left
        → part_depth (first (parts nodes.old)) ≤ depth → part_depth (second (parts nodes.old)) ≤ depth → ⊥ }
    ensures rest { IfSome result (λ _. parts nodes.new ≡ drop 2 (parts nodes.old)) }
    ensures shorter { IfSome result (λ _. length nodes.new < length nodes.old) }
{
    let left = expr_fits(nodes, limits, depth, left)?;
    expr_fits(nodes, limits, depth, left)
}

#[tactic(auto, using(crate::proofs::Measured::cond_measures))]
fn cond_fits(nodes: &mut NodeCursor<'_>, limits: &Limits, depth: u8, left: u8) -> Option<u8>
    requires { is_cond (first (parts nodes.old)) ≡ true }
    ensures fits { IfSome result (λ _. fits limits.now (first (parts nodes.old)) ≡ true) }
    ensures nodes { IfSome result (λ rest. rest + part_nodes (first (parts nodes.old)) ≡ left) }
    ensures depth { IfSome result (λ _. part_depth (first (parts nodes.old)) ≤ depth) }
    ensures refuses { result ≡ None → IsUnfit limits.now depth left (first (parts nodes.old)) }
    ensures rest { IfSome result (λ _. parts nodes.new ≡ drop 1 (parts nodes.old)) }
    ensures shorter { IfSome result (λ _. length nodes.new < length nodes.old) }
{
    match nodes.cond() {
        CondHead::Compare(_) => {
            let left = room(depth, left)?;
            pair_fits(nodes, limits, depth - 1, left)
        }
        CondHead::Join(_) => {
            let left = room(depth, left)?;
            let left = cond_fits(nodes, limits, depth - 1, left)?;
            cond_fits(nodes, limits, depth - 1, left)
        }
        CondHead::Not => {
            let left = room(depth, left)?;
            cond_fits(nodes, limits, depth - 1, left)
        }
    }
}

#[cycle(statements)]
#[tactic(auto, using(crate::proofs::Measured::stmt_measures))]
fn stmt_fits(nodes: &mut NodeCursor<'_>, limits: &Limits, depth: u8, left: u8) -> Option<u8>
    requires { is_stmt (first (parts nodes.old)) ≡ true }
    ensures fits { IfSome result (λ _. fits limits.now (first (parts nodes.old)) ≡ true) }
    ensures nodes { IfSome result (λ rest. rest + part_nodes (first (parts nodes.old)) ≡ left) }
    ensures depth { IfSome result (λ _. part_depth (first (parts nodes.old)) ≤ depth) }
    ensures refuses { result ≡ None → IsUnfit limits.now depth left (first (parts nodes.old)) }
    ensures rest { IfSome result (λ _. parts nodes.new ≡ drop 1 (parts nodes.old)) }
    ensures shorter { IfSome result (λ _. length nodes.new < length nodes.old) }
{
    match nodes.stmt() {
        StmtHead::Set { slot, attr } => {
            let left = room(depth, left)?;
            if limits.allow_set(slot, attr) {
                expr_fits(nodes, limits, depth - 1, left)
            } else {
                None
            }
        }
        StmtHead::If => {
            let left = room(depth, left)?;
            let left = cond_fits(nodes, limits, depth - 1, left)?;
            let left = block_fits(nodes, limits, depth - 1, left)?;
            block_fits(nodes, limits, depth - 1, left)
        }
    }
}

#[cycle(statements)]
#[tactic(auto, using(crate::proofs::Measured::block_measures))]
pub(crate) fn block_fits(
    nodes: &mut NodeCursor<'_>,
    limits: &Limits,
    depth: u8,
    left: u8,
) -> Option<u8>
    requires { is_block (first (parts nodes.old)) ≡ true }
    ensures fits { IfSome result (λ _. fits limits.now (first (parts nodes.old)) ≡ true) }
    ensures nodes { IfSome result (λ rest. rest + part_nodes (first (parts nodes.old)) ≡ left) }
    ensures depth { IfSome result (λ _. part_depth (first (parts nodes.old)) ≤ depth) }
    ensures refuses { result ≡ None → IsUnfit limits.now depth left (first (parts nodes.old)) }
    ensures rest { IfSome result (λ _. parts nodes.new ≡ drop 1 (parts nodes.old)) }
    ensures shorter { IfSome result (λ _. length nodes.new < length nodes.old) }
{
    let mut left = left;
    let count = nodes.block();
    for _ in 0..count {
        left = stmt_fits(nodes, limits, depth, left)?;
    }
    Some(left)
}
