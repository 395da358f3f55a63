//! What the first of some nodes is, by the kind that it must have.
ghost use Rattle.std.specs.Prelude.{◌≡◌, ◌∷◌, ◌+◌, ◌<◌, true, drop, length};
ghost use Rattle.sv_world.specs.Parts.{first, parts, block, is_expr, is_cond, is_stmt, is_block};
ghost use Rattle.sv_world.specs.Heads.{expr_over, expr_arity, cond_over, cond_arity, stmt_over, stmt_arity};

use crate::{Comparison, Connective, Node, Operator};

/// The first node of an expression.
#[derive(Clone, Copy, Debug, Drop, PartialEq, Eq)]
pub enum ExprHead {
    Lit(i64),
    Attr { slot: u8, attr: u8 },
    /// Two expressions follow.
    Binary(Operator),
}

/// The first node of a condition.
#[derive(Clone, Copy, Debug, Drop, PartialEq, Eq)]
pub enum CondHead {
    /// Two expressions follow.
    Compare(Comparison),
    /// Two conditions follow.
    Join(Connective),
    /// A condition follows.
    Not,
}

/// The first node of a statement.
#[derive(Clone, Copy, Debug, Drop, PartialEq, Eq)]
pub enum StmtHead {
    /// An expression follows.
    Set { slot: u8, attr: u8 },
    /// A condition and two blocks follow.
    If,
}

/// The first node of some that begin with an expression, and the nodes behind it.
#[inline(always)]
#[tactic(auto, using(crate::proofs::Sorted::expr_there, crate::proofs::Sorted::no_expr))]
pub fn expr_head(nodes: &[Node]) -> (ExprHead, &[Node])
    requires { is_expr (first (parts nodes.now)) ≡ true }
    ensures head { parts nodes.now ≡ expr_over result.0 (parts result.1.now) ∷ drop (expr_arity result.0) (parts result.1.now) }
    ensures shorter { length nodes.now ≡ length result.1.now + 1 }
{
    let rest = &nodes[1..];
    match nodes[0] {
        Node::Lit(number) => (ExprHead::Lit(number), rest),
        Node::Attr { slot, attr } => (ExprHead::Attr { slot, attr }, rest),
        Node::Binary(operator) => (ExprHead::Binary(operator), rest),
        Node::Compare(_)
        | Node::Join(_)
        | Node::Not
        | Node::Set { .. }
        | Node::If
        | Node::Block { .. } => unreachable!(),
    }
}

/// The same for a condition.
#[inline(always)]
#[tactic(auto, using(crate::proofs::Sorted::cond_there, crate::proofs::Sorted::no_cond))]
pub fn cond_head(nodes: &[Node]) -> (CondHead, &[Node])
    requires { is_cond (first (parts nodes.now)) ≡ true }
    ensures head { parts nodes.now ≡ cond_over result.0 (parts result.1.now) ∷ drop (cond_arity result.0) (parts result.1.now) }
    ensures shorter { length nodes.now ≡ length result.1.now + 1 }
{
    let rest = &nodes[1..];
    match nodes[0] {
        Node::Compare(comparison) => (CondHead::Compare(comparison), rest),
        Node::Join(connective) => (CondHead::Join(connective), rest),
        Node::Not => (CondHead::Not, rest),
        Node::Lit(_)
        | Node::Attr { .. }
        | Node::Binary(_)
        | Node::Set { .. }
        | Node::If
        | Node::Block { .. } => unreachable!(),
    }
}

/// The same for a statement.
#[inline(always)]
#[tactic(auto, using(crate::proofs::Sorted::stmt_there, crate::proofs::Sorted::no_stmt))]
pub fn stmt_head(nodes: &[Node]) -> (StmtHead, &[Node])
    requires { is_stmt (first (parts nodes.now)) ≡ true }
    ensures head { parts nodes.now ≡ stmt_over result.0 (parts result.1.now) ∷ drop (stmt_arity result.0) (parts result.1.now) }
    ensures shorter { length nodes.now ≡ length result.1.now + 1 }
{
    let rest = &nodes[1..];
    match nodes[0] {
        Node::Set { slot, attr } => (StmtHead::Set { slot, attr }, rest),
        Node::If => (StmtHead::If, rest),
        Node::Lit(_)
        | Node::Attr { .. }
        | Node::Binary(_)
        | Node::Compare(_)
        | Node::Join(_)
        | Node::Not
        | Node::Block { .. } => unreachable!(),
    }
}

/// Of some nodes that begin with a block, how many statements it has, and the nodes behind its own node.
#[inline(always)]
#[tactic(auto, using(crate::proofs::Sorted::block_there, crate::proofs::Sorted::no_block, crate::proofs::Sorted::sized_block))]
pub fn block_head(nodes: &[Node]) -> (u8, &[Node])
    requires { is_block (first (parts nodes.now)) ≡ true }
    ensures head { parts nodes.now ≡ block result.0 (parts result.1.now) ∷ drop result.0 (parts result.1.now) }
    ensures shorter { length nodes.now ≡ length result.1.now + 1 }
{
    let rest = &nodes[1..];
    match nodes[0] {
        Node::Block { count, .. } => (count, rest),
        Node::Lit(_)
        | Node::Attr { .. }
        | Node::Binary(_)
        | Node::Compare(_)
        | Node::Join(_)
        | Node::Not
        | Node::Set { .. }
        | Node::If => unreachable!(),
    }
}

/// The nodes behind a block.
#[inline(always)]
#[tactic(auto, using(crate::proofs::Sorted::block_there, crate::proofs::Sorted::no_block, crate::proofs::Back::skip_within, crate::proofs::Back::skip_parts))]
pub fn skip_block(nodes: &[Node]) -> &[Node]
    requires { is_block (first (parts nodes.now)) ≡ true }
    ensures rest { parts result.now ≡ drop 1 (parts nodes.now) }
    ensures shorter { length result.now < length nodes.now }
{
    match nodes[0] {
        Node::Block { size, .. } => &nodes[size + 1..],
        Node::Lit(_)
        | Node::Attr { .. }
        | Node::Binary(_)
        | Node::Compare(_)
        | Node::Join(_)
        | Node::Not
        | Node::Set { .. }
        | Node::If => unreachable!(),
    }
}
