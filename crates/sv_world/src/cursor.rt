//! A walk over nodes, from head to head.
ghost use Rattle.std.specs.Prelude.{◌≡◌, ◌∷◌, ◌+◌, ◌<◌, true, drop, length};
ghost use Rattle.sv_world.specs.Parts.{first, parts, block, is_expr, is_cond, is_stmt, is_block};
ghost use Rattle.sv_world.specs.Heads.{expr_over, expr_arity, cond_over, cond_arity, stmt_over, stmt_arity};

use crate::Node;
use crate::heads::{
    CondHead, ExprHead, StmtHead, block_head, cond_head, expr_head, skip_block, stmt_head,
};
use std::marker::Model;

/// A walk over nodes, from the first to the last. Contracts see it as the nodes that are still to come.
#[derive(Drop)]
pub struct NodeCursor<'a> {
    nodes: &'a [Node],
}

impl<'a> Model for NodeCursor<'a> {
    ghost use Rattle.std.specs.Prelude.{List};
    ghost use Rattle.sv_world.specs.declared.node.Node.{Node};

    ghost Value = { List Node };

    ghost view = { λ c. c.nodes.now };
}

impl<'a> NodeCursor<'a> {
    #[inline(always)]
    pub fn new(nodes: &'a [Node]) -> NodeCursor<'a>
        ensures { result ≡ nodes.now }
    {
        NodeCursor { nodes }
    }

    /// Takes the first node of an expression.
    #[inline(always)]
    pub fn expr(&mut self) -> ExprHead
        requires { is_expr (first (parts self.old)) ≡ true }
        ensures head { parts self.old ≡ expr_over result (parts self.new) ∷ drop (expr_arity result) (parts self.new) }
        ensures shorter { length self.old ≡ length self.new + 1 }
    {
        let (head, rest) = expr_head(self.nodes);
        self.nodes = rest;
        head
    }

    /// Takes the first node of a condition.
    #[inline(always)]
    pub fn cond(&mut self) -> CondHead
        requires { is_cond (first (parts self.old)) ≡ true }
        ensures head { parts self.old ≡ cond_over result (parts self.new) ∷ drop (cond_arity result) (parts self.new) }
        ensures shorter { length self.old ≡ length self.new + 1 }
    {
        let (head, rest) = cond_head(self.nodes);
        self.nodes = rest;
        head
    }

    /// Takes the first node of a statement.
    #[inline(always)]
    pub fn stmt(&mut self) -> StmtHead
        requires { is_stmt (first (parts self.old)) ≡ true }
        ensures head { parts self.old ≡ stmt_over result (parts self.new) ∷ drop (stmt_arity result) (parts self.new) }
        ensures shorter { length self.old ≡ length self.new + 1 }
    {
        let (head, rest) = stmt_head(self.nodes);
        self.nodes = rest;
        head
    }

    /// Takes the first node of a block, and gives how many statements follow.
    #[inline(always)]
    pub fn block(&mut self) -> u8
        requires { is_block (first (parts self.old)) ≡ true }
        ensures head { parts self.old ≡ block result (parts self.new) ∷ drop result (parts self.new) }
        ensures shorter { length self.old ≡ length self.new + 1 }
    {
        let (count, rest) = block_head(self.nodes);
        self.nodes = rest;
        count
    }

    /// Passes over a block.
    #[inline(always)]
    pub fn skip(&mut self)
        requires { is_block (first (parts self.old)) ≡ true }
        ensures rest { parts self.new ≡ drop 1 (parts self.old) }
        ensures shorter { length self.new < length self.old }
    {
        self.nodes = skip_block(self.nodes);
    }
}
