//! Making nodes of trees.
ghost use Rattle.std.specs.Prelude.{◌≡◌, ◌∷◌, ◌++◌, [], true, map, OnOk};
ghost use Rattle.sv_world.specs.Trees.{all_true};
ghost use Rattle.sv_world.specs.Short.{stmt_is_short, has_short_blocks};
ghost use Rattle.sv_world.specs.Spelled.{expr_spelled, cond_spelled, stmt_spelled, run_spelled, body_spelled};

use crate::{Comparison, Cond, Connective, Expr, Node, Operator, Stmt};
use std::alloc::AllocError;

// Each function appends the nodes of a tree.

#[cycle(exprs)]
fn push_expr(out: &mut Vec<Node>, expr: &Expr) -> Result<(), AllocError>
    ensures { OnOk result (out.new.items ≡ out.old.items ++ expr_spelled expr.now) }
{
    match expr {
        Expr::Lit(number) => push_node(out, Node::Lit(*number)),
        Expr::Attr { slot, attr } => push_node(
            out,
            Node::Attr {
                slot: *slot,
                attr: *attr,
            },
        ),
        Expr::Add(a, b) => push_pair(out, Node::Binary(Operator::Add), a.get(), b.get()),
        Expr::Sub(a, b) => push_pair(out, Node::Binary(Operator::Sub), a.get(), b.get()),
        Expr::Mul(a, b) => push_pair(out, Node::Binary(Operator::Mul), a.get(), b.get()),
        Expr::Div(a, b) => push_pair(out, Node::Binary(Operator::Div), a.get(), b.get()),
        Expr::Rem(a, b) => push_pair(out, Node::Binary(Operator::Rem), a.get(), b.get()),
        Expr::Min(a, b) => push_pair(out, Node::Binary(Operator::Min), a.get(), b.get()),
        Expr::Max(a, b) => push_pair(out, Node::Binary(Operator::Max), a.get(), b.get()),
    }
}

#[cycle(exprs)]
fn push_pair(out: &mut Vec<Node>, node: Node, a: &Expr, b: &Expr) -> Result<(), AllocError>
    ensures { OnOk result (out.new.items ≡ out.old.items ++ node ∷ (expr_spelled a.now ++ expr_spelled b.now)) }
{
    out.push(node)?;
    push_expr(out, a)?;
    push_expr(out, b)?;
    Ok(())
}

fn push_node(out: &mut Vec<Node>, node: Node) -> Result<(), AllocError>
    ensures { OnOk result (out.new.items ≡ out.old.items ++ node ∷ []) }
{
    out.push(node)?;
    Ok(())
}

#[cycle(conds)]
fn push_cond(out: &mut Vec<Node>, cond: &Cond) -> Result<(), AllocError>
    ensures { OnOk result (out.new.items ≡ out.old.items ++ cond_spelled cond.now) }
{
    match cond {
        Cond::Eq(a, b) => push_pair(out, Node::Compare(Comparison::Eq), a, b),
        Cond::Lt(a, b) => push_pair(out, Node::Compare(Comparison::Lt), a, b),
        Cond::Le(a, b) => push_pair(out, Node::Compare(Comparison::Le), a, b),
        Cond::And(a, b) => push_both(out, Node::Join(Connective::And), a.get(), b.get()),
        Cond::Or(a, b) => push_both(out, Node::Join(Connective::Or), a.get(), b.get()),
        Cond::Not(a) => {
            out.push(Node::Not)?;
            push_cond(out, a.get())?;
            Ok(())
        }
    }
}

#[cycle(conds)]
fn push_both(out: &mut Vec<Node>, node: Node, a: &Cond, b: &Cond) -> Result<(), AllocError>
    ensures { OnOk result (out.new.items ≡ out.old.items ++ node ∷ (cond_spelled a.now ++ cond_spelled b.now)) }
{
    out.push(node)?;
    push_cond(out, a)?;
    push_cond(out, b)?;
    Ok(())
}

#[cycle(stmts)]
#[tactic(auto, using(crate::proofs::Places::if_at_end))]
fn push_stmt(out: &mut Vec<Node>, stmt: &Stmt) -> Result<(), AllocError>
    requires { stmt_is_short stmt.now ≡ true }
    ensures { OnOk result (out.new.items ≡ out.old.items ++ stmt_spelled stmt.now) }
{
    match stmt {
        Stmt::Set { slot, attr, expr } => {
            out.push(Node::Set {
                slot: *slot,
                attr: *attr,
            })?;
            push_expr(out, expr)?;
            Ok(())
        }
        Stmt::If { cond, then, other } => {
            out.push(Node::If)?;
            push_cond(out, cond)?;
            push_block(out, then.as_slice())?;
            push_block(out, other.as_slice())?;
            Ok(())
        }
    }
}

#[cycle(stmts)]
fn push_stmts(out: &mut Vec<Node>, body: &[Stmt]) -> Result<(), AllocError>
    requires { all_true (map stmt_is_short body.now) ≡ true }
    ensures { OnOk result (out.new.items ≡ out.old.items ++ run_spelled body.now) }
{
    for stmt in body {
        push_stmt(out, stmt)?;
    }
    Ok(())
}

/// Appends a block. Its node stands open until the number of nodes behind it is known.
#[cycle(stmts)]
#[tactic(auto, using(crate::proofs::Places::block_at_end))]
pub(crate) fn push_block(out: &mut Vec<Node>, body: &[Stmt]) -> Result<(), AllocError>
    requires { has_short_blocks body.now ≡ true }
    ensures { OnOk result (out.new.items ≡ out.old.items ++ body_spelled body.now) }
{
    let place = out.len();
    let count = body.len() as u8;
    out.push(Node::Block { count, size: 0 })?;
    push_stmts(out, body)?;
    let size = out.len() - place - 1;
    out[place] = Node::Block { count, size };
    Ok(())
}

#[cycle(short)]
fn stmt_is_short(stmt: &Stmt) -> bool
    ensures { result ≡ stmt_is_short stmt.now }
{
    match stmt {
        Stmt::Set { .. } => true,
        Stmt::If { then, other, .. } => {
            has_short_blocks(then.as_slice()) && has_short_blocks(other.as_slice())
        }
    }
}

/// Whether nodes can hold these statements: there are at most 255 of them, and so in each block inside.
#[cycle(short)]
#[tactic(auto, using(crate::proofs::Places::length_tests))]
pub fn has_short_blocks(stmts: &[Stmt]) -> bool
    ensures { result ≡ has_short_blocks stmts.now }
{
    if stmts.len() > 255 {
        return false;
    }
    for stmt in stmts {
        if !stmt_is_short(stmt) {
            return false;
        }
    }
    true
}
