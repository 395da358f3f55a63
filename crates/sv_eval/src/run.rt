//! Running a body on the values of its slots.
ghost use Rattle.std.specs.Prelude.{◌≡◌, ◌<◌, Some, None, true, length, drop, MatchOption, IfSome, MatchBool};
ghost use Rattle.sv_world.specs.Parts.{first, second, parts, is_expr, is_cond, is_stmt, is_block};
ghost use Rattle.sv_eval.specs.Numbers.{quotient_of, remainder_of};
ghost use Rattle.sv_eval.specs.Evaluation.{attribute_in, with_number, both, body_after};
ghost use Rattle.sv_eval.specs.Walks.{combined, compared, connected, part_number, part_holds, part_after, block_after};

use sv_world::{
    Body, Comparison, CondHead, Connective, ExprHead, NodeCursor, Operator, StmtHead, Value,
};

fn attribute_in(slots: &[Value], slot: u8, attr: u8) -> i64
    ensures { result ≡ attribute_in slots.now slot attr }
{
    match slots.get(usize::from(slot)) {
        Some(value) => match value.as_slice().get(usize::from(attr)) {
            Some(number) => *number,
            None => 0,
        },
        None => 0,
    }
}

fn quotient(left: i64, right: i64) -> Option<i64>
    ensures { result ≡ quotient_of left right }
{
    left.checked_div(right)
}

fn remainder(left: i64, right: i64) -> Option<i64>
    ensures { result ≡ remainder_of left right }
{
    left.checked_rem(right)
}

#[inline(always)]
fn combined(operator: Operator, left: i64, right: i64) -> Option<i64>
    ensures { result ≡ combined operator left right }
{
    match operator {
        Operator::Add => left.checked_add(right),
        Operator::Sub => left.checked_sub(right),
        Operator::Mul => left.checked_mul(right),
        Operator::Div => quotient(left, right),
        Operator::Rem => remainder(left, right),
        Operator::Min => Some(left.min(right)),
        Operator::Max => Some(left.max(right)),
    }
}

#[inline(always)]
fn compared(comparison: Comparison, left: i64, right: i64) -> bool
    ensures { result ≡ compared comparison left right }
{
    match comparison {
        Comparison::Eq => left == right,
        Comparison::Lt => left < right,
        Comparison::Le => left <= right,
    }
}

#[inline(always)]
fn connected(connective: Connective, left: bool, right: bool) -> bool
    ensures { result ≡ connected connective left right }
{
    match connective {
        Connective::And => left & right,
        Connective::Or => left | right,
    }
}

// Each function takes the nodes of its tree from the cursor. Where it gives none, or false, the cursor is left in the middle.

#[cycle(exprs)]
#[inline(always)]
#[tactic(auto, using(crate::proofs::Walks::exprs))]
fn expr_number(nodes: &mut NodeCursor<'_>, slots: &[Value]) -> Option<i64>
    requires { is_expr (first (parts nodes.old)) ≡ true }
    ensures number { MatchOption result (part_number (first (parts nodes.old)) slots.now ≡ None) (λ x. part_number (first (parts nodes.old)) slots.now ≡ Some x) }
    ensures rest { IfSome result (λ _. parts nodes.new ≡ drop 1 (parts nodes.old)) }
    ensures shorter { IfSome result (λ _. length nodes.new < length nodes.old) }
{
    match nodes.expr() {
        ExprHead::Lit(number) => Some(number),
        ExprHead::Attr { slot, attr } => Some(attribute_in(slots, slot, attr)),
        ExprHead::Binary(operator) => pair_number(nodes, operator, slots),
    }
}

#[cycle(exprs)]
#[tactic(auto, using(crate::proofs::Walks::exprs))]
fn pair_number(nodes: &mut NodeCursor<'_>, operator: Operator, slots: &[Value]) -> Option<i64>
    requires left { is_expr (first (parts nodes.old)) ≡ true }
    requires right { is_expr (second (parts nodes.old)) ≡ true }
    ensures number { MatchOption result (both (combined operator) (part_number (first (parts nodes.old)) slots.now) (part_number (second (parts nodes.old)) slots.now) ≡ None) (λ x. both (combined operator) (part_number (first (parts nodes.old)) slots.now) (part_number (second (parts nodes.old)) slots.now) ≡ Some x) }
    ensures rest { IfSome result (λ _. parts nodes.new ≡ drop 2 (parts nodes.old)) }
    ensures shorter { IfSome result (λ _. length nodes.new < length nodes.old) }
{
    let left = expr_number(nodes, slots)?;
    let right = expr_number(nodes, slots)?;
    combined(operator, left, right)
}

#[tactic(auto, using(crate::proofs::Walks::conds))]
fn cond_holds(nodes: &mut NodeCursor<'_>, slots: &[Value]) -> Option<bool>
    requires { is_cond (first (parts nodes.old)) ≡ true }
    ensures holds { MatchOption result (part_holds (first (parts nodes.old)) slots.now ≡ None) (λ x. part_holds (first (parts nodes.old)) slots.now ≡ Some x) }
    ensures rest { IfSome result (λ _. parts nodes.new ≡ drop 1 (parts nodes.old)) }
    ensures shorter { IfSome result (λ _. length nodes.new < length nodes.old) }
{
    match nodes.cond() {
        CondHead::Compare(comparison) => {
            let left = expr_number(nodes, slots)?;
            let right = expr_number(nodes, slots)?;
            Some(compared(comparison, left, right))
        }
        CondHead::Join(connective) => {
            let left = cond_holds(nodes, slots)?;
            let right = cond_holds(nodes, slots)?;
            Some(connected(connective, left, right))
        }
        CondHead::Not => {
            let holds = cond_holds(nodes, slots)?;
            Some(!holds)
        }
    }
}

fn set_number(slots: &mut [Value], slot: u8, attr: u8, number: i64)
    ensures { slots.new ≡ with_number slots.old slot attr number }
{
    let slot = usize::from(slot);
    if slot < slots.len() {
        slots[slot].set(usize::from(attr), number);
    }
}

#[cycle(statements)]
#[tactic(auto, using(crate::proofs::Walks::stmts))]
fn run_stmt(nodes: &mut NodeCursor<'_>, slots: &mut [Value]) -> bool
    requires { is_stmt (first (parts nodes.old)) ≡ true }
    ensures after { MatchBool result (part_after (first (parts nodes.old)) slots.old ≡ Some slots.new) (part_after (first (parts nodes.old)) slots.old ≡ None) }
    ensures rest { result ≡ true → parts nodes.new ≡ drop 1 (parts nodes.old) }
    ensures shorter { result ≡ true → length nodes.new < length nodes.old }
{
    match nodes.stmt() {
        StmtHead::Set { slot, attr } => match expr_number(nodes, slots) {
            Some(number) => {
                set_number(slots, slot, attr, number);
                true
            }
            None => false,
        },
        StmtHead::If => match cond_holds(nodes, slots) {
            Some(true) => {
                if run_block(nodes, slots) {
                    nodes.skip();
                    true
                } else {
                    false
                }
            }
            Some(false) => {
                nodes.skip();
                run_block(nodes, slots)
            }
            None => false,
        },
    }
}

#[cycle(statements)]
#[tactic(auto, using(crate::proofs::Walks::blocks))]
fn run_block(nodes: &mut NodeCursor<'_>, slots: &mut [Value]) -> bool
    requires { is_block (first (parts nodes.old)) ≡ true }
    ensures after { MatchBool result (block_after (first (parts nodes.old)) slots.old ≡ Some slots.new) (block_after (first (parts nodes.old)) slots.old ≡ None) }
    ensures rest { result ≡ true → parts nodes.new ≡ drop 1 (parts nodes.old) }
    ensures shorter { result ≡ true → length nodes.new < length nodes.old }
{
    let count = nodes.block();
    for _ in 0..count {
        if !run_stmt(nodes, slots) {
            return false;
        }
    }
    true
}

/// Runs the statements in order on the slots' values. False where one is void, and the slots are then left in the middle.
pub(crate) fn run_body(body: &Body, slots: &mut [Value]) -> bool
    ensures { MatchBool result (body_after body.now slots.old ≡ Some slots.new) (body_after body.now slots.old ≡ None) }
{
    let mut nodes = NodeCursor::new(body.nodes());
    run_block(&mut nodes, slots)
}
