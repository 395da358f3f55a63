//! Whether two bodies are equal.
ghost use Rattle.std.specs.Prelude.{◌≡◌, ◌↔◌, true, List};
ghost use Rattle.sv_world.specs.declared.action.Stmt.{Stmt};
ghost use Rattle.sv_world.specs.Same.{operator_number, comparison_number, connective_number, node_kind, node_field, last_field, is_same_node, are_same_nodes, is_same_body};

use crate::{Body, Comparison, Connective, Node, Operator};

/// Whether two bodies have the same statements.
#[tactic(auto, using(crate::proofs::Same::spelled_same))]
pub fn same_body(body: &Body, other: &Body) -> bool
    ensures { result ≡ is_same_body body.now other.now }
{
    same_nodes(body.nodes(), other.nodes())
}

/// A law of bodies: the test that two are the same is passed just by equal ones.
pub fn same_bodies_are_equal()
    ensures { (a b : List Stmt) → (is_same_body a b ≡ true) ↔ (a ≡ b) }
{}

fn same_nodes(nodes: &[Node], others: &[Node]) -> bool
    ensures { result ≡ are_same_nodes nodes.now others.now }
{
    let mut left = others;
    for node in nodes {
        let [other, rest @ ..] = left else {
            return false;
        };
        if !same_node(*node, *other) {
            return false;
        }
        left = rest;
    }
    left.is_empty()
}

fn same_node(node: Node, other: Node) -> bool
    ensures { result ≡ is_same_node node other }
{
    node_kind(node) == node_kind(other)
        && node_field(node) == node_field(other)
        && last_field(node) == last_field(other)
}

fn node_kind(node: Node) -> u8
    ensures { result ≡ node_kind node }
{
    match node {
        Node::Lit(_) => 0,
        Node::Attr { .. } => 1,
        Node::Binary(_) => 2,
        Node::Compare(_) => 3,
        Node::Join(_) => 4,
        Node::Not => 5,
        Node::Set { .. } => 6,
        Node::If => 7,
        Node::Block { .. } => 8,
    }
}

fn node_field(node: Node) -> i64
    ensures { result ≡ node_field node }
{
    match node {
        Node::Lit(number) => number,
        Node::Attr { slot, .. } => i64::from(slot),
        Node::Binary(operator) => i64::from(operator_number(operator)),
        Node::Compare(comparison) => i64::from(comparison_number(comparison)),
        Node::Join(connective) => i64::from(connective_number(connective)),
        Node::Not => 0,
        Node::Set { slot, .. } => i64::from(slot),
        Node::If => 0,
        Node::Block { count, .. } => i64::from(count),
    }
}

fn last_field(node: Node) -> usize
    ensures { result ≡ last_field node }
{
    match node {
        Node::Attr { attr, .. } => usize::from(attr),
        Node::Set { attr, .. } => usize::from(attr),
        Node::Block { size, .. } => size,
        Node::Lit(_) | Node::Binary(_) | Node::Compare(_) | Node::Join(_) | Node::Not | Node::If =>
            0,
    }
}

fn operator_number(operator: Operator) -> u8
    ensures { result ≡ operator_number operator }
{
    match operator {
        Operator::Add => 0,
        Operator::Sub => 1,
        Operator::Mul => 2,
        Operator::Div => 3,
        Operator::Rem => 4,
        Operator::Min => 5,
        Operator::Max => 6,
    }
}

fn comparison_number(comparison: Comparison) -> u8
    ensures { result ≡ comparison_number comparison }
{
    match comparison {
        Comparison::Eq => 0,
        Comparison::Lt => 1,
        Comparison::Le => 2,
    }
}

fn connective_number(connective: Connective) -> u8
    ensures { result ≡ connective_number connective }
{
    match connective {
        Connective::And => 0,
        Connective::Or => 1,
    }
}
