//! The kinds of the nodes of an action's body.
ghost use Rattle.std.specs.Prelude.{◌≡◌, ◌<◌, OnOk};
ghost use Rattle.sv_world.specs.Limits.{most_nodes};
ghost use Rattle.sv_wire.specs.Steps.{Gives};
ghost use Rattle.sv_wire.specs.Nodes.{room_at, node_from, expr_kind_of, cond_kind_of, stmt_kind_of};

use crate::fault::{DecodeFault, WireCause, stop_at};
use crate::fields::byte_of;
use sv_world::{Comparison, Connective, MOST_NODES, Operator};

#[derive(Clone, Copy)]
pub enum ExprKind {
    Lit,
    Attr,
    Both(Operator),
}

#[derive(Clone, Copy)]
pub enum CondKind {
    Compare(Comparison),
    Both(Connective),
    Not,
}

#[derive(Clone, Copy)]
pub enum StmtKind {
    Set,
    If,
}

#[tactic(auto, unfolding(crate::specs::Nodes::expr_kind_of))]
fn expr_kind(byte: u8) -> Option<ExprKind>
    ensures { result ≡ expr_kind_of byte }
{
    match byte {
        0x20 => Some(ExprKind::Lit),
        0x21 => Some(ExprKind::Attr),
        0x22 => Some(ExprKind::Both(Operator::Add)),
        0x23 => Some(ExprKind::Both(Operator::Sub)),
        0x24 => Some(ExprKind::Both(Operator::Mul)),
        0x25 => Some(ExprKind::Both(Operator::Div)),
        0x26 => Some(ExprKind::Both(Operator::Rem)),
        0x27 => Some(ExprKind::Both(Operator::Min)),
        0x28 => Some(ExprKind::Both(Operator::Max)),
        _ => None,
    }
}

#[tactic(auto, unfolding(crate::specs::Nodes::cond_kind_of))]
fn cond_kind(byte: u8) -> Option<CondKind>
    ensures { result ≡ cond_kind_of byte }
{
    match byte {
        0x30 => Some(CondKind::Compare(Comparison::Eq)),
        0x31 => Some(CondKind::Compare(Comparison::Lt)),
        0x32 => Some(CondKind::Compare(Comparison::Le)),
        0x33 => Some(CondKind::Both(Connective::And)),
        0x34 => Some(CondKind::Both(Connective::Or)),
        0x35 => Some(CondKind::Not),
        _ => None,
    }
}

#[tactic(auto, unfolding(crate::specs::Nodes::stmt_kind_of))]
fn stmt_kind(byte: u8) -> Option<StmtKind>
    ensures { result ≡ stmt_kind_of byte }
{
    match byte {
        0x10 => Some(StmtKind::Set),
        0x11 => Some(StmtKind::If),
        _ => None,
    }
}

/// Whether a node may stand here, with so many levels left for it and so many nodes before it.
#[tactic(auto, unfolding(crate::specs::Nodes::room_at))]
fn has_room(depth: u8, nodes: u8, bytes: &[u8]) -> Result<(), DecodeFault>
    ensures gives { Gives (λ _. tt) result (room_at depth nodes bytes.now) }
    ensures few { OnOk result ((nodes < most_nodes) × (0 < depth)) }
{
    if MOST_NODES <= nodes {
        return Err(stop_at(bytes, WireCause::Large));
    }
    if depth == 0 {
        return Err(stop_at(bytes, WireCause::Deep));
    }
    Ok(())
}

#[tactic(auto, unfolding(crate::specs::Nodes::node_from))]
pub fn expr_node(depth: u8, nodes: u8, bytes: &[u8]) -> Result<(ExprKind, &[u8]), DecodeFault>
    ensures gives { Gives (λ x. (x.0, x.1.now)) result (node_from expr_kind_of depth nodes bytes.now) }
    ensures few { OnOk result ((nodes < most_nodes) × (0 < depth)) }
{
    let (byte, rest) = byte_of(bytes)?;
    let Some(kind) = expr_kind(byte) else {
        return Err(stop_at(bytes, WireCause::Kind));
    };
    has_room(depth, nodes, bytes)?;
    Ok((kind, rest))
}

#[tactic(auto, unfolding(crate::specs::Nodes::node_from))]
pub fn cond_node(depth: u8, nodes: u8, bytes: &[u8]) -> Result<(CondKind, &[u8]), DecodeFault>
    ensures gives { Gives (λ x. (x.0, x.1.now)) result (node_from cond_kind_of depth nodes bytes.now) }
    ensures few { OnOk result ((nodes < most_nodes) × (0 < depth)) }
{
    let (byte, rest) = byte_of(bytes)?;
    let Some(kind) = cond_kind(byte) else {
        return Err(stop_at(bytes, WireCause::Kind));
    };
    has_room(depth, nodes, bytes)?;
    Ok((kind, rest))
}

#[tactic(auto, unfolding(crate::specs::Nodes::node_from))]
pub fn stmt_node(depth: u8, nodes: u8, bytes: &[u8]) -> Result<(StmtKind, &[u8]), DecodeFault>
    ensures gives { Gives (λ x. (x.0, x.1.now)) result (node_from stmt_kind_of depth nodes bytes.now) }
    ensures few { OnOk result ((nodes < most_nodes) × (0 < depth)) }
{
    let (byte, rest) = byte_of(bytes)?;
    let Some(kind) = stmt_kind(byte) else {
        return Err(stop_at(bytes, WireCause::Kind));
    };
    has_room(depth, nodes, bytes)?;
    Ok((kind, rest))
}
