//! Writing the body of an action.
ghost use Rattle.std.specs.Prelude.{◌≡◌, ◌++◌, OnOk};
ghost use Rattle.std.specs.List.{flat_map};
ghost use Rattle.sv_wire.specs.Spelling.{operator_byte, comparison_byte, connective_byte, node_bytes, body_bytes};

use crate::put::put_i64;
use std::alloc::AllocError;
use sv_world::{Body, Comparison, Connective, Node, Operator};

fn operator_byte(operator: Operator) -> u8
    ensures { result ≡ operator_byte operator }
{
    match operator {
        Operator::Add => 0x22,
        Operator::Sub => 0x23,
        Operator::Mul => 0x24,
        Operator::Div => 0x25,
        Operator::Rem => 0x26,
        Operator::Min => 0x27,
        Operator::Max => 0x28,
    }
}

fn comparison_byte(comparison: Comparison) -> u8
    ensures { result ≡ comparison_byte comparison }
{
    match comparison {
        Comparison::Eq => 0x30,
        Comparison::Lt => 0x31,
        Comparison::Le => 0x32,
    }
}

fn connective_byte(connective: Connective) -> u8
    ensures { result ≡ connective_byte connective }
{
    match connective {
        Connective::And => 0x33,
        Connective::Or => 0x34,
    }
}

fn put_node(out: &mut Vec<u8>, node: Node) -> Result<(), AllocError>
    ensures { OnOk result (out.new.items ≡ out.old.items ++ node_bytes node) }
{
    match node {
        Node::Lit(number) => {
            out.push(0x20)?;
            put_i64(out, number)
        }
        Node::Attr { slot, attr } => out.extend_from_slice(&[0x21, slot, attr]),
        Node::Binary(operator) => Ok(out.push(operator_byte(operator))?),
        Node::Compare(comparison) => Ok(out.push(comparison_byte(comparison))?),
        Node::Join(connective) => Ok(out.push(connective_byte(connective))?),
        Node::Not => Ok(out.push(0x35)?),
        Node::Set { slot, attr } => out.extend_from_slice(&[0x10, slot, attr]),
        Node::If => Ok(out.push(0x11)?),
        Node::Block { count, .. } => Ok(out.push(count)?),
    }
}

/// The nodes stand in the order of their bytes.
fn put_nodes(out: &mut Vec<u8>, nodes: &[Node]) -> Result<(), AllocError>
    ensures { OnOk result (out.new.items ≡ out.old.items ++ flat_map node_bytes nodes.now) }
{
    for node in nodes {
        put_node(out, *node)?;
    }
    Ok(())
}

#[tactic(auto, using(crate::proofs::Written::nodes_written))]
pub fn put_body(out: &mut Vec<u8>, body: &Body) -> Result<(), AllocError>
    ensures { OnOk result (out.new.items ≡ out.old.items ++ body_bytes body.now) }
{
    put_nodes(out, body.nodes())
}
