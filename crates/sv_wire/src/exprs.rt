//! Reading expressions. The depth is the number of levels that are left. What is read is appended.
ghost use Rattle.std.specs.Prelude.{◌≡◌, ◌≤◌, OnOk};
ghost use Rattle.sv_world.specs.Limits.{most_nodes};
ghost use Rattle.sv_world.specs.Spelled.{expr_spelled};
ghost use Rattle.sv_wire.specs.Trees.{Appends, lit_from, attr_from, pair_from, expr_from};

use crate::fault::DecodeFault;
use crate::fields::{byte_of, i64_of};
use crate::nodes::{ExprKind, expr_node};
use sv_world::{Node, Operator};

/// A body that is being read.
#[derive(Drop)]
pub struct BodyReader<'a> {
    /// The bytes that are left.
    pub rest: &'a [u8],
    /// The nodes so far.
    pub out: Vec<Node>,
    /// How many of the language's nodes there are so far. A block is none of them.
    pub nodes: u8,
}

#[tactic(auto, using(crate::proofs::Flat::lit_appended))]
fn lit_next(reader: &mut BodyReader<'_>) -> Result<(), DecodeFault>
    ensures gives { Appends expr_spelled lit_from reader.old result reader.new }
    ensures few { OnOk result (reader.new.nodes ≡ reader.old.nodes) }
{
    let (number, rest) = i64_of(reader.rest)?;
    reader.rest = rest;
    reader.out.push(Node::Lit(number))?;
    Ok(())
}

#[tactic(auto, using(crate::proofs::Flat::attr_appended))]
fn attr_next(reader: &mut BodyReader<'_>) -> Result<(), DecodeFault>
    ensures gives { Appends expr_spelled attr_from reader.old result reader.new }
    ensures few { OnOk result (reader.new.nodes ≡ reader.old.nodes) }
{
    let (slot, rest) = byte_of(reader.rest)?;
    let (attr, rest) = byte_of(rest)?;
    reader.rest = rest;
    reader.out.push(Node::Attr { slot, attr })?;
    Ok(())
}

#[cycle(exprs)]
#[tactic(auto, using(crate::proofs::Flat::pair_appended))]
fn pair_next(reader: &mut BodyReader<'_>, depth: u8, operator: Operator) -> Result<(), DecodeFault>
    ensures gives { Appends expr_spelled (pair_from (λ n rest. expr_from depth n rest) operator) reader.old result reader.new }
    ensures few { OnOk result (reader.new.nodes ≤ most_nodes) }
{
    reader.out.push(Node::Binary(operator))?;
    expr_next(reader, depth)?;
    expr_next(reader, depth)
}

#[cycle(exprs)]
#[tactic(auto, using(crate::proofs::Trees::expr_from_is, crate::proofs::Flat::expr_level_appended))]
pub fn expr_next(reader: &mut BodyReader<'_>, depth: u8) -> Result<(), DecodeFault>
    ensures gives { Appends expr_spelled (λ n rest. expr_from depth n rest) reader.old result reader.new }
    ensures few { OnOk result (reader.new.nodes ≤ most_nodes) }
{
    let (kind, rest) = expr_node(depth, reader.nodes, reader.rest)?;
    reader.rest = rest;
    reader.nodes += 1;
    match kind {
        ExprKind::Lit => lit_next(reader),
        ExprKind::Attr => attr_next(reader),
        ExprKind::Both(operator) => pair_next(reader, depth - 1, operator),
    }
}
