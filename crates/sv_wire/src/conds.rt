//! Reading conditions. The depth is the number of levels that are left. What is read is appended.
ghost use Rattle.std.specs.Prelude.{◌≡◌, ◌≤◌, OnOk};
ghost use Rattle.sv_world.specs.Limits.{most_nodes};
ghost use Rattle.sv_world.specs.Spelled.{cond_spelled};
ghost use Rattle.sv_wire.specs.Trees.{Appends, expr_from, compare_from, join_from, not_from, cond_from};

use crate::exprs::{BodyReader, expr_next};
use crate::fault::DecodeFault;
use crate::nodes::{CondKind, cond_node};
use sv_world::{Comparison, Connective, Node};

#[tactic(auto, using(crate::proofs::Flat::compare_appended))]
fn compare_next(
    reader: &mut BodyReader<'_>,
    depth: u8,
    comparison: Comparison,
) -> Result<(), DecodeFault>
    ensures gives { Appends cond_spelled (compare_from (λ n rest. expr_from depth n rest) comparison) reader.old result reader.new }
    ensures few { OnOk result (reader.new.nodes ≤ most_nodes) }
{
    reader.out.push(Node::Compare(comparison))?;
    expr_next(reader, depth)?;
    expr_next(reader, depth)
}

#[cycle(conds)]
#[tactic(auto, using(crate::proofs::Flat::join_appended))]
fn join_next(
    reader: &mut BodyReader<'_>,
    depth: u8,
    connective: Connective,
) -> Result<(), DecodeFault>
    ensures gives { Appends cond_spelled (join_from (λ n rest. cond_from depth n rest) connective) reader.old result reader.new }
    ensures few { OnOk result (reader.new.nodes ≤ most_nodes) }
{
    reader.out.push(Node::Join(connective))?;
    cond_next(reader, depth)?;
    cond_next(reader, depth)
}

#[cycle(conds)]
#[tactic(auto, using(crate::proofs::Flat::not_appended))]
fn not_next(reader: &mut BodyReader<'_>, depth: u8) -> Result<(), DecodeFault>
    ensures gives { Appends cond_spelled (not_from (λ n rest. cond_from depth n rest)) reader.old result reader.new }
    ensures few { OnOk result (reader.new.nodes ≤ most_nodes) }
{
    reader.out.push(Node::Not)?;
    cond_next(reader, depth)
}

#[cycle(conds)]
#[tactic(auto, using(crate::proofs::Trees::cond_from_is, crate::proofs::Flat::cond_level_appended))]
pub fn cond_next(reader: &mut BodyReader<'_>, depth: u8) -> Result<(), DecodeFault>
    ensures gives { Appends cond_spelled (λ n rest. cond_from depth n rest) reader.old result reader.new }
    ensures few { OnOk result (reader.new.nodes ≤ most_nodes) }
{
    let (kind, rest) = cond_node(depth, reader.nodes, reader.rest)?;
    reader.rest = rest;
    reader.nodes += 1;
    match kind {
        CondKind::Compare(comparison) => compare_next(reader, depth - 1, comparison),
        CondKind::Both(connective) => join_next(reader, depth - 1, connective),
        CondKind::Not => not_next(reader, depth - 1),
    }
}
