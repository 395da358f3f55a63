//! Reading statements. The depth is the number of levels that are left. What is read is appended.
ghost use Rattle.std.specs.Prelude.{◌≡◌, ◌≤◌, OnOk};
ghost use Rattle.sv_world.specs.Limits.{most_nodes};
ghost use Rattle.sv_world.specs.Spelled.{stmt_spelled, run_spelled, body_spelled};
ghost use Rattle.sv_wire.specs.Steps.{Gives, in_turn};
ghost use Rattle.sv_wire.specs.Trees.{Appends, expr_from, cond_from, set_from, list_by, if_from, stmt_from, body_from};

use crate::conds::cond_next;
use crate::exprs::{BodyReader, expr_next};
use crate::fault::DecodeFault;
use crate::fields::byte_of;
use crate::nodes::{StmtKind, stmt_node};
use std::alloc::Global;
use sv_world::{Body, MOST_DEPTH, Node};

#[tactic(auto, using(crate::proofs::Flat::set_appended))]
fn set_next(reader: &mut BodyReader<'_>, depth: u8) -> Result<(), DecodeFault>
    ensures gives { Appends stmt_spelled (set_from (λ n rest. expr_from depth n rest)) reader.old result reader.new }
    ensures few { OnOk result (reader.new.nodes ≤ most_nodes) }
{
    let (slot, rest) = byte_of(reader.rest)?;
    let (attr, rest) = byte_of(rest)?;
    reader.rest = rest;
    reader.out.push(Node::Set { slot, attr })?;
    expr_next(reader, depth)
}

#[cycle(stmts)]
fn stmts_next(reader: &mut BodyReader<'_>, depth: u8, count: u8) -> Result<(), DecodeFault>
    requires { reader.old.nodes ≤ most_nodes }
    ensures gives { Appends run_spelled (in_turn (λ n rest. stmt_from depth n rest) count) reader.old result reader.new }
    ensures few { OnOk result (reader.new.nodes ≤ most_nodes) }
{
    for _ in 0..count {
        stmt_next(reader, depth)?;
    }
    Ok(())
}

// How many nodes the statements have is known behind them.
#[cycle(stmts)]
#[tactic(auto, using(crate::proofs::Flat::list_appended, crate::proofs::Flat::appended_longer))]
fn list_next(reader: &mut BodyReader<'_>, depth: u8) -> Result<(), DecodeFault>
    requires { reader.old.nodes ≤ most_nodes }
    ensures gives { Appends body_spelled (list_by (λ n rest. stmt_from depth n rest)) reader.old result reader.new }
    ensures few { OnOk result (reader.new.nodes ≤ most_nodes) }
{
    let (count, rest) = byte_of(reader.rest)?;
    reader.rest = rest;
    let place = reader.out.len();
    reader.out.push(Node::Block { count, size: 0 })?;
    stmts_next(reader, depth, count)?;
    let size = reader.out.len() - place - 1;
    reader.out[place] = Node::Block { count, size };
    Ok(())
}

#[cycle(stmts)]
#[tactic(auto, using(crate::proofs::Flat::if_appended))]
fn if_next(reader: &mut BodyReader<'_>, depth: u8) -> Result<(), DecodeFault>
    ensures gives { Appends stmt_spelled (if_from (λ n rest. cond_from depth n rest) (λ n rest. stmt_from depth n rest)) reader.old result reader.new }
    ensures few { OnOk result (reader.new.nodes ≤ most_nodes) }
{
    reader.out.push(Node::If)?;
    cond_next(reader, depth)?;
    list_next(reader, depth)?;
    list_next(reader, depth)
}

#[cycle(stmts)]
#[tactic(auto, using(crate::proofs::Trees::stmt_from_is, crate::proofs::Flat::stmt_level_appended))]
fn stmt_next(reader: &mut BodyReader<'_>, depth: u8) -> Result<(), DecodeFault>
    ensures gives { Appends stmt_spelled (λ n rest. stmt_from depth n rest) reader.old result reader.new }
    ensures few { OnOk result (reader.new.nodes ≤ most_nodes) }
{
    let (kind, rest) = stmt_node(depth, reader.nodes, reader.rest)?;
    reader.rest = rest;
    reader.nodes += 1;
    match kind {
        StmtKind::Set => set_next(reader, depth - 1),
        StmtKind::If => if_next(reader, depth - 1),
    }
}

/// The room that a body's list begins with. Most bodies have fewer nodes. What is taken here stays as long as the body.
const BODY_ROOM: usize = 16;

#[tactic(auto, using(crate::proofs::Flat::body_found), unfolding(crate::specs::Trees::body_from))]
pub fn body_of(alloc: Global, bytes: &[u8]) -> Result<(Body, &[u8]), DecodeFault>
    ensures { Gives (λ x. (x.0, x.1.now)) result (body_from bytes.now) }
{
    let mut reader = BodyReader {
        rest: bytes,
        out: Vec::with_capacity(alloc, BODY_ROOM)?,
        nodes: 0,
    };
    list_next(&mut reader, MOST_DEPTH)?;
    let rest = reader.rest;
    Ok((Body::from_nodes(reader.out)?, rest))
}
