//! Great replies: as many values, items, reads and statements as a relay may have, and as what was seen.
ghost use Rattle.std.specs.Prelude.{◌≡◌, [], ◌∷◌, IfOk};
ghost use Rattle.sv_wire.specs.Laws.{IsReply};
ghost use Rattle.test_vectors.specs.Worked.{greatest_number, great_heads, great_reads, great_body, great_action, great_items};

use std::alloc::{AllocError, Global};
use sv_lists::List;
use sv_wire::{Item, ObjectValue, Reply};
use sv_world::{
    Action, Body, ClientId, Expr, ObjectId, Point, Reads, Stmt, Value, has_short_blocks,
};

fn great_value(alloc: Global) -> Result<Value, AllocError>
    ensures { IfOk result (λ value. value ≡ greatest_number ∷ greatest_number ∷ greatest_number ∷ greatest_number ∷ []) }
{
    let mut value = Value::new(alloc);
    value.push(i64::MAX)?;
    value.push(i64::MAX)?;
    value.push(i64::MAX)?;
    value.push(i64::MAX)?;
    Ok(value)
}

#[tactic(auto, using(crate::proofs::Relays::heads_more))]
fn great_head(alloc: Global, count: u16) -> Result<List<ObjectValue>, AllocError>
    ensures { IfOk result (λ head. head ≡ great_heads count) }
{
    let mut head = List::new(alloc);
    for object in 0..count {
        head.push(ObjectValue {
            object: ObjectId(object),
            value: great_value(alloc)?,
        })?;
    }
    Ok(head)
}

#[tactic(auto, using(crate::proofs::Relays::reads_more))]
fn great_reading(alloc: Global) -> Result<Reads, AllocError>
    ensures { IfOk result (λ reads. reads ≡ great_reads 16) }
{
    let mut reads = Reads::new(alloc);
    for object in 0..16u16 {
        reads.push(ObjectId(object))?;
    }
    Ok(reads)
}

#[tactic(auto, using(crate::proofs::Relays::body_more))]
fn great_statements(alloc: Global) -> Result<List<Stmt>, AllocError>
    ensures { IfOk result (λ body. body ≡ great_body 32) }
{
    let mut body = List::new(alloc);
    for _ in 0..32u8 {
        body.push(Stmt::Set {
            slot: 0,
            attr: 0,
            expr: Expr::Lit(i64::MAX),
        })?;
    }
    Ok(body)
}

/// The body of these statements, where nodes can hold them.
fn flat(alloc: Global, stmts: &[Stmt]) -> Result<Body, AllocError>
    ensures { IfOk result (λ body. body ≡ stmts.now) }
{
    if !has_short_blocks(stmts) {
        return Err(AllocError);
    }
    Body::from_stmts(alloc, stmts)
}

fn great_acting(alloc: Global) -> Result<Action, AllocError>
    ensures { IfOk result (λ action. action ≡ great_action) }
{
    Ok(Action {
        reads: great_reading(alloc)?,
        mask: 65_535,
        origin: Point { x: 0, y: 0 },
        body: flat(alloc, great_statements(alloc)?.as_slice())?,
    })
}

#[tactic(auto, using(crate::proofs::Relays::items_more))]
fn great_list(alloc: Global) -> Result<List<Item>, AllocError>
    ensures { IfOk result (λ items. items ≡ great_items 33) }
{
    let mut items = List::new(alloc);
    for _ in 0..33u8 {
        items.push(Item {
            pos: 1,
            client: ClientId(31),
            seq: 1,
            action: great_acting(alloc)?,
        })?;
    }
    Ok(items)
}

#[tactic(auto, using(crate::proofs::Relays::relay_is))]
pub(crate) fn great_relay(alloc: Global) -> Result<Reply, AllocError>
    ensures { IfOk result IsReply }
{
    Ok(Reply::Relay {
        seq: 1,
        commit: 0,
        head: great_head(alloc, 528)?,
        items: great_list(alloc)?,
    })
}

#[tactic(auto, using(crate::proofs::Relays::seen_is))]
pub(crate) fn great_seen(alloc: Global) -> Result<Reply, AllocError>
    ensures { IfOk result IsReply }
{
    Ok(Reply::Seen {
        last: 1,
        commit: 0,
        head: great_head(alloc, 544)?,
        items: great_list(alloc)?,
    })
}
