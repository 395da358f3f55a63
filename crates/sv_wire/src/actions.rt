//! Reading actions.
ghost use Rattle.std.specs.Prelude.{◌≡◌, ◌≤◌, IfOk};
ghost use Rattle.sv_world.specs.Limits.{most_reads};
ghost use Rattle.sv_wire.specs.Steps.{Gives, several};
ghost use Rattle.sv_wire.specs.Messages.{mask_from, point_from, action_from, item_from};

use crate::fault::{DecodeFault, WireCause, stop_at};
use crate::fields::{count_of, i32_of, list_for, objects_of, u16_of, u32_of};
use crate::message::Item;
use crate::stmts::body_of;
use std::alloc::Global;
use sv_lists::List;
use sv_world::{Action, ClientId, MOST_READS, Point};

#[tactic(auto, unfolding(crate::specs::Messages::mask_from))]
fn mask_of(count: u8, bytes: &[u8]) -> Result<(u16, &[u8]), DecodeFault>
    requires { count ≤ most_reads }
    ensures { Gives (λ x. (x.0, x.1.now)) result (mask_from count bytes.now) }
{
    let (mask, rest) = u16_of(bytes)?;
    if 1u32 << count <= u32::from(mask) {
        return Err(stop_at(bytes, WireCause::Mask));
    }
    Ok((mask, rest))
}

#[tactic(auto, unfolding(crate::specs::Messages::point_from))]
fn point_of(bytes: &[u8]) -> Result<(Point, &[u8]), DecodeFault>
    ensures { Gives (λ x. (x.0, x.1.now)) result (point_from bytes.now) }
{
    let (x, rest) = i32_of(bytes)?;
    let (y, rest) = i32_of(rest)?;
    Ok((Point { x, y }, rest))
}

#[tactic(auto, unfolding(crate::specs::Messages::action_from))]
pub fn action_of(alloc: Global, bytes: &[u8]) -> Result<(Action, &[u8]), DecodeFault>
    ensures { Gives (λ x. (x.0, x.1.now)) result (action_from bytes.now) }
{
    let (count, rest) = count_of(1, MOST_READS as u8, bytes)?;
    let (reads, rest) = objects_of(alloc, count, rest)?;
    let (mask, rest) = mask_of(count, rest)?;
    let (origin, rest) = point_of(rest)?;
    let (body, rest) = body_of(alloc, rest)?;
    Ok((
        Action {
            reads,
            mask,
            origin,
            body,
        },
        rest,
    ))
}

#[tactic(auto, unfolding(crate::specs::Messages::item_from))]
fn item_of(alloc: Global, bytes: &[u8]) -> Result<(Item, &[u8]), DecodeFault>
    ensures { Gives (λ x. (x.0, x.1.now)) result (item_from bytes.now) }
{
    let (pos, rest) = u32_of(bytes)?;
    let (client, rest) = u16_of(rest)?;
    let (seq, rest) = u32_of(rest)?;
    let (action, rest) = action_of(alloc, rest)?;
    Ok((
        Item {
            pos,
            client: ClientId(client),
            seq,
            action,
        },
        rest,
    ))
}

pub fn items_of(alloc: Global, count: u8, bytes: &[u8]) -> Result<(List<Item>, &[u8]), DecodeFault>
    ensures { Gives (λ x. (x.0, x.1.now)) result (several item_from count bytes.now) }
{
    let mut items = list_for(alloc, usize::from(count))?;
    let mut rest = bytes;
    for _ in 0..count {
        let (item, after) = item_of(alloc, rest)?;
        items.push(item)?;
        rest = after;
    }
    Ok((items, rest))
}
