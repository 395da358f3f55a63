//! Reading numbers, counts, objects, values and lists of them.
ghost use Rattle.std.specs.Prelude.{◌≡◌, ◌≤◌, ◌<◌, [], IfOk, OnOk, FitsSigned};
ghost use Rattle.std.specs.Int.{w32, w64};
ghost use Rattle.sv_wire.specs.Steps.{Gives, several, in_turn};
ghost use Rattle.sv_wire.specs.Fields.{byte_from, number_from, int_from, count_from, head_count_from, object_from, objects_from, value_from, held_from, helds_from, head_from, result_from};

use crate::fault::{DecodeFault, WireCause, stop_at};
use crate::message::{Done1, ObjectValue};
use byteorder::{BigEndian, ByteOrder};
use std::alloc::{AllocError, Global};
use sv_lists::List;
use sv_world::{MOST_ATTRS, MOST_READS, ObjectId, Reads, Value};

/// The objects of a head: as many as the actions of a relay read.
pub const MOST_HELD: u16 = 528;

/// The objects of the head of what was seen: as many as its actions read, and those that were asked for.
pub const MOST_SEEN: u16 = 544;

/// The empty list, with room for the elements that its count announces.
pub fn list_for<T>(alloc: Global, count: usize) -> Result<List<T>, AllocError>
    ensures { IfOk result (λ list. list ≡ []) }
{
    Ok(List::from_vec(Vec::with_capacity(alloc, count)?))
}

#[tactic(auto, unfolding(crate::specs::Fields::byte_from))]
pub fn byte_of(bytes: &[u8]) -> Result<(u8, &[u8]), DecodeFault>
    ensures { Gives (λ x. (x.0, x.1.now)) result (byte_from bytes.now) }
{
    match bytes {
        [] => Err(stop_at(bytes, WireCause::Short)),
        [byte, rest @ ..] => Ok((*byte, rest)),
    }
}

#[tactic(auto, unfolding(crate::specs::Fields::number_from))]
pub fn u16_of(bytes: &[u8]) -> Result<(u16, &[u8]), DecodeFault>
    ensures { Gives (λ x. (x.0, x.1.now)) result (number_from 2 bytes.now) }
{
    if bytes.len() < 2 {
        return Err(stop_at(bytes, WireCause::Short));
    }
    Ok((BigEndian::read_u16(bytes), &bytes[2..]))
}

#[tactic(auto, unfolding(crate::specs::Fields::number_from))]
pub fn u32_of(bytes: &[u8]) -> Result<(u32, &[u8]), DecodeFault>
    ensures { Gives (λ x. (x.0, x.1.now)) result (number_from 4 bytes.now) }
{
    if bytes.len() < 4 {
        return Err(stop_at(bytes, WireCause::Short));
    }
    Ok((BigEndian::read_u32(bytes), &bytes[4..]))
}

#[tactic(auto, unfolding(crate::specs::Fields::number_from, crate::specs::Fields::int_from))]
pub fn i32_of(bytes: &[u8]) -> Result<(i32, &[u8]), DecodeFault>
    ensures { Gives (λ x. (x.0, x.1.now)) result (int_from w32 bytes.now) }
{
    if bytes.len() < 4 {
        return Err(stop_at(bytes, WireCause::Short));
    }
    Ok((BigEndian::read_i32(bytes), &bytes[4..]))
}

#[tactic(auto, unfolding(crate::specs::Fields::number_from, crate::specs::Fields::int_from))]
pub fn i64_of(bytes: &[u8]) -> Result<(i64, &[u8]), DecodeFault>
    ensures gives { Gives (λ x. (x.0, x.1.now)) result (int_from w64 bytes.now) }
    ensures signed { IfOk result (λ x. FitsSigned w64 x.0) }
{
    if bytes.len() < 8 {
        return Err(stop_at(bytes, WireCause::Short));
    }
    Ok((BigEndian::read_i64(bytes), &bytes[8..]))
}

#[tactic(auto, unfolding(crate::specs::Fields::count_from))]
pub fn count_of(low: u8, high: u8, bytes: &[u8]) -> Result<(u8, &[u8]), DecodeFault>
    ensures { Gives (λ x. (x.0, x.1.now)) result (count_from low high bytes.now) }
{
    let (count, rest) = byte_of(bytes)?;
    if count < low || high < count {
        return Err(stop_at(bytes, WireCause::Count));
    }
    Ok((count, rest))
}

#[tactic(auto, unfolding(crate::specs::Fields::head_count_from))]
fn head_count_of(most: u16, bytes: &[u8]) -> Result<(u16, &[u8]), DecodeFault>
    ensures { Gives (λ x. (x.0, x.1.now)) result (head_count_from most bytes.now) }
{
    let (count, rest) = u16_of(bytes)?;
    if most < count {
        return Err(stop_at(bytes, WireCause::Count));
    }
    Ok((count, rest))
}

#[tactic(auto, unfolding(crate::specs::Fields::object_from))]
fn object_of(least: u32, bytes: &[u8]) -> Result<(ObjectId, u32, &[u8]), DecodeFault>
    ensures { Gives (λ x. (x.0, x.1, x.2.now)) result (object_from least bytes.now) }
{
    let (number, rest) = u16_of(bytes)?;
    let number_wide = u32::from(number);
    if number_wide < least {
        return Err(stop_at(bytes, WireCause::Order));
    }
    Ok((ObjectId(number), number_wide + 1, rest))
}

pub fn objects_of(alloc: Global, count: u8, bytes: &[u8]) -> Result<(Reads, &[u8]), DecodeFault>
    ensures { Gives (λ x. (x.0, x.1.now)) result (objects_from count bytes.now) }
{
    let mut objects = Reads::new(alloc);
    let mut least = 0;
    let mut rest = bytes;
    for _ in 0..count {
        let (object, next, after) = object_of(least, rest)?;
        objects.push(object)?;
        least = next;
        rest = after;
    }
    Ok((objects, rest))
}

fn numbers_of(alloc: Global, count: u8, bytes: &[u8]) -> Result<(Value, &[u8]), DecodeFault>
    ensures { Gives (λ x. (x.0, x.1.now)) result (several (int_from w64) count bytes.now) }
{
    let mut numbers = Value::new(alloc);
    let mut rest = bytes;
    for _ in 0..count {
        let (number, after) = i64_of(rest)?;
        numbers.push(number)?;
        rest = after;
    }
    Ok((numbers, rest))
}

#[tactic(auto, unfolding(crate::specs::Fields::value_from))]
fn value_of(alloc: Global, bytes: &[u8]) -> Result<(Value, &[u8]), DecodeFault>
    ensures { Gives (λ x. (x.0, x.1.now)) result (value_from bytes.now) }
{
    let (count, rest) = count_of(1, MOST_ATTRS, bytes)?;
    numbers_of(alloc, count, rest)
}

#[tactic(auto, unfolding(crate::specs::Fields::held_from))]
fn held_of(
    alloc: Global,
    least: u32,
    bytes: &[u8],
) -> Result<(ObjectValue, u32, &[u8]), DecodeFault>
    ensures { Gives (λ x. (x.0, x.1, x.2.now)) result (held_from least bytes.now) }
{
    let (object, next, rest) = object_of(least, bytes)?;
    let (value, rest) = value_of(alloc, rest)?;
    Ok((ObjectValue { object, value }, next, rest))
}

fn helds_of(
    alloc: Global,
    count: u16,
    bytes: &[u8],
) -> Result<(List<ObjectValue>, &[u8]), DecodeFault>
    ensures { Gives (λ x. (x.0, x.1.now)) result (helds_from count bytes.now) }
{
    let mut head = list_for(alloc, usize::from(count))?;
    let mut least = 0;
    let mut rest = bytes;
    for _ in 0..count {
        let (held, next, after) = held_of(alloc, least, rest)?;
        head.push(held)?;
        least = next;
        rest = after;
    }
    Ok((head, rest))
}

#[tactic(auto, unfolding(crate::specs::Fields::head_from))]
pub fn head_of(
    alloc: Global,
    most: u16,
    bytes: &[u8],
) -> Result<(List<ObjectValue>, &[u8]), DecodeFault>
    ensures { Gives (λ x. (x.0, x.1.now)) result (head_from most bytes.now) }
{
    let (count, rest) = head_count_of(most, bytes)?;
    helds_of(alloc, count, rest)
}

fn values_of(alloc: Global, count: u8, bytes: &[u8]) -> Result<(List<Value>, &[u8]), DecodeFault>
    ensures { Gives (λ x. (x.0, x.1.now)) result (several value_from count bytes.now) }
{
    let mut values = list_for(alloc, usize::from(count))?;
    let mut rest = bytes;
    for _ in 0..count {
        let (value, after) = value_of(alloc, rest)?;
        values.push(value)?;
        rest = after;
    }
    Ok((values, rest))
}

#[tactic(auto, unfolding(crate::specs::Fields::result_from))]
fn result_of(alloc: Global, bytes: &[u8]) -> Result<(Done1, &[u8]), DecodeFault>
    ensures { Gives (λ x. (x.0, x.1.now)) result (result_from bytes.now) }
{
    let (pos, rest) = u32_of(bytes)?;
    let (count, rest) = count_of(0, MOST_READS as u8, rest)?;
    let (values, rest) = values_of(alloc, count, rest)?;
    Ok((Done1 { pos, values }, rest))
}

pub fn results_of(
    alloc: Global,
    count: u8,
    bytes: &[u8],
) -> Result<(List<Done1>, &[u8]), DecodeFault>
    ensures { Gives (λ x. (x.0, x.1.now)) result (several result_from count bytes.now) }
{
    let mut results = list_for(alloc, usize::from(count))?;
    let mut rest = bytes;
    for _ in 0..count {
        let (found, after) = result_of(alloc, rest)?;
        results.push(found)?;
        rest = after;
    }
    Ok((results, rest))
}
