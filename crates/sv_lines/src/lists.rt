//! The lists of a report's lines.
ghost use Rattle.std.specs.Prelude.{◌≡◌, [], ◌∷◌};
ghost use Rattle.sv_lines.specs.Reading.{Gives, seen, next_read, joined_by, listed_by, object_read, objects_read, signed_read, value_read, values_by, values_read, result_read, results_read};

use crate::numbers::{behind, expect, number_at, signed_at, small_at};
use crate::stop::LineFault;
use std::alloc::Global;
use sv_lists::List;
use sv_wire::Done1;
use sv_world::{ObjectId, Value};

/// An object by its number, and what comes after it.
#[tactic(auto, unfolding(crate::specs::Reading::object_read))]
pub fn object_at(text: &[u8]) -> Result<(ObjectId, &[u8]), LineFault>
    ensures { seen (λ x. (x.0, x.1.now)) result ≡ object_read text.now }
{
    let (number, rest) = small_at(text)?;
    Ok((ObjectId(number), rest))
}

/// Whether a list ends behind an element, and what comes next.
#[tactic(auto, unfolding(crate::specs::Reading::next_read))]
pub fn next_at<'a>(text: &'a [u8], close: &[u8], byte: &[u8]) -> Result<(bool, &'a [u8]), LineFault>
    ensures { seen (λ x. (x.0, x.1.now)) result ≡ next_read close.now byte.now text.now }
{
    if let Some(rest) = behind(text, close) {
        return Ok((true, rest));
    }
    let rest = expect(text, byte)?;
    Ok((false, rest))
}

/// One object or more, as `0 2]`.
fn joined_objects(
    alloc: Global,
    turns: usize,
    text: &[u8],
) -> Result<(List<ObjectId>, &[u8]), LineFault>
    ensures { Gives (λ x. (x.0, x.1.now)) result (joined_by object_read (93 ∷ []) (32 ∷ []) turns [] text.now) }
{
    let mut objects = List::new(alloc);
    let mut left = text;
    for _ in 0..turns {
        let (object, after) = object_at(left)?;
        objects.push(object)?;
        let (ends, rest) = next_at(after, b"]", b" ")?;
        if ends {
            return Ok((objects, rest));
        }
        left = rest;
    }
    Err(LineFault::Wrong)
}

fn listed_objects(alloc: Global, text: &[u8]) -> Result<(List<ObjectId>, &[u8]), LineFault>
    ensures { Gives (λ x. (x.0, x.1.now)) result (listed_by object_read (93 ∷ []) (32 ∷ []) text.now) }
{
    if let Some(rest) = behind(text, b"]") {
        return Ok((List::new(alloc), rest));
    }
    joined_objects(alloc, text.len(), text)
}

/// A list of objects, as `[0 2]`.
#[tactic(auto, unfolding(crate::specs::Reading::objects_read))]
pub fn objects_at(alloc: Global, text: &[u8]) -> Result<(List<ObjectId>, &[u8]), LineFault>
    ensures { Gives (λ x. (x.0, x.1.now)) result (objects_read text.now) }
{
    let rest = expect(text, b"[")?;
    listed_objects(alloc, rest)
}

/// One number or more, as `5,-1)`.
fn joined_numbers(alloc: Global, turns: usize, text: &[u8]) -> Result<(Value, &[u8]), LineFault>
    ensures { Gives (λ x. (x.0, x.1.now)) result (joined_by signed_read (41 ∷ []) (44 ∷ []) turns [] text.now) }
{
    let mut value = Value::new(alloc);
    let mut left = text;
    for _ in 0..turns {
        let (number, after) = signed_at(left)?;
        value.push(number)?;
        let (ends, rest) = next_at(after, b")", b",")?;
        if ends {
            return Ok((value, rest));
        }
        left = rest;
    }
    Err(LineFault::Wrong)
}

/// A value behind its bracket.
#[tactic(auto, unfolding(crate::specs::Reading::value_read))]
pub fn value_at(alloc: Global, text: &[u8]) -> Result<(Value, &[u8]), LineFault>
    ensures { Gives (λ x. (x.0, x.1.now)) result (value_read text.now) }
{
    if let Some(rest) = behind(text, b")") {
        return Ok((Value::new(alloc), rest));
    }
    joined_numbers(alloc, text.len(), text)
}

/// Values, so many at most.
fn joined_values(
    alloc: Global,
    turns: usize,
    text: &[u8],
) -> Result<(List<Value>, &[u8]), LineFault>
    ensures { Gives (λ x. (x.0, x.1.now)) result (values_by turns [] text.now) }
{
    let mut values = List::new(alloc);
    let mut left = text;
    for _ in 0..turns {
        let Some(inner) = behind(left, b"(") else {
            return Ok((values, left));
        };
        let (value, after) = value_at(alloc, inner)?;
        values.push(value)?;
        left = after;
    }
    Ok((values, left))
}

/// Values, as `(7)(8)`.
#[tactic(auto, unfolding(crate::specs::Reading::values_read))]
pub fn values_at(alloc: Global, text: &[u8]) -> Result<(List<Value>, &[u8]), LineFault>
    ensures { Gives (λ x. (x.0, x.1.now)) result (values_read text.now) }
{
    joined_values(alloc, text.len(), text)
}

/// The result of a position, as `2:(7)(8)`.
#[tactic(auto, unfolding(crate::specs::Reading::result_read))]
fn result_at(alloc: Global, text: &[u8]) -> Result<(Done1, &[u8]), LineFault>
    ensures { Gives (λ x. (x.0, x.1.now)) result (result_read text.now) }
{
    let (pos, rest) = number_at(text)?;
    let rest = expect(rest, b":")?;
    let (values, rest) = values_at(alloc, rest)?;
    Ok((Done1 { pos, values }, rest))
}

/// One result or more, as `1:(6) 2:(7)(8)]`.
fn joined_results(
    alloc: Global,
    turns: usize,
    text: &[u8],
) -> Result<(List<Done1>, &[u8]), LineFault>
    ensures { Gives (λ x. (x.0, x.1.now)) result (joined_by result_read (93 ∷ []) (32 ∷ []) turns [] text.now) }
{
    let mut results = List::new(alloc);
    let mut left = text;
    for _ in 0..turns {
        let (done, after) = result_at(alloc, left)?;
        results.push(done)?;
        let (ends, rest) = next_at(after, b"]", b" ")?;
        if ends {
            return Ok((results, rest));
        }
        left = rest;
    }
    Err(LineFault::Wrong)
}

fn listed_results(alloc: Global, text: &[u8]) -> Result<(List<Done1>, &[u8]), LineFault>
    ensures { Gives (λ x. (x.0, x.1.now)) result (listed_by result_read (93 ∷ []) (32 ∷ []) text.now) }
{
    if let Some(rest) = behind(text, b"]") {
        return Ok((List::new(alloc), rest));
    }
    joined_results(alloc, text.len(), text)
}

/// A list of results, as `[1:(6) 2:(7)(8)]`.
#[tactic(auto, unfolding(crate::specs::Reading::results_read))]
pub fn results_at(alloc: Global, text: &[u8]) -> Result<(List<Done1>, &[u8]), LineFault>
    ensures { Gives (λ x. (x.0, x.1.now)) result (results_read text.now) }
{
    let rest = expect(text, b"[")?;
    listed_results(alloc, rest)
}
