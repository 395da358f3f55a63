//! The reads, the writes and the origin of an action.

ghost use Rattle.std.specs.Prelude.{◌≡◌, ◌≤◌, ◌<◌, [], length, Ok, IfOk, OnOk, IfSome};
ghost use Rattle.sv_world.specs.Limits.{most_reads};
ghost use Rattle.sv_text.specs.Reading.{Gives, seen, object_number_at, read_at, ends_reads, reads_from, slot_from, slot_at, write_at, is_number_at, writes_from, coordinate_at, origin_at, header_at};

use crate::cursor::Cursor;
use crate::token::{Mark, Token};
use crate::{ParseFault, TextCause, TextFault};
use std::alloc::Global;
use sv_world::{GREATEST_COORDINATE, LEAST_COORDINATE, MOST_READS, ObjectId, Point, Reads};

#[tactic(auto, unfolding(crate::specs::Reading::object_number_at))]
fn object_number_at(cursor: &Cursor<'_>) -> Result<u16, TextFault>
    ensures { result ≡ object_number_at cursor.now }
{
    let object = cursor.number_at(0, 65535)?;
    Ok(object as u16)
}

/// One more read behind so many, of which the last is below `least`.
#[tactic(auto, unfolding(crate::specs::Reading::read_at))]
fn read_at(cursor: &Cursor<'_>, count: usize, least: u32) -> Result<u16, TextFault>
    ensures value { result ≡ read_at count least cursor.now }
    ensures few { OnOk result (count < most_reads) }
{
    let object = object_number_at(cursor)?;
    if u32::from(object) < least {
        return Err(cursor.fault(TextCause::Order));
    }
    if count < MOST_READS {
        Ok(object)
    } else {
        Err(cursor.fault(TextCause::TooMany))
    }
}

/// Whether the reads end here, behind so many.
fn ends_reads(cursor: &Cursor<'_>, count: usize) -> bool
    ensures { result ≡ ends_reads count cursor.now }
{
    count > 0 && cursor.is_at(Mark::Writes)
}

/// One read or more, and `writes`.
#[tactic(auto, using(crate::proofs::Turns::reads_from_is))]
fn reads_at(alloc: Global, cursor: &mut Cursor<'_>) -> Result<Reads, ParseFault>
    ensures gives { Gives (λ reads. (reads, cursor.new)) result (reads_from [] 0 cursor.old) }
    ensures few { IfOk result (λ reads. length reads ≤ most_reads) }
{
    let mut reads = Reads::new(alloc);
    let mut least = 0;
    while !ends_reads(cursor, reads.len()) {
        let object = read_at(cursor, reads.len(), least)?;
        reads.push(ObjectId(object))?;
        least = u32::from(object) + 1;
        cursor.advance();
    }
    cursor.advance();
    Ok(reads)
}

#[tactic(auto, unfolding(crate::specs::Reading::header_at))]
pub fn header_at(alloc: Global, cursor: &mut Cursor<'_>) -> Result<Reads, ParseFault>
    ensures gives { Gives (λ reads. (reads, cursor.new)) result (header_at cursor.old) }
    ensures few { IfOk result (λ reads. length reads ≤ most_reads) }
{
    cursor.expect(Mark::Reads)?;
    reads_at(alloc, cursor)
}

/// The slot of an object, which is its place in the reads.
#[tactic(auto, using(crate::proofs::Turns::slot_turn))]
fn slot_of(reads: &[ObjectId], object: u16) -> Option<u8>
    requires { length reads.now ≤ most_reads }
    ensures value { result ≡ slot_from 0 reads.now object }
    ensures low { IfSome result (λ k. k < most_reads) }
{
    for (slot, read) in reads.iter().enumerate() {
        if read.0 == object {
            return Some(slot as u8);
        }
    }
    None
}

/// The slot of the object that the next token names.
#[tactic(auto, unfolding(crate::specs::Reading::slot_at))]
pub fn slot_at(reads: &[ObjectId], object: u16, cursor: &Cursor<'_>) -> Result<u8, TextFault>
    requires { length reads.now ≤ most_reads }
    ensures value { result ≡ slot_at reads.now object cursor.now }
    ensures low { IfOk result (λ k. k < most_reads) }
{
    match slot_of(reads, object) {
        Some(slot) => Ok(slot),
        None => Err(cursor.fault(TextCause::NotRead)),
    }
}

/// A written object and its slot.
#[tactic(auto, unfolding(crate::specs::Reading::write_at))]
fn write_at(reads: &[ObjectId], cursor: &Cursor<'_>, least: u32) -> Result<(u16, u8), TextFault>
    requires { length reads.now ≤ most_reads }
    ensures value { result ≡ write_at reads.now least cursor.now }
    ensures low { IfOk result (λ w. w.1 < most_reads) }
{
    let object = object_number_at(cursor)?;
    let slot = slot_at(reads, object, cursor)?;
    if u32::from(object) < least {
        return Err(cursor.fault(TextCause::Order));
    }
    Ok((object, slot))
}

#[tactic(auto, using(crate::proofs::Next::is_number_at_is))]
fn is_number_at(cursor: &Cursor<'_>) -> bool
    ensures { result ≡ is_number_at cursor.now }
{
    matches!(cursor.next().token, Token::Number(_) | Token::Wide)
}

/// The written objects as a mask over the slots.
#[tactic(auto, using(crate::proofs::Turns::writes_from_is))]
pub fn writes_at(reads: &[ObjectId], cursor: &mut Cursor<'_>) -> Result<u16, TextFault>
    requires { length reads.now ≤ most_reads }
    ensures { seen (λ mask. (mask, cursor.new)) result ≡ writes_from reads.now 0 0 cursor.old }
{
    let mut mask = 0;
    let mut least = 0;
    while is_number_at(cursor) {
        let (object, slot) = write_at(reads, cursor, least)?;
        mask |= 1 << slot;
        least = u32::from(object) + 1;
        cursor.advance();
    }
    Ok(mask)
}

#[tactic(auto, unfolding(crate::specs::Reading::coordinate_at))]
fn coordinate_at(cursor: &Cursor<'_>) -> Result<i32, TextFault>
    ensures { result ≡ coordinate_at cursor.now }
{
    let coordinate = cursor.number_at(i64::from(LEAST_COORDINATE), i64::from(GREATEST_COORDINATE))?;
    Ok(coordinate as i32)
}

#[tactic(auto, unfolding(crate::specs::Reading::origin_at))]
pub fn origin_at(cursor: &mut Cursor<'_>) -> Result<Point, TextFault>
    ensures { seen (λ point. (point, cursor.new)) result ≡ origin_at cursor.old }
{
    if !cursor.is_at(Mark::At) {
        return Ok(Point { x: 0, y: 0 });
    }
    cursor.advance();
    let x = coordinate_at(cursor)?;
    cursor.advance();
    let y = coordinate_at(cursor)?;
    cursor.advance();
    Ok(Point { x, y })
}
