//! Reading frames from a stream that comes in pieces.
ghost use Rattle.std.specs.Prelude.{◌≡◌, ◌≢◌, [], ◌++◌, ◌+◌, ◌-◌, ◌<◌, ◌≤◌, false, None, IfOk, length, take, drop};
ghost use Rattle.std.specs.Vec.{vec_len, vec_capacity};
ghost use Rattle.std.specs.Borrow.{sem};
ghost use Rattle.sv_link.specs.Ends.{EndReadCause};
ghost use Rattle.sv_frame.specs.Frames.{greatest_frame, first_frame};
ghost use Rattle.sv_frame.specs.Answers.{IsAnswer, BeginsRest, LeavesRoom, LeavesRest, Skips, ReadsInto};

use crate::limits::{GREATEST_FRAME, GREATEST_PAYLOAD, PREFIX};
use byteorder::{BigEndian, ByteOrder};
use std::alloc::{AllocError, Global};
use std::marker::Model;
use sv_link::{End, EndRead};

/// What a reader finds at the front of what it was fed.
#[derive(Clone, Copy, Debug, PartialEq, Eq)]
pub enum NextFrame<'a> {
    /// The payload of a whole frame, which is taken off the stream.
    Frame(&'a [u8]),

    /// No whole frame has come yet.
    NotYet,

    /// The next frame's length, which is over the limit. No frame can be read from here on.
    TooLong(u32),
}

/// What has come of a stream and was not yet given as frames. Contracts see the list of these bytes.
///
/// The room for them is taken once, by `new`. It is written to as far as it is used, so that a reader of short frames costs one page of memory.
#[derive(Drop)]
pub struct FrameReader {
    room: Vec<u8>,
    start: usize,
    end: usize,
}

impl Model for FrameReader {
    ghost use Rattle.std.specs.Prelude.{◌≡◌, ◌-◌, ◌≤◌, List, ℕ, take, drop};
    ghost use Rattle.std.specs.Vec.{vec_len, vec_capacity};
    ghost use Rattle.sv_frame.specs.Frames.{greatest_frame};

    ghost Value = { List ℕ };

    ghost view = { λ r. take (r.end - r.start) (drop r.start r.room.items) };

    ghost invariant = { λ r. (greatest_frame ≤ vec_capacity r.room) × (vec_len r.room ≤ greatest_frame) × (r.start ≤ r.end) × (r.end ≤ vec_len r.room) };
}

impl FrameReader {
    /// A reader that was fed nothing.
    pub fn new(alloc: Global) -> Result<FrameReader, AllocError>
        ensures { IfOk result (λ reader. reader ≡ []) }
    {
        Ok(FrameReader {
            room: Vec::with_capacity(alloc, GREATEST_FRAME)?,
            start: 0,
            end: 0,
        })
    }

    /// How many bytes the next piece may have. At least one, after `next` answered `NotYet`.
    pub fn spare(&self) -> usize
        ensures { result + length self.now ≡ greatest_frame }
    {
        GREATEST_FRAME - (self.end - self.start)
    }

    /// Takes the next piece of the stream, of at most [`spare`](FrameReader::spare) bytes.
    pub fn feed(&mut self, piece: &[u8])
        requires { length self.old + length piece.now ≤ greatest_frame }
        ensures { self.new ≡ self.old ++ piece.now }
    {
        let size = self.end - self.start;
        self.start = make_space(&mut self.room, self.start, self.end, piece.len());
        self.end = self.start + size;
        let after = self.end + piece.len();
        fill(&mut self.room, after);
        self.room.as_mut_slice()[self.end..after].copy_from_slice(piece);
        self.end = after;
    }

    /// Waits for bytes of an end, and reads as many as have come and fit straight into the room.
    pub fn read_from<E: End>(&mut self, end: &mut E) -> EndRead
        requires open { (E.told end.old).closed ≡ false }
        requires room { length self.old < greatest_frame }
        ensures came { ReadsInto (E.told end.old) self.old result (E.told end.new) self.new }
        ensures cause { EndReadCause (E.faults end.old) (E.faults end.new) result }
        ensures calm { E.calm end.old → (result ≢ EndRead.Failed) × E.calm end.new }
    {
        let size = self.end - self.start;
        fill(&mut self.room, GREATEST_FRAME);
        self.start = make_space(&mut self.room, self.start, self.end, 1);
        self.end = self.start + size;
        let answer = end.read(&mut self.room.as_mut_slice()[self.end..]);
        if let EndRead::Got(count) = answer {
            self.end += count;
        }
        answer
    }

    /// Tells what `next` would answer, and takes nothing off.
    pub fn first(&self) -> NextFrame<'_>
        ensures answer { IsAnswer result self.now }
        ensures room { LeavesRoom result self.now }
    {
        let rest = &self.room[self.start..self.end];
        match front_of(rest) {
            Front::Whole(length) => NextFrame::Frame(&rest[PREFIX..PREFIX + length]),
            Front::Partial => NextFrame::NotYet,
            Front::Oversize(length) => NextFrame::TooLong(length),
        }
    }

    /// Takes the first frame off the stream.
    pub fn skip(&mut self)
        requires { first_frame self.old ≢ None }
        ensures { Skips self.old self.new }
    {
        match front_of(&self.room[self.start..self.end]) {
            Front::Whole(length) => self.start = self.start + PREFIX + length,
            Front::Partial => unreachable!(),
            Front::Oversize(_) => unreachable!(),
        }
    }

    /// Gives the next frame's payload, and takes the frame off the stream. Any other answer takes nothing off.
    pub fn next(&mut self) -> NextFrame<'_>
        ensures answer { IsAnswer result self.old }
        ensures room { LeavesRoom result self.old }
        ensures* rest { sem 𝓛 (LeavesRest self.entry result) }
    {
        let start = self.start;
        match front_of(&self.room[start..self.end]) {
            Front::Whole(length) => {
                self.start = start + PREFIX + length;
                NextFrame::Frame(&self.room[start + PREFIX..start + PREFIX + length])
            }
            Front::Partial => NextFrame::NotYet,
            Front::Oversize(length) => NextFrame::TooLong(length),
        }
    }
}

/// Fills the room up to so many bytes, where it has fewer.
fn fill(room: &mut Vec<u8>, least: usize)
    requires room { (greatest_frame ≤ vec_capacity room.old) × (vec_len room.old ≤ greatest_frame) }
    requires least { least ≤ greatest_frame }
    ensures kept { take (vec_len room.old) room.new.items ≡ room.old.items }
    ensures filled { (least ≤ vec_len room.new) × (vec_len room.old ≤ vec_len room.new) }
    ensures room { (greatest_frame ≤ vec_capacity room.new) × (vec_len room.new ≤ greatest_frame) }
{
    if room.len() < least {
        match room.resize(least, 0) {
            Ok(()) => {}
            Err(_) => unreachable!(),
        }
    }
}

/// Where the rest begins once there may be so many bytes behind it. It is moved to the front of the room where there was too little.
fn make_space(room: &mut Vec<u8>, start: usize, end: usize, size: usize) -> usize
    requires part { (start ≤ end) × (end ≤ vec_len room.old) × (vec_len room.old ≤ greatest_frame) }
    requires fits { end - start + size ≤ greatest_frame }
    ensures rest { take (end - start) (drop result room.new.items) ≡ take (end - start) (drop start room.old.items) }
    ensures space { result + (end - start) + size ≤ greatest_frame }
    ensures behind { result + (end - start) ≤ vec_len room.new }
    ensures room { (vec_len room.new ≡ vec_len room.old) × (vec_capacity room.new ≡ vec_capacity room.old) }
{
    // An empty rest costs nothing to move, and what is used again is still in the cache.
    if start == end || size > GREATEST_FRAME - end {
        room.copy_within(start..end, 0);
        return 0;
    }
    start
}

/// What a rest begins with.
#[derive(Clone, Copy)]
enum Front {
    /// A frame with a payload of so many bytes.
    Whole(usize),

    /// Less than a frame.
    Partial,

    /// A length over the limit.
    Oversize(u32),
}

fn front_of(rest: &[u8]) -> Front
    ensures { BeginsRest result rest.now }
{
    if rest.len() < PREFIX {
        return Front::Partial;
    }
    let length = BigEndian::read_u32(rest);
    let size = length as usize;
    if size > GREATEST_PAYLOAD {
        return Front::Oversize(length);
    }
    if rest.len() < PREFIX + size {
        return Front::Partial;
    }
    Front::Whole(size)
}
