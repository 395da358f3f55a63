//! Sets of slots.
ghost use Rattle.std.specs.Prelude.{◌≡◌, ℕ, ◌*◌, ◌<◌, ◌≤◌, ◌&&◌, ◌||◌, not, [], true, false, nat_eq, length, slice_index, bit_or, IsTrue, IsFalse, IfOk, OnOk};
ghost use Rattle.std.specs.List.{list_any};
ghost use Rattle.sv_world.specs.Control.{is_in};
ghost use Rattle.sv_world.specs.Limits.{most_open};
ghost use Rattle.sv_queue.specs.Slots.{no_slots, set_with, set_but, set_joined, has_bit};

use smallvec::SmallVec;
use std::alloc::{AllocError, Global};
use std::marker::Model;

/// How many slots a word has.
const WORD: u16 = 64;

/// How many words stand in place.
const IN_PLACE: usize = 8;

/// A set of slots. A slot is the place of an open session, and stands for it.
///
/// A set has room for 64 slots at first. For more than 512 it takes memory.
#[derive(Debug, Drop)]
pub struct Slots {
    words: SmallVec<u64, IN_PLACE>,
}

impl Model for Slots {
    ghost use Rattle.std.specs.Prelude.{◌≤◌, ◌*◌, ◌<◌, length};
    ghost use Rattle.sv_world.specs.Limits.{most_open};
    ghost use Rattle.sv_queue.specs.Slots.{SlotSet, set_of};

    ghost Value = { SlotSet };

    ghost view = { λ a. set_of a.words.items };

    ghost invariant = { λ a. 64 * length a.words.items ≤ most_open };
}

impl Slots {
    /// No slot, with room for 64.
    pub fn new(alloc: Global) -> Slots
        ensures { result ≡ no_slots }
    {
        let mut words = SmallVec::new(alloc);
        words.push_reserved(0);
        Slots { words }
    }

    /// No slot, with room for so many.
    pub fn with_room(alloc: Global, room: u16) -> Result<Slots, AllocError>
        requires { room ≤ most_open }
        ensures slots { IfOk result (λ set. set.slots ≡ []) }
        ensures room { IfOk result (λ set. room ≤ set.room) }
    {
        let words = room.div_ceil(WORD) as usize;
        if 0 < words && words <= IN_PLACE {
            return Ok(Slots::in_place(alloc, words));
        }
        let mut set = Slots::new(alloc);
        set.make_room(room)?;
        Ok(set)
    }

    /// No slot, with so many words, which stand in place.
    fn in_place(alloc: Global, words: usize) -> Slots
        requires { words ≤ 8 }
        ensures slots { result.slots ≡ [] }
        ensures room { result.room ≡ 64 * words }
    {
        Slots {
            words: SmallVec::from_buf_and_len(alloc, [0; IN_PLACE], words),
        }
    }

    pub fn has(&self, slot: u16) -> bool
        ensures { result ≡ is_in slot self.now.slots }
    {
        has_bit(self.words.as_slice(), slot)
    }

    pub fn add(&mut self, slot: u16)
        requires { slot < self.old.room }
        ensures { self.new ≡ set_with slot self.old }
    {
        set_bit(self.words.as_mut_slice(), slot);
    }

    pub fn remove(&mut self, slot: u16)
        ensures { self.new ≡ set_but slot self.old }
    {
        clear_bit(self.words.as_mut_slice(), slot);
    }

    /// Whether a slot is in both sets. It costs a word or two for each 64 slots.
    pub fn meets(&self, other: &Slots) -> bool
        ensures { result ≡ list_any (λ s. is_in s other.now.slots) self.now.slots }
    {
        have_common_bit(self.words.as_slice(), other.words.as_slice())
    }

    /// Makes room for so many slots. After running out of memory the set is the same.
    pub fn make_room(&mut self, slots: u16) -> Result<(), AllocError>
        requires { slots ≤ most_open }
        ensures slots { self.new.slots ≡ self.old.slots }
        ensures room { self.old.room ≤ self.new.room }
        ensures ok { OnOk result (slots ≤ self.new.room) }
    {
        let wanted = slots.div_ceil(WORD) as usize;
        self.words.reserve(wanted.saturating_sub(self.words.len()))?;
        while self.words.len() < wanted {
            self.words.push(0)?;
        }
        Ok(())
    }

    /// Takes the slots of another set in place of its own.
    pub fn copy_from(&mut self, other: &Slots)
        requires { (s : ℕ) → is_in s other.now.slots ≡ true → s < self.old.room }
        ensures { self.new ≡ record self.old { slots = other.now.slots } }
    {
        copy_words(self.words.as_mut_slice(), other.words.as_slice());
    }

    /// Takes the slots of another set beside its own.
    pub fn join(&mut self, other: &Slots)
        requires { (s : ℕ) → is_in s other.now.slots ≡ true → s < self.old.room }
        ensures { self.new ≡ set_joined other.now.slots self.old }
    {
        join_words(self.words.as_mut_slice(), other.words.as_slice());
    }
}

/// The word at a place, 0 where there is none.
fn word_at(words: &[u64], place: usize) -> u64
    ensures { result ≡ slice_index words.now place }
{
    match words.get(place) {
        Some(word) => *word,
        None => 0,
    }
}

fn has_bit(words: &[u64], slot: u16) -> bool
    ensures { result ≡ has_bit words.now slot }
{
    let word = word_at(words, (slot / WORD) as usize);
    (word >> (slot % WORD)) & 1 == 1
}

fn set_bit(words: &mut [u64], slot: u16)
    requires { slot < 64 * length words.old }
    ensures count { length words.new ≡ length words.old }
    ensures bits { (s : ℕ) → has_bit words.new s ≡ (nat_eq s slot || has_bit words.old s) }
{
    words[(slot / WORD) as usize] |= 1 << (slot % WORD);
}

fn clear_bit(words: &mut [u64], slot: u16)
    ensures count { length words.new ≡ length words.old }
    ensures bits { (s : ℕ) → has_bit words.new s ≡ (has_bit words.old s && not (nat_eq s slot)) }
{
    let place = (slot / WORD) as usize;
    if place < words.len() {
        words[place] &= !(1 << (slot % WORD));
    }
}

fn have_common_bit(words: &[u64], others: &[u64]) -> bool
    ensures has { IsTrue result → (s : ℕ) × (has_bit words.now s ≡ true) × (has_bit others.now s ≡ true) }
    ensures none { IsFalse result → (s : ℕ) → has_bit words.now s ≡ true → has_bit others.now s ≡ false }
{
    for place in 0..words.len() {
        if words[place] & word_at(others, place) != 0 {
            return true;
        }
    }
    false
}

/// Each word becomes the other's at its place.
fn copy_words(words: &mut [u64], others: &[u64])
    ensures count { length words.new ≡ length words.old }
    ensures words { (i : ℕ) → i < length words.old → slice_index words.new i ≡ slice_index others.now i }
{
    for place in 0..words.len() {
        words[place] = word_at(others, place);
    }
}

/// Each word gets the other's bits at its place.
fn join_words(words: &mut [u64], others: &[u64])
    ensures count { length words.new ≡ length words.old }
    ensures words { (i : ℕ) → i < length words.old → slice_index words.new i ≡ bit_or (slice_index words.old i) (slice_index others.now i) }
{
    for place in 0..words.len() {
        words[place] |= word_at(others, place);
    }
}
