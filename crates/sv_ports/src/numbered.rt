//! Things under numbers that ascend.
ghost use Rattle.std.specs.Prelude.{◌≡◌, ◌≢◌, ◌++◌, ◌∷◌, [], ◌==◌, false, true, length, map, slice_get, option_map, option_copied, MatchOption, OnOk, OnErr};
ghost use Rattle.sv_ports.specs.declared.numbered.NumberedPlace.{NumberedPlace};
ghost use Rattle.sv_ports.specs.declared.numbered.PushFault.TheVariants as faults;
ghost use Rattle.sv_ports.specs.Numbered.{IsByNumber, IsAbove, IsPlaceOf, has_number, item_of, with_item, without};

use std::alloc::{AllocError, Global};
use std::marker::Model;

/// A place of a number. Its thing lies there, or was taken out.
#[derive(Drop)]
pub struct NumberedPlace<T: Drop> {
    number: u64,
    item: Option<T>,
}

/// Why a thing was not put under a new number.
#[derive(Clone, Copy, Debug, Drop, PartialEq, Eq)]
pub enum PushFault {
    /// The number is not above all.
    NotAbove,
    Memory,
}

/// Things under numbers, in the order of their numbers. One of them may be taken out and put back.
#[derive(Drop)]
pub struct Numbered<T: Drop> {
    places: Vec<NumberedPlace<T>>,
}

impl<T: Drop> Model for Numbered<T> {
    ghost use Rattle.std.specs.Prelude.{List};
    ghost use Rattle.sv_ports.specs.declared.numbered.NumberedPlace.{NumberedPlace};
    ghost use Rattle.sv_ports.specs.Numbered.{IsByNumber};

    ghost Value = { List (NumberedPlace T) };

    ghost view = { λ a. a.places.items };

    ghost invariant = { λ a. IsByNumber a.places.items };
}

impl<T: Drop> Numbered<T> {
    pub fn new(alloc: Global) -> Numbered<T>
        ensures { result ≡ [] }
    {
        Numbered {
            places: Vec::new(alloc),
        }
    }

    pub fn len(&self) -> usize
        ensures { result ≡ length self.now }
    {
        self.places.len()
    }

    pub fn is_empty(&self) -> bool
        ensures { result ≡ (length self.now == 0) }
    {
        self.places.is_empty()
    }

    /// The number at a place, from 0 up.
    pub fn number_at(&self, place: usize) -> Option<u64>
        ensures { result ≡ option_map (λ p. p.number) (slice_get self.now place) }
    {
        let place = self.places.get(place)?;
        Some(place.number)
    }

    /// Puts a thing under a number that is above all. After an `Err` everything is as it was.
    pub fn push(&mut self, number: u64, item: T) -> Result<(), PushFault>
        ensures ok { OnOk result (self.new ≡ self.old ++ record { number = number; item = Some item } ∷ []) }
        ensures above { OnOk result (IsAbove number self.old) }
        ensures err { OnErr result (self.new ≡ self.old) }
        ensures fits { IsAbove number self.old → result ≢ Err faults.NotAbove }
    {
        if !is_above(&self.places, number) {
            return Err(PushFault::NotAbove);
        }
        match append(&mut self.places, number, item) {
            Ok(()) => Ok(()),
            Err(_) => Err(PushFault::Memory),
        }
    }

    /// Takes the thing of a number out. Its place is kept for it.
    pub fn take(&mut self, number: u64) -> Option<T>
        ensures item { result ≡ item_of number self.old }
        ensures left { self.new ≡ with_item number None self.old }
    {
        take_out(&mut self.places, number)
    }

    /// Puts a thing into the place of a number. Where the number has none, the thing is dropped.
    pub fn put(&mut self, number: u64, item: T)
        ensures { self.new ≡ with_item number (Some item) self.old }
    {
        put_in(&mut self.places, number, item);
    }

    pub fn get(&self, number: u64) -> Option<&T>
        ensures { option_copied result ≡ item_of number self.now }
    {
        let place = place_of(&self.places, number)?;
        self.places[place].item.as_ref()
    }

    /// Takes a number with what it has out for good.
    pub fn remove(&mut self, number: u64)
        ensures { self.new ≡ without number self.old }
    {
        if let Some(place) = place_of(&self.places, number) {
            drop(self.places.remove(place));
        }
    }
}

// The place that a number has where the numbers up to it have no gap.
fn guess<T: Drop>(places: &[NumberedPlace<T>], number: u64) -> usize {
    match places.first() {
        Some(first) => number.saturating_sub(first.number) as usize,
        None => 0,
    }
}

// The place of a number among numbers that ascend. It is looked for where it mostly is, and then among all.
fn place_of<T: Drop>(places: &[NumberedPlace<T>], number: u64) -> Option<usize>
    requires { IsByNumber places.now }
    ensures { MatchOption result (has_number number places.now ≡ false) (IsPlaceOf number places.now) }
{
    let place = guess(places, number);
    if place < places.len() && places[place].number == number {
        return Some(place);
    }
    find_place(places, number)
}

// By halves.
fn find_place<T: Drop>(places: &[NumberedPlace<T>], number: u64) -> Option<usize>
    requires { IsByNumber places.now }
    ensures { MatchOption result (has_number number places.now ≡ false) (IsPlaceOf number places.now) }
{
    let place = places.partition_point(|place| place.number < number);
    if place == places.len() {
        return None;
    }
    if places[place].number == number {
        return Some(place);
    }
    None
}

fn is_above<T: Drop>(places: &[NumberedPlace<T>], number: u64) -> bool
    requires { IsByNumber places.now }
    ensures yes { result ≡ true → IsAbove number places.now }
    ensures no { IsAbove number places.now → result ≡ true }
{
    match places.last() {
        Some(last) => last.number < number,
        None => true,
    }
}

fn append<T: Drop>(
    places: &mut Vec<NumberedPlace<T>>,
    number: u64,
    item: T,
) -> Result<(), AllocError>
    ensures ok { OnOk result (places.new.items ≡ places.old.items ++ record { number = number; item = Some item } ∷ []) }
    ensures err { OnErr result (places.new.items ≡ places.old.items) }
{
    places.push(NumberedPlace {
        number,
        item: Some(item),
    })?;
    Ok(())
}

// Takes out what is in the place of a number.
fn take_out<T: Drop>(places: &mut [NumberedPlace<T>], number: u64) -> Option<T>
    requires { IsByNumber places.old }
    ensures item { result ≡ item_of number places.old }
    ensures left { places.new ≡ with_item number None places.old }
{
    let place = place_of(places, number)?;
    places[place].item.take()
}

// Puts this into the place of a number, where it has one.
fn put_in<T: Drop>(places: &mut [NumberedPlace<T>], number: u64, item: T)
    requires { IsByNumber places.old }
    ensures { places.new ≡ with_item number (Some item) places.old }
{
    if let Some(place) = place_of(places, number) {
        places[place].item = Some(item);
    }
}
