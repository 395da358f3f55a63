//! The uncommitted writers of each object.
ghost use Rattle.std.specs.Prelude.{◌≡◌, ◌<◌, ◌≤◌, [], ◌∷◌, ◌++◌, length, drop, replicate, slice_get, slice_index_or, IfOk, OnOk, OnErr};
ghost use Rattle.sv_world.specs.Sets.{write_set};
ghost use Rattle.sv_queue.specs.Positions.{greatest_below, IsAscending};
ghost use Rattle.sv_queue.specs.Written.{CanWrite, IsChangedAt, writes_before, front_of};

use crate::written::written_at;
use std::alloc::{AllocError, Global};
use std::collections::VecDeque;
use std::marker::Model;
use sv_world::{Action, ObjectId};

/// Ascending positions, taken off at either end.
#[derive(Debug, Drop)]
pub struct Positions {
    items: VecDeque<u32>,
}

impl Model for Positions {
    ghost use Rattle.std.specs.Prelude.{ℕ, List};

    ghost Value = { List ℕ };

    ghost view = { λ a. a.items.items };
}

/// The uncommitted writers of each object.
#[derive(Debug, Drop)]
pub struct Writers {
    lists: Vec<Positions>,
}

impl Model for Writers {
    ghost use Rattle.std.specs.Prelude.{ℕ, List};

    ghost Value = { List (List ℕ) };

    ghost view = { λ a. a.lists.items };
}

impl Positions {
    /// The greatest position below the bound, else 0.
    fn last_below(&self, below: u32) -> u32
        requires { IsAscending self.now }
        ensures { result ≡ greatest_below self.now below }
    {
        if let Some(last) = self.items.back() {
            if *last < below {
                return *last;
            }
        }
        let count = self.items.partition_point(|pos| *pos < below);
        if count == 0 {
            return 0;
        }
        self.items[count - 1]
    }

    fn first(&self) -> Option<u32>
        ensures { result ≡ slice_get self.now 0 }
    {
        self.items.front().copied()
    }

    fn push(&mut self, pos: u32) -> Result<(), AllocError>
        ensures ok { OnOk result (self.new ≡ self.old ++ pos ∷ []) }
        ensures err { OnErr result (self.new ≡ self.old) }
    {
        self.items.push_back(pos)?;
        Ok(())
    }

    fn pop_last(&mut self)
        ensures { self.new ≡ front_of self.old }
    {
        self.items.pop_back();
    }

    fn pop_first(&mut self)
        ensures { self.new ≡ drop 1 self.old }
    {
        self.items.pop_front();
    }
}

impl Writers {
    pub fn new(alloc: Global, objects: usize) -> Result<Writers, AllocError>
        ensures { IfOk result (λ lists. lists ≡ replicate objects []) }
    {
        let mut lists = Vec::with_capacity(alloc, objects)?;
        for _ in 0..objects {
            lists.push(Positions {
                items: VecDeque::new(alloc),
            })?;
        }
        Ok(Writers { lists })
    }

    /// The greatest position below the bound in an object's list, else 0.
    pub fn last_below(&self, object: ObjectId, below: u32) -> u32
        requires known { object.0 < length self.now }
        requires ascending { IsAscending (slice_index_or self.now object.0 []) }
        ensures { result ≡ greatest_below (slice_index_or self.now object.0 []) below }
    {
        let list = &self.lists[object.0 as usize];
        list.last_below(below)
    }

    /// The first position in an object's list.
    pub fn first(&self, object: ObjectId) -> Option<u32>
        requires { object.0 < length self.now }
        ensures { result ≡ slice_get (slice_index_or self.now object.0 []) 0 }
    {
        let list = &self.lists[object.0 as usize];
        list.first()
    }

    /// Appends a position to the list of each object that an action writes. After running out of memory the lists are as before.
    pub fn add(&mut self, action: &Action, pos: u32) -> Result<(), AllocError>
        requires { CanWrite (length self.old) action.now }
        ensures ok { OnOk result (IsChangedAt [] (λ list. list ++ pos ∷ []) (write_set action.now) self.old self.new) }
        ensures err { OnErr result (IsChangedAt [] (λ list. list) [] self.old self.new) }
    {
        for slot in 0..action.reads.len() {
            if let Some(object) = written_at(action, slot) {
                let list = &mut self.lists[object.0 as usize];
                if let Err(error) = list.push(pos) {
                    remove_last_before(&mut self.lists, action, slot);
                    return Err(error);
                }
            }
        }
        Ok(())
    }

    /// Takes the last position off the list of each object that an action writes.
    pub fn remove_last(&mut self, action: &Action)
        requires { CanWrite (length self.old) action.now }
        ensures { IsChangedAt [] front_of (write_set action.now) self.old self.new }
    {
        remove_last_before(&mut self.lists, action, action.reads.len());
    }

    /// Takes the first position off the list of each object that an action writes.
    pub fn remove_first(&mut self, action: &Action)
        requires { CanWrite (length self.old) action.now }
        ensures { IsChangedAt [] (drop 1) (write_set action.now) self.old self.new }
    {
        for slot in 0..action.reads.len() {
            if let Some(object) = written_at(action, slot) {
                let list = &mut self.lists[object.0 as usize];
                list.pop_first();
            }
        }
    }
}

/// Takes the last position off the list of each object that an action writes at its slots below the end.
fn remove_last_before(lists: &mut Vec<Positions>, action: &Action, end: usize)
    requires can { CanWrite (length lists.old.items) action.now }
    requires end { end ≤ length action.now.reads }
    ensures { IsChangedAt [] front_of (writes_before action.now end) lists.old.items lists.new.items }
{
    for slot in 0..end {
        if let Some(object) = written_at(action, slot) {
            let list = &mut lists[object.0 as usize];
            list.pop_last();
        }
    }
}
