//! The queue of a server: what is committed, and the actions after it.
ghost use Rattle.std.specs.Prelude.{◌≡◌, ℕ, ◌+◌, ◌-◌, ◌^◌, ◌<◌, ◌≤◌, nat_lt, [], length, slice_index_or, is_some, IfNone, IfOk, IfSome, IsNone, OnOk, OnErr};
ghost use Rattle.std.specs.List.{list_any};
ghost use Rattle.sv_world.specs.Control.{is_in, last_writer, action_at};
ghost use Rattle.sv_world.specs.Faults.{IsGoodAction};
ghost use Rattle.sv_world.specs.Limits.{most_open};
ghost use Rattle.sv_world.specs.Sets.{read_set, write_set};
ghost use Rattle.sv_queue.specs.Pairs.{is_pair};
ghost use Rattle.sv_queue.specs.Queue.{IsFirstWriter, IsUncommitted, IsUnwritten, last_position, entry_at, queue_actions, sent_positions, opening_queue, with_action, without_last, with_mark, with_result, with_given, without_slot, ready, first_installed, ready_installed};
ghost use Rattle.sv_world.specs.Worlds.{IsGoodShape, IsGoodWorld, HaveAttrs};

use crate::rooms::{BLOCK, forget_given, forget_marks, make_given_room, make_marks_room};
use crate::slots::Slots;
use crate::sources::Sources;
use crate::steps::Steps;
use crate::waiting::WaitingAction;
use crate::writers::Writers;
use crate::written::{give_written, no_rows, put_values, tell_blocks};
use std::alloc::{AllocError, Global};
use std::collections::VecDeque;
use std::marker::Model;
use std::sync::ledger::Ledger;
use sv_lists::List;
use sv_world::{Action, ClientId, MOST_OPEN, ObjectId, Shape, Value, World};

/// How many slots there is room for at first.
const FIRST_ROOM: u16 = 64;

/// The committed values of a world's objects, and the accepted actions after the commit.
///
/// Actions have positions 1, 2, 3, and so on. Those up to the commit are in the committed values. A slot is the place of an open session,
/// and stands for it: a position is marked for a slot when it is sent to the session that has it, and the pair of an object and a slot is
/// given when this session knows the object's committed value.
#[derive(Debug, Drop)]
pub struct Queue {
    alloc: Global,
    shape: Shape,
    commit: u32,
    /// Each set of slots has room for so many.
    room: u16,
    committed: List<Value>,
    entries: VecDeque<WaitingAction>,
    /// The last writers of what each entry reads, found when it was pushed: later ones are above it.
    sources: VecDeque<Sources>,
    writers: Writers,
    /// Of each object the slots that were given its committed value.
    given: Vec<Slots>,
    /// Of each 64 objects the slots that one of them may have in `given`, so that a slot is forgotten without a look at all objects.
    blocks: Vec<Slots>,
}

impl Model for Queue {
    ghost use Rattle.std.specs.Coded.{codes};
    ghost use Rattle.sv_queue.specs.Queue.{QueueView};
    ghost use Rattle.sv_world.specs.contracts.action.Stmt as statements;

    ghost Value = { QueueView };

    ghost coded = { Prim.hlevel (codes, statements.the_row.coded) };

    ghost use Rattle.sv_queue.specs.Invariant.{model_of, IsQueue};

    ghost view = { model_of };

    ghost invariant = { IsQueue };
}

/// What the queue has at an uncommitted position.
#[derive(Drop)]
pub struct QueueEntry<'a> {
    pub author: ClientId,
    pub seq: u32,
    pub action: &'a Action,
    pub has_result: bool,
}

impl Queue {
    /// The world stands as committed, with no action.
    pub fn new(alloc: Global, world: World) -> Result<Queue, AllocError>
        requires { IsGoodWorld world }
        ensures { IfOk result (λ queue. queue ≡ opening_queue world) }
    {
        let World { shape, values } = world;
        let objects = shape.objects as usize;
        let writers = Writers::new(alloc, objects)?;
        let given = no_rows(alloc, objects)?;
        let blocks = no_rows(alloc, objects.div_ceil(BLOCK))?;
        Ok(Queue {
            alloc,
            shape,
            commit: 0,
            room: FIRST_ROOM,
            committed: values,
            entries: VecDeque::new(alloc),
            sources: VecDeque::new(alloc),
            writers,
            given,
            blocks,
        })
    }

    /// The shape of the world, within the limits.
    pub fn shape(&self) -> Shape
        ensures value { result ≡ self.now.shape }
        ensures limits { IsGoodShape result }
    {
        self.shape
    }

    /// The greatest position up to which all results are installed, 0 at first.
    pub fn commit(&self) -> u32
        ensures { result ≡ self.now.commit }
    {
        self.commit
    }

    /// The last position, 0 before the first action.
    pub fn last(&self) -> u32
        ensures { result ≡ last_position self.now }
    {
        self.commit + self.entries.len() as u32
    }

    /// How many slots there is room for.
    pub fn room(&self) -> u16
        ensures { result ≡ self.now.room }
    {
        self.room
    }

    /// The value of an object at the commit.
    pub fn committed(&self, object: ObjectId) -> &Value
        requires { object.0 < self.now.shape.objects }
        ensures value { result.now ≡ slice_index_or self.now.committed object.0 [] }
        ensures attrs { length result.now ≡ self.now.shape.attrs }
    {
        &self.committed.as_slice()[object.0 as usize]
    }

    /// The last writer of an object below a position where it is above the commit, else 0. One look-up.
    pub fn last_writer<L: Ledger>(&self, object: ObjectId, below: u32, steps: &mut Steps<L>) -> u32
        requires { object.0 < self.now.shape.objects }
        ensures writer { result ≡ last_writer (queue_actions self.now) object.0 below }
        ensures ticks { steps.new ≡ steps.old + 1 }
    {
        steps.tick();
        self.writer_below(object, below)
    }

    fn writer_below(&self, object: ObjectId, below: u32) -> u32
        requires { object.0 < self.now.shape.objects }
        ensures { result ≡ last_writer (queue_actions self.now) object.0 below }
    {
        self.writers.last_below(object, below)
    }

    /// The first uncommitted writer of an object. One look-up.
    pub fn first_writer<L: Ledger>(&self, object: ObjectId, steps: &mut Steps<L>) -> Option<u32>
        requires { object.0 < self.now.shape.objects }
        ensures writer { IfSome result (λ pos. IsFirstWriter (queue_actions self.now) object.0 pos) }
        ensures uncommitted { IfSome result (λ pos. self.now.commit < pos) }
        ensures none { IfNone result (IsUnwritten (queue_actions self.now) object.0) }
        ensures ticks { steps.new ≡ steps.old + 1 }
    {
        steps.tick();
        self.writers.first(object)
    }

    /// The last writer, below an uncommitted position, of what it reads at a place of its reads, where that is above the commit, else 0. One
    /// look-up.
    ///
    /// It is the answer of `last_writer`, without a search.
    pub fn source<L: Ledger>(&self, pos: u32, place: usize, steps: &mut Steps<L>) -> u32
        requires pos { IsUncommitted self.now pos }
        requires place { place < length (action_at (queue_actions self.now) pos).reads }
        ensures writer { result ≡ last_writer (queue_actions self.now) (slice_index_or (read_set (action_at (queue_actions self.now) pos)) place 0) pos }
        ensures ticks { steps.new ≡ steps.old + 1 }
    {
        steps.tick();
        let entry = (pos - self.commit - 1) as usize;
        let sources = &self.sources[entry];
        let source = sources.get(place);
        if self.commit < source { source } else { 0 }
    }

    /// The last writers of what an action at a position after all others reads.
    fn sources_at(&self, pos: u32, action: &Action) -> Sources
        requires { IsGoodAction self.now.shape action.now }
        ensures { (k : ℕ) → k < length action.now.reads → slice_index_or result k 0 ≡ last_writer (queue_actions self.now) (slice_index_or (read_set action.now) k 0) pos }
    {
        let mut sources = Sources::new();
        for slot in 0..action.reads.len() {
            let object = action.reads.as_slice()[slot];
            sources.set(slot, self.writer_below(object, pos));
        }
        sources
    }

    /// Whether an uncommitted position was sent to a slot. One look-up.
    pub fn is_marked<L: Ledger>(&self, pos: u32, slot: u16, steps: &mut Steps<L>) -> bool
        requires { IsUncommitted self.now pos }
        ensures marked { result ≡ is_in pos (sent_positions self.now slot) }
        ensures in_marks { result ≡ is_in slot (entry_at self.now pos).marks }
        ensures ticks { steps.new ≡ steps.old + 1 }
    {
        steps.tick();
        let place = (pos - self.commit - 1) as usize;
        let entry = &self.entries[place];
        entry.marks.has(slot)
    }

    /// Whether an uncommitted position was sent to one of some slots. One look-up.
    pub fn is_marked_for_any<L: Ledger>(
        &self,
        pos: u32,
        slots: &Slots,
        steps: &mut Steps<L>,
    ) -> bool
        requires { IsUncommitted self.now pos }
        ensures marked { result ≡ list_any (λ s. is_in pos (sent_positions self.now s)) slots.now.slots }
        ensures in_marks { result ≡ list_any (λ s. is_in s (entry_at self.now pos).marks) slots.now.slots }
        ensures ticks { steps.new ≡ steps.old + 1 }
    {
        steps.tick();
        let place = (pos - self.commit - 1) as usize;
        let entry = &self.entries[place];
        slots.meets(&entry.marks)
    }

    /// What stands at an uncommitted position. One look-up.
    pub fn entry<L: Ledger>(&self, pos: u32, steps: &mut Steps<L>) -> QueueEntry<'_>
        requires { IsUncommitted self.now pos }
        ensures author { result.author ≡ (entry_at self.now pos).author }
        ensures seq { result.seq ≡ (entry_at self.now pos).seq }
        ensures action { result.action.now ≡ (entry_at self.now pos).action }
        ensures has_result { result.has_result ≡ is_some (entry_at self.now pos).result }
        ensures placed { result.action.now ≡ action_at (queue_actions self.now) pos }
        ensures good { IsGoodAction self.now.shape result.action.now }
        ensures ticks { steps.new ≡ steps.old + 1 }
    {
        steps.tick();
        let place = (pos - self.commit - 1) as usize;
        let entry = &self.entries[place];
        QueueEntry {
            author: entry.author,
            seq: entry.seq,
            action: &entry.action,
            has_result: entry.result.is_some(),
        }
    }

    /// Whether an uncommitted position has a result. One look-up.
    pub fn has_result<L: Ledger>(&self, pos: u32, steps: &mut Steps<L>) -> bool
        requires { IsUncommitted self.now pos }
        ensures value { result ≡ is_some (entry_at self.now pos).result }
        ensures ticks { steps.new ≡ steps.old + 1 }
    {
        let entry = self.entry(pos, steps);
        entry.has_result
    }

    /// Whether a slot was given the committed value of an object.
    pub fn is_given(&self, object: ObjectId, slot: u16) -> bool
        requires { object.0 < self.now.shape.objects }
        ensures { result ≡ is_pair object.0 slot self.now.given }
    {
        let row = &self.given[object.0 as usize];
        row.has(slot)
    }

    /// Adds an action at the next position and answers that position.
    pub fn push(&mut self, author: ClientId, seq: u32, action: Action) -> Result<u32, AllocError>
        requires good { IsGoodAction self.old.shape action }
        requires room { last_position self.old < 2 ^ 32 - 1 }
        ensures position { IfOk result (λ pos. pos ≡ last_position self.new) }
        ensures ok { OnOk result (self.new ≡ with_action self.old author seq action) }
        ensures err { OnErr result (self.new ≡ self.old) }
    {
        let pos = self.commit + self.entries.len() as u32 + 1;
        let sources = self.sources_at(pos, &action);
        let marks = Slots::with_room(self.alloc, self.room)?;
        self.entries.reserve(1)?;
        self.sources.reserve(1)?;
        self.writers.add(&action, pos)?;
        self.sources.push_back_reserved(sources);
        let entry = WaitingAction {
            author,
            seq,
            action,
            result: None,
            marks,
        };
        match self.entries.push_back(entry) {
            Ok(()) => Ok(pos),
            Err(_) => unreachable!(),
        }
    }

    /// Takes the last action back.
    pub fn pop(&mut self)
        requires { 0 < length self.old.entries }
        ensures { self.new ≡ without_last self.old }
    {
        let entry = self.entries.pop_back().unwrap();
        self.sources.pop_back();
        self.writers.remove_last(&entry.action);
        drop(entry);
    }

    /// Marks an uncommitted position for a slot, to which it is sent.
    pub fn mark(&mut self, pos: u32, slot: u16)
        requires position { IsUncommitted self.old pos }
        requires slot { slot < self.old.room }
        ensures { self.new ≡ with_mark self.old pos slot }
    {
        let place = (pos - self.commit - 1) as usize;
        let entry = &mut self.entries[place];
        entry.marks.add(slot);
    }

    /// Keeps the result of an uncommitted position until it is installed.
    pub fn set_result(&mut self, pos: u32, values: Vec<Value>)
        requires position { IsUncommitted self.old pos }
        requires missing { IsNone (entry_at self.old pos).result }
        requires count { length values.items ≡ length (write_set (entry_at self.old pos).action) }
        requires attrs { HaveAttrs self.old.shape values.items }
        ensures { self.new ≡ with_result self.old pos values.items }
    {
        let place = (pos - self.commit - 1) as usize;
        let entry = &mut self.entries[place];
        entry.result = Some(List::from_vec(values));
    }

    /// Notes that a slot was given the committed value of an object.
    pub fn set_given(&mut self, object: ObjectId, slot: u16)
        requires object { object.0 < self.old.shape.objects }
        requires slot { slot < self.old.room }
        ensures { self.new ≡ with_given self.old object.0 slot }
    {
        let row = &mut self.given[object.0 as usize];
        row.add(slot);
        let block = &mut self.blocks[object.0 as usize / BLOCK];
        block.add(slot);
    }

    /// Makes room for so many slots.
    pub fn make_room(&mut self, slots: u16) -> Result<(), AllocError>
        requires { slots ≤ most_open }
        ensures ok { OnOk result ((slots ≤ self.new.room) × (self.new ≡ record self.old { room = self.new.room })) }
        ensures grows { self.old.room ≤ self.new.room }
        ensures err { OnErr result (self.new ≡ self.old) }
    {
        if slots <= self.room {
            return Ok(());
        }
        let room = slots.max(2 * self.room).min(MOST_OPEN);
        make_marks_room(&mut self.entries, room)?;
        make_given_room(&mut self.blocks, room)?;
        make_given_room(&mut self.given, room)?;
        self.room = room;
        Ok(())
    }

    /// Forgets what was sent and given to a slot, whose session is at its end.
    pub fn forget(&mut self, slot: u16)
        ensures { self.new ≡ without_slot self.old slot }
    {
        forget_marks(&mut self.entries, slot);
        forget_given(&mut self.given, &mut self.blocks, slot);
    }

    /// Commits the actions before the first that has no result, in order, and answers how many.
    pub fn install(&mut self) -> u32
        ensures count { result ≡ length (ready self.old.entries) }
        ensures installed { self.new ≡ ready_installed self.old }
    {
        let before = self.commit();
        while self.is_front_ready() {
            self.install_front();
        }
        self.commit() - before
    }

    fn is_front_ready(&self) -> bool
        ensures { result ≡ nat_lt 0 (length (ready self.now.entries)) }
    {
        match self.entries.front() {
            Some(entry) => entry.result.is_some(),
            None => false,
        }
    }

    fn install_front(&mut self)
        requires { 0 < length (ready self.old.entries) }
        ensures { self.new ≡ first_installed self.old }
    {
        let entry = self.entries.pop_front().unwrap();
        self.sources.pop_front();
        let WaitingAction {
            author: _,
            seq: _,
            action,
            result,
            marks,
        } = entry;
        put_values(&mut self.committed, &action, result.unwrap());
        self.writers.remove_first(&action);
        tell_blocks(&mut self.blocks, &action, &marks);
        give_written(&mut self.given, &action, &marks);
        self.commit += 1;
    }
}
