//! Files and a sink in memory.
ghost use Rattle.std.specs.Prelude.{◌≡◌, ◌≢◌, ℕ, ◌+◌, ◌-◌, ◌^◌, ◌<◌, ◌≤◌, List, [], ◌∷◌, ◌++◌, Some, None, is_some, length, Contains, IfOk, OnOk, OnErr, ◌↔◌, ◌⊎◌, true};
ghost use Rattle.std.specs.Option.{option_copied};
ghost use Rattle.std.specs.Vec.{vec_len, vec_capacity};
ghost use Rattle.sv_bytes.specs.Plans.{next_call};
ghost use Rattle.sv_bytes.specs.Reading.{BeginsAt, is_ready, IsPiece, ReadsNext};
ghost use Rattle.sv_bytes.specs.Stored.{contents_of};
ghost use Rattle.sv_bytes.specs.Writing.{TakesSome, WritesFront};

use super::faults::FaultCount;
use super::plan::CallPlan;
use super::reading::{Begun, Files, Read};
use super::stored::{Stored, Unread};
use super::writing::{Sink, Wrote};
use std::alloc::{AllocError, Global};

/// Files in memory, with a list of calls that fail.
///
/// `begin` and `read` are counted together, from 1. A name that is not held fails.
#[derive(Drop)]
pub struct MemFiles {
    alloc: Global,
    stored: Vec<Stored>,
    current: Option<Unread>,
    plan: CallPlan,
    faults: FaultCount,
}

impl MemFiles {
    ghost use Rattle.sv_bytes.specs.Memory.{files_of, failing_reads, read_step, reads_made, file_left, files_faults, SameReads, can_give, GaveJust, KeepsRest};

    /// No file, and no call that fails.
    pub fn new(alloc: Global) -> MemFiles
        ensures none { files_of result ≡ [] }
        ensures calm { failing_reads result ≡ [] }
        ensures step { read_step result ≡ 2 ^ 64 - 1 }
        ensures calls { (reads_made result ≡ 0) × (file_left result ≡ None) × (files_faults result ≡ 0) }
    {
        MemFiles {
            alloc,
            stored: Vec::new(alloc),
            current: None,
            plan: CallPlan::new(alloc),
            faults: FaultCount::new(),
        }
    }

    /// Adds a file. Where a name is added twice, the first of the two is the one that is read.
    pub fn add(&mut self, name: &str, bytes: &[u8]) -> Result<(), AllocError>
        ensures ok { OnOk result (files_of self.new ≡ files_of self.old ++ (name.now, bytes.now) ∷ []) }
        ensures err { OnErr result (files_of self.new ≡ files_of self.old) }
        ensures plan { (failing_reads self.new ≡ failing_reads self.old) × (read_step self.new ≡ read_step self.old) }
        ensures calls { SameReads self.old self.new }
    {
        let name = Vec::from_slice(self.alloc, name.as_bytes())?;
        let bytes = Vec::from_slice(self.alloc, bytes)?;
        self.stored.push(Stored { name, bytes })?;
        Ok(())
    }

    /// Lets this call of `begin` or `read` fail.
    pub fn fail_at(&mut self, call: u64) -> Result<(), AllocError>
        ensures ok { OnOk result (failing_reads self.new ≡ failing_reads self.old ++ call ∷ []) }
        ensures err { OnErr result (failing_reads self.new ≡ failing_reads self.old) }
        ensures rest { (files_of self.new ≡ files_of self.old) × (read_step self.new ≡ read_step self.old) }
        ensures calls { SameReads self.old self.new }
    {
        self.plan.fail_at(call)
    }

    /// Lets each read give at most `step` bytes.
    pub fn give_at_most(&mut self, step: usize)
        requires { 0 < step }
        ensures step { read_step self.new ≡ step }
        ensures rest { (files_of self.new ≡ files_of self.old) × (failing_reads self.new ≡ failing_reads self.old) }
        ensures calls { SameReads self.old self.new }
    {
        self.plan.step = step;
    }

    /// What `begin` does: it fails just where this call is listed, or no file has the name.
    pub fn open(&mut self, name: &str) -> Begun
        ensures made { reads_made self.new ≡ next_call (reads_made self.old) }
        ensures fails { result ≡ Begun.Failed ↔ (Contains (failing_reads self.new) (reads_made self.new) ⊎ (contents_of (files_of self.old) name.now ≡ None)) }
        ensures begins { BeginsAt (contents_of (files_of self.old) name.now) (file_left self.new) result }
        ensures open { is_some (file_left self.new) ≡ is_ready result }
        ensures fault { result ≡ Begun.Failed → files_faults self.new ≡ files_faults self.old + 1 }
        ensures faultless { result ≢ Begun.Failed → files_faults self.new ≡ files_faults self.old }
        ensures rest { (files_of self.new ≡ files_of self.old) × (failing_reads self.new ≡ failing_reads self.old) × (read_step self.new ≡ read_step self.old) }
    {
        self.current = None;
        if self.plan.next_fails() {
            self.faults.raise();
            return Begun::Failed;
        }
        let Some(bytes) = find(&self.stored, name.as_bytes()) else {
            self.faults.raise();
            return Begun::Failed;
        };
        let Ok(bytes) = Vec::from_slice(self.alloc, bytes) else {
            return Begun::Memory;
        };
        self.current = Some(Unread::new(bytes));
        Begun::Ready
    }

    /// What `read` does: it fails just where this call is listed, and else gives as much as is left, fits, and the step allows.
    pub fn give(&mut self, into: &mut [u8]) -> Read
        requires open { is_some (file_left self.old) ≡ true }
        requires room { 0 < length into.old }
        ensures made { reads_made self.new ≡ next_call (reads_made self.old) }
        ensures fails { result ≡ Read.Failed ↔ Contains (failing_reads self.new) (reads_made self.new) }
        ensures piece { IsPiece (length into.old) result }
        ensures just { GaveJust (can_give (file_left self.old) (length into.old) (read_step self.old)) result }
        ensures bytes { ReadsNext (file_left self.old) (file_left self.new) into.new result }
        ensures kept { KeepsRest into.old into.new result }
        ensures fault { result ≡ Read.Failed → files_faults self.new ≡ files_faults self.old + 1 }
        ensures faultless { result ≢ Read.Failed → files_faults self.new ≡ files_faults self.old }
        ensures rest { (files_of self.new ≡ files_of self.old) × (failing_reads self.new ≡ failing_reads self.old) × (read_step self.new ≡ read_step self.old) }
    {
        if self.plan.next_fails() {
            self.faults.raise();
            return Read::Failed;
        }
        let step = self.plan.step;
        let Some(unread) = &mut self.current else {
            unreachable!()
        };
        match unread.read(into, step) {
            0 => Read::Ended,
            count => Read::Got(count),
        }
    }
}

impl Files for MemFiles {
    ghost use Rattle.std.specs.Prelude.{◌≡◌, [], IsSome, is_some};
    ghost use Rattle.sv_bytes.specs.Stored.{contents_of};
    ghost use Rattle.sv_bytes.specs.Memory.{files_of, failing_reads};

    ghost contents = { λ s name. contents_of (files_of s) name };

    ghost left = { λ s. s.current };

    ghost is_open = { λ s. is_some s.current };

    ghost sure = { λ s name. (failing_reads s ≡ []) × IsSome (contents_of (files_of s) name) };

    ghost calm = { λ s. failing_reads s ≡ [] };

    ghost faults = { λ s. s.faults.value };

    fn begin(&mut self, name: &str) -> Begun {
        self.open(name)
    }

    fn read(&mut self, into: &mut [u8]) -> Read {
        self.give(into)
    }
}

// The bytes of the first file of this name.
fn find<'a>(stored: &'a [Stored], name: &[u8]) -> Option<&'a [u8]>
    ensures { option_copied result ≡ contents_of stored.now name.now }
{
    for file in stored {
        if file.name() == name {
            return Some(file.bytes());
        }
    }
    None
}

/// Bytes taken in memory, with a list of calls that fail.
///
/// Calls of `write` are counted from 1. A write that finds no room fails.
#[derive(Drop)]
pub struct MemSink {
    bytes: Vec<u8>,
    room: usize,
    plan: CallPlan,
    faults: FaultCount,
    ghost fits: { (vec_len bytes ≤ room) × (room ≤ vec_capacity bytes) },
}

impl MemSink {
    ghost use Rattle.sv_bytes.specs.Memory.{sink_bytes, failing_writes, write_step, sink_room, writes_made, sink_faults, SameWrites, can_take, TookJust};

    /// An empty sink with room for so many bytes, and no call that fails.
    pub fn with_room(alloc: Global, room: usize) -> Result<MemSink, AllocError>
        ensures empty { IfOk result (λ sink. sink_bytes sink ≡ []) }
        ensures calm { IfOk result (λ sink. failing_writes sink ≡ []) }
        ensures room { IfOk result (λ sink. sink_room sink ≡ room) }
        ensures step { IfOk result (λ sink. write_step sink ≡ 2 ^ 64 - 1) }
        ensures calls { IfOk result (λ sink. (writes_made sink ≡ 0) × (sink_faults sink ≡ 0)) }
    {
        Ok(MemSink {
            bytes: Vec::with_capacity(alloc, room)?,
            room,
            plan: CallPlan::new(alloc),
            faults: FaultCount::new(),
        })
    }

    /// The bytes taken so far.
    pub fn bytes(&self) -> &[u8]
        ensures { result.now ≡ sink_bytes self.now }
    {
        self.bytes.as_slice()
    }

    /// Lets this call of `write` fail.
    pub fn fail_at(&mut self, call: u64) -> Result<(), AllocError>
        ensures ok { OnOk result (failing_writes self.new ≡ failing_writes self.old ++ call ∷ []) }
        ensures err { OnErr result (failing_writes self.new ≡ failing_writes self.old) }
        ensures rest { (sink_bytes self.new ≡ sink_bytes self.old) × (write_step self.new ≡ write_step self.old) }
        ensures calls { SameWrites self.old self.new }
    {
        self.plan.fail_at(call)
    }

    /// Lets each write take at most `step` bytes.
    pub fn take_at_most(&mut self, step: usize)
        requires { 0 < step }
        ensures step { write_step self.new ≡ step }
        ensures rest { (sink_bytes self.new ≡ sink_bytes self.old) × (failing_writes self.new ≡ failing_writes self.old) }
        ensures calls { SameWrites self.old self.new }
    {
        self.plan.step = step;
    }

    /// What `write` does: it fails just where this call is listed or it can take no byte, and else takes as much as there is room and the
    /// step allows.
    pub fn take_front(&mut self, piece: &[u8]) -> Wrote
        ensures made { writes_made self.new ≡ next_call (writes_made self.old) }
        ensures fails { result ≡ Wrote.Failed ↔ (Contains (failing_writes self.new) (writes_made self.new) ⊎ (can_take self.old (length piece.now) ≡ 0)) }
        ensures count { TakesSome (length piece.now) result }
        ensures just { TookJust (can_take self.old (length piece.now)) result }
        ensures bytes { WritesFront (Some (sink_bytes self.old)) (Some (sink_bytes self.new)) piece.now result }
        ensures fault { result ≡ Wrote.Failed → sink_faults self.new ≡ sink_faults self.old + 1 }
        ensures faultless { result ≢ Wrote.Failed → sink_faults self.new ≡ sink_faults self.old }
        ensures rest { (sink_room self.new ≡ sink_room self.old) × (failing_writes self.new ≡ failing_writes self.old) × (write_step self.new ≡ write_step self.old) }
    {
        let room = self.room - self.bytes.len();
        let count = piece.len().min(room).min(self.plan.step);
        if self.plan.next_fails() || count == 0 {
            self.faults.raise();
            return Wrote::Failed;
        }
        self.bytes.extend_from_slice(&piece[..count]).unwrap();
        Wrote::Took(count)
    }
}

impl Sink for MemSink {
    ghost use Rattle.std.specs.Prelude.{Some};
    ghost use Rattle.sv_bytes.specs.Memory.{sink_bytes};

    ghost taken = { λ s. Some (sink_bytes s) };

    ghost faults = { λ s. s.faults.value };

    fn write(&mut self, piece: &[u8]) -> Wrote {
        self.take_front(piece)
    }
}
