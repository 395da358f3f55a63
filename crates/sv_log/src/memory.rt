//! A folder in memory.
ghost use Rattle.std.specs.Prelude.{◌≡◌, ◌⊎◌, ◌≤◌, ◌<◌, ◌-◌, ◌+◌, ◌^◌, ℕ, List, [], ◌∷◌, ◌++◌, length, map, take, drop, min, OnOk, OnErr, IfOk, Option, Some, None, Contains, ◌↔◌, IsTrue, true, false, ◌≢◌, Err, IsSome, MatchOption, string_bytes};
ghost use Rattle.sv_bytes.specs.Faults.{ReadAllCause};
ghost use Rattle.sv_log.specs.Pictures.{Disk, Makes, seen, seen_after};
ghost use Rattle.sv_bytes.specs.Stored.{contents_of};
ghost use Rattle.sv_log.specs.Reads.{Lists};
ghost use Rattle.sv_log.specs.Rests.{IsAtRest};
ghost use Rattle.sv_log.specs.Memory.{call_of, disk_of, latest_first, bytes_in, target, StartsIn, NamedIn, Adds};

use super::calls::{AskedCall, KeptCall};
use super::crash::{Loss, files_left};
use super::folder::Folder;
use super::replay::{Stored, bytes_after};
use std::alloc::{AllocError, Global};
use sv_bytes::{CallPlan, FaultCount, FileFault};

/// A folder in memory, with a list of calls that fail.
///
/// All calls are counted together, from 1. Its files are computed anew from all calls at each read: it is for tests.
#[derive(Drop)]
pub struct MemFolder {
    alloc: Global,
    start: Vec<Stored>,
    calls: Vec<KeptCall>,
    plan: CallPlan,
    faults: FaultCount,
}

impl MemFolder {
    ghost use Rattle.sv_log.specs.Folders.{disk_in_memory};

    /// An empty folder, and no call that fails.
    #[tactic(auto, using(crate::proofs::Fresh::fresh_rest))]
    pub fn new(alloc: Global) -> MemFolder
        ensures past { (disk_in_memory result).past ≡ [] }
        ensures rest { IsAtRest (disk_in_memory result) }
    {
        MemFolder {
            alloc,
            start: Vec::new(alloc),
            calls: Vec::new(alloc),
            plan: CallPlan::new(alloc),
            faults: FaultCount::new(),
        }
    }

    /// Lets this call fail.
    pub fn fail_at(&mut self, call: u64) -> Result<(), AllocError>
        ensures { disk_in_memory self.new ≡ disk_in_memory self.old }
    {
        self.plan.fail_at(call)
    }

    /// The bytes of a file.
    pub fn file(&self, name: &str) -> Result<Option<Vec<u8>>, AllocError>
        ensures { IfOk result (λ file. bytes_in file ≡ seen (disk_in_memory self.now) name.now) }
    {
        bytes_after(self.alloc, &self.start, &self.calls, self.calls.len(), name)
    }

    /// How many changes and syncs were asked for.
    pub fn asked(&self) -> usize {
        self.calls.len()
    }

    /// The folder that a crash leaves which comes after so many of the calls.
    #[tactic(auto, using(crate::proofs::Fresh::fresh_rest))]
    pub fn crashed(&self, count: usize, loss: Loss) -> Result<MemFolder, AllocError>
        ensures rest { IfOk result (λ left. IsAtRest (disk_in_memory left)) }
    {
        let count = count.min(self.calls.len());
        let alloc = self.alloc;
        let start = files_left(alloc, &self.start, &self.calls, count, loss)?;
        Ok(MemFolder {
            alloc,
            start,
            calls: Vec::new(alloc),
            plan: CallPlan::new(alloc),
            faults: FaultCount::new(),
        })
    }

    /// A folder with these bytes under this name too. It is at rest if no call was made.
    #[tactic(auto, using(crate::proofs::Fresh::fresh_rest))]
    pub fn with_file(mut self, name: &str, bytes: &[u8]) -> Result<MemFolder, AllocError>
        ensures rest { IfOk result (λ new. (disk_in_memory self).past ≡ [] → IsAtRest (disk_in_memory new)) }
    {
        let name = String::from_str(self.alloc, name)?;
        let bytes = Vec::from_slice(self.alloc, bytes)?;
        self.start.push(Stored { name, bytes })?;
        Ok(self)
    }

    // Makes a call, unless it is one that fails.
    fn note(&mut self, call: AskedCall) -> Result<(), FileFault>
        ensures made { Makes (call_of call) (disk_in_memory self.old) (disk_in_memory self.new) result }
        ensures cause { ReadAllCause self.old.faults.value self.new.faults.value result }
    {
        let fails = self.plan.next_fails();
        let Ok(()) = keep(&mut self.calls, call, !fails) else {
            return Err(FileFault::Memory);
        };
        if fails {
            self.faults.raise();
            return Err(FileFault::Failed);
        }
        Ok(())
    }
}

// Keeps a call.
fn keep(calls: &mut Vec<KeptCall>, call: AskedCall, done: bool) -> Result<(), AllocError>
    ensures ok { OnOk result (latest_first calls.new.items ≡ (call_of call, done) ∷ latest_first calls.old.items) }
    ensures err { OnErr result (calls.new.items ≡ calls.old.items) }
{
    calls.push(KeptCall { call, done })?;
    Ok(())
}

fn owned(alloc: Global, name: &str) -> Result<String, FileFault>
    ensures name { IfOk result (λ t. string_bytes t ≡ name.now) }
    ensures err { result ≢ Err FileFault.Failed }
{
    String::from_str(alloc, name).map_err(|_| FileFault::Memory)
}

fn owned_bytes(alloc: Global, bytes: &[u8]) -> Result<Vec<u8>, FileFault>
    ensures bytes { IfOk result (λ v. v.items ≡ bytes.now) }
    ensures err { result ≢ Err FileFault.Failed }
{
    Vec::from_slice(alloc, bytes).map_err(|_| FileFault::Memory)
}

impl Folder for MemFolder {
    ghost use Rattle.sv_log.specs.Folders.{disk_in_memory};

    ghost disk = { disk_in_memory };

    ghost is_honest = { λ _. Unit {0} };

    ghost faults = { λ s. s.faults.value };

    fn names(&mut self, alloc: Global) -> Result<Vec<String>, FileFault> {
        if self.plan.next_fails() {
            self.faults.raise();
            return Err(FileFault::Failed);
        }
        match listed(alloc, &self.start, &self.calls) {
            Ok(names) => Ok(names),
            Err(_) => Err(FileFault::Memory),
        }
    }

    fn read_at(&mut self, name: &str, at: usize, into: &mut [u8]) -> Result<usize, FileFault> {
        if self.plan.next_fails() {
            self.faults.raise();
            return Err(FileFault::Failed);
        }
        let Ok(file) = self.file(name) else {
            return Err(FileFault::Memory);
        };
        let Some(bytes) = file else {
            self.faults.raise();
            return Err(FileFault::Failed);
        };
        Ok(copied(bytes.as_slice(), at, into))
    }

    fn make(&mut self, name: &str, size: usize) -> Result<(), FileFault> {
        let name = owned(self.alloc, name)?;
        self.note(AskedCall::Make(name, size))
    }

    fn grow(&mut self, name: &str, size: usize) -> Result<(), FileFault> {
        let name = owned(self.alloc, name)?;
        self.note(AskedCall::Grow(name, size))
    }

    fn write_at(&mut self, name: &str, at: usize, bytes: &[u8]) -> Result<(), FileFault> {
        let name = owned(self.alloc, name)?;
        let bytes = owned_bytes(self.alloc, bytes)?;
        self.note(AskedCall::Write(name, at, bytes))
    }

    fn cut(&mut self, name: &str, size: usize) -> Result<(), FileFault> {
        let name = owned(self.alloc, name)?;
        self.note(AskedCall::Truncate(name, size))
    }

    fn rename(&mut self, from: &str, to: &str) -> Result<(), FileFault> {
        let from = owned(self.alloc, from)?;
        let to = owned(self.alloc, to)?;
        self.note(AskedCall::Rename(from, to))
    }

    fn remove(&mut self, name: &str) -> Result<(), FileFault> {
        let name = owned(self.alloc, name)?;
        self.note(AskedCall::Remove(name))
    }

    fn sync(&mut self, name: &str) -> Result<(), FileFault> {
        let name = owned(self.alloc, name)?;
        self.note(AskedCall::Sync(name))
    }

    fn sync_folder(&mut self) -> Result<(), FileFault> {
        self.note(AskedCall::SyncFolder)
    }
}

// Copies bytes from an offset on, as many as fit.
fn copied(bytes: &[u8], at: usize, into: &mut [u8]) -> usize
    ensures count { result ≡ min (length into.new) (length bytes.now - at) }
    ensures bytes { take result into.new ≡ take result (drop at bytes.now) }
{
    let rest = &bytes[at.min(bytes.len())..];
    let count = rest.len().min(into.len());
    into[..count].copy_from_slice(&rest[..count]);
    count
}

// The names of the files that are there. One may be listed twice.
fn listed(alloc: Global, start: &[Stored], calls: &[KeptCall]) -> Result<Vec<String>, AllocError>
    ensures { IfOk result (λ names. Lists (seen_after (contents_of start.now) (latest_first calls.now)) (map string_bytes names.items)) }
{
    let mut names = Vec::new(alloc);
    add_start(alloc, &mut names, start, calls)?;
    add_calls(alloc, &mut names, start, calls)?;
    Ok(names)
}

// Lists the files that were there at the start and still are.
fn add_start(
    alloc: Global,
    names: &mut Vec<String>,
    start: &[Stored],
    calls: &[KeptCall],
) -> Result<(), AllocError>
    ensures has { OnOk result ((n : List ℕ) → IsSome (seen_after (contents_of start.now) (latest_first calls.now) n) → StartsIn start.now n
        → Contains (map string_bytes names.new.items) n) }
    ensures only { OnOk result ((n : List ℕ) → Contains (map string_bytes names.new.items) n
        → Contains (map string_bytes names.old.items) n ⊎ IsSome (seen_after (contents_of start.now) (latest_first calls.now) n)) }
{
    for i in 0..start.len() {
        add_name(alloc, names, start, calls, start[i].name())?;
    }
    Ok(())
}

// Lists the files that calls named, and that are there.
fn add_calls(
    alloc: Global,
    names: &mut Vec<String>,
    start: &[Stored],
    calls: &[KeptCall],
) -> Result<(), AllocError>
    ensures keeps { OnOk result ((n : List ℕ) → Contains (map string_bytes names.old.items) n → Contains (map string_bytes names.new.items) n) }
    ensures has { OnOk result ((n : List ℕ) → IsSome (seen_after (contents_of start.now) (latest_first calls.now) n) → NamedIn calls.now n
        → Contains (map string_bytes names.new.items) n) }
    ensures only { OnOk result ((n : List ℕ) → Contains (map string_bytes names.new.items) n
        → Contains (map string_bytes names.old.items) n ⊎ IsSome (seen_after (contents_of start.now) (latest_first calls.now) n)) }
{
    for i in 0..calls.len() {
        add_call(alloc, names, start, calls, &calls[i])?;
    }
    Ok(())
}

// Lists the file that a call names, if it is there.
fn add_call(
    alloc: Global,
    names: &mut Vec<String>,
    start: &[Stored],
    calls: &[KeptCall],
    kept: &KeptCall,
) -> Result<(), AllocError>
    ensures { OnOk result (Adds (seen_after (contents_of start.now) (latest_first calls.now)) (target (call_of kept.now.call))
        (map string_bytes names.old.items) (map string_bytes names.new.items)) }
{
    match target_of(&kept.call) {
        Some(name) => add_name(alloc, names, start, calls, name),
        None => Ok(()),
    }
}

fn target_of(call: &AskedCall) -> Option<&str>
    ensures { MatchOption result (target (call_of call.now) ≡ None) (λ name. target (call_of call.now) ≡ Some name.now) }
{
    match call {
        AskedCall::Make(name, _) => Some(name.as_str()),
        AskedCall::Rename(_, name) => Some(name.as_str()),
        AskedCall::Grow(_, _) => None,
        AskedCall::Write(_, _, _) => None,
        AskedCall::Truncate(_, _) => None,
        AskedCall::Remove(_) => None,
        AskedCall::Sync(_) => None,
        AskedCall::SyncFolder => None,
    }
}

// Lists a name, if its file is there.
fn add_name(
    alloc: Global,
    names: &mut Vec<String>,
    start: &[Stored],
    calls: &[KeptCall],
    name: &str,
) -> Result<(), AllocError>
    ensures { OnOk result (Adds (seen_after (contents_of start.now) (latest_first calls.now)) (Some name.now) (map string_bytes names.old.items)
        (map string_bytes names.new.items)) }
{
    if bytes_after(alloc, start, calls, calls.len(), name)?.is_some() {
        names.push(String::from_str(alloc, name)?)?;
    }
    Ok(())
}
