//! Opening a log that was read.
ghost use Rattle.std.specs.Prelude.{◌≡◌, ℕ, List, [], Some, None, OnOk, IfOk, IfErr, string_bytes};
ghost use Rattle.sv_bytes.specs.Faults.{ReadAllCause};
ghost use Rattle.sv_log.specs.Pictures.{seen};
ghost use Rattle.sv_log.specs.Crashes.{LeavesOnly, SameBut};
ghost use Rattle.sv_log.specs.Texts.{whole_in};
ghost use Rattle.sv_log.specs.Logs.{HasSizes, IsOpen, appended, synced};
ghost use Rattle.sv_log.specs.Causes.{FaultCause};
ghost use Rattle.sv_log.specs.Rests.{IsAtRest};
ghost use Rattle.sv_log.specs.Names.{segment_name, world_name};
ghost use Rattle.sv_log.specs.Chains.{StateFile, no_state, IsFresh, HasLog, SameLog};
ghost use Rattle.sv_log.specs.OpenLogs.{IsOpenLog, shown, newest, log_text, log_synced};
ghost use Rattle.sv_log.specs.Readings.{read_state, Reads, HasWorld, IsReadyToOpen, LastBecomes};

use super::folder::Folder;
use super::log::Log;
use super::mending::rest_of;
use super::names::{NEW, WORLD, rest_name, segment_name};
use super::reading::Reading;
use super::segment::Segment;
use super::starting::read_file;
use super::whole::put_whole;
use std::alloc::Global;
use sv_bytes::FileFault;

impl<F: Folder> Log<F> {
    /// Mends what a crash left, and opens the log that was read. The folder is as it was when it was read.
    ///
    /// It may crash too, and leaves the same log then. An `Err` hands the folder back.
    pub fn open(
        alloc: Global,
        mut folder: F,
        reading: Reading,
        world: &[u8],
        spare: usize,
    ) -> Result<Log<F>, (FileFault, F)>
        requires rest { F.is_honest folder → IsAtRest (F.disk folder) }
        requires read { F.is_honest folder → Reads world.now (seen (F.disk folder)) reading }
        ensures sizes { IfOk result (λ log. HasSizes log.segment) }
        ensures open { IfOk result (λ log. F.is_honest log.segment.folder → IsOpenLog F.disk log) }
        ensures text { IfOk result (λ log. F.is_honest log.segment.folder → log_text F.disk log ≡ reading.text.items) }
        ensures synced { IfOk result (λ log. F.is_honest log.segment.folder → log_synced F.disk log ≡ reading.text.items) }
        ensures state { IfOk result (λ log. log.state ≡ reading.state) }
        ensures newest { IfOk result (λ log. F.is_honest log.segment.folder → newest F.disk log ≡ read_state reading) }
        ensures world { IfOk result (λ log. F.is_honest log.segment.folder → shown F.disk log world_name ≡ Some world.now) }
        ensures any_moment { IfOk result (λ log. F.is_honest log.segment.folder
            → LeavesOnly (F.disk folder) (F.disk log.segment.folder) (HasLog world.now (read_state reading) reading.text.items)) }
        ensures any_moment_err { IfErr result (λ e. F.is_honest e.1
            → LeavesOnly (F.disk folder) (F.disk e.1) (HasLog world.now (read_state reading) reading.text.items)) }
        ensures honest { IfOk result (λ log. F.is_honest log.segment.folder → F.is_honest folder) }
        ensures honest_err { IfErr result (λ e. F.is_honest e.1 → F.is_honest folder) }
        ensures cause { IfErr result (λ e. FaultCause (F.faults folder) (F.faults e.1) e.0) }
        ensures calm { IfOk result (λ log. F.faults log.segment.folder ≡ F.faults folder) }
    {
        let name = match prepare(alloc, &mut folder, &reading, world) {
            Ok(name) => name,
            Err(fault) => return Err((fault, folder)),
        };
        let segment = match open_last(alloc, folder, reading.last, name, spare) {
            Ok(segment) => segment,
            Err(error) => return Err(error),
        };
        Ok(Log {
            alloc,
            segment,
            first: reading.last.unwrap_or(1),
            closed: reading.closed,
            next: reading.next,
            state: reading.state,
        })
    }
}

// Makes the last segment, or mends it.
fn open_last<F: Folder>(
    alloc: Global,
    folder: F,
    last: Option<u64>,
    name: String,
    spare: usize,
) -> Result<Segment<F>, (FileFault, F)>
    requires rest { F.is_honest folder → IsAtRest (F.disk folder) }
    requires none { F.is_honest folder → last ≡ None → seen (F.disk folder) (string_bytes name) ≡ None }
    ensures sizes { IfOk result (λ log. HasSizes log) }
    ensures open { IfOk result (λ log. F.is_honest log.folder → IsOpen F.disk log) }
    ensures text { IfOk result (λ log. F.is_honest log.folder → appended F.disk log ≡ whole_in (seen (F.disk folder) (string_bytes name))) }
    ensures synced { IfOk result (λ log. F.is_honest log.folder → synced F.disk log ≡ appended F.disk log) }
    ensures others { IfOk result (λ log. F.is_honest log.folder → SameBut (string_bytes name) (seen (F.disk log.folder)) (seen (F.disk folder))) }
    ensures any_moment { IfOk result (λ log. F.is_honest log.folder
        → LeavesOnly (F.disk folder) (F.disk log.folder) (LastBecomes last (seen (F.disk folder)) (string_bytes name))) }
    ensures any_moment_err { IfErr result (λ e. F.is_honest e.1
        → LeavesOnly (F.disk folder) (F.disk e.1) (LastBecomes last (seen (F.disk folder)) (string_bytes name))) }
    ensures name { IfOk result (λ log. log.name ≡ name) }
    ensures honest { IfOk result (λ log. F.is_honest log.folder → F.is_honest folder) }
    ensures honest_err { IfErr result (λ e. F.is_honest e.1 → F.is_honest folder) }
    ensures cause { IfErr result (λ e. FaultCause (F.faults folder) (F.faults e.1) e.0) }
    ensures calm { IfOk result (λ log. F.faults log.folder ≡ F.faults folder) }
{
    match last {
        None => Segment::start(folder, name, spare),
        Some(_) => Segment::recover(alloc, folder, name, spare),
    }
}

// Puts the world into a folder that has none, or keeps what stands behind the text of the last segment. Gives the name of the last segment.
fn prepare<F: Folder>(
    alloc: Global,
    folder: &mut F,
    reading: &Reading,
    world: &[u8],
) -> Result<String, FileFault>
    requires rest { F.is_honest folder.old → IsAtRest (F.disk folder.old) }
    requires read { F.is_honest folder.old → Reads world.now (seen (F.disk folder.old)) reading.now }
    ensures rest { F.is_honest folder.new → OnOk result (IsAtRest (F.disk folder.new)) }
    ensures ready { F.is_honest folder.new → IfOk result (λ name. IsReadyToOpen world.now (seen (F.disk folder.new)) reading.now (string_bytes name)) }
    ensures any_moment { F.is_honest folder.new
        → LeavesOnly (F.disk folder.old) (F.disk folder.new) (HasLog world.now (read_state reading.now) reading.now.text.items) }
    ensures honest { F.is_honest folder.new → F.is_honest folder.old }
    ensures cause { ReadAllCause (F.faults folder.old) (F.faults folder.new) result }
{
    match reading.last {
        None => {
            settle_world(folder, reading.has_world, world)?;
            segment_name(alloc, 1).map_err(|_| FileFault::Memory)
        }
        Some(last) => {
            let Ok(name) = segment_name(alloc, last) else {
                return Err(FileFault::Memory);
            };
            let bytes = read_file(alloc, folder, name.as_str())?;
            keep_rest(alloc, folder, &bytes, reading.next)?;
            Ok(name)
        }
    }
}

// Puts the world into a folder that has no log, unless it is there.
fn settle_world<F: Folder>(folder: &mut F, has_world: bool, world: &[u8]) -> Result<(), FileFault>
    requires rest { F.is_honest folder.old → IsAtRest (F.disk folder.old) }
    requires fresh { F.is_honest folder.old → IsFresh world.now (seen (F.disk folder.old)) }
    requires own { F.is_honest folder.old → HasWorld (seen (F.disk folder.old) world_name) world.now has_world }
    ensures rest { F.is_honest folder.new → OnOk result (IsAtRest (F.disk folder.new)) }
    ensures put { F.is_honest folder.new
        → OnOk result (IsFresh world.now (seen (F.disk folder.new)) × (seen (F.disk folder.new) world_name ≡ Some world.now)) }
    ensures any_moment { F.is_honest folder.new → LeavesOnly (F.disk folder.old) (F.disk folder.new) (HasLog world.now no_state []) }
    ensures honest { F.is_honest folder.new → F.is_honest folder.old }
    ensures cause { ReadAllCause (F.faults folder.old) (F.faults folder.new) result }
{
    if has_world {
        return Ok(());
    }
    put_world(folder, world)
}

// Puts the world into a folder that has no log.
fn put_world<F: Folder>(folder: &mut F, world: &[u8]) -> Result<(), FileFault>
    requires rest { F.is_honest folder.old → IsAtRest (F.disk folder.old) }
    requires fresh { F.is_honest folder.old → IsFresh world.now (seen (F.disk folder.old)) }
    ensures rest { F.is_honest folder.new → OnOk result (IsAtRest (F.disk folder.new)) }
    ensures put { F.is_honest folder.new
        → OnOk result (IsFresh world.now (seen (F.disk folder.new)) × (seen (F.disk folder.new) world_name ≡ Some world.now)) }
    ensures any_moment { F.is_honest folder.new → LeavesOnly (F.disk folder.old) (F.disk folder.new) (HasLog world.now no_state []) }
    ensures honest { F.is_honest folder.new → F.is_honest folder.old }
    ensures cause { ReadAllCause (F.faults folder.old) (F.faults folder.new) result }
{
    put_whole(folder, NEW, WORLD, world)?;
    Ok(())
}

// Keeps what stands behind the text of a segment beside it.
fn keep_rest<F: Folder>(
    alloc: Global,
    folder: &mut F,
    bytes: &[u8],
    next: u64,
) -> Result<(), FileFault>
    requires rest { F.is_honest folder.old → IsAtRest (F.disk folder.old) }
    ensures rest { F.is_honest folder.new → OnOk result (IsAtRest (F.disk folder.new)) }
    ensures same { F.is_honest folder.new → OnOk result (SameLog (seen (F.disk folder.new)) (seen (F.disk folder.old))) }
    ensures any_moment { F.is_honest folder.new → (world : List ℕ) → (state : StateFile) → (text : List ℕ)
        → HasLog world state text (seen (F.disk folder.old))
        → LeavesOnly (F.disk folder.old) (F.disk folder.new) (HasLog world state text) }
    ensures honest { F.is_honest folder.new → F.is_honest folder.old }
    ensures cause { ReadAllCause (F.faults folder.old) (F.faults folder.new) result }
{
    let rest = rest_of(bytes);
    if rest.is_empty() {
        return Ok(());
    }
    let Ok(name) = rest_name(alloc, next) else {
        return Err(FileFault::Memory);
    };
    put_whole(folder, NEW, name.as_str(), rest)?;
    Ok(())
}
