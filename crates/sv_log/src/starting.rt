//! A segment's file: made, or read and mended, and then appended to.
ghost use Rattle.std.specs.Prelude.{◌≡◌, [], Some, None, OnOk, IfOk, IfErr, string_bytes};
ghost use Rattle.sv_bytes.specs.Faults.{ReadAllCause};
ghost use Rattle.sv_log.specs.Pictures.{seen};
ghost use Rattle.sv_log.specs.Crashes.{LeavesOnly, SameBut};
ghost use Rattle.sv_log.specs.Texts.{whole_in};
ghost use Rattle.sv_log.specs.Rests.{IsAtRest, Tells, Mends};
ghost use Rattle.sv_log.specs.Logs.{HasSizes, IsOpen, LogStands, appended, synced};
ghost use Rattle.sv_log.specs.Causes.{FaultCause};

use super::folder::Folder;
use super::mending::{clear_behind, text_length};
use super::segment::Segment;
use std::alloc::Global;
use sv_bytes::FileFault;

/// How many bytes a read asks for.
const PIECE: usize = 4096;

/// Reads a whole file.
pub fn read_file<F: Folder>(alloc: Global, folder: &mut F, name: &str) -> Result<Vec<u8>, FileFault>
    ensures bytes { F.is_honest folder.new → IfOk result (λ v. seen (F.disk folder.old) name.now ≡ Some v.items) }
    ensures same { F.disk folder.new ≡ F.disk folder.old }
    ensures honest { F.is_honest folder.new → F.is_honest folder.old }
    ensures cause { ReadAllCause (F.faults folder.old) (F.faults folder.new) result }
{
    let mut bytes = Vec::new(alloc);
    let mut piece = [0u8; PIECE];
    for _ in 0..u64::MAX {
        let count = folder.read_at(name, bytes.len(), &mut piece)?;
        if bytes.extend_from_slice(&piece[..count]).is_err() {
            return Err(FileFault::Memory);
        }
        if count < PIECE {
            return Ok(bytes);
        }
    }
    Err(FileFault::Memory)
}

/// Makes a file of zeros, and syncs it and its name.
pub fn make_synced<F: Folder>(folder: &mut F, name: &str, size: usize) -> Result<(), FileFault>
    requires rest { F.is_honest folder.old → IsAtRest (F.disk folder.old) }
    requires none { F.is_honest folder.old → seen (F.disk folder.old) name.now ≡ None }
    ensures stands { F.is_honest folder.new → OnOk result (LogStands (F.disk folder.new) name.now [] [] size) }
    ensures rest { F.is_honest folder.new → OnOk result (IsAtRest (F.disk folder.new)) }
    ensures others { F.is_honest folder.new → OnOk result (SameBut name.now (seen (F.disk folder.new)) (seen (F.disk folder.old))) }
    ensures any_moment { F.is_honest folder.new → LeavesOnly (F.disk folder.old) (F.disk folder.new) (Tells (seen (F.disk folder.old)) name.now []) }
    ensures honest { F.is_honest folder.new → F.is_honest folder.old }
    ensures cause { ReadAllCause (F.faults folder.old) (F.faults folder.new) result }
{
    folder.make(name, size)?;
    folder.sync(name)?;
    folder.sync_folder()
}

impl<F: Folder> Segment<F> {
    /// Makes a new segment, which has no line.
    ///
    /// An `Err` hands the folder back.
    pub fn start(mut folder: F, name: String, spare: usize) -> Result<Segment<F>, (FileFault, F)>
        requires rest { F.is_honest folder → IsAtRest (F.disk folder) }
        requires none { F.is_honest folder → seen (F.disk folder) (string_bytes name) ≡ None }
        ensures sizes { IfOk result (λ log. HasSizes log) }
        ensures open { IfOk result (λ log. F.is_honest log.folder → IsOpen F.disk log × (appended F.disk log ≡ [])) }
        ensures rest { IfOk result (λ log. F.is_honest log.folder → IsAtRest (F.disk log.folder)) }
        ensures others { IfOk result (λ log. F.is_honest log.folder → SameBut (string_bytes name) (seen (F.disk log.folder)) (seen (F.disk folder))) }
        ensures any_moment { IfOk result (λ log. F.is_honest log.folder
            → LeavesOnly (F.disk folder) (F.disk log.folder) (Tells (seen (F.disk folder)) (string_bytes name) [])) }
        ensures any_moment_err { IfErr result (λ e. F.is_honest e.1
            → LeavesOnly (F.disk folder) (F.disk e.1) (Tells (seen (F.disk folder)) (string_bytes name) [])) }
        ensures honest { IfOk result (λ log. F.is_honest log.folder → F.is_honest folder) }
        ensures honest_err { IfErr result (λ e. F.is_honest e.1 → F.is_honest folder) }
        ensures name { IfOk result (λ log. log.name ≡ name) }
        ensures cause { IfErr result (λ e. FaultCause (F.faults folder) (F.faults e.1) e.0) }
        ensures calm { IfOk result (λ log. F.faults log.folder ≡ F.faults folder) }
    {
        match make_synced(&mut folder, name.as_str(), spare) {
            Err(fault) => Err((fault, folder)),
            Ok(()) => Ok(Segment {
                folder,
                name,
                synced: 0,
                length: 0,
                size: spare,
                spare,
            }),
        }
    }

    /// Opens a segment that a crash may have left. It may crash too, and leaves the same lines then.
    ///
    /// An `Err` hands the folder back.
    pub fn recover(
        alloc: Global,
        mut folder: F,
        name: String,
        spare: usize,
    ) -> Result<Segment<F>, (FileFault, F)>
        requires rest { F.is_honest folder → IsAtRest (F.disk folder) }
        ensures sizes { IfOk result (λ log. HasSizes log) }
        ensures open { IfOk result (λ log. F.is_honest log.folder → IsOpen F.disk log
            × (appended F.disk log ≡ whole_in (seen (F.disk folder) (string_bytes name))) × (synced F.disk log ≡ appended F.disk log)) }
        ensures rest { IfOk result (λ log. F.is_honest log.folder → IsAtRest (F.disk log.folder)) }
        ensures others { IfOk result (λ log. F.is_honest log.folder → SameBut (string_bytes name) (seen (F.disk log.folder)) (seen (F.disk folder))) }
        ensures any_moment { IfOk result (λ log. F.is_honest log.folder → LeavesOnly (F.disk folder) (F.disk log.folder)
            (Mends (seen (F.disk folder)) (string_bytes name) (whole_in (seen (F.disk folder) (string_bytes name))))) }
        ensures any_moment_err { IfErr result (λ e. F.is_honest e.1 → LeavesOnly (F.disk folder) (F.disk e.1)
            (Mends (seen (F.disk folder)) (string_bytes name) (whole_in (seen (F.disk folder) (string_bytes name))))) }
        ensures honest { IfOk result (λ log. F.is_honest log.folder → F.is_honest folder) }
        ensures honest_err { IfErr result (λ e. F.is_honest e.1 → F.is_honest folder) }
        ensures name { IfOk result (λ log. log.name ≡ name) }
        ensures cause { IfErr result (λ e. FaultCause (F.faults folder) (F.faults e.1) e.0) }
        ensures calm { IfOk result (λ log. F.faults log.folder ≡ F.faults folder) }
    {
        let bytes = match read_file(alloc, &mut folder, name.as_str()) {
            Ok(bytes) => bytes,
            Err(fault) => return Err((fault, folder)),
        };
        let end = text_length(&bytes);
        match clear_behind(alloc, &mut folder, name.as_str(), &bytes, end) {
            Err(fault) => Err((fault, folder)),
            Ok(()) => Ok(Segment {
                folder,
                name,
                synced: end,
                length: end,
                size: bytes.len(),
                spare,
            }),
        }
    }
}
