//! Going on to the next segment.
ghost use Rattle.std.specs.Prelude.{◌≡◌, ◌≢◌, ℕ, ◌<◌, ◌++◌, List, [], length, Some, None, OnOk};
ghost use Rattle.sv_bytes.specs.Faults.{ReadAllCause};
ghost use Rattle.sv_log.specs.Pictures.{seen, zeros};
ghost use Rattle.sv_log.specs.Crashes.{LeavesOnly};
ghost use Rattle.sv_log.specs.Texts.{whole_in};
ghost use Rattle.sv_log.specs.Rests.{IsAtRest, SegmentGoesOn};
ghost use Rattle.sv_log.specs.Logs.{HasSizes, LogStands, appended};
ghost use Rattle.sv_log.specs.Names.{world_name};
ghost use Rattle.sv_log.specs.Chains.{HasLog, KeepsLog};
ghost use Rattle.sv_log.specs.OpenLogs.{IsOpenLog, shown, newest, log_text, log_synced};

use super::closing::cut_synced;
use super::folder::Folder;
use super::log::Log;
use super::names::segment_name;
use super::starting::make_synced;
use sv_bytes::FileFault;

impl<F: Folder> Log<F> {
    /// Puts all that was appended on the disk, and goes on in the next segment: the last one is cut off behind its text. One that has no
    /// line stays the last one.
    ///
    /// After an `Err` nothing is asked of the log: it is opened anew.
    pub fn next_segment(&mut self) -> Result<(), FileFault>
        requires sizes { HasSizes self.old.segment }
        requires open { F.is_honest self.old.segment.folder → IsOpenLog F.disk self.old }
        ensures sizes { HasSizes self.new.segment }
        ensures open { F.is_honest self.new.segment.folder → OnOk result (IsOpenLog F.disk self.new) }
        ensures rest { F.is_honest self.new.segment.folder → OnOk result (IsAtRest (F.disk self.new.segment.folder)) }
        ensures text { F.is_honest self.new.segment.folder → OnOk result (log_text F.disk self.new ≡ log_text F.disk self.old) }
        ensures empty { F.is_honest self.new.segment.folder → OnOk result (appended F.disk self.new.segment ≡ []) }
        ensures next { OnOk result (self.new.next ≡ self.old.next) }
        ensures state { self.new.state ≡ self.old.state }
        ensures newest { F.is_honest self.new.segment.folder → OnOk result (newest F.disk self.new ≡ newest F.disk self.old) }
        ensures world { F.is_honest self.new.segment.folder → OnOk result (shown F.disk self.new world_name ≡ shown F.disk self.old world_name) }
        ensures any_moment { F.is_honest self.new.segment.folder → (world : List ℕ) → shown F.disk self.old world_name ≡ Some world
            → LeavesOnly (F.disk self.old.segment.folder) (F.disk self.new.segment.folder)
            (KeepsLog world (newest F.disk self.old) (log_synced F.disk self.old) (log_text F.disk self.old)) }
        ensures honest { F.is_honest self.new.segment.folder → F.is_honest self.old.segment.folder }
        ensures cause { ReadAllCause (F.faults self.old.segment.folder) (F.faults self.new.segment.folder) result }
    {
        self.sync()?;
        if self.segment.length == 0 {
            return Ok(());
        }
        self.close_segment()?;
        Ok(())
    }

    // Closes the segment, whose text is synced, and goes on in the next one.
    fn close_segment(&mut self) -> Result<(), FileFault>
        requires sizes { HasSizes self.old.segment }
        requires open { F.is_honest self.old.segment.folder → IsOpenLog F.disk self.old }
        requires rest { F.is_honest self.old.segment.folder → IsAtRest (F.disk self.old.segment.folder) }
        requires some { 0 < self.old.segment.length }
        ensures sizes { HasSizes self.new.segment }
        ensures open { F.is_honest self.new.segment.folder → OnOk result (IsOpenLog F.disk self.new) }
        ensures rest { F.is_honest self.new.segment.folder → OnOk result (IsAtRest (F.disk self.new.segment.folder)) }
        ensures text { F.is_honest self.new.segment.folder → OnOk result (log_text F.disk self.new ≡ log_text F.disk self.old) }
        ensures empty { F.is_honest self.new.segment.folder → OnOk result (appended F.disk self.new.segment ≡ []) }
        ensures next { OnOk result (self.new.next ≡ self.old.next) }
        ensures state { self.new.state ≡ self.old.state }
        ensures newest { F.is_honest self.new.segment.folder → OnOk result (newest F.disk self.new ≡ newest F.disk self.old) }
        ensures world { F.is_honest self.new.segment.folder → OnOk result (shown F.disk self.new world_name ≡ shown F.disk self.old world_name) }
        ensures any_moment { F.is_honest self.new.segment.folder → (world : List ℕ) → shown F.disk self.old world_name ≡ Some world
            → LeavesOnly (F.disk self.old.segment.folder) (F.disk self.new.segment.folder)
            (HasLog world (newest F.disk self.old) (log_text F.disk self.old)) }
        ensures honest { F.is_honest self.new.segment.folder → F.is_honest self.old.segment.folder }
        ensures cause { ReadAllCause (F.faults self.old.segment.folder) (F.faults self.new.segment.folder) result }
    {
        // No log has as many lines as that.
        if self.next >= u64::MAX {
            return Err(FileFault::Memory);
        }
        let Ok(name) = segment_name(self.alloc, self.next) else {
            return Err(FileFault::Memory);
        };
        if self.closed.push(self.first).is_err() {
            return Err(FileFault::Memory);
        }
        let segment = &mut self.segment;
        next_file(
            &mut segment.folder,
            segment.name.as_str(),
            segment.length,
            name.as_str(),
            segment.spare,
        )?;
        segment.name = name;
        segment.synced = 0;
        segment.length = 0;
        segment.size = segment.spare;
        self.first = self.next;
        Ok(())
    }
}
// Closes a segment, and makes the next one.
fn next_file<F: Folder>(
    folder: &mut F,
    name: &str,
    size: usize,
    next: &str,
    spare: usize,
) -> Result<(), FileFault>
    requires rest { F.is_honest folder.old → IsAtRest (F.disk folder.old) }
    requires file { F.is_honest folder.old
        → (room : ℕ) × (seen (F.disk folder.old) name.now ≡ Some (whole_in (seen (F.disk folder.old) name.now) ++ zeros room)) }
    requires size { F.is_honest folder.old → size ≡ length (whole_in (seen (F.disk folder.old) name.now)) }
    requires none { F.is_honest folder.old → seen (F.disk folder.old) next.now ≡ None }
    requires differ { F.is_honest folder.old → next.now ≢ name.now }
    ensures stands { F.is_honest folder.new → OnOk result (LogStands (F.disk folder.new) next.now [] [] spare) }
    ensures rest { F.is_honest folder.new → OnOk result (IsAtRest (F.disk folder.new)) }
    ensures file { F.is_honest folder.new → OnOk result (seen (F.disk folder.new) name.now ≡ Some (whole_in (seen (F.disk folder.old) name.now))) }
    ensures others { F.is_honest folder.new
        → OnOk result ((n : List ℕ) → n ≢ name.now → n ≢ next.now → seen (F.disk folder.new) n ≡ seen (F.disk folder.old) n) }
    ensures any_moment { F.is_honest folder.new
        → LeavesOnly (F.disk folder.old) (F.disk folder.new) (SegmentGoesOn (seen (F.disk folder.old)) name.now next.now) }
    ensures honest { F.is_honest folder.new → F.is_honest folder.old }
    ensures cause { ReadAllCause (F.faults folder.old) (F.faults folder.new) result }
{
    cut_synced(folder, name, size)?;
    make_synced(folder, next, spare)?;
    Ok(())
}
