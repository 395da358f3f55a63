//! Writing a state.
ghost use Rattle.std.specs.Prelude.{◌≡◌, ℕ, ◌+◌, ◌-◌, ◌<◌, ◌++◌, List, [], Some, OnOk, IfOk};
ghost use Rattle.sv_bytes.specs.Faults.{ReadAllCause};
ghost use Rattle.sv_log.specs.Crashes.{LeavesOnly};
ghost use Rattle.sv_log.specs.Rests.{IsAtRest};
ghost use Rattle.sv_log.specs.Logs.{HasSizes, appended};
ghost use Rattle.sv_log.specs.Names.{world_name};
ghost use Rattle.sv_log.specs.Chains.{sum_line};
ghost use Rattle.sv_log.specs.States.{summed, IsPutState, KeepsOrPuts};
ghost use Rattle.sv_log.specs.OpenLogs.{IsOpenLog, shown, newest, log_text, log_synced};

use super::folder::Folder;
use super::log::Log;
use super::names::{NEW, state_name};
use super::states::sum_line;
use super::whole::put_whole;
use std::alloc::{AllocError, Global};
use sv_bytes::FileFault;

impl<F: Folder> Log<F> {
    /// Goes on in the next segment, and writes a state after the last line: these bytes, and the line with their sum.
    ///
    /// No state is written where no line is behind the newest one. After an `Err` nothing is asked of the log: it is opened anew.
    pub fn put_state(&mut self, bytes: &[u8]) -> Result<(), FileFault>
        requires sizes { HasSizes self.old.segment }
        requires open { F.is_honest self.old.segment.folder → IsOpenLog F.disk self.old }
        ensures sizes { HasSizes self.new.segment }
        ensures open { F.is_honest self.new.segment.folder → OnOk result (IsOpenLog F.disk self.new) }
        ensures rest { F.is_honest self.new.segment.folder → OnOk result (IsAtRest (F.disk self.new.segment.folder)) }
        ensures newest { F.is_honest self.new.segment.folder
            → OnOk result (IsPutState (newest F.disk self.old) (self.old.next - 1) bytes.now (newest F.disk self.new)) }
        ensures text { F.is_honest self.new.segment.folder → OnOk result (log_text F.disk self.new ≡ []) }
        ensures next { OnOk result (self.new.next ≡ self.old.next) }
        ensures world { F.is_honest self.new.segment.folder → OnOk result (shown F.disk self.new world_name ≡ shown F.disk self.old world_name) }
        ensures any_moment { F.is_honest self.new.segment.folder → (world : List ℕ) → shown F.disk self.old world_name ≡ Some world
            → LeavesOnly (F.disk self.old.segment.folder) (F.disk self.new.segment.folder)
            (KeepsOrPuts world (newest F.disk self.old) (log_synced F.disk self.old) (log_text F.disk self.old) (self.old.next - 1) bytes.now) }
        ensures honest { F.is_honest self.new.segment.folder → F.is_honest self.old.segment.folder }
        ensures cause { ReadAllCause (F.faults self.old.segment.folder) (F.faults self.new.segment.folder) result }
    {
        self.next_segment()?;
        let number = self.next.saturating_sub(1);
        if number <= self.state {
            return Ok(());
        }
        self.write_state(number, bytes)?;
        Ok(())
    }

    // Writes the state after the line of this number, which is the last one.
    fn write_state(&mut self, number: u64, bytes: &[u8]) -> Result<(), FileFault>
        requires sizes { HasSizes self.old.segment }
        requires open { F.is_honest self.old.segment.folder → IsOpenLog F.disk self.old }
        requires rest { F.is_honest self.old.segment.folder → IsAtRest (F.disk self.old.segment.folder) }
        requires empty { F.is_honest self.old.segment.folder → appended F.disk self.old.segment ≡ [] }
        requires last { number + 1 ≡ self.old.next }
        requires later { self.old.state < number }
        ensures sizes { HasSizes self.new.segment }
        ensures open { F.is_honest self.new.segment.folder → OnOk result (IsOpenLog F.disk self.new) }
        ensures rest { F.is_honest self.new.segment.folder → OnOk result (IsAtRest (F.disk self.new.segment.folder)) }
        ensures newest { F.is_honest self.new.segment.folder → OnOk result (newest F.disk self.new ≡ summed number bytes.now) }
        ensures text { F.is_honest self.new.segment.folder → OnOk result (log_text F.disk self.new ≡ []) }
        ensures next { OnOk result (self.new.next ≡ self.old.next) }
        ensures world { F.is_honest self.new.segment.folder → OnOk result (shown F.disk self.new world_name ≡ shown F.disk self.old world_name) }
        ensures any_moment { F.is_honest self.new.segment.folder → (world : List ℕ) → shown F.disk self.old world_name ≡ Some world
            → LeavesOnly (F.disk self.old.segment.folder) (F.disk self.new.segment.folder)
            (KeepsOrPuts world (newest F.disk self.old) (log_text F.disk self.old) (log_text F.disk self.old) number bytes.now) }
        ensures honest { F.is_honest self.new.segment.folder → F.is_honest self.old.segment.folder }
        ensures cause { ReadAllCause (F.faults self.old.segment.folder) (F.faults self.new.segment.folder) result }
    {
        let Ok(name) = state_name(self.alloc, number) else {
            return Err(FileFault::Memory);
        };
        let Ok(whole) = with_sum(self.alloc, bytes) else {
            return Err(FileFault::Memory);
        };
        put_whole(&mut self.segment.folder, NEW, name.as_str(), &whole)?;
        self.state = number;
        self.closed.clear();
        Ok(())
    }
}

// The bytes of a state, with the line of their sum.
fn with_sum(alloc: Global, bytes: &[u8]) -> Result<Vec<u8>, AllocError>
    ensures { IfOk result (λ v. v.items ≡ bytes.now ++ sum_line bytes.now) }
{
    let line = sum_line(alloc, bytes)?;
    let mut whole = Vec::from_slice(alloc, bytes)?;
    whole.extend_from_slice(line.as_bytes())?;
    Ok(whole)
}
