//! The log of a folder: its segments and states.
ghost use Rattle.std.specs.Prelude.{◌≡◌, ◌+◌, ◌++◌, List, ℕ, Some, OnOk, ◌≤◌, length};
ghost use Rattle.sv_bytes.specs.Faults.{ReadAllCause};
ghost use Rattle.sv_log.specs.Crashes.{LeavesOnly};
ghost use Rattle.sv_log.specs.Texts.{IsText, IsFront};
ghost use Rattle.sv_log.specs.Logs.{HasSizes};
ghost use Rattle.sv_log.specs.Rests.{IsAtRest};
ghost use Rattle.sv_log.specs.Names.{world_name};
ghost use Rattle.sv_log.specs.Chains.{lines, KeepsLog};
ghost use Rattle.sv_log.specs.OpenLogs.{IsOpenLog, shown, newest, log_text, log_synced};

use super::folder::Folder;
use super::segment::Segment;
use std::alloc::Global;
use sv_bytes::FileFault;

/// A log that is appended to.
#[derive(Drop)]
pub struct Log<F: Folder> {
    pub alloc: Global,
    pub segment: Segment<F>,
    /// The numbers of the segments behind the newest state, but for the last one.
    pub closed: Vec<u64>,
    /// The number of the first line of the last segment.
    pub first: u64,
    /// The number of the next line.
    pub next: u64,
    /// The number of the line after which the newest state was taken, or 0.
    pub state: u64,
}

impl<F: Folder> Log<F> {
    /// Appends lines: bytes of whole lines, with no zero byte. They are safe once a `sync` was answered Ok.
    ///
    /// After an `Err` nothing is asked of the log: it is opened anew.
    pub fn append(&mut self, text: &[u8]) -> Result<(), FileFault>
        requires sizes { HasSizes self.old.segment }
        requires open { F.is_honest self.old.segment.folder → IsOpenLog F.disk self.old }
        requires lines { IsText text.now }
        ensures sizes { HasSizes self.new.segment }
        ensures open { F.is_honest self.new.segment.folder → OnOk result (IsOpenLog F.disk self.new) }
        ensures text { F.is_honest self.new.segment.folder → OnOk result (log_text F.disk self.new ≡ log_text F.disk self.old ++ text.now) }
        ensures synced { F.is_honest self.new.segment.folder → OnOk result (IsFront (log_synced F.disk self.old) (log_synced F.disk self.new)) }
        ensures any_moment { F.is_honest self.new.segment.folder → (world : List ℕ) → shown F.disk self.old world_name ≡ Some world
            → LeavesOnly (F.disk self.old.segment.folder) (F.disk self.new.segment.folder)
            (KeepsLog world (newest F.disk self.old) (log_synced F.disk self.old) (log_text F.disk self.old ++ text.now)) }
        ensures next { OnOk result (self.new.next ≡ self.old.next + lines text.now) }
        ensures state { self.new.state ≡ self.old.state }
        ensures newest { F.is_honest self.new.segment.folder → OnOk result (newest F.disk self.new ≡ newest F.disk self.old) }
        ensures world { F.is_honest self.new.segment.folder → OnOk result (shown F.disk self.new world_name ≡ shown F.disk self.old world_name) }
        ensures honest { F.is_honest self.new.segment.folder → F.is_honest self.old.segment.folder }
        ensures cause { ReadAllCause (F.faults self.old.segment.folder) (F.faults self.new.segment.folder) result }
    {
        // No log has as many lines as that.
        let Some(next) = self.next.checked_add(line_count(text)) else {
            return Err(FileFault::Memory);
        };
        self.segment.append(text)?;
        self.next = next;
        Ok(())
    }

    /// Puts all that was appended on the disk.
    ///
    /// After an `Err` nothing is asked of the log: it is opened anew.
    pub fn sync(&mut self) -> Result<(), FileFault>
        requires sizes { HasSizes self.old.segment }
        requires open { F.is_honest self.old.segment.folder → IsOpenLog F.disk self.old }
        ensures sizes { HasSizes self.new.segment }
        ensures open { F.is_honest self.new.segment.folder → OnOk result (IsOpenLog F.disk self.new) }
        ensures text { F.is_honest self.new.segment.folder → OnOk result (log_text F.disk self.new ≡ log_text F.disk self.old) }
        ensures synced { F.is_honest self.new.segment.folder → OnOk result (log_synced F.disk self.new ≡ log_text F.disk self.old) }
        ensures rest { F.is_honest self.new.segment.folder → OnOk result (IsAtRest (F.disk self.new.segment.folder)) }
        ensures any_moment { F.is_honest self.new.segment.folder → (world : List ℕ) → shown F.disk self.old world_name ≡ Some world
            → LeavesOnly (F.disk self.old.segment.folder) (F.disk self.new.segment.folder)
            (KeepsLog world (newest F.disk self.old) (log_synced F.disk self.old) (log_text F.disk self.old)) }
        ensures next { self.new.next ≡ self.old.next }
        ensures state { self.new.state ≡ self.old.state }
        ensures newest { F.is_honest self.new.segment.folder → OnOk result (newest F.disk self.new ≡ newest F.disk self.old) }
        ensures world { F.is_honest self.new.segment.folder → OnOk result (shown F.disk self.new world_name ≡ shown F.disk self.old world_name) }
        ensures honest { F.is_honest self.new.segment.folder → F.is_honest self.old.segment.folder }
        ensures cause { ReadAllCause (F.faults self.old.segment.folder) (F.faults self.new.segment.folder) result }
    {
        self.segment.sync()?;
        Ok(())
    }
}

/// How many lines a text has.
pub fn line_count(text: &[u8]) -> u64
    ensures { result ≡ lines text.now }
{
    let mut count = 0;
    let mut start = 0;
    while start < text.len() {
        let end = text.len().min(start + SHORT);
        count += u64::from(short_count(&text[start..end]));
        start = end;
    }
    count
}

/// A count of so many bytes fits into a byte.
const SHORT: usize = 255;

// Counts in a byte, so that many bytes go at once.
fn short_count(text: &[u8]) -> u8
    requires { length text.now ≤ 255 }
    ensures { result ≡ lines text.now }
{
    let mut count = 0;
    for byte in text {
        count += u8::from(*byte == 10);
    }
    count
}
