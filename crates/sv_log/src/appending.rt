//! Appending lines to a segment.
ghost use Rattle.std.specs.Prelude.{◌≡◌, ◌-◌, ◌≤◌, ◌++◌, length, take, drop, OnOk, string_bytes};
ghost use Rattle.sv_bytes.specs.Faults.{ReadAllCause};
ghost use Rattle.sv_log.specs.Pictures.{seen};
ghost use Rattle.sv_log.specs.Crashes.{LeavesOnly, SameBut};
ghost use Rattle.sv_log.specs.Texts.{IsText, IsFront};
ghost use Rattle.sv_log.specs.Rests.{IsAtRest};
ghost use Rattle.sv_log.specs.Logs.{HasSizes, IsOpen, appended, synced, Within};

use super::folder::Folder;
use super::segment::Segment;
use sv_bytes::FileFault;

impl<F: Folder> Segment<F> {
    /// Appends lines: bytes of whole lines, with no zero byte. They are safe once a `sync` was answered Ok.
    ///
    /// After an `Err` nothing is asked of the log: it is opened anew.
    pub fn append(&mut self, lines: &[u8]) -> Result<(), FileFault>
        requires sizes { HasSizes self.old }
        requires open { F.is_honest self.old.folder → IsOpen F.disk self.old }
        requires lines { IsText lines.now }
        ensures sizes { HasSizes self.new }
        ensures open { F.is_honest self.new.folder → OnOk result (IsOpen F.disk self.new) }
        ensures text { F.is_honest self.new.folder → OnOk result (appended F.disk self.new ≡ appended F.disk self.old ++ lines.now) }
        ensures synced { F.is_honest self.new.folder → OnOk result (IsFront (synced F.disk self.old) (synced F.disk self.new)) }
        ensures any_moment { F.is_honest self.new.folder → LeavesOnly (F.disk self.old.folder) (F.disk self.new.folder)
            (Within (seen (F.disk self.old.folder)) (string_bytes self.old.name) (synced F.disk self.old) (appended F.disk self.old ++ lines.now)) }
        ensures others { F.is_honest self.new.folder
            → OnOk result (SameBut (string_bytes self.old.name) (seen (F.disk self.new.folder)) (seen (F.disk self.old.folder))) }
        ensures name { self.new.name ≡ self.old.name }
        ensures honest { F.is_honest self.new.folder → F.is_honest self.old.folder }
        ensures cause { ReadAllCause (F.faults self.old.folder) (F.faults self.new.folder) result }
    {
        self.ready(lines.len())?;
        self.write(lines)
    }

    /// Puts all that was appended on the disk.
    ///
    /// After an `Err` nothing is asked of the log: it is opened anew.
    pub fn sync(&mut self) -> Result<(), FileFault>
        requires sizes { HasSizes self.old }
        requires open { F.is_honest self.old.folder → IsOpen F.disk self.old }
        ensures sizes { HasSizes self.new }
        ensures open { F.is_honest self.new.folder → OnOk result (IsOpen F.disk self.new) }
        ensures text { F.is_honest self.new.folder → OnOk result (appended F.disk self.new ≡ appended F.disk self.old) }
        ensures synced { F.is_honest self.new.folder → OnOk result (synced F.disk self.new ≡ appended F.disk self.old) }
        ensures any_moment { F.is_honest self.new.folder → LeavesOnly (F.disk self.old.folder) (F.disk self.new.folder)
            (Within (seen (F.disk self.old.folder)) (string_bytes self.old.name) (synced F.disk self.old) (appended F.disk self.old)) }
        ensures others { F.is_honest self.new.folder
            → OnOk result (SameBut (string_bytes self.old.name) (seen (F.disk self.new.folder)) (seen (F.disk self.old.folder))) }
        ensures rest { F.is_honest self.new.folder → OnOk result (IsAtRest (F.disk self.new.folder)) }
        ensures name { self.new.name ≡ self.old.name }
        ensures honest { F.is_honest self.new.folder → F.is_honest self.old.folder }
        ensures cause { ReadAllCause (F.faults self.old.folder) (F.faults self.new.folder) result }
    {
        self.folder.sync(self.name.as_str())?;
        self.synced = self.length;
        Ok(())
    }

    // Sees to it that so many bytes fit behind the text.
    fn ready(&mut self, least: usize) -> Result<(), FileFault>
        requires sizes { HasSizes self.old }
        requires open { F.is_honest self.old.folder → IsOpen F.disk self.old }
        ensures sizes { HasSizes self.new }
        ensures open { F.is_honest self.new.folder → OnOk result (IsOpen F.disk self.new) }
        ensures room { OnOk result (least ≤ self.new.size - self.new.length) }
        ensures text { F.is_honest self.new.folder → OnOk result (appended F.disk self.new ≡ appended F.disk self.old) }
        ensures synced { F.is_honest self.new.folder → OnOk result (IsFront (synced F.disk self.old) (synced F.disk self.new)) }
        ensures any_moment { F.is_honest self.new.folder → LeavesOnly (F.disk self.old.folder) (F.disk self.new.folder)
            (Within (seen (F.disk self.old.folder)) (string_bytes self.old.name) (synced F.disk self.old) (appended F.disk self.old)) }
        ensures others { F.is_honest self.new.folder
            → OnOk result (SameBut (string_bytes self.old.name) (seen (F.disk self.new.folder)) (seen (F.disk self.old.folder))) }
        ensures name { self.new.name ≡ self.old.name }
        ensures honest { F.is_honest self.new.folder → F.is_honest self.old.folder }
        ensures cause { ReadAllCause (F.faults self.old.folder) (F.faults self.new.folder) result }
    {
        if self.size - self.length < least {
            return self.make_room(least);
        }
        Ok(())
    }

    // Adds zeros for so many bytes and more, and syncs them, and the text with them.
    #[inline(never)]
    fn make_room(&mut self, least: usize) -> Result<(), FileFault>
        requires sizes { HasSizes self.old }
        requires open { F.is_honest self.old.folder → IsOpen F.disk self.old }
        ensures sizes { HasSizes self.new }
        ensures open { F.is_honest self.new.folder → OnOk result (IsOpen F.disk self.new) }
        ensures room { OnOk result (least ≤ self.new.size - self.new.length) }
        ensures text { F.is_honest self.new.folder → OnOk result (appended F.disk self.new ≡ appended F.disk self.old) }
        ensures synced { F.is_honest self.new.folder → OnOk result (IsFront (synced F.disk self.old) (synced F.disk self.new)) }
        ensures any_moment { F.is_honest self.new.folder → LeavesOnly (F.disk self.old.folder) (F.disk self.new.folder)
            (Within (seen (F.disk self.old.folder)) (string_bytes self.old.name) (synced F.disk self.old) (appended F.disk self.old)) }
        ensures others { F.is_honest self.new.folder
            → OnOk result (SameBut (string_bytes self.old.name) (seen (F.disk self.new.folder)) (seen (F.disk self.old.folder))) }
        ensures name { self.new.name ≡ self.old.name }
        ensures honest { F.is_honest self.new.folder → F.is_honest self.old.folder }
        ensures cause { ReadAllCause (F.faults self.old.folder) (F.faults self.new.folder) result }
    {
        let more = least.saturating_add(self.spare);
        // No file is as long as that.
        let Some(size) = self.size.checked_add(more) else {
            return Err(FileFault::Memory);
        };
        let name = self.name.as_str();
        self.folder.grow(name, more)?;
        self.folder.sync(name)?;
        self.size = size;
        self.synced = self.length;
        Ok(())
    }

    // Writes lines over the zeros behind the text.
    fn write(&mut self, lines: &[u8]) -> Result<(), FileFault>
        requires sizes { HasSizes self.old }
        requires open { F.is_honest self.old.folder → IsOpen F.disk self.old }
        requires lines { IsText lines.now }
        requires room { length lines.now ≤ self.old.size - self.old.length }
        ensures sizes { HasSizes self.new }
        ensures open { F.is_honest self.new.folder → OnOk result (IsOpen F.disk self.new) }
        ensures text { F.is_honest self.new.folder → OnOk result (appended F.disk self.new ≡ appended F.disk self.old ++ lines.now) }
        ensures synced { F.is_honest self.new.folder → OnOk result (synced F.disk self.new ≡ synced F.disk self.old) }
        ensures any_moment { F.is_honest self.new.folder → LeavesOnly (F.disk self.old.folder) (F.disk self.new.folder)
            (Within (seen (F.disk self.old.folder)) (string_bytes self.old.name) (synced F.disk self.old) (appended F.disk self.old ++ lines.now)) }
        ensures others { F.is_honest self.new.folder
            → OnOk result (SameBut (string_bytes self.old.name) (seen (F.disk self.new.folder)) (seen (F.disk self.old.folder))) }
        ensures name { self.new.name ≡ self.old.name }
        ensures honest { F.is_honest self.new.folder → F.is_honest self.old.folder }
        ensures cause { ReadAllCause (F.faults self.old.folder) (F.faults self.new.folder) result }
    {
        self.folder
            .write_at(self.name.as_str(), self.length, lines)?;
        self.length += lines.len();
        Ok(())
    }
}
