//! A folder, as the log sees it.
ghost use Rattle.std.specs.Prelude.{◌≡◌, ℕ, ◌≤◌, ◌<◌, List, Option, Some, None, length, map, Contains, IsSome, IfOk, ◌↔◌};
ghost use Rattle.std.specs.String.{string_bytes};
ghost use Rattle.sv_bytes.specs.Faults.{ReadAllCause};
ghost use Rattle.sv_log.specs.Pictures.{Disk, seen, Makes, FileHasRoom, Make, Grow, Write, Truncate, Rename, Remove, Sync, SyncFolder};
ghost use Rattle.sv_log.specs.Reads.{ReadsPart, Lists};

use std::alloc::Global;
use sv_bytes::FileFault;

/// The files of one folder, by name.
///
/// A call that answers `Failed` may have been done in part. What a crash leaves is told by what was asked so far.
pub trait Folder {
    // The folder as it was found, and what was asked of it since.
    ghost disk: { Self → Disk };

    // What was read is what was written.
    ghost is_honest: { Self → Type 0 };

    // How many calls failed.
    ghost faults: { Self → ℕ };

    /// The names of all files.
    fn names(&mut self, alloc: Global) -> Result<Vec<String>, FileFault>
        ensures listed { is_honest self.new → IfOk result (λ names. Lists (seen (disk self.old)) (map string_bytes names.items)) }
        ensures same { disk self.new ≡ disk self.old }
        ensures honest { is_honest self.new → is_honest self.old }
        ensures cause { ReadAllCause (faults self.old) (faults self.new) result };

    /// Reads from an offset on as many bytes as fit. Fewer come only at the end of the file.
    fn read_at(&mut self, name: &str, at: usize, into: &mut [u8]) -> Result<usize, FileFault>
        ensures count { IfOk result (λ n. n ≤ length into.new) }
        ensures bytes { is_honest self.new → IfOk result (λ n. ReadsPart (seen (disk self.old) name.now) at into.new n) }
        ensures same { disk self.new ≡ disk self.old }
        ensures honest { is_honest self.new → is_honest self.old }
        ensures cause { ReadAllCause (faults self.old) (faults self.new) result };

    /// Makes a file of zeros, in place of one that has this name.
    fn make(&mut self, name: &str, size: usize) -> Result<(), FileFault>
        ensures made { is_honest self.new → Makes (Make name.now size) (disk self.old) (disk self.new) result }
        ensures honest { is_honest self.new → is_honest self.old }
        ensures cause { ReadAllCause (faults self.old) (faults self.new) result };

    /// Adds zeros behind a file.
    fn grow(&mut self, name: &str, size: usize) -> Result<(), FileFault>
        requires there { is_honest self.old → FileHasRoom (seen (disk self.old)) name.now 0 0 }
        ensures made { is_honest self.new → Makes (Grow name.now size) (disk self.old) (disk self.new) result }
        ensures honest { is_honest self.new → is_honest self.old }
        ensures cause { ReadAllCause (faults self.old) (faults self.new) result };

    /// Writes over bytes that are there.
    fn write_at(&mut self, name: &str, at: usize, bytes: &[u8]) -> Result<(), FileFault>
        requires within { is_honest self.old → FileHasRoom (seen (disk self.old)) name.now at (length bytes.now) }
        ensures made { is_honest self.new → Makes (Write name.now at bytes.now) (disk self.old) (disk self.new) result }
        ensures honest { is_honest self.new → is_honest self.old }
        ensures cause { ReadAllCause (faults self.old) (faults self.new) result };

    /// Cuts a file to a length.
    fn cut(&mut self, name: &str, size: usize) -> Result<(), FileFault>
        requires within { is_honest self.old → FileHasRoom (seen (disk self.old)) name.now 0 size }
        ensures made { is_honest self.new → Makes (Truncate name.now size) (disk self.old) (disk self.new) result }
        ensures honest { is_honest self.new → is_honest self.old }
        ensures cause { ReadAllCause (faults self.old) (faults self.new) result };

    /// Gives a file another name, in place of one that has it.
    fn rename(&mut self, from: &str, to: &str) -> Result<(), FileFault>
        requires there { is_honest self.old → FileHasRoom (seen (disk self.old)) from.now 0 0 }
        ensures made { is_honest self.new → Makes (Rename from.now to.now) (disk self.old) (disk self.new) result }
        ensures honest { is_honest self.new → is_honest self.old }
        ensures cause { ReadAllCause (faults self.old) (faults self.new) result };

    fn remove(&mut self, name: &str) -> Result<(), FileFault>
        requires there { is_honest self.old → FileHasRoom (seen (disk self.old)) name.now 0 0 }
        ensures made { is_honest self.new → Makes (Remove name.now) (disk self.old) (disk self.new) result }
        ensures honest { is_honest self.new → is_honest self.old }
        ensures cause { ReadAllCause (faults self.old) (faults self.new) result };

    /// Puts a file's bytes on the disk.
    fn sync(&mut self, name: &str) -> Result<(), FileFault>
        ensures made { is_honest self.new → Makes (Sync name.now) (disk self.old) (disk self.new) result }
        ensures honest { is_honest self.new → is_honest self.old }
        ensures cause { ReadAllCause (faults self.old) (faults self.new) result };

    /// Puts the names on the disk.
    fn sync_folder(&mut self) -> Result<(), FileFault>
        ensures made { is_honest self.new → Makes SyncFolder (disk self.old) (disk self.new) result }
        ensures honest { is_honest self.new → is_honest self.old }
        ensures cause { ReadAllCause (faults self.old) (faults self.new) result };
}
