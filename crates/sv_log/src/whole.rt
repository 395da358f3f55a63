//! Files that are there whole or not at all.
ghost use Rattle.std.specs.Prelude.{◌≡◌, Some, OnOk};
ghost use Rattle.sv_bytes.specs.Faults.{ReadAllCause};
ghost use Rattle.sv_log.specs.Pictures.{seen, put};
ghost use Rattle.sv_log.specs.Crashes.{LeavesOnly, SameBut};
ghost use Rattle.sv_log.specs.Rests.{IsAtRest, IsPut};

use super::folder::Folder;
use sv_bytes::FileFault;

/// Puts a file into a folder: it is written under the name `new`, synced, renamed, and the folder synced.
///
/// A file that had the name is replaced.
pub fn put_whole<F: Folder>(
    folder: &mut F,
    new: &str,
    name: &str,
    bytes: &[u8],
) -> Result<(), FileFault>
    requires rest { F.is_honest folder.old → IsAtRest (F.disk folder.old) }
    ensures rest { F.is_honest folder.new → OnOk result (IsAtRest (F.disk folder.new)
        × SameBut new.now (seen (F.disk folder.new)) (put name.now (Some bytes.now) (seen (F.disk folder.old)))) }
    ensures any_moment { F.is_honest folder.new
        → LeavesOnly (F.disk folder.old) (F.disk folder.new) (IsPut new.now name.now bytes.now (seen (F.disk folder.old))) }
    ensures honest { F.is_honest folder.new → F.is_honest folder.old }
    ensures cause { ReadAllCause (F.faults folder.old) (F.faults folder.new) result }
{
    folder.make(new, bytes.len())?;
    folder.write_at(new, 0, bytes)?;
    folder.sync(new)?;
    folder.rename(new, name)?;
    folder.sync_folder()
}
