//! The end of a segment.
ghost use Rattle.std.specs.Prelude.{◌≡◌, ℕ, ◌++◌, length, Some, OnOk};
ghost use Rattle.sv_bytes.specs.Faults.{ReadAllCause};
ghost use Rattle.sv_log.specs.Pictures.{seen, zeros};
ghost use Rattle.sv_log.specs.Crashes.{LeavesOnly, SameBut};
ghost use Rattle.sv_log.specs.Texts.{whole_in};
ghost use Rattle.sv_log.specs.Rests.{IsAtRest, Mends};

use super::folder::Folder;
use sv_bytes::FileFault;

/// Cuts a segment off behind its text, and syncs it with its length.
pub fn cut_synced<F: Folder>(folder: &mut F, name: &str, size: usize) -> Result<(), FileFault>
    requires rest { F.is_honest folder.old → IsAtRest (F.disk folder.old) }
    requires file { F.is_honest folder.old
        → (room : ℕ) × (seen (F.disk folder.old) name.now ≡ Some (whole_in (seen (F.disk folder.old) name.now) ++ zeros room)) }
    requires size { F.is_honest folder.old → size ≡ length (whole_in (seen (F.disk folder.old) name.now)) }
    ensures rest { F.is_honest folder.new → OnOk result (IsAtRest (F.disk folder.new)) }
    ensures file { F.is_honest folder.new → OnOk result (seen (F.disk folder.new) name.now ≡ Some (whole_in (seen (F.disk folder.old) name.now))) }
    ensures others { F.is_honest folder.new → OnOk result (SameBut name.now (seen (F.disk folder.new)) (seen (F.disk folder.old))) }
    ensures any_moment { F.is_honest folder.new → LeavesOnly (F.disk folder.old) (F.disk folder.new)
        (Mends (seen (F.disk folder.old)) name.now (whole_in (seen (F.disk folder.old) name.now))) }
    ensures honest { F.is_honest folder.new → F.is_honest folder.old }
    ensures cause { ReadAllCause (F.faults folder.old) (F.faults folder.new) result }
{
    folder.cut(name, size)?;
    folder.sync(name)?;
    Ok(())
}
