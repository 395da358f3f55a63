//! Lines are appended to a log, and synced.
ghost use Rattle.std.specs.Prelude.{◌≡◌, ◌++◌, ℕ, List, Some, OnOk};
ghost use Rattle.sv_bytes.specs.Faults.{ReadAllCause};
ghost use Rattle.sv_log.specs.Crashes.{LeavesOnly};
ghost use Rattle.sv_log.specs.Texts.{IsText};
ghost use Rattle.sv_log.specs.Logs.{HasSizes};
ghost use Rattle.sv_log.specs.Names.{world_name};
ghost use Rattle.sv_log.specs.Chains.{KeepsLog};
ghost use Rattle.sv_log.specs.OpenLogs.{IsOpenLog, shown, newest, log_text, log_synced};

use sv_bytes::FileFault;
use sv_log::{Folder, Log};

/// Appends lines with one write, and puts all that was appended on the disk.
pub(crate) fn put_group<F: Folder>(log: &mut Log<F>, text: &[u8]) -> Result<(), FileFault>
    requires sizes { HasSizes log.old.segment }
    requires open { F.is_honest log.old.segment.folder → IsOpenLog F.disk log.old }
    requires lines { IsText text.now }
    ensures sizes { HasSizes log.new.segment }
    ensures open { F.is_honest log.new.segment.folder → OnOk result (IsOpenLog F.disk log.new) }
    ensures text { F.is_honest log.new.segment.folder → OnOk result (log_text F.disk log.new ≡ log_text F.disk log.old ++ text.now) }
    ensures synced { F.is_honest log.new.segment.folder → OnOk result (log_synced F.disk log.new ≡ log_text F.disk log.new) }
    ensures any_moment { F.is_honest log.new.segment.folder → (world : List ℕ) → shown F.disk log.old world_name ≡ Some world
        → LeavesOnly (F.disk log.old.segment.folder) (F.disk log.new.segment.folder)
        (KeepsLog world (newest F.disk log.old) (log_synced F.disk log.old) (log_text F.disk log.old ++ text.now)) }
    ensures newest { F.is_honest log.new.segment.folder → OnOk result (newest F.disk log.new ≡ newest F.disk log.old) }
    ensures own { F.is_honest log.new.segment.folder → OnOk result (shown F.disk log.new world_name ≡ shown F.disk log.old world_name) }
    ensures honest { F.is_honest log.new.segment.folder → F.is_honest log.old.segment.folder }
    ensures cause { ReadAllCause (F.faults log.old.segment.folder) (F.faults log.new.segment.folder) result }
{
    log.append(text)?;
    log.sync()?;
    Ok(())
}
