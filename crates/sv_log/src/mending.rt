//! What a crash left of a segment, and how it is mended.
ghost use Rattle.std.specs.Prelude.{◌≡◌, ◌-◌, ◌<◌, ◌≤◌, ◌≢◌, [], Some, Err, false, length, take, IfOk, OnOk, MatchOption};
ghost use Rattle.sv_bytes.specs.Faults.{ReadAllCause};
ghost use Rattle.sv_log.specs.Pictures.{seen, zeros};
ghost use Rattle.sv_log.specs.Crashes.{LeavesOnly, SameBut};
ghost use Rattle.sv_log.specs.Texts.{IsText, has_line, whole};
ghost use Rattle.sv_log.specs.Rests.{IsAtRest, Mends};
ghost use Rattle.sv_log.specs.Logs.{LogStands};

use super::folder::Folder;
use super::replay::grown;
use std::alloc::Global;
use sv_bytes::FileFault;

/// How many bytes the whole lines have that stand before the first zero byte.
pub fn text_length(bytes: &[u8]) -> usize
    ensures text { take result bytes.now ≡ whole bytes.now }
    ensures within { result ≤ length bytes.now }
{
    let mut end = 0;
    while let Some(count) = line_end(&bytes[end..]) {
        end += count;
    }
    end
}

// Where the first line ends, if it does before any zero byte.
fn line_end(bytes: &[u8]) -> Option<usize>
    ensures { MatchOption result (has_line bytes.now ≡ false) (λ n. (0 < n) × (n ≤ length bytes.now) × IsText (take n bytes.now)) }
{
    for i in 0..bytes.len() {
        let byte = bytes[i];
        if byte == 0 {
            return None;
        }
        if byte == 10 {
            return Some(i + 1);
        }
    }
    None
}

/// Makes zero what stands behind the text of a segment, and syncs it. It may crash too.
pub fn clear_behind<F: Folder>(
    alloc: Global,
    folder: &mut F,
    name: &str,
    bytes: &[u8],
    end: usize,
) -> Result<(), FileFault>
    requires rest { F.is_honest folder.old → IsAtRest (F.disk folder.old) }
    requires file { F.is_honest folder.old → seen (F.disk folder.old) name.now ≡ Some bytes.now }
    requires text { take end bytes.now ≡ whole bytes.now }
    requires within { end ≤ length bytes.now }
    ensures stands { F.is_honest folder.new → OnOk result (LogStands (F.disk folder.new) name.now (whole bytes.now) [] (length bytes.now - end)) }
    ensures rest { F.is_honest folder.new → OnOk result (IsAtRest (F.disk folder.new)) }
    ensures others { F.is_honest folder.new → OnOk result (SameBut name.now (seen (F.disk folder.new)) (seen (F.disk folder.old))) }
    ensures any_moment { F.is_honest folder.new
        → LeavesOnly (F.disk folder.old) (F.disk folder.new) (Mends (seen (F.disk folder.old)) name.now (whole bytes.now)) }
    ensures honest { F.is_honest folder.new → F.is_honest folder.old }
    ensures cause { ReadAllCause (F.faults folder.old) (F.faults folder.new) result }
{
    let zeros = zeros_of(alloc, bytes.len() - end)?;
    folder.write_at(name, end, zeros.as_slice())?;
    folder.sync(name)
}

fn zeros_of(alloc: Global, size: usize) -> Result<Vec<u8>, FileFault>
    ensures zeros { IfOk result (λ v. v.items ≡ zeros size) }
    ensures memory { result ≢ Err FileFault.Failed }
{
    let mut bytes = Vec::new(alloc);
    if grown(&mut bytes, size).is_err() {
        return Err(FileFault::Memory);
    }
    Ok(bytes)
}

/// The bytes from the first zero byte to the last byte that is not zero.
pub fn rest_of(bytes: &[u8]) -> &[u8] {
    let mut first = bytes.len();
    let mut end = 0;
    for i in 0..bytes.len() {
        if bytes[i] != 0 {
            end = i + 1;
        } else if i < first {
            first = i;
        }
    }
    if first < end { &bytes[first..end] } else { &[] }
}
