//! What a crash leaves of a folder in memory.
ghost use Rattle.std.specs.Prelude.{◌≤◌, length};

use super::calls::{AskedCall, KeptCall};
use super::replay::{Stored, bytes_after, changed, find, name_before};
use std::alloc::{AllocError, Global};

/// What a crash loses of what was not synced.
///
/// Calls are counted from 1, and the bytes of a write from 0.
#[derive(Clone, Copy, Debug, PartialEq, Eq)]
pub enum Loss {
    Nothing,
    Everything,
    /// This byte of this call, and all that came behind it.
    From(usize, usize),
    /// This byte of this call alone.
    Only(usize, usize),
    /// Every second byte and every second call.
    EachSecond,
}

impl Loss {
    pub(crate) fn keeps(self, call: usize, byte: usize) -> bool {
        match self {
            Loss::Nothing => true,
            Loss::Everything => false,
            Loss::From(lost, from) => call < lost || (call == lost && byte < from),
            Loss::Only(lost, at) => call != lost || byte != at,
            Loss::EachSecond => call.wrapping_add(byte) % 2 == 0,
        }
    }
}

// Bytes with others in their place, but for those that are lost.
fn torn(
    alloc: Global,
    old: &[u8],
    at: usize,
    bytes: &[u8],
    call: usize,
    loss: Loss,
) -> Result<Vec<u8>, AllocError> {
    let mut new = Vec::from_slice(alloc, old)?;
    for (i, byte) in bytes.iter().enumerate() {
        if loss.keeps(call, i) {
            if let Some(place) = new.get_mut(at.saturating_add(i)) {
                *place = *byte;
            }
        }
    }
    Ok(new)
}

// What a crash leaves of a file, where these were the calls before it.
pub(crate) fn left_after(
    alloc: Global,
    start: &[Stored],
    calls: &[KeptCall],
    count: usize,
    loss: Loss,
    name: &str,
) -> Result<Option<Vec<u8>>, AllocError>
    requires { count ≤ length calls.now }
{
    if count == 0 {
        return find(alloc, start, name);
    }
    let last = &calls[count - 1];
    let kept = loss.keeps(count, 0);
    let earlier = if kept {
        name_before(&last.call, name)
    } else {
        name
    };
    let old = left_after(alloc, start, calls, count - 1, loss, earlier)?;
    match &last.call {
        AskedCall::Sync(of) if last.done && of.as_str() == name && old.is_some() => {
            bytes_after(alloc, start, calls, count, name)
        }
        AskedCall::SyncFolder if last.done => bytes_after(alloc, start, calls, count, name),
        AskedCall::Write(of, at, bytes) if of.as_str() == name => match old {
            Some(old) => Ok(Some(torn(alloc, &old, *at, bytes, count, loss)?)),
            None => Ok(None),
        },
        call if kept => changed(alloc, call, name, old),
        _ => Ok(old),
    }
}

// All names that a file had, some of them twice.
fn all_names(
    alloc: Global,
    start: &[Stored],
    calls: &[KeptCall],
) -> Result<Vec<String>, AllocError> {
    let mut names = Vec::new(alloc);
    for file in start {
        names.push(String::from_str(alloc, file.name())?)?;
    }
    for kept in calls {
        if let AskedCall::Make(name, _) | AskedCall::Rename(_, name) = &kept.call {
            names.push(String::from_str(alloc, name.as_str())?)?;
        }
    }
    Ok(names)
}

// The files that a crash leaves which comes after so many calls.
pub(crate) fn files_left(
    alloc: Global,
    start: &[Stored],
    calls: &[KeptCall],
    count: usize,
    loss: Loss,
) -> Result<Vec<Stored>, AllocError>
    requires { count ≤ length calls.now }
{
    let names = all_names(alloc, start, calls)?;
    let mut left = Vec::new(alloc);
    for name in &names {
        let file = left_after(alloc, start, calls, count, loss, name.as_str())?;
        if let Some(bytes) = file {
            let name = String::from_str(alloc, name.as_str())?;
            left.push(Stored { name, bytes })?;
        }
    }
    Ok(left)
}
