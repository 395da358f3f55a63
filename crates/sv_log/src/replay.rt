//! The files that calls leave, computed from the calls.
ghost use Rattle.std.specs.Prelude.{◌≡◌, ℕ, ◌+◌, ◌-◌, ◌≤◌, ◌++◌, take, drop, length, IfOk, Option, Some, None, option_map};
ghost use Rattle.sv_bytes.specs.Stored.{contents_of};
ghost use Rattle.sv_log.specs.Pictures.{Picture, after, seen_after, over, zeros};
ghost use Rattle.sv_log.specs.Memory.{call_of, latest_first, earlier_name, bytes_in};

use super::calls::{AskedCall, KeptCall};
use std::alloc::{AllocError, Global};
use std::marker::Model;

/// A name and the bytes of its file.
#[derive(Drop)]
pub(crate) struct Stored {
    pub(crate) name: String,
    pub(crate) bytes: Vec<u8>,
}

impl Model for Stored {
    ghost use Rattle.std.specs.Prelude.{ℕ, List};
    ghost use Rattle.std.specs.String.{string_bytes};

    ghost Value = { List ℕ × List ℕ };

    ghost view = { λ s. (string_bytes s.name, s.bytes.items) };
}

impl Stored {
    pub(crate) fn name(&self) -> &str
        ensures { result.now ≡ self.now.0 }
    {
        self.name.as_str()
    }

    pub(crate) fn bytes(&self) -> &[u8]
        ensures { result.now ≡ self.now.1 }
    {
        self.bytes.as_slice()
    }
}

// The bytes of the first file of this name.
pub(crate) fn find(
    alloc: Global,
    stored: &[Stored],
    name: &str,
) -> Result<Option<Vec<u8>>, AllocError>
    ensures { IfOk result (λ file. bytes_in file ≡ contents_of stored.now name.now) }
{
    for file in stored {
        if file.name() == name {
            let bytes = Vec::from_slice(alloc, file.bytes())?;
            return Ok(Some(bytes));
        }
    }
    Ok(None)
}

// The name that a file had before the call.
pub(crate) fn name_before<'a>(call: &'a AskedCall, name: &'a str) -> &'a str
    ensures { result.now ≡ earlier_name (call_of call.now) name.now }
{
    match call {
        AskedCall::Rename(from, to) if name == to.as_str() => from.as_str(),
        _ => name,
    }
}

// Zeros behind bytes.
pub(crate) fn grown(bytes: &mut Vec<u8>, size: usize) -> Result<(), AllocError>
    ensures { IfOk result (λ _. bytes.new.items ≡ bytes.old.items ++ zeros size) }
{
    for _ in 0..size {
        bytes.push(0)?;
    }
    Ok(())
}

// Bytes with others in their place.
fn written(alloc: Global, old: &[u8], at: usize, bytes: &[u8]) -> Result<Vec<u8>, AllocError>
    ensures { IfOk result (λ v. v.items ≡ over at bytes.now old.now) }
{
    let mut new = Vec::from_slice(alloc, &old[..at.min(old.len())])?;
    new.extend_from_slice(bytes)?;
    let behind = at.saturating_add(bytes.len()).min(old.len());
    new.extend_from_slice(&old[behind..])?;
    Ok(new)
}

// What a file is after a change of it that was answered Ok, where `old` is what it was.
pub(crate) fn changed(
    alloc: Global,
    call: &AskedCall,
    name: &str,
    old: Option<Vec<u8>>,
) -> Result<Option<Vec<u8>>, AllocError>
    ensures { IfOk result (λ file. (p : Picture) → p (earlier_name (call_of call.now) name.now) ≡ bytes_in old
        → bytes_in file ≡ after (call_of call.now) p name.now) }
{
    match call {
        AskedCall::Make(of, size) if name == of.as_str() => {
            let mut bytes = Vec::new(alloc);
            grown(&mut bytes, *size)?;
            Ok(Some(bytes))
        }
        AskedCall::Grow(of, size) if name == of.as_str() => match old {
            Some(mut bytes) => {
                grown(&mut bytes, *size)?;
                Ok(Some(bytes))
            }
            None => Ok(None),
        },
        AskedCall::Write(of, at, bytes) if name == of.as_str() => match old {
            Some(old) => Ok(Some(written(alloc, &old, *at, bytes)?)),
            None => Ok(None),
        },
        AskedCall::Truncate(of, size) if name == of.as_str() => match old {
            Some(mut bytes) => {
                bytes.truncate(*size);
                Ok(Some(bytes))
            }
            None => Ok(None),
        },
        AskedCall::Rename(from, to) if name == from.as_str() && name != to.as_str() => Ok(None),
        AskedCall::Remove(of) if name == of.as_str() => Ok(None),
        _ => Ok(old),
    }
}

// What a file is after the first so many calls.
pub(crate) fn bytes_after(
    alloc: Global,
    start: &[Stored],
    calls: &[KeptCall],
    count: usize,
    name: &str,
) -> Result<Option<Vec<u8>>, AllocError>
    requires { count ≤ length calls.now }
    ensures { IfOk result (λ file. bytes_in file ≡ seen_after (contents_of start.now) (latest_first (take count calls.now)) name.now) }
{
    if count == 0 {
        return find(alloc, start, name);
    }
    let last = &calls[count - 1];
    if !last.done {
        return bytes_after(alloc, start, calls, count - 1, name);
    }
    let old = bytes_after(
        alloc,
        start,
        calls,
        count - 1,
        name_before(&last.call, name),
    )?;
    changed(alloc, &last.call, name, old)
}
