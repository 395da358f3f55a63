//! The states of a log, which have the sum of their bytes.
ghost use Rattle.std.specs.Prelude.{◌≡◌, ◌↔◌, Some, IfOk, IsTrue, string_bytes};
ghost use Rattle.sv_log.specs.Chains.{IsWholeState, sum_line};

use sha2::{Digest, Sha256};
use std::alloc::{AllocError, Global};

/// How many bytes the last line of a state has: `sum `, 64 digits, and the end of the line.
const SUM_LINE: usize = 69;

/// The last line of a state that has these bytes before it.
pub fn sum_line(alloc: Global, bytes: &[u8]) -> Result<String, AllocError>
    ensures { IfOk result (λ line. string_bytes line ≡ sum_line bytes.now) }
{
    let digest = hex::encode(alloc, Sha256::digest(bytes))?;
    format!(in alloc; "sum {digest}\n")
}

/// Whether these are the bytes of a state whose sum is right.
pub fn is_whole(alloc: Global, bytes: &[u8]) -> Result<bool, AllocError>
    ensures { IfOk result (λ b. IsTrue b ↔ IsWholeState (Some bytes.now)) }
{
    if bytes.len() < SUM_LINE {
        return Ok(false);
    }
    let (before, last) = bytes.split_at(bytes.len() - SUM_LINE);
    let line = sum_line(alloc, before)?;
    Ok(last == line.as_bytes())
}
