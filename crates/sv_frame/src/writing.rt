//! Writing frames.
ghost use Rattle.std.specs.Prelude.{◌≡◌, ◌+◌, ◌++◌, ◌≤◌, length, if◌then◌else◌, is_ok, IsOk};
ghost use Rattle.std.specs.Vec.{vec_len, vec_capacity};
ghost use Rattle.sv_frame.specs.Frames.{frame, FitsFrame};

use crate::limits::PREFIX;
use byteorder::{BigEndian, ByteOrder};
use std::alloc::AllocError;

/// Appends the frame of a payload. Without memory `out` stays as it was.
pub fn put_frame(payload: &[u8], out: &mut Vec<u8>) -> Result<(), AllocError>
    requires { FitsFrame payload.now }
    ensures items { out.new.items ≡ (if is_ok result then out.old.items ++ frame payload.now else out.old.items) }
    // Where there is room for the frame, it takes no memory.
    ensures room { vec_len out.old + (4 + length payload.now) ≤ vec_capacity out.old → IsOk result }
    ensures capacity { vec_capacity out.old ≤ vec_capacity out.new }
{
    let mut prefix = [0; PREFIX];
    BigEndian::write_u32(&mut prefix, payload.len() as u32);

    // With the room reserved first, a frame is never appended in part.
    out.reserve(PREFIX + payload.len())?;
    out.extend_from_slice(&prefix)?;
    out.extend_from_slice(payload)?;
    Ok(())
}
