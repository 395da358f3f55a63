//! Frames of replies that the tests of several crates expect, typed from the format of messages; and bytes in pieces.
use std::alloc::{AllocError, Global};

/// A Welcome with commit 0, and no value.
pub const BARE_WELCOME: &[u8] = &[0, 0, 0, 7, 0x81, 0, 0, 0, 0, 0, 0];

pub const BYE: &[u8] = &[0, 0, 0, 1, 0x88];

/// The pieces as one.
pub fn joined(alloc: Global, pieces: &[&[u8]]) -> Result<Vec<u8>, AllocError> {
    let mut bytes = Vec::new(alloc);
    for piece in pieces {
        bytes.extend_from_slice(piece)?;
    }
    Ok(bytes)
}
