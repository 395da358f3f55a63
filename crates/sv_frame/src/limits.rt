//! How long a frame may be.

/// The greatest length of a payload, in bytes.
pub const GREATEST_PAYLOAD: usize = 65_536;

/// The bytes of a frame's length.
pub const PREFIX: usize = 4;

/// The greatest length of a frame, in bytes.
pub const GREATEST_FRAME: usize = 65_540;
