//! Frames on a stream of bytes: each is a payload's length, a `u32` with the highest byte first, and then the payload.
//!
//! A stream is read by a [`FrameReader`], in whatever pieces it comes, and written by [`put_frame`].
#![tactic(auto)]

pub mod laws;
mod limits;
mod reader;
mod writing;

pub use limits::{GREATEST_FRAME, GREATEST_PAYLOAD, PREFIX};
pub use reader::{FrameReader, NextFrame};
pub use writing::put_frame;
