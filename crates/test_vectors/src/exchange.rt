//! Tests of frames and of exchanges, by their public calls alone.

mod ends;
mod frames;
mod great;
mod outbox;
mod tests;
