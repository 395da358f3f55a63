//! Tests of a session's loop, over ends in memory and over sockets.

mod frames;
mod opening;
mod tests;
mod threads;
