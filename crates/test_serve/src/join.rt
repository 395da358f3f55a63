//! Tests of a client that joins a server over doors in memory.

mod calls;
mod faults;
mod frames;
mod replies;
