//! Tests of what stands between the crates and the system: files and writers that move little, refuse or are interrupted, and threads that
//! sleep at a lock.

mod adapters;
mod sleepers;
mod system;
