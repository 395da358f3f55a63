//! A folder of the system, as the log of a long-lived server sees it.
#![tactic(auto)]

mod calls;
mod folder;
#[cfg(test)]
mod tests;

pub use calls::SyncMode;
pub use folder::{DiskFault, DiskFolder};
