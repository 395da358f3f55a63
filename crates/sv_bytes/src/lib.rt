//! Files that are read and sinks that are written, as traits with exact contracts: what a call
//! moves, when it fails, and that a failure is counted.
#![tactic(auto)]

mod again;
mod faults;
mod memory;
mod plan;
mod reading;
mod stored;
mod system;
mod writing;

pub use again::{read_again, write_again};
pub use faults::FaultCount;
pub use memory::{MemFiles, MemSink};
pub use plan::CallPlan;
pub use reading::{Begun, FileFault, Files, Read, read_all};
pub use system::{OsFiles, OsSink};
pub use writing::{Sink, Wrote, write_all, write_pieces};
