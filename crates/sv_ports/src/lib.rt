//! Connections that come and go, under numbers that are never used twice, and a clock: as traits, and as doubles in memory for tests.
#![tactic(auto)]

mod clock;
mod memory;
mod numbered;
mod pieces;
mod ports;
mod wires;

pub use clock::{Clock, MemClock};
pub use memory::{MemPorts, Step};
pub use numbered::{Numbered, NumberedPlace, PushFault};
pub use pieces::Pieces;
pub use ports::{Accepted, PortRead, PortWrote, Ports, Ready, Waited};
