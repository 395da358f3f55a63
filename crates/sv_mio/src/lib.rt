//! Connections over TCP, by the system's own readiness, and the system's clock.
#![tactic(auto)]

mod clock;
mod ports;

pub use clock::OsClock;
pub use ports::MioPorts;
