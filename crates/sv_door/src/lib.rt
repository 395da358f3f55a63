//! Doors: how a server and its clients, as two programs, come by the ends of their connections.
#![tactic(auto)]

mod doors;
mod hall;
mod pipe_door;
mod returned;
mod tcp_door;

pub use doors::{Door, EndMade};
pub use pipe_door::PipeDoor;
pub use tcp_door::TcpDoor;
