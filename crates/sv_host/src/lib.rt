//! The server of a living world: one loop over all connections, a kept world behind it, and an honest client within it as its steward.
#![tactic(auto)]

mod boxed;
mod ending;
mod hall;
mod hearing;
mod holding;
mod host;
mod input;
mod laws;
mod leaving;
mod opening;
mod options;
mod room;
mod sending;
mod serving;
mod telling;
mod times;
mod top;
mod turn;

pub use ending::HostEnd;
pub use hall::{DoorFault, Doors, FolderFault, Folders};
pub use laws::worlds_begin_serial;
pub use options::{Options, options_of};
pub use top::{HostParts, run_host};
