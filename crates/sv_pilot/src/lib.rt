//! A client over one connection that game code drives: it joins, acts, looks and leaves. A listener is called for each change of what it
//! sees.
#![tactic(auto)]

mod audience;
mod connection;
mod pilot;
mod shapes;
mod trouble;

pub use audience::Listener;
pub use pilot::Pilot;
pub use trouble::Trouble;
