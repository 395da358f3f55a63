//! What a session lacks of an action, and what an action's influence is.
#![tactic(auto)]

mod answers;
mod cuts;
mod influence;
mod lacking;
mod numbers;
mod objects;
mod plain;
mod wanted;

pub use answers::{Chain, Closure, ConsistentCut};
pub use cuts::cut;
pub use influence::chain;
pub use lacking::closure;
pub use plain::plain_closure;
