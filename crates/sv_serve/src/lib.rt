//! A server by itself: the sessions of a scenario, served to whoever connects.
#![tactic(auto)]

mod accepting;
mod hosting;
mod taking;
mod texts;
mod top;
mod words;

pub use hosting::serve_scenario;
pub use top::run_serve;
