//! A client of a scenario, played against the server of another program.
#![tactic(auto)]

mod ending;
mod joining;
mod outcome;
mod steady;
mod texts;
mod top;
mod words;

pub use top::run_join;
