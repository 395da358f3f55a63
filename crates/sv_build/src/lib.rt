//! Bodies of actions, written in Rust as in the language of actions.
#![tactic(auto)]

mod block;
mod example;
mod formula;

pub use block::{Block, BuildError, Choice, Setting, body_of, set, when};
pub use formula::{Condition, Formula, Got, Negated, Pair, Term, get, number};
