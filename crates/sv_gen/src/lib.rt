//! Scenarios of any wanted load.
#![tactic(auto)]

mod acts;
mod scripts;
mod whole;

pub use whole::{MOST_LOAD, generate};
