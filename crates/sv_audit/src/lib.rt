//! The checker of reports as a call of the program: whether a report is right, why an object has its value, and the world at its end.
#![tactic(auto)]

mod ending;
mod judging;
mod reading;
mod texts;
mod top;
mod words;

pub use top::run_check;
