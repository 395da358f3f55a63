//! The top call of `play`, `replay` and `load`.
#![tactic(auto)]

mod playing;
mod texts;
mod top;
mod words;

pub use top::run;
