//! A client of the server: one that keeps only what it still needs, and one that has its trace too, what it did and the replies that it got, in order.
#![tactic(auto)]

mod applying;
mod asking;
mod checks;
mod client;
mod commits;
mod deed;
mod evaluating;
mod fault;
mod kinds;
mod lean;
mod limits;
mod past;
mod raising;
mod same;
mod taken;
mod trace;
mod view;

pub use client::Client;
pub use fault::{MakeFault, ObserveFault, PollFault, TakeFault};
pub use lean::LeanClient;
pub use limits::{MOST_MADE, MOST_NUMBERS};
pub use same::{are_same_values, same_action, same_actions_are_equal, same_values_are_equal};
pub use trace::{Event, Trace, TraceMark, is_make};
pub use view::View;
