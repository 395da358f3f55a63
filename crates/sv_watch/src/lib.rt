//! Callbacks that tell changes of views, one line for each change.
#![tactic(auto)]

mod change;
mod line;
mod watch;

pub use change::{Change, Line};
pub use line::told_line;
pub use watch::{Callback, Watch};
