//! What actions do to the values that they read.
#![tactic(auto)]

mod effect;
mod evaluation;
mod run;
mod serial;
mod written;

pub use effect::Effect;
pub use evaluation::eval;
pub use serial::serial_worlds_keep_their_shape;
pub use written::written_objects;
