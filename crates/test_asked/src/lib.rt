//! What the tests of servers share: worlds of objects of one number each, a lock for one pass, and the lines of journals, with what they ask.
#![tactic(auto)]

mod lines;
mod locks;
mod worlds;

pub use lines::{asked_in, check_lines, printed};
pub use locks::locked;
pub use sv_lines::Asked;
pub use worlds::{values_of, world_of};
