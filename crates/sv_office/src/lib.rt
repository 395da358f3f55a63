//! What answers one connection of a living world: the kept world, who may join, and an honest client within the server as its steward.
#![tactic(auto)]

mod ages;
mod entering;
mod guest;
mod halt;
mod hearing;
mod holding;
mod laws;
mod office;
mod outside;
mod reporting;
mod stepping;
mod steward;
mod waiting;

pub use ages::Ages;
pub use entering::end_session;
pub use guest::{Guest, Held, Standing};
pub use halt::Halt;
pub use hearing::{FULL, Half};
pub use laws::{all_stay_served, new_worlds_are_serial, others_stay_served};
pub use office::{Office, Policy};
pub use outside::Outside;
pub use stepping::STEWARD_NUMBER;
pub use steward::Steward;
pub use waiting::HeldObserve;
