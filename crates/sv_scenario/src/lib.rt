//! Scenario files: the opening world, the limits and the scripts of a run, read from JSON.
#![tactic(auto)]

mod clients;
mod fault;
mod keys;
mod laws;
mod line;
mod numbers;
mod objects;
mod place;
mod read;
mod scenario;
mod sessions;
mod steps;
mod turns;

pub use fault::{ReadFault, ScenarioCause, ScenarioFault};
pub use keys::{keys_of, needed};
pub use laws::scenarios_keep_the_limits;
pub use line::append_fault_line;
pub use numbers::{each_value, list_within, number_within};
pub use objects::next_object;
pub use place::{at_key, at_place, refuse};
pub use read::{MOST_SCENARIO_BYTES, number_of_key, reach_in, read_scenario, value_in, world_of};
pub use scenario::{Plan, Scenario, Step, Turn};
pub use sessions::{sessions_of, sessions_of_plan};
