//! What the top calls of the program share: how a call ends and how that is told, the scenario of a file, and the numbers among the words.
#![tactic(auto)]

mod ending;
mod lines;
mod numbers;
mod reading;
mod stage;

pub use ending::{Ending, status_of, tell};
pub use lines::{append_lines, tell_file, tell_line, tell_number, tell_numbers};
pub use numbers::number_in;
pub use reading::{given_scenario, line_of_fault, scenario_bytes, scenario_in};
pub use stage::PlayStage;
