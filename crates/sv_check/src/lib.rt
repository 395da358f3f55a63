//! The checker: whether a text is the report of a consistent run of a scenario, or what `serve` prints of a legal journal.
#![tactic(auto)]

mod actor;
mod bare;
mod checking;
mod clients;
mod journal;
mod laws;
mod moves;
mod runs;
mod settled;
mod verdict;

pub use checking::check;
pub use laws::{
    first_wrong_lines_are_equal, journals_are_told, reports_are_told, served_journals_are_right,
};
pub use verdict::Verdict;
