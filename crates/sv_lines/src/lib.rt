//! The lines of a report: taking them from a text, reading the requests that those of a journal tell, and equal requests.
//!
//! A reader answers what its definition on lists gives (`specs/Reading.antt`, `specs/Asking.antt`), unless memory runs out. The definitions
//! read each thing from its printed text (`proofs/ReadLists.antt`, `proofs/ReadRequests.antt`). They may take more than is ever printed.
//! The lines of a journal's entries are taken entry by entry (`proofs/EntryLines.antt`).
#![tactic(auto)]

mod laws;
mod lines;
mod lists;
mod numbers;
mod request;
mod same;
mod stop;

pub use laws::requests_are_told;
pub use lines::{line_ends, line_length, take_line, take_lines};
pub use lists::{next_at, object_at, objects_at, value_at, values_at};
pub use numbers::{behind, expect, number_at, numeral_at, small_at};
pub use request::{Asked, action_at, asked_at, plain_width, request_at};
pub use same::same_request;
pub use stop::{LineFault, LineStop};
