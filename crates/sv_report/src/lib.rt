//! The report of a run: its journal, what each client did, and the committed world; and its brief summary.
#![tactic(auto)]

mod again;
mod counts;
mod event;
mod kept;
mod laws;
mod next;
mod rows;
mod shown;
mod summary;
mod totals;
mod trace;
mod values;
mod whole;

pub use again::do_again;
pub use counts::made_by;
pub use event::{append_after, append_before};
pub use laws::drops_are_outcomes;
pub use summary::brief;
pub use values::append_world;
pub use whole::report;
