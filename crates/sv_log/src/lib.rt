//! The log of a long-lived server: files in one folder that outlive the process.
#![tactic(auto)]

mod appending;
mod calls;
mod closing;
mod crash;
mod folder;
mod log;
mod memory;
mod mending;
mod names;
mod onward;
mod opening;
mod reading;
mod recovering;
mod replay;
mod segment;
mod starting;
mod states;
mod stating;
mod walking;
mod whole;

pub use closing::cut_synced;
pub use crash::Loss;
pub use folder::Folder;
pub use log::{Log, line_count};
pub use memory::MemFolder;
pub use mending::{clear_behind, rest_of, text_length};
pub use names::{FileKind, NameKind, WORLD, kind_of, rest_name, segment_name, state_name};
pub use reading::{Cause, LogRefusal, Reading, read_log};
pub use recovering::open_log;
pub use segment::Segment;
pub use starting::{make_synced, read_file};
pub use states::{is_whole, sum_line};
pub use whole::put_whole;
