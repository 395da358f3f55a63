//! Lists, boxes and texts, as contracts see them: by what they hold.
#![tactic(auto)]

mod boxed;
mod list;
mod text;

pub use boxed::Boxed;
pub use list::List;
pub use text::Text;
