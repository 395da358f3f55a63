//! The text that tells a client's play.
ghost use Rattle.std.specs.Prelude.{◌≡◌, string_bytes, IfOk};
ghost use Rattle.sv_script.specs.Telling.{told_lines};
ghost use Rattle.sv_join.specs.Texts.{join_text};

use crate::outcome::Joined;
use std::alloc::{AllocError, Global};
use sv_ending::append_lines;
use sv_report::made_by;

/// A line for each change of the client's views, and then how many actions it made.
pub(crate) fn join_text(alloc: Global, joined: &Joined) -> Result<String, AllocError>
    requires { joined.now.lines.items ≡ told_lines joined.now.trace }
    ensures { IfOk result (λ text. string_bytes text ≡ join_text joined.now.trace) }
{
    let made = made_by(&joined.trace);
    let last = format!(in alloc; "made {made}\n")?;
    let mut text = String::new(alloc);
    append_lines(&joined.lines, &mut text)?;
    text.push_str(last.as_str())?;
    Ok(text)
}
