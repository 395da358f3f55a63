//! The keys of a text.
ghost use Rattle.std.specs.Prelude.{IfOk, IfErr};
ghost use Rattle.sv_keys.specs.Keeping.{WhyWrong};
ghost use Rattle.sv_keys.specs.KeyLines.{AreKeys};

use crate::fault::KeysFault;
use crate::line::{KeyRow, Line, cut, line_of};
use std::alloc::Global;

/// The keys of a text, or the first line that is wrong.
pub(crate) fn rows_of(alloc: Global, bytes: &[u8]) -> Result<Vec<KeyRow>, KeysFault>
    ensures ok { IfOk result (λ rows. AreKeys bytes.now rows.items) }
    ensures wrong { IfErr result (WhyWrong bytes.now) }
{
    let mut rows = Vec::new(alloc);
    let mut number: u64 = 0;
    let mut rest = bytes;
    while !rest.is_empty() {
        let (line, more) = cut(rest, b'\n');
        number += 1;
        match line_of(line) {
            Line::Blank => {}
            Line::Key(row) => rows.push(row)?,
            Line::Wrong => return Err(KeysFault::Line(number)),
        }
        rest = more;
    }
    Ok(rows)
}
