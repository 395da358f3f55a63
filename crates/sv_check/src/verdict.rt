//! What a check says of a text.
use law_system::Played;

/// What a check says of a text.
#[derive(Debug, Drop)]
pub enum Verdict {
    /// It is the report of this journal and these traces, which are consistent. Or there are no traces, and it is what `serve` prints of this
    /// journal, which is legal.
    Yes(Played),
    /// It is neither. `line` is the first wrong line, from 1; the place after the last line counts as a line.
    No { line: u32 },
}
