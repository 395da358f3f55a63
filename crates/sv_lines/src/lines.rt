//! The lines of a text.
ghost use Rattle.std.specs.Prelude.{◌≡◌, ◌≢◌, ◌<◌, ◌≤◌, ◌^◌, ◌%◌, ◌++◌, List, ℕ, length, IfOk, IfErr};
ghost use Rattle.sv_lines.specs.declared.stop.LineStop.TheVariants.{Wrong};
ghost use Rattle.std.specs.List.{prefix_len};
ghost use Rattle.sv_lines.specs.Lines.{is_inner, line_width, line_ends, StopsAt};

use crate::numbers::behind;
use crate::stop::LineStop;

/// What comes after a line that has to come next.
pub fn take_line<'a>(text: &'a [u8], line: &[u8]) -> Result<&'a [u8], LineStop>
    ensures taken { IfOk result (λ rest. text.now ≡ line.now ++ rest.now) }
    ensures wrong { IfErr result (λ e. e ≡ Wrong (length text.now)) }
    ensures differs { IfErr result (λ _. (rest : List ℕ) → text.now ≢ line.now ++ rest) }
{
    match behind(text, line) {
        Some(rest) => Ok(rest),
        None => Err(LineStop::Wrong { left: text.len() }),
    }
}

/// How many bytes the first line has before its line end.
fn inner_width(text: &[u8]) -> usize
    ensures { result ≡ prefix_len is_inner text.now }
{
    text.iter().take_while(|byte| **byte != b'\n').count()
}

/// How many bytes the first line has, with its line end.
#[tactic(auto, using(crate::proofs::Counting::inner_within))]
pub fn line_length(text: &[u8]) -> usize
    ensures width { result ≡ line_width text.now }
    ensures within { result ≤ length text.now }
    ensures some { 0 < length text.now → 0 < result }
{
    let count = inner_width(text);
    if count < text.len() { count + 1 } else { count }
}

/// What comes after lines that have to come next.
pub fn take_lines<'a>(text: &'a [u8], lines: &[u8]) -> Result<&'a [u8], LineStop>
    ensures taken { IfOk result (λ rest. text.now ≡ lines.now ++ rest.now) }
    ensures stops { IfErr result (λ e. StopsAt text.now lines.now e) }
{
    let mut rest = text;
    let mut left = lines;
    while !left.is_empty() {
        let (line, more) = left.split_at(line_length(left));
        rest = take_line(rest, line)?;
        left = more;
    }
    Ok(rest)
}

/// How many line ends a text has, in 32 bits.
pub fn line_ends(text: &[u8]) -> u32
    ensures { result ≡ line_ends text.now % 2 ^ 32 }
{
    let mut count = 0u32;
    for byte in text {
        if *byte == b'\n' {
            count = count.wrapping_add(1);
        }
    }
    count
}
