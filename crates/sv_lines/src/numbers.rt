//! The numbers of a report's lines.
ghost use Rattle.std.specs.Prelude.{◌≡◌, ◌≢◌, ◌^◌, ◌++◌, List, ℕ, Some, None, MatchOption, IfOk, FitsSigned};
ghost use Rattle.std.specs.Int.{w64};
ghost use Rattle.std.specs.List.{prefix_len};
ghost use Rattle.sv_lines.specs.Reading.{seen, is_numeric, numeral, behind_numeral, number_read, signed_read, behind_front};

use crate::stop::LineFault;

/// How many of the first bytes are digits, or a minus.
fn width(text: &[u8]) -> usize
    ensures { result ≡ prefix_len is_numeric text.now }
{
    text.iter()
        .take_while(|byte| byte.is_ascii_digit() || **byte == b'-')
        .count()
}

/// The first bytes that are digits or a minus, and what comes after them.
pub fn numeral_at(text: &[u8]) -> (&str, &[u8])
    ensures numeral { result.0.now ≡ numeral text.now }
    ensures rest { result.1.now ≡ behind_numeral text.now }
{
    let (digits, rest) = text.split_at(width(text));
    match str::from_utf8(digits) {
        Ok(digits) => (digits, rest),
        Err(_) => ("", rest),
    }
}

/// What comes after these bytes, where the text begins with them.
pub fn behind<'a>(text: &'a [u8], front: &[u8]) -> Option<&'a [u8]>
    ensures read { MatchOption result (behind_front front.now text.now ≡ None) (λ rest. behind_front front.now text.now ≡ Some rest.now) }
    ensures told { MatchOption result ((rest : List ℕ) → text.now ≢ front.now ++ rest) (λ rest. text.now ≡ front.now ++ rest.now) }
{
    text.strip_prefix(front)
}

/// What comes after these bytes, with which the text has to begin.
pub fn expect<'a>(text: &'a [u8], front: &[u8]) -> Result<&'a [u8], LineFault>
    ensures { seen (λ rest. rest.now) result ≡ behind_front front.now text.now }
{
    match behind(text, front) {
        Some(rest) => Ok(rest),
        None => Err(LineFault::Wrong),
    }
}

/// The number of 32 bits that the text begins with, and what comes after it.
#[tactic(auto, unfolding(crate::specs::Reading::number_read))]
pub fn number_at(text: &[u8]) -> Result<(u32, &[u8]), LineFault>
    ensures { seen (λ x. (x.0, x.1.now)) result ≡ number_read (2 ^ 32) text.now }
{
    let (digits, rest) = numeral_at(text);
    match digits.parse::<u32>() {
        Ok(number) => Ok((number, rest)),
        Err(_) => Err(LineFault::Wrong),
    }
}

/// The number of 16 bits that the text begins with, and what comes after it.
#[tactic(auto, unfolding(crate::specs::Reading::number_read))]
pub fn small_at(text: &[u8]) -> Result<(u16, &[u8]), LineFault>
    ensures { seen (λ x. (x.0, x.1.now)) result ≡ number_read (2 ^ 16) text.now }
{
    let (digits, rest) = numeral_at(text);
    match digits.parse::<u16>() {
        Ok(number) => Ok((number, rest)),
        Err(_) => Err(LineFault::Wrong),
    }
}

/// The number of 64 bits, with a minus or not, that the text begins with, and what comes after it.
#[tactic(auto, unfolding(crate::specs::Reading::signed_read))]
pub fn signed_at(text: &[u8]) -> Result<(i64, &[u8]), LineFault>
    ensures read { seen (λ x. (x.0, x.1.now)) result ≡ signed_read text.now }
    ensures long { IfOk result (λ x. FitsSigned w64 x.0) }
{
    let (digits, rest) = numeral_at(text);
    match digits.parse::<i64>() {
        Ok(number) => Ok((number, rest)),
        Err(_) => Err(LineFault::Wrong),
    }
}
