//! The names of the files of a log.
ghost use Rattle.std.specs.Prelude.{◌≡◌, ◌≢◌, ℕ, ◌+◌, ◌-◌, ◌*◌, ◌^◌, ◌<◌, ◌≤◌, ◌++◌, length, codes, IfOk, MatchOption, string_bytes};
ghost use Rattle.sv_log.specs.Texts.{IsFront};
ghost use Rattle.sv_log.specs.Names.{digits, HasDigits, number_part, segment_name, state_name, rest_name, segment_kind, state_kind, IsNumber, IsWrongName, Tells};

use std::alloc::{AllocError, Global};

/// The file that has the world of the log.
pub const WORLD: &str = "world.json";

/// The name under which a file is written before it gets its own.
pub(crate) const NEW: &str = "new";

const SEGMENT: &str = "journal-";

const STATE: &str = "state-";

const ENDING: &str = ".txt";

/// How many digits a number in a name has.
const DIGITS: usize = 20;

/// The name of the segment whose first line has this number.
pub fn segment_name(alloc: Global, number: u64) -> Result<String, AllocError>
    ensures { IfOk result (λ name. string_bytes name ≡ segment_name number) }
{
    numbered(alloc, SEGMENT, number)
}

/// The name of the state after the line of this number.
pub fn state_name(alloc: Global, number: u64) -> Result<String, AllocError>
    ensures { IfOk result (λ name. string_bytes name ≡ state_name number) }
{
    numbered(alloc, STATE, number)
}

/// The name of the file for what stood behind the text, where the next line has this number.
pub fn rest_name(alloc: Global, number: u64) -> Result<String, AllocError>
    ensures { IfOk result (λ name. string_bytes name ≡ rest_name number) }
{
    numbered(alloc, "rest-", number)
}

#[tactic(auto, unfolding(crate::specs::Names::number_part))]
fn numbered(alloc: Global, kind: &str, number: u64) -> Result<String, AllocError>
    ensures { IfOk result (λ name. string_bytes name ≡ kind.now ++ number_part number) }
{
    let mut name = String::from_str(alloc, kind)?;
    put_digits(&mut name, DIGITS, number)?;
    name.push_str(ENDING)?;
    Ok(name)
}

// Writes the last so many digits of a number.
#[tactic(auto, unfolding(crate::specs::Names::digits))]
fn put_digits(name: &mut String, count: usize, number: u64) -> Result<(), AllocError>
    ensures { IfOk result (λ _. string_bytes name.new ≡ string_bytes name.old ++ digits count number) }
{
    if count == 0 {
        return Ok(());
    }
    put_digits(name, count - 1, number / 10)?;
    let digit = b'0' + (number % 10) as u8;
    name.push(digit as char)
}

/// The files of a log that have numbers.
#[derive(Clone, Copy, Debug, PartialEq, Eq)]
pub enum FileKind {
    Segment,
    State,
}

/// What a name is for a log.
#[derive(Clone, Copy, Debug, PartialEq, Eq)]
pub enum NameKind {
    Segment(u64),
    State(u64),
    /// It begins as a segment's or a state's name, and is none.
    Wrong,
    /// It is no file of the log's text.
    Other,
}

/// Reads a name.
pub fn kind_of(name: &str) -> NameKind
    ensures { Tells result name.now }
{
    if let Some(rest) = behind(name.as_bytes(), SEGMENT.as_bytes()) {
        return match number_of_name(rest) {
            Some(number) => NameKind::Segment(number),
            None => NameKind::Wrong,
        };
    }
    if let Some(rest) = behind(name.as_bytes(), STATE.as_bytes()) {
        return match number_of_name(rest) {
            Some(number) => NameKind::State(number),
            None => NameKind::Wrong,
        };
    }
    NameKind::Other
}

// What stands behind the kind of a name.
fn behind<'a>(name: &'a [u8], kind: &[u8]) -> Option<&'a [u8]>
    ensures { MatchOption result (IsFront kind.now name.now → ⊥) (λ rest. name.now ≡ kind.now ++ rest.now) }
{
    name.strip_prefix(kind)
}

// The number of a name, of which this is what stands behind its kind.
fn number_of_name(rest: &[u8]) -> Option<u64>
    ensures { MatchOption result ((n : ℕ) → IsNumber n → rest.now ≢ number_part n) (λ n. IsNumber n × (rest.now ≡ number_part n)) }
{
    if rest.len() != DIGITS + ENDING.len() {
        return None;
    }
    let (digits, ending) = rest.split_at(DIGITS);
    if ending != ENDING.as_bytes() {
        return None;
    }
    let Some(number) = digits_value(digits) else {
        return None;
    };
    counted(number)
}

// A number that a file may have.
fn counted(number: u64) -> Option<u64>
    ensures { MatchOption result (IsNumber number → ⊥) (λ n. (n ≡ number) × IsNumber n) }
{
    if number == 0 || number == u64::MAX {
        return None;
    }
    Some(number)
}

// The number that has these digits.
fn digits_value(bytes: &[u8]) -> Option<u64>
    ensures { MatchOption result ((n : ℕ) → n < 2 ^ 64 → bytes.now ≢ digits (length bytes.now) n) (λ n. HasDigits bytes.now n) }
{
    let Some((last, front)) = bytes.split_last() else {
        return Some(0);
    };
    let Some(value) = digits_value(front) else {
        return None;
    };
    number_with(value, *last)
}

// A number with one digit more.
fn number_with(value: u64, last: u8) -> Option<u64>
    ensures { MatchOption result ((d : ℕ) → d < 10 → last ≡ 48 + d → 2 ^ 64 ≤ value * 10 + d)
        (λ n. (48 ≤ last) × (last ≤ 57) × (n ≡ value * 10 + (last - 48))) }
{
    if last < b'0' || last > b'9' {
        return None;
    }
    let digit = (last - b'0') as u64;
    if value > (u64::MAX - digit) / 10 {
        return None;
    }
    Some(value * 10 + digit)
}
