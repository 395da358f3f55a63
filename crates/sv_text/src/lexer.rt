//! From bytes to tokens.

ghost use Rattle.std.specs.Prelude.{◌≡◌, ◌+◌, ◌-◌, ◌*◌, ◌^◌, ◌<◌, ◌≤◌, cond, min, false, length, drop, slice_index};
ghost use Rattle.std.specs.List.{prefix_len, take_while};
ghost use Rattle.std.specs.Char.{is_ascii_digit, is_ascii_lowercase};
ghost use Rattle.sv_text.specs.Tokens.{is_blank, digits_at, value_of, has_leading_zero, number_of, is_text, word_of, sign_of, sign_at, positive, negative, small_ref, ref_of, ref_at, word_at, positive_at, negative_at, token_at, is_word, is_joint, tokens_from};
ghost use Rattle.sv_text.specs.Ahead.{nothing_ahead, held, IsAhead};
ghost use Rattle.sv_text.specs.declared.token.Mark.TheVariants.{Other};

use crate::TextCause;
use crate::token::{Ahead, Left, Lexeme, Mark, Token};

/// The byte at a place, and 0 past the end.
fn byte_at(bytes: &[u8], at: usize) -> u8
    ensures { result ≡ slice_index bytes.now at }
{
    if at < bytes.len() { bytes[at] } else { 0 }
}

fn is_blank(byte: u8) -> bool
    ensures { result ≡ is_blank byte }
{
    // One test for most bytes that are none.
    byte <= b' ' && matches!(byte, b' ' | b'\t' | b'\r' | b'\n')
}

fn letter_count(bytes: &[u8]) -> usize
    ensures { result ≡ prefix_len is_ascii_lowercase bytes.now }
{
    bytes.iter().take_while(|b| b.is_ascii_lowercase()).count()
}

/// The letters that the bytes begin with.
fn letters(bytes: &[u8]) -> &[u8]
    ensures { result.now ≡ take_while is_ascii_lowercase bytes.now }
{
    &bytes[..letter_count(bytes)]
}

fn is_digit_at(bytes: &[u8], at: usize) -> bool
    ensures { result ≡ is_ascii_digit (slice_index bytes.now at) }
{
    byte_at(bytes, at).is_ascii_digit()
}

/// The number with one more digit behind it, or the greatest u64 where that is less.
fn with_digit(number: u64, digit: u8) -> u64
    ensures { result ≡ min (10 * number + (digit - 48)) 18446744073709551615 }
{
    let value = u64::from(digit.saturating_sub(b'0'));
    if number < 1 << 60 {
        return number * 10 + value;
    }
    number.saturating_mul(10).saturating_add(value)
}

/// How many digits stand from a place on, and the number that they write, or the greatest u64 where that is less.
#[tactic(auto, using(crate::proofs::Numbers::digits_go_on, crate::proofs::Numbers::digits_end, crate::proofs::Numbers::value_goes_on))]
fn digits_at(bytes: &[u8], at: usize) -> (usize, u64)
    ensures count { result.0 ≡ length (digits_at at bytes.now) }
    ensures value { result.1 ≡ min (value_of (digits_at at bytes.now)) 18446744073709551615 }
{
    let mut end = at;
    let mut value = 0;
    while is_digit_at(bytes, end) {
        value = with_digit(value, byte_at(bytes, end));
        end += 1;
    }
    (end - at, value)
}

/// Whether so many digits from a place on are more than one and begin with a zero.
fn has_leading_zero(bytes: &[u8], at: usize, count: usize) -> bool
    requires { count ≡ length (digits_at at bytes.now) }
    ensures { result ≡ has_leading_zero (digits_at at bytes.now) }
{
    count > 1 && byte_at(bytes, at) == b'0'
}

/// The number that the digits from a place on write, behind a minus or not, and how many digits they are.
#[tactic(auto, unfolding(crate::specs::Tokens::number_of))]
fn number_of(bytes: &[u8], at: usize, is_negative: bool) -> (Token, usize)
    ensures { result ≡ (number_of is_negative (digits_at at bytes.now), length (digits_at at bytes.now)) }
{
    let (count, magnitude) = digits_at(bytes, at);
    if has_leading_zero(bytes, at, count) {
        return (Token::Bad(TextCause::Number), count);
    }
    if is_negative {
        (negative(magnitude), count)
    } else {
        (positive(magnitude), count)
    }
}

fn positive(magnitude: u64) -> Token
    ensures { result ≡ positive magnitude }
{
    if magnitude < 1 << 63 {
        Token::Number(magnitude as i64)
    } else {
        Token::Wide
    }
}

fn negative(magnitude: u64) -> Token
    ensures { result ≡ negative magnitude }
{
    if magnitude == 0 {
        return Token::Bad(TextCause::Number);
    }
    let below = magnitude - 1;
    if below < 1 << 63 {
        Token::Number(-1 - below as i64)
    } else {
        Token::Wide
    }
}

/// The mark of a word, where the run is that word, and else of one that is none of the language's.
fn mark_if(run: &[u8], word: &[u8], mark: Mark) -> Mark
    ensures { result ≡ cond (is_text run.now word.now) mark Other }
{
    if run == word { mark } else { Mark::Other }
}

/// The mark of the one of two words that the run is.
fn mark_of_two(run: &[u8], word: &[u8], mark: Mark, other: &[u8], other_mark: Mark) -> Mark
    ensures { result ≡ cond (is_text run.now word.now) mark (cond (is_text run.now other.now) other_mark Other) }
{
    if run == word {
        mark
    } else {
        mark_if(run, other, other_mark)
    }
}

#[tactic(auto, using(crate::proofs::Words::word_by_first))]
fn word_of(run: &[u8]) -> Mark
    ensures { result ≡ word_of run.now }
{
    match byte_at(run, 0) {
        b'r' => mark_if(run, b"reads", Mark::Reads),
        b'w' => mark_if(run, b"writes", Mark::Writes),
        b'a' => mark_of_two(run, b"at", Mark::At, b"and", Mark::And),
        b's' => mark_if(run, b"set", Mark::Set),
        b'i' => mark_if(run, b"if", Mark::If),
        b'e' => mark_if(run, b"else", Mark::Else),
        b'm' => mark_of_two(run, b"min", Mark::Min, b"max", Mark::Max),
        b'o' => mark_if(run, b"or", Mark::Or),
        b'n' => mark_if(run, b"not", Mark::Not),
        _ => Mark::Other,
    }
}

#[tactic(auto, unfolding(crate::specs::Tokens::sign_of))]
fn sign_of(byte: u8) -> Token
    ensures { result ≡ sign_of byte }
{
    match byte {
        b'(' => Token::Mark(Mark::Open),
        b')' => Token::Mark(Mark::Close),
        b'[' => Token::Mark(Mark::OpenTest),
        b']' => Token::Mark(Mark::CloseTest),
        b'{' => Token::Mark(Mark::OpenBlock),
        b'}' => Token::Mark(Mark::CloseBlock),
        b';' => Token::Mark(Mark::Semicolon),
        b'+' => Token::Mark(Mark::Plus),
        b'-' => Token::Mark(Mark::Minus),
        b'*' => Token::Mark(Mark::Times),
        b'/' => Token::Mark(Mark::Divide),
        b'%' => Token::Mark(Mark::Remainder),
        _ => Token::Bad(TextCause::Character),
    }
}

#[tactic(auto, unfolding(crate::specs::Tokens::sign_at))]
fn sign_at(bytes: &[u8]) -> (Token, usize)
    ensures { result ≡ sign_at bytes.now }
{
    match byte_at(bytes, 0) {
        b'=' if byte_at(bytes, 1) == b'=' => (Token::Mark(Mark::Equal), 2),
        b'=' => (Token::Bad(TextCause::Character), 1),
        b'<' if byte_at(bytes, 1) == b'=' => (Token::Mark(Mark::LessEqual), 2),
        b'<' => (Token::Mark(Mark::Less), 1),
        byte => (sign_of(byte), 1),
    }
}

fn small_ref(object: u64, attr: u64) -> Token
    ensures { result ≡ small_ref object attr }
{
    if object < 65536 && attr < 256 {
        Token::Ref {
            object: object as u16,
            attr: attr as u8,
        }
    } else {
        Token::Bad(TextCause::Number)
    }
}

/// The ref whose object's digits stand behind the first byte, and its attribute's behind the byte after them: how many digits, and their number.
#[tactic(auto, unfolding(crate::specs::Tokens::ref_of))]
fn ref_of(bytes: &[u8], object: (usize, u64), attr: (usize, u64)) -> Token
    requires few { length bytes.now < 2 ^ 32 }
    requires object { object.0 ≡ length (digits_at 1 bytes.now) }
    requires object_value { object.1 ≡ min (value_of (digits_at 1 bytes.now)) 18446744073709551615 }
    requires attr { attr.0 ≡ length (digits_at (2 + object.0) bytes.now) }
    requires attr_value { attr.1 ≡ min (value_of (digits_at (2 + object.0) bytes.now)) 18446744073709551615 }
    ensures { result ≡ ref_of (digits_at 1 bytes.now) (digits_at (2 + object.0) bytes.now) }
{
    if has_leading_zero(bytes, 1, object.0) || has_leading_zero(bytes, 2 + object.0, attr.0) {
        return Token::Bad(TextCause::Number);
    }
    small_ref(object.1, attr.1)
}

#[tactic(auto, unfolding(crate::specs::Tokens::ref_at))]
fn ref_at(bytes: &[u8]) -> (Token, usize)
    requires { length bytes.now < 2 ^ 32 }
    ensures { result ≡ ref_at bytes.now }
{
    let object = digits_at(bytes, 1);
    let attr = digits_at(bytes, 2 + object.0);
    if object.0 > 0 && byte_at(bytes, 1 + object.0) == b'.' && attr.0 > 0 {
        (ref_of(bytes, object, attr), 2 + object.0 + attr.0)
    } else {
        (Token::Bad(TextCause::Character), 1)
    }
}

#[tactic(auto, unfolding(crate::specs::Tokens::word_at))]
fn word_at(bytes: &[u8]) -> (Token, usize)
    ensures { result ≡ word_at bytes.now }
{
    let run = letters(bytes);
    (Token::Mark(word_of(run)), run.len())
}

#[tactic(auto, unfolding(crate::specs::Tokens::positive_at))]
fn positive_at(bytes: &[u8]) -> (Token, usize)
    ensures { result ≡ positive_at bytes.now }
{
    number_of(bytes, 0, false)
}

#[tactic(auto, unfolding(crate::specs::Tokens::negative_at))]
fn negative_at(bytes: &[u8]) -> (Token, usize)
    requires { length bytes.now < 2 ^ 32 }
    ensures { result ≡ negative_at bytes.now }
{
    let (token, count) = number_of(bytes, 1, true);
    (token, 1 + count)
}

/// The token that the bytes begin with, which are no blank, and how many of them it has.
#[tactic(auto, unfolding(crate::specs::Tokens::token_at))]
fn token_at(bytes: &[u8]) -> (Token, usize)
    requires { length bytes.now < 2 ^ 32 }
    ensures { result ≡ token_at bytes.now }
{
    let first = byte_at(bytes, 0);
    if first.is_ascii_lowercase() {
        word_at(bytes)
    } else if first.is_ascii_digit() {
        positive_at(bytes)
    } else if first == b'-' && byte_at(bytes, 1).is_ascii_digit() {
        negative_at(bytes)
    } else if first == b'@' {
        ref_at(bytes)
    } else {
        sign_at(bytes)
    }
}

#[tactic(auto, unfolding(crate::specs::Tokens::is_joint))]
pub fn is_joint(token: Token) -> bool
    ensures { result ≡ is_joint token }
{
    match token {
        Token::Number(_) | Token::Wide => true,
        Token::Ref { .. } | Token::Bad(_) => false,
        Token::Mark(mark) => is_word(mark),
    }
}

pub fn is_word(mark: Mark) -> bool
    ensures { result ≡ is_word mark }
{
    matches!(
        mark,
        Mark::Reads
            | Mark::Writes
            | Mark::At
            | Mark::Set
            | Mark::If
            | Mark::Else
            | Mark::Min
            | Mark::Max
            | Mark::And
            | Mark::Or
            | Mark::Not
            | Mark::Other
    )
}

#[tactic(auto, using(crate::proofs::Lexing::token_has))]
fn token_behind(bytes: &[u8], at: usize) -> (Token, usize)
    requires few { length bytes.now < 2 ^ 32 }
    requires within { at < length bytes.now }
    ensures value { result ≡ token_at (drop at bytes.now) }
    ensures some { 0 < result.1 }
    ensures end { at + result.1 ≤ length bytes.now }
{
    token_at(&bytes[at..])
}

/// Where the blanks from a place on end, and whether a word or number stands directly before that.
#[tactic(auto, using(crate::proofs::Lexing::blank_step))]
fn behind_blanks(bytes: &[u8], at: usize, glued: bool) -> (usize, bool)
    requires { at ≤ length bytes.now }
    ensures within { result.0 ≤ length bytes.now }
    ensures stands { is_blank (slice_index bytes.now result.0) ≡ false }
    ensures same { tokens_from 0 result.0 result.1 (drop result.0 bytes.now) ≡ tokens_from 0 at glued (drop at bytes.now) }
{
    let mut end = at;
    let mut is_glued = glued;
    while is_blank(byte_at(bytes, end)) {
        end += 1;
        is_glued = false;
    }
    (end, is_glued)
}

/// Goes to the next token behind the one that stands ahead. The fields are written one by one, since a whole `Ahead` is slow to move.
pub fn go_ahead(bytes: &[u8], ahead: &mut Ahead)
    requires few { length bytes.now < 2 ^ 32 }
    requires within { ahead.old.end ≤ length bytes.now }
    ensures held { held bytes.now ahead.new ≡ tokens_from 0 ahead.old.end (is_joint ahead.old.next.token) (drop ahead.old.end bytes.now) }
    ensures stands { IsAhead bytes.now ahead.new }
{
    let (at, glued) = behind_blanks(bytes, ahead.end, is_joint(ahead.next.token));
    ahead.next.place = at as u32;
    ahead.next.glued = glued;
    if at == bytes.len() {
        ahead.next.token = Token::Mark(Mark::End);
        ahead.end = at;
        ahead.left = Left::End;
        return;
    }
    let (token, len) = token_behind(bytes, at);
    ahead.next.token = token;
    ahead.end = at + len;
    ahead.left = Left::Tokens;
}

/// What stands behind the end of a text.
pub fn nothing_ahead() -> Ahead
    ensures { result ≡ nothing_ahead }
{
    Ahead {
        next: Lexeme {
            place: 0,
            glued: false,
            token: Token::Bad(TextCause::Expected),
        },
        end: 0,
        left: Left::Nothing,
    }
}
