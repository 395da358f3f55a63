//! What a line of a file of keys says.
ghost use Rattle.std.specs.Prelude.{◌≡◌, ◌↔◌, ◌<◌, take, drop, length, IsTrue, IfSome, IfNone, Some, None};
ghost use Rattle.std.specs.List.{AllPass};
ghost use Rattle.std.specs.Result.{result_ok};
ghost use Rattle.hex.specs.Hex.{decode_sized};
ghost use Rattle.sv_ending.specs.Numbers.{number_between};
ghost use Rattle.sv_keys.specs.Cuts.{width_before, before, behind};
ghost use Rattle.sv_keys.specs.KeyLines.{is_blank, IsRow, IsLine};

use hex::FromHex;
use sv_ending::number_in;
use sv_world::ClientId;

/// How many digits a digest has.
const DIGITS: usize = 64;

/// A client may join by the key of this digest.
#[derive(Clone, Copy, Debug, Drop, PartialEq, Eq)]
pub struct KeyRow {
    pub client: ClientId,
    pub digest: [u8; 32],
}

/// What a line says.
#[derive(Clone, Copy, Debug, Drop, PartialEq, Eq)]
pub(crate) enum Line {
    Blank,
    Key(KeyRow),
    Wrong,
}

fn width_before(text: &[u8], end: u8) -> usize
    ensures { result ≡ width_before end text.now }
{
    text.iter().take_while(|byte| **byte != end).count()
}

/// What stands before the first byte of a kind, and what behind it.
pub(crate) fn cut(text: &[u8], end: u8) -> (&[u8], &[u8])
    ensures before { result.0.now ≡ before end text.now }
    ensures behind { result.1.now ≡ behind end text.now }
    ensures less { 0 < length text.now → length result.1.now < length text.now }
{
    let width = width_before(text, end);
    if width < text.len() {
        (&text[..width], &text[width + 1..])
    } else {
        (text, &[])
    }
}

fn is_blank(text: &[u8]) -> bool
    ensures { IsTrue result ↔ AllPass is_blank text.now }
{
    text.iter()
        .all(|byte| *byte == b' ' || *byte == b'\t' || *byte == b'\r')
}

fn client_in(number: &[u8]) -> Option<ClientId>
    ensures some { IfSome result (λ client. number_between 0 65535 number.now ≡ Some client.0) }
    ensures none { IfNone result (number_between 0 65535 number.now ≡ None) }
{
    let Ok(number) = str::from_utf8(number) else {
        return None;
    };
    let client = number_in(number, 0, 65_535)?;
    Some(ClientId(client as u16))
}

// What stands before a place and behind it, which is all and nothing where there are fewer bytes.
fn cut_at(text: &[u8], place: usize) -> (&[u8], &[u8])
    ensures before { result.0.now ≡ take place text.now }
    ensures behind { result.1.now ≡ drop place text.now }
{
    if text.len() <= place {
        (text, &[])
    } else {
        text.split_at(place)
    }
}

fn digest_in(digits: &[u8]) -> Option<[u8; 32]>
    ensures { result ≡ result_ok (decode_sized digits.now 32) }
{
    <[u8; 32] as FromHex>::from_hex(digits).ok()
}

// The key that a text is, where it is one.
fn row_of(text: &[u8]) -> Option<KeyRow>
    ensures some { IfSome result (λ row. IsRow text.now row) }
    ensures none { IfNone result ((row : KeyRow) → ¬ IsRow text.now row) }
{
    let (number, behind) = cut(text, b' ');
    let client = client_in(number)?;
    let (digits, rest) = cut_at(behind, DIGITS);
    let digest = digest_in(digits)?;
    if !is_blank(rest) {
        return None;
    }
    Some(KeyRow { client, digest })
}

/// What a line says.
pub(crate) fn line_of(line: &[u8]) -> Line
    ensures { IsLine line.now result }
{
    let (text, _) = cut(line, b'#');
    if is_blank(text) {
        return Line::Blank;
    }
    match row_of(text) {
        Some(row) => Line::Key(row),
        None => Line::Wrong,
    }
}
