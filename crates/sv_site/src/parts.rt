//! Texts that are cut at a byte.
ghost use Rattle.std.specs.Prelude.{◌≡◌, ◌==◌, ◌∷◌, ◌<◌, IfSome, length, position, option_copied};
ghost use Rattle.sv_site.specs.Parts.{parts_of, parts_behind};

/// Where a text has such a byte first.
fn place_of(text: &[u8], byte: u8) -> Option<usize>
    ensures { result ≡ position (λ b. b == byte) text.now }
{
    text.iter().position(|it| *it == byte)
}

/// What a text has before the first such byte, and what it has behind that byte, where it has one.
pub fn cut_at(text: &[u8], byte: u8) -> (&[u8], Option<&[u8]>)
    ensures parts { parts_of byte text.now ≡ result.0.now ∷ parts_behind byte (option_copied result.1) }
    ensures shorter { IfSome result.1 (λ rest. length rest.now < length text.now) }
{
    match place_of(text, byte) {
        Some(at) => (&text[..at], Some(&text[at + 1..])),
        None => (text, None),
    }
}
