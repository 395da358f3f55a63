//! Numbers among the words of a call.
ghost use Rattle.std.specs.Prelude.{◌≡◌, ◌≤◌, ◌↔◌, IfSome, IsTrue};
ghost use Rattle.sv_ending.specs.Numbers.{number_between, IsPlain};

/// Whether a text begins with a digit, which is 0 only where it stands alone.
fn is_plain(text: &[u8]) -> bool
    ensures { IsTrue result ↔ IsPlain text.now }
{
    matches!(text, [b'0'] | [b'1'..=b'9', ..])
}

/// The number that a text writes in decimal without leading zeros, where it is within the bounds.
pub fn number_in(text: &str, least: u32, most: u32) -> Option<u32>
    ensures number { result ≡ number_between least most text.now }
    ensures range { IfSome result (λ number. (least ≤ number) × (number ≤ most)) }
{
    if !is_plain(text.as_bytes()) {
        return None;
    }
    match text.parse::<u32>() {
        Ok(number) if least <= number && number <= most => Some(number),
        _ => None,
    }
}
