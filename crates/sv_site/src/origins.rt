//! From which pages an upgrade may come.
ghost use Rattle.std.specs.Prelude.{◌≡◌, map, string_bytes, option_copied};
ghost use Rattle.std.specs.Str.{bytes_eq};
ghost use Rattle.sv_site.specs.Origins.{place_of, is_named, is_same_place, is_welcome};

/// What an origin has behind its scheme: a host, and a port where it has one.
fn place_of(origin: &[u8]) -> Option<&[u8]>
    ensures { option_copied result ≡ place_of origin.now }
{
    if let Some(rest) = origin.strip_prefix(b"http://") {
        return Some(rest);
    }
    origin.strip_prefix(b"https://")
}

fn is_text(name: &String, text: &[u8]) -> bool
    ensures { result ≡ bytes_eq (string_bytes name.now) text.now }
{
    name.as_bytes() == text
}

fn is_named(origin: &[u8], named: &[String]) -> bool
    ensures { result ≡ is_named origin.now (map string_bytes named.now) }
{
    for name in named {
        if is_text(name, origin) {
            return true;
        }
    }
    false
}

fn is_same_place(place: Option<&[u8]>, host: Option<&[u8]>) -> bool
    ensures { result ≡ is_same_place (option_copied place.entry) (option_copied host.entry) }
{
    match (place, host) {
        (Some(place), Some(host)) => place.eq_ignore_ascii_case(host),
        _ => false,
    }
}

/// Whether an upgrade may come from a page of an origin: its host and port are those of the request's Host, or it is one of those that are
/// named.
pub fn is_welcome(origin: &[u8], host: Option<&[u8]>, named: &[String]) -> bool
    ensures { result ≡ is_welcome origin.now (option_copied host.entry) (map string_bytes named.now) }
{
    is_named(origin, named) || is_same_place(place_of(origin), host)
}
