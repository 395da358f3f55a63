//! What the words of a call ask for.
ghost use Rattle.std.specs.Prelude.{◌≡◌, map, string_bytes};
ghost use Rattle.std.specs.Option.{option_copied};
ghost use Rattle.sv_looks.specs.Words.{asked_of};

/// The line that tells which words there are.
pub(crate) const WORDS_LINE: &[u8] = b"words: looks FILE\n";

/// The file whose scenario's snapshots the words ask for: `looks FILE`.
pub(crate) fn file_in(words: &[String]) -> Option<&str>
    ensures { option_copied result ≡ asked_of (map string_bytes words.now) }
{
    match words {
        [word, file] if word.as_str() == "looks" => Some(file.as_str()),
        _ => None,
    }
}
