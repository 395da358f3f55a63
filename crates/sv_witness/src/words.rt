//! What the words of a call ask for.
ghost use Rattle.std.specs.Prelude.{◌≡◌, map, string_bytes, option_map};
ghost use Rattle.std.specs.Option.{option_copied};
ghost use Rattle.sv_ending.specs.Numbers.{number_between};
ghost use Rattle.sv_witness.specs.Words.{asked_by, asked_of, named_by, with_liar};

use sv_ending::number_in;

/// The line that tells which words there are.
pub(crate) const WORDS_LINE: &[u8] = b"words: witness FILE [K]\n";

/// A witnessed run of a file's scenario, with a client that lies or with none.
#[derive(Clone, Copy, Debug, Drop)]
pub(crate) struct Witnessing<'a> {
    pub(crate) file: &'a str,
    pub(crate) liar: Option<u16>,
}

fn with_liar<'a>(file: &'a str, number: &str) -> Option<Witnessing<'a>>
    ensures { option_map asked_by result ≡ with_liar file.entry.now (number_between 0 65535 number.now) }
{
    let number = number_in(number, 0, 65_535)?;
    Some(Witnessing {
        file,
        liar: Some(number as u16),
    })
}

/// What the words ask for: `witness FILE` or `witness FILE K`.
pub(crate) fn witnessing_of(words: &[String]) -> Option<Witnessing<'_>>
    ensures { option_map asked_by result ≡ asked_of (map string_bytes words.now) }
{
    match words {
        [word, file] if word.as_str() == "witness" => Some(Witnessing {
            file: file.as_str(),
            liar: None,
        }),
        [word, file, number] if word.as_str() == "witness" => {
            with_liar(file.as_str(), number.as_str())
        }
        _ => None,
    }
}

/// The file that is named.
pub(crate) fn file_of(asked: Option<Witnessing<'_>>) -> Option<&str>
    ensures { option_copied result ≡ named_by (option_map asked_by asked.entry) }
{
    match asked {
        Some(asked) => Some(asked.file),
        None => None,
    }
}
