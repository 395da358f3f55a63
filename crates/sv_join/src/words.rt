//! What the words of a join ask for.
ghost use Rattle.std.specs.Prelude.{◌≡◌, map, string_bytes, option_map};
ghost use Rattle.std.specs.Option.{option_copied};
ghost use Rattle.sv_join.specs.Words.{asked_by, asked_if, asked_of, named_by};
ghost use Rattle.sv_ending.specs.Numbers.{number_between};

use sv_ending::number_in;

/// The line that tells which words there are.
pub(crate) const WORDS_LINE: &[u8] = b"words: join FILE K PORT\n";

/// A join that is asked for: of a client of a file's scenario, with the server at a port.
#[derive(Clone, Copy, Debug, Drop)]
pub(crate) struct Join<'a> {
    pub(crate) file: &'a str,
    pub(crate) number: u16,
    pub(crate) port: u16,
}

fn join_with<'a>(file: &'a str, number: &str, port: &str) -> Option<Join<'a>>
    ensures { option_map asked_by result ≡ asked_if file.entry.now (number_between 0 65535 number.now) (number_between 1 65535 port.now) }
{
    let number = number_in(number, 0, 65_535)?;
    let port = number_in(port, 1, 65_535)?;
    Some(Join {
        file,
        number: number as u16,
        port: port as u16,
    })
}

/// What the words ask for: `join FILE K PORT`.
pub(crate) fn join_of(words: &[String]) -> Option<Join<'_>>
    ensures { option_map asked_by result ≡ asked_of (map string_bytes words.now) }
{
    match words {
        [word, file, number, port] if word.as_str() == "join" => {
            join_with(file.as_str(), number.as_str(), port.as_str())
        }
        _ => None,
    }
}

/// The file that is named.
pub(crate) fn file_of<'a>(join: Option<Join<'a>>) -> Option<&'a str>
    ensures { option_copied result ≡ named_by (option_map asked_by join.entry) }
{
    Some(join?.file)
}
