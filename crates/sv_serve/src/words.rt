//! What the words of a call ask for.
ghost use Rattle.std.specs.Prelude.{◌≡◌, map, string_bytes, option_map};
ghost use Rattle.std.specs.Option.{option_copied};
ghost use Rattle.sv_serve.specs.Words.{asked_by, asked_of, named_by};

use sv_ending::number_in;

/// The line that tells which words there are.
pub(crate) const WORDS_LINE: &[u8] = b"words: serve FILE PORT\n";

/// The scenario of a file is to be served at a port.
#[derive(Clone, Copy, Debug, Drop)]
pub struct ServeCommand<'a> {
    pub file: &'a str,
    pub port: u16,
}

/// What the words ask for: `serve FILE PORT`.
pub(crate) fn command_of(words: &[String]) -> Option<ServeCommand<'_>>
    ensures { option_map asked_by result ≡ asked_of (map string_bytes words.now) }
{
    let [word, file, port] = words else {
        return None;
    };
    if word.as_str() != "serve" {
        return None;
    }
    Some(ServeCommand {
        file: file.as_str(),
        port: number_in(port.as_str(), 1, 65_535)? as u16,
    })
}

/// The file that is named.
pub(crate) fn file_of<'a>(command: Option<ServeCommand<'a>>) -> Option<&'a str>
    ensures { option_copied result ≡ named_by (option_map asked_by command.entry) }
{
    let ServeCommand { file, .. } = command?;
    Some(file)
}
