//! What the words of a call ask for.
ghost use Rattle.std.specs.Prelude.{◌≡◌, map, string_bytes, option_map, IfSome};
ghost use Rattle.std.specs.Option.{option_copied};
ghost use Rattle.sv_run.specs.Words.{IsSize, IsSized, asked_by, size_of, form_of, of_two, of_three, asked_of, named_by};

use sv_ending::number_in;
use sv_gen::MOST_LOAD;

/// The line that tells which words there are.
pub(crate) const WORDS_LINE: &[u8] =
    b"words: play FILE [--brief | --watch] | replay FILE | load N\n";

/// How a run on threads is told.
#[derive(Clone, Copy, Debug, Drop, PartialEq, Eq)]
pub enum Form {
    /// By the report.
    Report,

    /// By the brief summary.
    Brief,

    /// By the report, and then a line for each change of a client's view.
    Watch,
}

/// What the program is to do.
#[derive(Clone, Copy, Debug, Drop)]
pub enum RunCommand<'a> {
    /// To run a file's scenario on threads.
    Play { file: &'a str, form: Form },

    /// To run its schedule on one thread.
    Replay { file: &'a str },

    /// To run the generated scenario of this size on threads.
    Load { size: u32 },
}

/// The size that a text writes: 1 to 192.
fn size_of(text: &str) -> Option<u32>
    ensures size { result ≡ size_of text.now }
    ensures range { IfSome result IsSize }
{
    number_in(text, 1, MOST_LOAD)
}

fn form_of(text: &str) -> Option<Form>
    ensures { result ≡ form_of text.now }
{
    match text {
        "--brief" => Some(Form::Brief),
        "--watch" => Some(Form::Watch),
        _ => None,
    }
}

fn of_two<'a>(word: &str, text: &'a str) -> Option<RunCommand<'a>>
    ensures asked { option_map asked_by result ≡ of_two word.now text.entry.now }
    ensures sized { IfSome result IsSized }
{
    match word {
        "play" => Some(RunCommand::Play {
            file: text,
            form: Form::Report,
        }),
        "replay" => Some(RunCommand::Replay { file: text }),
        "load" => Some(RunCommand::Load {
            size: size_of(text)?,
        }),
        _ => None,
    }
}

fn of_three<'a>(word: &str, file: &'a str, form: &str) -> Option<RunCommand<'a>>
    ensures asked { option_map asked_by result ≡ of_three word.now file.entry.now form.now }
    ensures sized { IfSome result IsSized }
{
    if word != "play" {
        return None;
    }
    Some(RunCommand::Play {
        file,
        form: form_of(form)?,
    })
}

/// What the words ask for: `play FILE`, `play FILE --brief`, `play FILE --watch`, `replay FILE` or `load N`.
pub(crate) fn command_of(words: &[String]) -> Option<RunCommand<'_>>
    ensures asked { option_map asked_by result ≡ asked_of (map string_bytes words.now) }
    ensures sized { IfSome result IsSized }
{
    match words {
        [word, text] => of_two(word.as_str(), text.as_str()),
        [word, file, form] => of_three(word.as_str(), file.as_str(), form.as_str()),
        _ => None,
    }
}

/// The file that is named.
pub(crate) fn file_of<'a>(command: Option<RunCommand<'a>>) -> Option<&'a str>
    ensures { option_copied result ≡ named_by (option_map asked_by command.entry) }
{
    match command? {
        RunCommand::Play { file, .. } | RunCommand::Replay { file } => Some(file),
        RunCommand::Load { .. } => None,
    }
}
