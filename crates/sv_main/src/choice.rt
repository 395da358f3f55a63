//! Which top call the words of a call of the program are for.
ghost use Rattle.std.specs.Prelude.{◌≡◌, map, string_bytes};
ghost use Rattle.sv_main.specs.Choice.{call_of, command_of};

use crate::commands::TopCall;

fn call_of(word: &str) -> TopCall
    ensures { result ≡ call_of word.now }
{
    match word {
        "looks" => TopCall::Looks,
        "witness" => TopCall::Witness,
        "serve" => TopCall::Serve,
        "host" => TopCall::Host,
        "join" => TopCall::Join,
        "check" | "why" | "world" => TopCall::Check,
        _ => TopCall::Run,
    }
}

/// The top call that the words are for, by the first of them alone. Each call tells by itself which of the others it does not know.
pub fn command(words: &[String]) -> TopCall
    ensures { result ≡ command_of (map string_bytes words.now) }
{
    match words {
        [word, ..] => call_of(word.as_str()),
        [] => TopCall::Run,
    }
}
