//! What the program tells of itself, where it is asked by one word.
ghost use Rattle.std.specs.Prelude.{◌≡◌, ◌⊎◌, codes, map, string_bytes};
ghost use Rattle.sv_bytes.specs.Faults.{Rose};
ghost use Rattle.sv_bytes.specs.Writing.{Grew, GrewByPart, GrewOrRose};
ghost use Rattle.sv_main.specs.Notices.{Tells, notice_for, notice_of};

use crate::help::{HELP, Notice, VERSION};
use sv_bytes::{Sink, write_all};
use sv_ending::{Ending, status_of, tell};

fn notice_for(word: &str) -> Option<Notice>
    ensures { result ≡ notice_for word.now }
{
    match word {
        "--help" => Some(Notice::Help),
        "--version" => Some(Notice::Version),
        _ => None,
    }
}

/// What the words ask the program to tell of itself. All other words are for the top calls.
pub fn notice(words: &[String]) -> Option<Notice>
    ensures { result ≡ notice_of (map string_bytes words.now) }
{
    match words {
        [word] => notice_for(word.as_str()),
        _ => None,
    }
}

/// The text of a notice.
pub fn text_of(notice: Notice) -> &'static str
    ensures { Tells notice result.now }
{
    match notice {
        Notice::Help => HELP,
        Notice::Version => VERSION,
    }
}

/// Prints a text. The status is 0, or 5 where standard output failed, with the line `out` on standard error.
pub fn print_text<K: Sink, E: Sink>(text: &str, out: &mut K, err: &mut E) -> u8
    ensures printed { result ≡ 0 → Grew (K.taken out.old) (K.taken out.new) text.now }
    ensures whole { result ≡ 0 → K.faults out.new ≡ K.faults out.old }
    ensures failed { result ≡ 5 → Rose (K.faults out.old) (K.faults out.new) }
    ensures part { GrewByPart (K.taken out.old) (K.taken out.new) text.now }
    ensures quiet { result ≡ 0 → (E.taken err.new ≡ E.taken err.old) × (E.faults err.new ≡ E.faults err.old) }
    ensures told { result ≡ 5 → GrewOrRose (E.taken err.old) (E.taken err.new) (E.faults err.old) (E.faults err.new) (codes "out\n") }
    ensures no_other { (result ≡ 0) ⊎ (result ≡ 5) }
{
    if write_all(out, text.as_bytes()) {
        return 0;
    }
    tell(&Ending::Out, b"", None, err);
    status_of(&Ending::Out)
}
