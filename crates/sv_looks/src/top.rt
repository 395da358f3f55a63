//! The top call that prints the snapshots of a scheduled run.
ghost use Rattle.std.specs.Prelude.{◌≡◌, ◌≢◌, ◌↔◌, map, string_bytes, None, IfSome};
ghost use Rattle.std.specs.Option.{option_copied};
ghost use Rattle.sv_ending.specs.Calls.{moment};
ghost use Rattle.sv_ending.specs.Endings.{Ends, OrWords};
ghost use Rattle.sv_ending.specs.Reading.{held_by_file};
ghost use Rattle.sv_ending.specs.Statuses.{counts, Raises};
ghost use Rattle.sv_looks.specs.Answers.{Answers};
ghost use Rattle.sv_looks.specs.Statuses.{EndsEarly, IsText};
ghost use Rattle.sv_looks.specs.Words.{asked_of};

use crate::texts::text_for;
use crate::words::{WORDS_LINE, file_in};
use std::alloc::Global;
use sv_bytes::{Files, Sink, write_all};
use sv_ending::{Ending, status_of, tell};

/// Prints the snapshots that are asked for, and tells how it ended.
fn decide<F: Files, K: Sink>(
    alloc: Global,
    file: Option<&str>,
    files: &mut F,
    out: &mut K,
) -> Ending
    ensures words { (result ≡ Ending.Words) ↔ (option_copied file.entry ≡ None) }
    ensures ends { Ends (IsText (held_by_file (F.contents files.old) (option_copied file.entry))) (OrWords (EndsEarly (held_by_file (F.contents files.old) (option_copied file.entry))))
        (K.taken out.old) (K.taken out.new) result }
    ensures raises { Raises (counts (F.faults files.old) 0 0 (K.faults out.old)) (counts (F.faults files.new) 0 0 (K.faults out.new)) result }
    ensures sure { IfSome (option_copied file.entry) (λ name. F.sure files.old name → result ≢ Ending.File) }
    ensures apart { result ≡ Ending.Words → files.new ≡ files.old }
{
    let Some(file) = file else {
        return Ending::Words;
    };
    match text_for(alloc, file, files) {
        Ok(text) if write_all(out, text.as_bytes()) => Ending::Done,
        Ok(_) => Ending::Out,
        Err(ending) => ending,
    }
}

/// Runs the schedule of a file's scenario on one thread, prints a line for each look that a client was told of and for each time that one saw what
/// it observed, and answers the status with which the program ends.
///
/// The words leave out the program's own name. They are `looks FILE`. The lines stand client by client, and each client's in the order in
/// which it was told. A look is an action that writes nothing and has no statements; its line has the values that the objects it reads have
/// just before its position, all at this one moment of the serial execution. The line of what was observed has the values that its objects have
/// at the position that it tells.
///
/// The status is the first of these that applies: 2 where the words are others, 4 where the file can't be read, 3 where it is no scenario, and
/// 5 where the output failed; else it is 0, or 8 where memory ran out. All lines are made before any of them is printed.
pub fn run_looks<F: Files, K: Sink, E: Sink>(
    alloc: Global,
    words: &[String],
    files: &mut F,
    out: &mut K,
    err: &mut E,
) -> u8
    ensures answers { Answers (asked_of (map string_bytes words.now)) (F.contents files.old) (F.sure files.old)
        (moment (counts (F.faults files.old) 0 0 (K.faults out.old)) (K.taken out.old) (E.taken err.old) (E.faults err.old))
        (moment (counts (F.faults files.new) 0 0 (K.faults out.new)) (K.taken out.new) (E.taken err.new) (E.faults err.new)) result }
    ensures apart { result ≡ 2 → files.new ≡ files.old }
{
    let file = file_in(words);
    let ending = decide(alloc, file, files, out);
    tell(&ending, WORDS_LINE, file, err);
    status_of(&ending)
}
