//! The top call of a witnessed run.
ghost use Rattle.std.specs.Prelude.{◌≡◌, ◌≢◌, ◌↔◌, ℕ, true, false, map, option_map, string_bytes, None, Err, IfSome};
ghost use Rattle.sv_ending.specs.Calls.{moment};
ghost use Rattle.sv_ending.specs.Endings.{Ends, IsMade};
ghost use Rattle.sv_ending.specs.Statuses.{counts, ending_of, Raises};
ghost use Rattle.sv_witness.specs.Answers.{Answers};
ghost use Rattle.sv_witness.specs.Statuses.{EndsEarly, IsLiarOver, IsText, IsLiarWithin};
ghost use Rattle.sv_witness.specs.Words.{asked_by, asked_of};

use crate::running::run_text;
use crate::words::{WORDS_LINE, Witnessing, file_of, witnessing_of};
use std::alloc::Global;
use sv_bytes::{Files, Sink, write_all};
use sv_ending::{Ending, scenario_in, status_of, tell};

/// Whether the liar is one of so many clients, if there is one.
fn is_within(clients: usize, liar: Option<u16>) -> bool
    ensures within { result ≡ true → IsLiarWithin clients liar }
    ensures over { result ≡ false → IsLiarOver clients liar }
{
    match liar {
        Some(number) => (number as usize) < clients,
        None => true,
    }
}

/// The lines of the run that is asked for. They are whole before any of them is printed.
fn text_for<F: Files>(alloc: Global, asked: Witnessing<'_>, files: &mut F) -> Result<String, Ending>
    ensures made { IsMade (IsText (asked_by asked.entry) (F.contents files.old asked.entry.file.now)) (EndsEarly (asked_by asked.entry) (F.contents files.old asked.entry.file.now)) result }
    ensures raises { (k : ℕ) → Raises (counts (F.faults files.old) 0 0 k) (counts (F.faults files.new) 0 0 k) (ending_of result) }
    ensures sure { F.sure files.old asked.entry.file.now → result ≢ Err Ending.File }
{
    let scenario = scenario_in(alloc, asked.file, files)?;
    if !is_within(scenario.clients.len(), asked.liar) {
        return Err(Ending::Range);
    }
    Ok(run_text(alloc, &scenario, asked.liar)?)
}

/// Does what is asked for, and tells how it ended.
fn decide<F: Files, K: Sink>(
    alloc: Global,
    asked: Option<Witnessing<'_>>,
    files: &mut F,
    out: &mut K,
) -> Ending
    ensures words { (result ≡ Ending.Words) ↔ (option_map asked_by asked.entry ≡ None) }
    ensures ends { IfSome (option_map asked_by asked.entry) (λ a. Ends (IsText a (F.contents files.old a.file)) (EndsEarly a (F.contents files.old a.file)) (K.taken out.old) (K.taken out.new) result) }
    ensures raises { Raises (counts (F.faults files.old) 0 0 (K.faults out.old)) (counts (F.faults files.new) 0 0 (K.faults out.new)) result }
    ensures sure { IfSome (option_map asked_by asked.entry) (λ a. F.sure files.old a.file → result ≢ Ending.File) }
    ensures apart { option_map asked_by asked.entry ≡ None → (files.new ≡ files.old) × (K.taken out.new ≡ K.taken out.old) }
{
    let Some(asked) = asked else {
        return Ending::Words;
    };
    match text_for(alloc, asked, files) {
        Ok(text) if write_all(out, text.as_bytes()) => Ending::Done,
        Ok(_) => Ending::Out,
        Err(ending) => ending,
    }
}

/// Runs the schedule of a file's scenario over a server that installs a result once two clients report it, and answers the status with which
/// the program ends.
///
/// The words leave out the program's own name. They are `witness FILE`, or `witness FILE K` with the number of a client, without leading zeros,
/// that lies: in each result that it reports, every value has 1 more in its first attribute. Printed are how many actions were accepted, a line
/// for each position that two clients' reports differ in, and the committed world.
///
/// The status is the first of these that applies: 2 where the words are others, 4 where the file can't be read, 3 where it is no scenario, 10
/// where it has no client K, and 5 where the output failed; else it is 0, or 8 where memory ran out.
pub fn run_witness<F: Files, K: Sink, E: Sink>(
    alloc: Global,
    words: &[String],
    files: &mut F,
    out: &mut K,
    err: &mut E,
) -> u8
    ensures answers { Answers (asked_of (map string_bytes words.now)) (F.contents files.old) (F.sure files.old)
        (moment (counts (F.faults files.old) 0 0 (K.faults out.old)) (K.taken out.old) (E.taken err.old) (E.faults err.old))
        (moment (counts (F.faults files.new) 0 0 (K.faults out.new)) (K.taken out.new) (E.taken err.new) (E.faults err.new)) result }
    ensures apart { result ≡ 2 → files.new ≡ files.old }
{
    let asked = witnessing_of(words);
    let ending = decide(alloc, asked, files, out);
    tell(&ending, WORDS_LINE, file_of(asked), err);
    status_of(&ending)
}
