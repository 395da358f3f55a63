//! The top call of runs: played, replayed or made up.
ghost use Rattle.std.specs.Prelude.{◌≡◌, ◌≢◌, ◌↔◌, map, option_map, string_bytes, None, IfSome};
ghost use Rattle.sv_threads.specs.Moved.{moved};
ghost use Rattle.sv_threads.specs.Pairs.{pairing, SomeDiffered};
ghost use Rattle.sv_ending.specs.Calls.{moment};
ghost use Rattle.sv_ending.specs.Endings.{Ends, OrWords};
ghost use Rattle.sv_ending.specs.Reading.{held_by_file};
ghost use Rattle.sv_ending.specs.Statuses.{counts, Raises, status_of};
ghost use Rattle.sv_run.specs.Answers.{Answers, LeavesNet};
ghost use Rattle.sv_run.specs.Runs.{IsTextFor};
ghost use Rattle.sv_run.specs.Statuses.{EndsEarly, LeavesAlone, SettlesPairs};
ghost use Rattle.sv_run.specs.Words.{IsSized, asked_by, asked_of, named_by};

use crate::texts::text_for;
use crate::words::{RunCommand, WORDS_LINE, command_of, file_of};
use std::alloc::Global;
use std::sync::Wait;
use std::thread::Threads;
use sv_bytes::{Files, Sink, write_all};
use sv_ending::{Ending, PlayStage, status_of, tell};
use sv_link::{Crew, Gate, Net};

/// Does what is asked for, and tells how it ended.
fn decide<F: Files, N: Net, C: Crew, G: Gate + Sync, K: Sink, R: Threads + Wait + Sync>(
    stage: &PlayStage<'_, R, G>,
    command: Option<RunCommand<'_>>,
    files: &mut F,
    net: &mut N,
    crew: &mut C,
    out: &mut K,
) -> Ending
    requires sized { IfSome command IsSized }
    ensures words { (result ≡ Ending.Words) ↔ (option_map asked_by command.entry ≡ None) }
    ensures ends { Ends (IsTextFor (option_map asked_by command.entry) (held_by_file (F.contents files.old) (named_by (option_map asked_by command.entry)))
        (moved (N.settled net.old) (N.settled net.new) (C.ran crew.old) (C.ran crew.new)))
        (OrWords (EndsEarly (option_map asked_by command.entry) (held_by_file (F.contents files.old) (named_by (option_map asked_by command.entry))))) (K.taken out.old) (K.taken out.new) result }
    ensures raises { Raises (counts (F.faults files.old) (C.faults crew.old) (N.faults net.old) (K.faults out.old))
        (counts (F.faults files.new) (C.faults crew.new) (N.faults net.new) (K.faults out.new)) result }
    ensures sure { IfSome (named_by (option_map asked_by command.entry)) (λ name. F.sure files.old name → result ≢ Ending.File) }
    ensures apart { LeavesAlone (option_map asked_by command.entry) (status_of result) files.old files.new net.old net.new crew.old crew.new }
    ensures pairs { SettlesPairs (status_of result) (pairing (N.settled net.old) (N.unmatched net.old) (N.made net.old) (N.owed net.old)) (pairing (N.settled net.new) (N.unmatched net.new) (N.made net.new) (N.owed net.new)) }
    ensures calm { N.calm net.old → result ≡ Ending.Link → SomeDiffered (pairing (N.settled net.old) (N.unmatched net.old) (N.made net.old) (N.owed net.old)) (pairing (N.settled net.new) (N.unmatched net.new) (N.made net.new) (N.owed net.new)) }
{
    let Some(command) = command else {
        return Ending::Words;
    };
    match text_for(stage, command, files, net, crew) {
        Ok(text) if write_all(out, text.as_bytes()) => Ending::Done,
        Ok(_) => Ending::Out,
        Err(ending) => ending,
    }
}

/// Does what the words ask for, and answers the status with which the program ends.
///
/// The words leave out the program's own name. They are `play FILE`, `play FILE --brief`, `play FILE --watch`, `replay FILE`, or `load N` with
/// N from 1 to 192. A file is read up to one byte more than a scenario may have.
///
/// The status is the first of these that applies: 2 where the words are others, 4 where the file can't be read, 3 where it is no scenario, 7
/// where a thread can't be started, 6 where a link failed, and 5 where the output failed; else it is 0, or 8 where memory ran out. So a fault
/// is told as what it is, and never as "out of memory". All of the text is made before any of it is printed.
pub fn run<F: Files, N: Net, C: Crew, G: Gate + Sync, K: Sink, E: Sink, R: Threads + Wait + Sync>(
    rt: &R,
    alloc: Global,
    words: &[String],
    files: &mut F,
    net: &mut N,
    crew: &mut C,
    gate: &G,
    out: &mut K,
    err: &mut E,
) -> u8
    ensures answers { Answers (asked_of (map string_bytes words.now)) (F.contents files.old) (F.sure files.old)
        (moved (N.settled net.old) (N.settled net.new) (C.ran crew.old) (C.ran crew.new))
        (moment (counts (F.faults files.old) (C.faults crew.old) (N.faults net.old) (K.faults out.old)) (K.taken out.old) (E.taken err.old) (E.faults err.old))
        (moment (counts (F.faults files.new) (C.faults crew.new) (N.faults net.new) (K.faults out.new)) (K.taken out.new) (E.taken err.new) (E.faults err.new)) result }
    ensures apart { LeavesAlone (asked_of (map string_bytes words.now)) result files.old files.new net.old net.new crew.old crew.new }
    ensures pairs { LeavesNet (N.calm net.old) (pairing (N.settled net.old) (N.unmatched net.old) (N.made net.old) (N.owed net.old))
        (pairing (N.settled net.new) (N.unmatched net.new) (N.made net.new) (N.owed net.new)) result }
{
    let command = command_of(words);
    let stage = PlayStage { rt, alloc, gate };
    let ending = decide(&stage, command, files, net, crew, out);
    tell(&ending, WORDS_LINE, file_of(command), err);
    status_of(&ending)
}
