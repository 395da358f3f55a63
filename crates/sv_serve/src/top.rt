//! The top call of a server by itself.
ghost use Rattle.std.specs.Prelude.{◌≡◌, ◌≢◌, ◌↔◌, map, option_map, string_bytes, None, IfSome};
ghost use Rattle.sv_ending.specs.Calls.{moment};
ghost use Rattle.sv_ending.specs.Endings.{Ends, OrWords};
ghost use Rattle.sv_ending.specs.Reading.{held_by_file};
ghost use Rattle.sv_ending.specs.Statuses.{counts, Raises, status_of};
ghost use Rattle.sv_threads.specs.Moved.{moved};
ghost use Rattle.sv_serve.specs.Answers.{Answers};
ghost use Rattle.sv_serve.specs.Words.{asked_by, asked_of, named_by};
ghost use Rattle.sv_serve.specs.Giving.{doorway};
ghost use Rattle.sv_serve.specs.Statuses.{EndsEarly, GivesBackBut, IsText, LeavesAlone};

use crate::texts::served_text;
use crate::words::{ServeCommand, WORDS_LINE, command_of, file_of};
use std::alloc::Global;
use std::sync::Wait;
use std::thread::Threads;
use sv_bytes::{Files, Sink, write_all};
use sv_door::Door;
use sv_ending::{Ending, PlayStage, status_of, tell};
use sv_link::{Crew, Gate};

/// Serves what is asked for, and tells how it ended.
fn decide<F: Files, D: Door, C: Crew, G: Gate + Sync, K: Sink, R: Threads + Wait + Sync>(
    stage: &PlayStage<'_, R, G>,
    command: Option<ServeCommand<'_>>,
    files: &mut F,
    door: &mut D,
    crew: &mut C,
    out: &mut K,
) -> Ending
    ensures words { (result ≡ Ending.Words) ↔ (option_map asked_by command.entry ≡ None) }
    ensures ends { Ends (IsText (held_by_file (F.contents files.old) (named_by (option_map asked_by command.entry))) (moved (D.given door.old) (D.given door.new) (C.ran crew.old) (C.ran crew.new)))
        (OrWords (EndsEarly (held_by_file (F.contents files.old) (named_by (option_map asked_by command.entry))))) (K.taken out.old) (K.taken out.new) result }
    ensures raises { Raises (counts (F.faults files.old) (C.faults crew.old) (D.faults door.old) (K.faults out.old))
        (counts (F.faults files.new) (C.faults crew.new) (D.faults door.new) (K.faults out.new)) result }
    ensures sure { IfSome (named_by (option_map asked_by command.entry)) (λ name. F.sure files.old name → result ≢ Ending.File) }
    ensures certain { IfSome (option_map asked_by command.entry) (λ asked. D.sure door.old asked.port → result ≢ Ending.Link) }
    ensures apart { LeavesAlone (status_of result) files.old files.new door.old door.new crew.old crew.new }
    ensures back { GivesBackBut (status_of result) (C.ran crew.old) (C.ran crew.new)
        (doorway (D.given door.old) (D.made door.old) (D.owed door.old)) (doorway (D.given door.new) (D.made door.new) (D.owed door.new)) }
{
    let Some(command) = command else {
        return Ending::Words;
    };
    match served_text(stage, command, files, door, crew) {
        Ok(text) if write_all(out, text.as_bytes()) => Ending::Done,
        Ok(_) => Ending::Out,
        Err(ending) => ending,
    }
}

/// Serves the sessions of a file's scenario to whoever connects, and answers the status with which the program ends.
///
/// The words leave out the program's own name. They are `serve FILE PORT`, with PORT from 1 to 65535. It accepts a connection for each
/// session, in the order of their numbers, serves all of them at once, and prints the journal and the commit once all are over. It waits for
/// its peers. What a peer sends, or a fault at its connection, ends its session alone and gives no status.
///
/// The status is the first of these that applies: 2 where the words are others, 4 where the file can't be read, 3 where it is no scenario, 7
/// where a thread can't be started, 6 where a connection could not be made, and then no session is served, and 5 where the output failed; else
/// it is 0, or 8 where memory ran out, here or in a session. All of the text is made before any of it is printed.
pub fn run_serve<
    F: Files,
    D: Door,
    C: Crew,
    G: Gate + Sync,
    K: Sink,
    E: Sink,
    R: Threads + Wait + Sync,
>(
    rt: &R,
    alloc: Global,
    words: &[String],
    files: &mut F,
    door: &mut D,
    crew: &mut C,
    gate: &G,
    out: &mut K,
    err: &mut E,
) -> u8
    ensures answers { Answers (asked_of (map string_bytes words.now)) (F.contents files.old) (F.sure files.old) (D.sure door.old)
        (moved (D.given door.old) (D.given door.new) (C.ran crew.old) (C.ran crew.new))
        (moment (counts (F.faults files.old) (C.faults crew.old) (D.faults door.old) (K.faults out.old)) (K.taken out.old) (E.taken err.old) (E.faults err.old))
        (moment (counts (F.faults files.new) (C.faults crew.new) (D.faults door.new) (K.faults out.new)) (K.taken out.new) (E.taken err.new) (E.faults err.new)) result }
    ensures apart { LeavesAlone result files.old files.new door.old door.new crew.old crew.new }
    ensures back { GivesBackBut result (C.ran crew.old) (C.ran crew.new)
        (doorway (D.given door.old) (D.made door.old) (D.owed door.old)) (doorway (D.given door.new) (D.made door.new) (D.owed door.new)) }
{
    let command = command_of(words);
    let stage = PlayStage { rt, alloc, gate };
    let ending = decide(&stage, command, files, door, crew, out);
    tell(&ending, WORDS_LINE, file_of(command), err);
    status_of(&ending)
}
