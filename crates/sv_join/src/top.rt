//! The top call of a client that joins another program's server.
ghost use Rattle.std.specs.Prelude.{◌≡◌, ◌≢◌, ◌↔◌, ℕ, map, option_map, string_bytes, None, Err, IfSome};
ghost use Rattle.sv_ending.specs.Calls.{moment};
ghost use Rattle.sv_ending.specs.Endings.{IsMade};
ghost use Rattle.sv_ending.specs.Statuses.{counts};
ghost use Rattle.sv_join.specs.Answers.{Answers};
ghost use Rattle.sv_join.specs.Joining.{passed};
ghost use Rattle.sv_join.specs.Statuses.{Ends, EndsEarly, IsText, Raises, ending_of};
ghost use Rattle.sv_join.specs.Words.{asked_by, asked_of};
ghost use Rattle.sv_ending.specs.declared.ending.Ending.TheVariants as plain;
ghost use Rattle.sv_join.specs.declared.ending.JoinEnding.TheVariants as endings;

use crate::ending::{JoinEnding, status_of, tell};
use crate::joining::{PlayedClient, join_as};
use crate::texts::join_text;
use crate::words::{Join, file_of, join_of};
use std::alloc::Global;
use sv_bytes::{Files, Sink, write_all};
use sv_door::Door;
use sv_ending::{Ending, scenario_in};

/// The text that tells the play of a client. It is whole before any of it is printed.
fn text_for<F: Files, D: Door>(
    alloc: Global,
    join: Join<'_>,
    files: &mut F,
    door: &mut D,
) -> Result<String, JoinEnding>
    ensures made { IsMade (IsText D.E.told D.E.faults D.E.calm (asked_by join.entry) (F.contents files.old join.entry.file.now) (passed (D.made door.old) (D.given door.old) (D.given door.new)))
        (EndsEarly D.E.told D.E.faults D.E.calm (asked_by join.entry) (F.contents files.old join.entry.file.now)
        (passed (D.made door.old) (D.given door.old) (D.given door.new)) (D.faults door.old) (D.faults door.new)) result }
    ensures raises { (k : ℕ) → Raises (counts (F.faults files.old) 0 (D.faults door.old) k) (counts (F.faults files.new) 0 (D.faults door.new) k) (ending_of result) }
    ensures sure_file { F.sure files.old join.entry.file.now → result ≢ Err (endings.Plain plain.File) }
    ensures sure_door { D.sure door.old join.entry.port → result ≢ Err (endings.Plain plain.Link) }
    ensures owed { D.owed door.new ≡ D.owed door.old }
{
    let scenario = scenario_in(alloc, join.file, files)?;
    if join.number as usize >= scenario.clients.len() {
        return Err(JoinEnding::Plain(Ending::Range));
    }
    let seat = PlayedClient {
        scenario: &scenario,
        number: join.number,
        port: join.port,
    };
    let joined = join_as(alloc, &seat, door)?;
    Ok(join_text(alloc, &joined)?)
}

/// Does what is asked for, and tells how it ended.
fn decide<F: Files, D: Door, K: Sink>(
    alloc: Global,
    join: Option<Join<'_>>,
    files: &mut F,
    door: &mut D,
    out: &mut K,
) -> JoinEnding
    ensures words { (result ≡ endings.Plain plain.Words) ↔ (option_map asked_by join.entry ≡ None) }
    ensures ends { IfSome (option_map asked_by join.entry) (λ a. Ends D.E.told D.E.faults D.E.calm a (F.contents files.old a.file)
        (passed (D.made door.old) (D.given door.old) (D.given door.new)) (D.faults door.old) (D.faults door.new) (K.taken out.old) (K.taken out.new) result) }
    ensures raises { Raises (counts (F.faults files.old) 0 (D.faults door.old) (K.faults out.old)) (counts (F.faults files.new) 0 (D.faults door.new) (K.faults out.new)) result }
    ensures sure_file { IfSome (option_map asked_by join.entry) (λ a. F.sure files.old a.file → result ≢ endings.Plain plain.File) }
    ensures sure_door { IfSome (option_map asked_by join.entry) (λ a. D.sure door.old a.port → result ≢ endings.Plain plain.Link) }
    ensures apart { option_map asked_by join.entry ≡ None → (files.new ≡ files.old) × (door.new ≡ door.old) × (K.taken out.new ≡ K.taken out.old) }
    ensures owed { D.owed door.new ≡ D.owed door.old }
{
    let Some(join) = join else {
        return JoinEnding::Plain(Ending::Words);
    };
    match text_for(alloc, join, files, door) {
        Ok(text) if write_all(out, text.as_bytes()) => JoinEnding::Plain(Ending::Done),
        Ok(_) => JoinEnding::Plain(Ending::Out),
        Err(ending) => ending,
    }
}

/// Plays a client of a scenario against the server of another program, and answers the status with which the program ends.
///
/// The words leave out the program's own name. They are `join FILE K PORT`, with the number K of the client and a port from 1 to 65535, both
/// without leading zeros. The client connects once for each of its sessions, and tells each change of its views, and how many actions it
/// made.
///
/// The status is the first of these that applies: 2 where the words are others, 4 where the file can't be read, 3 where it is no scenario, 10
/// where it has no client K, 6 where a connection can't be made or failed, 11 where the server's reply is refused, 12 where the server closed
/// a connection over which a reply was awaited, and 5 where the output failed; else it is 0, or 8 where memory ran out. All ends are given
/// back before it is known.
pub fn run_join<F: Files, D: Door, K: Sink, E: Sink>(
    alloc: Global,
    words: &[String],
    files: &mut F,
    door: &mut D,
    out: &mut K,
    err: &mut E,
) -> u8
    ensures answers { Answers D.E.told D.E.faults D.E.calm (asked_of (map string_bytes words.now)) (F.contents files.old) (F.sure files.old) (D.sure door.old)
        (passed (D.made door.old) (D.given door.old) (D.given door.new))
        (moment (counts (F.faults files.old) 0 (D.faults door.old) (K.faults out.old)) (K.taken out.old) (E.taken err.old) (E.faults err.old))
        (moment (counts (F.faults files.new) 0 (D.faults door.new) (K.faults out.new)) (K.taken out.new) (E.taken err.new) (E.faults err.new)) result }
    ensures apart { result ≡ 2 → (files.new ≡ files.old) × (door.new ≡ door.old) }
    // All ends that were made were given back.
    ensures back { D.owed door.new ≡ D.owed door.old }
{
    let join = join_of(words);
    let ending = decide(alloc, join, files, door, out);
    tell(&ending, file_of(join), err);
    status_of(&ending)
}
