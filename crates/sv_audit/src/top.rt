//! The top call of the checker of reports.
ghost use Rattle.std.specs.Prelude.{◌≡◌, ◌≢◌, ◌↔◌, ℕ, true, map, option_map, string_bytes, None, Err, IfSome};
ghost use Rattle.sv_ending.specs.Calls.{moment};
ghost use Rattle.sv_ending.specs.Endings.{IsMade};
ghost use Rattle.sv_ending.specs.Statuses.{counts};
ghost use Rattle.sv_ending.specs.declared.ending.Ending.TheVariants as plain;
ghost use Rattle.sv_audit.specs.Answers.{Answers};
ghost use Rattle.sv_audit.specs.Judging.{IsText};
ghost use Rattle.sv_audit.specs.Statuses.{Ends, EndsEarly, IsReportRead, Raises, ending_of, is_of_both};
ghost use Rattle.sv_audit.specs.Words.{asked_by, asked_of, words_line};
ghost use Rattle.sv_audit.specs.declared.ending.AuditEnding.TheVariants as endings;

use crate::ending::{AuditEnding, status_of, tell};
use crate::judging::{answered, judged};
use crate::reading::read_both;
use crate::words::{Audit, audit_of, words_line};
use std::alloc::Global;
use sv_bytes::{Files, Sink, write_all};
use sv_ending::{Ending, given_scenario};

/// The text that answers what is asked. It is whole before any of it is printed.
fn text_for<F: Files>(alloc: Global, audit: Audit<'_>, files: &mut F) -> Result<String, AuditEnding>
    ensures made { IsMade (IsText (F.contents files.old audit.entry.scenario.now) (F.contents files.old audit.entry.report.now) (asked_by audit.entry).question)
        (EndsEarly (F.contents files.old audit.entry.scenario.now) (F.contents files.old audit.entry.report.now) (asked_by audit.entry).question) result }
    ensures raises { (k : ℕ) → Raises (counts (F.faults files.old) 0 0 k) (counts (F.faults files.new) 0 0 k) (ending_of result) }
    ensures sure_scenario { F.sure files.old audit.entry.scenario.now → result ≢ Err (endings.Plain plain.File) }
    ensures sure_report { F.sure files.old audit.entry.report.now → result ≢ Err endings.Report }
    ensures read { is_of_both (ending_of result) ≡ true → IsReportRead (F.contents files.old audit.entry.report.now) (F.left files.new) }
{
    let both = read_both(alloc, audit, files)?;
    let scenario = given_scenario(alloc, &both.scenario)?;
    let played = judged(alloc, &scenario, &both.report)?;
    answered(alloc, &scenario, &played, audit.question)
}

/// Does what is asked for, and tells how it ended.
fn decide<F: Files, K: Sink>(
    alloc: Global,
    audit: Option<Audit<'_>>,
    files: &mut F,
    out: &mut K,
) -> AuditEnding
    ensures words { (result ≡ endings.Plain plain.Words) ↔ (option_map asked_by audit.entry ≡ None) }
    ensures ends { IfSome (option_map asked_by audit.entry) (λ a. Ends (F.contents files.old a.scenario) (F.contents files.old a.report) a.question (K.taken out.old) (K.taken out.new) result) }
    ensures raises { Raises (counts (F.faults files.old) 0 0 (K.faults out.old)) (counts (F.faults files.new) 0 0 (K.faults out.new)) result }
    ensures sure_scenario { IfSome (option_map asked_by audit.entry) (λ a. F.sure files.old a.scenario → result ≢ endings.Plain plain.File) }
    ensures sure_report { IfSome (option_map asked_by audit.entry) (λ a. F.sure files.old a.report → result ≢ endings.Report) }
    ensures read { is_of_both result ≡ true → IfSome (option_map asked_by audit.entry) (λ a. IsReportRead (F.contents files.old a.report) (F.left files.new)) }
    ensures apart { option_map asked_by audit.entry ≡ None → (files.new ≡ files.old) × (K.taken out.new ≡ K.taken out.old) }
{
    let Some(audit) = audit else {
        return AuditEnding::Plain(Ending::Words);
    };
    match text_for(alloc, audit, files) {
        Ok(text) if write_all(out, text.as_bytes()) => AuditEnding::Plain(Ending::Done),
        Ok(_) => AuditEnding::Plain(Ending::Out),
        Err(ending) => ending,
    }
}

/// Checks a report, or tells why an object has its value in one, or the world at its end, and answers the status with which the program ends.
///
/// The words leave out the program's own name. They are `check SCENARIO REPORT`, `world SCENARIO REPORT` or `why SCENARIO REPORT OBJECT
/// POSITION`, with both numbers without leading zeros. The report is right where it is that of a consistent run of the scenario, as `replay`
/// and `play` print it, or what `serve` prints of a legal journal. `check` prints `yes` of a right one. `why` prints the actions that the
/// object's value at the position comes from, and the value; `world` prints the last position, and the value that each object has after all
/// accepted actions in order.
///
/// The status is the first of these that applies: 2 where the words are others, 4 where a file can't be read, 3 where the first is no
/// scenario, 9 where the report is not right, or has more than 67,108,864 bytes, 10 where the world has no such object or the run has
/// accepted no such position, and 5 where the output failed; else it is 0, or 8 where memory ran out. Both files are read before any of them
/// is judged. With status 9 the report's first wrong line is told, where the place after the last line counts as a line, or line 0 of a report
/// that has too many bytes.
pub fn run_check<F: Files, K: Sink, E: Sink>(
    alloc: Global,
    words: &[String],
    files: &mut F,
    out: &mut K,
    err: &mut E,
) -> u8
    ensures answers { Answers (asked_of (map string_bytes words.now)) (F.contents files.old) (F.sure files.old) (words_line (map string_bytes words.now)) (F.left files.new)
        (moment (counts (F.faults files.old) 0 0 (K.faults out.old)) (K.taken out.old) (E.taken err.old) (E.faults err.old))
        (moment (counts (F.faults files.new) 0 0 (K.faults out.new)) (K.taken out.new) (E.taken err.new) (E.faults err.new)) result }
    ensures apart { result ≡ 2 → files.new ≡ files.old }
{
    let audit = audit_of(words);
    let ending = decide(alloc, audit, files, out);
    tell(&ending, words_line(words), audit, err);
    status_of(&ending)
}
