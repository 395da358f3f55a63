//! What a report is judged as, and what is answered then.
ghost use Rattle.std.specs.Prelude.{◌≡◌, ◌≤◌, codes, length, reverse, string_bytes, IfOk};
ghost use Rattle.sv_scenario.specs.Limits.{IsGoodScenario};
ghost use Rattle.sv_audit.specs.Judging.{report_limit, AnswersOrEnds, IsJudged, end_text};
ghost use Rattle.sv_audit.specs.Words.{Why, place_by, question_by};

use crate::ending::AuditEnding;
use crate::texts::why_text;
use crate::words::{ObjectAtPosition, Question};
use law_system::Played;
use std::alloc::{AllocError, Global};
use sv_check::{Verdict, check};
use sv_ending::Ending;
use sv_report::append_world;
use sv_scenario::Scenario;
use sv_why::{why, world_at_end};

/// The most bytes that a report may have.
pub(crate) const REPORT_SIZE: usize = 67_108_864;

/// What the report that was read tells, where it is right.
pub(crate) fn judged(
    alloc: Global,
    scenario: &Scenario,
    report: &[u8],
) -> Result<Played, AuditEnding>
    requires good { IsGoodScenario scenario.now }
    requires bound { length report.now ≤ report_limit }
    ensures { IsJudged scenario.now report.now result }
{
    if report.len() > REPORT_SIZE {
        return Err(AuditEnding::Wrong(0));
    }
    match check(alloc, scenario, report) {
        Ok(Verdict::Yes(played)) => Ok(played),
        Ok(Verdict::No { line }) => Err(AuditEnding::Wrong(line)),
        Err(_) => Err(AuditEnding::Plain(Ending::Memory)),
    }
}

/// Why the object has its value at the position, if the run has both.
fn explained(
    alloc: Global,
    scenario: &Scenario,
    played: &Played,
    place: ObjectAtPosition,
) -> Result<String, AuditEnding>
    ensures { AnswersOrEnds scenario.now played.now (Why (place_by place)) result }
{
    if place.object.0 >= scenario.world.shape.objects
        || place.pos as usize > played.journal.accepted_count()
    {
        return Err(AuditEnding::Plain(Ending::Range));
    }
    let why = why(alloc, scenario, played, place.object, place.pos)?;
    Ok(why_text(alloc, &played.journal, place.object, &why)?)
}

fn approval(alloc: Global) -> Result<String, AllocError>
    ensures { IfOk result (λ text. string_bytes text ≡ codes "yes\n") }
{
    let mut text = String::new(alloc);
    text.push_str("yes\n")?;
    Ok(text)
}

/// The world at the end of the run, as a report tells a world.
fn ended(alloc: Global, scenario: &Scenario, played: &Played) -> Result<String, AllocError>
    ensures { IfOk result (λ text. string_bytes text ≡ end_text scenario.now (reverse played.now.journal.entries)) }
{
    let (last, world) = world_at_end(alloc, scenario, played)?;
    let mut text = String::new(alloc);
    append_world(last, world.as_slice(), &mut text)?;
    Ok(text)
}

/// What is answered of a run.
pub(crate) fn answered(
    alloc: Global,
    scenario: &Scenario,
    played: &Played,
    question: Question,
) -> Result<String, AuditEnding>
    ensures { AnswersOrEnds scenario.now played.now (question_by question) result }
{
    match question {
        Question::Right => Ok(approval(alloc)?),
        Question::World => Ok(ended(alloc, scenario, played)?),
        Question::Why(place) => explained(alloc, scenario, played, place),
    }
}
