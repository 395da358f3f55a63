//! What the words of a call ask for.
ghost use Rattle.std.specs.Prelude.{◌≡◌, ◌-◌, ◌^◌, map, string_bytes, option_map};
ghost use Rattle.std.specs.Option.{option_copied};
ghost use Rattle.sv_world.specs.Limits.{most_objects};
ghost use Rattle.sv_ending.specs.Numbers.{number_between};
ghost use Rattle.sv_audit.specs.Words.{asked_by, asked_if, asked_of, line_for, place_by, place_if, plain_question, question_by, report_named, scenario_named, why_if, words_line};

use sv_ending::number_in;
use sv_world::{MOST_OBJECTS, ObjectId};

/// The line that tells which words there are.
const WORDS_LINE: &[u8] = b"words: check SCENARIO REPORT\n";

/// An object, and a position among the accepted actions.
#[derive(Clone, Copy, Debug, Drop)]
pub(crate) struct ObjectAtPosition {
    pub(crate) object: ObjectId,
    pub(crate) pos: u32,
}

/// What is asked of a report.
#[derive(Clone, Copy, Debug, Drop)]
pub(crate) enum Question {
    /// Whether it is right.
    Right,
    /// The world at its end.
    World,
    /// Why the object has its value at the position.
    Why(ObjectAtPosition),
}

/// What is asked for, of a scenario and a report.
#[derive(Clone, Copy, Debug, Drop)]
pub(crate) struct Audit<'a> {
    pub(crate) scenario: &'a str,
    pub(crate) report: &'a str,
    pub(crate) question: Question,
}

fn place_of(object: &str, pos: &str) -> Option<ObjectAtPosition>
    ensures { option_map place_by result ≡ place_if (number_between 0 most_objects object.now) (number_between 0 (2 ^ 32 - 1) pos.now) }
{
    let object = number_in(object, 0, MOST_OBJECTS as u32)?;
    let pos = number_in(pos, 0, u32::MAX)?;
    Some(ObjectAtPosition {
        object: ObjectId(object as u16),
        pos,
    })
}

fn why_of<'a>(
    scenario: &'a str,
    report: &'a str,
    place: Option<ObjectAtPosition>,
) -> Option<Audit<'a>>
    ensures { option_map asked_by result ≡ why_if scenario.entry.now report.entry.now (option_map place_by place) }
{
    Some(Audit {
        scenario,
        report,
        question: Question::Why(place?),
    })
}

fn plain_of(word: &str) -> Option<Question>
    ensures { option_map question_by result ≡ plain_question word.now }
{
    match word {
        "check" => Some(Question::Right),
        "world" => Some(Question::World),
        _ => None,
    }
}

fn audit_by<'a>(question: Option<Question>, scenario: &'a str, report: &'a str) -> Option<Audit<'a>>
    ensures { option_map asked_by result ≡ asked_if (option_map question_by question) scenario.entry.now report.entry.now }
{
    Some(Audit {
        scenario,
        report,
        question: question?,
    })
}

/// What the words ask for: `check SCENARIO REPORT`, `world SCENARIO REPORT` or `why SCENARIO REPORT OBJECT POSITION`.
pub(crate) fn audit_of(words: &[String]) -> Option<Audit<'_>>
    ensures { option_map asked_by result ≡ asked_of (map string_bytes words.now) }
{
    match words {
        [word, scenario, report] => audit_by(
            plain_of(word.as_str()),
            scenario.as_str(),
            report.as_str(),
        ),
        [word, scenario, report, object, pos] if word.as_str() == "why" => why_of(
            scenario.as_str(),
            report.as_str(),
            place_of(object.as_str(), pos.as_str()),
        ),
        _ => None,
    }
}

/// The scenario's file.
pub(crate) fn scenario_named<'a>(audit: Option<Audit<'a>>) -> Option<&'a str>
    ensures { option_copied result ≡ scenario_named (option_map asked_by audit.entry) }
{
    Some(audit?.scenario)
}

/// The report's file.
pub(crate) fn report_named<'a>(audit: Option<Audit<'a>>) -> Option<&'a str>
    ensures { option_copied result ≡ report_named (option_map asked_by audit.entry) }
{
    Some(audit?.report)
}

fn line_for(word: &str) -> &'static [u8]
    ensures { result.now ≡ line_for word.now }
{
    match word {
        "why" => b"words: why SCENARIO REPORT OBJECT POSITION\n",
        "world" => b"words: world SCENARIO REPORT\n",
        _ => WORDS_LINE,
    }
}

/// The line that tells which words the first word goes with.
pub(crate) fn words_line(words: &[String]) -> &'static [u8]
    ensures { result.now ≡ words_line (map string_bytes words.now) }
{
    match words {
        [word, ..] => line_for(word.as_str()),
        [] => WORDS_LINE,
    }
}
