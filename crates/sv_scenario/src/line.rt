//! The printed line of a fault.

ghost use Rattle.std.specs.Prelude.{◌≡◌, ◌++◌, string_bytes, IfOk, OnOk, OnErr};
ghost use Rattle.sv_scenario.specs.Lines.{text_cause_number, cause_text, line_at, fault_line};

use crate::{ScenarioCause, ScenarioFault};
use std::alloc::{AllocError, Global};
use std::fmt::Write;
use sv_text::TextCause;

fn text_cause_number(cause: TextCause) -> u8
    ensures { result ≡ text_cause_number cause }
{
    match cause {
        TextCause::Character => 1,
        TextCause::Number => 2,
        TextCause::Expected => 3,
        TextCause::NotRead => 4,
        TextCause::Order => 5,
        TextCause::TooMany => 6,
        TextCause::TooLarge => 7,
        TextCause::TooDeep => 8,
    }
}

fn cause_text(alloc: Global, cause: ScenarioCause) -> Result<String, AllocError>
    ensures { IfOk result (λ s. string_bytes s ≡ cause_text cause) }
{
    match cause {
        ScenarioCause::Size => format!(in alloc; "size"),
        ScenarioCause::Json => format!(in alloc; "json"),
        ScenarioCause::Kind => format!(in alloc; "kind"),
        ScenarioCause::Range => format!(in alloc; "range"),
        ScenarioCause::Key => format!(in alloc; "key"),
        ScenarioCause::Order => format!(in alloc; "order"),
        ScenarioCause::Object => format!(in alloc; "object"),
        ScenarioCause::Last => format!(in alloc; "last"),
        ScenarioCause::Text(fault) => {
            let number = text_cause_number(fault.cause);
            let place = fault.place;
            format!(in alloc; "text {place} {number}")
        }
        ScenarioCause::Action(cause) => {
            let number = cause.code();
            format!(in alloc; "action {number}")
        }
    }
}

fn line_at(alloc: Global, path: &str, cause: &str) -> Result<String, AllocError>
    ensures { IfOk result (λ s. string_bytes s ≡ line_at path.now cause.now) }
{
    let mut line = format!(in alloc; "scenario: ")?;
    line.push_str(path)?;
    line.push_str(": ")?;
    line.push_str(cause)?;
    line.push_str("\n")?;
    Ok(line)
}

fn fault_line(alloc: Global, fault: &ScenarioFault) -> Result<String, AllocError>
    ensures { IfOk result (λ s. string_bytes s ≡ fault_line fault.now) }
{
    let cause = cause_text(alloc, fault.cause)?;
    line_at(alloc, fault.path.as_str(), cause.as_str())
}

/// Appends the line that tells of a fault, all of it or nothing: `scenario: PATH: CAUSE`, and its end.
pub fn append_fault_line(fault: &ScenarioFault, out: &mut String) -> Result<(), AllocError>
    ensures ok { OnOk result (string_bytes out.new ≡ string_bytes out.old ++ fault_line fault.now) }
    ensures err { OnErr result (string_bytes out.new ≡ string_bytes out.old) }
{
    let line = fault_line(*out.allocator(), fault)?;
    out.push_str(&line)
}
