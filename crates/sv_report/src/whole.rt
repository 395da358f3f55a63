//! The whole report.
ghost use Rattle.std.specs.Prelude.{◌≡◌, ◌++◌, string_bytes, IfOk, OnOk};
ghost use Rattle.sv_scenario.specs.Limits.{IsGoodScenario};
ghost use Rattle.law_system.specs.Records.{IsPlayed};
ghost use Rattle.sv_report.specs.Report.{report_text};

use crate::trace::append_traces;
use crate::values::append_world;
use law_system::Played;
use std::alloc::{AllocError, Global};
use sv_journal::{Journal, legal_relays_name_accepted, print_journal};
use sv_scenario::Scenario;

/// Appends the text of a record of the scenario's traffic.
fn append_report(
    alloc: Global,
    scenario: &Scenario,
    played: &Played,
    out: &mut String,
) -> Result<(), AllocError>
    requires { IsPlayed scenario.now played.now }
    ensures { OnOk result (string_bytes out.new ≡ string_bytes out.old ++ report_text scenario.now.world played.now.journal.entries played.now.traces) }
{
    legal_relays_name_accepted();
    print_journal(played.shape, &played.journal, out)?;
    let entries = played.journal.entries();
    append_traces(alloc, played.shape, entries, played.traces.as_slice(), out)?;
    append_world(played.commit, played.committed.as_slice(), out)
}

/// The report of what was played: the journal, what each client did, and the committed world. It fails only where memory runs out.
///
/// Each client does its trace again, so that what it kept and saw at each event is told as it was then.
pub fn report(alloc: Global, scenario: &Scenario, played: &Played) -> Result<String, AllocError>
    requires good { IsGoodScenario scenario.now }
    requires played { IsPlayed scenario.now played.now }
    ensures { IfOk result (λ text. string_bytes text ≡ report_text scenario.now.world played.now.journal.entries played.now.traces) }
{
    let mut out = String::new(alloc);
    append_report(alloc, scenario, played, &mut out)?;
    Ok(out)
}
