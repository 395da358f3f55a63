//! The brief summary.
ghost use Rattle.std.specs.Prelude.{◌≡◌, ◌++◌, string_bytes, IfOk, OnOk};
ghost use Rattle.sv_scenario.specs.Limits.{IsGoodScenario};
ghost use Rattle.law_system.specs.Records.{IsPlayed};
ghost use Rattle.sv_report.specs.Summary.{summary_text, size_lines, count_lines};

use crate::counts::made_in;
use crate::rows::dropped_in;
use crate::totals::append_totals;
use law_system::Played;
use std::alloc::{AllocError, Global};
use sv_scenario::{Scenario, sessions_of};

fn append_sizes(
    clients: usize,
    sessions: u16,
    objects: u16,
    out: &mut String,
) -> Result<(), AllocError>
    ensures { OnOk result (string_bytes out.new ≡ string_bytes out.old ++ size_lines clients sessions objects) }
{
    write!(
        out,
        "clients {clients}\nsessions {sessions}\nobjects {objects}\n"
    )
}

fn append_counts(
    made: usize,
    accepted: usize,
    dropped: usize,
    commit: u32,
    out: &mut String,
) -> Result<(), AllocError>
    ensures { OnOk result (string_bytes out.new ≡ string_bytes out.old ++ count_lines made accepted dropped commit) }
{
    write!(
        out,
        "made {made}\naccepted {accepted}\ndropped {dropped}\ncommit {commit}\n"
    )
}

/// Appends the counts of what was played, and the total of each attribute.
fn append_summary(
    alloc: Global,
    scenario: &Scenario,
    played: &Played,
    out: &mut String,
) -> Result<(), AllocError>
    requires good { IsGoodScenario scenario.now }
    requires played { IsPlayed scenario.now played.now }
    ensures { OnOk result (string_bytes out.new ≡ string_bytes out.old ++ summary_text scenario.now played.now.journal.entries played.now.traces) }
{
    let shape = scenario.world.shape;
    append_sizes(
        scenario.clients.len(),
        sessions_of(scenario),
        shape.objects,
        out,
    )?;
    let made = made_in(played.traces.as_slice());
    let dropped = dropped_in(alloc, played.journal.entries())?;
    append_counts(
        made,
        played.journal.accepted_count(),
        dropped,
        played.commit,
        out,
    )?;
    append_totals(shape.attrs, played.committed.as_slice(), out)
}

/// The brief summary of what was played: how much there is of what, and the sum of each attribute over the committed world. Only want of
/// memory can hinder it.
pub fn brief(alloc: Global, scenario: &Scenario, played: &Played) -> Result<String, AllocError>
    requires good { IsGoodScenario scenario.now }
    requires played { IsPlayed scenario.now played.now }
    ensures { IfOk result (λ text. string_bytes text ≡ summary_text scenario.now played.now.journal.entries played.now.traces) }
{
    let mut out = String::new(alloc);
    append_summary(alloc, scenario, played, &mut out)?;
    Ok(out)
}
