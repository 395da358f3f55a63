//! The printed lines of a witnessed run.
ghost use Rattle.std.specs.Prelude.{◌≡◌, ◌++◌, string_bytes, IfOk, OnOk};
ghost use Rattle.std.specs.List.{flat_map};
ghost use Rattle.sv_witness.specs.Lines.{report_part, dispute_line, run_lines};

use crate::report::{Dispute, Report};
use std::alloc::{AllocError, Global};
use sv_journal::append_values;
use sv_report::append_world;
use sv_world::Value;

fn append_report(report: &Report, out: &mut String) -> Result<(), AllocError>
    ensures { OnOk result (string_bytes out.new ≡ string_bytes out.old ++ report_part report.now) }
{
    let client = report.client.0;
    write!(out, "c{client} ")?;
    append_values(report.values.as_slice(), out)
}

fn append_dispute(dispute: &Dispute, out: &mut String) -> Result<(), AllocError>
    ensures { OnOk result (string_bytes out.new ≡ string_bytes out.old ++ dispute_line dispute.now) }
{
    let pos = dispute.pos;
    write!(out, "dispute {pos} ")?;
    append_report(&dispute.first, out)?;
    out.push_str(" ")?;
    append_report(&dispute.second, out)?;
    out.push_str("\n")
}

fn append_disputes(disputes: &[Dispute], out: &mut String) -> Result<(), AllocError>
    ensures { OnOk result (string_bytes out.new ≡ string_bytes out.old ++ flat_map dispute_line disputes.now) }
{
    for dispute in disputes {
        append_dispute(dispute, out)?;
    }
    Ok(())
}

/// The lines that tell how many actions were accepted, each dispute, and the committed values at the commit.
pub(crate) fn run_lines(
    alloc: Global,
    accepted: usize,
    disputes: &[Dispute],
    commit: u32,
    values: &[Value],
) -> Result<String, AllocError>
    ensures { IfOk result (λ text. string_bytes text ≡ run_lines accepted disputes.now commit values.now) }
{
    let mut out = String::new(alloc);
    write!(out, "accepted {accepted}\n")?;
    append_disputes(disputes, &mut out)?;
    append_world(commit, values, &mut out)?;
    Ok(out)
}
