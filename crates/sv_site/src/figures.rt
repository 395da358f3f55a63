//! The standing of the server, as it is told.
ghost use Rattle.std.specs.Prelude.{◌≡◌, ◌++◌, ◌-◌, codes, string_bytes, OnOk};
ghost use Rattle.sv_site.specs.Figures.{figure, sessions_text, actions_text, commit_text, bytes_text, log_text, process_text, status_text};

use crate::counts::Counts;
use std::alloc::AllocError;

/// What `/status` tells.
#[derive(Clone, Copy, Debug, Default, Drop, PartialEq, Eq)]
pub struct Figures {
    pub clients: u64,
    pub sessions: u64,
    pub open: u64,
    pub entries: u64,
    pub accepted: u64,
    pub commit: u64,
    pub log_bytes: u64,
    pub syncs: u64,
    pub seconds: u64,
    pub counts: Counts,
}

// Appends a name with its number, and what stands behind it.
#[tactic(auto, unfolding(crate::specs::Figures::figure))]
fn append(name: &str, number: u64, behind: &str, out: &mut String) -> Result<(), AllocError>
    ensures { OnOk result (string_bytes out.new ≡ string_bytes out.old ++ figure name.now number behind.now) }
{
    write!(out, "\"{name}\":{number}{behind}")
}

#[tactic(auto, unfolding(crate::specs::Figures::sessions_text))]
fn append_sessions(figures: &Figures, out: &mut String) -> Result<(), AllocError>
    ensures { OnOk result (string_bytes out.new ≡ string_bytes out.old ++ sessions_text figures.now) }
{
    append("clients", figures.clients, ",", out)?;
    append("sessions", figures.sessions, ",", out)?;
    append("open", figures.open, ",", out)
}

#[tactic(auto, unfolding(crate::specs::Figures::actions_text))]
fn append_actions(figures: &Figures, out: &mut String) -> Result<(), AllocError>
    ensures { OnOk result (string_bytes out.new ≡ string_bytes out.old ++ actions_text figures.now) }
{
    append("entries", figures.entries, ",", out)?;
    append("accepted", figures.accepted, ",", out)?;
    append("dropped", figures.counts.dropped, ",", out)?;
    append("denied", figures.counts.denied, ",", out)
}

#[tactic(auto, unfolding(crate::specs::Figures::commit_text))]
fn append_commit(figures: &Figures, out: &mut String) -> Result<(), AllocError>
    ensures { OnOk result (string_bytes out.new ≡ string_bytes out.old ++ commit_text figures.now) }
{
    let uncommitted = figures.accepted.saturating_sub(figures.commit);
    append("commit", figures.commit, ",", out)?;
    append("uncommitted", uncommitted, ",", out)
}

#[tactic(auto, unfolding(crate::specs::Figures::bytes_text))]
fn append_bytes(figures: &Figures, out: &mut String) -> Result<(), AllocError>
    ensures { OnOk result (string_bytes out.new ≡ string_bytes out.old ++ bytes_text figures.now) }
{
    let reported = figures.counts.reported_by_steward;
    append("reported_by_steward", reported, ",", out)?;
    append("bytes_in", figures.counts.bytes_in, ",", out)?;
    append("bytes_out", figures.counts.bytes_out, ",", out)
}

#[tactic(auto, unfolding(crate::specs::Figures::log_text))]
fn append_log(figures: &Figures, out: &mut String) -> Result<(), AllocError>
    ensures { OnOk result (string_bytes out.new ≡ string_bytes out.old ++ log_text figures.now) }
{
    append("log_bytes", figures.log_bytes, ",", out)?;
    append("syncs", figures.syncs, ",", out)
}

#[tactic(auto, unfolding(crate::specs::Figures::process_text))]
fn append_process(figures: &Figures, out: &mut String) -> Result<(), AllocError>
    ensures { OnOk result (string_bytes out.new ≡ string_bytes out.old ++ process_text figures.now) }
{
    let refused = figures.counts.refused_connections;
    append("refused_connections", refused, ",", out)?;
    append("seconds", figures.seconds, "}\n", out)
}

/// Appends the figures as a JSON object.
pub fn append_figures(figures: &Figures, out: &mut String) -> Result<(), AllocError>
    ensures { OnOk result (string_bytes out.new ≡ string_bytes out.old ++ status_text figures.now) }
{
    out.push('{')?;
    append_sessions(figures, out)?;
    append_actions(figures, out)?;
    append_commit(figures, out)?;
    append_bytes(figures, out)?;
    append_log(figures, out)?;
    append_process(figures, out)
}
