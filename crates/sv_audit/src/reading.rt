//! Both files are read before any of them is judged.
ghost use Rattle.std.specs.Prelude.{◌≢◌, ℕ, ◌≤◌, Err, IfOk, IfErr, length};
ghost use Rattle.sv_ending.specs.Reading.{IsFileFront};
ghost use Rattle.sv_ending.specs.Statuses.{counts};
ghost use Rattle.sv_ending.specs.declared.ending.Ending.TheVariants as plain;
ghost use Rattle.sv_audit.specs.Judging.{report_limit, IsReportFront};
ghost use Rattle.sv_audit.specs.Statuses.{AreUnread, IsReportRead, Raises, ending_of};
ghost use Rattle.sv_audit.specs.declared.ending.AuditEnding.TheVariants as endings;

use crate::ending::AuditEnding;
use crate::judging::REPORT_SIZE;
use crate::words::Audit;
use std::alloc::Global;
use sv_bytes::{FileFault, Files, read_all};
use sv_ending::{Ending, scenario_bytes};

/// A report is read so far and no further: one byte more than one may have.
const REPORT_LIMIT: usize = REPORT_SIZE + 1;

/// What was read of both files.
#[derive(Debug, Drop)]
pub(crate) struct Both {
    pub(crate) scenario: Vec<u8>,
    pub(crate) report: Vec<u8>,
}

fn report_bytes<F: Files>(alloc: Global, file: &str, files: &mut F) -> Result<Vec<u8>, AuditEnding>
    ensures front { IfOk result (λ bytes. IsReportFront (F.contents files.old file.now) bytes.items) }
    ensures bound { IfOk result (λ bytes. length bytes.items ≤ report_limit) }
    ensures left { IfOk result (λ _. IsReportRead (F.contents files.old file.now) (F.left files.new)) }
    ensures unread { IfErr result AreUnread }
    ensures raises { (k : ℕ) → Raises (counts (F.faults files.old) 0 0 k) (counts (F.faults files.new) 0 0 k) (ending_of result) }
    ensures sure { F.sure files.old file.now → result ≢ Err endings.Report }
    ensures other { result ≢ Err (endings.Plain plain.File) }
{
    match read_all(alloc, files, file, REPORT_LIMIT) {
        Ok(bytes) => Ok(bytes),
        Err(FileFault::Failed) => Err(AuditEnding::Report),
        Err(FileFault::Memory) => Err(AuditEnding::Plain(Ending::Memory)),
    }
}

/// What is read of both files, first of the scenario's.
pub(crate) fn read_both<F: Files>(
    alloc: Global,
    audit: Audit<'_>,
    files: &mut F,
) -> Result<Both, AuditEnding>
    ensures scenario { IfOk result (λ both. IsFileFront (F.contents files.old audit.entry.scenario.now) both.scenario.items) }
    ensures report { IfOk result (λ both. IsReportFront (F.contents files.old audit.entry.report.now) both.report.items) }
    ensures bound { IfOk result (λ both. length both.report.items ≤ report_limit) }
    ensures left { IfOk result (λ _. IsReportRead (F.contents files.old audit.entry.report.now) (F.left files.new)) }
    ensures unread { IfErr result AreUnread }
    ensures raises { (k : ℕ) → Raises (counts (F.faults files.old) 0 0 k) (counts (F.faults files.new) 0 0 k) (ending_of result) }
    ensures sure_scenario { F.sure files.old audit.entry.scenario.now → result ≢ Err (endings.Plain plain.File) }
    ensures sure_report { F.sure files.old audit.entry.report.now → result ≢ Err endings.Report }
{
    let scenario = scenario_bytes(alloc, audit.scenario, files)?;
    let report = report_bytes(alloc, audit.report, files)?;
    Ok(Both { scenario, report })
}
