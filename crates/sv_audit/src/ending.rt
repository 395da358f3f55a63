//! How a call ends.
ghost use Rattle.std.specs.Prelude.{◌≡◌};
ghost use Rattle.std.specs.Option.{option_copied, option_map};
ghost use Rattle.sv_bytes.specs.Writing.{GrewOrRose};
ghost use Rattle.sv_audit.specs.Statuses.{audit_line, status_of, wrong_line};
ghost use Rattle.sv_audit.specs.Words.{asked_by};

use crate::words::{Audit, report_named, scenario_named};
use std::alloc::AllocError;
use sv_bytes::Sink;
use sv_ending::{Ending, tell_file, tell_number};

/// How a call ends.
#[derive(Debug, Drop)]
pub(crate) enum AuditEnding {
    /// As any call of the program may. A file that can't be read is the scenario's, and a range is the run's: it has no such object or position.
    Plain(Ending),

    /// The report can't be read.
    Report,

    /// The report is not right: its first wrong line, or 0 where it is too long.
    Wrong(u32),
}

impl From<Ending> for AuditEnding {
    ghost use Rattle.std.specs.Prelude.{◌≡◌};
    ghost use Rattle.sv_audit.specs.declared.ending.AuditEnding.TheVariants as endings;

    ghost from_gives = { λ ending e. e ≡ endings.Plain ending };

    fn from(ending: Ending) -> AuditEnding {
        AuditEnding::Plain(ending)
    }
}

impl From<AllocError> for AuditEnding {
    ghost use Rattle.std.specs.Prelude.{◌≡◌};
    ghost use Rattle.sv_ending.specs.declared.ending.Ending.TheVariants as plain;
    ghost use Rattle.sv_audit.specs.declared.ending.AuditEnding.TheVariants as endings;

    ghost from_gives = { λ _ e. e ≡ endings.Plain plain.Memory };

    fn from(_e: AllocError) -> AuditEnding {
        AuditEnding::Plain(Ending::Memory)
    }
}

fn tell_wrong<E: Sink>(line: u32, err: &mut E)
    ensures { GrewOrRose (E.taken err.old) (E.taken err.new) (E.faults err.old) (E.faults err.new) (wrong_line line) }
{
    tell_number(b"wrong line ", line, err)
}

/// Writes the line that tells of an ending. It takes no memory.
pub(crate) fn tell<E: Sink>(
    ending: &AuditEnding,
    words_line: &[u8],
    audit: Option<Audit<'_>>,
    err: &mut E,
)
    ensures { GrewOrRose (E.taken err.old) (E.taken err.new) (E.faults err.old) (E.faults err.new) (audit_line words_line.now (option_map asked_by audit.entry) ending.now) }
{
    match ending {
        AuditEnding::Plain(ending) => {
            sv_ending::tell(ending, words_line, scenario_named(audit), err)
        }
        AuditEnding::Report => tell_file(report_named(audit).unwrap_or(""), err),
        AuditEnding::Wrong(line) => tell_wrong(*line, err),
    }
}

/// The status with which the program ends.
pub(crate) fn status_of(ending: &AuditEnding) -> u8
    ensures { result ≡ status_of ending.now }
{
    match ending {
        AuditEnding::Plain(ending) => sv_ending::status_of(ending),
        AuditEnding::Report => 4,
        AuditEnding::Wrong(_) => 9,
    }
}
