//! A law of what servers are opened with.
ghost use Rattle.law_journal.specs.Opened.{FilesOpenWithinLimits, GoodScenariosOpenWithinLimits};

use sv_scenario::scenarios_keep_the_limits;

/// The rules that a scenario's server is opened with are within the limits, for each scenario that keeps its own, and so for each that a file is.
pub fn scenarios_open_within_limits()
    ensures good { GoodScenariosOpenWithinLimits }
    ensures files { FilesOpenWithinLimits }
{
    scenarios_keep_the_limits();
}
