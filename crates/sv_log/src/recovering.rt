//! Opening the log of a folder that a crash may have left.
ghost use Rattle.std.specs.Prelude.{◌≡◌, ℕ, List, IfOk, IfErr, MatchResult};
ghost use Rattle.sv_log.specs.Pictures.{seen};
ghost use Rattle.sv_log.specs.Crashes.{LeavesOnly};
ghost use Rattle.sv_log.specs.Logs.{HasSizes};
ghost use Rattle.sv_log.specs.Rests.{IsAtRest};
ghost use Rattle.sv_log.specs.Chains.{StateFile, KeepsLog};
ghost use Rattle.sv_log.specs.OpenLogs.{IsOpenLog};
ghost use Rattle.sv_log.specs.Refusals.{CauseCount, IsWhy, HasNoLog};
ghost use Rattle.sv_log.specs.Recoveries.{Recovers, HasFailed};

use super::folder::Folder;
use super::log::Log;
use super::reading::{LogRefusal, read_log, refuse_fault};
use std::alloc::Global;

/// Opens the log of a folder: reads it, mends what a crash left, and opens it.
///
/// What stands in its lines is not judged: who does that calls `read_log`, and then `Log::open`. An `Err` hands the folder back.
#[tactic(auto, using(crate::proofs::Walked::fault_count, crate::proofs::Walked::fault_why))]
pub fn open_log<F: Folder>(
    alloc: Global,
    mut folder: F,
    world: &[u8],
    spare: usize,
) -> Result<Log<F>, (LogRefusal, F)>
    requires rest { F.is_honest folder → IsAtRest (F.disk folder) }
    ensures recovers { (state : StateFile) → (low high : List ℕ) → (F.is_honest folder → KeepsLog world.now state low high (seen (F.disk folder)))
        → MatchResult result
        (λ log. F.is_honest log.segment.folder → Recovers F.disk (F.disk folder) log world.now state low high)
        (λ e. F.is_honest e.1 → HasFailed (F.disk folder) (F.disk e.1) e.0 world.now state low high) }
    ensures sizes { IfOk result (λ log. HasSizes log.segment) }
    ensures open { IfOk result (λ log. F.is_honest log.segment.folder → IsOpenLog F.disk log) }
    ensures refused { IfErr result (λ e. F.is_honest e.1 → IsWhy (HasNoLog world.now (seen (F.disk folder))) e.0.cause) }
    ensures cause { IfErr result (λ e. CauseCount (F.faults folder) (F.faults e.1) e.0.cause) }
    ensures calm { IfOk result (λ log. F.faults log.segment.folder ≡ F.faults folder) }
{
    let reading = match read_log(alloc, &mut folder, world) {
        Ok(reading) => reading,
        Err(refusal) => return Err((refusal, folder)),
    };
    match Log::open(alloc, folder, reading, world, spare) {
        Ok(log) => Ok(log),
        Err((fault, folder)) => Err((refuse_fault(alloc, "", fault), folder)),
    }
}
