//! The scenario of a file.
ghost use Rattle.std.specs.Prelude.{◌≡◌, ◌≢◌, List, ℕ, Err, IfOk, IfErr, string_bytes};
ghost use Rattle.sv_scenario.specs.Lines.{fault_line};
ghost use Rattle.sv_ending.specs.Reading.{IsFileFront};
ghost use Rattle.sv_ending.specs.Statuses.{Counts, IsGiven, IsScenarioRead, IsUnread, Raises, ending_of};

use crate::ending::Ending;
use std::alloc::{AllocError, Global};
use sv_bytes::{FileFault, Files, read_all};
use sv_scenario::{
    MOST_SCENARIO_BYTES, ReadFault, Scenario, ScenarioFault, append_fault_line, read_scenario,
};

/// A scenario's file is read so far and no further: one byte more than a scenario may have.
const READ_LIMIT: usize = MOST_SCENARIO_BYTES + 1;

/// What is read of a scenario's file.
pub fn scenario_bytes<F: Files>(alloc: Global, file: &str, files: &mut F) -> Result<Vec<u8>, Ending>
    ensures front { IfOk result (λ bytes. IsFileFront (F.contents files.old file.now) bytes.items) }
    ensures unread { IfErr result IsUnread }
    ensures raises { (k : Counts) → Raises (record k { files = F.faults files.old }) (record k { files = F.faults files.new }) (ending_of result) }
    ensures sure { F.sure files.old file.now → result ≢ Err Ending.File }
    ensures same { (n : List ℕ) → F.contents files.new n ≡ F.contents files.old n }
    ensures stays_sure { (n : List ℕ) → F.sure files.old n → F.sure files.new n }
{
    match read_all(alloc, files, file, READ_LIMIT) {
        Ok(bytes) => Ok(bytes),
        Err(FileFault::Failed) => Err(Ending::File),
        Err(FileFault::Memory) => Err(Ending::Memory),
    }
}

/// The line that tells of a fault.
pub fn line_of_fault(alloc: Global, fault: &ScenarioFault) -> Result<String, AllocError>
    ensures { IfOk result (λ line. string_bytes line ≡ fault_line fault.now) }
{
    let mut line = String::new(alloc);
    append_fault_line(fault, &mut line)?;
    Ok(line)
}

/// The scenario that bytes are. The answer is never another ending than `Scenario` and `Memory`.
pub fn given_scenario(alloc: Global, bytes: &[u8]) -> Result<Scenario, Ending>
    ensures { IsGiven bytes.now result }
{
    match read_scenario(alloc, bytes) {
        Ok(scenario) => Ok(scenario),
        Err(ReadFault::Scenario(fault)) => Err(Ending::Scenario(line_of_fault(alloc, &fault)?)),
        Err(ReadFault::Memory) => Err(Ending::Memory),
    }
}

/// The scenario of a file. The answer is never another ending than `Scenario`, `File` and `Memory`.
pub fn scenario_in<F: Files>(alloc: Global, file: &str, files: &mut F) -> Result<Scenario, Ending>
    ensures read { IsScenarioRead (F.contents files.old file.now) result }
    ensures raises { (k : Counts) → Raises (record k { files = F.faults files.old }) (record k { files = F.faults files.new }) (ending_of result) }
    ensures sure { F.sure files.old file.now → result ≢ Err Ending.File }
{
    let bytes = scenario_bytes(alloc, file, files)?;
    given_scenario(alloc, &bytes)
}
