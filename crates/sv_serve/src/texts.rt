//! The text that tells what was served.
ghost use Rattle.std.specs.Prelude.{◌≡◌, ◌≢◌, ℕ, Some, Err, IfOk, string_bytes};
ghost use Rattle.sv_ending.specs.Endings.{IsMade};
ghost use Rattle.sv_ending.specs.Statuses.{counts, Raises, ending_of, status_of};
ghost use Rattle.sv_sequencer.specs.Step.{history};
ghost use Rattle.sv_threads.specs.Moved.{moved};
ghost use Rattle.sv_serve.specs.Giving.{doorway};
ghost use Rattle.sv_serve.specs.Statuses.{hosted_text, EndsEarly, GivesBackBut, IsText, LeavesAlone};

use crate::hosting::serve_scenario;
use crate::words::ServeCommand;
use std::alloc::{AllocError, Global};
use std::sync::Wait;
use std::thread::Threads;
use sv_bytes::Files;
use sv_door::Door;
use sv_ending::{Ending, PlayStage, scenario_in};
use sv_journal::{legal_relays_name_accepted, print_journal};
use sv_link::{Crew, Gate};
use sv_sequencer::Sequencer;
use sv_threads::ending_of_fault;
use sv_world::Shape;

/// The journal part of the report, and the commit.
fn hosted_text(alloc: Global, shape: Shape, sequencer: &Sequencer) -> Result<String, AllocError>
    ensures { IfOk result (λ text. string_bytes text ≡ hosted_text shape (history sequencer.now)) }
{
    legal_relays_name_accepted();
    let mut text = String::new(alloc);
    print_journal(shape, sequencer.journal(), &mut text)?;
    let commit = sequencer.commit();
    write!(text, "commit {commit}\n")?;
    Ok(text)
}

/// Serves the scenario of a file. The text that tells it is whole before any of it is printed.
pub(crate) fn served_text<F: Files, D: Door, C: Crew, G: Gate + Sync, R: Threads + Wait + Sync>(
    stage: &PlayStage<'_, R, G>,
    command: ServeCommand<'_>,
    files: &mut F,
    door: &mut D,
    crew: &mut C,
) -> Result<String, Ending>
    ensures made { IsMade (IsText (F.contents files.old command.entry.file.now) (moved (D.given door.old) (D.given door.new) (C.ran crew.old) (C.ran crew.new)))
        (EndsEarly (F.contents files.old command.entry.file.now)) result }
    ensures raises { (k : ℕ) → Raises (counts (F.faults files.old) (C.faults crew.old) (D.faults door.old) k) (counts (F.faults files.new) (C.faults crew.new) (D.faults door.new) k) (ending_of result) }
    ensures sure { F.sure files.old command.entry.file.now → result ≢ Err Ending.File }
    ensures certain { D.sure door.old command.entry.port → result ≢ Err Ending.Link }
    ensures apart { LeavesAlone (status_of (ending_of result)) files.old files.new door.old door.new crew.old crew.new }
    ensures back { GivesBackBut (status_of (ending_of result)) (C.ran crew.old) (C.ran crew.new) (doorway (D.given door.old) (D.made door.old) (D.owed door.old)) (doorway (D.given door.new) (D.made door.new) (D.owed door.new)) }
{
    let scenario = scenario_in(stage.alloc, command.file, files)?;
    let sequencer = match serve_scenario(
        stage.rt,
        stage.alloc,
        &scenario,
        command.port,
        door,
        crew,
        stage.gate,
    ) {
        Ok(sequencer) => sequencer,
        Err(fault) => return Err(ending_of_fault(fault)),
    };
    Ok(hosted_text(stage.alloc, scenario.world.shape, &sequencer)?)
}
