//! The text that tells the snapshots of a scheduled run.
ghost use Rattle.std.specs.Prelude.{◌≡◌, ◌≢◌, All, Err, map, IfOk, string_bytes};
ghost use Rattle.sv_client.specs.Proper.{Proper};
ghost use Rattle.sv_ending.specs.Endings.{IsMade};
ghost use Rattle.sv_ending.specs.Statuses.{Counts, Raises, ending_of};
ghost use Rattle.sv_looks.specs.Snapshots.{snapshots_of};
ghost use Rattle.sv_looks.specs.Cuts.{IsShaped};
ghost use Rattle.sv_looks.specs.Lines.{look_line, looks_text};
ghost use Rattle.sv_looks.specs.Statuses.{EndsEarly, IsText};

use crate::line::look_line;
use crate::looker::Looker;
use crate::snapshot::Snapshot;
use crate::taking::snapshots;
use law_system::Played;
use std::alloc::{AllocError, Global};
use sv_bytes::Files;
use sv_ending::{Ending, append_lines, scenario_in};
use sv_journal::legal_actions_are_good;
use sv_replay::run_schedule;
use sv_watch::Line;
use sv_world::Shape;

/// A line for each of some snapshots of a world of this shape.
fn lines_of(alloc: Global, shape: Shape, snapshots: &[Snapshot]) -> Result<Vec<Line>, AllocError>
    requires { All (IsShaped shape) snapshots.now }
    ensures { IfOk result (λ lines. lines.items ≡ map look_line snapshots.now) }
{
    let callback = Box::new(alloc, move |snapshot: &Snapshot| look_line(alloc, snapshot))?;
    let looker = Looker::new(shape, callback);
    let mut lines = Vec::new(alloc);
    looker.tell(snapshots, &mut lines)?;
    Ok(lines)
}

/// The lines of the snapshots of what was played.
fn played_text(alloc: Global, played: &Played) -> Result<String, AllocError>
    requires proper { All (Proper played.now.shape) played.now.traces }
    requires shaped { All (IsShaped played.now.shape) (snapshots_of played.now.shape played.now.traces) }
    ensures { IfOk result (λ text. string_bytes text ≡ looks_text played.now.shape played.now.traces) }
{
    let told = snapshots(alloc, played)?;
    let lines = lines_of(alloc, played.shape, &told)?;
    let mut text = String::new(alloc);
    append_lines(&lines, &mut text)?;
    Ok(text)
}

/// The lines of the snapshots of a file's scheduled run. They are whole before any of them is printed.
pub(crate) fn text_for<F: Files>(alloc: Global, file: &str, files: &mut F) -> Result<String, Ending>
    ensures made { IsMade (IsText (F.contents files.old file.now)) (EndsEarly (F.contents files.old file.now)) result }
    ensures raises { (k : Counts) → Raises (record k { files = F.faults files.old }) (record k { files = F.faults files.new }) (ending_of result) }
    ensures sure { F.sure files.old file.now → result ≢ Err Ending.File }
{
    legal_actions_are_good();
    let scenario = scenario_in(alloc, file, files)?;
    let played = run_schedule(alloc, &scenario)?;
    Ok(played_text(alloc, &played)?)
}
