//! Runs on threads, and how they are told.
ghost use Rattle.std.specs.Prelude.{◌≡◌, ◌++◌, reverse, codes, string_bytes, is_some, IfOk, IfSome, Err};
ghost use Rattle.std.specs.Fmt.{decimal};
ghost use Rattle.sv_scenario.specs.Limits.{IsGoodScenario};
ghost use Rattle.sv_threads.specs.Moved.{moved};
ghost use Rattle.sv_threads.specs.Playing.{PlayCause};
ghost use Rattle.sv_threads.specs.Pairs.{pairing, LeavesPairs, SomeDiffered};
ghost use Rattle.sv_run.specs.Runs.{IsThreaded, form_text, is_watched};
ghost use Rattle.sv_world.specs.declared.world.Shape.{Shape};

use crate::words::Form;
use law_system::Played;
use std::alloc::{AllocError, Global};
use std::sync::Wait;
use std::thread::Threads;
use sv_ending::{PlayStage, append_lines};
use sv_link::{Crew, Gate, Net};
use sv_replay::{open_sequencer, played_of};
use sv_report::{brief, report};
use sv_scenario::Scenario;
use sv_threads::{PlayFault, PlayedAll, lock_sequencer, play_all};
use sv_watch::{Change, Line, Watch, told_line};

/// What a run on threads leaves.
#[derive(Debug, Drop)]
pub struct Threaded {
    pub played: Played,
    /// They tell each change of a client's view, client by client, where the form of the run does.
    pub lines: Vec<Line>,
}

/// The watch, where the form tells the changes of views.
fn watcher<'a>(form: Form, watch: &'a Watch) -> Option<&'a Watch>
    ensures watched { is_some result ≡ is_watched form }
    ensures fits { (s : Shape) → watch.entry.now.shape ≡ s → IfSome result (λ w. w.now.shape ≡ s) }
{
    match form {
        Form::Watch => Some(watch),
        Form::Report | Form::Brief => None,
    }
}

/// Runs a scenario on threads: one for each session, and one for each client.
pub(crate) fn run_on_threads<N: Net, C: Crew, G: Gate + Sync, R: Threads + Wait + Sync>(
    stage: &PlayStage<'_, R, G>,
    scenario: &Scenario,
    form: Form,
    net: &mut N,
    crew: &mut C,
) -> Result<Threaded, PlayFault>
    requires { IsGoodScenario scenario.now }
    ensures threaded { IfOk result (λ threaded. IsThreaded scenario.now form (moved (N.settled net.old) (N.settled net.new) (C.ran crew.old) (C.ran crew.new)) threaded) }
    ensures cause { PlayCause (C.faults crew.old) (C.faults crew.new) (N.faults net.old) (N.faults net.new) result }
    ensures pairs { LeavesPairs (pairing (N.settled net.old) (N.unmatched net.old) (N.made net.old) (N.owed net.old)) (pairing (N.settled net.new) (N.unmatched net.new) (N.made net.new) (N.owed net.new)) result }
    ensures calm { N.calm net.old → result ≡ Err PlayFault.Link → SomeDiffered (pairing (N.settled net.old) (N.unmatched net.old) (N.made net.old) (N.owed net.old)) (pairing (N.settled net.new) (N.unmatched net.new) (N.made net.new) (N.owed net.new)) }
{
    let alloc = stage.alloc;
    let shape = scenario.world.shape;
    let callback = Box::new(alloc, move |change: &Change| told_line(alloc, change))?;
    let watch = Watch::new(shape, callback);
    let sequencer = open_sequencer(alloc, scenario)?;
    let (lock, mut keeper) = lock_sequencer(alloc, scenario, sequencer)?;
    let PlayedAll { traces, lines } = play_all(
        stage.rt,
        alloc,
        scenario,
        &lock,
        &mut keeper,
        net,
        crew,
        stage.gate,
        watcher(form, &watch),
    )?;
    let played = played_of(alloc, shape, lock.close(keeper), traces)?;
    Ok(Threaded { played, lines })
}

/// How a run is told.
pub(crate) fn form_text(
    alloc: Global,
    scenario: &Scenario,
    form: Form,
    threaded: &Threaded,
) -> Result<String, AllocError>
    requires good { IsGoodScenario scenario.now }
    requires threaded { (m : _) × IsThreaded scenario.now form m threaded.now }
    ensures { IfOk result (λ text. string_bytes text ≡ form_text form scenario.now (reverse threaded.now.played.journal.entries) threaded.now.played.traces) }
{
    match form {
        Form::Report => report(alloc, scenario, &threaded.played),
        Form::Brief => brief(alloc, scenario, &threaded.played),
        Form::Watch => {
            let mut text = report(alloc, scenario, &threaded.played)?;
            append_lines(&threaded.lines, &mut text)?;
            Ok(text)
        }
    }
}

/// How a load is told: its size, and the summary.
pub(crate) fn load_text(
    alloc: Global,
    size: u32,
    scenario: &Scenario,
    threaded: &Threaded,
) -> Result<String, AllocError>
    requires good { IsGoodScenario scenario.now }
    requires threaded { (m : _) × IsThreaded scenario.now Form.Brief m threaded.now }
    ensures { IfOk result (λ text. string_bytes text ≡ codes "load " ++ decimal size ++ codes "\n"
        ++ form_text Form.Brief scenario.now (reverse threaded.now.played.journal.entries) threaded.now.played.traces) }
{
    let summary = form_text(alloc, scenario, Form::Brief, threaded)?;
    let mut text = format!(in alloc; "load {size}\n")?;
    text.push_str(summary.as_str())?;
    Ok(text)
}
