//! Each call of a run that fails, one at a time.
ghost use Rattle.std.specs.Prelude.{◌≡◌, IfOk};
ghost use Rattle.sv_log.specs.Folders.{disk_in_memory};
ghost use Rattle.sv_log.specs.Rests.{IsAtRest};

use super::crashes::{each_loss, next_folder};
use super::found::Found;
use super::plans::{LARGE, NEW, WITH_REST};
use super::runs::{Ending, Plan, Step, first_folder, live};
use std::alloc::Global;
use std::process::Abort;
use std::test::Fail;
use sv_bytes::FileFault;
use sv_log::{Cause, MemFolder};

/// A run has fewer calls than this.
const MOST: u64 = 200;

/// Lets each call of a plan fail.
fn answers(rt: &impl Abort, alloc: Global, plan: Plan) -> Result<(), Fail> {
    let mut text = Vec::from_slice(alloc, plan.text.as_bytes())?;
    let mut seen = Vec::new(alloc);
    let mut folder = first_folder(alloc, plan)?;
    for steps in plan.lives {
        folder = answers_life(rt, alloc, plan, folder, steps, &mut text, &mut seen)?;
    }
    Ok(())
}

// Lets each call of one process fail, and answers the folder for the next one, which is left where none fails.
fn answers_life(
    rt: &impl Abort,
    alloc: Global,
    plan: Plan,
    folder: MemFolder,
    steps: &[Step],
    text: &mut Vec<u8>,
    seen: &mut Vec<Found>,
) -> Result<MemFolder, Fail>
    requires rest { IsAtRest (disk_in_memory folder) }
    ensures rest { IfOk result (λ next. IsAtRest (disk_in_memory next)) }
{
    for call in 1..MOST {
        let mut begun = text.clone()?;
        let mut failing = folder.crashed(0, plan.loss)?;
        failing.fail_at(call)?;
        let life = live(alloc, failing, plan.spare, steps, &mut begun)?;
        let end = life.folder.asked();
        if life.ending == Ending::Done {
            *text = begun;
            return next_folder(rt, alloc, plan, &life, text, seen);
        }
        assert!(rt; is_fault(life.ending));
        each_loss(rt, alloc, plan.spare, &life, end, &begun, seen)?;
    }
    panic!(rt; "a run has fewer calls")
}

fn is_fault(ending: Ending) -> bool {
    match ending {
        Ending::Done => false,
        Ending::Fault(fault) => fault == FileFault::Failed,
        Ending::Refused(cause) => cause == Cause::Failed,
    }
}

#[test]
fn faults_of_a_new_log(rt: HostRuntime) -> Result<(), Fail> {
    answers(&rt, rt.alloc(), NEW)
}

#[test]
fn faults_of_a_log_with_a_rest(rt: HostRuntime) -> Result<(), Fail> {
    answers(&rt, rt.alloc(), WITH_REST)
}

#[test]
fn faults_of_a_log_that_grows_often(rt: HostRuntime) -> Result<(), Fail> {
    answers(&rt, rt.alloc(), LARGE)
}
