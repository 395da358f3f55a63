//! A crash behind each call of a run, whatever it loses.
ghost use Rattle.std.specs.Prelude.{◌≡◌, IfOk};
ghost use Rattle.sv_log.specs.Folders.{disk_in_memory};
ghost use Rattle.sv_log.specs.Rests.{IsAtRest};

use super::found::{Found, found_in, losses};
use super::plans::{LARGE, NEW, WITH_REST};
use super::runs::{Ending, Life, Plan, Step, bounds_at, first_folder, live};
use std::alloc::Global;
use std::process::Abort;
use std::test::Fail;
use sv_log::MemFolder;

/// Opens what each crash leaves.
fn survives(rt: &impl Abort, alloc: Global, plan: Plan) -> Result<(), Fail> {
    let mut text = Vec::from_slice(alloc, plan.text.as_bytes())?;
    let mut seen = Vec::new(alloc);
    let mut folder = first_folder(alloc, plan)?;
    for steps in plan.lives {
        folder = survives_life(rt, alloc, plan, folder, steps, &mut text, &mut seen)?;
    }
    Ok(())
}

// Opens what each crash of one process leaves, and answers the folder for the next one.
fn survives_life(
    rt: &impl Abort,
    alloc: Global,
    plan: Plan,
    folder: MemFolder,
    steps: &[Step],
    text: &mut Vec<u8>,
    seen: &mut Vec<Found>,
) -> Result<MemFolder, Fail>
    requires rest { IsAtRest (disk_in_memory folder) }
    ensures rest { IfOk result (λ next. IsAtRest (disk_in_memory next)) }
{
    let life = live(alloc, folder, plan.spare, steps, text)?;
    assert!(rt; life.ending == Ending::Done);
    let end = life.folder.asked();
    for count in 0..end.saturating_add(1) {
        each_loss(rt, alloc, plan.spare, &life, count, text, seen)?;
    }
    next_folder(rt, alloc, plan, &life, text, seen)
}

/// The folder for the next process. `text` is cut to what is found there.
pub(crate) fn next_folder(
    rt: &impl Abort,
    alloc: Global,
    plan: Plan,
    life: &Life,
    text: &mut Vec<u8>,
    seen: &mut Vec<Found>,
) -> Result<MemFolder, Fail>
    ensures rest { IfOk result (λ next. IsAtRest (disk_in_memory next)) }
{
    let end = life.folder.asked();
    let left = life.folder.crashed(end, plan.loss)?;
    let length = found_in(rt, alloc, left, plan.spare, seen, text)?;
    text.truncate(length);
    Ok(life.folder.crashed(end, plan.loss)?)
}

/// Opens what a crash behind so many calls leaves, whatever it loses. All that was synced is found, and no more than was begun.
pub(crate) fn each_loss(
    rt: &impl Abort,
    alloc: Global,
    spare: usize,
    life: &Life,
    count: usize,
    text: &[u8],
    seen: &mut Vec<Found>,
) -> Result<(), Fail> {
    let (synced, begun) = bounds_at(&life.marks, count);
    for loss in losses(alloc, count)? {
        let left = life.folder.crashed(count, loss)?;
        let length = found_in(rt, alloc, left, spare, seen, text)?;
        assert!(rt; synced <= length);
        assert!(rt; length <= begun);
    }
    Ok(())
}

#[test]
fn a_new_log(rt: HostRuntime) -> Result<(), Fail> {
    survives(&rt, rt.alloc(), NEW)
}

#[test]
fn a_log_with_a_rest(rt: HostRuntime) -> Result<(), Fail> {
    survives(&rt, rt.alloc(), WITH_REST)
}

#[test]
fn a_log_that_grows_often(rt: HostRuntime) -> Result<(), Fail> {
    survives(&rt, rt.alloc(), LARGE)
}
