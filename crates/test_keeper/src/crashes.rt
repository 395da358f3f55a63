//! Processes that die.
use crate::runs::{
    NEW, NOTHING, PARTED, Run, Span, TORN, ask, files_of, finds, folder_of, leave, open, play,
};
use std::alloc::Global;
use std::test::Fail;
use sv_keeper::{KeepFault, Keeper, OpenFault};
use sv_log::{Cause, Loss, MemFolder};

/// A new process finds lines of a span in what a crash leaves, whatever it loses.
fn survives(alloc: Global, folder: &MemFolder, span: Span) -> Result<(), Fail> {
    let count = folder.asked();
    for loss in [Loss::Nothing, Loss::Everything, Loss::EachSecond] {
        drop(finds(alloc, folder.crashed(count, loss)?, span)?);
    }
    for call in 1..count.saturating_add(1) {
        let kept = folder.crashed(count, Loss::From(call.saturating_add(1), 0))?;
        let kept = files_of(alloc, &kept)?;
        for byte in 0..usize::MAX {
            // It loses this byte and all that came behind it. Where that changes nothing the call has no such byte, or it is synced.
            let left = folder.crashed(count, Loss::From(call, byte))?;
            if files_of(alloc, &left)?.as_slice() == kept.as_slice() {
                break;
            }
            drop(finds(alloc, left, span)?);
            let left = folder.crashed(count, Loss::Only(call, byte))?;
            drop(finds(alloc, left, span)?);
        }
    }
    Ok(())
}

fn is_disk(fault: &OpenFault) -> bool {
    match fault {
        OpenFault::Disk => true,
        OpenFault::Refused(refusal) => refusal.cause == Cause::Failed,
        _ => false,
    }
}

/// Whether a keeper is broken: nothing more is answered, written or sent.
fn is_broken(alloc: Global, keeper: &mut Keeper<MemFolder>) -> Result<bool, Fail> {
    let is_answered = ask(alloc, keeper, "6 s1 poll -> idle\n")?;
    let is_durable = keeper.make_durable() != Err(KeepFault::Broken);
    Ok(!is_answered && !is_durable && leave(keeper).is_none())
}

/// Goes on behind the opening until a call fails. What it was to make durable then.
fn go_on(alloc: Global, keeper: &mut Keeper<MemFolder>, run: &Run) -> Result<Option<Span>, Fail> {
    let span = play(alloc, keeper, run)?;
    if span.is_some() && !is_broken(alloc, keeper)? {
        return Err(Fail::new("it is not broken"));
    }
    Ok(span)
}

/// The folder of a process whose call of this number fails, and what it was to make durable then. No span where it has fewer calls.
fn failed(alloc: Global, run: &Run, call: u64) -> Result<(MemFolder, Option<Span>), Fail> {
    let mut folder = folder_of(alloc, run.parts, &NOTHING)?;
    folder.fail_at(call)?;
    match open(alloc, folder, run.spare)? {
        Ok(mut keeper) => {
            let span = go_on(alloc, &mut keeper, run);
            let folder = keeper.into_folder();
            Ok((folder, span?))
        }
        Err((fault, folder)) => {
            if !is_disk(&fault) {
                return Err(Fail::new("it is another fault"));
            }
            Ok((folder, run.spans.first().copied()))
        }
    }
}

/// Each call fails in turn, those that read too. A crash in a call leaves what it leaves where this call fails: whatever it loses, all that was
/// durable is found, and no more than was stepped.
fn fails(alloc: Global, run: &Run) -> Result<(), Fail> {
    let (_, all) = run.spans.last().copied().unwrap_or((0, 0));
    for call in 1..u64::MAX {
        let (folder, span) = failed(alloc, run, call)?;
        survives(alloc, &folder, span.unwrap_or((all, all)))?;
        match span {
            Some(_) => {}
            None if call > 15 => return Ok(()),
            None => return Err(Fail::new(format_args!("call {call} fails, and goes well"))),
        }
    }
    Err(Fail::new("a run has fewer calls"))
}

#[test]
fn a_new_world(rt: HostRuntime) -> Result<(), Fail> {
    fails(rt.alloc(), &NEW)
}

#[test]
fn a_world_behind_a_torn_write(rt: HostRuntime) -> Result<(), Fail> {
    fails(rt.alloc(), &TORN)
}

#[test]
fn a_world_of_three_segments(rt: HostRuntime) -> Result<(), Fail> {
    fails(rt.alloc(), &PARTED)
}
