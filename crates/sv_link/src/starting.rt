//! How jobs are started on threads, and waited for.
ghost use Rattle.std.specs.Prelude.{◌≡◌, ◌+◌, ◌<◌, ◌≤◌, [], IsTrue, IfSome, vec_len, map};
ghost use Rattle.std.specs.Vec.{vec_capacity};
ghost use Rattle.std.specs.List.{AllByRecursion, AllZip};
ghost use Rattle.sv_link.specs.Crews.{IfDone, LeavesJobs, RefusedNone};
ghost use Rattle.sv_link.specs.Promises.{promised};

use crate::crews::{Job, Ran};
use std::snapshot::Snapshot;
use std::sync::Wait;
use std::thread;
use std::thread::{Promise, PromisedHandle, Scope, Threads};

// A job's promise: what it gives is what the job keeps.
#[derive(Drop)]
pub(crate) struct JobKept<J: Job>(Snapshot<J>);

impl<J: Job> Promise<J::Out> for JobKept<J> {
    ghost kept_by = { λ p r. J.keeps p.0.value r };
}

/// Runs each job on a thread of its own. `refused` is a start that is refused.
pub(crate) fn run_each<J: Job, R: Threads + Wait + Sync>(
    rt: &R,
    jobs: Vec<J>,
    refused: Option<usize>,
) -> Ran<J::Out, J>
    requires { AllByRecursion J.ready jobs.items }
    ensures kept { IfDone result (λ outs. AllZip J.keeps jobs.items outs) }
    ensures left { LeavesJobs jobs.items result }
    ensures refused { RefusedNone refused (vec_len jobs) result }
{
    thread::scope(
        thread::scope_env(),
        rt,
        move |scope| -> Ran<J::Out, J>
            requires { AllByRecursion J.ready jobs.items }
            ensures kept { IfDone result (λ outs. AllZip J.keeps jobs.items outs) }
            ensures left { LeavesJobs jobs.items result }
            ensures refused { RefusedNone refused (vec_len jobs) result }
        { run_in(scope, rt, jobs, refused) },
    )
}

fn run_in<'s, E: 's, J: Job + 's, R: Threads + Wait + Sync>(
    scope: &'s Scope<'s, E>,
    rt: &'s R,
    jobs: Vec<J>,
    refused: Option<usize>,
) -> Ran<J::Out, J>
    requires { AllByRecursion J.ready jobs.items }
    ensures kept { IfDone result (λ outs. AllZip J.keeps jobs.items outs) }
    ensures left { LeavesJobs jobs.items result }
    ensures refused { RefusedNone refused (vec_len jobs) result }
{
    let alloc = *jobs.allocator();
    let Ok(mut handles) = Vec::with_capacity(alloc, jobs.len()) else {
        return Ran::Memory(jobs);
    };
    let Ok(mut outs) = Vec::with_capacity(alloc, jobs.len()) else {
        return Ran::Memory(jobs);
    };
    let all_started = start_each(scope, rt, jobs, refused, &mut handles);
    join_each(rt, handles, &mut outs);
    if all_started {
        Ran::Done(outs)
    } else {
        Ran::Failed
    }
}

// Starts the jobs, in order. At the first that can't be started the rest is dropped.
fn start_each<'s, E: 's, J: Job + 's, R: Threads + Wait + Sync>(
    scope: &'s Scope<'s, E>,
    rt: &'s R,
    jobs: Vec<J>,
    refused: Option<usize>,
    handles: &mut Vec<PromisedHandle<J::Out, JobKept<J>>>,
) -> bool
    requires ready { AllByRecursion J.ready jobs.items }
    requires empty { handles.old.items ≡ [] }
    requires room { vec_len jobs ≤ vec_capacity handles.old }
    ensures started { IsTrue result → map promised handles.new.items ≡ jobs.items }
    ensures few { vec_len handles.new ≤ vec_len jobs }
    ensures refused { IsTrue result → IfSome refused (λ place. vec_len jobs ≤ place) }
{
    for job in jobs {
        if refused == Some(handles.len()) {
            return false;
        }
        let promise = JobKept(Snapshot::of(&job));
        let Ok(handle) = scope.spawn_with(
            promise,
            move || -> J::Out
                requires { J.ready job }
                ensures { J.keeps job result }
            { job.run(rt) },
        ) else {
            return false;
        };
        handles.push_reserved(handle);
    }
    true
}

fn join_each<J: Job, R: Threads>(
    rt: &R,
    handles: Vec<PromisedHandle<J::Out, JobKept<J>>>,
    outs: &mut Vec<J::Out>,
)
    requires empty { outs.old.items ≡ [] }
    requires room { vec_len handles ≤ vec_capacity outs.old }
    ensures { AllZip J.keeps (map promised handles.items) outs.new.items }
{
    for handle in handles {
        outs.push_reserved(handle.join(rt));
    }
}
