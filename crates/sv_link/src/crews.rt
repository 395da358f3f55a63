//! Crews, which run jobs on threads.
ghost use Rattle.std.specs.Prelude.{◌≡◌, ℕ, ◌+◌, ◌<◌, List, [], ◌∷◌, ◌++◌, OnOk, Option, vec_len};
ghost use Rattle.std.specs.List.{AllByRecursion, AllZip};
ghost use Rattle.sv_bytes.specs.Faults.{Rose};
ghost use Rattle.sv_link.specs.Crews.{IfDone, RanMore, CrewCause, LeavesJobs, RefusedNone};

use crate::starting::run_each;
use std::alloc::AllocError;
use std::sync::Wait;
use std::thread::Threads;

/// What `run_all` answers.
#[derive(Debug, Drop)]
pub enum Ran<T, J> {
    /// Every job ran. Here is what they gave, in the order of the jobs.
    Done(Vec<T>),

    /// A thread could not be started. The jobs that had been started were waited for, and the others did not run.
    Failed,

    /// There was no memory, and no job ran. Here are all of them, in order.
    Memory(Vec<J>),
}

/// What one thread does, once.
pub trait Job: Send + Drop {
    type Out: Send + Drop;

    // What the job needs.
    ghost ready: { Self → Type 0 };

    // What the job promises of what it gives.
    ghost keeps: { Self → Self.Out → Type 0 };

    /// Does the job.
    fn run<R: Threads + Wait + Sync>(self, rt: &R) -> Self::Out
        requires ready { ready self }
        ensures kept { keeps self result };
}

/// So many jobs ran, all of those that `run_all` was given. Nothing else makes one.
#[derive(Debug, Drop)]
pub struct AllRan {
    jobs: usize,
}

impl AllRan {
    /// How many jobs ran.
    pub fn jobs(&self) -> usize
        ensures { result ≡ self.now.jobs }
    {
        self.jobs
    }
}

/// A start of `run_all` was refused, of one of so many jobs. Nothing else makes one.
#[derive(Debug, Drop)]
pub struct StartRefused {
    jobs: usize,
}

impl StartRefused {
    /// How many jobs there were.
    pub fn jobs(&self) -> usize
        ensures { result ≡ self.now.jobs }
    {
        self.jobs
    }
}

/// Runs jobs at once, each on a thread of its own.
///
/// Contracts see how many jobs each `run_all` ran that answered Done.
pub trait Crew {
    ghost ran: { Self → List ℕ };

    ghost faults: { Self → ℕ };

    // How many numbers can be noted without memory.
    ghost room: { Self → ℕ };

    // The start that the crew refuses itself, if one: its place among the jobs, from 0.
    ghost refuses: { Self → Option ℕ };

    /// Takes the room for one number more.
    fn make_room(&mut self) -> Result<(), AllocError>
        ensures ok { OnOk result (0 < room self.new) }
        ensures same { (ran self.new ≡ ran self.old) × (faults self.new ≡ faults self.old) }
        ensures refuses { refuses self.new ≡ refuses self.old };

    /// Notes that so many jobs ran.
    fn note(&mut self, all: AllRan)
        requires room { 0 < room self.old }
        ensures noted { ran self.new ≡ ran self.old ++ all.jobs ∷ [] }
        ensures same { (faults self.new ≡ faults self.old) × (refuses self.new ≡ refuses self.old) };

    /// Counts a start that was refused.
    fn count_fault(&mut self, refused: StartRefused)
        ensures counted { Rose (faults self.old) (faults self.new) }
        ensures same { (ran self.new ≡ ran self.old) × (refuses self.new ≡ refuses self.old) };

    /// The start that the crew refuses itself, if one: its place among the jobs, from 0.
    fn refused(&self) -> Option<usize>
        ensures { result ≡ refuses self.now };

    /// Runs all jobs at once, each on a thread of its own, and waits for all of them.
    ///
    /// Where a thread can't be started, it takes its job along, and those behind it are dropped.
    final fn run_all<J: Job, R: Threads + Wait + Sync>(
        &mut self,
        rt: &R,
        jobs: Vec<J>,
    ) -> Ran<J::Out, J>
        requires ready { AllByRecursion J.ready jobs.items }
        ensures kept { IfDone result (λ outs. AllZip J.keeps jobs.items outs) }
        ensures ran { RanMore (ran self.old) (ran self.new) (vec_len jobs) result }
        ensures cause { CrewCause (faults self.old) (faults self.new) result }
        ensures left { LeavesJobs jobs.items result }
        ensures refused { RefusedNone (refuses self.old) (vec_len jobs) result }
        ensures refuses { refuses self.new ≡ refuses self.old }
    {
        if self.make_room().is_err() {
            return Ran::Memory(jobs);
        }
        let jobs_given = jobs.len();
        let refused = self.refused();
        let ran = run_each(rt, jobs, refused);
        match &ran {
            Ran::Done(_) => self.note(AllRan { jobs: jobs_given }),
            Ran::Failed => self.count_fault(StartRefused { jobs: jobs_given }),
            Ran::Memory(_) => {}
        }
        ran
    }
}
