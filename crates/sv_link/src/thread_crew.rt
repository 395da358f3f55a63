//! Crews over the threads of the system.
ghost use Rattle.std.specs.Prelude.{◌≡◌};
ghost use Rattle.sv_link.specs.ThreadCrews.{IsNew, IsNewFew};

use crate::crews::{AllRan, Crew, StartRefused};
use std::alloc::{AllocError, Global};
use sv_bytes::FaultCount;

/// Starts one thread for each job.
#[derive(Drop)]
pub struct ThreadCrew {
    ran: Vec<usize>,
    faults: FaultCount,
}

impl ThreadCrew {
    /// Nothing ran yet.
    pub fn new(alloc: Global) -> ThreadCrew
        ensures { IsNew result }
    {
        ThreadCrew {
            ran: Vec::new(alloc),
            faults: FaultCount::new(),
        }
    }
}

impl Crew for ThreadCrew {
    ghost use Rattle.std.specs.Prelude.{◌-◌, None};
    ghost use Rattle.std.specs.Vec.{vec_len, vec_capacity};

    ghost ran = { λ c. c.ran.items };

    ghost faults = { λ c. c.faults.value };

    ghost room = { λ c. vec_capacity c.ran - vec_len c.ran };

    ghost refuses = { λ _. None };

    fn make_room(&mut self) -> Result<(), AllocError> {
        self.ran.reserve(1)
    }

    fn note(&mut self, all: AllRan) {
        self.ran.push_reserved(all.jobs());
    }

    fn count_fault(&mut self, _refused: StartRefused) {
        self.faults.raise();
    }

    fn refused(&self) -> Option<usize> {
        None
    }
}

/// The same, but one start is refused: that of the job at a stated place, from 0.
#[derive(Drop)]
pub struct FewCrew {
    crew: ThreadCrew,
    refused: usize,
}

impl FewCrew {
    /// Nothing ran yet.
    pub fn new(alloc: Global, refused: usize) -> FewCrew
        ensures { IsNewFew refused result }
    {
        FewCrew {
            crew: ThreadCrew::new(alloc),
            refused,
        }
    }
}

impl Crew for FewCrew {
    ghost use Rattle.std.specs.Prelude.{◌≡◌, Some, ◌-◌};
    ghost use Rattle.std.specs.Vec.{vec_len, vec_capacity};

    ghost ran = { λ c. c.crew.ran.items };

    ghost faults = { λ c. c.crew.faults.value };

    ghost room = { λ c. vec_capacity c.crew.ran - vec_len c.crew.ran };

    ghost refuses = { λ c. Some c.refused };

    fn make_room(&mut self) -> Result<(), AllocError> {
        self.crew.make_room()
    }

    fn note(&mut self, all: AllRan) {
        self.crew.note(all);
    }

    fn count_fault(&mut self, refused: StartRefused) {
        self.crew.count_fault(refused);
    }

    fn refused(&self) -> Option<usize> {
        Some(self.refused)
    }
}
