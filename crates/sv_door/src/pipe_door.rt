//! A door in memory, for threads.
ghost use Rattle.std.specs.Prelude.{◌≡◌, ◌<◌, [], ◌∷◌, ◌++◌, IfOk, IfSome, IsTrue, OnOk, OnErr, ◌↔◌};
ghost use Rattle.sv_link.specs.Books.{CanOpen};
ghost use Rattle.sv_link.specs.Pipes.{CountsCall, IsCopied, pipe_told, pipe_faults};
ghost use Rattle.sv_link.specs.declared.side.Side.TheVariants.{Server, Client};
ghost use Rattle.sv_door.specs.Doors.{MakesEnd, OwesEnd, MadeCause};

use crate::doors::{Door, EndMade};
use crate::hall::Hall;
use crate::returned::{Returned, open_end, take_back};
use std::alloc::{AllocError, Global};
use std::sync::{Arc, Wait};
use sv_bytes::CallPlan;
use sv_link::{Book, PipeEnd, Side, copied_plan};

/// Connections in memory at one port, between threads that have a door each: [`another`](PipeDoor::another) makes the next thread's.
/// Of all these doors, the n-th `connect` meets the n-th `accept`, whichever comes first. A client does not wait for its server to
/// connect, but it waits for ever to read where no server accepts it.
///
/// Each door has lists of calls that fail. Its own calls of `accept` and `connect` are counted together, from 1; so are the reads and
/// writes of each of its ends, for itself.
#[derive(Drop)]
pub struct PipeDoor<'r, R: Wait> {
    alloc: Global,
    rt: &'r R,
    hall: Arc<Hall, Global>,
    port: u16,
    book: Book<Returned>,
    calls: CallPlan,
    ends: CallPlan,
}

impl<'r, R: Wait> PipeDoor<'r, R> {
    ghost use Rattle.sv_door.specs.Pipes.{IsNewDoor, book_of, plans_of, port_of, IsTurnedAway, HasEndPlan};

    /// The first door of its port. No end was made, and no call fails.
    pub fn new(alloc: Global, rt: &'r R, port: u16) -> Result<PipeDoor<'r, R>, AllocError>
        ensures { IfOk result (IsNewDoor port) }
    {
        let hall = Arc::new(alloc, Hall::new(alloc))?;
        Ok(PipeDoor::at(alloc, rt, hall, port))
    }

    /// Another door at the same place, for another thread. It has made no end, and none of its calls fails.
    pub fn another(&self) -> Result<PipeDoor<'r, R>, AllocError>
        ensures { IfOk result (IsNewDoor (port_of self.now)) }
    {
        let hall = Arc::try_clone(&self.hall)?;
        Ok(PipeDoor::at(self.alloc, self.rt, hall, self.port))
    }

    fn at(alloc: Global, rt: &'r R, hall: Arc<Hall, Global>, port: u16) -> PipeDoor<'r, R>
        ensures { IsNewDoor port result }
    {
        PipeDoor {
            alloc,
            rt,
            hall,
            port,
            book: Book::new(alloc),
            calls: CallPlan::new(alloc),
            ends: CallPlan::new(alloc),
        }
    }

    /// Lets this call of `accept` or `connect` fail.
    pub fn fail_at(&mut self, call: u64) -> Result<(), AllocError>
        ensures ok { OnOk result (plans_of self.new ≡ record (plans_of self.old) { calls = (plans_of self.old).calls ++ call ∷ [] }) }
        ensures err { OnErr result (plans_of self.new ≡ plans_of self.old) }
        ensures same { (book_of self.new ≡ book_of self.old) × (port_of self.new ≡ port_of self.old) }
    {
        self.calls.fail_at(call)
    }

    /// Lets this call of each end fail that is made from now on.
    pub fn fail_end_at(&mut self, call: u64) -> Result<(), AllocError>
        ensures ok { OnOk result (plans_of self.new ≡ record (plans_of self.old) { ends = (plans_of self.old).ends ++ call ∷ [] }) }
        ensures err { OnErr result (plans_of self.new ≡ plans_of self.old) }
        ensures same { (book_of self.new ≡ book_of self.old) × (port_of self.new ≡ port_of self.old) }
    {
        self.ends.fail_at(call)
    }

    /// Lets each call of ends that are made from now on move at most `step` bytes.
    pub fn move_at_most(&mut self, step: usize)
        requires { 0 < step }
        ensures plans { plans_of self.new ≡ record (plans_of self.old) { step = step } }
        ensures same { (book_of self.new ≡ book_of self.old) × (port_of self.new ≡ port_of self.old) }
    {
        self.ends.step = step;
    }

    // Counts the call, and answers whether it fails.
    fn refuses(&mut self, port: u16) -> bool
        ensures refused { IsTrue result ↔ IsTurnedAway self.new port }
        ensures calls { CountsCall self.old.calls self.new.calls }
        ensures same { (book_of self.new ≡ book_of self.old) × (port_of self.new ≡ port_of self.old) × (self.new.ends ≡ self.old.ends) }
    {
        let is_listed = self.calls.next_fails();
        is_listed || port != self.port
    }

    // Takes the room for an end, and gives the plan of its calls. None where there is no memory.
    fn prepares(&mut self) -> Option<CallPlan>
        ensures plan { IfSome result (IsCopied self.old.ends) }
        ensures room { IfSome result (λ plan. CanOpen self.new.book) }
        ensures book { (self.new.book.kept.items ≡ self.old.book.kept.items) × (self.new.book.made ≡ self.old.book.made) × (self.new.book.owed ≡ self.old.book.owed) × (self.new.book.faults ≡ self.old.book.faults) }
        ensures same { (port_of self.new ≡ port_of self.old) × (self.new.calls ≡ self.old.calls) × (self.new.ends ≡ self.old.ends) }
    {
        let plan = copied_plan(self.alloc, &self.ends).ok()?;
        self.book.takes_room().then_some(plan)
    }

    // What both calls do, for their side.
    fn make_end(&mut self, port: u16, side: Side) -> EndMade<PipeEnd<'r, R>>
        ensures calls { CountsCall self.old.calls self.new.calls }
        ensures fails { result ≡ EndMade.Failed ↔ IsTurnedAway self.new port }
        ensures plan { HasEndPlan self.old result }
        ensures rest { (port_of self.new ≡ port_of self.old) × (self.new.ends ≡ self.old.ends) }
        ensures made { MakesEnd pipe_told pipe_faults side self.old.book.made self.new.book.made result }
        ensures owed { OwesEnd self.old.book.owed self.new.book.owed result }
        ensures given { self.new.book.kept.items ≡ self.old.book.kept.items }
        ensures cause { MadeCause self.old.book.faults.value self.new.book.faults.value result }
    {
        if self.refuses(port) {
            self.book.count_fault();
            return EndMade::Failed;
        }
        let Some(plan) = self.prepares() else {
            return EndMade::Memory;
        };
        let Ok(pipe) = self.hall.enter(self.alloc, self.rt, side) else {
            return EndMade::Memory;
        };
        let log = open_end(&mut self.book, self.alloc, side);
        EndMade::End(PipeEnd::new(self.rt, pipe, plan, log))
    }

    /// What `accept` does: it fails just where this call is listed or the port is not the door's, and the end has the door's list and step.
    pub fn make_server_end(&mut self, port: u16) -> EndMade<PipeEnd<'r, R>>
        ensures calls { CountsCall self.old.calls self.new.calls }
        ensures fails { result ≡ EndMade.Failed ↔ IsTurnedAway self.new port }
        ensures plan { HasEndPlan self.old result }
        ensures rest { (port_of self.new ≡ port_of self.old) × (self.new.ends ≡ self.old.ends) }
        ensures made { MakesEnd pipe_told pipe_faults Server self.old.book.made self.new.book.made result }
        ensures owed { OwesEnd self.old.book.owed self.new.book.owed result }
        ensures given { self.new.book.kept.items ≡ self.old.book.kept.items }
        ensures cause { MadeCause self.old.book.faults.value self.new.book.faults.value result }
    {
        self.make_end(port, Side::Server)
    }

    /// What `connect` does: it fails where `make_server_end` does.
    pub fn make_client_end(&mut self, port: u16) -> EndMade<PipeEnd<'r, R>>
        ensures calls { CountsCall self.old.calls self.new.calls }
        ensures fails { result ≡ EndMade.Failed ↔ IsTurnedAway self.new port }
        ensures plan { HasEndPlan self.old result }
        ensures rest { (port_of self.new ≡ port_of self.old) × (self.new.ends ≡ self.old.ends) }
        ensures made { MakesEnd pipe_told pipe_faults Client self.old.book.made self.new.book.made result }
        ensures owed { OwesEnd self.old.book.owed self.new.book.owed result }
        ensures given { self.new.book.kept.items ≡ self.old.book.kept.items }
        ensures cause { MadeCause self.old.book.faults.value self.new.book.faults.value result }
    {
        self.make_end(port, Side::Client)
    }
}

impl<'r, R: Wait + Sync> Door for PipeDoor<'r, R> {
    ghost use Rattle.sv_door.specs.Pipes.{IsSureOf};

    type E = PipeEnd<'r, R>;

    ghost given = { λ d. d.book.kept.items };

    ghost made = { λ d. d.book.made };

    ghost owed = { λ d. d.book.owed };

    ghost faults = { λ d. d.book.faults.value };

    ghost sure = { IsSureOf };

    fn accept(&mut self, port: u16) -> EndMade<PipeEnd<'r, R>> {
        self.make_server_end(port)
    }

    fn connect(&mut self, port: u16) -> EndMade<PipeEnd<'r, R>> {
        self.make_client_end(port)
    }

    fn give_back(&mut self, end: PipeEnd<'r, R>) {
        take_back(&mut self.book, end.into_log());
    }
}
