//! An end of a connection in memory.
ghost use Rattle.std.specs.Prelude.{◌≡◌, ◌<◌, ◌↔◌, min, length};
ghost use Rattle.sv_link.specs.Ends.{EndReads, EndWrites, EndReadCause, EndWriteCause};
ghost use Rattle.sv_link.specs.Logs.{IsReadFault, IsWriteFault, CountsFault, faults_after};
ghost use Rattle.sv_link.specs.Pipes.{CountsCall, IsListed, EndGotAtMost, EndTookJust, pipe_told};

use crate::ends::{End, EndRead, EndWrote};
use crate::log::{EndLog, MOST_READ};
use crate::pipe::Pipe;
use std::alloc::Global;
use std::sync::{Arc, Wait};
use sv_bytes::CallPlan;

/// An end of a connection in memory.
///
/// Its reads and writes are counted together, from 1, and those in its list fail. A write towards an other side that is closed is
/// taken, and goes nowhere.
pub struct PipeEnd<'r, R: Wait> {
    rt: &'r R,
    pipe: Arc<Pipe, Global>,
    plan: CallPlan,
    log: EndLog,
}

impl<'r, R: Wait> PipeEnd<'r, R> {
    /// The end of the log's side.
    pub fn new(rt: &'r R, pipe: Arc<Pipe, Global>, plan: CallPlan, log: EndLog) -> PipeEnd<'r, R>
        ensures log { result.log ≡ log }
        ensures plan { result.plan ≡ plan }
    {
        PipeEnd {
            rt,
            pipe,
            plan,
            log,
        }
    }

    /// Closes the end, and gives what it tells.
    pub fn into_log(self) -> EndLog
        ensures { result ≡ self.entry.log }
    {
        let PipeEnd {
            rt,
            pipe,
            plan: _,
            log,
        } = self;
        pipe.close(rt, log.side);
        log
    }

    /// What `read` does: it fails just where this call is listed, and else gives no more bytes than its step allows.
    pub fn receive(&mut self, into: &mut [u8]) -> EndRead
        requires room { 0 < length into.old }
        ensures plan { CountsCall self.old.plan self.new.plan }
        ensures fails { result ≡ EndRead.Failed ↔ (IsListed self.new.plan × CountsFault self.old.log) }
        ensures listed { IsListed self.new.plan → IsReadFault result × (self.new.log.faults ≡ faults_after self.old.log) }
        ensures most { EndGotAtMost (min (min (length into.old) self.old.plan.step) MOST_READ) result }
        ensures told { EndReads (pipe_told self.old) into.new result (pipe_told self.new) }
        ensures cause { EndReadCause self.old.log.faults self.new.log.faults result }
    {
        if self.plan.next_fails() {
            return self.log.read_failed();
        }
        let most = into.len().min(self.plan.step).min(MOST_READ);
        if self.log.received.reserve(most).is_err() {
            return EndRead::Memory;
        }
        let count = self
            .pipe
            .to(self.log.side)
            .receive(self.rt, &mut into[..most]);
        if count == 0 {
            self.log.ended = true;
            return EndRead::Ended;
        }
        self.log.received.extend_from_slice(&into[..count]).unwrap();
        EndRead::Got(count)
    }

    /// What `write` does: it fails just where this call is listed, and else takes as many bytes as its step allows, or finds no memory.
    pub fn send(&mut self, piece: &[u8]) -> EndWrote
        requires some { 0 < length piece.now }
        ensures plan { CountsCall self.old.plan self.new.plan }
        ensures fails { result ≡ EndWrote.Failed ↔ (IsListed self.new.plan × CountsFault self.old.log) }
        ensures listed { IsListed self.new.plan → IsWriteFault result × (self.new.log.faults ≡ faults_after self.old.log) }
        ensures just { EndTookJust (min (length piece.now) self.old.plan.step) result }
        ensures told { EndWrites (pipe_told self.old) piece.now result (pipe_told self.new) }
        ensures cause { EndWriteCause self.old.log.faults self.new.log.faults result }
    {
        if self.plan.next_fails() {
            return self.log.write_failed();
        }
        let piece = &piece[..piece.len().min(self.plan.step)];
        if self.log.sent.reserve(piece.len()).is_err() {
            return EndWrote::Memory;
        }
        let lane = self.pipe.from(self.log.side);
        if lane.send(self.rt, piece).is_err() {
            return EndWrote::Memory;
        }
        self.log.sent.extend_from_slice(piece).unwrap();
        EndWrote::Took(piece.len())
    }
}

impl<'r, R: Wait> Drop for PipeEnd<'r, R> {
    fn drop(self) {
        let _log = self.into_log();
    }
}

impl<'r, R: Wait> End for PipeEnd<'r, R> {
    ghost use Rattle.std.specs.Prelude.{◌≡◌, []};
    ghost use Rattle.sv_link.specs.Logs.{told_of};

    ghost told = { λ e. told_of e.log };

    ghost faults = { λ e. e.log.faults };

    ghost calm = { λ e. (e.plan.failing.items ≡ []) × (e.log.faults ≡ 0) };

    fn read(&mut self, into: &mut [u8]) -> EndRead {
        self.receive(into)
    }

    fn write(&mut self, piece: &[u8]) -> EndWrote {
        self.send(piece)
    }

    fn close(&mut self) {
        self.log.closed = true;
        self.pipe.close(self.rt, self.log.side);
    }
}
