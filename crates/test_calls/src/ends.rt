//! An end of a connection whose client wrote all of its bytes before.
ghost use Rattle.std.specs.Prelude.{◌≡◌, ◌<◌, IfOk};
ghost use Rattle.sv_link.specs.Ends.{new_end};
ghost use Rattle.sv_link.specs.declared.side.Side.TheVariants.{Server};
ghost use Rattle.test_calls.specs.Scripts.{told_of_script, faults_of_script};

use std::alloc::{AllocError, Global};
use sv_bytes::{CallPlan, FaultCount};
use sv_link::{End, EndRead, EndWrote};

/// The server's end. Reads give the next bytes of `coming`, and after them answer that no more will come. It keeps what is sent to it. Its plan
/// says which calls fail, and how many bytes a call moves.
#[derive(Drop)]
pub struct ScriptEnd<'a> {
    coming: &'a [u8],
    plan: CallPlan,
    sent: Vec<u8>,
    received: Vec<u8>,
    ended: bool,
    closed: bool,
    number: u64,
    faults: FaultCount,
}

impl<'a> ScriptEnd<'a> {
    /// The end of the connection of this number, whose call of number `failing` fails. Where that is 0 none fails.
    pub fn new(
        alloc: Global,
        coming: &'a [u8],
        failing: u64,
        number: u64,
    ) -> Result<ScriptEnd<'a>, AllocError>
        ensures told { IfOk result (λ end. told_of_script end ≡ new_end number Server) }
        ensures faults { IfOk result (λ end. faults_of_script end ≡ 0) }
    {
        let mut plan = CallPlan::new(alloc);
        plan.fail_at(failing)?;
        Ok(ScriptEnd {
            coming,
            plan,
            sent: Vec::new(alloc),
            received: Vec::new(alloc),
            ended: false,
            closed: false,
            number,
            faults: FaultCount::new(),
        })
    }

    /// A call moves at most so many bytes.
    pub fn move_at_most(&mut self, step: usize)
        requires { 0 < step }
        ensures told { told_of_script self.new ≡ told_of_script self.old }
        ensures faults { faults_of_script self.new ≡ faults_of_script self.old }
    {
        self.plan.step = step;
    }

    pub fn is_closed(&self) -> bool {
        self.closed
    }

    /// What was sent to the client.
    pub fn into_sent(self) -> Vec<u8> {
        self.sent
    }
}

impl<'a> End for ScriptEnd<'a> {
    ghost use Rattle.test_calls.specs.Scripts.{told_of_script, faults_of_script};

    ghost told = { λ e. told_of_script e };

    ghost faults = { λ e. faults_of_script e };

    ghost calm = { λ e. ⊥ };

    fn read(&mut self, into: &mut [u8]) -> EndRead {
        if self.plan.next_fails() {
            self.faults.raise();
            return EndRead::Failed;
        }
        let count = into.len().min(self.plan.step).min(self.coming.len());
        if count == 0 {
            self.ended = true;
            return EndRead::Ended;
        }
        if self.received.reserve(count).is_err() {
            return EndRead::Memory;
        }
        let (front, rest) = self.coming.split_at(count);
        into[..count].copy_from_slice(front);
        self.received.extend_from_slice(&into[..count]).unwrap();
        self.coming = rest;
        EndRead::Got(count)
    }

    fn write(&mut self, piece: &[u8]) -> EndWrote {
        if self.plan.next_fails() {
            self.faults.raise();
            return EndWrote::Failed;
        }
        let piece = &piece[..piece.len().min(self.plan.step)];
        if self.sent.reserve(piece.len()).is_err() {
            return EndWrote::Memory;
        }
        self.sent.extend_from_slice(piece).unwrap();
        EndWrote::Took(piece.len())
    }

    fn close(&mut self) {
        self.closed = true;
    }
}
