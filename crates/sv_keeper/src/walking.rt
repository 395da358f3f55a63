//! Taking the lines of a log again.
ghost use Rattle.std.specs.Prelude.{◌≡◌, [], IfOk, IfErr, OnOk, OnErr};
ghost use Rattle.sv_world.specs.Worlds.{IsGoodShape};
ghost use Rattle.sv_keeper.specs.Walks.{TakesLine, TakesLines, IsAskedBy, IsWalk, WhyNotThis, WhyNone, WhyWalkStops};

use crate::fault::LineCause;
use std::alloc::{AllocError, Global};
use sv_core::Answer;
use sv_entries::{
    LineAsked, LineBuffer, LineRequest, bad_action, causes_are_told, line_at, replies_go_by_faults,
    replies_have_one_text,
};
use sv_lines::{LineFault, take_line};
use sv_living::{LivingCore, StepFault};
use sv_wire::Request;
use sv_world::{BadAction, Shape};

/// Why a walk over lines stops.
#[derive(Clone, Copy, Debug, Drop, PartialEq, Eq)]
pub(crate) enum WalkStop {
    /// The next line is not right.
    Wrong(LineCause),
    Memory,
}

/// A walk over the lines of a log: the core that has their entries, and the number of the next line.
#[derive(Drop)]
pub(crate) struct LineWalk {
    pub(crate) alloc: Global,
    pub(crate) shape: Shape,
    pub(crate) core: LivingCore,
    pub(crate) next: u64,
    pub(crate) line: LineBuffer,
}

// What a line asks for. An action that was left out is any that is refused for the cause that the line tells.
fn request_of(alloc: Global, shape: Shape, asked: LineRequest) -> Result<Request, AllocError>
    requires good { IsGoodShape shape }
    ensures { IfOk result (IsAskedBy shape asked) }
{
    match asked {
        LineRequest::Whole(request) => Ok(request),
        LineRequest::BadSubmit { seq, cause } => {
            let cause = cause.unwrap_or(BadAction::NoReads);
            let action = bad_action(alloc, shape, cause)?;
            Ok(Request::Submit { seq, action })
        }
    }
}

impl LineWalk {
    /// Takes the first line of a text: steps its request, prints its entry and compares. Gives what stands behind it.
    fn take_first<'a>(&mut self, text: &'a [u8]) -> Result<&'a [u8], WalkStop>
        requires walk { IsWalk self.old }
        ensures walk { OnOk result (IsWalk self.new) }
        ensures taken { IfOk result (λ rest. TakesLine self.old.core self.new.core text.now rest.now) }
        ensures why { IfErr result (WhyNone self.old.core text.now) }
        ensures next { OnErr result (self.new.next ≡ self.old.next) }
    {
        replies_have_one_text();
        causes_are_told();
        replies_go_by_faults();
        let LineAsked {
            number: _,
            session,
            asked,
        } = match line_at(self.alloc, self.shape, text) {
            Ok(asked) => asked,
            Err(LineFault::Wrong) => return Err(WalkStop::Wrong(LineCause::Unread)),
            Err(LineFault::Memory) => return Err(WalkStop::Memory),
        };
        match request_of(self.alloc, self.shape, asked) {
            Ok(request) => self.step(session, &request, text),
            Err(_) => Err(WalkStop::Memory),
        }
    }

    // Steps a request, prints its entry, and compares.
    fn step<'a>(
        &mut self,
        session: u64,
        request: &Request,
        text: &'a [u8],
    ) -> Result<&'a [u8], WalkStop>
        requires walk { IsWalk self.old }
        ensures walk { OnOk result (IsWalk self.new) }
        ensures taken { IfOk result (λ rest. TakesLine self.old.core self.new.core text.now rest.now) }
        ensures why { IfErr result (WhyNotThis self.old.core session request.now text.now) }
        ensures next { OnErr result (self.new.next ≡ self.old.next) }
    {
        self.core.is_lawful();
        let Answer { logged, reply } = match self.core.step(session, request) {
            Ok(answer) => answer,
            Err(StepFault::Memory) => return Err(WalkStop::Memory),
            Err(StepFault::NotOpen) => return Err(WalkStop::Wrong(LineCause::Session)),
            Err(StepFault::NoRoom) => return Err(WalkStop::Wrong(LineCause::Session)),
        };
        drop(logged);
        self.line.clear();
        let Ok(()) = self
            .line
            .append_line(self.shape, self.next, session, request, &reply)
        else {
            return Err(WalkStop::Memory);
        };
        let Some(next) = self.next.checked_add(1) else {
            return Err(WalkStop::Memory);
        };
        replies_have_one_text();
        match take_line(text, self.line.as_bytes()) {
            Ok(rest) => {
                self.next = next;
                Ok(rest)
            }
            Err(_) => Err(WalkStop::Wrong(LineCause::Other)),
        }
    }

    /// Takes all lines of a text.
    pub(crate) fn take_all(&mut self, text: &[u8]) -> Result<(), WalkStop>
        requires walk { IsWalk self.old }
        ensures walk { OnOk result (IsWalk self.new) }
        ensures taken { OnOk result (TakesLines self.old.core self.new.core text.now []) }
        ensures why { IfErr result (WhyWalkStops self.old.core text.now self.new.next) }
    {
        let mut rest = text;
        while !rest.is_empty() {
            rest = self.take_first(rest)?;
        }
        Ok(())
    }
}
