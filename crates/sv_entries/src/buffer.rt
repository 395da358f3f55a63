//! Lines of entries in memory.
ghost use Rattle.std.specs.Prelude.{◌≡◌, ◌++◌, ◌==◌, [], length, OnOk, OnErr};
ghost use Rattle.sv_entries.specs.Lines.{living_line};

use crate::print::put_line;
use std::alloc::{AllocError, Global};
use std::marker::Model;
use sv_wire::{Reply, Request};
use sv_world::Shape;

/// Lines of entries, one behind the other. Contracts see the list of their bytes.
///
/// A line is printed apart before it is appended, so that none is here in part. What was cleared leaves its memory to the next lines.
#[derive(Debug, Drop)]
pub struct LineBuffer {
    lines: String,
    next: String,
}

impl Model for LineBuffer {
    ghost use Rattle.std.specs.Prelude.{ℕ, List, string_bytes};

    ghost Value = { List ℕ };

    ghost view = { λ a. string_bytes a.lines };
}

impl LineBuffer {
    /// No lines, which take no memory.
    pub fn new(alloc: Global) -> LineBuffer
        ensures { result ≡ [] }
    {
        LineBuffer {
            lines: String::new(alloc),
            next: String::new(alloc),
        }
    }

    pub fn as_bytes(&self) -> &[u8]
        ensures { result.now ≡ self.now }
    {
        self.lines.as_bytes()
    }

    pub fn len(&self) -> usize
        ensures { result ≡ length self.now }
    {
        self.lines.as_bytes().len()
    }

    pub fn is_empty(&self) -> bool
        ensures { result ≡ (length self.now == 0) }
    {
        self.len() == 0
    }

    /// Takes all lines away. Their memory is kept.
    pub fn clear(&mut self)
        ensures { self.new ≡ [] }
    {
        self.lines.clear();
    }

    /// Appends the line of an entry: its number, its session, what was asked and what was sent. An action that is refused in the shape is
    /// printed as `bad`. Where memory runs out no line is appended.
    pub fn append_line(
        &mut self,
        shape: Shape,
        number: u64,
        session: u64,
        request: &Request,
        reply: &Reply,
    ) -> Result<(), AllocError>
        ensures ok { OnOk result (self.new ≡ self.old ++ living_line shape number session request.now reply.now) }
        ensures err { OnErr result (self.new ≡ self.old) }
    {
        self.next.clear();
        put_line(shape, number, session, request, reply, &mut self.next)?;
        self.lines.push_str(self.next.as_str())
    }
}
