//! Where a line stands.
ghost use Rattle.std.specs.Prelude.{◌≤◌, IfOk, string_bytes};
ghost use Rattle.sv_keeper.specs.Places.{IsFirstOf, IsLaterOf, IsPlaceIn};

use std::alloc::{AllocError, Global};
use sv_log::segment_name;

/// A line of a file. Lines count from 1.
#[derive(Drop)]
pub(crate) struct LinePlace {
    pub(crate) file: String,
    pub(crate) line: u64,
}

/// The greatest number of these up to one, and 1 where there is none.
pub(crate) fn first_of(closed: &[u64], last: Option<u64>, number: u64) -> u64
    requires { 1 ≤ number }
    ensures { IsFirstOf closed.now last number result }
{
    let mut first = match last {
        Some(start) if 1 < start && start <= number => start,
        _ => 1,
    };
    for start in closed {
        first = later_of(first, *start, number);
    }
    first
}

/// The second number, where it is later than the first one and not above a third; else the first one.
fn later_of(first: u64, start: u64, number: u64) -> u64
    ensures { IsLaterOf first start number result }
{
    if first < start && start <= number {
        start
    } else {
        first
    }
}

/// The place of the line of a number in the segment that begins with the line of another.
pub(crate) fn place_in(alloc: Global, first: u64, number: u64) -> Result<LinePlace, AllocError>
    requires some { 1 ≤ first }
    requires within { first ≤ number }
    ensures { IfOk result (λ place. IsPlaceIn first number (string_bytes place.file) place.line) }
{
    Ok(LinePlace {
        file: segment_name(alloc, first)?,
        line: number - first + 1,
    })
}
