//! Checking a line both ways.
use std::alloc::Global;
use std::test::Fail;
use sv_entries::{LineAsked, LineBuffer, LineRequest, line_at};
use sv_lines::same_request;
use sv_wire::{Reply, Request};
use sv_world::Shape;

/// The shape of the worlds whose lines are tested.
pub const SHAPE: Shape = Shape {
    objects: 70,
    attrs: 2,
};

/// Whose entry a line is.
#[derive(Clone, Copy, Drop)]
pub struct Place {
    pub number: u64,
    pub session: u64,
}

/// Whether this is printed as the line.
fn is_printed(
    alloc: Global,
    place: Place,
    request: &Request,
    reply: &Reply,
    line: &str,
) -> Result<bool, Fail> {
    let mut lines = LineBuffer::new(alloc);
    lines.append_line(SHAPE, place.number, place.session, request, reply)?;
    let once = lines.as_bytes() == line.as_bytes();
    lines.append_line(SHAPE, place.number, place.session, request, reply)?;
    let twice = lines.len() == line.len().saturating_mul(2);
    lines.clear();
    let none = lines.is_empty();
    lines.append_line(SHAPE, place.number, place.session, request, reply)?;
    Ok(once && twice && none && lines.as_bytes() == line.as_bytes())
}

fn tells(asked: &LineAsked, place: Place, request: &Request) -> bool {
    match &asked.asked {
        LineRequest::Whole(read) => {
            asked.number == place.number
                && asked.session == place.session
                && same_request(read, request)
        }
        LineRequest::BadSubmit { .. } => false,
    }
}

/// Whether the line tells this.
fn is_read(alloc: Global, place: Place, request: &Request, line: &str) -> Result<bool, Fail> {
    let asked = line_at(alloc, SHAPE, line.as_bytes())?;
    let told = tells(&asked, place, request);
    drop(asked);
    Ok(told)
}

fn check_both(
    alloc: Global,
    place: Place,
    request: &Request,
    reply: &Reply,
    line: &str,
) -> Result<(), Fail> {
    if !is_printed(alloc, place, request, reply, line)? {
        return Err(Fail::new(format_args!("not printed: {line}")));
    }
    if !is_read(alloc, place, request, line)? {
        return Err(Fail::new(format_args!("not read: {line}")));
    }
    Ok(())
}

/// The line of an entry is this, and tells its request.
pub fn check(
    alloc: Global,
    place: Place,
    request: Request,
    reply: Reply,
    line: &str,
) -> Result<(), Fail> {
    let told = check_both(alloc, place, &request, &reply, line);
    drop(request);
    drop(reply);
    told
}
