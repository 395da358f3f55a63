//! The lines of journals: what they ask, and whether a journal has them.
use std::alloc::Global;
use std::test::Fail;
use sv_journal::{Journal, print_journal, relays_name_accepted};
use sv_lines::{Asked, asked_at};
use sv_wire::Request;
use sv_world::Shape;

/// A world that has every object.
const GREATEST: Shape = Shape {
    objects: 4096,
    attrs: 4,
};

/// What the line of a malformed payload asks, by its front, as `7 s0`.
fn bad_in(front: &str) -> Result<Asked, Fail> {
    let Some((_, session)) = front.split_once(" s") else {
        return Err(Fail::new(format_args!("no session: {front}")));
    };
    Ok(Asked {
        session: session.parse::<u16>()?,
        request: Request::Bad,
    })
}

/// What a line asks: its session and its request. In place of a refused action stands one on an object that the worlds of the tests lack.
pub fn asked_in(alloc: Global, line: &str) -> Result<Asked, Fail> {
    let Some((front, _)) = line.split_once(" bad -> ") else {
        return Ok(asked_at(alloc, GREATEST, line.as_bytes())?);
    };
    if !front.contains(" submit ") {
        return bad_in(front);
    }
    let line = format!(in alloc; "{front} reads 4095 writes {{ }} -> ")?;
    Ok(asked_at(alloc, GREATEST, line.as_bytes())?)
}

/// The text of a journal of a world of objects of one number each.
pub fn printed(alloc: Global, objects: u16, journal: &Journal) -> Result<String, Fail> {
    let mut out = String::new(alloc);
    if !relays_name_accepted(journal) {
        return Err(Fail::new("a relay names what was not accepted"));
    }
    print_journal(Shape { objects, attrs: 1 }, journal, &mut out)?;
    Ok(out)
}

/// Whether a text has so many lines before these, and no more behind them.
fn ends_in(text: &str, from: usize, lines: &str) -> bool {
    match text.strip_suffix(lines) {
        Some(front) => front.ends_with('\n') && front.lines().count() == from,
        None => false,
    }
}

/// After so many entries the journal of a world of objects of one number each has these lines, and no more.
pub fn check_lines(
    alloc: Global,
    journal: &Journal,
    objects: u16,
    entries: usize,
    lines: &str,
) -> Result<(), Fail> {
    let text = printed(alloc, objects, journal)?;
    if !ends_in(text.as_str(), entries.saturating_add(1), lines) {
        return Err(Fail::new(format_args!("not these lines: {text}")));
    }
    Ok(())
}
