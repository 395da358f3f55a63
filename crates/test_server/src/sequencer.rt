//! Journals that were typed from the rules by hand: a server that is asked what their lines ask answers as they tell.
ghost use Rattle.std.specs.Prelude.{◌≡◌, ◌<◌, ◌≤◌, [], true, false, IfOk, IfSome, Some};
ghost use Rattle.sv_journal.specs.Answer.{MayBeSession};
ghost use Rattle.sv_journal.specs.Sessions.{is_end, is_ended};
ghost use Rattle.sv_sequencer.specs.Step.{history};

mod arbitrary;
mod observed;
mod plainly;
mod refusals;
mod rows;
mod scans;
mod shared;
mod threads;

use std::alloc::Global;
use std::test::Fail;
use sv_sequencer::Sequencer;
use sv_wire::Request;
use test_asked::{Asked, asked_in, check_lines, world_of};

/// A server of objects of one number each, for four sessions.
fn opened(alloc: Global, numbers: &[i64], bound: u8, reach: Option<u32>) -> Result<Sequencer, Fail>
    requires bound { bound ≤ 32 }
    requires reach { IfSome reach (λ far. far ≤ 2000000) }
    ensures sessions { IfOk result (λ s. s.rules.sessions ≡ Some 4) }
    ensures empty { IfOk result (λ s. s.journal.entries ≡ []) }
{
    let world = world_of(alloc, numbers)?;
    Ok(Sequencer::new(alloc, world, bound, reach, 4)?)
}

/// A request of a session that there is, but for a second End.
fn may_ask(sequencer: &Sequencer, session: u16, request: &Request) -> bool
    ensures { result ≡ true → MayBeSession sequencer.now.rules.sessions session × (is_end request.now ≡ true → is_ended (history sequencer.now) session ≡ false) }
{
    if session >= sequencer.sessions() {
        return false;
    }
    match request {
        Request::End => !sequencer.is_ended(session),
        _ => true,
    }
}

fn ask(sequencer: &mut Sequencer, session: u16, request: Request) -> Result<(), Fail> {
    if !may_ask(sequencer, session, &request) {
        // At the end of its scope it would make a long proof; a call that takes it makes none.
        drop(request);
        return Err(Fail::new("no such request may be made"));
    }
    sequencer.step(session, request)?;
    Ok(())
}

/// Asks what a line asks.
fn ask_line(alloc: Global, sequencer: &mut Sequencer, line: &str) -> Result<(), Fail> {
    let Asked { session, request } = asked_in(alloc, line)?;
    ask(sequencer, session, request)
}

fn play(alloc: Global, sequencer: &mut Sequencer, lines: &str) -> Result<(), Fail> {
    for line in lines.lines() {
        ask_line(alloc, sequencer, line)?;
    }
    Ok(())
}

/// A server whose journal has so many entries answers each line as it tells.
fn check_from(
    alloc: Global,
    sequencer: &mut Sequencer,
    objects: u16,
    entries: usize,
    lines: &str,
) -> Result<(), Fail> {
    play(alloc, sequencer, lines)?;
    check_lines(alloc, sequencer.journal(), objects, entries, lines)
}

/// A new server of objects of one number each answers each line as it tells.
fn check(
    rt: &HostRuntime,
    numbers: &[i64],
    bound: u8,
    reach: Option<u32>,
    lines: &str,
) -> Result<(), Fail>
    requires bound { bound ≤ 32 }
    requires reach { IfSome reach (λ far. far ≤ 2000000) }
{
    let objects = u16::try_from(numbers.len()).unwrap_or(u16::MAX);
    let mut sequencer = opened(rt.alloc(), numbers, bound, reach)?;
    let told = check_from(rt.alloc(), &mut sequencer, objects, 0, lines);
    drop(sequencer);
    told
}
