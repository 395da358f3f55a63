//! Journals, with what is in dispute after them, typed from the rules by hand.
ghost use Rattle.std.specs.Prelude.{◌≡◌, ◌<◌, IfOk, Some};

mod rows;

use std::alloc::{AllocError, Global};
use std::test::Fail;
use sv_wire::{Request, copy_request};
use sv_witness::{Dispute, Report, Witness};
use sv_world::{ObjectId, Value};
use test_asked::{asked_in, check_lines, world_of};

const SESSIONS: u16 = 4;

/// A client, and the number that it reports for each written object.
type Told<'a> = (u16, &'a [i64]);

/// A server of objects of one number each, its journal's lines, and how it then stands.
#[derive(Clone, Copy)]
struct Case<'a> {
    name: &'a str,
    numbers: &'a [i64],
    lines: &'a str,
    /// The position of each dispute, the first report of it, and the first one that differs.
    disputes: &'a [(u32, Told<'a>, Told<'a>)],
    commit: u32,
    /// The committed number of object 0.
    first: i64,
}

/// A server for four sessions, with bound 8.
fn opened(alloc: Global, numbers: &[i64]) -> Result<Witness, Fail>
    ensures sessions { IfOk result (λ w. w.rules.sessions ≡ Some 4) }
    ensures some { IfOk result (λ w. 0 < w.rules.world.shape.objects) }
{
    let world = world_of(alloc, numbers)?;
    Ok(Witness::new(alloc, world, 8, None, SESSIONS)?)
}

fn stands_at(witness: &Witness, entries: usize, commit: u32, disputes: usize) -> bool {
    witness.journal().entries().len() == entries
        && witness.commit() == commit
        && witness.disputes().len() == disputes
}

/// One request that is no End. Whether it was answered.
fn step(witness: &mut Witness, session: u16, request: Request) -> Result<bool, Fail>
    requires sessions { witness.old.rules.sessions ≡ Some 4 }
    ensures same { witness.new.rules ≡ witness.old.rules }
{
    // At the end of its scope a request would make a long proof; a call that takes it makes none.
    if session >= SESSIONS {
        drop(request);
        return Err(Fail::new("there is no such session"));
    }
    if let Request::End = request {
        drop(request);
        return Err(Fail::new("no line asks for an End"));
    }
    match witness.step(session, request) {
        Ok(reply) => {
            drop(reply);
            Ok(true)
        }
        Err(_) => Ok(false),
    }
}

/// Asks once more where there was no memory. Then nothing may have changed.
fn ask(alloc: Global, witness: &mut Witness, session: u16, request: &Request) -> Result<(), Fail>
    requires sessions { witness.old.rules.sessions ≡ Some 4 }
    ensures same { witness.new.rules ≡ witness.old.rules }
{
    let entries = witness.journal().entries().len();
    let commit = witness.commit();
    let disputes = witness.disputes().len();
    let copy = copy_request(alloc, request)?;
    if step(witness, session, copy)? {
        return Ok(());
    }
    if !stands_at(witness, entries, commit, disputes) {
        return Err(Fail::new("a step without memory changed the server"));
    }
    let again = copy_request(alloc, request)?;
    if step(witness, session, again)? {
        Ok(())
    } else {
        Err(Fail::from(AllocError))
    }
}

/// Asks what a line asks.
fn ask_line(alloc: Global, witness: &mut Witness, line: &str) -> Result<(), Fail>
    requires sessions { witness.old.rules.sessions ≡ Some 4 }
    ensures same { witness.new.rules ≡ witness.old.rules }
{
    let asked = asked_in(alloc, line)?;
    let answered = ask(alloc, witness, asked.session, &asked.request);
    // At the end of its scope it would make a long proof; a call that takes it makes none.
    drop(asked);
    answered
}

fn play(alloc: Global, witness: &mut Witness, lines: &str) -> Result<(), Fail>
    requires sessions { witness.old.rules.sessions ≡ Some 4 }
    ensures same { witness.new.rules ≡ witness.old.rules }
{
    for line in lines.lines() {
        ask_line(alloc, witness, line)?;
    }
    Ok(())
}

fn are_numbers(values: &[Value], numbers: &[i64]) -> bool {
    if values.len() != numbers.len() {
        return false;
    }
    for (value, number) in values.iter().zip(numbers.iter()) {
        if value.as_slice() != [*number].as_slice() {
            return false;
        }
    }
    true
}

fn is_told(report: &Report, told: Told) -> bool {
    let (client, numbers) = told;
    report.client.0 == client && are_numbers(report.values.as_slice(), numbers)
}

fn are_disputes(disputes: &[Dispute], expected: &[(u32, Told, Told)]) -> bool {
    if disputes.len() != expected.len() {
        return false;
    }
    for (dispute, (pos, first, second)) in disputes.iter().zip(expected.iter()) {
        if dispute.pos != *pos
            || !is_told(&dispute.first, *first)
            || !is_told(&dispute.second, *second)
        {
            return false;
        }
    }
    true
}

/// The replies, the disputes, the commit and the committed number of object 0 are those of the case.
fn compare_all(alloc: Global, witness: &Witness, case: &Case) -> Result<(), Fail>
    requires some { 0 < witness.now.rules.world.shape.objects }
{
    let name = case.name;
    let objects = u16::try_from(case.numbers.len()).unwrap_or(u16::MAX);
    check_lines(alloc, witness.journal(), objects, 0, case.lines)?;
    if !are_disputes(witness.disputes(), case.disputes) {
        return Err(Fail::new(format_args!("{name}: other disputes")));
    }
    if witness.commit() != case.commit {
        return Err(Fail::new(format_args!("{name}: another commit")));
    }
    if witness.committed(ObjectId(0)).as_slice() != [case.first].as_slice() {
        return Err(Fail::new(format_args!("{name}: another committed value")));
    }
    Ok(())
}

fn play_and_compare(alloc: Global, witness: &mut Witness, case: &Case) -> Result<(), Fail>
    requires sessions { witness.old.rules.sessions ≡ Some 4 }
    requires some { 0 < witness.old.rules.world.shape.objects }
{
    play(alloc, witness, case.lines)?;
    compare_all(alloc, witness, case)
}

/// Each line of the case is answered as it tells, and the server then stands as the case says.
fn check(alloc: Global, case: &Case) -> Result<(), Fail> {
    let mut witness = opened(alloc, case.numbers)?;
    let told = play_and_compare(alloc, &mut witness, case);
    drop(witness);
    told
}
