//! Arbitrary requests, honest and not, answered by the sequencer and beside it by the plain definition.
ghost use Rattle.std.specs.Prelude.{◌≤◌, IfSome};

use super::plainly::{Rules, reply_to};
use super::scans::{
    accepted, action_at, client_of, commit_with, is_sent, last, next_seq, number, outcomes, written,
};
use super::{ask, may_ask};
use crate::journal::add_made;
use std::alloc::{AllocError, Global};
use std::test::Fail;
use sv_journal::{Entry, Journal};
use sv_lists::List;
use sv_sequencer::Sequencer;
use sv_wire::{Done1, Request, copy_request};
use sv_world::{Action, Body, ClientId, ObjectId, Point, Reads, Shape, Value};
use test_asked::{printed, values_of, world_of};

const JOURNALS: u64 = 120;

const REQUESTS: u32 = 60;

const SESSIONS: u16 = 5;

const OBJECTS: u16 = 4;

const OPENING: [i64; 4] = [7, 8, 9, 10];

/// Each stands in some journal.
const REPLIES: [&str; 19] = [
    " welcome ",
    " relay ",
    " relay 0 ",
    " dropped ",
    " seen ",
    " settled ",
    " noted ",
    " idle",
    " bye",
    " refused 1 0",
    " refused 2 0",
    " refused 3 0",
    " refused 4 0",
    " refused 5 ",
    " refused 6 ",
    " refused 7 0",
    " refused 8 0",
    " refused 10 0",
    " refused 11 ",
];

/// A fixed sequence of numbers.
#[derive(Drop)]
struct Dice {
    state: u64,
}

impl Dice {
    /// A number below `limit`.
    fn below(&mut self, limit: u16) -> u16 {
        self.state = self
            .state
            .wrapping_mul(6364136223846793005)
            .wrapping_add(1442695040888963407);
        let drawn = (self.state >> 33).checked_rem(u64::from(limit));
        u16::try_from(drawn.unwrap_or(0)).unwrap_or(0)
    }

    /// One in so many times.
    fn is_rare(&mut self, limit: u16) -> bool {
        self.below(limit) == 0
    }
}

fn some_objects(alloc: Global, dice: &mut Dice) -> Result<List<ObjectId>, AllocError> {
    let mut objects = List::new(alloc);
    for object in 0..OBJECTS {
        if dice.is_rare(3) {
            objects.push(ObjectId(object))?;
        }
    }
    if dice.is_rare(12) {
        objects.push(ObjectId(dice.below(6)))?;
    }
    Ok(objects)
}

/// An action without a body. Some are refused.
fn some_action(alloc: Global, dice: &mut Dice) -> Result<Action, AllocError> {
    let reads = Reads::from_slice(alloc, some_objects(alloc, dice)?.as_slice())?;
    let limit = if dice.is_rare(12) {
        32
    } else {
        1u16.checked_shl(number(reads.len())).unwrap_or(1)
    };
    Ok(Action {
        reads,
        mask: dice.below(limit),
        origin: Point {
            x: i32::from(dice.below(9)),
            y: i32::from(dice.below(3)),
        },
        body: Body::from_stmts(alloc, &[])?,
    })
}

fn some_join(alloc: Global, dice: &mut Dice) -> Result<Request, AllocError> {
    let client = if dice.is_rare(20) { 32 } else { dice.below(3) };
    Ok(Request::Join {
        client: ClientId(client),
        life: u32::from(dice.below(5)),
        interest: some_objects(alloc, dice)?,
    })
}

/// Mostly with the client's next number.
fn some_submit(
    alloc: Global,
    entries: &[Entry],
    session: u16,
    dice: &mut Dice,
) -> Result<Request, AllocError> {
    let told = outcomes(alloc, entries)?;
    let client = client_of(entries, session).unwrap_or(0);
    let next = next_seq(told.as_slice(), client);
    let seq = if dice.is_rare(4) {
        u32::from(dice.below(12))
    } else {
        next
    };
    Ok(Request::Submit {
        seq,
        action: some_action(alloc, dice)?,
    })
}

/// A value, mostly of one number.
fn some_value(alloc: Global, dice: &mut Dice) -> Result<Value, AllocError> {
    let mut value = Value::new(alloc);
    value.push(i64::from(dice.below(100)))?;
    if dice.is_rare(50) {
        value.push(0)?;
    }
    Ok(value)
}

/// Values, mostly for each of so many objects.
fn some_values(alloc: Global, count: usize, dice: &mut Dice) -> Result<List<Value>, AllocError> {
    let mut values = List::new(alloc);
    for _ in 0..count {
        values.push(some_value(alloc, dice)?)?;
    }
    if dice.is_rare(50) {
        values.push(some_value(alloc, dice)?)?;
    }
    Ok(values)
}

/// Mostly the first positions above the commit that were sent to the session.
fn some_done(
    alloc: Global,
    entries: &[Entry],
    session: u16,
    dice: &mut Dice,
) -> Result<Request, AllocError> {
    let told = outcomes(alloc, entries)?;
    let last = last(told.as_slice());
    let commit = commit_with(entries, last, &[]);
    let from = if dice.is_rare(6) {
        commit.saturating_sub(u32::from(dice.below(3)))
    } else {
        commit.saturating_add(1)
    };
    Ok(Request::Done {
        results: some_results(alloc, entries, session, from, dice)?,
    })
}

/// Results of positions from one on.
fn some_results(
    alloc: Global,
    entries: &[Entry],
    session: u16,
    from: u32,
    dice: &mut Dice,
) -> Result<List<Done1>, AllocError> {
    let mut results = List::new(alloc);
    for pos in from..from.saturating_add(4) {
        if dice.is_rare(12) || is_sent(entries, session, pos) && !dice.is_rare(4) {
            let count = count_of(alloc, entries, pos)?;
            let values = some_values(alloc, count, dice)?;
            results.push(Done1 { pos, values })?;
        }
    }
    Ok(results)
}

/// How many objects the action at a position writes.
fn count_of(alloc: Global, entries: &[Entry], pos: u32) -> Result<usize, AllocError> {
    let told = outcomes(alloc, entries)?;
    let actions = accepted(alloc, entries, told.as_slice())?;
    Ok(match action_at(actions.as_slice(), pos) {
        Some(action) => written(action, 0).0,
        None => 0,
    })
}

fn some_observe(alloc: Global, dice: &mut Dice) -> Result<Request, AllocError> {
    Ok(Request::Observe {
        objects: some_objects(alloc, dice)?,
        wait: dice.below(3),
    })
}

fn some_request(
    alloc: Global,
    entries: &[Entry],
    session: u16,
    dice: &mut Dice,
) -> Result<Request, AllocError> {
    match dice.below(44) {
        0..=6 => some_join(alloc, dice),
        7..=19 => some_submit(alloc, entries, session, dice),
        20..=31 => some_done(alloc, entries, session, dice),
        32 => Ok(Request::Bad),
        33 => Ok(Request::Leave),
        34 => Ok(Request::End),
        35..=38 => some_observe(alloc, dice),
        _ => Ok(Request::Poll),
    }
}

/// A request to the sequencer, where it may be made. It tells whether.
fn ask_allowed(
    alloc: Global,
    sequencer: &mut Sequencer,
    session: u16,
    request: &Request,
) -> Result<bool, Fail> {
    if !may_ask(sequencer, session, request) {
        return Ok(false);
    }
    let copy = copy_request(alloc, request)?;
    ask(sequencer, session, copy)?;
    Ok(true)
}

/// The same request to the definition, over the journal beside the sequencer.
fn answer_plainly(
    alloc: Global,
    rules: Rules,
    journal: &mut Journal,
    session: u16,
    request: Request,
) -> Result<(), Fail> {
    let reply = reply_to(alloc, rules, journal.entries(), session, &request);
    add_made(journal, session, request, reply)
}

fn ask_both(
    alloc: Global,
    rules: Rules,
    sequencer: &mut Sequencer,
    journal: &mut Journal,
    dice: &mut Dice,
) -> Result<(), Fail> {
    let session = dice.below(SESSIONS);
    let request = some_request(alloc, journal.entries(), session, dice)?;
    match ask_allowed(alloc, sequencer, session, &request) {
        Ok(true) => answer_plainly(alloc, rules, journal, session, request),
        Ok(false) => {
            drop(request);
            Ok(())
        }
        Err(fail) => {
            drop(request);
            Err(fail)
        }
    }
}

fn play_both(
    alloc: Global,
    rules: Rules,
    sequencer: &mut Sequencer,
    journal: &mut Journal,
    dice: &mut Dice,
) -> Result<(), Fail> {
    for _ in 0..REQUESTS {
        ask_both(alloc, rules, sequencer, journal, dice)?;
    }
    Ok(())
}

/// Whether both journals have the same text, which is kept.
fn compare(alloc: Global, one: &Journal, other: &Journal, all: &mut String) -> Result<(), Fail> {
    let text = printed(alloc, OBJECTS, one)?;
    let plain = printed(alloc, OBJECTS, other)?;
    if text.as_str() != plain.as_str() {
        return Err(Fail::new("the definition answers otherwise"));
    }
    all.push_str(text.as_str())?;
    Ok(())
}

/// One journal of arbitrary requests.
fn answer(alloc: Global, rules: Rules, dice: &mut Dice, all: &mut String) -> Result<(), Fail>
    requires bound { rules.bound ≤ 32 }
    requires reach { IfSome rules.reach (λ far. far ≤ 2000000) }
{
    let world = world_of(alloc, &OPENING)?;
    let mut sequencer = Sequencer::new(alloc, world, rules.bound, rules.reach, SESSIONS)?;
    let mut journal = Journal::new(alloc);
    let told = match play_both(alloc, rules, &mut sequencer, &mut journal, dice) {
        Ok(()) => compare(alloc, sequencer.journal(), &journal, all),
        Err(fail) => Err(fail),
    };
    drop(sequencer);
    drop(journal);
    told
}

fn answer_all(alloc: Global, values: &[Value], all: &mut String) -> Result<(), Fail> {
    let shape = Shape {
        objects: OBJECTS,
        attrs: 1,
    };
    for seed in 0..JOURNALS {
        let mut dice = Dice { state: seed };
        let bound = (dice.below(4) % 4) as u8;
        let far = u32::from(dice.below(9)) % 9;
        let reach = if dice.is_rare(2) { None } else { Some(far) };
        let rules = Rules {
            shape,
            values,
            bound,
            reach,
        };
        answer(alloc, rules, &mut dice, all)?;
    }
    Ok(())
}

/// The texts of all journals.
fn all_texts(alloc: Global, all: &mut String) -> Result<(), Fail> {
    let values = values_of(alloc, &OPENING)?;
    answer_all(alloc, values.as_slice(), all)
}

#[test]
fn arbitrary_journals(rt: HostRuntime) -> Result<(), Fail> {
    let mut all = String::new(rt.alloc());
    all_texts(rt.alloc(), &mut all)?;
    for reply in REPLIES {
        assert!(rt; all.contains(reply), "no reply was{reply}");
    }
    Ok(())
}
