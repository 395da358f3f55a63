//! Queues drawn from a fixed sequence, on which the greatest cut is compared with the plain walk for an action that reads the objects.
ghost use Rattle.std.specs.Prelude.{◌≡◌, ◌<◌};

use crate::actions::world;
use crate::calls::{give, mark, pop, push_at};
use crate::drawn::{draw, shape_of};
use crate::shown::cut_of;
use std::alloc::{AllocError, Global};
use std::marker::Brand;
use std::sync::ledger::{Blank, Ledger};
use std::test::Fail;
use sv_influence::{Closure, ConsistentCut, closure, plain_closure};
use sv_lists::List;
use sv_queue::{Queue, Steps};
use sv_world::ObjectId;

/// Sends a session what it lacks of a position, so that its marks stay closed.
fn send<L: Ledger>(
    alloc: Global,
    queue: &mut Queue,
    session: u16,
    pos: u32,
    steps: &mut Steps<L>,
) -> Result<(), AllocError> {
    if pos <= queue.commit() || queue.last() < pos {
        return Ok(());
    }
    let relay = closure(alloc, queue, session, pos, steps)?;
    for item in relay.items.as_slice() {
        mark(queue, *item, session);
    }
    Ok(())
}

/// 60 actions of a shape, of which some are sent.
fn fill<L: Ledger>(
    alloc: Global,
    queue: &mut Queue,
    number: u32,
    seed: &mut u64,
    steps: &mut Steps<L>,
) -> Result<(), AllocError> {
    for at in 0..60u32 {
        let shape = shape_of(number, at, seed);
        let pos = push_at(alloc, queue, shape, (0, 0))?;
        if draw(seed) % 16 == 0 {
            send(alloc, queue, (draw(seed) % 2) as u16, pos, steps)?;
        }
        give(queue, (draw(seed) % 64) as u16, (draw(seed) % 2) as u16);
    }
    Ok(())
}

/// What a session lacks of an action that reads these objects and is then taken away again, by the plain walk.
fn plain<L: Ledger>(
    alloc: Global,
    queue: &mut Queue,
    session: u16,
    objects: u64,
    steps: &mut Steps<L>,
) -> Result<Option<Closure>, AllocError> {
    let pos = push_at(alloc, queue, (objects, 0), (0, 0))?;
    if pos <= queue.commit() || queue.last() < pos {
        return Ok(None);
    }
    let closure = plain_closure(alloc, queue, session, pos, steps);
    pop(queue);
    Ok(Some(closure?))
}

/// Whether the plain walk has 33 items or fewer and just those of the cut, at the last position.
fn is_plain<L: Ledger>(
    alloc: Global,
    queue: &mut Queue,
    session: u16,
    objects: u64,
    cut: &ConsistentCut,
    steps: &mut Steps<L>,
) -> Result<bool, AllocError> {
    let Some(plain) = plain(alloc, queue, session, objects, steps)? else {
        return Ok(false);
    };
    let items = plain.items.as_slice();
    let is_so = match items.split_last() {
        Some((_, items)) => items == cut.items.as_slice() && items.len() <= 33,
        None => false,
    };
    Ok(is_so && plain.head.as_slice() == cut.head.as_slice())
}

/// Whether the plain walk has more than 33 items besides the action that reads.
fn is_too_much<L: Ledger>(
    alloc: Global,
    queue: &mut Queue,
    session: u16,
    objects: u64,
    steps: &mut Steps<L>,
) -> Result<bool, AllocError> {
    let Some(plain) = plain(alloc, queue, session, objects, steps)? else {
        return Ok(false);
    };
    Ok(plain.items.as_slice().len() > 34)
}

/// Whether the cut is that of the plain walk at its position, and the plain walk has too much at the next one, if there is one. The later
/// actions are taken off.
fn agrees<L: Ledger>(
    alloc: Global,
    queue: &mut Queue,
    session: u16,
    objects: u64,
    cut: &ConsistentCut,
    steps: &mut Steps<L>,
) -> Result<bool, AllocError> {
    let above = queue.last().saturating_sub(cut.last);
    for _ in 1..above {
        pop(queue);
    }
    if above > 0 {
        if !is_too_much(alloc, queue, session, objects, steps)? {
            return Ok(false);
        }
        pop(queue);
    }
    is_plain(alloc, queue, session, objects, cut, steps)
}

/// The objects of a set of bits.
fn objects_of(alloc: Global, bits: u64) -> Result<List<ObjectId>, AllocError> {
    let mut objects = List::new(alloc);
    for object in 0..8u16 {
        if (bits >> object) & 1 == 1 {
            objects.push(ObjectId(object))?;
        }
    }
    Ok(objects)
}

/// How far below the last position the cut of a drawn queue is, where it is that of the plain walk.
fn compared_in<L: Ledger>(
    alloc: Global,
    queue: &mut Queue,
    number: u32,
    seed: &mut u64,
    steps: &mut Steps<L>,
) -> Result<Option<u32>, AllocError> {
    fill(alloc, queue, number, seed, steps)?;
    let session = (draw(seed) % 3) as u16;
    let bits = draw(seed) % 255 + 1;
    let objects = objects_of(alloc, bits)?;
    let Some(cut) = cut_of(alloc, queue, session, objects.as_slice(), steps)? else {
        return Ok(None);
    };
    let older = queue.last().saturating_sub(cut.last);
    let is_same = agrees(alloc, queue, session, bits, &cut, steps)?;
    Ok(is_same.then_some(older))
}

/// The same of a queue over eight objects.
fn compared_queue<L: Ledger>(
    alloc: Global,
    number: u32,
    seed: &mut u64,
    steps: &mut Steps<L>,
) -> Result<Option<u32>, AllocError> {
    let mut queue = Queue::new(alloc, world(alloc, 8)?)?;
    let older = compared_in(alloc, &mut queue, number, seed, steps);
    drop(queue);
    older
}

/// How many queues were drawn before the first on which the two differ, and how many of their cuts are older than the last position.
fn compared<L: Ledger>(alloc: Global, blank: Blank) -> Result<(u32, u32), AllocError>
    requires name { blank.name ≡ L.name }
    requires parts { blank.parts ≡ L.parts }
    requires some { 0 < blank.parts }
{
    let mut steps = Steps::<L>::new(blank);
    let mut seed = 1;
    let mut older = 0u32;
    for number in 0..400u32 {
        match compared_queue(alloc, number, &mut seed, &mut steps)? {
            Some(0) => {}
            Some(_) => older = older.wrapping_add(1),
            None => return Ok((number, older)),
        }
    }
    Ok((400, older))
}

#[test]
fn cuts_are_those_of_the_plain_walk(rt: HostRuntime) -> Result<(), Fail> {
    let (queues, older) = compared::<Brand>(rt.alloc(), Blank::new(1))?;
    assert!(rt; queues == 400 && older > 100);
    Ok(())
}
