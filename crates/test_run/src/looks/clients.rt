//! The calls of a client that looks.
use std::alloc::{AllocError, Global};
use std::test::Fail;
use sv_client::{Client, MakeFault};
use sv_lists::List;
use sv_looks::{is_look, look};
use sv_wire::Request;
use sv_world::{Action, ClientId, ObjectId, Point, Shape};

/// A world of 18 objects with one attribute.
const SHAPE: Shape = Shape {
    objects: 18,
    attrs: 1,
};

/// How many objects are looked at, from the first one on and with this step; where the look is made; and the cause of its refusal, or 0.
const LOOKS: &[(u16, u16, i32, u8)] = &[
    (1, 1, 0, 0),
    (2, 17, -1_000_000, 0),
    (16, 1, 1_000_000, 0),
    (0, 1, 0, 1),
    (17, 1, 0, 2),
    (2, 0, 0, 3),
    (2, 18, 0, 4),
    (1, 1, 1_000_001, 11),
];

fn objects(alloc: Global, count: u16, step: u16) -> Result<Vec<ObjectId>, AllocError> {
    let mut objects = Vec::new(alloc);
    for n in 0..count {
        objects.push(ObjectId(n.saturating_mul(step)))?;
    }
    Ok(objects)
}

/// Whether an action is a look at these objects.
fn is_look_at(action: &Action, objects: &[ObjectId]) -> bool {
    is_look(action) && action.reads.as_slice() == objects
}

/// The cause of a refusal: 0 for the Submit 1 of a look at these objects, and 255 for any other answer.
fn cause_in(made: &Result<Request, MakeFault>, objects: &[ObjectId]) -> u8 {
    match made {
        Ok(Request::Submit { seq, action }) if *seq == 1 && is_look_at(action, objects) => 0,
        Err(MakeFault::BadAction(cause)) => cause.code(),
        _ => 255,
    }
}

/// The cause for which a client's first look is refused, as above.
fn cause_of(alloc: Global, count: u16, step: u16, x: i32) -> Result<u8, AllocError> {
    let objects = objects(alloc, count, step)?;
    let mut client = Client::new(alloc, ClientId(0), SHAPE, List::new(alloc))?;
    if client.sessions() >= 64 {
        return Ok(255);
    }
    client.join()?;
    if !client.in_session() || client.made() >= 65536 {
        return Ok(255);
    }
    let made = look(alloc, &mut client, &objects, Point { x, y: 0 });
    Ok(cause_in(&made, &objects))
}

#[test]
fn looks_are_made(rt: HostRuntime) -> Result<(), Fail> {
    for (count, step, x, cause) in LOOKS {
        assert_eq!(&rt;
            cause_of(rt.alloc(), *count, *step, *x)?,
            *cause,
            "{count} {step} {x}"
        );
    }
    Ok(())
}
