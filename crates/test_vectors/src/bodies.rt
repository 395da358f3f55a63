//! Tests of the greatest and the deepest bodies, and of bodies that are refused at the right place.
use crate::messages::{changed_request_is_refused, request_comes_back, request_is_refused};
use crate::vectors::SUBMIT;
use std::alloc::Global;
use std::process::Abort;
use std::test::Fail;
use sv_wire::{Malformed, Request, WireCause, decode_request};
use sv_world::{Node, Operator};

/// A statement that sets a number to a literal: two nodes, in twelve bytes.
const SET: [u8; 12] = [0x10, 0, 0, 0x20, 0, 0, 0, 0, 0, 0, 0, 1];

/// Appends so many of it.
pub fn put_sets(payload: &mut Vec<u8>, count: u8) -> Result<(), Fail> {
    for _ in 0..count {
        payload.extend_from_slice(&SET)?;
    }
    Ok(())
}

/// Eight negations, one in the other, in an `if`.
const DEEP: [u8; 9] = [0x11, 0x35, 0x35, 0x35, 0x35, 0x35, 0x35, 0x35, 0x35];

/// The submit with this many statements: so many that set a number, and the deep one behind them where there is one more.
fn submit_of(alloc: Global, count: u8, sets: u8) -> Result<Vec<u8>, Fail> {
    let mut payload = Vec::from_slice(alloc, &SUBMIT[..18])?;
    payload.push(count)?;
    put_sets(&mut payload, sets)?;
    if sets < count {
        payload.extend_from_slice(&DEEP)?;
    }
    Ok(payload)
}

fn submit_is_refused(
    rt: &impl Abort,
    alloc: Global,
    statements: (u8, u8),
    at: u32,
    cause: WireCause,
) -> Result<(), Fail> {
    let payload = submit_of(alloc, statements.0, statements.1)?;
    request_is_refused(rt, alloc, &payload, at, cause);
    Ok(())
}

#[test]
fn refused_nodes(rt: HostRuntime) -> Result<(), Fail> {
    for (statements, at, cause) in [
        ((1, 0), 27, WireCause::Deep),
        ((33, 33), 403, WireCause::Large),
        ((29, 28), 363, WireCause::Large),
        ((32, 31), 393, WireCause::Large),
        // So many statements may be told, but not follow.
        ((255, 255), 403, WireCause::Large),
    ] {
        submit_is_refused(&rt, rt.alloc(), statements, at, cause)?;
    }
    Ok(())
}

/// The submit with one other statement.
fn submit_with(alloc: Global, statement: &[u8]) -> Result<Vec<u8>, Fail> {
    let mut payload = Vec::from_slice(alloc, &SUBMIT[..19])?;
    payload.extend_from_slice(statement)?;
    Ok(payload)
}

/// An `if` with five negations, and a sum of six additions: eight levels each.
const EIGHT_LEVELS: [&[u8]; 2] = [
    &[
        0x11, 0x35, 0x35, 0x35, 0x35, 0x35, 0x30, 0x21, 0, 0, 0x21, 0, 0, 0, 0,
    ],
    &[
        0x10, 0, 0, 0x22, 0x22, 0x22, 0x22, 0x22, 0x22, 0x21, 0, 0, 0x21, 0, 0, 0x21, 0, 0, 0x21,
        0, 0, 0x21, 0, 0, 0x21, 0, 0, 0x21, 0, 0,
    ],
];

fn statement_comes_back(rt: &impl Abort, alloc: Global, statement: &[u8]) -> Result<(), Fail> {
    let payload = submit_with(alloc, statement)?;
    request_comes_back(rt, alloc, &payload)
}

/// One negation more, and one addition more, as far as a node on the ninth level.
const NINE_LEVELS: [(&[u8], u32); 2] = [
    (&[0x11, 0x35, 0x35, 0x35, 0x35, 0x35, 0x35, 0x30, 0x20], 27),
    (
        &[0x10, 0, 0, 0x22, 0x22, 0x22, 0x22, 0x22, 0x22, 0x22, 0x21],
        29,
    ),
];

fn statement_is_deep(
    rt: &impl Abort,
    alloc: Global,
    statement: &[u8],
    at: u32,
) -> Result<(), Fail> {
    let payload = submit_with(alloc, statement)?;
    request_is_refused(rt, alloc, &payload, at, WireCause::Deep);
    Ok(())
}

#[test]
fn eight_levels_and_nine(rt: HostRuntime) -> Result<(), Fail> {
    for statement in &EIGHT_LEVELS {
        statement_comes_back(&rt, rt.alloc(), statement)?;
    }
    for (statement, at) in &NINE_LEVELS {
        statement_is_deep(&rt, rt.alloc(), statement, *at)?;
    }
    Ok(())
}

/// An `if` whose first block has one statement, as far as that statement: four nodes and the block's count.
const NESTING: [u8; 15] = [0x11, 0x31, 0x21, 15, 0, 0x20, 0, 0, 0, 0, 0, 0, 0, 1, 1];

fn put_nestings(payload: &mut Vec<u8>, count: u8) -> Result<(), Fail> {
    for _ in 0..count {
        payload.extend_from_slice(&NESTING)?;
    }
    Ok(())
}

/// A submit with 16 reads, all written, whose body has 64 nodes on eight levels: six `if` in one another, each with statements behind it
/// where it does not hold. It has 385 bytes. Its body's count stands at 48, the innermost one at 138, those of the other blocks at 151,
/// 188, 225, 262, 299 and 336.
fn deepest_submit(alloc: Global) -> Result<Vec<u8>, Fail> {
    let mut payload = Vec::from_slice(alloc, &[6, 0, 0, 0, 1, 16])?;
    for object in 0..16u8 {
        payload.extend_from_slice(&[0, object])?;
    }
    payload.extend_from_slice(&[0xff, 0xff, 0, 0, 0, 0, 0, 0, 0, 0, 1])?;
    put_nestings(&mut payload, 6)?;
    put_sets(&mut payload, 1)?;
    for _ in 0..5u8 {
        payload.push(3)?;
        put_sets(&mut payload, 3)?;
    }
    payload.push(4)?;
    put_sets(&mut payload, 4)?;
    Ok(payload)
}

#[test]
fn deepest_body_comes_back(rt: HostRuntime) -> Result<(), Fail> {
    let submit = deepest_submit(rt.alloc())?;
    assert!(rt; submit.len() == 385);
    request_comes_back(&rt, rt.alloc(), &submit)
}

/// The greatest body with one count one too small or too great.
#[test]
fn counts_of_the_deepest_body(rt: HostRuntime) -> Result<(), Fail> {
    let submit = deepest_submit(rt.alloc())?;
    for (edit, at, cause) in [
        ((48, 0), 49, WireCause::Rest),
        ((48, 2), 385, WireCause::Short),
        ((138, 0), 140, WireCause::Kind),
        ((138, 2), 151, WireCause::Kind),
        ((151, 2), 177, WireCause::Kind),
        ((151, 4), 188, WireCause::Kind),
        ((336, 3), 373, WireCause::Rest),
        ((336, 5), 385, WireCause::Short),
    ] {
        changed_request_is_refused(&rt, rt.alloc(), &submit, edit, Malformed { at, cause })?;
    }
    Ok(())
}

/// The greatest body with a byte, or with a whole statement, behind its last one.
#[test]
fn spare_nodes_behind_the_deepest_body(rt: HostRuntime) -> Result<(), Fail> {
    let alloc = rt.alloc();
    let mut submit = deepest_submit(alloc)?;
    submit.push(0x10)?;
    request_is_refused(&rt, alloc, &submit, 385, WireCause::Rest);
    submit.extend_from_slice(&SET[1..])?;
    request_is_refused(&rt, alloc, &submit, 385, WireCause::Rest);
    // Where a count tells that it is there, it is a node too many.
    let refusal = Malformed {
        at: 385,
        cause: WireCause::Large,
    };
    for edit in [(48, 2), (336, 5)] {
        changed_request_is_refused(&rt, alloc, &submit, edit, refusal)?;
    }
    Ok(())
}

/// A seventh `if` in the six has its comparison on the eighth level.
#[test]
fn seven_levels_of_blocks(rt: HostRuntime) -> Result<(), Fail> {
    let mut submit = submit_with(rt.alloc(), &[])?;
    put_nestings(&mut submit, 7)?;
    request_is_refused(&rt, rt.alloc(), &submit, 111, WireCause::Deep);
    Ok(())
}

fn nodes_of(request: &Request) -> &[Node] {
    match request {
        Request::Submit { action, .. } => action.body.nodes(),
        _ => &[],
    }
}

fn are_at(nodes: &[Node], rows: &[(usize, Node)]) -> bool {
    for (place, node) in rows {
        if nodes.get(*place) != Some(node) {
            return false;
        }
    }
    true
}

/// Whether the body of a submit has so many nodes, and these at their places.
fn has_nodes(
    alloc: Global,
    payload: &[u8],
    count: usize,
    rows: &[(usize, Node)],
) -> Result<bool, Fail> {
    let Ok(request) = decode_request(alloc, payload) else {
        return Err(Fail::from("it is a request"));
    };
    let nodes = nodes_of(&request);
    let told = nodes.len() == count && are_at(nodes, rows);
    drop(request);
    Ok(told)
}

const SUBMIT_NODES: &[(usize, Node)] = &[
    (0, Node::Block { count: 1, size: 4 }),
    (1, Node::Set { slot: 0, attr: 0 }),
    (2, Node::Binary(Operator::Add)),
    (3, Node::Attr { slot: 0, attr: 0 }),
    (4, Node::Lit(1)),
];

/// The blocks of the greatest body, and the nodes behind the last one.
const DEEPEST_NODES: &[(usize, Node)] = &[
    (0, Node::Block { count: 1, size: 76 }),
    (5, Node::Block { count: 1, size: 62 }),
    (10, Node::Block { count: 1, size: 50 }),
    (15, Node::Block { count: 1, size: 38 }),
    (20, Node::Block { count: 1, size: 26 }),
    (25, Node::Block { count: 1, size: 14 }),
    (30, Node::Block { count: 1, size: 2 }),
    (33, Node::Block { count: 3, size: 6 }),
    (61, Node::Block { count: 3, size: 6 }),
    (68, Node::Block { count: 4, size: 8 }),
    (75, Node::Set { slot: 0, attr: 0 }),
    (76, Node::Lit(1)),
];

#[test]
fn nodes_of_submits(rt: HostRuntime) -> Result<(), Fail> {
    assert!(rt; has_nodes(rt.alloc(), &SUBMIT, 5, SUBMIT_NODES)?);
    let submit = deepest_submit(rt.alloc())?;
    assert!(rt; has_nodes(rt.alloc(), &submit, 77, DEEPEST_NODES)?);
    Ok(())
}
