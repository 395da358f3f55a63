//! Tests of worlds, lists and the causes of refused actions.
use crate::bodies::Built::{Chained, Negated, Nested, Sets, Sums};
use crate::bodies::{Built, around, body_of, flat, stmts_of};
use std::alloc::{AllocError, Global};
use std::test::Fail;
use sv_lists::{Boxed, List, Text};
use sv_world::{
    Action, ClientId, Comparison, Cond, Expr, Node, ObjectId, Operator, Point, Reads, Shape, Short,
    Stmt, Value, World, check_action, copy_action, copy_objects, copy_value, copy_values,
    good_actions_have_no_fault, has_short_blocks, is_ascending, is_in_mask, same_bodies_are_equal,
    same_body,
};

const ONE: Shape = Shape {
    objects: 1,
    attrs: 1,
};

fn ids(alloc: Global, numbers: &[u16]) -> Result<Reads, AllocError> {
    let mut ids = Reads::new(alloc);
    for number in numbers {
        ids.push(ObjectId(*number))?;
    }
    Ok(ids)
}

fn action(alloc: Global, reads: &[u16], mask: u16, stmts: &[Stmt]) -> Result<Action, AllocError> {
    let reads = ids(alloc, reads)?;
    let body = flat(alloc, stmts)?;
    let origin = Point { x: 0, y: 0 };
    Ok(Action {
        reads,
        mask,
        origin,
        body,
    })
}

/// The number of the action's first cause in a world of this shape, 0 for none.
fn cause_in(shape: Shape, action: &Action) -> u8 {
    match check_action(shape, action) {
        Ok(()) => 0,
        Err(cause) => cause.code(),
    }
}

/// The cause of an action with these statements in a world of one object with one attribute.
fn cause(alloc: Global, reads: &[u16], mask: u16, stmts: &[Stmt]) -> Result<u8, AllocError> {
    Ok(cause_in(ONE, &action(alloc, reads, mask, stmts)?))
}

fn cause_of(alloc: Global, reads: &[u16], mask: u16, built: Built) -> Result<u8, AllocError> {
    let stmts = stmts_of(alloc, built)?;
    let told = cause(alloc, reads, mask, stmts.as_slice());
    drop(stmts);
    told
}

/// What an action reads, its mask, its body, and its first cause.
type Row<'a> = (&'a [u16], u16, Built, u8);

const ROWS: &[Row] = &[
    (&[], 2, Sets(40), 1),
    (&[0; 17], 0, Sets(0), 2),
    (&[0; 16], 0, Sets(0), 3),
    (&[1], 2, Sets(0), 4),
    (&[0], 2, Sets(0), 5),
    (&[0], 0, Sets(1), 7),
    // 64 nodes and 66, and 64 and 65.
    (&[0], 1, Sets(32), 0),
    (&[0], 1, Sets(33), 9),
    (&[0], 1, Negated(0, 30), 0),
    (&[0], 1, Negated(1, 30), 9),
    // Eight levels and nine, with few nodes; then with 63 and 65 nodes on eight levels, and with 64 and 66 on nine.
    (&[0], 1, Negated(5, 0), 0),
    (&[0], 1, Negated(6, 0), 10),
    (&[0], 1, Negated(5, 27), 0),
    (&[0], 1, Negated(5, 28), 9),
    (&[0], 1, Negated(6, 27), 10),
    (&[0], 1, Negated(6, 28), 9),
    (&[0], 1, Nested(6), 0),
    (&[0], 1, Nested(7), 10),
    (&[0], 1, Chained(6), 0),
    (&[0], 1, Chained(7), 10),
    (&[0], 1, Sums(6), 0),
    (&[0], 1, Sums(7), 10),
    // 64 nodes and 66, on far too many levels.
    (&[0], 1, Sums(31), 10),
    (&[0], 1, Sums(32), 9),
    (&[0], 1, Sets(255), 9),
];

/// How many of the rows have their cause, up to the first that has another.
fn judged(alloc: Global, rows: &[Row]) -> Result<usize, AllocError> {
    for (at, (reads, mask, built, expected)) in rows.iter().enumerate() {
        if cause_of(alloc, reads, *mask, *built)? != *expected {
            return Ok(at);
        }
    }
    Ok(rows.len())
}

#[test]
fn answers_the_first_cause(rt: HostRuntime) -> Result<(), Fail> {
    assert_eq!(rt; judged(rt.alloc(), ROWS)?, ROWS.len());
    good_actions_have_no_fault();
    Ok(())
}

const OBJECTS: [u16; 17] = [0, 1, 2, 3, 4, 5, 6, 7, 8, 9, 10, 11, 12, 13, 14, 15, 16];

/// The cause of an action that reads these objects and does nothing, in a world of so many objects.
fn cause_of_reads(alloc: Global, reads: &[u16], mask: u16, objects: u16) -> Result<u8, AllocError> {
    let shape = Shape { objects, attrs: 4 };
    Ok(cause_in(shape, &action(alloc, reads, mask, &[])?))
}

#[test]
fn judges_sixteen_reads(rt: HostRuntime) -> Result<(), Fail> {
    let alloc = rt.alloc();
    assert!(rt; cause_of_reads(alloc, &OBJECTS[..16], 65_535, 16)? == 0);
    assert!(rt; cause_of_reads(alloc, &OBJECTS[..16], 65_535, 15)? == 4);
    assert!(rt; cause_of_reads(alloc, &OBJECTS, 0, 17)? == 2);
    assert!(rt; cause_of_reads(alloc, &OBJECTS[..15], 32_767, 15)? == 0);
    assert!(rt; cause_of_reads(alloc, &OBJECTS[..15], 32_768, 15)? == 5);
    Ok(())
}

/// The cause of an action of one statement, which sets that attribute.
fn cause_of_set(alloc: Global, slot: u8, attr: u8) -> Result<u8, AllocError> {
    let expr = Expr::Lit(7);
    cause(alloc, &[0], 1, &[Stmt::Set { slot, attr, expr }])
}

/// The cause of an action with no statements, made at that point.
fn cause_at(alloc: Global, x: i32, y: i32) -> Result<u8, AllocError> {
    let mut action = action(alloc, &[0], 1, &[])?;
    action.origin = Point { x, y };
    Ok(cause_in(ONE, &action))
}

#[test]
fn judges_slots_attributes_and_origins(rt: HostRuntime) -> Result<(), Fail> {
    let alloc = rt.alloc();
    for (slot, attr, expected) in [(1, 0, 6), (1, 1, 6), (0, 1, 8), (0, 0, 0)] {
        assert!(rt;
            cause_of_set(alloc, slot, attr)? == expected,
            "{slot} {attr}"
        );
    }
    for (x, y, expected) in [
        (1_000_001, 0, 11),
        (1_000_000, -1_000_000, 0),
        (0, -1_000_001, 11),
    ] {
        assert!(rt; cause_at(alloc, x, y)? == expected, "at {x} {y}");
    }
    Ok(())
}

/// The cause of the copy of an action that reads an object which a world of one object lacks.
fn cause_of_copy(alloc: Global) -> Result<u8, AllocError> {
    let made = action(alloc, &[1], 1, &[])?;
    Ok(cause_in(ONE, &copy_action(alloc, &made)?))
}

#[test]
fn copies_actions(rt: HostRuntime) -> Result<(), Fail> {
    assert!(rt; cause_of_copy(rt.alloc())? == 4);
    Ok(())
}

#[test]
fn copies_values_and_objects(rt: HostRuntime) -> Result<(), Fail> {
    let value = copy_value(rt.alloc(), &Value::from_slice(rt.alloc(), &[4, -3])?)?;
    assert!(rt; value.as_slice() == [4, -3].as_slice());
    let objects = copy_objects(rt.alloc(), &[ObjectId(4), ObjectId(5)])?;
    assert!(rt; objects.as_slice() == [ObjectId(4), ObjectId(5)].as_slice());
    Ok(())
}

/// A world of one object, whose values are copies.
fn world(alloc: Global) -> Result<World, AllocError> {
    let mut values = List::new(alloc);
    values.push(Value::from_slice(alloc, &[1])?)?;
    let copies = copy_values(alloc, values.as_slice())?;
    Ok(World {
        shape: ONE,
        values: copies,
    })
}

#[test]
fn makes_worlds(rt: HostRuntime) -> Result<(), Fail> {
    assert!(rt; world(rt.alloc())?.values.len() == 1);
    Ok(())
}

#[test]
fn sees_lists(rt: HostRuntime) -> Result<(), Fail> {
    let mut list = List::from_vec(vec![in rt.alloc(); 3, 4]?);
    list.set(1, 5);
    list.set(2, 6);
    assert!(rt; list.into_vec().as_slice() == [3, 5].as_slice());
    Ok(())
}

#[test]
fn sees_texts_and_boxes(rt: HostRuntime) -> Result<(), Fail> {
    let text = Text::from_string(String::from_str(rt.alloc(), "ab")?);
    assert!(rt; text.as_str() == "ab");
    assert!(rt; text.into_string().as_str() == "ab");
    assert!(rt; Boxed::new(rt.alloc(), ClientId(3))?.into_inner() == ClientId(3));
    Ok(())
}

/// Three numbers, where there is room for two before it spills.
fn three_numbers(alloc: Global) -> Result<Short<i64, 2>, AllocError> {
    let mut short = Short::new(alloc);
    short.push(1)?;
    short.push(2)?;
    short.push(3)?;
    Ok(short)
}

#[test]
fn sees_short_lists(rt: HostRuntime) -> Result<(), Fail> {
    let mut short = three_numbers(rt.alloc())?;
    short.set(1, 5);
    short.set(3, 6);
    assert!(rt; short.as_slice() == [1, 5, 3].as_slice());
    let spilled = Short::<i64, 2>::from_vec(vec![in rt.alloc(); 7, 8, 9]?);
    assert!(rt; spilled.len() == 3 && spilled.as_slice() == [7, 8, 9].as_slice());
    Ok(())
}

/// Whether a body is what it was once the one that it was shared with is gone.
fn stays_when_shared(alloc: Global, built: Built, nodes: usize) -> Result<bool, AllocError> {
    let body = body_of(alloc, built)?;
    let other = body.share()?;
    let is_same = same_body(&body, &other);
    drop(body);
    let stays = other.nodes().len() == nodes;
    drop(other);
    Ok(is_same && stays)
}

fn are_same(alloc: Global, one: Built, two: Built) -> Result<bool, AllocError> {
    let one = body_of(alloc, one)?;
    let two = body_of(alloc, two)?;
    let told = same_body(&one, &two);
    drop(one);
    drop(two);
    Ok(told)
}

#[test]
fn shares_bodies(rt: HostRuntime) -> Result<(), Fail> {
    let alloc = rt.alloc();
    assert!(rt; stays_when_shared(alloc, Sets(2), 5)?);
    assert!(rt; stays_when_shared(alloc, Chained(2), 19)?);
    assert!(rt; are_same(alloc, Nested(2), Nested(2))?);
    assert!(rt; !are_same(alloc, Nested(2), Chained(2))?);
    assert!(rt; !are_same(alloc, Sets(2), Sets(3))?);
    assert!(rt; !are_same(alloc, Sets(3), Sets(2))?);
    same_bodies_are_equal();
    Ok(())
}

/// What the node of a body's block says, how many statements and how many nodes follow, and how many follow. None where nodes can't hold it.
fn block_told(alloc: Global, stmts: &[Stmt]) -> Result<Option<(u8, usize, usize)>, AllocError> {
    if !has_short_blocks(stmts) {
        return Ok(None);
    }
    let body = flat(alloc, stmts)?;
    let told = match body.nodes() {
        [Node::Block { count, size }, rest @ ..] => Some((*count, *size, rest.len())),
        _ => None,
    };
    drop(body);
    Ok(told)
}

fn block_of_sets(alloc: Global, count: u16) -> Result<Option<(u8, usize, usize)>, AllocError> {
    let stmts = stmts_of(alloc, Sets(count))?;
    let told = block_told(alloc, stmts.as_slice());
    drop(stmts);
    told
}

/// The same of a body with these statements in a block of an `if`.
fn block_round_sets(
    alloc: Global,
    count: u16,
    in_second: bool,
) -> Result<Option<(u8, usize, usize)>, AllocError> {
    let stmts = around(alloc, stmts_of(alloc, Sets(count))?, in_second)?;
    let told = block_told(alloc, stmts.as_slice());
    drop(stmts);
    told
}

#[test]
fn holds_at_most_255_statements(rt: HostRuntime) -> Result<(), Fail> {
    let alloc = rt.alloc();
    assert!(rt; block_of_sets(alloc, 0)? == Some((0, 0, 0)));
    assert!(rt; block_of_sets(alloc, 1)? == Some((1, 2, 2)));
    assert!(rt; block_of_sets(alloc, 255)? == Some((255, 510, 510)));
    assert!(rt; block_of_sets(alloc, 256)?.is_none());
    for in_second in [false, true] {
        assert!(rt; block_round_sets(alloc, 255, in_second)? == Some((1, 518, 518)));
        assert!(rt; block_round_sets(alloc, 256, in_second)?.is_none());
    }
    Ok(())
}

/// `if not [@0.1 == 0] { set @0.0 -1; } else { set @0.1 2; set @1.0 (@0.0 min 3); }`, where each node stands before its parts.
const NODES: [Node; 16] = [
    Node::Block { count: 1, size: 15 },
    Node::If,
    Node::Not,
    Node::Compare(Comparison::Eq),
    Node::Attr { slot: 0, attr: 1 },
    Node::Lit(0),
    Node::Block { count: 1, size: 2 },
    Node::Set { slot: 0, attr: 0 },
    Node::Lit(-1),
    Node::Block { count: 2, size: 6 },
    Node::Set { slot: 0, attr: 1 },
    Node::Lit(2),
    Node::Set { slot: 1, attr: 0 },
    Node::Binary(Operator::Min),
    Node::Attr { slot: 0, attr: 0 },
    Node::Lit(3),
];

fn set(slot: u8, attr: u8, expr: Expr) -> Stmt {
    Stmt::Set { slot, attr, expr }
}

fn is_set(alloc: Global) -> Result<Cond, AllocError> {
    let cond = Cond::Eq(Expr::Attr { slot: 0, attr: 1 }, Expr::Lit(0));
    Ok(Cond::Not(Boxed::new(alloc, cond)?))
}

fn at_most_three(alloc: Global) -> Result<Expr, AllocError> {
    let left = Boxed::new(alloc, Expr::Attr { slot: 0, attr: 0 })?;
    let right = Boxed::new(alloc, Expr::Lit(3))?;
    Ok(Expr::Min(left, right))
}

fn two_sets(alloc: Global) -> Result<List<Stmt>, AllocError> {
    let expr = at_most_three(alloc)?;
    let mut stmts = List::new(alloc);
    stmts.push(set(0, 1, Expr::Lit(2)))?;
    stmts.push(set(1, 0, expr))?;
    Ok(stmts)
}

fn first_set(alloc: Global) -> Result<List<Stmt>, AllocError> {
    let mut stmts = List::new(alloc);
    stmts.push(set(0, 0, Expr::Lit(-1)))?;
    Ok(stmts)
}

/// The statement whose nodes are listed.
fn listed(alloc: Global) -> Result<Stmt, AllocError> {
    let then = first_set(alloc)?;
    let other = two_sets(alloc)?;
    let cond = is_set(alloc)?;
    Ok(Stmt::If { cond, then, other })
}

fn has_listed_nodes(alloc: Global) -> Result<bool, AllocError> {
    let body = flat(alloc, &[listed(alloc)?])?;
    let told = body.nodes() == NODES.as_slice();
    drop(body);
    Ok(told)
}

#[test]
fn nodes_stand_before_their_parts(rt: HostRuntime) -> Result<(), Fail> {
    assert!(rt; has_listed_nodes(rt.alloc())?);
    Ok(())
}

#[test]
fn tells_order_and_masks(rt: HostRuntime) {
    assert!(rt; is_ascending(&[ObjectId(2), ObjectId(9)]));
    assert!(rt; !is_ascending(&[ObjectId(2), ObjectId(2)]));
    assert!(rt; is_in_mask(4, 2));
    assert!(rt; !is_in_mask(4, 18));
}
