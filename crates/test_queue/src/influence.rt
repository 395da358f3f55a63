//! Tests of what a session lacks of an action, and of its influence.
use crate::calls::Ask::{Chain, Far, Lacks, SpreadChain, SpreadFar};
use crate::calls::Change::{
    Finish, Give, Install, Mark, Push, PushAt, PushEach, PushSpread, SpreadEach,
};
use crate::calls::Row::{Asks, Do};
use crate::calls::{Row, rows_told};
use std::test::Fail;
use sv_world::ObjectId;

/// Actions on 1 after reading 0, on 2, on 3 after reading 1, and on 3. Session 0 made the first two and was sent them.
const FOUR: &[Row] = &[
    Do(PushAt((0b0011, 0b0010), (0, 0)), 1),
    Do(Mark(1, 0), 0),
    Do(Push(2), 2),
    Do(Mark(2, 0), 0),
    Do(PushAt((0b1010, 0b1000), (0, 0)), 3),
    Do(Push(3), 4),
    Asks(
        Lacks(1, 4, &[1, 3, 4], &[ObjectId(0), ObjectId(1), ObjectId(3)]),
        1,
    ),
    Asks(Lacks(0, 3, &[3], &[ObjectId(3)]), 1),
    Asks(Lacks(0, 2, &[], &[]), 1),
];

#[test]
fn relays_only_influences_that_were_not_sent(rt: HostRuntime) -> Result<(), Fail> {
    assert!(rt; rows_told(rt.alloc(), 4, FOUR)? == FOUR.len());
    Ok(())
}

/// Actions on 1, on 0 after reading 1, on 1, and on 0. Session 1 was sent the first and the third.
const LATE: &[Row] = &[
    Do(Push(1), 1),
    Do(PushAt((0b11, 0b01), (0, 0)), 2),
    Do(Push(1), 3),
    Do(Push(0), 4),
    Do(Mark(1, 1), 0),
    Do(Mark(3, 1), 0),
    Asks(Lacks(2, 3, &[1, 3], &[ObjectId(1)]), 1),
    Asks(Lacks(1, 4, &[2, 4], &[ObjectId(0)]), 1),
];

#[test]
fn evaluates_late_older_action_at_its_place(rt: HostRuntime) -> Result<(), Fail> {
    assert!(rt; rows_told(rt.alloc(), 2, LATE)? == LATE.len());
    Ok(())
}

/// Of three actions on one object the first is committed. Session 0 was sent it, and session 2 was given the object at the commit.
const COMMITTED: &[Row] = &[
    Do(Push(0), 1),
    Do(Push(0), 2),
    Do(Push(0), 3),
    Do(Mark(1, 0), 0),
    Do(Finish(1, 7), 0),
    Do(Install, 1),
    Do(Give(0, 2), 0),
    Asks(Lacks(0, 3, &[2, 3], &[]), 1),
    Asks(Lacks(1, 3, &[2, 3], &[ObjectId(0)]), 1),
    Asks(Lacks(2, 3, &[2, 3], &[]), 1),
];

#[test]
fn completions_leave_what_was_given_out(rt: HostRuntime) -> Result<(), Fail> {
    assert!(rt; rows_told(rt.alloc(), 1, COMMITTED)? == COMMITTED.len());
    Ok(())
}

const AMONG_MANY: &[Row] = &[
    Do(PushEach(1, 1001), 1000),
    Do(Push(0), 1001),
    Asks(Lacks(0, 1001, &[1001], &[ObjectId(0)]), 1),
];

#[test]
fn one_item_among_many(rt: HostRuntime) -> Result<(), Fail> {
    assert!(rt; rows_told(rt.alloc(), 1001, AMONG_MANY)? == AMONG_MANY.len());
    Ok(())
}

/// The chain of one more action on the only object, after none, one and two, and once the first is committed.
const CHAINS: &[Row] = &[
    Asks(Chain(0b1, (0, 0)), 0),
    Do(Push(0), 1),
    Asks(Chain(0b1, (0, 0)), 1),
    Do(Push(0), 2),
    Asks(Chain(0b1, (0, 0)), 2),
    Do(Finish(1, 7), 0),
    Do(Install, 1),
    Asks(Chain(0b1, (0, 0)), 1),
];

#[test]
fn drops_long_chains(rt: HostRuntime) -> Result<(), Fail> {
    assert!(rt; rows_told(rt.alloc(), 1, CHAINS)? == CHAINS.len());
    Ok(())
}

/// Actions on object 0 at (0, 0), on 1 after 0 at (7, -2), and on 2 at (500, 500); and one more.
const PLACED: &[Row] = &[
    Do(PushAt((0b001, 0b001), (0, 0)), 1),
    Do(PushAt((0b011, 0b010), (7, -2)), 2),
    Do(PushAt((0b100, 0b100), (500, 500)), 3),
    Asks(Chain(0b010, (3, -9)), 2),
    Asks(Far(0b010, (3, -9)), 9),
    Asks(Chain(0b100, (-4, 490)), 1),
    Asks(Far(0b100, (-4, 490)), 504),
];

#[test]
fn far_is_the_greater_axis(rt: HostRuntime) -> Result<(), Fail> {
    assert!(rt; rows_told(rt.alloc(), 3, PLACED)? == PLACED.len());
    Ok(())
}

/// 48 objects, each written once, and three actions that read 16 of them each: the chain of one that reads what these write. When the
/// last two of the three are taken, 32 single writers wait, and the first of the three.
const AT_ONCE: &[Row] = &[
    Do(PushEach(0, 48), 48),
    Do(PushSpread(0, 1, 16), 49),
    Do(PushSpread(16, 1, 16), 50),
    Do(PushSpread(32, 1, 16), 51),
    Asks(SpreadChain(16, 3), 51),
    Asks(SpreadFar(16, 3), 32),
];

/// The chain of an action on objects 0 and 1, where between the first of the two that it depends on and the last there are 38 others.
const FAR_BETWEEN: &[Row] = &[
    Do(PushSpread(0, 1, 2), 1),
    Do(SpreadEach(2, 40), 39),
    Do(Push(0), 40),
    Asks(SpreadChain(1, 2), 2),
    Asks(SpreadFar(1, 2), 0),
];

#[test]
fn counts_many_at_once_and_few_among_many(rt: HostRuntime) -> Result<(), Fail> {
    assert!(rt; rows_told(rt.alloc(), 48, AT_ONCE)? == AT_ONCE.len());
    assert!(rt; rows_told(rt.alloc(), 40, FAR_BETWEEN)? == FAR_BETWEEN.len());
    Ok(())
}
