//! Tests of the queue of uncommitted actions.
use crate::calls::Ask::{IsGiven, IsMarked, IsMarkedForAny, Last, Number, Source, Writer};
use crate::calls::Change::{Finish, Forget, Give, Install, MakeRoom, Mark, Pop, Push, PushAt};
use crate::calls::Row::{Asks, Do};
use crate::calls::{Row, rows_told};
use std::test::Fail;

const COMPLETIONS: &[Row] = &[
    Do(Push(0), 1),
    Do(Push(1), 2),
    Do(Finish(2, 7), 0),
    Do(Install, 0),
    Asks(Number(1), 0),
    Do(Finish(1, 5), 0),
    Do(Install, 2),
    Asks(Number(0), 5),
    Asks(Number(1), 7),
];

#[test]
fn completions_out_of_order(rt: HostRuntime) -> Result<(), Fail> {
    assert!(rt; rows_told(rt.alloc(), 3, COMPLETIONS)? == COMPLETIONS.len());
    Ok(())
}

const POPS: &[Row] = &[
    Do(Push(0), 1),
    Do(PushAt((0b11, 0b01), (0, 0)), 2),
    Asks(Writer(0, 3), 2),
    Do(Pop, 0),
    Asks(Writer(0, 3), 1),
    Do(Pop, 0),
    Asks(Writer(0, 3), 0),
    Asks(Last, 0),
    Do(Push(1), 1),
];

#[test]
fn pop_undoes_push(rt: HostRuntime) -> Result<(), Fail> {
    assert!(rt; rows_told(rt.alloc(), 3, POPS)? == POPS.len());
    Ok(())
}

/// Four actions: on object 1, on 0 after reading 1, on 1, and on 0. Who wrote last, before the first commit and after it.
const WRITERS: &[Row] = &[
    Do(Push(1), 1),
    Do(PushAt((0b11, 0b01), (0, 0)), 2),
    Do(Push(1), 3),
    Do(Push(0), 4),
    Asks(Writer(1, 1), 0),
    Asks(Writer(1, 2), 1),
    Asks(Writer(1, 4), 3),
    Asks(Writer(0, 4), 2),
    Do(Finish(1, 6), 0),
    Do(Install, 1),
    Asks(Writer(1, 2), 0),
    Asks(Writer(1, 4), 3),
];

#[test]
fn evaluates_late_older_action_at_its_place(rt: HostRuntime) -> Result<(), Fail> {
    assert!(rt; rows_told(rt.alloc(), 3, WRITERS)? == WRITERS.len());
    Ok(())
}

/// The same four: whose values positions 2, 3 and 4 read, slot by slot, before the first commit and after it.
const SOURCES: &[Row] = &[
    Do(Push(1), 1),
    Do(PushAt((0b11, 0b01), (0, 0)), 2),
    Do(Push(1), 3),
    Do(Push(0), 4),
    Asks(Source(2, 0), 0),
    Asks(Source(2, 1), 1),
    Asks(Source(3, 0), 1),
    Asks(Source(4, 0), 2),
    Do(Finish(1, 6), 0),
    Do(Install, 1),
    Asks(Source(2, 1), 0),
    Asks(Source(3, 0), 0),
    Asks(Source(4, 0), 2),
];

#[test]
fn sources_are_last_writers(rt: HostRuntime) -> Result<(), Fail> {
    assert!(rt; rows_told(rt.alloc(), 3, SOURCES)? == SOURCES.len());
    Ok(())
}

const MARKS: &[Row] = &[
    Do(Push(0), 1),
    Do(Mark(1, 0), 0),
    Do(Mark(1, 63), 0),
    Asks(IsMarked(1, 0), 1),
    Asks(IsMarked(1, 63), 1),
    Asks(IsMarked(1, 1), 0),
    Do(Give(0, 5), 0),
    Do(Give(1, 5), 0),
    Do(Finish(1, 1), 0),
    Do(Install, 1),
    Asks(IsGiven(0, 0), 1),
    Asks(IsGiven(0, 5), 0),
    Asks(IsGiven(1, 5), 1),
    Asks(IsGiven(1, 0), 0),
];

#[test]
fn install_gives_to_the_marked_sessions(rt: HostRuntime) -> Result<(), Fail> {
    assert!(rt; rows_told(rt.alloc(), 3, MARKS)? == MARKS.len());
    Ok(())
}

/// Slots from 64 on have marks only once there is room for them, and what was marked and given before stays.
const ROOM: &[Row] = &[
    Do(Push(0), 1),
    Do(Mark(1, 3), 0),
    Do(Give(2, 63), 0),
    Do(Mark(1, 64), 0),
    Asks(IsMarked(1, 64), 0),
    Do(MakeRoom(65), 0),
    Do(Mark(1, 64), 0),
    Do(MakeRoom(1024), 0),
    Do(Push(1), 2),
    Do(Mark(2, 1023), 0),
    Do(Give(2, 700), 0),
    Asks(IsMarked(1, 3), 1),
    Asks(IsMarked(1, 64), 1),
    Asks(IsMarked(1, 0), 0),
    Asks(IsMarked(1, 128), 0),
    Asks(IsMarked(1, 1023), 0),
    Asks(IsMarked(2, 1023), 1),
    Asks(IsMarked(2, 959), 0),
    Asks(IsMarked(2, 64), 0),
    Asks(IsGiven(2, 63), 1),
    Asks(IsGiven(2, 700), 1),
    Asks(IsGiven(2, 764), 0),
    Do(Finish(1, 4), 0),
    Do(Install, 1),
    Asks(IsGiven(0, 3), 1),
    Asks(IsGiven(0, 64), 1),
    Asks(IsGiven(0, 1023), 0),
    Asks(IsMarked(2, 1023), 1),
];

#[test]
fn slots_from_64_on(rt: HostRuntime) -> Result<(), Fail> {
    assert!(rt; rows_told(rt.alloc(), 3, ROOM)? == ROOM.len());
    Ok(())
}

/// What is forgotten is forgotten of one slot, in marks and in what was given; its next session begins with nothing.
const FORGOTTEN: &[Row] = &[
    Do(MakeRoom(200), 0),
    Do(Push(0), 1),
    Do(Push(0), 2),
    Do(Mark(1, 7), 0),
    Do(Mark(1, 130), 0),
    Do(Mark(2, 130), 0),
    Do(Give(1, 7), 0),
    Do(Give(1, 130), 0),
    Do(Forget(130), 0),
    Asks(IsMarked(1, 7), 1),
    Asks(IsMarked(1, 130), 0),
    Asks(IsMarked(2, 130), 0),
    Asks(IsGiven(1, 7), 1),
    Asks(IsGiven(1, 130), 0),
    Do(Forget(1023), 0),
    Asks(IsMarked(1, 7), 1),
    Do(Mark(2, 130), 0),
    Do(Finish(1, 4), 0),
    Do(Finish(2, 5), 0),
    Do(Install, 2),
    Asks(IsGiven(0, 7), 0),
    Asks(IsGiven(0, 130), 1),
];

#[test]
fn a_forgotten_slot_has_nothing(rt: HostRuntime) -> Result<(), Fail> {
    assert!(rt; rows_told(rt.alloc(), 3, FORGOTTEN)? == FORGOTTEN.len());
    Ok(())
}

const FOR_ANY: &[Row] = &[
    Do(MakeRoom(1024), 0),
    Do(Push(0), 1),
    Asks(IsMarkedForAny(1, &[0, 64, 1023]), 0),
    Do(Mark(1, 64), 0),
    Asks(IsMarkedForAny(1, &[]), 0),
    Asks(IsMarkedForAny(1, &[0, 63, 65, 128, 1023]), 0),
    Asks(IsMarkedForAny(1, &[0, 64, 1023]), 1),
    Do(Mark(1, 1023), 0),
    Do(Forget(64), 0),
    Asks(IsMarkedForAny(1, &[0, 64]), 0),
    Asks(IsMarkedForAny(1, &[0, 64, 1023]), 1),
];

#[test]
fn marks_meet_a_set_of_slots(rt: HostRuntime) -> Result<(), Fail> {
    assert!(rt; rows_told(rt.alloc(), 3, FOR_ANY)? == FOR_ANY.len());
    Ok(())
}
