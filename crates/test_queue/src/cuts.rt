//! Tests of the greatest cut that a session can be shown of objects.
use crate::calls::Ask::Shows;
use crate::calls::Change::{Finish, Give, Install, MarkEach, Push, PushAt, PushEach, PushTimes};
use crate::calls::Row::{Asks, Do};
use crate::calls::{Row, rows_told};
use std::test::Fail;
use sv_world::ObjectId;

const BOTH: &[ObjectId] = &[ObjectId(0), ObjectId(1)];

const FIRST: &[ObjectId] = &[ObjectId(0)];

const SECOND: &[ObjectId] = &[ObjectId(1)];

/// No action; then one on object 0, which session 0 was sent; then its commit, at which session 2 was given the object.
const ONE_WRITER: &[Row] = &[
    Asks(Shows(0, BOTH, &[], BOTH), 0),
    Do(Give(1, 0), 0),
    Asks(Shows(0, BOTH, &[], FIRST), 0),
    Do(Push(0), 1),
    Asks(Shows(1, BOTH, &[1], BOTH), 1),
    Asks(Shows(1, SECOND, &[], SECOND), 1),
    Do(MarkEach(1, 2, 0), 0),
    Asks(Shows(0, FIRST, &[], &[]), 1),
    Asks(Shows(0, BOTH, &[], &[]), 1),
    Do(Finish(1, 7), 0),
    Do(Install, 1),
    Do(Give(0, 2), 0),
    Asks(Shows(0, FIRST, &[], &[]), 1),
    Asks(Shows(1, FIRST, &[], FIRST), 1),
    Asks(Shows(2, BOTH, &[], SECOND), 1),
];

/// Actions on 1 after reading 0, on 2, on 3 after reading 1, and on 3. Session 0 was sent the first two.
const FOUR: &[Row] = &[
    Do(PushAt((0b0011, 0b0010), (0, 0)), 1),
    Do(Push(2), 2),
    Do(PushAt((0b1010, 0b1000), (0, 0)), 3),
    Do(Push(3), 4),
    Do(MarkEach(1, 3, 0), 0),
    Asks(
        Shows(
            1,
            &[ObjectId(3)],
            &[1, 3, 4],
            &[ObjectId(0), ObjectId(1), ObjectId(3)],
        ),
        4,
    ),
    Asks(
        Shows(
            1,
            &[ObjectId(0), ObjectId(2)],
            &[2],
            &[ObjectId(0), ObjectId(2)],
        ),
        4,
    ),
    Asks(
        Shows(0, &[ObjectId(1), ObjectId(3)], &[3, 4], &[ObjectId(3)]),
        4,
    ),
];

#[test]
fn cuts_have_what_was_not_sent(rt: HostRuntime) -> Result<(), Fail> {
    assert!(rt; rows_told(rt.alloc(), 2, ONE_WRITER)? == ONE_WRITER.len());
    assert!(rt; rows_told(rt.alloc(), 4, FOUR)? == FOUR.len());
    Ok(())
}

/// The positions from 1 to 33.
const MOST: &[u32] = &[
    1, 2, 3, 4, 5, 6, 7, 8, 9, 10, 11, 12, 13, 14, 15, 16, 17, 18, 19, 20, 21, 22, 23, 24, 25, 26,
    27, 28, 29, 30, 31, 32, 33,
];

/// Of 33 actions on one object all fit. Of 34 the last does not, so the cut is one position older, unless those before it were sent.
const FULL: &[Row] = &[
    Do(PushTimes(0, 33), 33),
    Asks(Shows(0, FIRST, MOST, FIRST), 33),
    Do(Push(0), 34),
    Asks(Shows(0, FIRST, MOST, FIRST), 33),
    Asks(Shows(0, BOTH, MOST, BOTH), 33),
    Asks(Shows(0, SECOND, &[], SECOND), 34),
    Do(MarkEach(1, 34, 1), 0),
    Asks(Shows(1, FIRST, &[34], &[]), 34),
    Do(Finish(1, 7), 0),
    Do(Install, 1),
    Asks(Shows(1, FIRST, &[34], &[]), 34),
    Do(PushTimes(0, 967), 1001),
    Asks(Shows(2, SECOND, &[], SECOND), 1001),
];

/// Of 1,000 uncommitted actions on one object the first 33 fit, and behind 10 that were sent the next 33.
const MANY: &[Row] = &[
    Do(PushTimes(0, 1000), 1000),
    Asks(Shows(0, FIRST, MOST, FIRST), 33),
    Asks(Shows(0, SECOND, &[], SECOND), 1000),
    Do(MarkEach(1, 11, 1), 0),
    Asks(
        Shows(
            1,
            FIRST,
            &[
                11, 12, 13, 14, 15, 16, 17, 18, 19, 20, 21, 22, 23, 24, 25, 26, 27, 28, 29, 30, 31,
                32, 33, 34, 35, 36, 37, 38, 39, 40, 41, 42, 43,
            ],
            &[],
        ),
        43,
    ),
];

/// Of 1,000 actions on 1,000 objects the writers of what is observed alone are needed.
const APART: &[Row] = &[
    Do(PushEach(0, 1000), 1000),
    Asks(
        Shows(
            0,
            &[ObjectId(3), ObjectId(900), ObjectId(1000)],
            &[4, 901],
            &[ObjectId(3), ObjectId(900), ObjectId(1000)],
        ),
        1000,
    ),
];

#[test]
fn older_cuts_have_as_much_as_fits(rt: HostRuntime) -> Result<(), Fail> {
    assert!(rt; rows_told(rt.alloc(), 2, FULL)? == FULL.len());
    assert!(rt; rows_told(rt.alloc(), 2, MANY)? == MANY.len());
    assert!(rt; rows_told(rt.alloc(), 1001, APART)? == APART.len());
    Ok(())
}
