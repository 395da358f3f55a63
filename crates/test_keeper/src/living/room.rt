//! Which sessions may make a request.
use super::{NOBODY, Setting, opened};
use std::test::Fail;
use sv_living::{LivingCore, StepFault};
use sv_wire::Request;

const SETTING: Setting = Setting {
    numbers: &[10],
    bound: 4,
    rights: None,
    stewards: NOBODY,
    before: 0,
};

/// A session, and whether its request is an End, else it is a Poll. Why it is not answered; then the number of the next session, and how many
/// are open.
type Row = (u64, bool, Option<StepFault>, u64, usize);

/// Sessions begin in the order of their numbers, and no number comes twice.
const ORDER: &[Row] = &[
    (1, false, Some(StepFault::NotOpen), 0, 0),
    (0, false, None, 1, 1),
    (2, true, Some(StepFault::NotOpen), 1, 1),
    (1, true, None, 2, 1),
    (1, false, Some(StepFault::NotOpen), 2, 1),
    (1, true, Some(StepFault::NotOpen), 2, 1),
    (0, false, None, 2, 1),
    (2, false, None, 3, 2),
    (0, true, None, 3, 1),
    (0, false, Some(StepFault::NotOpen), 3, 1),
    (u64::MAX, false, Some(StepFault::NotOpen), 3, 1),
    (2, false, None, 3, 1),
];

/// While 1,024 are open no other begins, not even one that would end at once.
const CROWDED: &[Row] = &[
    (1024, false, Some(StepFault::NoRoom), 1024, 1024),
    (1024, true, Some(StepFault::NoRoom), 1024, 1024),
    (1025, false, Some(StepFault::NotOpen), 1024, 1024),
    (1023, false, None, 1024, 1024),
    (7, true, None, 1024, 1023),
    (7, false, Some(StepFault::NotOpen), 1024, 1023),
    (1024, true, None, 1025, 1023),
    (1024, false, Some(StepFault::NotOpen), 1025, 1023),
    (1025, false, None, 1026, 1024),
    (1026, false, Some(StepFault::NoRoom), 1026, 1024),
    (1025, true, None, 1026, 1023),
    (1026, false, None, 1027, 1024),
];

fn fault_of(core: &mut LivingCore, session: u64, request: &Request) -> Option<StepFault> {
    match core.step(session, request) {
        Ok(answer) => {
            drop(answer);
            None
        }
        Err(fault) => Some(fault),
    }
}

fn is_row(core: &mut LivingCore, row: &Row) -> bool {
    let (session, is_end, fault, next, open) = *row;
    let found = if is_end {
        fault_of(core, session, &Request::End)
    } else {
        fault_of(core, session, &Request::Poll)
    };
    found == fault && core.next() == next && core.open_count() == open
}

/// The first row that does not hold.
fn wrong_row(core: &mut LivingCore, rows: &[Row]) -> Option<usize> {
    for at in 0..rows.len() {
        if !is_row(core, &rows[at]) {
            return Some(at);
        }
    }
    None
}

/// Whether so many sessions begin.
fn begin(core: &mut LivingCore, count: u64) -> bool {
    for session in 0..count {
        if fault_of(core, session, &Request::Poll).is_some() {
            return false;
        }
    }
    true
}

fn check(rt: &HostRuntime, begun: u64, rows: &[Row]) -> Result<(), Fail> {
    let mut core = opened(rt.alloc(), SETTING)?;
    let wrong = if begin(&mut core, begun) {
        wrong_row(&mut core, rows)
    } else {
        Some(rows.len())
    };
    drop(core);
    match wrong {
        Some(at) => Err(Fail::new(format_args!("row {at}"))),
        None => Ok(()),
    }
}

#[test]
fn sessions_in_order(rt: HostRuntime) -> Result<(), Fail> {
    check(&rt, 0, ORDER)
}

#[test]
fn most_open(rt: HostRuntime) -> Result<(), Fail> {
    check(&rt, 1024, CROWDED)
}
