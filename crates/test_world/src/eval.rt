//! Tests of the evaluator: each operator, branches, and void actions.
use crate::bodies::Built::{Chained, Negated, Nested, Sets, Sums};
use crate::bodies::{Built, body_of};
use crate::texts::action_of;
use std::alloc::{AllocError, Global};
use std::test::Fail;
use sv_eval::eval;
use sv_lists::List;
use sv_world::{Action, ObjectId, Point, Reads, Value};

/// An operator, its two operands and the result on each line. A result outside 64 bits is void, and so is division by zero.
const OPERATIONS: &str = "\
+ 2 3 5
+ -2 -3 -5
+ 9223372036854775807 0 9223372036854775807
+ 9223372036854775806 1 9223372036854775807
+ 9223372036854775807 1 void
+ 1 9223372036854775807 void
+ 9223372036854775807 9223372036854775807 void
+ -9223372036854775808 0 -9223372036854775808
+ -9223372036854775807 -1 -9223372036854775808
+ -9223372036854775808 -1 void
+ -9223372036854775808 -9223372036854775808 void
+ -9223372036854775808 9223372036854775807 -1
- 2 3 -1
- -2 -3 1
- -9223372036854775807 1 -9223372036854775808
- -9223372036854775808 1 void
- 9223372036854775806 -1 9223372036854775807
- 9223372036854775807 -1 void
- -1 -9223372036854775808 9223372036854775807
- 0 -9223372036854775808 void
- -9223372036854775808 -9223372036854775808 0
* 6 -7 -42
* -6 -7 42
* 0 -9223372036854775808 0
* 3037000499 3037000499 9223372030926249001
* 3037000500 3037000500 void
* -3037000500 3037000500 void
* 4611686018427387904 2 void
* 4611686018427387904 -2 -9223372036854775808
* 4611686018427387905 -2 void
* -9223372036854775808 1 -9223372036854775808
* -9223372036854775808 -1 void
* -1 -9223372036854775808 void
/ 7 2 3
/ -7 2 -3
/ 7 -2 -3
/ -7 -2 3
/ 1 0 void
/ 0 0 void
/ 9223372036854775807 -1 -9223372036854775807
/ -9223372036854775808 1 -9223372036854775808
/ -9223372036854775808 -1 void
% 7 2 1
% -7 2 -1
% 7 -2 1
% -7 -2 -1
% 1 0 void
% 0 0 void
% -9223372036854775808 1 0
% -9223372036854775808 -1 void
% -9223372036854775807 -1 0
min 2 3 2
min 3 2 2
min -2 2 -2
min 4 4 4
min 9223372036854775807 -9223372036854775808 -9223372036854775808
max 2 3 3
max 3 2 3
max -2 2 2
max 4 4 4
max -9223372036854775808 9223372036854775807 9223372036854775807";

fn first_number(values: &[Value]) -> i64 {
    match values {
        [value, ..] => match value.as_slice() {
            [number, ..] => *number,
            [] => 0,
        },
        [] => 0,
    }
}

/// One value, of the number 5.
fn five(alloc: Global) -> Result<List<Value>, AllocError> {
    let value = Value::from_slice(alloc, &[5])?;
    let mut values = List::new(alloc);
    values.push(value)?;
    Ok(values)
}

/// Whether the action is void on 5, and what it makes of it.
fn effect_of(alloc: Global, action: &Action) -> Result<(bool, i64), AllocError> {
    let values = five(alloc)?;
    let outcome = eval(alloc, action, values.as_slice())?;
    Ok((outcome.void, first_number(outcome.writes.as_slice())))
}

/// The same of an action with these statements.
fn run(alloc: Global, stmts: &str) -> Result<(bool, i64), Fail> {
    let text = format!(in alloc; "reads 0 writes 0 {{ {stmts} }}")?;
    let action = action_of(alloc, text.as_str())?;
    let told = effect_of(alloc, &action);
    drop(action);
    Ok(told?)
}

/// The same of an action whose body is made of trees.
fn built(alloc: Global, built: Built) -> Result<(bool, i64), AllocError> {
    let reads = Reads::from_slice(alloc, &[ObjectId(0)])?;
    let body = body_of(alloc, built)?;
    let action = Action {
        reads,
        mask: 1,
        origin: Point { x: 0, y: 0 },
        body,
    };
    let told = effect_of(alloc, &action);
    drop(action);
    told
}

/// Whether the operator is void on the two numbers, and what it gives. Where it is void the number stays 5.
fn operated(alloc: Global, operator: &str, left: &str, right: &str) -> Result<(bool, i64), Fail> {
    let stmt = format!(in alloc; "set @0.0 ({left} {operator} {right});")?;
    run(alloc, stmt.as_str())
}

/// What a line of the table wants.
fn wanted(told: &str) -> Result<(bool, i64), Fail> {
    if told == "void" {
        return Ok((true, 5));
    }
    Ok((false, told.parse::<i64>()?))
}

#[test]
fn operators_give_their_numbers(rt: HostRuntime) -> Result<(), Fail> {
    for line in OPERATIONS.lines() {
        let (operator, rest) = line.split_once(' ').ok_or("no operator")?;
        let (left, rest) = rest.split_once(' ').ok_or("no left operand")?;
        let (right, told) = rest.split_once(' ').ok_or("no right operand")?;
        let given = operated(rt.alloc(), operator, left, right)?;
        assert_eq!(rt; given, wanted(told)?, "{line}");
    }
    Ok(())
}

/// Statements, whether they are void on 5, and what they make of it.
const STATEMENTS: &[(&str, bool, i64)] = &[
    // A void action keeps what was.
    ("set @0.0 7; set @0.0 (@0.0 / 0);", true, 5),
    // One branch runs, chosen by what was set.
    (
        "set @0.0 1; if [@0.0 == 1] { set @0.0 30; } else { set @0.0 40; } set @0.0 (@0.0 + 1);",
        false,
        31,
    ),
    (
        "set @0.0 2; if [@0.0 == 1] { set @0.0 30; } else { set @0.0 40; } set @0.0 (@0.0 + 1);",
        false,
        41,
    ),
];

#[test]
fn statements_run_in_order(rt: HostRuntime) -> Result<(), Fail> {
    for (stmts, void, number) in STATEMENTS {
        assert_eq!(rt; run(rt.alloc(), stmts)?, (*void, *number), "{stmts}");
    }
    Ok(())
}

/// So many times 1 is added, in four nodes each.
fn raised(alloc: Global, count: u8) -> Result<(bool, i64), Fail> {
    let mut stmts = String::new(alloc);
    for _ in 0..count {
        stmts.push_str("set @0.0 (@0.0 + 1); ")?;
    }
    run(alloc, stmts.as_str())
}

/// Bodies of 64 nodes, and of eight levels, and what they make of 5.
const GREATEST: [(Built, i64); 6] = [
    (Sets(32), 7),
    (Negated(5, 27), 7),
    (Negated(5, 0), 5),
    (Nested(6), 7),
    (Chained(6), 7),
    (Sums(6), 7),
];

#[test]
fn runs_the_greatest_bodies(rt: HostRuntime) -> Result<(), Fail> {
    assert_eq!(rt; raised(rt.alloc(), 16)?, (false, 21));
    for (body, number) in GREATEST {
        assert_eq!(rt; built(rt.alloc(), body)?, (false, number));
    }
    Ok(())
}
