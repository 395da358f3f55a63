//! A look between two writers, in each order in which the server may take the three actions.
use crate::looks::calls::called;
use std::alloc::{AllocError, Global};
use std::test::Fail;

/// Client 0 writes object 0, client 1 looks at both objects, and client 2 writes object 1. All three have asked when the last turns come.
const BEFORE: &str =
    r#"{"attrs":1,"objects":[[10],[20]],"bound":4,"clients":[{"interest":[],"steps":[{"act":"reads 0 writes 0 { set @0.0 (@0.0 + 1); }"}]},{"interest":[],"steps":[{"act":"reads 0 1 writes { }"}]},{"interest":[],"steps":[{"act":"reads 1 writes 1 { set @1.0 (@1.0 + 1); }"}]}],"schedule":["c0","c1","c2","s0","s1","s2","t0","t1","t2","c0","c1","c2","#;

/// The sessions' turns, and the line of the look.
const ORDERS: &[(&str, &str)] = &[
    (r#""s0","s1","s2""#, "look c1 1 at 2 [0=(11) 1=(20)]\n"),
    (r#""s0","s2","s1""#, "look c1 1 at 3 [0=(11) 1=(21)]\n"),
    (r#""s1","s0","s2""#, "look c1 1 at 1 [0=(10) 1=(20)]\n"),
    (r#""s1","s2","s0""#, "look c1 1 at 1 [0=(10) 1=(20)]\n"),
    (r#""s2","s0","s1""#, "look c1 1 at 3 [0=(11) 1=(21)]\n"),
    (r#""s2","s1","s0""#, "look c1 1 at 2 [0=(10) 1=(21)]\n"),
];

fn is_told(alloc: Global, turns: &str, line: &str) -> Result<bool, AllocError> {
    let mut text = String::from_str(alloc, BEFORE)?;
    text.push_str(turns)?;
    text.push_str("]}")?;
    let printed = called(alloc, "looks a", text.as_str())?;
    Ok(printed.is(0, line, ""))
}

#[test]
fn looks_are_cuts_in_each_order(rt: HostRuntime) -> Result<(), Fail> {
    for (turns, line) in ORDERS {
        assert!(&rt; is_told(rt.alloc(), turns, line)?, "{turns}");
    }
    Ok(())
}
