//! What is printed of whole scenarios. The expected lines are typed from the rules of the server and its clients.
use crate::looks::calls::called;
use std::test::Fail;
use test_calls::examples::{CONFLICT, LOOKS, OBSERVE, TRADE};

/// A look of sixteen objects, after a write of object 3.
const SIXTEEN: &str =
    r#"{"attrs":2,"objects":[[0,1],[1,1],[2,1],[3,1],[4,1],[5,1],[6,1],[7,1],[8,1],[9,1],[10,1],[11,1],[12,1],[13,1],[14,1],[-15,1],[16,1]],"bound":4,"clients":[{"interest":[],"steps":[{"act":"reads 3 writes 3 { set @3.1 (@3.1 + 7); }"},{"act":"reads 0 1 2 3 4 5 6 7 8 9 10 11 12 13 14 15 writes { }"}]}]}"#;

/// A look, then another session, a write, and another look.
const REJOIN: &str =
    r#"{"attrs":1,"objects":[[1]],"bound":4,"clients":[{"interest":[],"steps":[{"act":"reads 0 writes { }"},"sync","cut",{"act":"reads 0 writes 0 { set @0.0 (@0.0 + 1); }"},{"act":"reads 0 writes { }"}]}]}"#;

/// A look whose relay is lost with its session. The next session asks for it again.
const LOST_RELAY: &str =
    r#"{"attrs":1,"objects":[[1]],"bound":4,"clients":[{"interest":[],"steps":[{"act":"reads 0 writes { }"},"cut","sync"]}],"schedule":["c0","s0","t0","c0","s0","c0"]}"#;

/// A look whose relay is lost, and that another client completes before the next session asks for it again: it is settled.
const SETTLED: &str =
    r#"{"attrs":1,"objects":[[1]],"bound":4,"clients":[{"interest":[],"steps":[{"act":"reads 0 writes { }"},"cut","sync"]},{"interest":[],"steps":["poll"]}],"schedule":["c0","s0","t0","c1","s2","t1","c0","s0","c0","c0","s1","c1","s2","t1","s2"]}"#;

/// A look that is dropped, since a write that influences it is not committed yet; and one that comes after.
const DROPPED: &str =
    r#"{"attrs":1,"objects":[[1]],"bound":0,"clients":[{"interest":[],"steps":[{"act":"reads 0 writes 0 { set @0.0 (@0.0 + 1); }"},{"act":"reads 0 writes { }"},"sync",{"act":"reads 0 writes { }"}]}],"schedule":["c0","s0","t0","c0","c0","s0","s0"]}"#;

/// The second client's look is accepted before the first one's.
const TWO_LOOKERS: &str =
    r#"{"attrs":1,"objects":[[1]],"bound":4,"clients":[{"interest":[],"steps":[{"act":"reads 0 writes 0 { set @0.0 (@0.0 + 1); }"},{"act":"reads 0 writes { }"}]},{"interest":[],"steps":[{"act":"reads 0 writes { }"},{"act":"reads 0 writes 0 { set @0.0 (@0.0 * 9); }"},{"act":"reads 0 writes { }"}]}],"schedule":["c0","c1","s0","s1","t0","t1","c1","s1","c0","s0","c0","s0","c1","s1","c1","s1"]}"#;

/// An action that writes nothing, but has statements, and one that may write but has none.
const NO_LOOKS: &str =
    r#"{"attrs":1,"objects":[[1]],"bound":4,"clients":[{"interest":[],"steps":[{"act":"reads 0 writes { if [@0.0 == 1] { } }"},{"act":"reads 0 writes 0 { }"}]}]}"#;

/// What was observed stands between looks, in the order in which it was told; and an action of the client's own is seen too.
const LOOKS_AND_OBSERVES: &str =
    r#"{"attrs":1,"objects":[[1],[2]],"bound":4,"clients":[{"interest":[0],"steps":[{"observe":[0]},{"act":"reads 0 1 writes { }"},"sync",{"act":"reads 1 writes 1 { set @1.0 (@1.0 + 5); }"},{"observe":[0,1]}]}]}"#;

/// The same object, observed in two sessions.
const OBSERVED_AGAIN: &str =
    r#"{"attrs":2,"objects":[[1,-1]],"bound":4,"clients":[{"interest":[],"steps":[{"observe":[0]},"sync","cut",{"observe":[0]}]}]}"#;

/// Two clients observe what a third one writes. The first one asks before the action is accepted, the second one behind it.
const TWO_OBSERVERS: &str =
    r#"{"attrs":1,"objects":[[1]],"bound":4,"clients":[{"interest":[],"steps":[{"observe":[0]}]},{"interest":[],"steps":[{"observe":[0]}]},{"interest":[],"steps":[{"act":"reads 0 writes 0 { set @0.0 (@0.0 + 1); }"}]}],"schedule":["c0","c1","c2","s0","s1","s2","t0","t1","t2","c0","c1","c2","s0","s2","s1"]}"#;

/// A scenario, and what is printed of it.
const ROWS: &[(&str, &str)] = &[
    // A client that writes, looks at two objects, and writes the other one.
    (LOOKS, "look c0 2 at 2 [0=(11) 1=(20)]\n"),
    // Two clients in conflict, neither of which looks.
    (CONFLICT, ""),
    // Three players who trade and fight. The third one looks at the other two at the end.
    (TRADE, "look c2 2 at 6 [0=(3,12,45) 1=(3,6,15)]\n"),
    (
        SIXTEEN,
        "look c0 2 at 2 [0=(0,1) 1=(1,1) 2=(2,1) 3=(3,8) 4=(4,1) 5=(5,1) 6=(6,1) 7=(7,1) 8=(8,1) 9=(9,1) 10=(10,1) 11=(11,1) 12=(12,1) 13=(13,1) 14=(14,1) 15=(-15,1)]\n",
    ),
    (REJOIN, "look c0 1 at 1 [0=(1)]\nlook c0 3 at 3 [0=(2)]\n"),
    (LOST_RELAY, "look c0 1 at 1 [0=(1)]\n"),
    (SETTLED, ""),
    (DROPPED, "look c0 3 at 2 [0=(2)]\n"),
    (
        TWO_LOOKERS,
        "look c0 2 at 3 [0=(2)]\nlook c1 1 at 1 [0=(1)]\nlook c1 3 at 5 [0=(18)]\n",
    ),
    (NO_LOOKS, ""),
    // A client observes two objects while an action on one of them has no result, and again when it has one.
    (
        OBSERVE,
        "seen c1 at 1 [0=(11) 1=(20)]\nseen c1 at 1 [0=(11) 1=(20)]\n",
    ),
    (
        LOOKS_AND_OBSERVES,
        "seen c0 at 0 [0=(1)]\nlook c0 1 at 1 [0=(1) 1=(2)]\nseen c0 at 2 [0=(1) 1=(7)]\n",
    ),
    (
        OBSERVED_AGAIN,
        "seen c0 at 0 [0=(1,-1)]\nseen c0 at 0 [0=(1,-1)]\n",
    ),
    (
        TWO_OBSERVERS,
        "seen c0 at 0 [0=(1)]\nseen c1 at 1 [0=(2)]\n",
    ),
];

#[test]
fn scenarios_tell_their_looks(rt: HostRuntime) -> Result<(), Fail> {
    for (text, out) in ROWS {
        let printed = called(rt.alloc(), "looks a", text)?;
        assert!(&rt; printed.is(0, out, ""), "{out}");
    }
    Ok(())
}
