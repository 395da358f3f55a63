//! What is relayed, dropped, noted and abandoned.
use super::check;
use std::test::Fail;

/// Position 2 influences nothing, and is left out of the fourth reply. What was sent to a session is not sent to it again.
const INFLUENCE: &str = "\
1 s0 join c0 1 [] -> welcome 0 []
2 s1 join c1 1 [] -> welcome 0 []
3 s0 submit 1 reads 0 1 writes 1 { set @1.0 (@1.0 + @0.0); } -> relay 1 at 0 [0=(10) 1=(20)] [1:c0.1]
4 s0 submit 2 reads 2 writes 2 { set @2.0 (@2.0 + 1); } -> relay 2 at 0 [2=(30)] [2:c0.2]
5 s0 submit 3 reads 1 3 writes 3 { set @3.0 (@3.0 + @1.0); } -> relay 3 at 0 [3=(40)] [3:c0.3]
6 s1 submit 1 reads 3 writes 3 { set @3.0 (@3.0 + 1); } -> relay 1 at 0 [0=(10) 1=(20) 3=(40)] [1:c0.1 3:c0.3 4:c1.1]
7 s1 done [1:(30) 3:(70) 4:(71)] -> noted 1
";

#[test]
fn influence(rt: HostRuntime) -> Result<(), Fail> {
    check(&rt, &[10, 20, 30, 40], 8, None, INFLUENCE)
}

const LATE_OLDER_ACTION: &str = "\
1 s0 join c0 1 [] -> welcome 0 []
2 s1 join c1 1 [] -> welcome 0 []
3 s0 submit 1 reads 1 writes 1 { set @1.0 (@1.0 + 1); } -> relay 1 at 0 [1=(5)] [1:c0.1]
4 s0 submit 2 reads 0 1 writes 0 { set @0.0 (@0.0 + @1.0); } -> relay 2 at 0 [0=(100)] [2:c0.2]
5 s1 submit 1 reads 1 writes 1 { set @1.0 (@1.0 + 10); } -> relay 1 at 0 [1=(5)] [1:c0.1 3:c1.1]
6 s1 submit 2 reads 0 writes 0 { set @0.0 (@0.0 + 1); } -> relay 2 at 0 [0=(100)] [2:c0.2 4:c1.2]
";

#[test]
fn late_older_action(rt: HostRuntime) -> Result<(), Fail> {
    check(&rt, &[100, 5], 8, None, LATE_OLDER_ACTION)
}

/// Results wait for those of the positions before them, and the first one of a position stays.
const COMPLETIONS_OUT_OF_ORDER: &str = "\
1 s0 join c0 1 [] -> welcome 0 []
2 s1 join c1 1 [] -> welcome 0 []
3 s0 submit 1 reads 0 writes 0 { set @0.0 (@0.0 + 1); } -> relay 1 at 0 [0=(0)] [1:c0.1]
4 s1 submit 1 reads 1 writes 1 { set @1.0 (@1.0 + 1); } -> relay 1 at 0 [1=(0)] [2:c1.1]
5 s1 done [2:(1)] -> noted 0
6 s0 done [1:(1)] -> noted 2
7 s0 done [1:(9)] -> noted 2
8 s2 join c2 1 [0 1] -> welcome 2 [0=(1) 1=(1)]
";

#[test]
fn completions_out_of_order(rt: HostRuntime) -> Result<(), Fail> {
    check(&rt, &[0, 0], 8, None, COMPLETIONS_OUT_OF_ORDER)
}

pub const BOUND_1: &str = "\
1 s0 join c0 1 [] -> welcome 0 []
2 s0 submit 1 reads 0 writes 0 { set @0.0 (@0.0 + 1); } -> relay 1 at 0 [0=(0)] [1:c0.1]
3 s0 submit 2 reads 0 writes 0 { set @0.0 (@0.0 + 1); } -> relay 2 at 0 [] [2:c0.2]
4 s0 submit 3 reads 0 writes 0 { set @0.0 (@0.0 + 1); } -> dropped 3 chain 2 far 0
5 s0 done [1:(1)] -> noted 1
6 s0 done [2:(2)] -> noted 2
7 s0 submit 4 reads 0 writes 0 { set @0.0 (@0.0 + 1); } -> relay 4 at 2 [] [3:c0.4]
8 s0 submit 3 reads 0 writes 0 { set @0.0 (@0.0 + 1); } -> dropped 3 chain 2 far 0
";

#[test]
fn bound_1(rt: HostRuntime) -> Result<(), Fail> {
    check(&rt, &[0], 1, None, BOUND_1)
}

const BOUND_0: &str = "\
1 s0 join c0 1 [] -> welcome 0 []
2 s0 submit 1 reads 0 writes 0 { set @0.0 (@0.0 + 1); } -> relay 1 at 0 [0=(0)] [1:c0.1]
3 s0 submit 2 reads 0 writes 0 { set @0.0 (@0.0 + 1); } -> dropped 2 chain 1 far 0
";

#[test]
fn bound_0(rt: HostRuntime) -> Result<(), Fail> {
    check(&rt, &[0], 0, None, BOUND_0)
}

/// The client joins again, and its older session is over.
const LOST_RELAY: &str = "\
1 s0 join c0 1 [] -> welcome 0 []
2 s0 submit 1 reads 0 writes 0 { set @0.0 (@0.0 + 1); } -> relay 1 at 0 [0=(0)] [1:c0.1]
3 s1 join c0 2 [] -> welcome 0 []
4 s0 poll -> refused 4 0
5 s1 submit 1 reads 0 writes 0 { set @0.0 (@0.0 + 1); } -> relay 1 at 0 [0=(0)] [1:c0.1]
6 s2 join c0 2 [] -> refused 11 2
";

#[test]
fn lost_relay(rt: HostRuntime) -> Result<(), Fail> {
    check(&rt, &[0], 8, None, LOST_RELAY)
}

const RETRY_AFTER_COMMIT: &str = "\
1 s0 join c0 1 [] -> welcome 0 []
2 s1 join c1 1 [] -> welcome 0 []
3 s0 submit 1 reads 0 writes 0 { set @0.0 (@0.0 + 1); } -> relay 1 at 0 [0=(0)] [1:c0.1]
4 s1 submit 1 reads 0 writes 0 { set @0.0 (@0.0 + 1); } -> relay 1 at 0 [0=(0)] [1:c0.1 2:c1.1]
5 s1 done [1:(1) 2:(2)] -> noted 2
6 s2 join c0 2 [0] -> welcome 2 [0=(2)]
7 s2 submit 1 reads 0 writes 0 { set @0.0 (@0.0 + 1); } -> settled 1 at 1
";

#[test]
fn retry_after_commit(rt: HostRuntime) -> Result<(), Fail> {
    check(&rt, &[0], 8, None, RETRY_AFTER_COMMIT)
}

const ORPHAN: &str = "\
1 s0 join c0 1 [] -> welcome 0 []
2 s1 join c1 1 [] -> welcome 0 []
3 s0 submit 1 reads 0 writes 0 { set @0.0 (@0.0 + 1); } -> relay 1 at 0 [0=(0)] [1:c0.1]
4 s1 poll -> idle
5 s0 end -> bye
6 s1 poll -> relay 0 at 0 [0=(0)] [1:c0.1]
7 s1 poll -> idle
8 s1 done [1:(1)] -> noted 1
";

#[test]
fn orphan(rt: HostRuntime) -> Result<(), Fail> {
    check(&rt, &[0], 8, None, ORPHAN)
}

/// An action is dropped where one that was made more than 10 away influences it.
const REACH: &str = "\
1 s0 join c0 1 [] -> welcome 0 []
2 s0 submit 1 reads 0 writes 0 { set @0.0 (@0.0 + 1); } -> relay 1 at 0 [0=(0)] [1:c0.1]
3 s0 submit 2 reads 0 writes 0 at 11 3 { set @0.0 (@0.0 + 1); } -> dropped 2 chain 1 far 11
4 s0 submit 3 reads 0 writes 0 at 10 -10 { set @0.0 (@0.0 + 1); } -> relay 3 at 0 [] [2:c0.3]
5 s0 submit 4 reads 0 writes 0 { set @0.0 (@0.0 + 1); } -> relay 4 at 0 [] [3:c0.4]
6 s0 submit 5 reads 0 writes 0 at -1 0 { set @0.0 (@0.0 + 1); } -> dropped 5 chain 3 far 11
";

#[test]
fn reach(rt: HostRuntime) -> Result<(), Fail> {
    check(&rt, &[0], 8, Some(10), REACH)
}

/// All of it was sent already.
const REPEATED_SUBMIT: &str = "\
1 s0 join c0 1 [] -> welcome 0 []
2 s0 submit 1 reads 0 writes 0 { set @0.0 (@0.0 + 1); } -> relay 1 at 0 [0=(0)] [1:c0.1]
3 s0 submit 1 reads 0 writes 0 { set @0.0 (@0.0 + 1); } -> relay 1 at 0 [] []
";

#[test]
fn repeated_submit(rt: HostRuntime) -> Result<(), Fail> {
    check(&rt, &[0], 8, None, REPEATED_SUBMIT)
}

/// A client takes over from a session of a lower number, and then from one of a higher number.
const JOINS_BY_LIFE: &str = "\
1 s2 join c0 1 [] -> welcome 0 []
2 s1 join c0 1 [] -> refused 11 1
3 s1 join c0 2 [] -> welcome 0 []
4 s2 submit 1 reads 0 writes 0 { set @0.0 (@0.0 + 1); } -> refused 4 0
5 s3 join c0 7 [] -> welcome 0 []
6 s1 poll -> refused 4 0
7 s3 leave -> bye
8 s3 poll -> refused 4 0
";

#[test]
fn joins_by_life(rt: HostRuntime) -> Result<(), Fail> {
    check(&rt, &[0], 8, None, JOINS_BY_LIFE)
}

/// What a client reports is installed, whatever its action would have written.
/// Values are no longer those of serial execution then (which gives 1, 2, 3 and 4 at these positions). All else is as ever: what is relayed,
/// which reports are refused or come too late, numbers, retries, the order of commits, and who has which session.
const A_LYING_CLIENT_CHANGES_VALUES_ALONE: &str = "\
1 s0 join c0 1 [] -> welcome 0 []
2 s0 submit 1 reads 0 writes 0 { set @0.0 (@0.0 + 1); } -> relay 1 at 0 [0=(0)] [1:c0.1]
3 s0 done [1:(9)] -> noted 1
4 s1 join c1 1 [0] -> welcome 1 [0=(9)]
5 s1 submit 1 reads 0 writes 0 { set @0.0 (@0.0 + 1); } -> relay 1 at 1 [] [2:c1.1]
6 s0 done [2:(7)] -> refused 7 0
7 s1 done [2:(10)] -> noted 2
8 s0 done [2:(7)] -> noted 2
9 s0 done [3:(7)] -> refused 7 0
10 s0 submit 2 reads 0 writes 0 { set @0.0 (@0.0 + 1); } -> relay 2 at 2 [0=(10)] [3:c0.2]
11 s1 done [3:(7)] -> refused 7 0
12 s1 submit 2 reads 0 writes 0 { set @0.0 (@0.0 + 1); } -> relay 2 at 2 [] [3:c0.2 4:c1.2]
13 s1 done [4:(12)] -> noted 2
14 s0 done [3:(-5)] -> noted 4
15 s1 done [3:(11)] -> noted 4
16 s0 submit 9 reads 0 writes 0 { set @0.0 (@0.0 + 1); } -> refused 5 3
17 s0 submit 1 reads 0 writes 0 { set @0.0 (@0.0 + 1); } -> settled 1 at 1
18 s2 join c0 2 [0] -> welcome 4 [0=(12)]
19 s0 submit 3 reads 0 writes 0 { set @0.0 (@0.0 + 1); } -> refused 4 0
20 s2 poll -> idle
";

#[test]
fn a_lying_client_changes_values_alone(rt: HostRuntime) -> Result<(), Fail> {
    check(&rt, &[0], 8, None, A_LYING_CLIENT_CHANGES_VALUES_ALONE)
}
