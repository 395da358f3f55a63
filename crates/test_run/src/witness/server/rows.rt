//! What a server answers where clients report equally, report differently, twice, too late or nothing.
use super::{Case, check};
use std::test::Fail;

const CASES: &[Case] = &[
    // Client 0 reports 7 where 1 is right. Its report alone installs nothing; once two others give 1, that is installed.
    Case {
        name: "a liar is outvoted",
        numbers: &[0],
        lines: "\
1 s0 join c0 1 [] -> welcome 0 []
2 s1 join c1 1 [] -> welcome 0 []
3 s2 join c2 1 [] -> welcome 0 []
4 s0 submit 1 reads 0 writes 0 { set @0.0 (@0.0 + 1); } -> relay 1 at 0 [0=(0)] [1:c0.1]
5 s0 done [1:(7)] -> noted 0
6 s1 poll -> relay 0 at 0 [0=(0)] [1:c0.1]
7 s1 done [1:(1)] -> noted 0
8 s1 poll -> idle
9 s2 poll -> relay 0 at 0 [0=(0)] [1:c0.1]
10 s2 done [1:(1)] -> noted 1
",
        disputes: &[(1, (0, &[7]), (1, &[1]))],
        commit: 1,
        first: 1,
    },
    // The same as the program lets client 0 lie: it reports 2 where 1 is right.
    Case {
        name: "the program at the core",
        numbers: &[0],
        lines: "\
1 s0 join c0 1 [] -> welcome 0 []
2 s1 join c1 1 [] -> welcome 0 []
3 s2 join c2 1 [] -> welcome 0 []
4 s0 submit 1 reads 0 writes 0 { set @0.0 (@0.0 + 1); } -> relay 1 at 0 [0=(0)] [1:c0.1]
5 s1 poll -> relay 0 at 0 [0=(0)] [1:c0.1]
6 s2 poll -> relay 0 at 0 [0=(0)] [1:c0.1]
7 s0 done [1:(2)] -> noted 0
8 s1 done [1:(1)] -> noted 0
9 s2 done [1:(1)] -> noted 1
",
        disputes: &[(1, (0, &[2]), (1, &[1]))],
        commit: 1,
        first: 1,
    },
    // Client 0 gives one value in two of its sessions: that is one report. Two others then give another.
    Case {
        name: "a client counts once",
        numbers: &[0],
        lines: "\
1 s0 join c0 1 [] -> welcome 0 []
2 s0 submit 1 reads 0 writes 0 { set @0.0 (@0.0 + 1); } -> relay 1 at 0 [0=(0)] [1:c0.1]
3 s0 done [1:(7)] -> noted 0
4 s1 join c0 2 [] -> welcome 0 []
5 s1 poll -> idle
6 s1 submit 1 reads 0 writes 0 { set @0.0 (@0.0 + 1); } -> relay 1 at 0 [0=(0)] [1:c0.1]
7 s1 done [1:(7)] -> noted 0
8 s2 join c1 1 [] -> welcome 0 []
9 s2 poll -> relay 0 at 0 [0=(0)] [1:c0.1]
10 s2 done [1:(1)] -> noted 0
11 s3 join c2 1 [] -> welcome 0 []
12 s3 poll -> relay 0 at 0 [0=(0)] [1:c0.1]
13 s3 done [1:(1)] -> noted 1
14 s3 poll -> idle
",
        disputes: &[(1, (0, &[7]), (1, &[1]))],
        commit: 1,
        first: 1,
    },
    // What was seen counts as sent: client 1 may report it, and no Poll of its session is sent it again. Its commit is that of what was agreed.
    Case {
        name: "an observer reports",
        numbers: &[0],
        lines: "\
1 s0 join c0 1 [] -> welcome 0 []
2 s1 join c1 1 [] -> welcome 0 []
3 s0 submit 1 reads 0 writes 0 { set @0.0 (@0.0 + 1); } -> relay 1 at 0 [0=(0)] [1:c0.1]
4 s1 observe 0 [0] -> seen 1 at 0 [0=(0)] [1:c0.1]
5 s1 poll -> idle
6 s1 done [1:(1)] -> noted 0
7 s1 observe 0 [0] -> seen 1 at 0 [] []
8 s2 join c2 1 [] -> welcome 0 []
9 s2 observe 0 [1] -> refused 8 0
10 s0 done [1:(1)] -> noted 1
11 s2 observe 0 [0] -> seen 1 at 1 [0=(1)] []
12 s1 observe 0 [0] -> seen 1 at 1 [] []
",
        disputes: &[],
        commit: 1,
        first: 1,
    },
    // A client's first report stands: a second one, that says what others say, does not count, and takes nothing back.
    Case {
        name: "a second report",
        numbers: &[0],
        lines: "\
1 s0 join c0 1 [] -> welcome 0 []
2 s1 join c1 1 [] -> welcome 0 []
3 s0 submit 1 reads 0 writes 0 { set @0.0 (@0.0 + 1); } -> relay 1 at 0 [0=(0)] [1:c0.1]
4 s0 done [1:(7)] -> noted 0
5 s1 poll -> relay 0 at 0 [0=(0)] [1:c0.1]
6 s1 done [1:(1)] -> noted 0
7 s0 done [1:(1)] -> noted 0
8 s1 done [1:(7)] -> noted 0
",
        disputes: &[(1, (0, &[7]), (1, &[1]))],
        commit: 0,
        first: 0,
    },
    // Client 0 lies in its first session and in its second one, each time of another position.
    Case {
        name: "the liar joins again",
        numbers: &[0],
        lines: "\
1 s0 join c0 1 [] -> welcome 0 []
2 s1 join c1 1 [] -> welcome 0 []
3 s2 join c2 1 [] -> welcome 0 []
4 s0 submit 1 reads 0 writes 0 { set @0.0 (@0.0 + 1); } -> relay 1 at 0 [0=(0)] [1:c0.1]
5 s0 done [1:(7)] -> noted 0
6 s3 join c0 2 [] -> welcome 0 []
7 s1 poll -> relay 0 at 0 [0=(0)] [1:c0.1]
8 s1 done [1:(1)] -> noted 0
9 s2 poll -> relay 0 at 0 [0=(0)] [1:c0.1]
10 s2 done [1:(1)] -> noted 1
11 s3 submit 2 reads 0 writes 0 { set @0.0 (@0.0 + 1); } -> relay 2 at 1 [0=(1)] [2:c0.2]
12 s3 done [2:(7)] -> noted 1
13 s1 poll -> relay 0 at 1 [] [2:c0.2]
14 s1 done [2:(2)] -> noted 1
15 s2 poll -> relay 0 at 1 [] [2:c0.2]
16 s2 done [2:(2)] -> noted 2
",
        disputes: &[(1, (0, &[7]), (1, &[1])), (2, (0, &[7]), (1, &[2]))],
        commit: 2,
        first: 2,
    },
    // Of three written objects one is lied about. The dispute has the whole values of both.
    Case {
        name: "one object of three",
        numbers: &[0, 0, 0],
        lines: "\
1 s0 join c0 1 [] -> welcome 0 []
2 s1 join c1 1 [] -> welcome 0 []
3 s2 join c2 1 [] -> welcome 0 []
4 s0 submit 1 reads 0 1 2 writes 0 1 2 { set @0.0 1; set @1.0 2; set @2.0 3; } -> relay 1 at 0 [0=(0) 1=(0) 2=(0)] [1:c0.1]
5 s0 done [1:(1)(2)(3)] -> noted 0
6 s1 poll -> relay 0 at 0 [0=(0) 1=(0) 2=(0)] [1:c0.1]
7 s1 done [1:(1)(9)(3)] -> noted 0
8 s2 poll -> relay 0 at 0 [0=(0) 1=(0) 2=(0)] [1:c0.1]
9 s2 done [1:(1)(2)(3)] -> noted 1
10 s3 join c3 1 [0 1 2] -> welcome 1 [0=(1) 1=(2) 2=(3)]
",
        disputes: &[(1, (0, &[1, 2, 3]), (1, &[1, 9, 3]))],
        commit: 1,
        first: 1,
    },
    // An action that writes nothing is committed by its first report.
    Case {
        name: "a look needs one report",
        numbers: &[0],
        lines: "\
1 s0 join c0 1 [] -> welcome 0 []
2 s0 submit 1 reads 0 writes { } -> relay 1 at 0 [0=(0)] [1:c0.1]
3 s0 done [1:] -> noted 1
",
        disputes: &[],
        commit: 1,
        first: 0,
    },
    // A position that is committed is beyond dispute: a later report of it does not count.
    Case {
        name: "a late report",
        numbers: &[0],
        lines: "\
1 s0 join c0 1 [] -> welcome 0 []
2 s1 join c1 1 [] -> welcome 0 []
3 s2 join c2 1 [] -> welcome 0 []
4 s0 submit 1 reads 0 writes 0 { set @0.0 (@0.0 + 1); } -> relay 1 at 0 [0=(0)] [1:c0.1]
5 s1 poll -> relay 0 at 0 [0=(0)] [1:c0.1]
6 s2 poll -> relay 0 at 0 [0=(0)] [1:c0.1]
7 s0 done [1:(1)] -> noted 0
8 s1 done [1:(1)] -> noted 1
9 s2 done [1:(7)] -> noted 1
",
        disputes: &[],
        commit: 1,
        first: 1,
    },
    // A position whose result is agreed, but waits for one before it, is still open to dispute. Polls ask for the lowest position first.
    Case {
        name: "a result waits",
        numbers: &[0, 0],
        lines: "\
1 s0 join c0 1 [] -> welcome 0 []
2 s1 join c1 1 [] -> welcome 0 []
3 s2 join c2 1 [] -> welcome 0 []
4 s0 submit 1 reads 0 writes 0 { set @0.0 (@0.0 + 1); } -> relay 1 at 0 [0=(0)] [1:c0.1]
5 s0 submit 2 reads 1 writes 1 { set @1.0 (@1.0 + 1); } -> relay 2 at 0 [1=(0)] [2:c0.2]
6 s1 poll -> relay 0 at 0 [0=(0)] [1:c0.1]
7 s1 poll -> relay 0 at 0 [1=(0)] [2:c0.2]
8 s2 poll -> relay 0 at 0 [0=(0)] [1:c0.1]
9 s2 poll -> relay 0 at 0 [1=(0)] [2:c0.2]
10 s0 done [2:(5)] -> noted 0
11 s1 done [2:(5)] -> noted 0
12 s2 done [1:(1) 2:(7)] -> noted 0
13 s1 done [1:(1)] -> noted 2
14 s3 join c3 1 [0 1] -> welcome 2 [0=(1) 1=(5)]
",
        disputes: &[(2, (0, &[5]), (2, &[7]))],
        commit: 2,
        first: 1,
    },
    // A Done that is refused is no report, of none of its positions.
    Case {
        name: "refused reports",
        numbers: &[0],
        lines: "\
1 s0 join c0 1 [] -> welcome 0 []
2 s1 join c1 1 [] -> welcome 0 []
3 s0 submit 1 reads 0 writes 0 { set @0.0 (@0.0 + 1); } -> relay 1 at 0 [0=(0)] [1:c0.1]
4 s1 done [1:(7)] -> refused 7 0
5 s0 done [1:(7) 2:(7)] -> refused 7 0
6 s0 done [1:(7)(7)] -> refused 7 0
7 s0 done [] -> refused 7 0
8 s0 done [1:(1)] -> noted 0
9 s1 poll -> relay 0 at 0 [0=(0)] [1:c0.1]
10 s1 done [1:(1)] -> noted 1
",
        disputes: &[],
        commit: 1,
        first: 1,
    },
];

#[test]
fn cases_go_as_they_tell(rt: HostRuntime) -> Result<(), Fail> {
    for case in CASES {
        check(rt.alloc(), case)?;
    }
    Ok(())
}
