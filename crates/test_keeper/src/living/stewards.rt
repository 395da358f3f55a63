//! A steward, and the authority of its reports.
use super::{Setting, check};
use std::test::Fail;
use sv_living::Stewards;

/// Client 9 is the steward, and every client's reports count.
const HELPING: Setting = Setting {
    numbers: &[10, 20],
    bound: 4,
    rights: None,
    stewards: Stewards {
        steward: Some(9),
        authority: false,
    },
    before: 0,
};

/// The steward is sent each position that has no result, though its author's session is not over, and each once. Another client is not.
const POLLS: &str = "\
1 s0 join c0 1 [] -> welcome 0 []
2 s1 join c9 1 [] -> welcome 0 []
3 s2 join c1 1 [] -> welcome 0 []
4 s1 poll -> idle
5 s0 submit 1 reads 0 writes 0 { set @0.0 (@0.0 + 1); } -> relay 1 at 0 [0=(10)] [1:c0.1]
6 s0 submit 2 reads 1 writes 1 { set @1.0 (@1.0 + 1); } -> relay 2 at 0 [1=(20)] [2:c0.2]
7 s2 poll -> idle
8 s1 poll -> relay 0 at 0 [0=(10)] [1:c0.1]
9 s1 poll -> relay 0 at 0 [1=(20)] [2:c0.2]
10 s1 poll -> idle
11 s1 done [1:(11)] -> noted 1
12 s3 join c9 2 [] -> welcome 1 []
13 s1 poll -> refused 4 0
14 s3 poll -> relay 0 at 1 [1=(20)] [2:c0.2]
15 s0 done [2:(21)] -> noted 2
16 s3 poll -> idle
";

#[test]
fn steward_polls(rt: HostRuntime) -> Result<(), Fail> {
    check(&rt, HELPING, POLLS)
}

/// The steward's reports alone count: what others report is judged and answered, and brings nothing.
const REPORTS: &str = "\
1 s0 join c0 1 [] -> welcome 0 []
2 s1 join c9 1 [] -> welcome 0 []
3 s0 submit 1 reads 0 writes 0 { set @0.0 (@0.0 + 1); } -> relay 1 at 0 [0=(10)] [1:c0.1]
4 s0 done [1:(99)] -> noted 0
5 s0 done [2:(99)] -> refused 7 0
6 s1 poll -> relay 0 at 0 [0=(10)] [1:c0.1]
7 s1 done [1:(11)] -> noted 1
8 s0 done [1:(99)] -> noted 1
9 s2 join c1 1 [0] -> welcome 1 [0=(11)]
";

#[test]
fn authority(rt: HostRuntime) -> Result<(), Fail> {
    let setting = Setting {
        stewards: Stewards {
            steward: Some(9),
            authority: true,
        },
        ..HELPING
    };
    check(&rt, setting, REPORTS)
}

/// Where nobody is the steward and its reports alone count, nothing is committed.
const NOBODYS: &str = "\
1 s0 join c0 1 [] -> welcome 0 []
2 s0 submit 1 reads 0 writes 0 { set @0.0 (@0.0 + 1); } -> relay 1 at 0 [0=(10)] [1:c0.1]
3 s0 done [1:(11)] -> noted 0
4 s0 poll -> idle
";

#[test]
fn authority_of_nobody(rt: HostRuntime) -> Result<(), Fail> {
    let setting = Setting {
        stewards: Stewards {
            steward: None,
            authority: true,
        },
        ..HELPING
    };
    check(&rt, setting, NOBODYS)
}
