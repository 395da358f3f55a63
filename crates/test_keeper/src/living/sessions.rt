//! Sessions without end, and clients of any number.
use super::{NOBODY, Setting, check};
use std::test::Fail;

const PLAIN: Setting = Setting {
    numbers: &[10, 20],
    bound: 4,
    rights: None,
    stewards: NOBODY,
    before: 0,
};

/// Session 100,000 is that of client 65,535.
const FAR: &str = "\
1 s0 join c65535 1000 [0] -> welcome 0 [0=(10)]
2 s0 submit 1 reads 0 writes 0 { set @0.0 (@0.0 + 1); } -> relay 1 at 0 [] [1:c65535.1]
3 s0 done [1:(11)] -> noted 1
4 s1 join c65535 2001 [] -> refused 11 1000
5 s1 join c65535 2000 [0] -> welcome 1 [0=(11)]
6 s0 poll -> refused 4 0
7 s0 end -> bye
8 s1 submit 1 reads 0 writes 0 { } -> settled 1 at 1
";

#[test]
fn far_session(rt: HostRuntime) -> Result<(), Fail> {
    let setting = Setting {
        before: 100_000,
        ..PLAIN
    };
    check(&rt, setting, FAR)
}

/// A session that ended leaves its slot to the next one, to which nothing was sent yet.
const SLOTS: &str = "\
1 s0 join c0 1 [0] -> welcome 0 [0=(10)]
2 s1 join c1 1 [] -> welcome 0 []
3 s0 submit 1 reads 0 writes 0 { set @0.0 (@0.0 + 1); } -> relay 1 at 0 [] [1:c0.1]
4 s0 end -> bye
5 s2 join c2 1 [] -> welcome 0 []
6 s2 observe 0 [0] -> seen 1 at 0 [0=(10)] [1:c0.1]
7 s2 submit 1 reads 1 writes 1 { set @1.0 (@1.0 + 1); } -> relay 1 at 0 [1=(20)] [2:c2.1]
8 s2 end -> bye
9 s1 poll -> relay 0 at 0 [0=(10)] [1:c0.1]
10 s3 join c0 2 [] -> welcome 0 []
11 s3 submit 1 reads 0 writes 0 { } -> relay 1 at 0 [0=(10)] [1:c0.1]
";

#[test]
fn slots(rt: HostRuntime) -> Result<(), Fail> {
    check(&rt, PLAIN, SLOTS)
}
