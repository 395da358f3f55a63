//! Who may write what.
use super::{NOBODY, Setting, check};
use std::test::Fail;

/// Clients 2 to 4 may write objects 1 to 2, clients 4 to 6 objects 2 to 3, and nobody object 0.
const OVERLAP: &[[u16; 4]] = &[[2, 4, 1, 2], [4, 6, 2, 3], [9, 8, 0, 3]];

const SETTING: Setting = Setting {
    numbers: &[10, 20, 30, 40, 50],
    bound: 32,
    rights: Some(OVERLAP),
    stewards: NOBODY,
    before: 0,
};

/// The ends of a range of clients and of one of objects belong to it.
const ENDS: &str = "\
1 s0 join c1 1 [] -> welcome 0 []
2 s0 submit 1 reads 1 writes 1 { } -> denied 1 object 1
3 s1 join c2 1 [] -> welcome 0 []
4 s1 submit 1 reads 0 writes 0 { } -> denied 1 object 0
5 s1 submit 2 reads 1 writes 1 { } -> relay 2 at 0 [1=(20)] [1:c2.2]
6 s1 submit 3 reads 2 writes 2 { } -> relay 3 at 0 [2=(30)] [2:c2.3]
7 s1 submit 4 reads 3 writes 3 { } -> denied 4 object 3
8 s2 join c6 1 [] -> welcome 0 []
9 s2 submit 1 reads 3 writes 3 { } -> relay 1 at 0 [3=(40)] [3:c6.1]
10 s2 submit 2 reads 4 writes 4 { } -> denied 2 object 4
11 s3 join c7 1 [] -> welcome 0 []
12 s3 submit 1 reads 3 writes 3 { } -> denied 1 object 3
13 s4 join c8 1 [] -> welcome 0 []
14 s4 submit 1 reads 0 writes 0 { } -> denied 1 object 0
";

#[test]
fn ends_of_ranges(rt: HostRuntime) -> Result<(), Fail> {
    check(&rt, SETTING, ENDS)
}

/// Two rights may allow what neither does alone; of several forbidden objects the lowest is told, and what is read may be forbidden.
const SEVERAL: &str = "\
1 s0 join c4 1 [] -> welcome 0 []
2 s0 submit 1 reads 1 2 3 writes 1 2 3 { } -> relay 1 at 0 [1=(20) 2=(30) 3=(40)] [1:c4.1]
3 s0 submit 2 reads 0 1 writes 0 1 { } -> denied 2 object 0
4 s0 submit 3 reads 1 2 3 4 writes 1 4 { } -> denied 3 object 4
5 s0 submit 4 reads 0 1 4 writes 1 { } -> relay 4 at 0 [0=(10) 4=(50)] [2:c4.4]
6 s0 submit 5 reads 0 4 writes 0 4 { } -> denied 5 object 0
7 s0 submit 6 bad -> refused 6 4
8 s0 submit 7 reads 0 writes 0 { } -> refused 5 6
9 s0 submit 5 reads 1 writes 1 { } -> denied 5 object 0
";

#[test]
fn several_rights(rt: HostRuntime) -> Result<(), Fail> {
    check(&rt, SETTING, SEVERAL)
}

/// No rights at all are other than an empty list of them, by which nobody may write.
const NONE: &str = "\
1 s0 join c0 1 [] -> welcome 0 []
2 s0 submit 1 reads 0 writes { } -> relay 1 at 0 [0=(10)] [1:c0.1]
3 s0 submit 2 reads 0 writes 0 { } -> denied 2 object 0
";

#[test]
fn nobody_may_write(rt: HostRuntime) -> Result<(), Fail> {
    let setting = Setting {
        rights: Some(&[]),
        ..SETTING
    };
    check(&rt, setting, NONE)
}

/// Where nothing may influence an action, one that its client may not make is denied before it is dropped.
const DENIED_FIRST: &str = "\
1 s0 join c2 1 [] -> welcome 0 []
2 s0 submit 1 reads 1 writes 1 { } -> relay 1 at 0 [1=(20)] [1:c2.1]
3 s0 submit 2 reads 0 1 writes 0 { } -> denied 2 object 0
4 s0 submit 3 reads 1 writes 1 { } -> dropped 3 chain 1 far 0
5 s0 submit 2 reads 1 writes 1 { } -> denied 2 object 0
";

#[test]
fn denied_before_dropped(rt: HostRuntime) -> Result<(), Fail> {
    let setting = Setting {
        bound: 0,
        ..SETTING
    };
    check(&rt, setting, DENIED_FIRST)
}
