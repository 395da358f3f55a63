//! The last eight outcomes of a client are kept.
use super::{NOBODY, Setting, check};
use std::test::Fail;

/// Client 0 may write object 0 alone.
const FIRST: &[[u16; 4]] = &[[0, 0, 0, 0]];

const SETTING: Setting = Setting {
    numbers: &[10, 20],
    bound: 32,
    rights: Some(FIRST),
    stewards: NOBODY,
    before: 0,
};

/// The denied action is answered again while it is one of the last eight, and its action is not looked at. Once it is the ninth back, it is
/// not kept any more.
const NINTH: &str = "\
1 s0 join c0 1 [] -> welcome 0 []
2 s0 submit 1 reads 1 writes 1 { } -> denied 1 object 1
3 s0 submit 1 reads 0 writes 0 { } -> denied 1 object 1
4 s0 submit 2 reads 1 writes { } -> relay 2 at 0 [1=(20)] [1:c0.2]
5 s0 submit 3 reads 1 writes { } -> relay 3 at 0 [] [2:c0.3]
6 s0 submit 4 reads 1 writes { } -> relay 4 at 0 [] [3:c0.4]
7 s0 submit 5 reads 1 writes { } -> relay 5 at 0 [] [4:c0.5]
8 s0 submit 6 reads 1 writes { } -> relay 6 at 0 [] [5:c0.6]
9 s0 submit 7 reads 1 writes { } -> relay 7 at 0 [] [6:c0.7]
10 s0 submit 8 reads 1 writes { } -> relay 8 at 0 [] [7:c0.8]
11 s0 submit 1 reads 1 writes 1 { } -> denied 1 object 1
12 s0 end -> bye
13 s1 join c0 2 [] -> welcome 0 []
14 s1 submit 1 reads 1 writes 1 { } -> denied 1 object 1
15 s1 submit 9 reads 1 writes 1 { } -> denied 9 object 1
16 s1 submit 1 reads 1 writes 1 { } -> refused 5 10
17 s1 submit 2 reads 1 writes { } -> relay 2 at 0 [1=(20)] [1:c0.2]
18 s1 submit 9 reads 0 writes 0 { } -> denied 9 object 1
";

#[test]
fn ninth_outcome(rt: HostRuntime) -> Result<(), Fail> {
    check(&rt, SETTING, NINTH)
}
