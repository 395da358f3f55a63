//! Rows of the report of the first scenario, changed by hand, with the first wrong line, 0 for none.
use crate::calls::has_line;
use std::test::Fail;
use test_calls::examples::{
    BOUND, CONFLICT, CONFLICT_REPORT, FIRST, FIRST_REPORT, TRADE, TRADE_REPORT,
};

/// What was changed, the text, and its first wrong line.
const ROWS: [(&str, &str, u32); 33] = [
    ("what `replay` prints", FIRST_REPORT, 0),
    (
        "value of the welcome, which the server has not",
        "journal 5\n1 s0 join c0 1 [0] -> welcome 0 [0=(6)]\n2 s0 submit 1 reads 0 writes 0 { set @0.0 (@0.0 + 1); } -> relay 1 at 0 [] [1:c0.1]\n3 s0 done [1:(6)] -> noted 1\n4 s0 leave -> bye\n5 s0 end -> bye\nclient 0\njoin s0\ngot s0 #1\nmake 1 kept [0=(6)]\ngot s0 #2\ngot s0 #3\nshow [0=(6)]\nleave\ngot s0 #4\nworld 1\n0=(6)\n",
        2,
    ),
    (
        "a result that the client did not compute",
        "journal 5\n1 s0 join c0 1 [0] -> welcome 0 [0=(5)]\n2 s0 submit 1 reads 0 writes 0 { set @0.0 (@0.0 + 1); } -> relay 1 at 0 [] [1:c0.1]\n3 s0 done [1:(7)] -> noted 1\n4 s0 leave -> bye\n5 s0 end -> bye\nclient 0\njoin s0\ngot s0 #1\nmake 1 kept [0=(6)]\ngot s0 #2\ngot s0 #3\nshow [0=(6)]\nleave\ngot s0 #4\nworld 1\n0=(6)\n",
        16,
    ),
    (
        "another view",
        "journal 5\n1 s0 join c0 1 [0] -> welcome 0 [0=(5)]\n2 s0 submit 1 reads 0 writes 0 { set @0.0 (@0.0 + 1); } -> relay 1 at 0 [] [1:c0.1]\n3 s0 done [1:(6)] -> noted 1\n4 s0 leave -> bye\n5 s0 end -> bye\nclient 0\njoin s0\ngot s0 #1\nmake 1 kept [0=(6)]\ngot s0 #2\ngot s0 #3\nshow [0=(7)]\nleave\ngot s0 #4\nworld 1\n0=(6)\n",
        13,
    ),
    (
        "the last line end is left out",
        "journal 5\n1 s0 join c0 1 [0] -> welcome 0 [0=(5)]\n2 s0 submit 1 reads 0 writes 0 { set @0.0 (@0.0 + 1); } -> relay 1 at 0 [] [1:c0.1]\n3 s0 done [1:(6)] -> noted 1\n4 s0 leave -> bye\n5 s0 end -> bye\nclient 0\njoin s0\ngot s0 #1\nmake 1 kept [0=(6)]\ngot s0 #2\ngot s0 #3\nshow [0=(6)]\nleave\ngot s0 #4\nworld 1\n0=(6)",
        17,
    ),
    ("empty", "", 1),
    (
        "one more entry told",
        "journal 6\n1 s0 join c0 1 [0] -> welcome 0 [0=(5)]\n2 s0 submit 1 reads 0 writes 0 { set @0.0 (@0.0 + 1); } -> relay 1 at 0 [] [1:c0.1]\n3 s0 done [1:(6)] -> noted 1\n4 s0 leave -> bye\n5 s0 end -> bye\nclient 0\njoin s0\ngot s0 #1\nmake 1 kept [0=(6)]\ngot s0 #2\ngot s0 #3\nshow [0=(6)]\nleave\ngot s0 #4\nworld 1\n0=(6)\n",
        7,
    ),
    (
        "leading zero in the count",
        "journal 05\n1 s0 join c0 1 [0] -> welcome 0 [0=(5)]\n2 s0 submit 1 reads 0 writes 0 { set @0.0 (@0.0 + 1); } -> relay 1 at 0 [] [1:c0.1]\n3 s0 done [1:(6)] -> noted 1\n4 s0 leave -> bye\n5 s0 end -> bye\nclient 0\njoin s0\ngot s0 #1\nmake 1 kept [0=(6)]\ngot s0 #2\ngot s0 #3\nshow [0=(6)]\nleave\ngot s0 #4\nworld 1\n0=(6)\n",
        1,
    ),
    (
        "count of 33 bits",
        "journal 4294967296\n1 s0 join c0 1 [0] -> welcome 0 [0=(5)]\n2 s0 submit 1 reads 0 writes 0 { set @0.0 (@0.0 + 1); } -> relay 1 at 0 [] [1:c0.1]\n3 s0 done [1:(6)] -> noted 1\n4 s0 leave -> bye\n5 s0 end -> bye\nclient 0\njoin s0\ngot s0 #1\nmake 1 kept [0=(6)]\ngot s0 #2\ngot s0 #3\nshow [0=(6)]\nleave\ngot s0 #4\nworld 1\n0=(6)\n",
        1,
    ),
    (
        "leading zero in an entry number",
        "journal 5\n01 s0 join c0 1 [0] -> welcome 0 [0=(5)]\n2 s0 submit 1 reads 0 writes 0 { set @0.0 (@0.0 + 1); } -> relay 1 at 0 [] [1:c0.1]\n3 s0 done [1:(6)] -> noted 1\n4 s0 leave -> bye\n5 s0 end -> bye\nclient 0\njoin s0\ngot s0 #1\nmake 1 kept [0=(6)]\ngot s0 #2\ngot s0 #3\nshow [0=(6)]\nleave\ngot s0 #4\nworld 1\n0=(6)\n",
        2,
    ),
    (
        "no such session",
        "journal 5\n1 s1 join c0 1 [0] -> welcome 0 [0=(5)]\n2 s0 submit 1 reads 0 writes 0 { set @0.0 (@0.0 + 1); } -> relay 1 at 0 [] [1:c0.1]\n3 s0 done [1:(6)] -> noted 1\n4 s0 leave -> bye\n5 s0 end -> bye\nclient 0\njoin s0\ngot s0 #1\nmake 1 kept [0=(6)]\ngot s0 #2\ngot s0 #3\nshow [0=(6)]\nleave\ngot s0 #4\nworld 1\n0=(6)\n",
        2,
    ),
    (
        "life with a leading zero",
        "journal 5\n1 s0 join c0 01 [0] -> welcome 0 [0=(5)]\n2 s0 submit 1 reads 0 writes 0 { set @0.0 (@0.0 + 1); } -> relay 1 at 0 [] [1:c0.1]\n3 s0 done [1:(6)] -> noted 1\n4 s0 leave -> bye\n5 s0 end -> bye\nclient 0\njoin s0\ngot s0 #1\nmake 1 kept [0=(6)]\ngot s0 #2\ngot s0 #3\nshow [0=(6)]\nleave\ngot s0 #4\nworld 1\n0=(6)\n",
        2,
    ),
    (
        "interest of another object",
        "journal 5\n1 s0 join c0 1 [1] -> welcome 0 [0=(5)]\n2 s0 submit 1 reads 0 writes 0 { set @0.0 (@0.0 + 1); } -> relay 1 at 0 [] [1:c0.1]\n3 s0 done [1:(6)] -> noted 1\n4 s0 leave -> bye\n5 s0 end -> bye\nclient 0\njoin s0\ngot s0 #1\nmake 1 kept [0=(6)]\ngot s0 #2\ngot s0 #3\nshow [0=(6)]\nleave\ngot s0 #4\nworld 1\n0=(6)\n",
        2,
    ),
    (
        "value of the welcome",
        "journal 5\n1 s0 join c0 1 [0] -> welcome 0 [0=(4)]\n2 s0 submit 1 reads 0 writes 0 { set @0.0 (@0.0 + 1); } -> relay 1 at 0 [] [1:c0.1]\n3 s0 done [1:(6)] -> noted 1\n4 s0 leave -> bye\n5 s0 end -> bye\nclient 0\njoin s0\ngot s0 #1\nmake 1 kept [0=(6)]\ngot s0 #2\ngot s0 #3\nshow [0=(6)]\nleave\ngot s0 #4\nworld 1\n0=(6)\n",
        2,
    ),
    (
        "action text not canonical",
        "journal 5\n1 s0 join c0 1 [0] -> welcome 0 [0=(5)]\n2 s0 submit 1 reads 0 writes 0 {  set @0.0 (@0.0 + 1); } -> relay 1 at 0 [] [1:c0.1]\n3 s0 done [1:(6)] -> noted 1\n4 s0 leave -> bye\n5 s0 end -> bye\nclient 0\njoin s0\ngot s0 #1\nmake 1 kept [0=(6)]\ngot s0 #2\ngot s0 #3\nshow [0=(6)]\nleave\ngot s0 #4\nworld 1\n0=(6)\n",
        3,
    ),
    (
        "sequence number 2",
        "journal 5\n1 s0 join c0 1 [0] -> welcome 0 [0=(5)]\n2 s0 submit 2 reads 0 writes 0 { set @0.0 (@0.0 + 1); } -> relay 1 at 0 [] [1:c0.1]\n3 s0 done [1:(6)] -> noted 1\n4 s0 leave -> bye\n5 s0 end -> bye\nclient 0\njoin s0\ngot s0 #1\nmake 1 kept [0=(6)]\ngot s0 #2\ngot s0 #3\nshow [0=(6)]\nleave\ngot s0 #4\nworld 1\n0=(6)\n",
        3,
    ),
    (
        "noted 0",
        "journal 5\n1 s0 join c0 1 [0] -> welcome 0 [0=(5)]\n2 s0 submit 1 reads 0 writes 0 { set @0.0 (@0.0 + 1); } -> relay 1 at 0 [] [1:c0.1]\n3 s0 done [1:(6)] -> noted 0\n4 s0 leave -> bye\n5 s0 end -> bye\nclient 0\njoin s0\ngot s0 #1\nmake 1 kept [0=(6)]\ngot s0 #2\ngot s0 #3\nshow [0=(6)]\nleave\ngot s0 #4\nworld 1\n0=(6)\n",
        4,
    ),
    (
        "end in the place of leave",
        "journal 5\n1 s0 join c0 1 [0] -> welcome 0 [0=(5)]\n2 s0 submit 1 reads 0 writes 0 { set @0.0 (@0.0 + 1); } -> relay 1 at 0 [] [1:c0.1]\n3 s0 done [1:(6)] -> noted 1\n4 s0 end -> bye\n5 s0 end -> bye\nclient 0\njoin s0\ngot s0 #1\nmake 1 kept [0=(6)]\ngot s0 #2\ngot s0 #3\nshow [0=(6)]\nleave\ngot s0 #4\nworld 1\n0=(6)\n",
        6,
    ),
    (
        "leave in the place of end",
        "journal 5\n1 s0 join c0 1 [0] -> welcome 0 [0=(5)]\n2 s0 submit 1 reads 0 writes 0 { set @0.0 (@0.0 + 1); } -> relay 1 at 0 [] [1:c0.1]\n3 s0 done [1:(6)] -> noted 1\n4 s0 leave -> bye\n5 s0 leave -> refused 4 0\nclient 0\njoin s0\ngot s0 #1\nmake 1 kept [0=(6)]\ngot s0 #2\ngot s0 #3\nshow [0=(6)]\nleave\ngot s0 #4\nworld 1\n0=(6)\n",
        7,
    ),
    (
        "poll of an ended session",
        "journal 5\n1 s0 join c0 1 [0] -> welcome 0 [0=(5)]\n2 s0 submit 1 reads 0 writes 0 { set @0.0 (@0.0 + 1); } -> relay 1 at 0 [] [1:c0.1]\n3 s0 done [1:(6)] -> noted 1\n4 s0 leave -> bye\n5 s0 poll -> bye\nclient 0\njoin s0\ngot s0 #1\nmake 1 kept [0=(6)]\ngot s0 #2\ngot s0 #3\nshow [0=(6)]\nleave\ngot s0 #4\nworld 1\n0=(6)\n",
        6,
    ),
    (
        "client 1",
        "journal 5\n1 s0 join c0 1 [0] -> welcome 0 [0=(5)]\n2 s0 submit 1 reads 0 writes 0 { set @0.0 (@0.0 + 1); } -> relay 1 at 0 [] [1:c0.1]\n3 s0 done [1:(6)] -> noted 1\n4 s0 leave -> bye\n5 s0 end -> bye\nclient 1\njoin s0\ngot s0 #1\nmake 1 kept [0=(6)]\ngot s0 #2\ngot s0 #3\nshow [0=(6)]\nleave\ngot s0 #4\nworld 1\n0=(6)\n",
        7,
    ),
    (
        "join s1",
        "journal 5\n1 s0 join c0 1 [0] -> welcome 0 [0=(5)]\n2 s0 submit 1 reads 0 writes 0 { set @0.0 (@0.0 + 1); } -> relay 1 at 0 [] [1:c0.1]\n3 s0 done [1:(6)] -> noted 1\n4 s0 leave -> bye\n5 s0 end -> bye\nclient 0\njoin s1\ngot s0 #1\nmake 1 kept [0=(6)]\ngot s0 #2\ngot s0 #3\nshow [0=(6)]\nleave\ngot s0 #4\nworld 1\n0=(6)\n",
        8,
    ),
    (
        "got of another entry",
        "journal 5\n1 s0 join c0 1 [0] -> welcome 0 [0=(5)]\n2 s0 submit 1 reads 0 writes 0 { set @0.0 (@0.0 + 1); } -> relay 1 at 0 [] [1:c0.1]\n3 s0 done [1:(6)] -> noted 1\n4 s0 leave -> bye\n5 s0 end -> bye\nclient 0\njoin s0\ngot s0 #2\nmake 1 kept [0=(6)]\ngot s0 #2\ngot s0 #3\nshow [0=(6)]\nleave\ngot s0 #4\nworld 1\n0=(6)\n",
        9,
    ),
    (
        "kept another value",
        "journal 5\n1 s0 join c0 1 [0] -> welcome 0 [0=(5)]\n2 s0 submit 1 reads 0 writes 0 { set @0.0 (@0.0 + 1); } -> relay 1 at 0 [] [1:c0.1]\n3 s0 done [1:(6)] -> noted 1\n4 s0 leave -> bye\n5 s0 end -> bye\nclient 0\njoin s0\ngot s0 #1\nmake 1 kept [0=(7)]\ngot s0 #2\ngot s0 #3\nshow [0=(6)]\nleave\ngot s0 #4\nworld 1\n0=(6)\n",
        10,
    ),
    (
        "made 2",
        "journal 5\n1 s0 join c0 1 [0] -> welcome 0 [0=(5)]\n2 s0 submit 1 reads 0 writes 0 { set @0.0 (@0.0 + 1); } -> relay 1 at 0 [] [1:c0.1]\n3 s0 done [1:(6)] -> noted 1\n4 s0 leave -> bye\n5 s0 end -> bye\nclient 0\njoin s0\ngot s0 #1\nmake 2 kept [0=(6)]\ngot s0 #2\ngot s0 #3\nshow [0=(6)]\nleave\ngot s0 #4\nworld 1\n0=(6)\n",
        10,
    ),
    (
        "shown unknown",
        "journal 5\n1 s0 join c0 1 [0] -> welcome 0 [0=(5)]\n2 s0 submit 1 reads 0 writes 0 { set @0.0 (@0.0 + 1); } -> relay 1 at 0 [] [1:c0.1]\n3 s0 done [1:(6)] -> noted 1\n4 s0 leave -> bye\n5 s0 end -> bye\nclient 0\njoin s0\ngot s0 #1\nmake 1 kept [0=(6)]\ngot s0 #2\ngot s0 #3\nshow [0=?]\nleave\ngot s0 #4\nworld 1\n0=(6)\n",
        13,
    ),
    (
        "left at once",
        "journal 5\n1 s0 join c0 1 [0] -> welcome 0 [0=(5)]\n2 s0 submit 1 reads 0 writes 0 { set @0.0 (@0.0 + 1); } -> relay 1 at 0 [] [1:c0.1]\n3 s0 done [1:(6)] -> noted 1\n4 s0 leave -> bye\n5 s0 end -> bye\nclient 0\njoin s0\ngot s0 #1\nmake 1 kept [0=(6)]\ngot s0 #2\ngot s0 #3\nleave\nleave\ngot s0 #4\nworld 1\n0=(6)\n",
        13,
    ),
    (
        "quit in the place of leave",
        "journal 5\n1 s0 join c0 1 [0] -> welcome 0 [0=(5)]\n2 s0 submit 1 reads 0 writes 0 { set @0.0 (@0.0 + 1); } -> relay 1 at 0 [] [1:c0.1]\n3 s0 done [1:(6)] -> noted 1\n4 s0 leave -> bye\n5 s0 end -> bye\nclient 0\njoin s0\ngot s0 #1\nmake 1 kept [0=(6)]\ngot s0 #2\ngot s0 #3\nshow [0=(6)]\nquit\ngot s0 #4\nworld 1\n0=(6)\n",
        14,
    ),
    (
        "commit 0",
        "journal 5\n1 s0 join c0 1 [0] -> welcome 0 [0=(5)]\n2 s0 submit 1 reads 0 writes 0 { set @0.0 (@0.0 + 1); } -> relay 1 at 0 [] [1:c0.1]\n3 s0 done [1:(6)] -> noted 1\n4 s0 leave -> bye\n5 s0 end -> bye\nclient 0\njoin s0\ngot s0 #1\nmake 1 kept [0=(6)]\ngot s0 #2\ngot s0 #3\nshow [0=(6)]\nleave\ngot s0 #4\nworld 0\n0=(6)\n",
        16,
    ),
    (
        "committed 5",
        "journal 5\n1 s0 join c0 1 [0] -> welcome 0 [0=(5)]\n2 s0 submit 1 reads 0 writes 0 { set @0.0 (@0.0 + 1); } -> relay 1 at 0 [] [1:c0.1]\n3 s0 done [1:(6)] -> noted 1\n4 s0 leave -> bye\n5 s0 end -> bye\nclient 0\njoin s0\ngot s0 #1\nmake 1 kept [0=(6)]\ngot s0 #2\ngot s0 #3\nshow [0=(6)]\nleave\ngot s0 #4\nworld 1\n0=(5)\n",
        17,
    ),
    (
        "one more line",
        "journal 5\n1 s0 join c0 1 [0] -> welcome 0 [0=(5)]\n2 s0 submit 1 reads 0 writes 0 { set @0.0 (@0.0 + 1); } -> relay 1 at 0 [] [1:c0.1]\n3 s0 done [1:(6)] -> noted 1\n4 s0 leave -> bye\n5 s0 end -> bye\nclient 0\njoin s0\ngot s0 #1\nmake 1 kept [0=(6)]\ngot s0 #2\ngot s0 #3\nshow [0=(6)]\nleave\ngot s0 #4\nworld 1\n0=(6)\n\n",
        18,
    ),
    (
        "one more object",
        "journal 5\n1 s0 join c0 1 [0] -> welcome 0 [0=(5)]\n2 s0 submit 1 reads 0 writes 0 { set @0.0 (@0.0 + 1); } -> relay 1 at 0 [] [1:c0.1]\n3 s0 done [1:(6)] -> noted 1\n4 s0 leave -> bye\n5 s0 end -> bye\nclient 0\njoin s0\ngot s0 #1\nmake 1 kept [0=(6)]\ngot s0 #2\ngot s0 #3\nshow [0=(6)]\nleave\ngot s0 #4\nworld 1\n0=(6)\n1=(6)\n",
        18,
    ),
    (
        "told lines",
        "journal 5\n1 s0 join c0 1 [0] -> welcome 0 [0=(5)]\n2 s0 submit 1 reads 0 writes 0 { set @0.0 (@0.0 + 1); } -> relay 1 at 0 [] [1:c0.1]\n3 s0 done [1:(6)] -> noted 1\n4 s0 leave -> bye\n5 s0 end -> bye\nclient 0\njoin s0\ngot s0 #1\nmake 1 kept [0=(6)]\ngot s0 #2\ngot s0 #3\nshow [0=(6)]\nleave\ngot s0 #4\nworld 1\n0=(6)\ntold c0 2 0 ? -> (5)\n",
        18,
    ),
];

#[test]
fn rows_have_their_first_wrong_lines(rt: HostRuntime) -> Result<(), Fail> {
    for (what, text, line) in ROWS {
        let is_so = has_line(rt.alloc(), FIRST, text.as_bytes(), line)?;
        assert!(&rt; is_so, "{what}");
    }
    Ok(())
}

/// A scenario, the report of another one, and its first wrong line.
const OTHERS: [(&str, &str, u32); 4] = [
    (FIRST, CONFLICT_REPORT, 3),
    (CONFLICT, TRADE_REPORT, 2),
    (BOUND, FIRST_REPORT, 2),
    (TRADE, CONFLICT_REPORT, 3),
];

#[test]
fn reports_of_other_scenarios_are_wrong(rt: HostRuntime) -> Result<(), Fail> {
    for (scenario, text, line) in OTHERS {
        let is_so = has_line(rt.alloc(), scenario, text.as_bytes(), line)?;
        assert!(&rt; is_so, "line {line}");
    }
    Ok(())
}
