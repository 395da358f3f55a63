//! What is seen of objects.
use super::{ask_line, check, check_from, opened};
use std::alloc::Global;
use std::test::Fail;
use sv_sequencer::Sequencer;

/// The second time nothing is new: the session was sent position 1, which writes object 0, and was given object 1, which nobody wrote. Nothing was
/// accepted meanwhile.
const OBSERVE: &str = "\
1 s0 join c0 1 [] -> welcome 0 []
2 s1 join c1 1 [] -> welcome 0 []
3 s0 submit 1 reads 0 writes 0 { set @0.0 (@0.0 + 1); } -> relay 1 at 0 [0=(10)] [1:c0.1]
4 s1 observe 0 [0 1] -> seen 1 at 0 [0=(10) 1=(20)] [1:c0.1]
5 s1 done [1:(11)] -> noted 1
6 s0 done [1:(11)] -> noted 1
7 s1 observe 0 [0 1] -> seen 1 at 1 [] []
8 s0 submit 2 reads 1 writes 1 { set @1.0 (@1.0 + 1); } -> relay 2 at 1 [1=(20)] [2:c0.2]
";

#[test]
fn observe(rt: HostRuntime) -> Result<(), Fail> {
    check(&rt, &[10, 20], 4, None, OBSERVE)
}

/// What a session was given is not given to it again until it is written.
const NOTHING_NEW: &str = "\
1 s0 join c0 1 [0] -> welcome 0 [0=(5)]
2 s0 observe 0 [0] -> seen 0 at 0 [] []
3 s0 observe 65535 [1] -> seen 0 at 0 [1=(6)] []
4 s0 observe 0 [0 1] -> seen 0 at 0 [] []
5 s1 join c1 1 [] -> welcome 0 []
6 s1 submit 1 reads 0 writes 0 { set @0.0 (@0.0 + 1); } -> relay 1 at 0 [0=(5)] [1:c1.1]
7 s1 done [1:(6)] -> noted 1
8 s0 observe 0 [0 1] -> seen 1 at 1 [0=(6)] []
9 s0 observe 0 [0 1] -> seen 1 at 1 [] []
";

#[test]
fn nothing_new(rt: HostRuntime) -> Result<(), Fail> {
    check(&rt, &[5, 6], 8, None, NOTHING_NEW)
}

/// What was sent is not sent again, be it by a relay or since it was seen.
const SENT_BEFORE: &str = "\
1 s0 join c0 1 [] -> welcome 0 []
2 s1 join c1 1 [] -> welcome 0 []
3 s0 submit 1 reads 0 writes 0 { set @0.0 (@0.0 + 1); } -> relay 1 at 0 [0=(0)] [1:c0.1]
4 s0 observe 0 [0] -> seen 1 at 0 [] []
5 s1 submit 1 reads 0 1 writes 1 { set @1.0 (@1.0 + @0.0); } -> relay 1 at 0 [0=(0) 1=(0)] [1:c0.1 2:c1.1]
6 s0 observe 0 [0] -> seen 2 at 0 [] []
7 s0 observe 0 [1] -> seen 2 at 0 [1=(0)] [2:c1.1]
8 s0 submit 2 reads 1 writes 1 { set @1.0 (@1.0 + 1); } -> relay 2 at 0 [] [3:c0.2]
9 s1 done [1:(1) 2:(1)] -> noted 2
10 s0 done [2:(1) 3:(2)] -> noted 3
";

#[test]
fn sent_before(rt: HostRuntime) -> Result<(), Fail> {
    check(&rt, &[0, 0], 8, None, SENT_BEFORE)
}

/// An observer stands nowhere, and nothing influences it that would make too long a chain, or was made too far away.
const BOUND_AND_REACH: &str = "\
1 s0 join c0 1 [] -> welcome 0 []
2 s1 join c1 1 [] -> welcome 0 []
3 s0 submit 1 reads 0 writes 0 at 900 900 { set @0.0 (@0.0 + 1); } -> relay 1 at 0 [0=(0)] [1:c0.1]
4 s1 submit 1 reads 0 writes 0 { set @0.0 (@0.0 + 1); } -> dropped 1 chain 1 far 900
5 s1 observe 0 [0] -> seen 1 at 0 [0=(0)] [1:c0.1]
6 s0 submit 2 reads 0 writes 0 at 900 900 { set @0.0 (@0.0 + 1); } -> dropped 2 chain 1 far 0
";

#[test]
fn bound_and_reach(rt: HostRuntime) -> Result<(), Fail> {
    check(&rt, &[0], 0, Some(10), BOUND_AND_REACH)
}

/// A new session was sent nothing yet.
const REJOINED: &str = "\
1 s0 join c0 1 [] -> welcome 0 []
2 s0 submit 1 reads 0 writes 0 { set @0.0 (@0.0 + 1); } -> relay 1 at 0 [0=(0)] [1:c0.1]
3 s0 observe 0 [0] -> seen 1 at 0 [] []
4 s1 join c0 2 [] -> welcome 0 []
5 s0 observe 0 [0] -> refused 4 0
6 s1 observe 0 [0] -> seen 1 at 0 [0=(0)] [1:c0.1]
7 s1 submit 1 reads 0 writes 0 { set @0.0 (@0.0 + 1); } -> relay 1 at 0 [] []
8 s1 done [1:(1)] -> noted 1
";

#[test]
fn rejoined(rt: HostRuntime) -> Result<(), Fail> {
    check(&rt, &[0], 8, None, REJOINED)
}

/// What was abandoned is so no more once it was seen.
const ORPHAN_SEEN: &str = "\
1 s0 join c0 1 [] -> welcome 0 []
2 s1 join c1 1 [] -> welcome 0 []
3 s0 submit 1 reads 0 writes 0 { set @0.0 (@0.0 + 1); } -> relay 1 at 0 [0=(5)] [1:c0.1]
4 s0 end -> bye
5 s1 observe 0 [0] -> seen 1 at 0 [0=(5)] [1:c0.1]
6 s1 poll -> idle
7 s1 done [1:(6)] -> noted 1
8 s1 observe 0 [0] -> seen 1 at 1 [] []
";

#[test]
fn orphan_seen(rt: HostRuntime) -> Result<(), Fail> {
    check(&rt, &[5], 8, None, ORPHAN_SEEN)
}

const NOT_JOINED: &str = "\
1 s0 observe 0 [0] -> refused 2 0
2 s0 observe 0 [] -> refused 2 0
3 s0 join c0 1 [] -> welcome 0 []
4 s0 leave -> bye
5 s0 observe 0 [0] -> refused 4 0
";

#[test]
fn not_joined(rt: HostRuntime) -> Result<(), Fail> {
    check(&rt, &[0], 8, None, NOT_JOINED)
}

/// No object, 17 of them, two that don't ascend, the same one twice, and one that there is not.
const BAD_OBJECTS: &str = "\
1 s0 join c0 1 [] -> welcome 0 []
2 s0 observe 0 [] -> refused 8 0
3 s0 observe 0 [0 1 2 3 4 5 6 7 8 9 10 11 12 13 14 15 16] -> refused 8 0
4 s0 observe 0 [1 0] -> refused 8 0
5 s0 observe 0 [1 1] -> refused 8 0
6 s0 observe 0 [0 17] -> refused 8 0
7 s0 observe 0 [0 1 2 3 4 5 6 7 8 9 10 11 12 13 14 15] -> seen 0 at 0 [0=(0) 1=(1) 2=(2) 3=(3) 4=(4) 5=(5) 6=(6) 7=(7) 8=(8) 9=(9) 10=(10) 11=(11) 12=(12) 13=(13) 14=(14) 15=(15)] []
";

#[test]
fn bad_objects(rt: HostRuntime) -> Result<(), Fail> {
    let numbers = [0, 1, 2, 3, 4, 5, 6, 7, 8, 9, 10, 11, 12, 13, 14, 15, 16];
    check(&rt, &numbers, 8, None, BAD_OBJECTS)
}

/// Clients 0 and 1 join, and client 0 writes object 0 so often that the last time 32 actions influence it.
fn write_much(alloc: Global, sequencer: &mut Sequencer) -> Result<(), Fail> {
    ask_line(alloc, sequencer, "1 s0 join c0 1 [] -> ")?;
    ask_line(alloc, sequencer, "2 s1 join c1 1 [] -> ")?;
    for seq in 1..=33 {
        let line = format!(in alloc;
            "3 s0 submit {seq} reads 0 writes 0 {{ set @0.0 (@0.0 + 1); }} -> "
        )?;
        ask_line(alloc, sequencer, line.as_str())?;
    }
    Ok(())
}

fn check_much(alloc: Global, sequencer: &mut Sequencer, lines: &str) -> Result<(), Fail> {
    write_much(alloc, sequencer)?;
    check_from(alloc, sequencer, 2, 35, lines)
}

fn check_after_much(rt: &HostRuntime, lines: &str) -> Result<(), Fail> {
    let mut sequencer = opened(rt.alloc(), &[7, 8], 32, None)?;
    let told = check_much(rt.alloc(), &mut sequencer, lines);
    drop(sequencer);
    told
}

const JUST_33_ITEMS: &str = "\
36 s1 observe 0 [0 1] -> seen 33 at 0 [0=(7) 1=(8)] [1:c0.1 2:c0.2 3:c0.3 4:c0.4 5:c0.5 6:c0.6 7:c0.7 8:c0.8 9:c0.9 10:c0.10 11:c0.11 12:c0.12 13:c0.13 14:c0.14 15:c0.15 16:c0.16 17:c0.17 18:c0.18 19:c0.19 20:c0.20 21:c0.21 22:c0.22 23:c0.23 24:c0.24 25:c0.25 26:c0.26 27:c0.27 28:c0.28 29:c0.29 30:c0.30 31:c0.31 32:c0.32 33:c0.33]
37 s1 observe 0 [0 1] -> seen 33 at 0 [] []
";

#[test]
fn just_33_items(rt: HostRuntime) -> Result<(), Fail> {
    check_after_much(&rt, JUST_33_ITEMS)
}

/// The cut is older by one position, whose item comes next time.
const ITEMS_34: &str = "\
36 s0 submit 34 reads 1 writes 1 { set @1.0 (@1.0 + 1); } -> relay 34 at 0 [1=(8)] [34:c0.34]
37 s1 observe 0 [0 1] -> seen 33 at 0 [0=(7) 1=(8)] [1:c0.1 2:c0.2 3:c0.3 4:c0.4 5:c0.5 6:c0.6 7:c0.7 8:c0.8 9:c0.9 10:c0.10 11:c0.11 12:c0.12 13:c0.13 14:c0.14 15:c0.15 16:c0.16 17:c0.17 18:c0.18 19:c0.19 20:c0.20 21:c0.21 22:c0.22 23:c0.23 24:c0.24 25:c0.25 26:c0.26 27:c0.27 28:c0.28 29:c0.29 30:c0.30 31:c0.31 32:c0.32 33:c0.33]
38 s1 observe 0 [1] -> seen 34 at 0 [] [34:c0.34]
39 s1 observe 0 [0 1] -> seen 34 at 0 [] []
";

#[test]
fn items_34(rt: HostRuntime) -> Result<(), Fail> {
    check_after_much(&rt, ITEMS_34)
}
