//! What an Observe would be answered that shows nothing, and what a world tells of itself.
use super::{NOBODY, Setting, ask_line, opened};
use std::alloc::Global;
use std::test::Fail;
use sv_journal::Journal;
use sv_living::LivingCore;
use sv_wire::Reply;
use sv_world::ClientId;
use test_asked::asked_in;

const SETTING: Setting = Setting {
    numbers: &[10, 20],
    bound: 4,
    rights: None,
    stewards: NOBODY,
    before: 0,
};

/// What is asked after some lines, and the last position and the commit of the answer, where that shows nothing.
type Row = (&'static str, Option<(u32, u32)>);

const JOINED: &str = "\
1 s0 join c0 1 [0] -> welcome 0 [0=(10)]
2 s1 join c1 1 [] -> welcome 0 []
3 s1 observe 0 [0] -> seen 0 at 0 [0=(10)] []
";

/// A session knows what it was given; nothing else is quiet, and no session that is not open.
const JOINED_ROWS: &[Row] = &[
    ("4 s0 observe 9 [0] -> ", Some((0, 0))),
    ("4 s1 observe 9 [0] -> ", Some((0, 0))),
    ("4 s1 observe 9 [1] -> ", None),
    ("4 s1 observe 9 [0 1] -> ", None),
    ("4 s1 observe 9 [2] -> ", None),
    ("4 s1 poll -> ", None),
    ("4 s1 end -> ", None),
    ("4 s2 observe 9 [0] -> ", None),
];

const ACCEPTED: &str = "\
4 s0 submit 1 reads 0 writes 0 { set @0.0 (@0.0 + 1); } -> relay 1 at 0 [] [1:c0.1]
";

/// Whoever was not sent the action is shown it.
const ACCEPTED_ROWS: &[Row] = &[
    ("5 s0 observe 9 [0] -> ", Some((1, 0))),
    ("5 s1 observe 9 [0] -> ", None),
];

const REPORTED: &str = "\
5 s1 observe 0 [0] -> seen 1 at 0 [] [1:c0.1]
6 s0 done [1:(11)] -> noted 1
7 s0 end -> bye
";

/// Session 0 had its End.
const REPORTED_ROWS: &[Row] = &[
    ("8 s1 observe 9 [0] -> ", Some((1, 1))),
    ("8 s0 observe 9 [0] -> ", None),
];

fn shown(reply: Option<Reply>) -> Option<(u32, u32)> {
    let Some(
        Reply::Seen {
            last,
            commit,
            head,
            items,
        },
    ) = reply
    else {
        return None;
    };
    if head.len() > 0 || items.len() > 0 {
        return None;
    }
    Some((last, commit))
}

fn check_row(alloc: Global, core: &LivingCore, row: &Row) -> Result<(), Fail> {
    let (line, wanted) = *row;
    let asked = asked_in(alloc, line)?;
    let reply = core.quiet_answer(u64::from(asked.session), &asked.request);
    drop(asked);
    if shown(reply) == wanted {
        Ok(())
    } else {
        Err(Fail::new(format_args!("{line}")))
    }
}

/// Enters what lines ask, and checks what would be answered then.
fn check_after(
    alloc: Global,
    core: &mut LivingCore,
    lines: &str,
    rows: &[Row],
) -> Result<(), Fail> {
    let mut journal = Journal::new(alloc);
    for line in lines.lines() {
        ask_line(alloc, core, &mut journal, 0, line)?;
    }
    drop(journal);
    for row in rows {
        check_row(alloc, core, row)?;
    }
    Ok(())
}

/// The first open session, how many clients joined, and how many actions of clients 0 and 1 have an outcome.
fn told(core: &LivingCore) -> (Option<u64>, usize, u32, u32) {
    let first = core.outcome_count(ClientId(0));
    let second = core.outcome_count(ClientId(1));
    (core.first_open(), core.client_count(), first, second)
}

fn check(alloc: Global, core: &mut LivingCore) -> Result<(), Fail> {
    let before = told(core);
    check_after(alloc, core, JOINED, JOINED_ROWS)?;
    check_after(alloc, core, ACCEPTED, ACCEPTED_ROWS)?;
    let between = told(core);
    check_after(alloc, core, REPORTED, REPORTED_ROWS)?;
    let told = (before, between, told(core));
    if told == ((None, 0, 0, 0), (Some(0), 2, 1, 0), (Some(1), 2, 1, 0)) {
        Ok(())
    } else {
        Err(Fail::new(format_args!("what it tells of itself")))
    }
}

#[test]
fn quiet(rt: HostRuntime) -> Result<(), Fail> {
    let mut core = opened(rt.alloc(), SETTING)?;
    let told = check(rt.alloc(), &mut core);
    drop(core);
    told
}
