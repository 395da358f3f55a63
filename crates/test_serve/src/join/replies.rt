//! What the client answers to a server's replies.
use crate::join::calls::answered;
use crate::join::frames::*;
use std::test::Fail;
use test_calls::frames::{BARE_WELCOME, BYE, joined};

/// What a server sends, and the status and the two outputs that the client answers.
type Row = (&'static [&'static [u8]], u8, &'static str, &'static str);

const ROWS: &[Row] = &[
    (
        &[WELCOME, RELAY, NOTED_1, BYE],
        0,
        "told c0 2 0 ? -> (5)\ntold c0 3 0 (5) -> (6)\nmade 1\n",
        "",
    ),
    (
        &[WELCOME, DENIED, BYE],
        0,
        "told c0 2 0 ? -> (5)\ntold c0 3 0 (5) -> (6)\ntold c0 4 0 (6) -> (5)\nmade 1\n",
        "",
    ),
    (&[NOTED_0], 11, "", "reply: wrongkind\n"),
    (&[WELCOME, SEEN], 11, "", "reply: wrongkind\n"),
    (&[WELCOME, LATE_RELAY], 11, "", "reply: badorder\n"),
    (&[WELCOME, OTHER_RELAY], 11, "", "reply: baditem\n"),
    (&[BARE_WELCOME, RELAY], 11, "", "reply: missing 1 0\n"),
    (&[OLD_KIND], 11, "", "reply: malformed 0 2\n"),
    (&[SHORT_WELCOME], 11, "", "reply: malformed 1 1\n"),
    (&[WELCOME, TOO_LONG], 11, "", "reply: toolong 65537\n"),
    (&[], 12, "", "closed\n"),
    (&[PART], 12, "", "closed\n"),
    (&[WELCOME], 12, "", "closed\n"),
    (&[WELCOME, RELAY, NOTED_1], 12, "", "closed\n"),
];

#[test]
fn replies_are_answered(rt: HostRuntime) -> Result<(), Fail> {
    for (frames, status, out, err) in ROWS {
        let bytes = joined(rt.alloc(), *frames)?;
        let printed = answered(&rt, rt.alloc(), &bytes)?;
        assert!(&rt; printed.is(*status, out, err), "{err}");
    }
    Ok(())
}
