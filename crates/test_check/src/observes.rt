//! Rows of the report of a scenario that observes, each with one line changed by hand, and the first wrong line, 0 for none.
use crate::calls::has_line;
use std::alloc::{AllocError, Global};
use std::test::Fail;
use test_calls::examples::{OBSERVE, OBSERVE_REPORT};

/// The number of the line that is changed, what stands there, and the first wrong line.
const ROWS: [(usize, &str, u32); 28] = [
    // as it was
    (
        5,
        "4 s1 observe 0 [0 1] -> seen 1 at 0 [0=(10) 1=(20)] [1:c0.1]",
        0,
    ),
    // another cut, another commit, a wrong value, a value that is missing, and one too many
    (
        5,
        "4 s1 observe 0 [0 1] -> seen 0 at 0 [0=(10) 1=(20)] []",
        5,
    ),
    (
        5,
        "4 s1 observe 0 [0 1] -> seen 2 at 0 [0=(10) 1=(20)] [1:c0.1]",
        5,
    ),
    (
        5,
        "4 s1 observe 0 [0 1] -> seen 1 at 1 [0=(10) 1=(20)] [1:c0.1]",
        5,
    ),
    (
        5,
        "4 s1 observe 0 [0 1] -> seen 1 at 0 [0=(11) 1=(20)] [1:c0.1]",
        5,
    ),
    (
        5,
        "4 s1 observe 0 [0 1] -> seen 1 at 0 [0=(10)] [1:c0.1]",
        5,
    ),
    (
        5,
        "4 s1 observe 0 [0 1] -> seen 1 at 0 [0=(10) 1=(20)] [1:c0.1 1:c0.1]",
        5,
    ),
    (8, "7 s1 observe 0 [0 1] -> seen 1 at 1 [1=(20)] []", 8),
    (8, "7 s1 observe 0 [0 1] -> seen 1 at 1 [] [1:c0.1]", 8),
    // the committed values alone
    (
        5,
        "4 s1 observe 0 [0 1] -> seen 0 at 0 [0=(10) 1=(20)] [1:c0.1]",
        5,
    ),
    // other replies
    (
        5,
        "4 s1 observe 0 [0 1] -> relay 0 at 0 [0=(10) 1=(20)] [1:c0.1]",
        5,
    ),
    (5, "4 s1 observe 0 [0 1] -> refused 8 0", 5),
    (5, "4 s1 observe 0 [0 1] -> denied 1 0", 5),
    (8, "7 s1 observe 0 [0 1] -> idle", 8),
    // objects that may not be observed
    (
        5,
        "4 s1 observe 0 [1 0] -> seen 1 at 0 [0=(10) 1=(20)] [1:c0.1]",
        5,
    ),
    (
        5,
        "4 s1 observe 0 [0 2] -> seen 1 at 0 [0=(10)] [1:c0.1]",
        5,
    ),
    (5, "4 s1 observe 0 [] -> seen 1 at 0 [] [1:c0.1]", 5),
    // requests that are no observes
    (
        5,
        "4 s1 observe [0 1] -> seen 1 at 0 [0=(10) 1=(20)] [1:c0.1]",
        5,
    ),
    (
        5,
        "4 s1 observe 00 [0 1] -> seen 1 at 0 [0=(10) 1=(20)] [1:c0.1]",
        5,
    ),
    (
        5,
        "4 s1 observe 65536 [0 1] -> seen 1 at 0 [0=(10) 1=(20)] [1:c0.1]",
        5,
    ),
    (
        5,
        "4 s1 observe 0 [0  1] -> seen 1 at 0 [0=(10) 1=(20)] [1:c0.1]",
        5,
    ),
    // a client of a script waits for nothing: its requests are looked at behind its last line
    (
        5,
        "4 s1 observe 5 [0 1] -> seen 1 at 0 [0=(10) 1=(20)] [1:c0.1]",
        32,
    ),
    // what the client did
    (24, "observe [0]", 24),
    (24, "observe 0 [0 1]", 24),
    (24, "observe [1 0]", 24),
    (24, "poll", 24),
    (25, "got s1 #5", 25),
    // the view is that of the cut
    (29, "show [0=(10) 1=(20)]", 29),
];

/// The report with another line at a number.
fn with_line(alloc: Global, number: usize, other: &str) -> Result<Vec<u8>, AllocError> {
    let mut out = Vec::new(alloc);
    for (at, line) in OBSERVE_REPORT.lines().enumerate() {
        let line = if at == number { other } else { line };
        out.extend_from_slice(line.as_bytes())?;
        out.push(b'\n')?;
    }
    Ok(out)
}

#[test]
fn observes_have_their_first_wrong_lines(rt: HostRuntime) -> Result<(), Fail> {
    for (number, other, wrong) in ROWS {
        let text = with_line(rt.alloc(), number.wrapping_sub(1), other)?;
        let is_so = has_line(rt.alloc(), OBSERVE, &text, wrong)?;
        assert!(&rt; is_so, "{other}");
    }
    Ok(())
}
