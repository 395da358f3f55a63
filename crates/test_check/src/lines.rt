//! A report cut at every byte, and with lines changed, doubled, dropped and moved.
use crate::calls::has_line;
use std::alloc::{AllocError, Global};
use std::test::Fail;
use test_calls::examples::{CONFLICT, CONFLICT_REPORT, FIRST, FIRST_REPORT};

/// The number of the line that comes after the first bytes of a text, where a line without its end is wrong itself.
fn next_line(text: &[u8]) -> u32 {
    let mut line = 1u32;
    for byte in text {
        if *byte == b'\n' {
            line = line.wrapping_add(1);
        }
    }
    line
}

fn is_cut_well(alloc: Global, scenario: &str, text: &[u8]) -> Result<bool, AllocError> {
    for count in 0..text.len() {
        if !has_line(alloc, scenario, &text[..count], next_line(&text[..count]))? {
            return Ok(false);
        }
    }
    Ok(true)
}

/// What `serve` prints of a run of the first scenario.
const FIRST_SERVED: &str =
    "journal 5\n1 s0 join c0 1 [0] -> welcome 0 [0=(5)]\n2 s0 submit 1 reads 0 writes 0 { set @0.0 (@0.0 + 1); } -> relay 1 at 0 [] [1:c0.1]\n3 s0 done [1:(6)] -> noted 1\n4 s0 leave -> bye\n5 s0 end -> bye\ncommit 1\n";

#[test]
fn cut_reports_are_wrong_where_they_end(rt: HostRuntime) -> Result<(), Fail> {
    for (scenario, text) in [
        (FIRST, FIRST_REPORT),
        (FIRST, FIRST_SERVED),
        (CONFLICT, CONFLICT_REPORT),
    ] {
        let is_so = is_cut_well(rt.alloc(), scenario, text.as_bytes())?;
        assert!(&rt; is_so, "{scenario}");
    }
    Ok(())
}

/// A text in which the line of a number stands so many times, and after the line of the other number once more.
fn with_lines(
    alloc: Global,
    text: &str,
    number: usize,
    times: usize,
    after: usize,
) -> Result<Vec<u8>, AllocError> {
    let mut out = Vec::new(alloc);
    let mut moved: &[u8] = b"";
    for (at, line) in text.lines().enumerate() {
        let line = line.as_bytes();
        if at == number {
            moved = line;
        }
        let count = if at == number { times } else { 1 };
        for _ in 0..count {
            out.extend_from_slice(line)?;
            out.push(b'\n')?;
        }
        if at == after {
            out.extend_from_slice(moved)?;
            out.push(b'\n')?;
        }
    }
    Ok(out)
}

/// Lines of the first report by their number from 0, how often each stands, after which one it stands again, and the first wrong line.
const MOVED: [(usize, usize, usize, u32); 13] = [
    (0, 2, 99, 2),
    (1, 2, 99, 3),
    (5, 2, 99, 7),
    (6, 2, 99, 8),
    (9, 2, 99, 11),
    (16, 2, 99, 18),
    (0, 0, 99, 1),
    (3, 0, 99, 4),
    (8, 0, 99, 9),
    (15, 0, 99, 16),
    (3, 0, 4, 4),
    (9, 0, 10, 10),
    (12, 0, 13, 13),
];

#[test]
fn doubled_dropped_and_moved_lines_are_wrong(rt: HostRuntime) -> Result<(), Fail> {
    for (number, times, after, line) in MOVED {
        let text = with_lines(rt.alloc(), FIRST_REPORT, number, times, after)?;
        let is_so = has_line(rt.alloc(), FIRST, text.as_slice(), line)?;
        drop(text);
        assert!(&rt; is_so, "{number} {times} {after}");
    }
    Ok(())
}

/// A text with another line in the place of the one of a number.
fn with_line(alloc: Global, text: &str, number: usize, other: &str) -> Result<Vec<u8>, AllocError> {
    let mut out = Vec::new(alloc);
    for (at, line) in text.lines().enumerate() {
        let line = if at == number { other } else { line };
        out.extend_from_slice(line.as_bytes())?;
        out.push(b'\n')?;
    }
    Ok(out)
}

/// Lines of the report of the two clients in conflict by their number from 0, what stands in place of each, and the first wrong line.
const CHANGED: [(usize, &str, u32); 38] = [
    // Numbers with a leading zero or a sign, or outside their types.
    (0, "journal 014", 1),
    (0, "journal +14", 1),
    (0, "journal 4294967310", 1),
    (1, "01 s0 join c0 1 [] -> welcome 0 []", 2),
    (1, "4294967297 s0 join c0 1 [] -> welcome 0 []", 2),
    (1, "1 s00 join c0 1 [] -> welcome 0 []", 2),
    (1, "1 s65536 join c0 1 [] -> welcome 0 []", 2),
    (1, "1 s0 join c00 1 [] -> welcome 0 []", 2),
    (1, "1 s0 join c65536 1 [] -> welcome 0 []", 2),
    (1, "1 s0 join c0 4294967297 [] -> welcome 0 []", 2),
    (1, "1 s0 join c0 1 [] -> welcome 00 []", 2),
    (3, "3 s1 join c1 1 [00] -> welcome 0 [0=(10)]", 4),
    (3, "3 s1 join c1 1 [65536] -> welcome 0 [0=(10)]", 4),
    (3, "3 s1 join c1 1 [0] -> welcome 0 [0=(010)]", 4),
    (3, "3 s1 join c1 1 [0] -> welcome 0 [0=(+10)]", 4),
    (
        4,
        "4 s1 submit 01 reads 0 writes 0 { set @0.0 (@0.0 + 1); } -> relay 1 at 0 [] [1:c0.1 2:c1.1]",
        5,
    ),
    (
        4,
        "4 s1 submit 4294967297 reads 0 writes 0 { set @0.0 (@0.0 + 1); } -> relay 1 at 0 [] [1:c0.1 2:c1.1]",
        5,
    ),
    (
        4,
        "4 s1 submit 1 reads 0 writes 0 { set @0.0 (@0.0 + 01); } -> relay 1 at 0 [] [1:c0.1 2:c1.1]",
        5,
    ),
    (7, "7 s1 done [01:(20) 2:(21)] -> noted 2", 8),
    (7, "7 s1 done [4294967297:(20) 2:(21)] -> noted 2", 8),
    (7, "7 s1 done [1:(020) 2:(21)] -> noted 2", 8),
    (7, "7 s1 done [1:(-0) 2:(21)] -> noted 2", 8),
    (
        7,
        "7 s1 done [1:(9223372036854775808) 2:(21)] -> noted 2",
        8,
    ),
    (26, "make 01 kept [0=(11)]", 27),
    (39, "world 04", 40),
    // Blanks, other letters, and lines that are empty.
    (
        2,
        "2  s0 submit 1 reads 0 writes 0 { set @0.0 (@0.0 * 2); } -> relay 1 at 0 [0=(10)] [1:c0.1]",
        3,
    ),
    (
        2,
        "2 s0 submit 1 reads 0 writes 0 { set @0.0 (@0.0 * 2); } -> relay 1 at 0 [0=(10)] [1:c0.1] ",
        3,
    ),
    (
        2,
        "2 s0 submit 1 reads 0 writes 0 { set @0.0 (@0.0*2); } -> relay 1 at 0 [0=(10)] [1:c0.1]",
        3,
    ),
    (15, "Client 0", 16),
    (29, "", 30),
    // Requests that no client of a scenario makes, and replies that are another's.
    (8, "8 s0 bad -> refused 1 0", 9),
    (2, "2 s0 submit 1 bad -> refused 6 4", 3),
    (8, "8 s0 poll -> idle", 21),
    (7, "7 s1 done [1:(20) 2:(22)] -> noted 2", 40),
    (20, "got s0 #9", 21),
    (20, "got s1 #8", 21),
    (21, "poll", 22),
    (40, "0=(-58)", 41),
];

#[test]
fn changed_lines_are_wrong(rt: HostRuntime) -> Result<(), Fail> {
    for (number, other, line) in CHANGED {
        let text = with_line(rt.alloc(), CONFLICT_REPORT, number, other)?;
        let is_so = has_line(rt.alloc(), CONFLICT, text.as_slice(), line)?;
        drop(text);
        assert!(&rt; is_so, "{other}");
    }
    Ok(())
}

#[test]
fn line_ends_of_two_bytes_are_wrong(rt: HostRuntime) -> Result<(), Fail> {
    let mut text = String::new(rt.alloc());
    for line in CONFLICT_REPORT.lines() {
        text.push_str(line)?;
        text.push_str("\r\n")?;
    }
    let is_so = has_line(rt.alloc(), CONFLICT, text.as_bytes(), 1)?;
    drop(text);
    assert!(&rt; is_so);
    Ok(())
}
