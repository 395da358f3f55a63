//! The lines of a kept world.
use std::alloc::{AllocError, Global};

/// The log of three processes. A new one enters an End for each session that has none, as 6, 7 and 13.
pub(crate) const LINES: [&str; 16] = [
    "1 s0 join c7 1 [0] -> welcome 0 [0=(10)]\n",
    "2 s0 submit 1 reads 0 writes 0 { set @0.0 (@0.0 + 1); } -> relay 1 at 0 [] [1:c7.1]\n",
    "3 s0 done [1:(11)] -> noted 1\n",
    "4 s1 join c8 1 [] -> welcome 1 []\n",
    "5 s1 observe 0 [0] -> seen 1 at 1 [0=(11)] []\n",
    "6 s0 end -> bye\n",
    "7 s1 end -> bye\n",
    "8 s2 join c7 2 [1] -> welcome 1 [1=(20)]\n",
    "9 s2 submit 2 reads 1 writes 1 { set @1.0 22; } -> relay 2 at 1 [] [2:c7.2]\n",
    "10 s2 done [2:(22)] -> noted 2\n",
    "11 s2 poll -> idle\n",
    "12 s2 submit 3 bad -> refused 6 4\n",
    "13 s2 end -> bye\n",
    "14 s3 join c8 2 [0 1] -> welcome 2 [0=(11) 1=(22)]\n",
    "15 s3 submit 1 reads 0 1 writes 0 { set @0.0 @1.0; } -> relay 1 at 2 [] [3:c8.1]\n",
    "16 s3 leave -> bye\n",
];

/// The sessions that have no End behind so many of these, a digit each.
const OPEN: [&str; 17] = [
    "", "0", "0", "0", "01", "01", "1", "", "2", "2", "2", "2", "2", "", "3", "3", "3",
];

/// The text of the lines from one place to another.
pub(crate) fn text_of(alloc: Global, from: usize, to: usize) -> Result<String, AllocError> {
    let mut text = String::new(alloc);
    for line in LINES.iter().take(to).skip(from) {
        text.push_str(line)?;
    }
    Ok(text)
}

/// The text of the log of a new process that found so many lines.
fn text_behind(alloc: Global, count: usize) -> Result<String, AllocError> {
    let mut text = text_of(alloc, 0, count)?;
    let mut number = count;
    for session in OPEN.get(count).copied().unwrap_or("").chars() {
        number = number.saturating_add(1);
        text.push_str(format!(in alloc; "{number} s{session} end -> bye\n")?.as_str())?;
    }
    Ok(text)
}

/// Whether this is the text of the log of a new process that found so many lines, from one number to another one.
pub(crate) fn is_found(
    alloc: Global,
    text: &[u8],
    span: (usize, usize),
) -> Result<bool, AllocError> {
    for count in span.0..span.1.saturating_add(1) {
        if text_behind(alloc, count)?.as_bytes() == text {
            return Ok(true);
        }
    }
    Ok(false)
}
