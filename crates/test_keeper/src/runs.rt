//! Processes that keep a world, and the folders that they find.
ghost use Rattle.std.specs.Prelude.{◌≡◌, IfOk};
ghost use Rattle.sv_log.specs.Folders.{disk_in_memory};
ghost use Rattle.sv_log.specs.Rests.{IsAtRest};

use crate::lines::{LINES, is_found, text_of};
use std::alloc::{AllocError, Global};
use std::test::Fail;
use sv_core::Opened;
use sv_keeper::{Keeper, OpenFault, Opening};
use sv_living::Stewards;
use sv_log::{Loss, MemFolder, read_log};
use test_asked::{asked_in, world_of};

pub(crate) const OWN: &str = "world.json";

pub(crate) const ONE: &str = "journal-00000000000000000001.txt";

pub(crate) const THREE: &str = "journal-00000000000000000003.txt";

pub(crate) const EIGHT: &str = "journal-00000000000000000008.txt";

pub(crate) const NINE: &str = "journal-00000000000000000009.txt";

/// A file: its name, the lines in it from one place to another, and the bytes behind them.
pub(crate) type Part = (&'static str, usize, usize, &'static str);

/// A file, a text in it, and another one in its place. An empty text is the whole file's, and `GONE` takes the file away.
pub(crate) type Edit = (&'static str, &'static str, &'static str);

pub(crate) const GONE: &str = "gone";

pub(crate) const NOTHING: Edit = ("", "", "");

/// Two numbers of lines, the first not above the second.
pub(crate) type Span = (usize, usize);

/// A process on a folder.
#[derive(Clone, Copy)]
pub(crate) struct Run {
    pub(crate) parts: &'static [Part],
    /// How many lines there are before and behind the opening, and before and behind each group that is durable.
    pub(crate) spans: &'static [Span],
    pub(crate) spare: usize,
}

pub(crate) const NEW: Run = Run {
    parts: &[],
    spans: &[(0, 0), (0, 1), (1, 4), (4, 5)],
    spare: 8,
};

pub(crate) const TORN: Run = Run {
    parts: &[(OWN, 0, 0, "w"), (ONE, 0, 5, "\0\0old\0")],
    spans: &[(5, 7), (7, 8), (8, 12)],
    spare: 100,
};

pub(crate) const PARTED: Run = Run {
    parts: &[
        (OWN, 0, 0, "w"),
        (ONE, 0, 2, ""),
        (THREE, 2, 8, ""),
        (NINE, 8, 12, "13 s2 e"),
    ],
    spans: &[(12, 13), (13, 16)],
    spare: 0,
};

/// The bytes of a part with an edit.
fn bytes_of(alloc: Global, part: &Part, edit: &Edit) -> Result<String, Fail> {
    let mut text = text_of(alloc, part.1, part.2)?;
    text.push_str(part.3)?;
    if part.0 != edit.0 {
        return Ok(text);
    }
    if edit.1.is_empty() {
        return Ok(String::from_str(alloc, edit.2)?);
    }
    let Some((front, rest)) = text.split_once(edit.1) else {
        return Err(Fail::new(format_args!("it has no {}", edit.1)));
    };
    Ok(format!(in alloc; "{front}{}{rest}", edit.2)?)
}

/// A folder with these files and an edit.
pub(crate) fn folder_of(alloc: Global, parts: &[Part], edit: &Edit) -> Result<MemFolder, Fail>
    ensures { IfOk result (λ folder. IsAtRest (disk_in_memory folder)) }
{
    let mut folder = MemFolder::new(alloc);
    for part in parts {
        let text = bytes_of(alloc, part, edit)?;
        if text.as_str() != GONE {
            folder = folder.with_file(part.0, text.as_bytes())?;
        }
    }
    Ok(folder.crashed(0, Loss::Nothing)?)
}

/// All bytes of a folder, to compare it. No file has the bytes 1 and 2.
pub(crate) fn files_of(alloc: Global, folder: &MemFolder) -> Result<Vec<u8>, AllocError> {
    let mut files = Vec::new(alloc);
    for name in [OWN, ONE, THREE, EIGHT, NINE, "new"] {
        match folder.file(name)? {
            None => files.push(1)?,
            Some(bytes) => {
                files.push(2)?;
                files.extend_from_slice(&bytes)?;
            }
        }
    }
    Ok(files)
}

pub(crate) fn open(
    alloc: Global,
    folder: MemFolder,
    spare: usize,
) -> Result<Result<Keeper<MemFolder>, (OpenFault, MemFolder)>, Fail>
    requires { IsAtRest (disk_in_memory folder) }
{
    let opening = Opening {
        opened: Opened::living(world_of(alloc, &[10, 20])?, 4, None, None),
        stewards: Stewards {
            steward: None,
            authority: false,
        },
        world: b"w",
        spare,
    };
    Ok(Keeper::open(alloc, folder, opening))
}

/// Steps what a line asks. Whether it was answered.
pub(crate) fn ask(alloc: Global, keeper: &mut Keeper<MemFolder>, line: &str) -> Result<bool, Fail> {
    let asked = asked_in(alloc, line)?;
    let reply = keeper.step(u64::from(asked.session), &asked.request);
    let is_answered = reply.is_ok();
    drop(reply);
    drop(asked);
    Ok(is_answered)
}

/// How many lines may be sent.
pub(crate) fn leave(keeper: &Keeper<MemFolder>) -> Option<u64> {
    match keeper.durable() {
        Some(durable) => Some(durable.entries()),
        None => None,
    }
}

/// Steps the lines of a span, and makes them durable. Whether all went well, and nothing might be sent before.
fn put_lines(alloc: Global, keeper: &mut Keeper<MemFolder>, span: Span) -> Result<bool, Fail> {
    for line in LINES.iter().take(span.1).skip(span.0) {
        if !ask(alloc, keeper, line)? || leave(keeper).is_some() {
            return Ok(false);
        }
    }
    let is_durable = keeper.make_durable().is_ok();
    Ok(is_durable && leave(keeper) == Some(span.1 as u64))
}

/// Makes the groups of a run durable. Answers the first one with which something is wrong.
pub(crate) fn play(
    alloc: Global,
    keeper: &mut Keeper<MemFolder>,
    run: &Run,
) -> Result<Option<Span>, Fail> {
    for span in run.spans.iter().skip(1) {
        if !put_lines(alloc, keeper, *span)? {
            return Ok(Some(*span));
        }
    }
    Ok(None)
}

/// A new process opens a folder, and finds lines of a span. Answers the folder that it leaves.
pub(crate) fn finds(alloc: Global, folder: MemFolder, span: Span) -> Result<MemFolder, Fail>
    requires { IsAtRest (disk_in_memory folder) }
{
    let Ok(keeper) = open(alloc, folder, 8)? else {
        return Err(Fail::new("it is not opened"));
    };
    let mut folder = keeper.into_folder();
    let Ok(reading) = read_log(alloc, &mut folder, b"w") else {
        return Err(Fail::new("it is not read"));
    };
    if !is_found(alloc, &reading.text, span)? {
        return Err(Fail::new("it finds other lines"));
    }
    Ok(folder)
}
