//! The line that tells a snapshot.
ghost use Rattle.std.specs.Prelude.{◌≡◌, ◌++◌, string_bytes, IfOk, OnOk};
ghost use Rattle.sv_looks.specs.Lines.{look_line, moment_text};

use crate::snapshot::Snapshot;
use std::alloc::{AllocError, Global};
use sv_journal::append_head;
use sv_lists::Text;
use sv_watch::Line;
use sv_world::ClientId;

/// Appends who looked, and when.
fn append_moment(
    client: ClientId,
    seq: Option<u32>,
    pos: u32,
    out: &mut String,
) -> Result<(), AllocError>
    ensures { OnOk result (string_bytes out.new ≡ string_bytes out.old ++ moment_text client.0 seq pos) }
{
    let number = client.0;
    match seq {
        Some(seq) => write!(out, "look c{number} {seq} at {pos}"),
        None => {
            let last = pos.saturating_sub(1);
            write!(out, "seen c{number} at {last}")
        }
    }
}

/// The line that tells a snapshot, as `look c0 2 at 2 [0=(11) 1=(20)]`: the client, its number for the look, the position, and the values; or as
/// `seen c1 at 3 [0=(5) 2=(7)]`: the client, the position at which it saw what it observed, and the values there.
pub fn look_line(alloc: Global, snapshot: &Snapshot) -> Result<Line, AllocError>
    ensures { IfOk result (λ line. line ≡ look_line snapshot.now) }
{
    let mut text = String::new(alloc);
    append_moment(snapshot.client, snapshot.seq, snapshot.pos, &mut text)?;
    text.push_str(" ")?;
    append_head(snapshot.values.as_slice(), &mut text)?;
    Ok(Text::from_string(text))
}
