//! Lines on standard error.
ghost use Rattle.sv_bytes.specs.Writing.{GrewOrRose};
ghost use Rattle.sv_host.specs.Lines.{open_line, standing_line};

use itoa::Buffer;
use sv_bytes::{Sink, write_pieces};

/// Writes a line that begins with a word and a name, and tells the last entry and the commit.
pub fn tell_standing<E: Sink>(word: &str, name: &str, entries: u64, commit: u32, err: &mut E)
    ensures { GrewOrRose (E.taken err.old) (E.taken err.new) (E.faults err.old) (E.faults err.new) (standing_line word.now name.now entries commit) }
{
    let mut last = Buffer::new();
    let mut done = Buffer::new();
    write_pieces(
        err,
        &[
            word.as_bytes(),
            b" ",
            name.as_bytes(),
            b", entry ",
            last.format(entries).as_bytes(),
            b", commit ",
            done.format(commit).as_bytes(),
            b"\n",
        ],
    );
}

/// Writes the line that tells that anybody may join.
pub fn tell_open<E: Sink>(err: &mut E)
    ensures { GrewOrRose (E.taken err.old) (E.taken err.new) (E.faults err.old) (E.faults err.new) open_line }
{
    write_pieces(err, &[b"anybody may join: there are no keys\n"]);
}
