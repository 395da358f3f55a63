//! Lines: of a text that is made, and those that are written beside an output. Writing one takes no memory.
ghost use Rattle.std.specs.Prelude.{◌≡◌, ◌++◌, codes, string_bytes, OnOk};
ghost use Rattle.std.specs.Fmt.{decimal};
ghost use Rattle.std.specs.List.{flat_map};
ghost use Rattle.sv_bytes.specs.Writing.{GrewOrRose};
ghost use Rattle.sv_ending.specs.Lines.{ended_line, file_line};

use itoa::Buffer;
use std::alloc::AllocError;
use sv_bytes::{Sink, write_all, write_pieces};
use sv_lists::Text;

/// Appends lines, each with its end.
pub fn append_lines(lines: &[Text], text: &mut String) -> Result<(), AllocError>
    ensures { OnOk result (string_bytes text.new ≡ string_bytes text.old ++ flat_map ended_line lines.now) }
{
    for line in lines {
        text.push_str(line.as_str())?;
        text.push_str("\n")?;
    }
    Ok(())
}

/// Writes a whole line, with its end.
pub fn tell_line<E: Sink>(line: &[u8], err: &mut E)
    ensures { GrewOrRose (E.taken err.old) (E.taken err.new) (E.faults err.old) (E.faults err.new) line.now }
{
    write_all(err, line);
}

/// Writes the line that names a file that can't be read.
pub fn tell_file<E: Sink>(name: &str, err: &mut E)
    ensures { GrewOrRose (E.taken err.old) (E.taken err.new) (E.faults err.old) (E.faults err.new) (file_line name.now) }
{
    write_pieces(err, &[b"file: ", name.as_bytes(), b"\n"]);
}

/// Writes a line that ends with a number.
pub fn tell_number<E: Sink>(words: &[u8], number: u32, err: &mut E)
    ensures { GrewOrRose (E.taken err.old) (E.taken err.new) (E.faults err.old) (E.faults err.new) (words.now ++ decimal number ++ codes "\n") }
{
    let mut buffer = Buffer::new();
    write_pieces(err, &[words, buffer.format(number).as_bytes(), b"\n"]);
}

/// Writes a line that ends with two numbers.
pub fn tell_numbers<E: Sink>(words: &[u8], first: u32, second: u32, err: &mut E)
    ensures { GrewOrRose (E.taken err.old) (E.taken err.new) (E.faults err.old) (E.faults err.new) (words.now ++ decimal first ++ codes " " ++ decimal second ++ codes "\n") }
{
    let mut one = Buffer::new();
    let mut other = Buffer::new();
    write_pieces(
        err,
        &[
            words,
            one.format(first).as_bytes(),
            b" ",
            other.format(second).as_bytes(),
            b"\n",
        ],
    );
}
