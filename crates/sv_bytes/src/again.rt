//! Reads and writes that are made anew where a signal broke them off.
ghost use Rattle.std.specs.Io.{ReadsAtMost, WritesAtMost};

use std::io;

/// How often a call is made at most.
const MOST_CALLS: u32 = 1000;

/// Reads, and reads anew where a signal broke the read off.
pub fn read_again<R: io::Read>(reader: &mut R, into: &mut [u8]) -> io::Result<usize>
    ensures { ReadsAtMost result into.new }
{
    for _ in 1..MOST_CALLS {
        match reader.read(into) {
            Err(error) if error.kind() == io::ErrorKind::Interrupted => {}
            answer => return answer,
        }
    }
    reader.read(into)
}

/// Writes, and writes anew where a signal broke the write off.
pub fn write_again<W: io::Write>(writer: &mut W, piece: &[u8]) -> io::Result<usize>
    ensures { WritesAtMost result piece.now }
{
    for _ in 1..MOST_CALLS {
        match writer.write(piece) {
            Err(error) if error.kind() == io::ErrorKind::Interrupted => {}
            answer => return answer,
        }
    }
    writer.write(piece)
}
