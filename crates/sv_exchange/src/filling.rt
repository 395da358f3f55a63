//! Reading a link into a frame reader.
ghost use Rattle.std.specs.Prelude.{◌≡◌, ◌≤◌, [], ◌++◌, length};
ghost use Rattle.sv_link.specs.Sides.{other, side_of, unread};
ghost use Rattle.sv_exchange.specs.Streams.{IsWithin, SideReadOn, IsFilled};

use sv_frame::FrameReader;
use sv_link::{MemLink, Side};

/// How many bytes are moved at a time. Most messages are shorter, and the room for a piece is cleared each time.
const MOVED_AT_ONCE: usize = 512;

/// Reads what the other side wrote into the reader, as much as there is and fits.
pub(crate) fn fill(link: &mut MemLink, side: Side, reader: &mut FrameReader)
    requires { IsWithin (side_of link.old (other side)) }
    ensures same { reader.new ++ unread (side_of link.new (other side)) ≡ reader.old ++ unread (side_of link.old (other side)) }
    ensures filled { IsFilled reader.new (unread (side_of link.new (other side))) }
    ensures link { SideReadOn link.old link.new side }
{
    let mut piece = [0; MOVED_AT_ONCE];
    while link.waiting(side) > 0 && reader.spare() > 0 {
        let room = reader.spare().min(MOVED_AT_ONCE);
        let count = link.read(side, &mut piece[..room]);
        reader.feed(&piece[..count]);
    }
}
