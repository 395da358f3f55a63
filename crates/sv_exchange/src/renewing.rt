//! Letting go of what a link carried.
ghost use Rattle.std.specs.Prelude.{◌≡◌, []};
ghost use Rattle.sv_exchange.specs.Streams.{IsSameLink};

use std::alloc::Global;
use sv_link::{MemLink, Side};

/// A link with nothing written.
fn fresh(alloc: Global, server_closed: bool, client_closed: bool) -> MemLink
    ensures server { result.server ≡ record { written = []; read = 0; closed = server_closed } }
    ensures client { result.client ≡ record { written = []; read = 0; closed = client_closed } }
{
    let mut link = MemLink::new(alloc);
    if server_closed {
        link.close(Side::Server);
    }
    if client_closed {
        link.close(Side::Client);
    }
    link
}

/// Where each side has read all that the other wrote, the link starts anew: a link keeps all that it carried.
pub(crate) fn renew(alloc: Global, link: &mut MemLink)
    ensures { IsSameLink link.old link.new }
{
    if link.waiting(Side::Server) == 0 && link.waiting(Side::Client) == 0 {
        *link = fresh(
            alloc,
            link.is_closed(Side::Server),
            link.is_closed(Side::Client),
        );
    }
}
