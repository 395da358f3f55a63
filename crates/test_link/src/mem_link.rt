//! Links for one thread.

use std::process::Abort;
use std::test::Fail;
use sv_link::{MemLink, Side};

/// Reads at most four bytes, and compares what the four places then hold.
fn reads(rt: &impl Abort, link: &mut MemLink, side: Side, count: usize, holds: [u8; 4]) {
    let mut into = [9; 4];
    assert!(rt; link.read(side, &mut into) == count);
    assert!(rt; into == holds);
}

#[test]
fn carries_both_ways(rt: HostRuntime) -> Result<(), Fail> {
    let mut link = MemLink::new(rt.alloc());
    link.write(Side::Client, &[1, 2, 3, 4, 5])?;
    link.write(Side::Server, &[6])?;
    assert!(rt; link.waiting(Side::Server) == 5);
    assert!(rt; link.waiting(Side::Client) == 1);
    reads(&rt, &mut link, Side::Server, 4, [1, 2, 3, 4]);
    reads(&rt, &mut link, Side::Client, 1, [6, 9, 9, 9]);
    link.write(Side::Client, &[7])?;
    reads(&rt, &mut link, Side::Server, 2, [5, 7, 9, 9]);
    reads(&rt, &mut link, Side::Server, 0, [9, 9, 9, 9]);
    assert!(rt; link.waiting(Side::Server) == 0);
    Ok(())
}

#[test]
fn closes_each_side(rt: HostRuntime) -> Result<(), Fail> {
    let mut link = MemLink::new(rt.alloc());
    assert!(rt; !link.is_closed(Side::Client));
    link.write(Side::Client, &[8])?;
    link.close(Side::Client);
    assert!(rt; link.is_closed(Side::Client));
    assert!(rt; !link.is_closed(Side::Server));
    reads(&rt, &mut link, Side::Server, 1, [8, 9, 9, 9]);
    link.close(Side::Server);
    assert!(rt; link.is_closed(Side::Server));
    Ok(())
}
