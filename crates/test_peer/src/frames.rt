//! A connection that speaks frames.
use crate::shared::{begins, hear, send_all};
use std::alloc::{AllocError, Global};
use std::hash::RandomState;
use std::test::Fail;
use sv_bytes::MemFiles;
use sv_peer::{Heard, Manner, Peer};
use sv_wire::{Reply, Request};

/// The frames of a key of sixteen zeros, and of a Poll.
const HELLO_AND_POLL: [u8; 27] = [
    0, 0, 0, 18, 8, 16, 0, 0, 0, 0, 0, 0, 0, 0, 0, 0, 0, 0, 0, 0, 0, 0, 0, 0, 0, 1, 4,
];

// Hears the frames in two pieces, and answers whether nothing whole had come with the first.
fn hear_cut(
    alloc: Global,
    keys: RandomState,
    peer: &mut Peer,
    files: &mut MemFiles,
    cut: usize,
) -> Result<bool, AllocError> {
    let (first, second) = HELLO_AND_POLL.split_at(cut.min(HELLO_AND_POLL.len()));
    hear(alloc, keys, peer, files, first)?;
    let early = peer.next();
    let is_early = matches!(&early, Heard::NotYet);
    hear(alloc, keys, peer, files, second)?;
    Ok(is_early)
}

fn next_is_hello(peer: &mut Peer) -> bool {
    let heard = peer.next();
    matches!(&heard, Heard::Hello(_))
}

fn next_is_poll(peer: &mut Peer) -> bool {
    let heard = peer.next();
    matches!(&heard, Heard::Request(Request::Poll))
}

#[test]
fn frames_in_pieces(rt: HostRuntime) -> Result<(), Fail> {
    let mut files = MemFiles::new(rt.alloc());
    for cut in 1..26 {
        let keys = RandomState::new(&rt)?;
        let mut peer = Peer::new(rt.alloc());
        let is_early = hear_cut(rt.alloc(), keys, &mut peer, &mut files, cut)?;
        assert!(rt; is_early == (cut < 22));
        assert!(rt; !is_early || next_is_hello(&mut peer));
        assert!(rt; next_is_poll(&mut peer));
        assert!(rt; peer.manner() == Manner::Frames);
    }
    Ok(())
}

#[test]
fn short_key_is_bad(rt: HostRuntime) -> Result<(), Fail> {
    let mut files = MemFiles::new(rt.alloc());
    let mut peer = Peer::new(rt.alloc());
    let mut stream = [0; 21];
    stream[3] = 17;
    stream[4] = 8;
    stream[5] = 15;
    hear(
        rt.alloc(),
        RandomState::new(&rt)?,
        &mut peer,
        &mut files,
        &stream,
    )?;
    let heard = peer.next();
    assert!(rt; matches!(&heard, Heard::Request(Request::Bad)));
    let last = peer.next();
    assert!(rt; matches!(&last, Heard::NotYet));
    Ok(())
}

#[test]
fn long_frame_is_bad(rt: HostRuntime) -> Result<(), Fail> {
    let mut files = MemFiles::new(rt.alloc());
    let mut peer = Peer::new(rt.alloc());
    hear(
        rt.alloc(),
        RandomState::new(&rt)?,
        &mut peer,
        &mut files,
        &[0, 1, 0, 1],
    )?;
    let heard = peer.next();
    assert!(rt; matches!(&heard, Heard::Request(Request::Bad)));
    let again = peer.next();
    assert!(rt; matches!(&again, Heard::Request(Request::Bad)));
    Ok(())
}

#[test]
fn replies_are_frames(rt: HostRuntime) -> Result<(), Fail> {
    let mut files = MemFiles::new(rt.alloc());
    let mut peer = Peer::new(rt.alloc());
    assert!(rt; peer.say(&Reply::Idle).is_err());
    hear(
        rt.alloc(),
        RandomState::new(&rt)?,
        &mut peer,
        &mut files,
        &[0],
    )?;
    peer.say(&Reply::Idle)?;
    peer.say(&Reply::Bye)?;
    assert!(rt; begins(&peer, &[0, 0, 0, 1, 0x86, 0, 0, 0, 1, 0x88]));
    peer.sent(6);
    assert!(rt; begins(&peer, &[0, 0, 1, 0x88]));
    send_all(&mut peer);
    assert!(rt; peer.output().is_empty());
    Ok(())
}
