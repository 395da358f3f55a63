//! A connection that becomes a WebSocket.
use crate::shared::{begins, hear, send_all};
use std::alloc::{AllocError, Global};
use std::hash::RandomState;
use std::test::Fail;
use sv_bytes::MemFiles;
use sv_peer::{Heard, Manner, Peer};
use sv_wire::{Reply, Request};

const UPGRADE: &[u8] =
    b"GET /play?key=00000000000000000000000000000000 HTTP/1.1\r\nHost: x\r\nConnection: Upgrade\r\nUpgrade: websocket\r\nSec-WebSocket-Version: 13\r\nSec-WebSocket-Key: dGhlIHNhbXBsZSBub25jZQ==\r\n\r\n";

const FOREIGN: &[u8] =
    b"GET /play HTTP/1.1\r\nHost: x\r\nOrigin: http://y\r\nConnection: Upgrade\r\nUpgrade: websocket\r\nSec-WebSocket-Version: 13\r\nSec-WebSocket-Key: dGhlIHNhbXBsZSBub25jZQ==\r\n\r\n";

#[test]
fn foreign_page(rt: HostRuntime) -> Result<(), Fail> {
    let mut files = MemFiles::new(rt.alloc());
    let mut peer = Peer::new(rt.alloc());
    hear(
        rt.alloc(),
        RandomState::new(&rt)?,
        &mut peer,
        &mut files,
        FOREIGN,
    )?;
    assert!(rt; begins(&peer, b"HTTP/1.1 403 "));
    assert!(rt; peer.manner() == Manner::Http);
    Ok(())
}

// A connection that was upgraded, whose answer was sent.
fn upgraded(alloc: Global, keys: RandomState, files: &mut MemFiles) -> Result<Peer, AllocError> {
    let mut peer = Peer::new(alloc);
    hear(alloc, keys, &mut peer, files, UPGRADE)?;
    send_all(&mut peer);
    Ok(peer)
}

#[test]
fn key_in_the_query(rt: HostRuntime) -> Result<(), Fail> {
    let mut files = MemFiles::new(rt.alloc());
    let mut peer = upgraded(rt.alloc(), RandomState::new(&rt)?, &mut files)?;
    assert!(rt; peer.manner() == Manner::Socket);
    let hello = peer.next();
    assert!(rt; matches!(&hello, Heard::Hello(_)));
    let none = peer.next();
    assert!(rt; matches!(&none, Heard::NotYet));
    Ok(())
}

#[test]
fn message_and_reply(rt: HostRuntime) -> Result<(), Fail> {
    let mut files = MemFiles::new(rt.alloc());
    let mut peer = upgraded(rt.alloc(), RandomState::new(&rt)?, &mut files)?;
    let hello = peer.next();
    assert!(rt; matches!(&hello, Heard::Hello(_)));
    let keys = RandomState::new(&rt)?;
    hear(
        rt.alloc(),
        keys,
        &mut peer,
        &mut files,
        &[0x82, 0x81, 0, 0, 0, 0, 4],
    )?;
    let poll = peer.next();
    assert!(rt; matches!(&poll, Heard::Request(Request::Poll)));
    peer.say(&Reply::Idle)?;
    assert!(rt; begins(&peer, &[0x82, 1, 0x86]));
    Ok(())
}

#[test]
fn text_closes(rt: HostRuntime) -> Result<(), Fail> {
    let mut files = MemFiles::new(rt.alloc());
    let mut peer = upgraded(rt.alloc(), RandomState::new(&rt)?, &mut files)?;
    let hello = peer.next();
    assert!(rt; matches!(&hello, Heard::Hello(_)));
    let keys = RandomState::new(&rt)?;
    hear(
        rt.alloc(),
        keys,
        &mut peer,
        &mut files,
        &[0x81, 0x81, 0, 0, 0, 0, b'a'],
    )?;
    let closed = peer.next();
    assert!(rt; matches!(&closed, Heard::Closed));
    assert!(rt; begins(&peer, &[0x88, 2, 3, 0xEB]));
    Ok(())
}

#[test]
fn long_message(rt: HostRuntime) -> Result<(), Fail> {
    let mut files = MemFiles::new(rt.alloc());
    let mut peer = Peer::new(rt.alloc());
    hear(
        rt.alloc(),
        RandomState::new(&rt)?,
        &mut peer,
        &mut files,
        UPGRADE,
    )?;
    send_all(&mut peer);
    let hello = peer.next();
    assert!(rt; matches!(&hello, Heard::Hello(_)));
    let head = [0x82, 0xFF, 0, 0, 0, 0, 0, 1, 0, 1, 0, 0, 0, 0];
    hear(
        rt.alloc(),
        RandomState::new(&rt)?,
        &mut peer,
        &mut files,
        &head,
    )?;
    let closed = peer.next();
    assert!(rt; matches!(&closed, Heard::Closed));
    assert!(rt; begins(&peer, &[0x88, 2, 3, 0xF1]));
    Ok(())
}
