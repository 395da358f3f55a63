//! What HTTP requests get.
use crate::shared::{begins, hear, send_all};
use std::hash::RandomState;
use std::test::Fail;
use sv_bytes::MemFiles;
use sv_peer::{Heard, Manner, Peer};

#[test]
fn pages(rt: HostRuntime) -> Result<(), Fail> {
    let mut files = MemFiles::new(rt.alloc());
    files.add("pages/index.html", b"<p>")?;
    files.add("pages/../secret", b"s")?;
    let mut peer = Peer::new(rt.alloc());
    let asked: [(&[u8], &[u8]); 6] = [
        (b"GET / HTTP/1.1\r\nHost: x\r\n\r\n", b"HTTP/1.1 200 OK\r\n"),
        (
            b"GET /status HTTP/1.1\r\nHost: x\r\n\r\n",
            b"HTTP/1.1 200 OK\r\n",
        ),
        (
            b"GET /none.js HTTP/1.1\r\nHost: x\r\n\r\n",
            b"HTTP/1.1 404 ",
        ),
        (
            b"GET /../secret HTTP/1.1\r\nHost: x\r\n\r\n",
            b"HTTP/1.1 404 ",
        ),
        (b"GET /a//b HTTP/1.1\r\nHost: x\r\n\r\n", b"HTTP/1.1 404 "),
        (
            b"PUT / HTTP/1.1\r\nHost: x\r\nContent-Length: 0\r\n\r\n",
            b"HTTP/1.1 405 ",
        ),
    ];
    for (request, answer) in asked {
        hear(
            rt.alloc(),
            RandomState::new(&rt)?,
            &mut peer,
            &mut files,
            request,
        )?;
        assert!(rt; begins(&peer, answer));
        assert!(rt; peer.manner() == Manner::Http);
        send_all(&mut peer);
    }
    let heard = peer.next();
    assert!(rt; matches!(&heard, Heard::NotYet));
    Ok(())
}

#[test]
fn long_head(rt: HostRuntime) -> Result<(), Fail> {
    let mut files = MemFiles::new(rt.alloc());
    let mut peer = Peer::new(rt.alloc());
    let mut head = Vec::new(rt.alloc());
    head.extend_from_slice(b"GET / HTTP/1.1\r\nHost: x\r\nCookie: ")?;
    for _ in 0..17_000 {
        head.push(b'c')?;
    }
    hear(
        rt.alloc(),
        RandomState::new(&rt)?,
        &mut peer,
        &mut files,
        &head,
    )?;
    assert!(rt; begins(&peer, b"HTTP/1.1 431 "));
    assert!(rt; peer.manner() == Manner::Closed);
    let heard = peer.next();
    assert!(rt; matches!(&heard, Heard::Closed));
    Ok(())
}
