//! Doors over TCP.
use crate::door::talk::{Delays, meet_thrice};
use std::alloc::{AllocError, Global};
use std::net::{Net as Sockets, TcpListener, TcpStream};
use std::rt::Clock;
use std::sync::Wait;
use std::test::Fail;
use std::thread::Threads;
use std::{io, thread};
use sv_door::{Door, EndMade, TcpDoor};

/// A listener at some port, and the port.
fn listening<R: Sockets<Listener = TcpListener, Stream = TcpStream>>(
    rt: &R,
) -> io::Result<(TcpListener, u16)> {
    let listener = TcpListener::bind(rt, "127.0.0.1:0")?;
    let port = listener.local_addr()?.port();
    Ok((listener, port))
}

#[test]
fn meets_over_tcp(rt: HostRuntime) -> Result<(), Fail> {
    for (server, client) in [(0, 100), (100, 0)] {
        let (listener, port) = listening(&rt)?;
        drop(listener);
        let at_server = TcpDoor::new(rt.alloc(), &rt);
        let at_client = TcpDoor::new(rt.alloc(), &rt);
        let delays = Delays { server, client };
        let met = meet_thrice(&rt, at_server, at_client, port, delays)?;
        assert!(&rt; met, "{server} {client}");
    }
    Ok(())
}

/// A client meets a server at `port`, which then is asked to accept at `other`. Whether it met the client, and whether the second accept
/// failed: want of memory is no reason.
fn asks_for_another<
    R: Sockets<Listener = TcpListener, Stream = TcpStream> + Clock + Threads + Wait + Sync,
>(rt: &R, alloc: Global, port: u16, other: u16) -> Result<(bool, bool), AllocError> {
    thread::scope(thread::scope_env(), rt, move |scope| {
        let client = scope.spawn(move || {
            let mut door = TcpDoor::new(alloc, rt);
            matches!(door.connect(port), EndMade::End(_))
        })?;
        let mut door = TcpDoor::new(alloc, rt);
        let is_met = matches!(door.accept(port), EndMade::End(_));
        let fails = matches!(door.accept(other), EndMade::Failed);
        Ok((client.join(rt) && is_met, fails))
    })
}

#[test]
fn refuses_ports(rt: HostRuntime) -> Result<(), Fail> {
    let (listener, taken) = listening(&rt)?;
    let mut door = TcpDoor::new(rt.alloc(), &rt);
    assert!(&rt; matches!(door.accept(taken), EndMade::Failed));
    let (free, port) = listening(&rt)?;
    drop(free);
    assert!(&rt; asks_for_another(&rt, rt.alloc(), port, taken)? == (true, true));
    drop(listener);
    Ok(())
}
