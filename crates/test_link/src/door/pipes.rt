//! Doors in memory.
use crate::door::talk::{Delays, hears, meet_thrice, says};
use std::alloc::{AllocError, Global};
use std::sync::Wait;
use std::test::Fail;
use sv_door::{Door, EndMade, PipeDoor};
use sv_link::{End, EndRead, EndWrote};

const PORT: u16 = 7000;

#[test]
fn meets_on_threads(rt: HostRuntime) -> Result<(), Fail> {
    for (server, client) in [(0, 50), (50, 0)] {
        let at_server = PipeDoor::new(rt.alloc(), &rt, PORT)?;
        let at_client = at_server.another()?;
        let delays = Delays { server, client };
        let met = meet_thrice(&rt, at_server, at_client, PORT, delays)?;
        assert!(&rt; met, "{server} {client}");
    }
    Ok(())
}

/// The first client to connect meets the first accept.
#[test]
fn meets_in_order(rt: HostRuntime) -> Result<(), Fail> {
    let mut first = PipeDoor::new(rt.alloc(), &rt, PORT)?;
    let mut second = first.another()?;
    let mut server = second.another()?;
    let (EndMade::End(mut one), EndMade::End(mut two)) = (first.connect(PORT), second.connect(PORT))
    else {
        panic!(&rt; "two clients connect");
    };
    assert!(&rt; says(&mut two, 2) && says(&mut one, 1));
    for byte in [1, 2] {
        let EndMade::End(mut end) = server.accept(PORT) else {
            panic!(&rt; "a client is accepted");
        };
        assert!(&rt; hears(&mut end) == Some(byte), "{byte}");
        server.give_back(end);
    }
    assert!(&rt; hears(&mut one) == None);
    first.give_back(one);
    second.give_back(two);
    Ok(())
}

/// Calls that fail, 0 for none: of the door, and of its end. And the port that is asked for.
#[derive(Clone, Copy)]
struct Asked {
    door: u64,
    end: u64,
    port: u16,
}

/// How far a meeting went.
#[derive(Clone, Copy, Debug, PartialEq, Eq)]
enum Went {
    /// The client did not connect.
    Alone,

    /// The server did not accept.
    Unaccepted,

    /// What the server heard, and the client.
    Heard(Option<u8>, Option<u8>),
}

fn fails<R: Wait>(door: &mut PipeDoor<'_, R>, asked: Asked) -> Result<(), AllocError> {
    door.fail_at(asked.door)?;
    door.fail_end_at(asked.end)
}

/// The client says a byte, and the server answers one. Each goes on where it can.
fn meeting<R: Wait + Sync>(
    rt: &R,
    alloc: Global,
    server: Asked,
    client: Asked,
) -> Result<Went, AllocError> {
    let mut at_server = PipeDoor::new(alloc, rt, PORT)?;
    let mut at_client = at_server.another()?;
    fails(&mut at_server, server)?;
    fails(&mut at_client, client)?;
    let EndMade::End(mut visitor) = at_client.connect(client.port) else {
        return Ok(Went::Alone);
    };
    let EndMade::End(mut host) = at_server.accept(server.port) else {
        return Ok(Went::Unaccepted);
    };
    let there = if says(&mut visitor, 1) {
        hears(&mut host)
    } else {
        None
    };
    let back = if says(&mut host, 2) {
        hears(&mut visitor)
    } else {
        None
    };
    at_server.give_back(host);
    at_client.give_back(visitor);
    Ok(Went::Heard(there, back))
}

#[test]
fn fails_where_it_is_told(rt: HostRuntime) -> Result<(), Fail> {
    let here = PORT;
    let rows = [
        ((0, 0, here), (0, 0, here), Went::Heard(Some(1), Some(2))),
        ((0, 0, here), (1, 0, here), Went::Alone),
        ((1, 0, here), (0, 0, here), Went::Unaccepted),
        ((2, 0, here), (2, 0, here), Went::Heard(Some(1), Some(2))),
        ((0, 1, here), (0, 0, here), Went::Heard(None, Some(2))),
        ((0, 2, here), (0, 0, here), Went::Heard(Some(1), None)),
        ((0, 0, here), (0, 1, here), Went::Heard(None, Some(2))),
        ((0, 0, here), (0, 2, here), Went::Heard(Some(1), None)),
        ((0, 0, here), (0, 0, 7001), Went::Alone),
        ((0, 0, 7001), (0, 0, here), Went::Unaccepted),
    ];
    for ((door, end, port), client, expected) in rows {
        let server = Asked { door, end, port };
        let (door, end, port) = client;
        let client = Asked { door, end, port };
        assert!(&rt;
            meeting(&rt, rt.alloc(), server, client)? == expected,
            "{expected:?}"
        );
    }
    Ok(())
}

#[test]
fn moves_few_bytes(rt: HostRuntime) -> Result<(), Fail> {
    let mut door = PipeDoor::new(rt.alloc(), &rt, PORT)?;
    let EndMade::End(mut client) = door.connect(PORT) else {
        panic!(&rt; "a client connects");
    };
    door.move_at_most(2);
    let EndMade::End(mut server) = door.accept(PORT) else {
        panic!(&rt; "the client is accepted");
    };
    let mut into = [0; 4];
    assert!(&rt; client.write(&[1, 2, 3]) == EndWrote::Took(3));
    assert!(&rt; server.read(&mut into) == EndRead::Got(2));
    assert!(&rt; server.write(&[1, 2, 3]) == EndWrote::Took(2));
    Ok(())
}
