//! A server and the clients of its scenario, which meet over doors in memory and over TCP.
use crate::both::programs::{Call, Prints, Program, all_end_well};
use std::alloc::{AllocError, Global};
use std::io;
use std::net::{Net as Sockets, TcpListener, TcpStream};
use std::rt::Clock;
use std::sync::Wait;
use std::test::Fail;
use std::thread::Threads;
use sv_door::{PipeDoor, TcpDoor};
use test_calls::examples::{CONFLICT, FIRST, OBSERVE, RETRY};
use test_calls::scenarios::FIRST_SERVED;

/// A scenario, whose schedule is of no account here, and the programs that play it.
struct Meeting {
    scenario: &'static str,
    server: Call,
    clients: &'static [Call],
}

const MEETINGS: &[Meeting] = &[
    // One client adds 1 to an object, waits for the result and looks at it.
    Meeting {
        scenario: FIRST,
        server: Call {
            line: "serve a",
            prints: Prints::All(FIRST_SERVED),
        },
        clients: &[Call {
            line: "join a 0",
            prints: Prints::All("told c0 2 0 ? -> (5)\ntold c0 3 0 (5) -> (6)\nmade 1\n"),
        }],
    },
    // Two clients write one object, in an order that the threads decide.
    Meeting {
        scenario: CONFLICT,
        server: Call {
            line: "serve a",
            prints: Prints::Last("\ncommit 4\n"),
        },
        clients: &[
            Call {
                line: "join a 0",
                prints: Prints::Last("made 1\n"),
            },
            Call {
                line: "join a 1",
                prints: Prints::Last("\nmade 3\n"),
            },
        ],
    },
    // One of two clients cuts before it took a reply, and joins again: it has two sessions.
    Meeting {
        scenario: RETRY,
        server: Call {
            line: "serve a",
            prints: Prints::Last("\ncommit 2\n"),
        },
        clients: &[
            Call {
                line: "join a 1",
                prints: Prints::Last("made 1\n"),
            },
            Call {
                line: "join a 0",
                prints: Prints::Last("\nmade 1\n"),
            },
        ],
    },
    // One client adds 1 to an object, which the other one observes.
    Meeting {
        scenario: OBSERVE,
        server: Call {
            line: "serve a",
            prints: Prints::Last("\ncommit 1\n"),
        },
        clients: &[
            Call {
                line: "join a 0",
                prints: Prints::Last("made 1\n"),
            },
            Call {
                line: "join a 1",
                prints: Prints::Last("made 0\n"),
            },
        ],
    },
];

const PORT: u16 = 4000;

fn program<D: Drop>(
    alloc: Global,
    meeting: &Meeting,
    call: Call,
    port: u16,
    door: D,
) -> Program<D> {
    Program {
        alloc,
        scenario: meeting.scenario,
        call,
        port,
        door,
    }
}

/// Whether a meeting over doors in memory goes as it is to go.
fn meets_in_memory<R: Threads + Wait + Sync>(
    rt: &R,
    alloc: Global,
    meeting: &Meeting,
) -> Result<bool, AllocError> {
    let hall = PipeDoor::new(alloc, rt, PORT)?;
    let mut clients = Vec::with_capacity(alloc, meeting.clients.len())?;
    for call in meeting.clients {
        clients.push(program(alloc, meeting, *call, PORT, hall.another()?))?;
    }
    let server = program(alloc, meeting, meeting.server, PORT, hall);
    Ok(all_end_well(rt, server, clients))
}

#[test]
fn programs_meet_in_memory(rt: HostRuntime) -> Result<(), Fail> {
    for meeting in MEETINGS {
        assert!(&rt;
            meets_in_memory(&rt, rt.alloc(), meeting)?,
            "{}",
            meeting.scenario
        );
    }
    Ok(())
}

/// A port at which nobody listens.
fn free_port<R: Sockets<Listener = TcpListener, Stream = TcpStream>>(rt: &R) -> io::Result<u16> {
    let listener = TcpListener::bind(rt, "127.0.0.1:0")?;
    Ok(listener.local_addr()?.port())
}

/// The same over TCP.
fn meets_over_tcp<R>(
    rt: &R,
    alloc: Global,
    port: u16,
    meeting: &Meeting,
) -> Result<bool, AllocError>
where
    R: Sockets<Listener = TcpListener, Stream = TcpStream> + Clock + Threads + Wait + Sync,
{
    let mut clients = Vec::with_capacity(alloc, meeting.clients.len())?;
    for call in meeting.clients {
        clients.push(program(alloc, meeting, *call, port, TcpDoor::new(alloc, rt)))?;
    }
    let server = program(
        alloc,
        meeting,
        meeting.server,
        port,
        TcpDoor::new(alloc, rt),
    );
    Ok(all_end_well(rt, server, clients))
}

#[test]
fn programs_meet_over_tcp(rt: HostRuntime) -> Result<(), Fail> {
    for meeting in MEETINGS {
        let port = free_port(&rt)?;
        assert!(&rt;
            meets_over_tcp(&rt, rt.alloc(), port, meeting)?,
            "{}",
            meeting.scenario
        );
    }
    Ok(())
}
