//! Doors over TCP in a system that does what a test says, and whose clock only counts.

use std::alloc::Global;
use std::cell::Cell;
use std::io;
use std::io::ErrorKind;
use std::net::{Net as Sockets, SocketAddr, TcpListener, TcpStream};
use std::rt::Clock;
use std::test::Fail;
use std::time::Duration;
use sv_door::{Door, EndMade, TcpDoor};

/// What the system does at the first calls of `connect`. Behind them it connects.
#[derive(Clone, Copy, Debug)]
enum Does {
    /// It answers this error, so often.
    Fails(ErrorKind, u32),

    /// It connects a stream to itself, once.
    MeetsItself,
}

/// A system whose sockets are the real one's but for what it does first.
#[derive(Drop)]
struct System<'r, R: Sockets<Listener = TcpListener, Stream = TcpStream>> {
    rt: &'r R,
    does: Does,
    connects: Cell<u32>,
    slept: Cell<Duration>,
    asked: Cell<u16>,
    met_itself: Cell<bool>,
}

impl<'r, R: Sockets<Listener = TcpListener, Stream = TcpStream>> System<'r, R> {
    fn new(rt: &'r R, does: Does) -> System<'r, R> {
        System {
            rt,
            does,
            connects: Cell::new(0),
            slept: Cell::new(Duration::ZERO),
            asked: Cell::new(0),
            met_itself: Cell::new(false),
        }
    }

    /// Connects until the system chooses the very port that is asked for.
    fn meet_itself(&self, addr: SocketAddr) -> io::Result<TcpStream> {
        for _ in 0..MOST_CHOICES {
            if let Ok(stream) = self.rt.connect(addr) {
                self.met_itself
                    .set(stream.local_addr()? == stream.peer_addr()?);
                return Ok(stream);
            }
        }
        Err(io::Error::from(ErrorKind::Other))
    }
}

// How often it tries at most until the system chooses the very port that is asked for.
const MOST_CHOICES: u32 = 200_000;

impl<'r, R: Sockets<Listener = TcpListener, Stream = TcpStream>> Sockets for System<'r, R> {
    type Stream = TcpStream;

    type Listener = TcpListener;

    fn bind(&self, addr: SocketAddr) -> io::Result<TcpListener> {
        self.asked.set(addr.port());
        match self.does {
            Does::Fails(kind, _) => Err(io::Error::from(kind)),
            Does::MeetsItself => self.rt.bind(addr),
        }
    }

    fn connect(&self, addr: SocketAddr) -> io::Result<TcpStream> {
        self.asked.set(addr.port());
        let before = self.connects.get();
        self.connects.set(before.wrapping_add(1));
        match self.does {
            Does::Fails(kind, times) if before < times => Err(io::Error::from(kind)),
            Does::MeetsItself if before == 0 => self.meet_itself(addr),
            _ => self.rt.connect(addr),
        }
    }
}

impl<'r, R: Sockets<Listener = TcpListener, Stream = TcpStream>> Clock for System<'r, R> {
    fn monotonic(&self) -> io::Result<Duration> {
        Err(io::Error::from(ErrorKind::Unsupported))
    }

    fn since_1970(&self) -> io::Result<Duration> {
        Err(io::Error::from(ErrorKind::Unsupported))
    }

    fn sleep(&self, duration: Duration) {
        let slept = self.slept.get().checked_add(duration);
        self.slept.set(slept.unwrap_or(Duration::MAX));
    }
}

/// What a door answers.
#[derive(Clone, Copy, Debug, PartialEq, Eq)]
enum Answer {
    End,
    Failed,
    Memory,
}

fn answer_of<E>(made: EndMade<E>) -> Answer
where
    E: Drop,
{
    match made {
        EndMade::End(_) => Answer::End,
        EndMade::Failed => Answer::Failed,
        EndMade::Memory => Answer::Memory,
    }
}

/// How a client's door came to its answer.
#[derive(Clone, Copy, Debug, PartialEq, Eq)]
struct Found {
    answer: Answer,
    tries: u32,
    slept: Duration,
    met_itself: bool,
}

fn of_client<R: Sockets<Listener = TcpListener, Stream = TcpStream>>(
    rt: &R,
    alloc: Global,
    port: u16,
    does: Does,
) -> Found {
    let system = System::new(rt, does);
    let mut door = TcpDoor::new(alloc, &system);
    Found {
        answer: answer_of(door.connect(port)),
        tries: system.connects.get(),
        slept: system.slept.get(),
        met_itself: system.met_itself.get(),
    }
}

/// A client waits ten seconds in all where nobody listens, and no time for any other error.
#[test]
fn clients_try_for_ten_seconds(rt: HostRuntime) -> Result<(), Fail> {
    let listener = TcpListener::bind(&rt, "127.0.0.1:0")?;
    let port = listener.local_addr()?.port();
    let refused = ErrorKind::ConnectionRefused;
    let rows = [
        (Does::Fails(refused, 0), Answer::End, 1, 0),
        (Does::Fails(refused, 1), Answer::End, 2, 20),
        (Does::Fails(refused, 500), Answer::End, 501, 10_000),
        (Does::Fails(refused, 501), Answer::Failed, 501, 10_000),
        (Does::Fails(refused, 9_999), Answer::Failed, 501, 10_000),
        (Does::Fails(ErrorKind::TimedOut, 1), Answer::Failed, 1, 0),
        (Does::Fails(ErrorKind::OutOfMemory, 1), Answer::Memory, 1, 0),
    ];
    for (does, answer, tries, millis) in rows {
        let wanted = Found {
            answer,
            tries,
            slept: Duration::from_millis(millis),
            met_itself: false,
        };
        assert!(rt;
            of_client(&rt, rt.alloc(), port, does) == wanted,
            "{does:?}"
        );
    }
    Ok(())
}

/// A port that the system chooses for streams that connect.
fn chosen_port<R: Sockets<Listener = TcpListener, Stream = TcpStream>>(rt: &R) -> io::Result<u16> {
    let listener = TcpListener::bind(rt, "127.0.0.1:0")?;
    let stream = TcpStream::connect(rt, listener.local_addr()?)?;
    Ok(stream.local_addr()?.port())
}

/// A client that is connected to itself tries again, and finds that nobody listens. The port is free then. A system that never does so has
/// nothing to show.
#[test]
fn nobody_meets_itself(rt: HostRuntime) -> Result<(), Fail> {
    let port = chosen_port(&rt)?;
    let found = of_client(&rt, rt.alloc(), port, Does::MeetsItself);
    if !found.met_itself {
        return Ok(());
    }
    let wanted = Found {
        answer: Answer::Failed,
        tries: 501,
        slept: Duration::from_millis(10_000),
        met_itself: true,
    };
    assert!(rt; found == wanted);
    assert!(rt; TcpListener::bind(&rt, ("127.0.0.1", port)).is_ok());
    Ok(())
}

/// A server asks for its port, and says why it has none.
#[test]
fn servers_ask_for_their_port(rt: HostRuntime) -> Result<(), Fail> {
    let rows = [
        (ErrorKind::AddrInUse, Answer::Failed),
        (ErrorKind::PermissionDenied, Answer::Failed),
        (ErrorKind::OutOfMemory, Answer::Memory),
    ];
    for (kind, expected) in rows {
        let system = System::new(&rt, Does::Fails(kind, 0));
        let mut door = TcpDoor::new(rt.alloc(), &system);
        assert!(rt; answer_of(door.accept(4_321)) == expected, "{kind:?}");
        assert!(rt; system.asked.get() == 4_321);
    }
    Ok(())
}
