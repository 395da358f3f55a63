//! Ends and nets over real sockets: a short write, a reset, a stranger who connects first, and a system that refuses.
ghost use Rattle.std.specs.Prelude.{◌≡◌, false};
ghost use Rattle.sv_link.specs.TcpEnds.{end_told};

use std::alloc::Global;
use std::io;
use std::io::{ErrorKind, Read};
use std::net::{Net as Sockets, SocketAddr, TcpListener, TcpStream};
use std::test::Fail;
use sv_link::{End, EndLog, EndRead, EndWrote, Net, Pair, Side, TcpEnd, TcpNet};

/// The two streams of a connection: the server's, and the client's.
fn two_streams<R: Sockets<Listener = TcpListener, Stream = TcpStream>>(
    rt: &R,
) -> io::Result<(TcpStream, TcpStream)> {
    let listener = TcpListener::bind(rt, "127.0.0.1:0")?;
    let client = TcpStream::connect(rt, listener.local_addr()?)?;
    let (server, _) = listener.accept()?;
    Ok((server, client))
}

fn end_of(alloc: Global, stream: TcpStream, side: Side) -> TcpEnd
    ensures { (end_told result).closed ≡ false }
{
    TcpEnd::new(stream, EndLog::new(alloc, 0, side))
}

/// How many bytes come until the end.
fn count_to_end(mut stream: TcpStream) -> io::Result<usize> {
    let mut into = [0; 4096];
    let mut all = 0usize;
    for _ in 0..u64::MAX {
        match stream.read(&mut into)? {
            0 => return Ok(all),
            count => all = all.wrapping_add(count),
        }
    }
    Ok(all)
}

/// More than a connection holds.
const MUCH: usize = 1 << 25;

/// A stream that does not wait takes a part. As much as it told comes at the other side.
#[test]
fn short_writes_are_told_as_short(rt: HostRuntime) -> Result<(), Fail> {
    let (server, client) = two_streams(&rt)?;
    client.set_nonblocking(true)?;
    let mut client = end_of(rt.alloc(), client, Side::Client);
    let much = vec![in rt.alloc(); 7; MUCH]?;
    let EndWrote::Took(count) = client.write(&much) else {
        panic!(&rt; "a part is taken");
    };
    assert!(rt; 0 < count && count < MUCH, "{count}");
    drop(client);
    assert!(rt; count_to_end(server)? == count, "{count}");
    Ok(())
}

/// The server's side goes with a byte unread, which resets the connection.
#[test]
fn resets_are_faults(rt: HostRuntime) -> Result<(), Fail> {
    let (server, client) = two_streams(&rt)?;
    let mut client = end_of(rt.alloc(), client, Side::Client);
    assert!(rt; client.write(&[1]) == EndWrote::Took(1));
    drop(server);
    assert!(rt; client.read(&mut [0; 4]) == EndRead::Failed);
    assert!(rt; client.write(&[1]) == EndWrote::Failed);
    Ok(())
}

/// Both ways are shut down, though the stream itself is still held.
#[test]
fn closing_ends_both_sides(rt: HostRuntime) -> Result<(), Fail> {
    let (server, client) = two_streams(&rt)?;
    let held = client.try_clone()?;
    held.set_nonblocking(true)?;
    let mut server = end_of(rt.alloc(), server, Side::Server);
    let mut client = end_of(rt.alloc(), client, Side::Client);
    client.close();
    assert!(rt; server.read(&mut [0; 4]) == EndRead::Ended);
    let mut held = end_of(rt.alloc(), held, Side::Client);
    assert!(rt; held.read(&mut [0; 4]) == EndRead::Ended);
    assert!(rt; held.write(&[1]) == EndWrote::Failed);
    Ok(())
}

/// What the system does where a net connects.
#[derive(Clone, Copy, Debug)]
enum Does {
    /// It connects.
    Connects,

    /// Somebody else connects to the listener just before, and goes.
    LetsIn,

    /// It answers this error.
    Fails(ErrorKind),
}

/// A system that does this.
#[derive(Drop)]
struct System<'r, R: Sockets<Listener = TcpListener, Stream = TcpStream>> {
    rt: &'r R,
    binding: Option<ErrorKind>,
    connecting: Does,
}

impl<'r, R: Sockets<Listener = TcpListener, Stream = TcpStream>> Sockets for System<'r, R> {
    type Stream = TcpStream;

    type Listener = TcpListener;

    fn bind(&self, addr: SocketAddr) -> io::Result<TcpListener> {
        match self.binding {
            Some(kind) => Err(io::Error::from(kind)),
            None => self.rt.bind(addr),
        }
    }

    fn connect(&self, addr: SocketAddr) -> io::Result<TcpStream> {
        match self.connecting {
            Does::Connects => {}
            Does::LetsIn => drop(self.rt.connect(addr)?),
            Does::Fails(kind) => return Err(io::Error::from(kind)),
        }
        self.rt.connect(addr)
    }
}

/// What `pair` answers.
#[derive(Clone, Copy, Debug, PartialEq, Eq)]
enum Answer {
    Pair,
    Failed,
    Memory,
}

fn made<R: Sockets<Listener = TcpListener, Stream = TcpStream>>(
    rt: &R,
    alloc: Global,
    binding: Option<ErrorKind>,
    connecting: Does,
) -> Answer {
    let system = System {
        rt,
        binding,
        connecting,
    };
    let mut net = TcpNet::new(alloc, &system);
    match net.pair() {
        Pair::Made(_, _) => Answer::Pair,
        Pair::Failed => Answer::Failed,
        Pair::Memory => Answer::Memory,
    }
}

#[test]
fn pairs_are_made_or_failed(rt: HostRuntime) -> Result<(), Fail> {
    let rows = [
        (None, Does::Connects, Answer::Pair),
        (None, Does::LetsIn, Answer::Failed),
        (
            None,
            Does::Fails(ErrorKind::ConnectionRefused),
            Answer::Failed,
        ),
        (None, Does::Fails(ErrorKind::OutOfMemory), Answer::Memory),
        (Some(ErrorKind::AddrInUse), Does::Connects, Answer::Failed),
        (Some(ErrorKind::OutOfMemory), Does::Connects, Answer::Memory),
    ];
    for (binding, connecting, expected) in rows {
        let answer = made(&rt, rt.alloc(), binding, connecting);
        assert!(rt; answer == expected, "{binding:?} {connecting:?}");
    }
    Ok(())
}
