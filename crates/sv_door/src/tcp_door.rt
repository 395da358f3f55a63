//! A door over TCP on this machine.
ghost use Rattle.std.specs.Prelude.{◌≡◌, ◌≢◌, ◌↔◌, Some, None, IsSome, IsOk, IsTrue, OnOk};
ghost use Rattle.std.specs.declared.io.ErrorKind.TheVariants.{AddrNotAvailable, ConnectionRefused};
ghost use Rattle.sv_link.specs.Books.{IsNewBook, CanOpen};
ghost use Rattle.sv_door.specs.Doors.{MakesEnd, OwesEnd, MadeCause};
ghost use Rattle.sv_door.specs.Tcp.{IsErrorOf};

use crate::doors::{Door, EndMade};
use crate::returned::{Returned, open_end, take_back};
use std::alloc::Global;
use std::io::{ErrorKind, Write};
use std::net::{Ipv4Addr, Net as Sockets, SocketAddr, TcpListener, TcpStream};
use std::rt::Clock;
use std::time::Duration;
use std::{io, thread};
use sv_link::{Book, Side, TcpEnd};

/// Connections over TCP on this machine's loopback.
///
/// It listens from its first `accept` on, at that call's port, and fails to accept at any other. A `connect` tries for ten seconds where
/// nobody listens yet, so server and client may be started in either order. A client's end fails to read where nothing comes for ten
/// minutes: a server that is none of this wire may never say a word.
#[derive(Drop)]
pub struct TcpDoor<'r, R: Sockets<Listener = TcpListener, Stream = TcpStream> + Clock> {
    alloc: Global,
    rt: &'r R,
    bound: Option<Bound>,
    book: Book<Returned>,
}

#[derive(Drop)]
struct Bound {
    port: u16,
    listener: TcpListener,
}

impl<'r, R: Sockets<Listener = TcpListener, Stream = TcpStream> + Clock> TcpDoor<'r, R> {
    ghost use Rattle.sv_link.specs.TcpEnds.{end_told, end_faults};
    ghost use Rattle.sv_door.specs.Tcp.{bound_port, EndAnswer};

    /// No end was made, and no port is bound.
    pub fn new(alloc: Global, rt: &'r R) -> TcpDoor<'r, R>
        ensures { IsNewBook result.book }
    {
        TcpDoor {
            alloc,
            rt,
            bound: None,
            book: Book::new(alloc),
        }
    }

    // Listens at the port, if at none yet.
    fn listen(&mut self, port: u16) -> io::Result<()>
        ensures port { OnOk result (bound_port self.new ≡ Some port) }
        ensures stays { IsSome self.old.bound → self.new.bound ≡ self.old.bound }
        ensures same { IsSome self.old.bound → bound_port self.old ≡ Some port → IsOk result }
        ensures other { IsSome self.old.bound → bound_port self.old ≢ Some port → IsErrorOf result AddrNotAvailable }
        ensures book { self.new.book ≡ self.old.book }
    {
        match &self.bound {
            Some(bound) if bound.port == port => Ok(()),
            Some(_) => Err(io::Error::from(ErrorKind::AddrNotAvailable)),
            None => {
                let listener = TcpListener::bind(self.rt, (Ipv4Addr::LOCALHOST, port))?;
                self.bound = Some(Bound { port, listener });
                Ok(())
            }
        }
    }

    // Waits for a client at the port.
    fn accepted(&mut self, port: u16) -> io::Result<TcpStream>
        ensures port { OnOk result (bound_port self.new ≡ Some port) }
        ensures stays { IsSome self.old.bound → self.new.bound ≡ self.old.bound }
        ensures other { IsSome self.old.bound → bound_port self.old ≢ Some port → IsErrorOf result AddrNotAvailable }
        ensures book { self.new.book ≡ self.old.book }
    {
        self.listen(port)?;
        let Some(bound) = &self.bound else {
            unreachable!()
        };
        let (stream, _) = bound.listener.accept()?;
        stream.set_nodelay(true)?;
        Ok(stream)
    }

    // The end that a new stream is, or why there is none.
    fn entered(&mut self, stream: io::Result<TcpStream>, side: Side) -> EndMade<TcpEnd>
        requires room { CanOpen self.old.book }
        ensures answer { EndAnswer stream result }
        ensures made { MakesEnd end_told end_faults side self.old.book.made self.new.book.made result }
        ensures owed { OwesEnd self.old.book.owed self.new.book.owed result }
        ensures given { self.new.book.kept.items ≡ self.old.book.kept.items }
        ensures cause { MadeCause self.old.book.faults.value self.new.book.faults.value result }
    {
        match stream {
            Ok(stream) => {
                let log = open_end(&mut self.book, self.alloc, side);
                EndMade::End(TcpEnd::new(stream, log))
            }
            Err(error) if error.kind() == ErrorKind::OutOfMemory => EndMade::Memory,
            Err(_) => {
                self.book.count_fault();
                EndMade::Failed
            }
        }
    }
}

impl<'r, R: Sockets<Listener = TcpListener, Stream = TcpStream> + Clock> Door for TcpDoor<'r, R> {
    type E = TcpEnd;

    ghost given = { λ d. d.book.kept.items };

    ghost made = { λ d. d.book.made };

    ghost owed = { λ d. d.book.owed };

    ghost faults = { λ d. d.book.faults.value };

    ghost sure = { λ _ _. ⊥ };

    fn accept(&mut self, port: u16) -> EndMade<TcpEnd> {
        if !self.book.takes_room() {
            return EndMade::Memory;
        }
        let stream = self.accepted(port);
        self.entered(stream, Side::Server)
    }

    fn connect(&mut self, port: u16) -> EndMade<TcpEnd> {
        if !self.book.takes_room() {
            return EndMade::Memory;
        }
        let stream = connected(self.rt, port);
        self.entered(stream, Side::Client)
    }

    fn give_back(&mut self, end: TcpEnd) {
        take_back(&mut self.book, end.into_log());
    }
}

// How often `connect` tries, and how long it waits between two tries: ten seconds in all.
const CONNECT_TRIES: u32 = 501;

const PAUSE_MILLIS: u64 = 20;

const _: () = prove!((CONNECT_TRIES as u64 - 1) * PAUSE_MILLIS == 10_000);

// How long a client waits for bytes. A server answers nobody before all its connections are there, so it must be long.
const READ_SECONDS: u64 = 600;

fn connected<R: Sockets<Listener = TcpListener, Stream = TcpStream> + Clock>(
    rt: &R,
    port: u16,
) -> io::Result<TcpStream> {
    for _ in 1..CONNECT_TRIES {
        let answer = connected_at_once(rt, port);
        if !is_refused(&answer) {
            return answer;
        }
        thread::sleep(rt, Duration::from_millis(PAUSE_MILLIS));
    }
    connected_at_once(rt, port)
}

// Whether nobody listens yet.
fn is_refused(answer: &io::Result<TcpStream>) -> bool
    ensures { IsTrue result ↔ IsErrorOf answer.now ConnectionRefused }
{
    match answer {
        Ok(_) => false,
        Err(error) => error.kind() == ErrorKind::ConnectionRefused,
    }
}

fn connected_at_once<R: Sockets<Listener = TcpListener, Stream = TcpStream>>(
    rt: &R,
    port: u16,
) -> io::Result<TcpStream> {
    let mut stream = TcpStream::connect(rt, SocketAddr::from((Ipv4Addr::LOCALHOST, port)))?;
    if let Err(error) = is_to_another(stream.local_addr()?, stream.peer_addr()?) {
        // A byte that is never read frees the port as the stream is closed. Else no server could bind it for a minute.
        let _ = stream.write(&[0]);
        return Err(error);
    }
    stream.set_nodelay(true)?;
    stream.set_read_timeout(Some(Duration::from_secs(READ_SECONDS)))?;
    Ok(stream)
}

// Where nobody listens, the system may choose the very port as the stream's own, and connect it to itself. That is as good as refused.
fn is_to_another(own: SocketAddr, peer: SocketAddr) -> io::Result<()>
    ensures itself { own ≡ peer → IsErrorOf result ConnectionRefused }
    ensures another { own ≢ peer → IsOk result }
{
    if own == peer {
        Err(io::Error::from(ErrorKind::ConnectionRefused))
    } else {
        Ok(())
    }
}
