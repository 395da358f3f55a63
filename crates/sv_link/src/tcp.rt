//! A net over TCP, between threads of one process.
ghost use Rattle.std.specs.Prelude.{◌≡◌, ◌↔◌, [], IsTrue};
ghost use Rattle.sv_link.specs.Books.{IsNewBook, CanOpen};
ghost use Rattle.sv_link.specs.Nets.{MakesPair, OwesPair, PairCause};
ghost use Rattle.sv_link.specs.Streams.{PairAnswer};

use crate::book::Book;
use crate::ends::{End, EndRead, EndWrote};
use crate::log::{EndLog, MOST_READ};
use crate::nets::{Net, Pair, Settle};
use crate::pairs::{SettledPair, open_pair, settle_pair};
use http_server::Log;
use std::alloc::Global;
use std::io;
use std::io::{ErrorKind, Read, Write};
use std::net::{Net as Sockets, OpenStream, Shutdown, SocketAddr, TcpListener, TcpStream};
use sv_bytes::{read_again, write_again};

/// An end of a TCP connection. A test may stand in for its stream.
#[derive(Drop)]
pub struct TcpEnd<S: Read + Write + OpenStream + Drop = TcpStream> {
    stream: S,
    log: EndLog,
}

impl<S: Read + Write + OpenStream + Drop> TcpEnd<S> {
    /// The end that a stream is.
    pub fn new(stream: S, log: EndLog) -> TcpEnd<S>
        ensures { result.log ≡ log }
    {
        TcpEnd { stream, log }
    }

    /// Closes the end, and gives what it tells.
    pub fn into_log(self) -> EndLog
        ensures { result ≡ self.log }
    {
        let TcpEnd { stream: _, log } = self;
        log
    }
}

impl<S: Read + Write + OpenStream + Drop> End for TcpEnd<S> {
    ghost use Rattle.sv_link.specs.Logs.{told_of};

    ghost told = { λ e. told_of e.log };

    ghost faults = { λ e. e.log.faults };

    ghost calm = { λ _. ⊥ };

    fn read(&mut self, into: &mut [u8]) -> EndRead {
        let most = into.len().min(MOST_READ);
        if self.log.received.reserve(most).is_err() {
            return EndRead::Memory;
        }
        let answer = read_again(&mut self.stream, &mut into[..most]);
        self.log.read_answered(answer, into)
    }

    fn write(&mut self, piece: &[u8]) -> EndWrote {
        if self.log.sent.reserve(piece.len()).is_err() {
            return EndWrote::Memory;
        }
        let answer = write_again(&mut self.stream, piece);
        self.log.write_answered(answer, piece)
    }

    fn close(&mut self) {
        self.log.closed = true;
        let _ = self.stream.shutdown(Shutdown::Both);
    }
}

/// Connections over TCP on this machine's loopback, whose ends go to two threads.
#[derive(Drop)]
pub struct TcpNet<'r, R: Sockets<Listener = TcpListener, Stream = TcpStream>> {
    alloc: Global,
    rt: &'r R,
    listener: Option<TcpListener>,
    book: Book<SettledPair>,
    unmatched: Log<EndLog, EndLog>,
}

impl<'r, R: Sockets<Listener = TcpListener, Stream = TcpStream>> TcpNet<'r, R> {
    ghost use Rattle.sv_link.specs.TcpEnds.{end_told, end_faults};

    /// No pair was made. The first one binds a port.
    pub fn new(alloc: Global, rt: &'r R) -> TcpNet<'r, R>
        ensures { IsNewBook result.book × (result.unmatched.items ≡ []) }
    {
        TcpNet {
            alloc,
            rt,
            listener: None,
            book: Book::new(alloc),
            unmatched: Log::new(),
        }
    }

    fn connect(&mut self) -> io::Result<(TcpStream, TcpStream)>
        ensures { (self.new.book ≡ self.old.book) × (self.new.unmatched ≡ self.old.unmatched) }
    {
        if self.listener.is_none() {
            self.listener = Some(TcpListener::bind(self.rt, "127.0.0.1:0")?);
        }
        let Some(listener) = &self.listener else {
            unreachable!()
        };
        connected(self.rt, listener)
    }

    // The pair that two streams are, or why there is none.
    fn answered(&mut self, streams: io::Result<(TcpStream, TcpStream)>) -> Pair<TcpEnd>
        requires room { CanOpen self.old.book }
        ensures answer { PairAnswer streams result }
        ensures made { MakesPair end_told end_faults self.old.book.made self.new.book.made result }
        ensures owed { OwesPair self.old.book.owed self.new.book.owed result }
        ensures settled { self.new.book.kept.items ≡ self.old.book.kept.items }
        ensures unmatched { self.new.unmatched ≡ self.old.unmatched }
        ensures cause { PairCause self.old.book.faults.value self.new.book.faults.value result }
    {
        match streams {
            Ok((at_server, at_client)) => {
                let (server, client) = open_pair(&mut self.book, self.alloc);
                let server = TcpEnd::new(at_server, server);
                let client = TcpEnd::new(at_client, client);
                Pair::Made(server, client)
            }
            Err(error) if error.kind() == ErrorKind::OutOfMemory => Pair::Memory,
            Err(_) => {
                self.book.count_fault();
                Pair::Failed
            }
        }
    }
}

impl<'r, R: Sockets<Listener = TcpListener, Stream = TcpStream>> Net for TcpNet<'r, R> {
    ghost use Rattle.sv_link.specs.Unmatched.{unmatched_in};

    type E = TcpEnd;

    ghost settled = { λ n. n.book.kept.items };

    ghost unmatched = { λ n. unmatched_in n.unmatched.items };

    ghost made = { λ n. n.book.made };

    ghost owed = { λ n. n.book.owed };

    ghost faults = { λ n. n.book.faults.value };

    ghost calm = { λ _. ⊥ };

    fn pair(&mut self) -> Pair<TcpEnd> {
        if !self.book.takes_room() {
            return Pair::Memory;
        }
        let streams = self.connect();
        self.answered(streams)
    }

    fn settle(&mut self, server: TcpEnd, client: TcpEnd, cut: bool) -> Settle {
        let server = server.into_log();
        let client = client.into_log();
        settle_pair(
            &mut self.book,
            &mut self.unmatched,
            server,
            client,
            cut,
            false,
        )
    }
}

// Connects to the listener, and gives the server's stream and the client's. They have to name each other.
fn connected<R: Sockets<Listener = TcpListener, Stream = TcpStream>>(
    rt: &R,
    listener: &TcpListener,
) -> io::Result<(TcpStream, TcpStream)> {
    let client = TcpStream::connect(rt, listener.local_addr()?)?;
    let (server, _) = listener.accept()?;
    if !name_each_other(Addresses::of(&server)?, Addresses::of(&client)?) {
        return Err(io::Error::from(ErrorKind::ConnectionRefused));
    }
    server.set_nodelay(true)?;
    client.set_nodelay(true)?;
    Ok((server, client))
}

// A stream's own address, and that of its other side.
#[derive(Clone, Copy)]
struct Addresses {
    own: SocketAddr,
    peer: SocketAddr,
}

impl Addresses {
    fn of(stream: &TcpStream) -> io::Result<Addresses> {
        Ok(Addresses {
            own: stream.local_addr()?,
            peer: stream.peer_addr()?,
        })
    }
}

fn name_each_other(server: Addresses, client: Addresses) -> bool
    ensures { IsTrue result ↔ (server.peer ≡ client.own) × (client.peer ≡ server.own) }
{
    server.peer == client.own && client.peer == server.own
}
