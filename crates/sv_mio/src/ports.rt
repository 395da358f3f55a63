//! Connections over TCP.
ghost use Rattle.std.specs.Prelude.{◌≡◌, length, IfOk};
ghost use Rattle.sv_ports.specs.Traffic.{nothing_told, Accepts, PortReadsSome, WritesSome};
ghost use Rattle.sv_mio.specs.Answers.{ReadAnswer, WroteAnswer};
ghost use Rattle.sv_mio.specs.Ports.{told_of};

use mio::event::Event;
use mio::net::{TcpListener, TcpStream};
use mio::unix::SourceFd;
use mio::{Events, Interest, Poll, Token};
use std::alloc::Global;
use std::io::{self, ErrorKind, Read, Write};
use std::net::{Net, SocketAddr};
use std::thread;
use std::time::Duration;
use sv_bytes::{read_again, write_again};
use sv_keeper::Durable;
use sv_ports::{Accepted, Numbered, Pieces, PortRead, PortWrote, Ports, Ready, Waited};

const DOOR: Token = Token(usize::MAX);

const INPUT: Token = Token(usize::MAX - 1);

/// All connections' numbers are below it.
const MOST_CONNECTIONS: u64 = u64::MAX - 1;

/// The descriptor of the standard input.
const STANDARD_INPUT: i32 = 0;

/// How many events one wait tells.
const EVENTS: usize = 256;

/// How often a wait looks before it sleeps: some tens of microseconds. Where few players wait for each reply, the next request comes
/// sooner than a sleeping thread wakes.
const LOOKS_BEFORE_SLEEP: u32 = 100;

/// Where looking found nothing the last time, one wait in so many looks again.
const WAITS_FOR_A_LOOK: u64 = 16;

/// A connection's stream.
#[derive(Drop)]
struct Connection {
    stream: TcpStream,
    /// A read that does not fill its room may leave something behind.
    stops_short: bool,
    /// The wait behind which a read took all that had come. Another wait tells when there is more.
    emptied: u64,
}

/// Connections over TCP, under the numbers 0, 1, 2, ..
#[derive(Drop)]
pub struct MioPorts<I: Read + Drop> {
    poll: Poll,
    events: Events,
    door: TcpListener,
    connections: Numbered<Connection>,
    next: u64,
    /// How many waits there were, from 1 up.
    waits: u64,
    /// The last looking found something.
    looks_pay: bool,
    input: Option<I>,
    /// The input is a file, which is always ready.
    input_is_file: bool,
    written: Pieces,
    heard: Pieces,
    input_heard: Pieces,
    input_ended: bool,
}

fn registered(poll: &Poll) -> bool {
    let fd = STANDARD_INPUT;
    poll.registry()
        .register(&mut SourceFd(&fd), INPUT, Interest::READABLE)
        .is_ok()
}

impl<I: Read + Drop> MioPorts<I> {
    /// Opens a door at an address. `input` is the standard input, where it is looked at.
    pub fn open<R: Net>(
        rt: &R,
        alloc: Global,
        address: SocketAddr,
        input: Option<I>,
    ) -> io::Result<MioPorts<I>>
        ensures { IfOk result (λ ports. told_of ports ≡ nothing_told) }
    {
        let poll = Poll::new(rt)?;
        let events = Events::with_capacity(alloc, EVENTS)?;
        let mut door = TcpListener::bind(rt, address)?;
        poll.registry()
            .register(&mut door, DOOR, Interest::READABLE)?;
        let input_is_file = input.is_some() && !registered(&poll);
        Ok(MioPorts {
            poll,
            events,
            door,
            connections: Numbered::new(alloc),
            next: 0,
            waits: 1,
            looks_pay: false,
            input,
            input_is_file,
            written: Pieces::new(),
            heard: Pieces::new(),
            input_heard: Pieces::new(),
            input_ended: false,
        })
    }

    /// Where it listens.
    pub fn address(&self) -> io::Result<SocketAddr> {
        self.door.local_addr()
    }

    // Looks for what is ready, without sleep. Others may run between two looks.
    fn look(&mut self) -> io::Result<bool>
        ensures { told_of self.new ≡ told_of self.old }
    {
        for _ in 0..LOOKS_BEFORE_SLEEP {
            self.poll.poll(&mut self.events, Some(Duration::ZERO))?;
            if !self.events.is_empty() {
                return Ok(true);
            }
            thread::yield_now();
        }
        Ok(false)
    }

    // Waits until something is ready, or for so many milliseconds. It looks before it sleeps, where that found something the last time.
    fn wait_for_events(&mut self, limit: u64) -> io::Result<()>
        ensures { told_of self.new ≡ told_of self.old }
    {
        if limit > 0 && (self.looks_pay || self.waits % WAITS_FOR_A_LOOK == 0) {
            self.looks_pay = self.look()?;
            if self.looks_pay {
                return Ok(());
            }
        }
        self.poll
            .poll(&mut self.events, Some(Duration::from_millis(limit)))
    }

    // Tells what is ready.
    fn tell(&self, ready: &mut Ready) -> Waited {
        ready.input = ready.input || self.input_is_file;
        for event in &self.events {
            if event.token() == DOOR {
                ready.door = true;
            } else if event.token() == INPUT {
                ready.input = true;
            } else if ready.numbers.push(event.token().0 as u64).is_err() {
                return Waited::Failed;
            }
        }
        Waited::Done
    }

    // Takes a connection in that was accepted.
    fn admit(&mut self, mut stream: TcpStream) -> Accepted
        ensures { Accepts (told_of self.old) result (told_of self.new) }
    {
        let number = self.next;
        if number >= MOST_CONNECTIONS || watch(&self.poll, &mut stream, number).is_err() {
            return Accepted::Failed;
        }
        let connection = Connection {
            stream,
            stops_short: false,
            emptied: 0,
        };
        match self.connections.push(number, connection) {
            Ok(()) => {
                self.next = number + 1;
                Accepted::One(number)
            }
            Err(_) => Accepted::Failed,
        }
    }
}

// Has the system tell when a stream is ready.
fn watch(poll: &Poll, stream: &mut TcpStream, number: u64) -> io::Result<()> {
    stream.set_nodelay(true)?;
    poll.registry().register(
        stream,
        Token(number as usize),
        Interest::READABLE | Interest::WRITABLE | Interest::PRIORITY,
    )
}

// A read takes all bytes that have come, or as many as fit. Behind them it may leave an end or an error, and it stops at an urgent byte.
fn may_stop(event: &Event) -> bool {
    event.is_read_closed() || event.is_error() || event.is_priority()
}

// Notes the connections of which a read may stop short from now on. The system tells it once, and the reads may be many turns later.
fn note_stops(events: &Events, connections: &mut Numbered<Connection>) {
    for event in events {
        if may_stop(event) {
            let number = event.token().0 as u64;
            if let Some(mut connection) = connections.take(number) {
                connection.stops_short = true;
                connections.put(number, connection);
            }
        }
    }
}

// Notes that a read behind this wait took all that had come of a connection.
fn note_emptied(connections: &mut Numbered<Connection>, number: u64, wait: u64) {
    if let Some(mut connection) = connections.take(number) {
        connection.emptied = wait;
        connections.put(number, connection);
    }
}

// What the system answered to a read that had room.
fn read_of(answer: io::Result<usize>) -> PortRead
    ensures { ReadAnswer answer result }
{
    match answer {
        Ok(0) => PortRead::Ended,
        Ok(count) => PortRead::Got(count),
        Err(error) if error.kind() == ErrorKind::WouldBlock => PortRead::NotYet,
        Err(_) => PortRead::Failed,
    }
}

// What the system answered to a write.
fn wrote_of(answer: io::Result<usize>) -> PortWrote
    ensures { WroteAnswer answer result }
{
    match answer {
        Ok(0) => PortWrote::Failed,
        Ok(count) => PortWrote::Took(count),
        Err(error) if error.kind() == ErrorKind::WouldBlock => PortWrote::NotYet,
        Err(_) => PortWrote::Failed,
    }
}

fn read_from<R: Read>(reader: &mut R, into: &mut [u8]) -> PortRead
    ensures { PortReadsSome (length into.new) result }
{
    if into.is_empty() {
        return PortRead::NotYet;
    }
    read_of(read_again(reader, into))
}

fn write_to<W: Write>(writer: &mut W, piece: &[u8]) -> PortWrote
    ensures { WritesSome (length piece.now) result }
{
    wrote_of(write_again(writer, piece))
}

// Tells again when the input has more.
fn watch_input(poll: &Poll) {
    let fd = STANDARD_INPUT;
    let _ = poll
        .registry()
        .reregister(&mut SourceFd(&fd), INPUT, Interest::READABLE);
}

impl<I: Read + Drop> Ports for MioPorts<I> {
    ghost told = { told_of };

    fn wait(&mut self, limit: u64, ready: &mut Ready) -> Waited {
        self.waits = self.waits.wrapping_add(1);
        let limit = if self.input_is_file { 0 } else { limit };
        match self.wait_for_events(limit) {
            Ok(()) => {
                note_stops(&self.events, &mut self.connections);
                self.tell(ready)
            }
            Err(_) => Waited::Failed,
        }
    }

    fn accept(&mut self) -> Accepted {
        match self.door.accept() {
            Ok((stream, _)) => self.admit(stream),
            Err(error) if error.kind() == ErrorKind::WouldBlock => Accepted::NotYet,
            Err(_) => Accepted::Failed,
        }
    }

    fn read(&mut self, number: u64, into: &mut [u8]) -> PortRead {
        let Some(connection) = self.connections.get(number) else {
            return PortRead::Failed;
        };
        if connection.emptied == self.waits {
            return PortRead::NotYet;
        }
        let answer = read_from(&mut &connection.stream, into);
        if let PortRead::Got(count) = answer {
            if count < into.len() && !connection.stops_short {
                note_emptied(&mut self.connections, number, self.waits);
            }
            self.heard.note(number, &into[..count]);
        }
        answer
    }

    fn write(&mut self, number: u64, piece: &[u8], _durable: &Durable<'_>) -> PortWrote {
        let Some(connection) = self.connections.get(number) else {
            return PortWrote::Failed;
        };
        let answer = write_to(&mut &connection.stream, piece);
        if let PortWrote::Took(count) = answer {
            self.written.note(number, &piece[..count]);
        }
        answer
    }

    fn close(&mut self, number: u64) {
        self.connections.remove(number);
    }

    #[tactic(auto, using(sv_ports::proofs::Bytes::own_more))]
    fn read_input(&mut self, into: &mut [u8]) -> PortRead {
        let Some(input) = &mut self.input else {
            return PortRead::NotYet;
        };
        let answer = read_from(input, into);
        match answer {
            PortRead::Got(count) => self.input_heard.note(0, &into[..count]),
            PortRead::Ended => self.input_ended = true,
            PortRead::NotYet | PortRead::Failed => {}
        }
        watch_input(&self.poll);
        answer
    }
}
