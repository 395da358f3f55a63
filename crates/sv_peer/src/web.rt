//! HTTP over buffers, up to an upgrade.
ghost use Rattle.std.specs.Prelude.{◌≡◌, []};
ghost use Rattle.sv_peer.specs.Webs.{handed_by, HandsOut};

use crate::desk::WebDesk;
use crate::socket::Socket;
use http_server::{Config, Connection, State};
use std::alloc::{AllocError, Global};
use std::hash::RandomState;

/// How long a request's body may be.
const MOST_BODY: usize = 65_536;

/// While so many bytes wait to be sent, no more requests are answered.
pub const FULL: usize = 65_536;

/// How many steps are made at once.
const STEPS_AT_ONCE: u32 = 1000;

/// A connection that speaks HTTP.
#[derive(Drop)]
pub struct Web {
    connection: Connection,
    /// What came and was not taken in, since too much waits to be sent.
    rest: Vec<u8>,
    /// There may be more to answer.
    is_paused: bool,
}

/// What becomes of a connection that speaks HTTP.
#[derive(Clone, Copy, Drop)]
pub enum WebCourse {
    /// It goes on.
    On,
    /// It is to be a WebSocket.
    Upgraded,
    /// It is to be closed.
    Closed,
}

impl Web {
    /// A connection of which nothing came.
    pub fn new(alloc: Global, random: RandomState) -> Web
        ensures { handed_by result ≡ [] }
    {
        let mut config = Config::default();
        config.max_body_len = MOST_BODY;
        Web {
            connection: Connection::new(alloc, random, config),
            rest: Vec::new(alloc),
            is_paused: false,
        }
    }

    /// Whether there may be more to answer, once less waits to be sent.
    pub fn is_paused(&self) -> bool {
        self.is_paused
    }

    // Takes in what came.
    fn take_in(&mut self) -> Result<(), AllocError>
        ensures { handed_by self.new ≡ handed_by self.old }
    {
        if !self.connection.wants_read() || self.rest.is_empty() {
            return Ok(());
        }
        let mut piece = self.rest.as_slice();
        if self.connection.read_from(&mut piece).is_err() {
            return Err(AllocError);
        }
        let left = piece.len();
        let taken = self.rest.len().saturating_sub(left);
        self.rest.drain(..taken);
        Ok(())
    }

    // Hands out what the connection puts out next. Answers how many bytes that are.
    fn hand_out(&mut self, output: &mut Vec<u8>) -> Result<usize, AllocError>
        ensures { HandsOut self.old self.new output.old.items output.new.items }
    {
        let piece = self.connection.output();
        let count = piece.len();
        output.extend_from_slice(piece)?;
        self.connection.sent(count);
        Ok(count)
    }

    // One step. False where nothing came of it.
    fn step<D: WebDesk>(&mut self, desk: &mut D, output: &mut Vec<u8>) -> Result<bool, AllocError>
        ensures handed { HandsOut self.old self.new output.old.items output.new.items }
        ensures desk { D.keeps desk.old desk.new }
    {
        self.take_in()?;
        self.connection.advance(desk);
        let count = self.hand_out(output)?;
        Ok(!self.connection.is_done() && (count > 0 || !self.rest.is_empty()))
    }

    // Answers what came, as long as not too much waits to be sent.
    fn go_on<D: WebDesk>(&mut self, desk: &mut D, output: &mut Vec<u8>) -> Result<(), AllocError>
        ensures handed { HandsOut self.old self.new output.old.items output.new.items }
        ensures desk { D.keeps desk.old desk.new }
    {
        self.is_paused = true;
        'steps: for _ in 0..STEPS_AT_ONCE {
            if output.len() >= FULL {
                return Ok(());
            }
            if !self.step(desk, output)? {
                self.is_paused = false;
                return Ok(());
            }
        }
        Ok(())
    }

    /// Takes bytes in that came, and answers the requests that are whole. What is answered is put behind the output.
    pub fn hear<D: WebDesk>(
        &mut self,
        desk: &mut D,
        piece: &[u8],
        output: &mut Vec<u8>,
    ) -> Result<WebCourse, AllocError>
        ensures handed { HandsOut self.old self.new output.old.items output.new.items }
        ensures desk { D.keeps desk.old desk.new }
    {
        self.rest.extend_from_slice(piece)?;
        self.go_on(desk, output)?;
        if !self.connection.is_done() {
            return Ok(WebCourse::On);
        }
        if self.connection.state() == State::Upgraded {
            Ok(WebCourse::Upgraded)
        } else {
            Ok(WebCourse::Closed)
        }
    }

    /// The WebSocket that it became, with what came of it.
    pub fn into_socket(self, alloc: Global) -> Result<Socket, AllocError> {
        let Web {
            connection,
            rest,
            ..
        } = self;
        let (unread, _) = connection.into_buffers();
        let mut socket = Socket::new(alloc);
        socket.hear(unread.as_slice())?;
        socket.hear(&rest)?;
        Ok(socket)
    }
}
