//! A connection, whichever way it is spoken.
ghost use Rattle.std.specs.Prelude.{◌≡◌, ◌⊎◌, ◌+◌, ◌-◌, ◌++◌, [], length, take, drop, IfOk, OnOk, OnErr, IsTrue};
ghost use Rattle.sv_wire.specs.Laws.{IsReply};
ghost use Rattle.sv_frame.specs.Frames.{greatest_frame, FitsFrame};
ghost use Rattle.sv_peer.specs.View.{new_peer, is_letter, begun, IsInStep, PeerKeeps, PeerTells, Upgrades, Answers, TakesIn, Hears, Nexts, TakesFrame, Puts, after_sent};
ghost use Rattle.sv_peer.specs.Invariant.{manner_of, heard_by, HandsNothing};

use crate::desk::WebDesk;
use crate::heard::Heard;
use crate::hello::heard_of;
use crate::manner::Manner;
use crate::past::{SentBytes, ToldReplies};
use crate::socket::Socket;
use crate::web::{Web, WebCourse};
use std::alloc::{AllocError, Global};
use std::hash::RandomState;
use std::marker::Model;
use sv_exchange::Message;
use sv_frame::{FrameReader, NextFrame, put_frame};
use sv_wire::{Reply, Request};
use websocket::protocol::CloseCode;

/// How many bytes of HTTP are taken in at once.
const PIECE: usize = 4096;

/// How a connection is spoken, with what came of it.
#[derive(Drop)]
enum Voice {
    /// No byte came yet.
    Unknown,
    /// Frames.
    Plain(FrameReader),
    Web(Box<Web>),
    Socket(Socket),
    /// Nothing more is taken.
    Closed,
}

/// A connection: what came and was not taken, and what is to be sent. Contracts see it as a `PeerView`.
#[derive(Drop)]
pub struct Peer {
    alloc: Global,
    voice: Voice,
    /// The digest of the key that an upgrade showed, until it is told.
    shown: Option<[u8; 32]>,
    output: Vec<u8>,
    payload: Vec<u8>,
    told: ToldReplies,
    sent: SentBytes,
}

impl Model for Peer {
    ghost use Rattle.std.specs.Coded.{codes};
    ghost use Rattle.sv_wire.specs.contracts.message.Reply as reply;
    ghost use Rattle.sv_peer.specs.contracts.manner.Manner as manner;
    ghost use Rattle.sv_peer.specs.View.{PeerView};

    ghost Value = { PeerView };

    ghost coded = { Prim.hlevel (codes, reply.the_row.coded, manner.the_row.coded) };

    ghost use Rattle.sv_peer.specs.Invariant.{view_of, IsPeer};

    ghost view = { view_of };

    ghost invariant = { IsPeer };
}

// Takes the first frame off.
fn next_framed(alloc: Global, reader: &mut FrameReader) -> Heard
    ensures { TakesFrame reader.old result reader.new }
{
    let heard = match reader.first() {
        NextFrame::NotYet => return Heard::NotYet,
        // It stays: no frame can be read from here on.
        NextFrame::TooLong(_) => return Heard::Request(Request::Bad),
        NextFrame::Frame(payload) => heard_of(alloc, payload),
    };
    if let Heard::Memory = &heard {
        return heard;
    }
    reader.skip();
    heard
}

fn is_letter(byte: u8) -> bool
    ensures { result ≡ is_letter byte }
{
    byte.is_ascii_alphabetic()
}

// The first byte tells how a connection is spoken: HTTP, where it is a letter, and else frames.
#[inline(never)]
fn begin(alloc: Global, first: u8, random: RandomState) -> Result<Voice, AllocError>
    ensures manner { IfOk result (λ voice. manner_of voice ≡ begun first) }
    ensures heard { IfOk result (λ voice. heard_by voice ≡ []) }
    ensures handed { IfOk result HandsNothing }
{
    if is_letter(first) {
        Ok(Voice::Web(Box::new(alloc, Web::new(alloc, random))?))
    } else {
        Ok(Voice::Plain(FrameReader::new(alloc)?))
    }
}

// Takes in what there is room for.
fn feed(reader: &mut FrameReader, piece: &[u8])
    ensures { reader.new ≡ reader.old ++ take (greatest_frame - length reader.old) piece.now }
{
    let count = piece.len().min(reader.spare());
    reader.feed(&piece[..count]);
}

// Puts a payload behind the output.
fn put(voice: &mut Voice, payload: &[u8], output: &mut Vec<u8>) -> Result<(), AllocError>
    requires { FitsFrame payload.now }
    ensures same { voice.new ≡ voice.old }
    ensures ok { OnOk result (Puts (manner_of voice.old) payload.now output.old.items output.new.items) }
    ensures err { OnErr result (output.new.items ≡ output.old.items) }
{
    match voice {
        Voice::Plain(_) => put_frame(payload, output),
        Voice::Socket(socket) => socket.say(payload, output),
        Voice::Unknown | Voice::Web(_) | Voice::Closed => Err(AllocError),
    }
}

fn cut_front(bytes: &mut Vec<u8>, count: usize)
    ensures { bytes.new.items ≡ drop count bytes.old.items }
{
    if count >= bytes.len() {
        bytes.clear();
    } else {
        bytes.drain(..count);
    }
}

// The WebSocket that a connection became.
fn upgraded(alloc: Global, voice: &mut Voice) -> Result<(), AllocError>
    ensures { (manner_of voice.new ≡ Manner.Socket) ⊎ (manner_of voice.new ≡ Manner.Closed) }
{
    let Voice::Web(web) = std::mem::replace(voice, Voice::Closed) else {
        return Ok(());
    };
    *voice = Voice::Socket(Box::into_inner(web).into_socket(alloc)?);
    Ok(())
}

impl Peer {
    /// Nothing came, and nothing is to be sent.
    pub fn new(alloc: Global) -> Peer
        ensures { result ≡ new_peer }
    {
        Peer {
            alloc,
            voice: Voice::Unknown,
            shown: None,
            output: Vec::new(alloc),
            payload: Vec::new(alloc),
            told: ToldReplies::new(),
            sent: SentBytes::new(),
        }
    }

    /// How it is spoken.
    pub fn manner(&self) -> Manner
        ensures { result ≡ self.now.manner }
    {
        match &self.voice {
            Voice::Unknown => Manner::Unknown,
            Voice::Plain(_) => Manner::Frames,
            Voice::Web(_) => Manner::Http,
            Voice::Socket(_) => Manner::Socket,
            Voice::Closed => Manner::Closed,
        }
    }

    /// How many bytes may come now.
    pub fn spare(&self) -> usize
        ensures frames { self.now.manner ≡ Manner.Frames → result + length self.now.heard ≡ greatest_frame }
    {
        match &self.voice {
            Voice::Unknown => PIECE,
            Voice::Web(web) if web.is_paused() => 0,
            Voice::Web(_) => PIECE,
            Voice::Plain(reader) => reader.spare(),
            Voice::Socket(socket) => socket.spare(),
            Voice::Closed => 0,
        }
    }

    // The first byte tells how the connection is spoken: HTTP, where it is a letter, and else frames.
    #[inline(never)]
    fn begin(&mut self, first: u8, random: RandomState) -> Result<(), AllocError>
        requires { self.old.manner ≡ Manner.Unknown }
        ensures ok { OnOk result (self.new ≡ record self.old { manner = begun first }) }
        ensures err { OnErr result (self.new ≡ self.old) }
    {
        self.voice = begin(self.alloc, first, random)?;
        Ok(())
    }

    // It speaks HTTP no more.
    #[inline(never)]
    fn upgrade<D: WebDesk>(&mut self, desk: &mut D) -> Result<(), AllocError>
        requires { self.old.manner ≡ Manner.Http }
        ensures upgrades { Upgrades self.old self.new }
        ensures desk { D.keeps desk.old desk.new }
    {
        upgraded(self.alloc, &mut self.voice)?;
        self.shown = desk.take_key();
        Ok(())
    }

    #[inline(never)]
    fn hear_web<D: WebDesk>(&mut self, piece: &[u8], desk: &mut D) -> Result<(), AllocError>
        requires { self.old.manner ≡ Manner.Http }
        ensures answers { Answers self.old self.new }
        ensures desk { D.keeps desk.old desk.new }
    {
        let Voice::Web(web) = &mut self.voice else {
            return Ok(());
        };
        match web.hear(desk, piece, &mut self.output)? {
            WebCourse::On => Ok(()),
            WebCourse::Closed => {
                self.voice = Voice::Closed;
                Ok(())
            }
            WebCourse::Upgraded => self.upgrade(desk),
        }
    }

    fn take_in<D: WebDesk>(&mut self, piece: &[u8], desk: &mut D) -> Result<(), AllocError>
        ensures ok { OnOk result (TakesIn self.old.manner self.old piece.now self.new) }
        ensures kept { PeerKeeps self.old self.new }
        ensures desk { D.keeps desk.old desk.new }
    {
        match &mut self.voice {
            Voice::Unknown | Voice::Closed => Ok(()),
            Voice::Plain(reader) => {
                feed(reader, piece);
                Ok(())
            }
            Voice::Socket(socket) => socket.hear(piece),
            Voice::Web(_) => self.hear_web(piece, desk),
        }
    }

    /// Takes bytes in that came, at most as many as there is room for. HTTP requests are answered by the desk. After an error the connection can
    /// only be closed.
    pub fn hear<D: WebDesk>(
        &mut self,
        piece: &[u8],
        random: RandomState,
        desk: &mut D,
    ) -> Result<(), AllocError>
        ensures ok { OnOk result (Hears self.old piece.now self.new) }
        ensures kept { PeerKeeps self.old self.new }
        // What a desk keeps stays.
        ensures desk { D.keeps desk.old desk.new }
    {
        if let Manner::Unknown = self.manner() {
            let Some(first) = piece.first() else {
                return Ok(());
            };
            self.begin(*first, random)?;
        }
        self.take_in(piece, desk)
    }

    /// Whether HTTP requests may be left that came and are not answered, since too much waits to be sent.
    pub fn is_paused(&self) -> bool
        ensures { IsTrue result → self.now.manner ≡ Manner.Http }
    {
        match &self.voice {
            Voice::Web(web) => web.is_paused(),
            _ => false,
        }
    }

    /// Takes what came next.
    pub fn next(&mut self) -> Heard
        ensures next { Nexts self.old result self.new }
        ensures kept { PeerKeeps self.old self.new }
    {
        if let Some(digest) = self.shown.take() {
            return Heard::Hello(digest);
        }
        match &mut self.voice {
            Voice::Unknown | Voice::Web(_) => Heard::NotYet,
            Voice::Plain(reader) => next_framed(self.alloc, reader),
            Voice::Socket(socket) => socket.next(&mut self.output),
            Voice::Closed => Heard::Closed,
        }
    }

    /// Puts a reply behind what is to be sent. The error is for want of memory, and where the connection speaks no frames and is no open WebSocket:
    /// it can only be closed then.
    pub fn say(&mut self, reply: &Reply) -> Result<(), AllocError>
        requires { IsReply reply.now }
        ensures ok { OnOk result (PeerTells self.old reply.now self.new) }
        ensures err { OnErr result (self.new ≡ self.old) }
    {
        reply.encode_into(&mut self.payload)?;
        put(&mut self.voice, &self.payload, &mut self.output)?;
        self.told.add(reply);
        Ok(())
    }

    /// Puts the end behind what is to be sent, where the way it is spoken has one.
    pub fn finish(&mut self)
        ensures kept { PeerKeeps self.old self.new }
        ensures same { self.new ≡ record self.old { output = self.new.output } }
        ensures frames { self.old.manner ≡ Manner.Frames → self.new ≡ self.old }
    {
        if let Voice::Socket(socket) = &mut self.voice {
            socket.close(Some(CloseCode::Normal), &mut self.output);
        }
    }

    /// What is to be sent.
    pub fn output(&self) -> &[u8]
        ensures value { result.now ≡ self.now.output }
        // With what was sent it is what the replies are told by, in order.
        ensures in_step { IsInStep self.now }
    {
        self.output.as_slice()
    }

    /// So many of these bytes, or all of them, were sent.
    pub fn sent(&mut self, count: usize)
        ensures { self.new ≡ after_sent self.old count }
    {
        self.sent.add(&self.output, count);
        cut_front(&mut self.output, count);
    }
}
