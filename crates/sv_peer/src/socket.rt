//! A WebSocket over buffers. Each binary message is one payload.
ghost use Rattle.std.specs.Prelude.{◌≡◌, ◌-◌, ◌++◌, length, is_ok, if◌then◌else◌, OnOk, OnErr};
ghost use Rattle.sv_peer.specs.Sockets.{new_socket, message_frame, GainsControls};

use crate::heard::Heard;
use crate::hello::heard_of;
use std::alloc::{AllocError, Global};
use std::marker::Model;
use sv_frame::GREATEST_PAYLOAD;
use websocket::error::Error;
use websocket::protocol::{
    CloseCode, CloseFrame, FrameStatus, Message, NoMask, Role, WebSocketConfig, WebSocketContext,
};

/// How long a message may be.
const MOST_MESSAGE: usize = GREATEST_PAYLOAD;

/// How many bytes are kept that were not taken: a frame of the greatest length, and its head.
const ROOM: usize = MOST_MESSAGE + 14;

/// A connection after its upgrade.
#[derive(Drop)]
pub struct Socket {
    alloc: Global,
    context: WebSocketContext,
    input: Vec<u8>,
}

impl Model for Socket {
    ghost use Rattle.std.specs.Prelude.{◌≡◌};
    ghost use Rattle.websocket.specs.declared.protocol.config.Role.TheVariants.{Server};
    ghost use Rattle.sv_peer.specs.Sockets.{SocketView, socket_code};

    ghost Value = { SocketView };

    ghost coded = { socket_code };

    ghost view = { λ s. record { connection = s.context; input = s.input.items } };

    ghost invariant = { λ s. s.context.role ≡ Server };
}

/// What one frame of the input is.
#[derive(Drop)]
enum Framed {
    Heard(Heard),
    /// No message: a part of one, or a control message.
    Passed,
    /// The connection is closed with this code, or with none.
    Close(Option<CloseCode>),
}

fn code_of(error: Error) -> Option<CloseCode> {
    match error {
        Error::ConnectionClosed | Error::AlreadyClosed | Error::OutOfMemory => None,
        Error::Capacity(_) => Some(CloseCode::Size),
        Error::Protocol(_) | Error::Utf8 => Some(CloseCode::Protocol),
    }
}

fn framed_of(alloc: Global, message: Message<'_>) -> Framed {
    match message {
        Message::Binary(payload) => Framed::Heard(heard_of(alloc, payload)),
        Message::Text(_) => Framed::Close(Some(CloseCode::Unsupported)),
        Message::Close(_) => Framed::Close(None),
        Message::Ping(_) | Message::Pong(_) => Framed::Passed,
    }
}

impl Socket {
    pub fn new(alloc: Global) -> Socket
        ensures { result ≡ new_socket }
    {
        let config = WebSocketConfig::default()
            .max_message_size(Some(MOST_MESSAGE))
            .max_frame_size(Some(MOST_MESSAGE));
        Socket {
            alloc,
            context: WebSocketContext::new(alloc, Role::Server, config),
            input: Vec::new(alloc),
        }
    }

    pub fn spare(&self) -> usize
        ensures { result ≡ ROOM - length self.now.input }
    {
        ROOM.saturating_sub(self.input.len())
    }

    #[inline(never)]
    pub fn hear(&mut self, piece: &[u8]) -> Result<(), AllocError>
        ensures { self.new ≡ (if is_ok result then record self.old { input = self.old.input ++ piece.now } else self.old) }
    {
        self.input.extend_from_slice(piece)
    }

    // Takes one frame off.
    fn step(&mut self, output: &mut Vec<u8>) -> Framed
        ensures { GainsControls output.old.items output.new.items }
    {
        let status = match self.context.read(&mut self.input, output, &mut NoMask) {
            Ok(status) => status,
            Err(error) => return Framed::Close(code_of(error)),
        };
        let FrameStatus::Complete(step) = status else {
            return Framed::Heard(Heard::NotYet);
        };
        let framed = match &step.message {
            Some(received) => framed_of(self.alloc, received.message(&self.input)),
            None => Framed::Passed,
        };
        if step.consumed <= self.input.len() {
            self.input.drain(..step.consumed);
        }
        framed
    }

    /// Takes the next message off. What its protocol answers is put behind the output.
    #[inline(never)]
    pub fn next(&mut self, output: &mut Vec<u8>) -> Heard
        ensures { GainsControls output.old.items output.new.items }
    {
        // Each frame that is passed over takes bytes off.
        'frames: for _ in 0..=self.input.len() {
            match self.step(output) {
                Framed::Heard(heard) => return heard,
                Framed::Passed => {}
                Framed::Close(code) => {
                    self.close(code, output);
                    return Heard::Closed;
                }
            }
        }
        Heard::NotYet
    }

    /// Puts the end behind the output, with a code where there is one.
    #[inline(never)]
    pub fn close(&mut self, code: Option<CloseCode>, output: &mut Vec<u8>)
        ensures { GainsControls output.old.items output.new.items }
    {
        let Some(code) = code else {
            return;
        };
        let frame = CloseFrame { code, reason: "" };
        let _ = self.context.close(Some(frame), output, &mut NoMask);
    }

    /// Puts a payload behind the output as one message.
    #[inline(never)]
    pub fn say(&mut self, payload: &[u8], output: &mut Vec<u8>) -> Result<(), AllocError>
        ensures same { self.new ≡ self.old }
        ensures ok { OnOk result (output.new.items ≡ output.old.items ++ message_frame payload.now) }
        ensures err { OnErr result (output.new.items ≡ output.old.items) }
    {
        match self
            .context
            .write(Message::Binary(payload), output, &mut NoMask)
        {
            Ok(()) => Ok(()),
            Err(_) => Err(AllocError),
        }
    }
}
