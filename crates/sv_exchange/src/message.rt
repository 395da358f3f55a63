//! The two kinds of message: requests, which clients send, and replies, which the server sends.
ghost use Rattle.std.specs.Prelude.{◌≡◌, ◌≤◌, List, [], ℕ, Result, Ok, OnOk, OnErr, length};
ghost use Rattle.std.specs.Vec.{vec_len};
ghost use Rattle.sv_frame.specs.Frames.{greatest_payload, FitsFrame};
ghost use Rattle.sv_wire.specs.declared.fault.Malformed as wire;
ghost use Rattle.sv_wire.specs.declared.message.Request as requests;
ghost use Rattle.sv_wire.specs.declared.message.Reply as replies;
ghost use Rattle.sv_wire.specs.Laws.{IsRequest, IsReply};
ghost use Rattle.sv_wire.specs.Messages.{request_at, reply_at, Decodes};
ghost use Rattle.sv_wire.specs.Spelling.{request_bytes, reply_bytes};

use std::alloc::{AllocError, Global};
use sv_wire::{
    Reply, Request, WireFault, decode_reply, decode_request, encode_reply_into, encode_request_into,
};

/// A kind of message that is sent as the payload of a frame.
pub trait Message: Drop {
    // What a payload is read as: a message, or the first refused field.
    ghost read_at: { List ℕ → Result Self wire.Malformed };

    // The payload of a message.
    ghost spelled: { Self → List ℕ };

    // What can be sent: it keeps the limits of the format.
    ghost is_message: { Self → Type 0 };

    /// The message that a payload is. Bytes after it are refused.
    fn decode(alloc: Global, payload: &[u8]) -> Result<Self, WireFault>
        ensures { Decodes result (read_at payload.now) };

    /// Writes the payload of a message in place of what `out` holds. Where memory runs out, `out` is empty.
    fn encode_into(&self, out: &mut Vec<u8>) -> Result<(), AllocError>
        requires { is_message self.now }
        ensures bytes { OnOk result (out.new.items ≡ spelled self.now) }
        ensures short { OnOk result (vec_len out.new ≤ greatest_payload) }
        ensures err { OnErr result (out.new.items ≡ []) };

    /// Each message is read back from its payload, and has a frame. It does nothing.
    fn is_read_back()
        ensures back { (m : Self) → is_message m → read_at (spelled m) ≡ Ok m }
        ensures short { (m : Self) → is_message m → FitsFrame (spelled m) };
}

impl Message for Request {
    ghost read_at = { request_at };

    ghost spelled = { request_bytes };

    ghost is_message = { IsRequest };

    fn decode(alloc: Global, payload: &[u8]) -> Result<Request, WireFault> {
        decode_request(alloc, payload)
    }

    fn encode_into(&self, out: &mut Vec<u8>) -> Result<(), AllocError> {
        encode_request_into(out, self)
    }

    fn is_read_back() {}
}

impl Message for Reply {
    ghost read_at = { reply_at };

    ghost spelled = { reply_bytes };

    ghost is_message = { IsReply };

    fn decode(alloc: Global, payload: &[u8]) -> Result<Reply, WireFault> {
        decode_reply(alloc, payload)
    }

    fn encode_into(&self, out: &mut Vec<u8>) -> Result<(), AllocError> {
        encode_reply_into(out, self)
    }

    fn is_read_back() {}
}
