//! Decoding payloads.
ghost use Rattle.std.specs.Prelude.{◌≡◌, ◌≤◌, ◌+◌, ◌-◌, length, IfOk, Ok};
ghost use Rattle.sv_wire.specs.Messages.{farthest_field, request_at, reply_at, Decodes};
ghost use Rattle.sv_wire.specs.Spelling.{request_bytes, reply_bytes};
ghost use Rattle.sv_wire.specs.Grammar.{IsWireRequest, IsWireReply};
ghost use Rattle.sv_wire.specs.Laws.{IsRequest, IsReply};
ghost use Rattle.sv_wire.specs.declared.message.Request.{Request};
ghost use Rattle.sv_wire.specs.declared.message.Reply.{Reply};

use crate::fault::{DecodeFault, Malformed, Stop, WireFault};
use crate::message::{Reply, Request};
use crate::replies::whole_reply;
use crate::requests::whole_request;
use std::alloc::Global;

fn placed(payload: &[u8], stop: Stop) -> Malformed
    requires within { stop.left ≤ length payload.now }
    requires near { length payload.now ≤ stop.left + farthest_field }
    ensures { result ≡ record { at = length payload.now - stop.left; cause = stop.cause } }
{
    Malformed {
        at: (payload.len() - stop.left) as u32,
        cause: stop.cause,
    }
}

#[tactic(auto, unfolding(crate::specs::Messages::request_at))]
fn read_request(alloc: Global, payload: &[u8]) -> Result<Request, WireFault>
    ensures { Decodes result (request_at payload.now) }
{
    match whole_request(alloc, payload) {
        Ok(request) => Ok(request),
        Err(DecodeFault::Stop(stop)) => Err(WireFault::Malformed(placed(payload, stop))),
        Err(DecodeFault::Memory) => Err(WireFault::Memory),
    }
}

#[tactic(auto, unfolding(crate::specs::Messages::reply_at))]
fn read_reply(alloc: Global, payload: &[u8]) -> Result<Reply, WireFault>
    ensures { Decodes result (reply_at payload.now) }
{
    match whole_reply(alloc, payload) {
        Ok(reply) => Ok(reply),
        Err(DecodeFault::Stop(stop)) => Err(WireFault::Malformed(placed(payload, stop))),
        Err(DecodeFault::Memory) => Err(WireFault::Memory),
    }
}

/// The request that a payload is. Bytes after it are refused.
pub fn decode_request(alloc: Global, payload: &[u8]) -> Result<Request, WireFault>
    // Which request it is, or which field is the first refused one.
    ensures exact { Decodes result (request_at payload.now) }
    // What is read is a request, and the payload is its bytes.
    ensures found { IfOk result (λ m. IsWireRequest m × (payload.now ≡ request_bytes m)) }
    // The bytes of a request are read as that request.
    ensures only { (m : Request) → IsRequest m → payload.now ≡ request_bytes m → Decodes result (Ok m) }
{
    read_request(alloc, payload)
}

/// The reply that a payload is. Bytes after it are refused.
pub fn decode_reply(alloc: Global, payload: &[u8]) -> Result<Reply, WireFault>
    // Which reply it is, or which field is the first refused one.
    ensures exact { Decodes result (reply_at payload.now) }
    // What is read is a reply, and the payload is its bytes.
    ensures found { IfOk result (λ m. IsWireReply m × (payload.now ≡ reply_bytes m)) }
    // The bytes of a reply are read as that reply.
    ensures only { (m : Reply) → IsReply m → payload.now ≡ reply_bytes m → Decodes result (Ok m) }
{
    read_reply(alloc, payload)
}
