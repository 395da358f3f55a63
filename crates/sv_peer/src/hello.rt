//! What a payload is, and the message by which a client shows its key.
ghost use Rattle.std.specs.Prelude.{◌≡◌, ◌⊎◌, option_map};
ghost use Rattle.sha2.specs.Sha256.{sha256};
ghost use Rattle.sv_peer.specs.Hellos.{key_if_fit, key_behind, hello_or_bad, request_or_bad, heard_in};

use crate::heard::Heard;
use sha2::{Digest, Sha256};
use std::alloc::Global;
use sv_wire::{Request, WireFault, decode_request};

/// The kind of this message.
const HELLO: u8 = 8;

const LEAST_KEY: usize = 16;

const GREATEST_KEY: usize = 64;

/// The digest of a key of 16 to 64 bytes.
pub fn digest_of(key: &[u8]) -> Option<[u8; 32]>
    ensures { result ≡ option_map sha256 (key_if_fit key.now) }
{
    if key.len() < LEAST_KEY || key.len() > GREATEST_KEY {
        return None;
    }
    Some(Sha256::digest(key))
}

/// The digest of the key that a message shows behind its kind, where it is well made.
fn shown_behind(rest: &[u8]) -> Option<[u8; 32]>
    ensures { result ≡ option_map sha256 (key_behind rest.now) }
{
    let Some((count, key)) = rest.split_first() else {
        return None;
    };
    if *count as usize != key.len() {
        return None;
    }
    digest_of(key)
}

#[inline(never)]
fn hello_of(rest: &[u8]) -> Heard
    ensures { result ≡ hello_or_bad (key_behind rest.now) }
{
    match shown_behind(rest) {
        Some(digest) => Heard::Hello(digest),
        None => Heard::Request(Request::Bad),
    }
}

fn request_of(alloc: Global, payload: &[u8]) -> Heard
    ensures { (result ≡ request_or_bad payload.now) ⊎ (result ≡ Heard.Memory) }
{
    match decode_request(alloc, payload) {
        Ok(request) => Heard::Request(request),
        Err(WireFault::Malformed(_)) => Heard::Request(Request::Bad),
        Err(WireFault::Memory) => Heard::Memory,
    }
}

/// What a payload is: a request, which is `Bad` where it is none, or a key.
pub(crate) fn heard_of(alloc: Global, payload: &[u8]) -> Heard
    ensures { (result ≡ heard_in payload.now) ⊎ (result ≡ Heard.Memory) }
{
    if let Some((&HELLO, rest)) = payload.split_first() {
        return hello_of(rest);
    }
    request_of(alloc, payload)
}
