//! Tests of the messages' vectors, and of payloads that are refused at the right place.
ghost use Rattle.sv_wire.specs.Grammar.{IsWireRequest, IsWireReply};

use crate::bodies::put_sets;
use crate::vectors::*;
use std::alloc::Global;
use std::process::Abort;
use std::test::Fail;
use sv_lists::List;
use sv_wire::{
    Malformed, Reply, Request, WireCause, WireFault, copy_reply, copy_request, decode_reply,
    decode_request, encode_reply, encode_request,
};
use sv_world::{ClientId, ObjectId};

// A tree that is let go at the end of its scope makes a long proof; a call that takes it makes none.
/// Whether a request is written as that payload.
pub fn request_is_written(alloc: Global, request: &Request, payload: &[u8]) -> Result<bool, Fail>
    requires { IsWireRequest request.now }
{
    let written = encode_request(alloc, request)?;
    Ok(written.as_slice() == payload)
}

/// Whether a reply is written as that payload.
pub fn reply_is_written(alloc: Global, reply: &Reply, payload: &[u8]) -> Result<bool, Fail>
    requires { IsWireReply reply.now }
{
    let written = encode_reply(alloc, reply)?;
    Ok(written.as_slice() == payload)
}

fn copied_request_is_written(alloc: Global, request: &Request, payload: &[u8]) -> Result<bool, Fail>
    requires { IsWireRequest request.now }
{
    let copy = copy_request(alloc, request)?;
    let told = request_is_written(alloc, &copy, payload);
    drop(copy);
    told
}

fn copied_reply_is_written(alloc: Global, reply: &Reply, payload: &[u8]) -> Result<bool, Fail>
    requires { IsWireReply reply.now }
{
    let copy = copy_reply(alloc, reply)?;
    let told = reply_is_written(alloc, &copy, payload);
    drop(copy);
    told
}

/// A request's payload is read, and its copy written as the same payload.
pub fn request_comes_back(rt: &impl Abort, alloc: Global, payload: &[u8]) -> Result<(), Fail> {
    let Ok(request) = decode_request(alloc, payload) else {
        return Err(Fail::from("it is a request"));
    };
    let told = copied_request_is_written(alloc, &request, payload);
    drop(request);
    assert!(rt; told?);
    Ok(())
}

fn reply_comes_back(rt: &impl Abort, alloc: Global, payload: &[u8]) -> Result<(), Fail> {
    let Ok(reply) = decode_reply(alloc, payload) else {
        return Err(Fail::from("it is a reply"));
    };
    let told = copied_reply_is_written(alloc, &reply, payload);
    drop(reply);
    assert!(rt; told?);
    Ok(())
}

pub fn request_is_refused(
    rt: &impl Abort,
    alloc: Global,
    payload: &[u8],
    at: u32,
    cause: WireCause,
) {
    let fault = decode_request(alloc, payload).err();
    assert!(rt; fault == Some(WireFault::Malformed(Malformed { at, cause })));
}

fn reply_is_refused(rt: &impl Abort, alloc: Global, payload: &[u8], at: u32, cause: WireCause) {
    let fault = decode_reply(alloc, payload).err();
    assert!(rt; fault == Some(WireFault::Malformed(Malformed { at, cause })));
}

const REQUESTS: [&[u8]; 6] = [&JOIN, &SUBMIT, &DONE, &[4], &LEAVE, &OBSERVE];

const REPLIES: [&[u8]; 12] = [
    &WELCOME,
    &RELAY,
    &FIRST_RELAY,
    &[0x84, 0, 0, 0, 7, 0, 0, 0, 9],
    &NOTED,
    &[0x86],
    &[0x87, 11, 0, 0, 0, 3],
    &[0x87, 12, 0, 0, 0, 0],
    &BYE,
    &SEEN,
    &NO_NEWS,
    &DENIED,
];

#[test]
fn request_vectors(rt: HostRuntime) -> Result<(), Fail> {
    for payload in &REQUESTS {
        request_comes_back(&rt, rt.alloc(), payload)?;
    }
    Ok(())
}

#[test]
fn reply_vectors(rt: HostRuntime) -> Result<(), Fail> {
    for payload in &REPLIES {
        reply_comes_back(&rt, rt.alloc(), payload)?;
    }
    Ok(())
}

fn join_is_written(alloc: Global) -> Result<bool, Fail> {
    let mut interest = List::new(alloc);
    interest.push(ObjectId(0))?;
    let join = Request::Join {
        client: ClientId(0),
        life: 1,
        interest,
    };
    let told = request_is_written(alloc, &join, &JOIN);
    drop(join);
    told
}

fn dropped_is_written(alloc: Global) -> Result<bool, Fail> {
    let dropped = Reply::Dropped {
        seq: 3,
        chain: 2,
        far: 0,
    };
    let told = reply_is_written(alloc, &dropped, &[0x8a, 0, 0, 0, 3, 0, 0, 0, 2, 0, 0, 0, 0]);
    drop(dropped);
    told
}

fn denied_is_written(alloc: Global) -> Result<bool, Fail> {
    let denied = Reply::Denied {
        seq: 3,
        object: ObjectId(2),
    };
    let told = reply_is_written(alloc, &denied, &DENIED);
    drop(denied);
    told
}

fn observe_is_written(alloc: Global) -> Result<bool, Fail> {
    let mut objects = List::new(alloc);
    objects.push(ObjectId(0))?;
    objects.push(ObjectId(2))?;
    let observe = Request::Observe { objects, wait: 0 };
    let told = request_is_written(alloc, &observe, &OBSERVE);
    drop(observe);
    told
}

/// Where a session lacks nothing, it sees the position and the commit alone.
fn no_news_is_written(alloc: Global) -> Result<bool, Fail> {
    let seen = Reply::Seen {
        last: 1,
        commit: 1,
        head: List::new(alloc),
        items: List::new(alloc),
    };
    let told = reply_is_written(alloc, &seen, &NO_NEWS);
    drop(seen);
    told
}

#[test]
fn messages_are_written(rt: HostRuntime) -> Result<(), Fail> {
    assert!(rt; denied_is_written(rt.alloc())?);
    assert!(rt; observe_is_written(rt.alloc())?);
    assert!(rt; no_news_is_written(rt.alloc())?);
    assert!(rt; dropped_is_written(rt.alloc())?);
    assert!(rt; join_is_written(rt.alloc())?);
    Ok(())
}

/// Payloads that are no requests, with the offset and the cause of the first fault.
const REFUSED_REQUESTS: &[(&[u8], u32, WireCause)] = &[
    (&[], 0, WireCause::Short),
    (&[6], 1, WireCause::Short),
    (&[2, 0], 0, WireCause::Kind),
    (&[9, 0], 0, WireCause::Kind),
    (&[0x81, 0], 0, WireCause::Kind),
    (&[0x8b, 0], 0, WireCause::Kind),
    (&[4, 0], 1, WireCause::Rest),
    (&[6, 0, 0, 0, 1, 0], 5, WireCause::Count),
    (&[6, 0, 0, 0, 1, 2, 0, 1, 0, 0, 9], 8, WireCause::Order),
    (&[6, 0, 0, 0, 1, 1, 0, 0, 0, 2, 9], 8, WireCause::Mask),
    (&[1, 0, 0, 0, 0], 3, WireCause::Short),
    (&[3, 0], 1, WireCause::Count),
    (&[7], 1, WireCause::Short),
    (&[7, 0, 0, 0], 1, WireCause::Count),
    (&[7, 17, 0, 0], 1, WireCause::Count),
    (&[7, 2, 0, 1, 0, 1, 0, 0], 4, WireCause::Order),
    (&[7, 2, 0, 2, 0, 1, 0, 0], 4, WireCause::Order),
    (&[7, 2, 0, 0, 0], 4, WireCause::Short),
    (&[7, 1, 0, 0, 0], 4, WireCause::Short),
    (&[7, 1, 0, 0, 0, 0, 0], 6, WireCause::Rest),
];

#[test]
fn refused_requests(rt: HostRuntime) {
    for (payload, at, cause) in REFUSED_REQUESTS {
        request_is_refused(&rt, rt.alloc(), payload, *at, *cause);
    }
}

/// A payload with the byte at a place left out.
fn without(alloc: Global, payload: &[u8], place: usize) -> Result<Vec<u8>, Fail> {
    let mut edited = Vec::new(alloc);
    for (at, byte) in payload.iter().enumerate() {
        if at != place {
            edited.push(*byte)?;
        }
    }
    Ok(edited)
}

/// A payload with another byte at a place.
fn changed(alloc: Global, payload: &[u8], place: usize, other: u8) -> Result<Vec<u8>, Fail> {
    let mut edited = Vec::new(alloc);
    for (at, byte) in payload.iter().enumerate() {
        edited.push(if at == place { other } else { *byte })?;
    }
    Ok(edited)
}

/// A request with one byte changed is refused at a place.
pub fn changed_request_is_refused(
    rt: &impl Abort,
    alloc: Global,
    payload: &[u8],
    edit: (usize, u8),
    refusal: Malformed,
) -> Result<(), Fail> {
    let payload = changed(alloc, payload, edit.0, edit.1)?;
    request_is_refused(rt, alloc, &payload, refusal.at, refusal.cause);
    Ok(())
}

fn changed_relay_is_refused(
    rt: &impl Abort,
    alloc: Global,
    edit: (usize, u8),
    at: u32,
    cause: WireCause,
) -> Result<(), Fail> {
    let payload = changed(alloc, &RELAY, edit.0, edit.1)?;
    reply_is_refused(rt, alloc, &payload, at, cause);
    Ok(())
}

fn join_without_is_refused(
    rt: &impl Abort,
    alloc: Global,
    place: usize,
    at: u32,
    cause: WireCause,
) -> Result<(), Fail> {
    let payload = without(alloc, &JOIN, place)?;
    request_is_refused(rt, alloc, &payload, at, cause);
    Ok(())
}

#[test]
fn joins_without_a_byte(rt: HostRuntime) -> Result<(), Fail> {
    for (place, at, cause) in [
        (0, 0, WireCause::Kind),
        (1, 8, WireCause::Rest),
        (6, 8, WireCause::Rest),
        (7, 8, WireCause::Rest),
        (8, 8, WireCause::Short),
        (9, 8, WireCause::Short),
    ] {
        join_without_is_refused(&rt, rt.alloc(), place, at, cause)?;
    }
    Ok(())
}

#[test]
fn edited_submits(rt: HostRuntime) -> Result<(), Fail> {
    for (edit, at, cause) in [
        ((0, 2), 0, WireCause::Kind),
        ((5, 0), 5, WireCause::Count),
        ((5, 17), 5, WireCause::Count),
        ((5, 2), 21, WireCause::Rest),
        ((9, 2), 8, WireCause::Mask),
        ((18, 0), 19, WireCause::Rest),
        ((18, 2), 35, WireCause::Short),
        ((19, 0x12), 19, WireCause::Kind),
        ((22, 0x29), 22, WireCause::Kind),
        ((22, 0x21), 25, WireCause::Rest),
        ((23, 0x30), 23, WireCause::Kind),
    ] {
        changed_request_is_refused(&rt, rt.alloc(), &SUBMIT, edit, Malformed { at, cause })?;
    }
    Ok(())
}

#[test]
fn edited_results(rt: HostRuntime) -> Result<(), Fail> {
    for (edit, at, cause) in [
        ((1, 0), 1, WireCause::Count),
        ((1, 34), 1, WireCause::Count),
        ((1, 2), 16, WireCause::Short),
        ((6, 17), 6, WireCause::Count),
        ((6, 0), 7, WireCause::Rest),
        ((7, 0), 7, WireCause::Count),
        ((7, 5), 7, WireCause::Count),
        ((7, 2), 16, WireCause::Short),
    ] {
        changed_request_is_refused(&rt, rt.alloc(), &DONE, edit, Malformed { at, cause })?;
    }
    Ok(())
}

#[test]
fn edited_relays(rt: HostRuntime) -> Result<(), Fail> {
    for (edit, at, cause) in [
        ((0, 0x82), 0, WireCause::Kind),
        ((0, 0x83), 0, WireCause::Kind),
        ((0, 0x01), 0, WireCause::Kind),
        ((10, 0), 12, WireCause::Rest),
        ((10, 2), 24, WireCause::Count),
        ((13, 0), 13, WireCause::Count),
        ((13, 5), 13, WireCause::Count),
        ((22, 0), 23, WireCause::Rest),
        ((22, 34), 22, WireCause::Count),
        ((22, 2), 63, WireCause::Short),
    ] {
        changed_relay_is_refused(&rt, rt.alloc(), edit, at, cause)?;
    }
    Ok(())
}

/// The same of replies.
const REFUSED_REPLIES: &[(&[u8], u32, WireCause)] = &[
    (
        &[0x81, 0, 0, 0, 0, 0, 1, 0, 0, 1, 0, 0, 0, 0, 0, 0, 0],
        10,
        WireCause::Short,
    ),
    (&[0x81, 0, 0, 0, 0, 2, 17], 5, WireCause::Count),
    (&[0x85, 0, 0, 0], 1, WireCause::Short),
    (&[0x85, 0, 0, 0, 1, 0], 5, WireCause::Rest),
    (&[0x87, 0, 0, 0, 0, 0], 1, WireCause::Code),
    (&[0x87, 13, 0, 0, 0, 0], 1, WireCause::Code),
    (&[7, 1, 0, 0, 0, 0], 0, WireCause::Kind),
    (&[0x8d, 0], 0, WireCause::Kind),
    (&[0x8c, 0, 0, 0, 3, 0], 5, WireCause::Short),
    (&[0x8c, 0, 0, 0, 3, 0, 2, 0], 7, WireCause::Rest),
    (&[0x8b, 0, 0, 0, 1, 0, 0, 0], 5, WireCause::Short),
    (&[0x89, 0, 0, 0, 1, 0, 0, 0, 1, 2, 17], 9, WireCause::Count),
    (&[0x8b, 0, 0, 0, 1, 0, 0, 0, 1, 2, 17], 11, WireCause::Short),
    (&[0x8b, 0, 0, 0, 1, 0, 0, 0, 1, 2, 33], 9, WireCause::Count),
    (
        &[0x8b, 0, 0, 0, 1, 0, 0, 0, 1, 0, 0, 34],
        11,
        WireCause::Count,
    ),
    (
        &[0x8b, 0, 0, 0, 1, 0, 0, 0, 1, 0, 0, 0, 0],
        12,
        WireCause::Rest,
    ),
];

#[test]
fn refused_replies(rt: HostRuntime) {
    for (payload, at, cause) in REFUSED_REPLIES {
        reply_is_refused(&rt, rt.alloc(), payload, *at, *cause);
    }
}

/// Appends a value of four numbers.
fn put_value(payload: &mut Vec<u8>) -> Result<(), Fail> {
    payload.push(4)?;
    for _ in 0..4u8 {
        payload.extend_from_slice(&[0x80, 0, 0, 0, 0, 0, 0, 1])?;
    }
    Ok(())
}

/// Appends an item with 16 reads and 64 nodes.
fn put_item(payload: &mut Vec<u8>) -> Result<(), Fail> {
    payload.extend_from_slice(&[0, 0, 0, 9, 0, 3, 0, 0, 0, 4, 16])?;
    for object in 0..16u8 {
        payload.extend_from_slice(&[2, object])?;
    }
    payload.extend_from_slice(&[0xff, 0xff, 0x7f, 0xff, 0xff, 0xff, 0x80, 0, 0, 0, 32])?;
    put_sets(payload, 32)
}

/// A reply of a kind with the values of so many objects, and with 33 items.
fn great_reply(alloc: Global, kind: u8, objects: u16) -> Result<Vec<u8>, Fail> {
    let mut payload = Vec::from_slice(alloc, &[kind, 0, 0, 0, 3, 0, 0, 0, 2])?;
    payload.extend_from_slice(&objects.to_be_bytes())?;
    for object in 0..objects {
        payload.extend_from_slice(&object.to_be_bytes())?;
        put_value(&mut payload)?;
    }
    payload.push(33)?;
    for _ in 0..33u8 {
        put_item(&mut payload)?;
    }
    Ok(payload)
}

/// Appends sixteen values for a position.
fn put_result(payload: &mut Vec<u8>, pos: u8) -> Result<(), Fail> {
    payload.extend_from_slice(&[0, 0, 0, pos, 16])?;
    for _ in 0..16u8 {
        put_value(payload)?;
    }
    Ok(())
}

fn greatest_done(alloc: Global) -> Result<Vec<u8>, Fail> {
    let mut done = Vec::from_slice(alloc, &[3, 33])?;
    for pos in 1..34u8 {
        put_result(&mut done, pos)?;
    }
    Ok(done)
}

#[test]
fn greatest_messages(rt: HostRuntime) -> Result<(), Fail> {
    for (kind, objects) in [(0x89, 528), (0x8b, 544)] {
        let payload = great_reply(rt.alloc(), kind, objects)?;
        assert!(rt; payload.len() <= 65_536);
        reply_comes_back(&rt, rt.alloc(), &payload)?;
    }
    Ok(())
}

#[test]
fn greatest_results(rt: HostRuntime) -> Result<(), Fail> {
    let done = greatest_done(rt.alloc())?;
    assert!(rt; done.len() <= 65_536);
    request_comes_back(&rt, rt.alloc(), &done)
}
