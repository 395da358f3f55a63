//! Tests of each vector with one byte left out, added or raised.
use crate::messages::{reply_is_written, request_is_written};
use crate::vectors::*;
use crate::{replies, requests};
use std::alloc::Global;
use std::test::Fail;
use sv_wire::{WireCause, WireFault, decode_reply, decode_request};

/// The payload of the vector of a message.
fn vector(alloc: Global, message: &str) -> Result<Vec<u8>, Fail> {
    let payload: &[u8] = match message {
        "join" => &JOIN,
        "submit" => &SUBMIT,
        "done" => &DONE,
        "leave" => &LEAVE,
        "observe" => &OBSERVE,
        "welcome" => &WELCOME,
        "relay" => &RELAY,
        "first_relay" => &FIRST_RELAY,
        "noted" => &NOTED,
        "bye" => &BYE,
        "seen" => &SEEN,
        "denied" => &DENIED,
        _ => &[],
    };
    Ok(Vec::from_slice(alloc, payload)?)
}

/// Leaves a byte out, adds a byte 0 before a place, or raises a byte by one.
fn edit(payload: &mut Vec<u8>, how: &str, place: usize) -> Result<(), Fail> {
    if how == "add" && place <= payload.len() {
        payload.insert(place, 0)?;
        return Ok(());
    }
    if place >= payload.len() {
        return Err(Fail::from("no such place"));
    }
    if how == "out" {
        payload.remove(place);
    } else {
        payload[place] = payload[place].wrapping_add(1);
    }
    Ok(())
}

/// What a row of the tables says.
#[derive(Drop)]
struct Row<'a> {
    message: &'a str,
    how: &'a str,
    place: &'a str,
    answer: &'a str,
    at: &'a str,
}

fn parts_of(row: &str) -> Option<Row<'_>> {
    let (message, rest) = row.split_once(' ')?;
    let (how, rest) = rest.split_once(' ')?;
    let (place, rest) = rest.split_once(' ')?;
    let (answer, at) = rest.split_once(' ')?;
    Some(Row {
        message,
        how,
        place,
        answer,
        at,
    })
}

/// The edited payload of a row.
fn edited(alloc: Global, row: &Row<'_>) -> Result<Vec<u8>, Fail> {
    let place = row.place.parse::<usize>()?;
    let mut payload = vector(alloc, row.message)?;
    edit(&mut payload, row.how, place)?;
    Ok(payload)
}

fn name(cause: WireCause) -> &'static str {
    match cause {
        WireCause::Short => "Short",
        WireCause::Kind => "Kind",
        WireCause::Count => "Count",
        WireCause::Order => "Order",
        WireCause::Mask => "Mask",
        WireCause::Code => "Code",
        WireCause::Large => "Large",
        WireCause::Deep => "Deep",
        WireCause::Rest => "Rest",
    }
}

fn is_fault(fault: WireFault, cause: &str, at: u32) -> bool {
    match fault {
        WireFault::Malformed(malformed) => malformed.at == at && name(malformed.cause) == cause,
        WireFault::Memory => false,
    }
}

/// Whether a payload is a request that is written as that payload, or is refused, as a row says.
fn request_is(alloc: Global, payload: &[u8], answer: &str, at: u32) -> Result<bool, Fail> {
    match decode_request(alloc, payload) {
        Ok(request) => {
            let is_written = request_is_written(alloc, &request, payload);
            drop(request);
            Ok(is_written? && answer == "Message")
        }
        Err(fault) => Ok(is_fault(fault, answer, at)),
    }
}

fn reply_is(alloc: Global, payload: &[u8], answer: &str, at: u32) -> Result<bool, Fail> {
    match decode_reply(alloc, payload) {
        Ok(reply) => {
            let is_written = reply_is_written(alloc, &reply, payload);
            drop(reply);
            Ok(is_written? && answer == "Message")
        }
        Err(fault) => Ok(is_fault(fault, answer, at)),
    }
}

/// Whether the message of a row is what the row says.
fn holds(alloc: Global, row: &str, is_reply: bool) -> Result<bool, Fail> {
    let row = parts_of(row).ok_or("a part is missing")?;
    let at = row.at.parse::<u32>()?;
    let payload = edited(alloc, &row)?;
    if is_reply {
        reply_is(alloc, payload.as_slice(), row.answer, at)
    } else {
        request_is(alloc, payload.as_slice(), row.answer, at)
    }
}

fn all_hold(alloc: Global, rows: &str, count: usize, is_reply: bool) -> Result<(), Fail> {
    if rows.lines().count() != count {
        return Err(Fail::new("the table has another number of rows"));
    }
    for row in rows.lines() {
        if !holds(alloc, row, is_reply)? {
            return Err(Fail::new(format_args!("{row}")));
        }
    }
    Ok(())
}

#[test]
fn edited_requests(rt: HostRuntime) -> Result<(), Fail> {
    all_hold(rt.alloc(), requests::EDITED, 215, false)
}

#[test]
fn edited_replies(rt: HostRuntime) -> Result<(), Fail> {
    all_hold(rt.alloc(), replies::EDITED, 634, true)
}
