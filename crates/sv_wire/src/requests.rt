//! Reading requests.
ghost use Rattle.std.specs.Prelude.{◌≡◌};
ghost use Rattle.sv_wire.specs.Steps.{Gives};
ghost use Rattle.sv_wire.specs.Messages.{join_request_from, submit_from, done_from, observe_from, request_front, whole};

use crate::actions::action_of;
use crate::fault::{DecodeFault, WireCause, stop_at};
use crate::fields::{byte_of, count_of, objects_of, results_of, u16_of, u32_of};
use crate::kinds::{RequestKind, request_kind};
use crate::message::Request;
use std::alloc::Global;
use sv_world::{ClientId, MOST_INTEREST, MOST_ITEMS, MOST_READS, copy_objects};

#[tactic(auto, unfolding(crate::specs::Messages::join_request_from))]
fn join_of(alloc: Global, bytes: &[u8]) -> Result<(Request, &[u8]), DecodeFault>
    ensures { Gives (λ x. (x.0, x.1.now)) result (join_request_from bytes.now) }
{
    let (client, rest) = u16_of(bytes)?;
    let (life, rest) = u32_of(rest)?;
    let (count, rest) = count_of(0, MOST_INTEREST as u8, rest)?;
    let (objects, rest) = objects_of(alloc, count, rest)?;
    let interest = copy_objects(alloc, objects.as_slice())?;
    Ok((
        Request::Join {
            client: ClientId(client),
            life,
            interest,
        },
        rest,
    ))
}

#[tactic(auto, unfolding(crate::specs::Messages::submit_from))]
fn submit_of(alloc: Global, bytes: &[u8]) -> Result<(Request, &[u8]), DecodeFault>
    ensures { Gives (λ x. (x.0, x.1.now)) result (submit_from bytes.now) }
{
    let (seq, rest) = u32_of(bytes)?;
    let (action, rest) = action_of(alloc, rest)?;
    Ok((Request::Submit { seq, action }, rest))
}

#[tactic(auto, unfolding(crate::specs::Messages::done_from))]
fn done_of(alloc: Global, bytes: &[u8]) -> Result<(Request, &[u8]), DecodeFault>
    ensures { Gives (λ x. (x.0, x.1.now)) result (done_from bytes.now) }
{
    let (count, rest) = count_of(1, MOST_ITEMS as u8, bytes)?;
    let (results, rest) = results_of(alloc, count, rest)?;
    Ok((Request::Done { results }, rest))
}

#[tactic(auto, unfolding(crate::specs::Messages::observe_from))]
fn observe_of(alloc: Global, bytes: &[u8]) -> Result<(Request, &[u8]), DecodeFault>
    ensures { Gives (λ x. (x.0, x.1.now)) result (observe_from bytes.now) }
{
    let (count, rest) = count_of(1, MOST_READS as u8, bytes)?;
    let (observed, rest) = objects_of(alloc, count, rest)?;
    let (wait, rest) = u16_of(rest)?;
    let objects = copy_objects(alloc, observed.as_slice())?;
    Ok((Request::Observe { objects, wait }, rest))
}

#[tactic(auto, unfolding(crate::specs::Messages::request_front))]
fn request_of(alloc: Global, payload: &[u8]) -> Result<(Request, &[u8]), DecodeFault>
    ensures { Gives (λ x. (x.0, x.1.now)) result (request_front payload.now) }
{
    let (byte, rest) = byte_of(payload)?;
    let Some(kind) = request_kind(byte) else {
        return Err(stop_at(payload, WireCause::Kind));
    };
    match kind {
        RequestKind::Join => join_of(alloc, rest),
        RequestKind::Submit => submit_of(alloc, rest),
        RequestKind::Done => done_of(alloc, rest),
        RequestKind::Poll => Ok((Request::Poll, rest)),
        RequestKind::Observe => observe_of(alloc, rest),
        RequestKind::Leave => Ok((Request::Leave, rest)),
    }
}

/// The request that a payload is, all of it.
#[tactic(auto, unfolding(crate::specs::Messages::whole))]
pub fn whole_request(alloc: Global, payload: &[u8]) -> Result<Request, DecodeFault>
    ensures { Gives (λ x. x) result (whole request_front payload.now) }
{
    let (request, rest) = request_of(alloc, payload)?;
    if !rest.is_empty() {
        return Err(stop_at(rest, WireCause::Rest));
    }
    Ok(request)
}
