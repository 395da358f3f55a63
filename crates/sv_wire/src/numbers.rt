//! The numbers of messages. They are always those of their types, but contracts know it only of a value that is read. So these functions
//! read all numbers, and do nothing else.
ghost use Rattle.std.specs.Prelude.{◌^◌, ◌<◌, All, FitsSigned};
ghost use Rattle.std.specs.Int.{w32, w64};
ghost use Rattle.sv_wire.specs.Ranges.{ValueFits, HeldFits, ResultFits, ActionFits, ItemFits, RequestFits, ReplyFits};

use crate::message::{Done1, Item, ObjectValue, Reply, Request};
use sv_world::{Action, Point, Value, read_object, read_objects};

fn read_u8(number: u8)
    ensures { number < 2 ^ 8 }
{
    let _number = number;
}

fn read_u16(number: u16)
    ensures { number < 2 ^ 16 }
{
    let _number = number;
}

fn read_u32(number: u32)
    ensures { number < 2 ^ 32 }
{
    let _number = number;
}

fn read_point(point: Point)
    ensures x { FitsSigned w32 point.x }
    ensures y { FitsSigned w32 point.y }
{
    let _point = point;
}

fn read_numbers(numbers: &[i64])
    ensures { All (FitsSigned w64) numbers.now }
{
    for number in numbers {
        let _number = *number;
    }
}

fn read_value(value: &Value)
    ensures { ValueFits value.now }
{
    read_numbers(value.as_slice());
}

/// The numbers of values are those of their type.
pub fn read_values(values: &[Value])
    ensures { All ValueFits values.now }
{
    for value in values {
        read_value(value);
    }
}

fn read_held(held: &ObjectValue)
    ensures { HeldFits held.now }
{
    read_object(held.object);
    read_value(&held.value);
}

fn read_head(head: &[ObjectValue])
    ensures { All HeldFits head.now }
{
    for held in head {
        read_held(held);
    }
}

fn read_result(result_read: &Done1)
    ensures { ResultFits result_read.now }
{
    read_u32(result_read.pos);
    read_values(result_read.values.as_slice());
}

fn read_results(results: &[Done1])
    ensures { All ResultFits results.now }
{
    for done in results {
        read_result(done);
    }
}

/// The numbers of an action are those of their types.
pub fn read_action(action: &Action)
    ensures { ActionFits action.now }
{
    read_objects(action.reads.as_slice());
    read_u16(action.mask);
    read_point(action.origin);
    action.body.read_numbers();
}

fn read_item(item: &Item)
    ensures { ItemFits item.now }
{
    read_u32(item.pos);
    read_u16(item.client.0);
    read_u32(item.seq);
    read_action(&item.action);
}

fn read_items(items: &[Item])
    ensures { All ItemFits items.now }
{
    for item in items {
        read_item(item);
    }
}

fn read_work(first: u32, commit: u32, head: &[ObjectValue], items: &[Item])
    ensures first { first < 2 ^ 32 }
    ensures commit { commit < 2 ^ 32 }
    ensures head { All HeldFits head.now }
    ensures items { All ItemFits items.now }
{
    read_u32(first);
    read_u32(commit);
    read_head(head);
    read_items(items);
}

/// The numbers of a request are those of their types.
pub fn read_request(request: &Request)
    ensures { RequestFits request.now }
{
    match request {
        Request::Join {
            client,
            life,
            interest,
        } => {
            read_u16(client.0);
            read_u32(*life);
            read_objects(interest.as_slice());
        }
        Request::Submit { seq, action } => {
            read_u32(*seq);
            read_action(action);
        }
        Request::Done { results } => read_results(results.as_slice()),
        Request::Observe { objects, wait } => {
            read_objects(objects.as_slice());
            read_u16(*wait);
        }
        Request::Poll | Request::Leave | Request::Bad | Request::End => {}
    }
}

/// The numbers of a reply are those of their types.
pub fn read_reply(reply: &Reply)
    ensures { ReplyFits reply.now }
{
    match reply {
        Reply::Welcome { commit, head } => {
            read_u32(*commit);
            read_head(head.as_slice());
        }
        Reply::Relay {
            seq,
            commit,
            head,
            items,
        } => read_work(*seq, *commit, head.as_slice(), items.as_slice()),
        Reply::Dropped { seq, chain, far } => {
            read_u32(*seq);
            read_u32(*chain);
            read_u32(*far);
        }
        Reply::Denied { seq, object } => {
            read_u32(*seq);
            read_object(*object);
        }
        Reply::Seen {
            last,
            commit,
            head,
            items,
        } => read_work(*last, *commit, head.as_slice(), items.as_slice()),
        Reply::Settled { seq, pos } => {
            read_u32(*seq);
            read_u32(*pos);
        }
        Reply::Noted { commit } => read_u32(*commit),
        Reply::Refused { code, detail } => {
            read_u8(*code);
            read_u32(*detail);
        }
        Reply::Idle | Reply::Bye => {}
    }
}
