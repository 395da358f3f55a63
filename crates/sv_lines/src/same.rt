//! Equal requests.
ghost use Rattle.std.specs.Prelude.{◌≡◌, true};
ghost use Rattle.sv_wire.specs.declared.message.Request.TheVariants as requests;

use sv_client::{are_same_values, same_action, same_actions_are_equal, same_values_are_equal};
use sv_wire::{Done1, Request};
use sv_world::{Action, ClientId, ObjectId, Value};

fn equal_values(values: &[Value], others: &[Value]) -> bool
    ensures same { result ≡ true → values.now ≡ others.now }
    ensures all { values.now ≡ others.now → result ≡ true }
{
    same_values_are_equal();
    are_same_values(values, others)
}

fn same_result(done: &Done1, other: &Done1) -> bool
    ensures same { result ≡ true → done.now ≡ other.now }
    ensures all { done.now ≡ other.now → result ≡ true }
{
    done.pos == other.pos && equal_values(done.values.as_slice(), other.values.as_slice())
}

fn same_results(results: &[Done1], others: &[Done1]) -> bool
    ensures same { result ≡ true → results.now ≡ others.now }
    ensures all { results.now ≡ others.now → result ≡ true }
{
    let [done, results @ ..] = results else {
        return others.is_empty();
    };
    let [other, others @ ..] = others else {
        return false;
    };
    same_result(done, other) && same_results(results, others)
}

fn same_objects(objects: &[ObjectId], others: &[ObjectId]) -> bool
    ensures same { result ≡ true → objects.now ≡ others.now }
    ensures all { objects.now ≡ others.now → result ≡ true }
{
    objects == others
}

fn equal_actions(action: &Action, other: &Action) -> bool
    ensures same { result ≡ true → action.now ≡ other.now }
    ensures all { action.now ≡ other.now → result ≡ true }
{
    same_actions_are_equal();
    same_action(action, other)
}

fn same_clients(client: ClientId, other: ClientId) -> bool
    ensures same { result ≡ true → client ≡ other }
    ensures all { client ≡ other → result ≡ true }
{
    client.0 == other.0
}

fn same_join(client: ClientId, life: u32, interest: &[ObjectId], other: &Request) -> bool
    ensures same { result ≡ true → requests.Join client life interest.now ≡ other.now }
    ensures all { requests.Join client life interest.now ≡ other.now → result ≡ true }
{
    match other {
        Request::Join {
            client: other_client,
            life: other_life,
            interest: other_interest,
        } => {
            same_clients(client, *other_client)
                && life == *other_life
                && same_objects(interest, other_interest.as_slice())
        }
        _ => false,
    }
}

fn same_submit(seq: u32, action: &Action, other: &Request) -> bool
    ensures same { result ≡ true → requests.Submit seq action.now ≡ other.now }
    ensures all { requests.Submit seq action.now ≡ other.now → result ≡ true }
{
    match other {
        Request::Submit {
            seq: other_seq,
            action: other_action,
        } => seq == *other_seq && equal_actions(action, other_action),
        _ => false,
    }
}

fn same_done(results: &[Done1], other: &Request) -> bool
    ensures same { result ≡ true → requests.Done results.now ≡ other.now }
    ensures all { requests.Done results.now ≡ other.now → result ≡ true }
{
    match other {
        Request::Done { results: others } => same_results(results, others.as_slice()),
        _ => false,
    }
}

fn same_observe(objects: &[ObjectId], wait: u16, other: &Request) -> bool
    ensures same { result ≡ true → requests.Observe objects.now wait ≡ other.now }
    ensures all { requests.Observe objects.now wait ≡ other.now → result ≡ true }
{
    match other {
        Request::Observe {
            objects: other_objects,
            wait: other_wait,
        } => same_objects(objects, other_objects.as_slice()) && wait == *other_wait,
        _ => false,
    }
}

fn is_poll(other: &Request) -> bool
    ensures same { result ≡ true → requests.Poll ≡ other.now }
    ensures all { requests.Poll ≡ other.now → result ≡ true }
{
    matches!(other, Request::Poll)
}

fn is_leave(other: &Request) -> bool
    ensures same { result ≡ true → requests.Leave ≡ other.now }
    ensures all { requests.Leave ≡ other.now → result ≡ true }
{
    matches!(other, Request::Leave)
}

fn is_bad(other: &Request) -> bool
    ensures same { result ≡ true → requests.Bad ≡ other.now }
    ensures all { requests.Bad ≡ other.now → result ≡ true }
{
    matches!(other, Request::Bad)
}

fn is_end(other: &Request) -> bool
    ensures same { result ≡ true → requests.End ≡ other.now }
    ensures all { requests.End ≡ other.now → result ≡ true }
{
    matches!(other, Request::End)
}

/// Whether two requests are equal.
pub fn same_request(request: &Request, other: &Request) -> bool
    ensures same { result ≡ true → request.now ≡ other.now }
    ensures all { request.now ≡ other.now → result ≡ true }
{
    match request {
        Request::Join {
            client,
            life,
            interest,
        } => same_join(*client, *life, interest.as_slice(), other),
        Request::Submit { seq, action } => same_submit(*seq, action, other),
        Request::Done { results } => same_done(results.as_slice(), other),
        Request::Poll => is_poll(other),
        Request::Observe { objects, wait } => same_observe(objects.as_slice(), *wait, other),
        Request::Leave => is_leave(other),
        Request::Bad => is_bad(other),
        Request::End => is_end(other),
    }
}
