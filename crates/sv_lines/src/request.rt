//! The request of a journal's line. What is read is printed again and compared, so the reading may take more than is ever printed.
ghost use Rattle.std.specs.Prelude.{◌≡◌, ◌^◌, ◌<◌, ◌++◌, ℕ, List, Some, IfOk};
ghost use Rattle.std.specs.List.{prefix_len};
ghost use Rattle.sv_wire.specs.declared.message.Request.{Request};
ghost use Rattle.sv_lines.specs.Reading.{Gives, seen};
ghost use Rattle.sv_lines.specs.Asking.{is_plain, join_read, before_arrow, good_action, action_read, submit_read, done_read, observe_read, plain_read, request_read, asked_read};
ghost use Rattle.sv_lines.specs.Told.{IsTold, asking_text};

use crate::lists::{objects_at, results_at};
use crate::numbers::{behind, expect, number_at, small_at};
use crate::stop::LineFault;
use std::alloc::Global;
use sv_text::{ParseFault, parse_action};
use sv_wire::{Request, read_request};
use sv_world::{Action, ClientId, Shape, check_action};

#[tactic(auto, unfolding(crate::specs::Asking::join_read))]
fn join_at(alloc: Global, text: &[u8]) -> Result<Request, LineFault>
    ensures { Gives (λ request. request) result (join_read text.now) }
{
    let (client, rest) = small_at(text)?;
    let rest = expect(rest, b" ")?;
    let (life, rest) = number_at(rest)?;
    let rest = expect(rest, b" ")?;
    let (interest, _) = objects_at(alloc, rest)?;
    Ok(Request::Join {
        client: ClientId(client),
        life,
        interest,
    })
}

/// How many of the first bytes an action may have before an arrow.
pub fn plain_width(text: &[u8]) -> usize
    ensures { result ≡ prefix_len is_plain text.now }
{
    text.iter()
        .take_while(|byte| **byte < 128 && (**byte != b'>' && **byte != b'\n'))
        .count()
}

/// The text up to ` -> `, whose `>` no action has.
#[tactic(auto, unfolding(crate::specs::Asking::before_arrow))]
fn before_arrow(text: &[u8]) -> Result<&str, LineFault>
    ensures { seen (λ front. front.now) result ≡ before_arrow text.now }
{
    let count = plain_width(text);
    if count < 2 {
        return Err(LineFault::Wrong);
    }
    let (front, _) = text.split_at(count - 2);
    match str::from_utf8(front) {
        Ok(front) => Ok(front),
        Err(_) => Err(LineFault::Wrong),
    }
}

/// The action, where the check passes it.
#[tactic(auto, unfolding(crate::specs::Asking::good_action))]
fn checked(shape: Shape, action: Action) -> Result<Action, LineFault>
    ensures { Gives (λ a. a) result (good_action shape action) }
{
    match check_action(shape, &action) {
        Ok(()) => Ok(action),
        Err(_) => Err(LineFault::Wrong),
    }
}

/// An action that the check passes.
#[tactic(auto, unfolding(crate::specs::Asking::action_read))]
pub fn action_at(alloc: Global, shape: Shape, text: &str) -> Result<Action, LineFault>
    ensures { Gives (λ a. a) result (action_read shape text.now) }
{
    if text.len() >= 1 << 32 {
        return Err(LineFault::Wrong);
    }
    match parse_action(alloc, text) {
        Ok(action) => checked(shape, action),
        Err(ParseFault::Memory) => Err(LineFault::Memory),
        Err(ParseFault::Text(_)) => Err(LineFault::Wrong),
    }
}

#[tactic(auto, unfolding(crate::specs::Asking::submit_read))]
fn submit_at(alloc: Global, shape: Shape, text: &[u8]) -> Result<Request, LineFault>
    ensures { Gives (λ request. request) result (submit_read shape text.now) }
{
    let (seq, rest) = number_at(text)?;
    let rest = expect(rest, b" ")?;
    let front = before_arrow(rest)?;
    let action = action_at(alloc, shape, front)?;
    Ok(Request::Submit { seq, action })
}

#[tactic(auto, unfolding(crate::specs::Asking::done_read))]
fn done_at(alloc: Global, text: &[u8]) -> Result<Request, LineFault>
    ensures { Gives (λ request. request) result (done_read text.now) }
{
    let (results, _) = results_at(alloc, text)?;
    Ok(Request::Done { results })
}

#[tactic(auto, unfolding(crate::specs::Asking::observe_read))]
fn observe_at(alloc: Global, text: &[u8]) -> Result<Request, LineFault>
    ensures { Gives (λ request. request) result (observe_read text.now) }
{
    let (wait, rest) = small_at(text)?;
    let rest = expect(rest, b" ")?;
    let (objects, _) = objects_at(alloc, rest)?;
    Ok(Request::Observe { objects, wait })
}

#[tactic(auto, unfolding(crate::specs::Asking::plain_read))]
fn plain_at(text: &[u8]) -> Result<Request, LineFault>
    ensures { Gives (λ request. request) result (plain_read text.now) }
{
    if let Some(_) = behind(text, b"poll") {
        return Ok(Request::Poll);
    }
    if let Some(_) = behind(text, b"leave") {
        return Ok(Request::Leave);
    }
    if let Some(_) = behind(text, b"end") {
        return Ok(Request::End);
    }
    Err(LineFault::Wrong)
}

/// The request that a text begins with. A payload that is no request, and an action that is refused, are not read.
#[tactic(auto, unfolding(crate::specs::Asking::request_read))]
pub fn request_at(alloc: Global, shape: Shape, text: &[u8]) -> Result<Request, LineFault>
    ensures { Gives (λ request. request) result (request_read shape text.now) }
{
    if let Some(rest) = behind(text, b"join c") {
        return join_at(alloc, rest);
    }
    if let Some(rest) = behind(text, b"submit ") {
        return submit_at(alloc, shape, rest);
    }
    if let Some(rest) = behind(text, b"done ") {
        return done_at(alloc, rest);
    }
    if let Some(rest) = behind(text, b"observe ") {
        return observe_at(alloc, rest);
    }
    plain_at(text)
}

/// What a line of the journal tells: the session and its request.
#[derive(Drop)]
pub struct Asked {
    pub session: u16,
    pub request: Request,
}

/// The session and the request of a line of the journal.
#[tactic(auto, unfolding(crate::specs::Asking::asked_read))]
fn read_asked(alloc: Global, shape: Shape, line: &[u8]) -> Result<Asked, LineFault>
    ensures { Gives (λ asked. (asked.session, asked.request)) result (asked_read shape line.now) }
{
    let (_, rest) = number_at(line)?;
    let rest = expect(rest, b" s")?;
    let (session, rest) = small_at(rest)?;
    let rest = expect(rest, b" ")?;
    let request = request_at(alloc, shape, rest)?;
    Ok(Asked { session, request })
}

/// The session and the request of a line of the journal. Where the line is that of an entry whose request lines tell, they are the entry's.
pub fn asked_at(alloc: Global, shape: Shape, line: &[u8]) -> Result<Asked, LineFault>
    ensures told { IfOk result (λ asked. IsTold shape asked.request) }
    ensures read { (n session : ℕ) (request : Request) (reply : List ℕ) → n < 2 ^ 32 → session < 2 ^ 16 → IsTold shape request →
        line.now ≡ asking_text shape n session request ++ reply → Gives {Y = ℕ × Request} (λ asked. (asked.session, asked.request)) result (Some (session, request)) }
{
    let asked = read_asked(alloc, shape, line)?;
    read_request(&asked.request);
    Ok(asked)
}
