//! What a line asks. It is read leniently: who reads a line prints what was read again, and compares.
ghost use Rattle.std.specs.Prelude.{◌≡◌, ◌<◌, ◌^◌, ◌++◌, ℕ, List, Some};
ghost use Rattle.sv_wire.specs.declared.message.Request.{Request};
ghost use Rattle.sv_wire.specs.Ranges.{RequestFits};
ghost use Rattle.sv_lines.specs.Reading.{Gives, seen, number_read};
ghost use Rattle.sv_lines.specs.Told.{asking_text};
ghost use Rattle.sv_entries.specs.Asking.{cause_numbered, refusal_read, cause_read, asked_of, bad_submit_read, whole_read, line_request_read, line_read};
ghost use Rattle.sv_entries.specs.declared.read.LineRequest.{LineRequest};

use std::alloc::Global;
use sv_lines::{LineFault, expect, number_at, numeral_at, request_at};
use sv_wire::Request;
use sv_world::{BadAction, Shape};

/// What a line tells of a request.
#[derive(Debug, Drop)]
pub enum LineRequest {
    Whole(Request),
    /// A Submit whose action was refused, and is left out. `cause` is why, where the line's reply tells it.
    BadSubmit { seq: u32, cause: Option<BadAction> },
}

/// What a line tells, but for its reply.
#[derive(Debug, Drop)]
pub struct LineAsked {
    pub number: u64,
    pub session: u64,
    pub asked: LineRequest,
}

/// The number of 64 bits that the text begins with, and what comes after it.
#[tactic(auto, unfolding(sv_lines::specs::Reading::number_read))]
fn wide_at(text: &[u8]) -> Result<(u64, &[u8]), LineFault>
    ensures { seen (λ x. (x.0, x.1.now)) result ≡ number_read (2 ^ 64) text.now }
{
    let (digits, rest) = numeral_at(text);
    match digits.parse::<u64>() {
        Ok(number) => Ok((number, rest)),
        Err(_) => Err(LineFault::Wrong),
    }
}

#[tactic(auto, unfolding(crate::specs::Asking::cause_numbered))]
fn cause_numbered(number: u32) -> Option<BadAction>
    ensures { result ≡ cause_numbered number }
{
    match number {
        1 => Some(BadAction::NoReads),
        2 => Some(BadAction::TooManyReads),
        3 => Some(BadAction::NotAscending),
        4 => Some(BadAction::NoSuchObject),
        5 => Some(BadAction::BadMask),
        6 => Some(BadAction::BadSlot),
        7 => Some(BadAction::NotWritable),
        8 => Some(BadAction::BadAttr),
        9 => Some(BadAction::TooLarge),
        10 => Some(BadAction::TooDeep),
        11 => Some(BadAction::BadOrigin),
        _ => None,
    }
}

/// The code and the detail of a refusal.
#[tactic(auto, unfolding(crate::specs::Asking::refusal_read))]
fn refusal_at(text: &[u8]) -> Result<(u32, u32), LineFault>
    ensures { seen (λ x. x) result ≡ refusal_read text.now }
{
    let rest = expect(text, b"refused ")?;
    let (code, rest) = number_at(rest)?;
    let rest = expect(rest, b" ")?;
    let (detail, _) = number_at(rest)?;
    Ok((code, detail))
}

/// The cause that the text of a reply tells.
#[tactic(auto, unfolding(crate::specs::Asking::cause_read))]
fn cause_at(text: &[u8]) -> Option<BadAction>
    ensures { result ≡ cause_read text.now }
{
    match refusal_at(text) {
        Ok((code, detail)) => {
            if code == 6 {
                cause_numbered(detail)
            } else {
                None
            }
        }
        Err(_) => None,
    }
}

#[tactic(auto, unfolding(crate::specs::Asking::bad_submit_read))]
fn bad_submit_at(text: &[u8]) -> Result<LineRequest, LineFault>
    ensures { seen (λ found. found) result ≡ bad_submit_read text.now }
{
    let rest = expect(text, b"submit ")?;
    let (seq, rest) = number_at(rest)?;
    let reply = expect(rest, b" bad -> ")?;
    let cause = cause_at(reply);
    Ok(LineRequest::BadSubmit { seq, cause })
}

#[tactic(auto, unfolding(crate::specs::Asking::whole_read))]
fn whole_at(alloc: Global, shape: Shape, text: &[u8]) -> Result<LineRequest, LineFault>
    ensures { Gives (λ found. found) result (whole_read shape text.now) }
{
    let request = request_at(alloc, shape, text)?;
    Ok(LineRequest::Whole(request))
}

#[tactic(auto, unfolding(crate::specs::Asking::line_request_read))]
fn line_request_at(alloc: Global, shape: Shape, text: &[u8]) -> Result<LineRequest, LineFault>
    ensures { Gives (λ found. found) result (line_request_read shape text.now) }
{
    if let Ok(_) = expect(text, b"bad") {
        return Ok(LineRequest::Whole(Request::Bad));
    }
    if let Ok(found) = bad_submit_at(text) {
        return Ok(found);
    }
    whole_at(alloc, shape, text)
}

#[tactic(auto, unfolding(crate::specs::Asking::line_read))]
fn read_line(alloc: Global, shape: Shape, line: &[u8]) -> Result<LineAsked, LineFault>
    ensures { Gives (λ l. (l.number, l.session, l.asked)) result (line_read shape line.now) }
{
    let (number, rest) = wide_at(line)?;
    let rest = expect(rest, b" s")?;
    let (session, rest) = wide_at(rest)?;
    let rest = expect(rest, b" ")?;
    let asked = line_request_at(alloc, shape, rest)?;
    Ok(LineAsked {
        number,
        session,
        asked,
    })
}

/// What the line of an entry tells of its request. Of a Submit whose action is refused in the shape it tells the number, and the cause where
/// the reply is the refusal for it.
///
/// It may take more than is ever printed.
pub fn line_at(alloc: Global, shape: Shape, line: &[u8]) -> Result<LineAsked, LineFault>
    ensures { (n session : ℕ) (request : Request) (reply : List ℕ) → n < 2 ^ 64 → session < 2 ^ 64 → RequestFits request → line.now ≡ asking_text shape n session request ++ reply →
        Gives {Y = ℕ × ℕ × LineRequest} (λ l. (l.number, l.session, l.asked)) result (Some (n, session, asked_of shape request reply)) }
{
    read_line(alloc, shape, line)
}
