//! Submits whose actions are refused.
ghost use Rattle.std.specs.Prelude.{◌≤◌};

use crate::entries::check::SHAPE;
use std::alloc::Global;
use std::test::Fail;
use sv_entries::{LineAsked, LineBuffer, LineRequest, bad_action, line_at};
use sv_wire::{Reply, Request};
use sv_world::{Action, BadAction, Shape, check_action};

/// The causes, from number 1.
const CAUSES: [BadAction; 11] = [
    BadAction::NoReads,
    BadAction::TooManyReads,
    BadAction::NotAscending,
    BadAction::NoSuchObject,
    BadAction::BadMask,
    BadAction::BadSlot,
    BadAction::NotWritable,
    BadAction::BadAttr,
    BadAction::TooLarge,
    BadAction::TooDeep,
    BadAction::BadOrigin,
];

/// Whether a Submit of such an action is printed as the line.
fn is_printed(
    alloc: Global,
    shape: Shape,
    request: &Request,
    detail: u32,
    line: &str,
) -> Result<bool, Fail> {
    let mut lines = LineBuffer::new(alloc);
    let reply = Reply::Refused { code: 6, detail };
    lines.append_line(shape, 4, 3, request, &reply)?;
    drop(reply);
    Ok(lines.as_bytes() == line.as_bytes())
}

fn tells(asked: &LineAsked, cause: Option<BadAction>) -> bool {
    match &asked.asked {
        LineRequest::BadSubmit { seq, cause: told } => {
            asked.number == 4 && asked.session == 3 && *seq == 2 && *told == cause
        }
        LineRequest::Whole(_) => false,
    }
}

/// Whether the line tells that Submit and the cause.
fn is_read(alloc: Global, cause: Option<BadAction>, line: &str) -> Result<bool, Fail> {
    let asked = line_at(alloc, SHAPE, line.as_bytes())?;
    let told = tells(&asked, cause);
    drop(asked);
    Ok(told)
}

fn is_refused(shape: Shape, action: &Action, cause: BadAction) -> bool {
    match check_action(shape, action) {
        Ok(()) => false,
        Err(found) => found == cause,
    }
}

/// An action is refused for a cause, and its line tells it.
fn check_cause(alloc: Global, shape: Shape, cause: BadAction, detail: u32) -> Result<(), Fail>
    requires objects { 1 ≤ shape.objects }
    requires attrs { 1 ≤ shape.attrs }
{
    let line = format!(in alloc; "4 s3 submit 2 bad -> refused 6 {detail}\n")?;
    let action = bad_action(alloc, shape, cause)?;
    let refused = is_refused(shape, &action, cause);
    let request = Request::Submit { seq: 2, action };
    let printed = is_printed(alloc, shape, &request, detail, line.as_str());
    drop(request);
    let printed = printed?;
    if !refused || !printed {
        return Err(Fail::new(format_args!("not printed: {line}")));
    }
    if !is_read(alloc, Some(cause), line.as_str())? {
        return Err(Fail::new(format_args!("not read: {line}")));
    }
    Ok(())
}

fn check_causes(alloc: Global, shape: Shape) -> Result<(), Fail>
    requires objects { 1 ≤ shape.objects }
    requires attrs { 1 ≤ shape.attrs }
{
    let mut detail = 0u32;
    for cause in &CAUSES {
        detail = detail.saturating_add(1);
        check_cause(alloc, shape, *cause, detail)?;
    }
    Ok(())
}

#[test]
fn each_cause_is_told(rt: HostRuntime) -> Result<(), Fail> {
    let least = Shape {
        objects: 1,
        attrs: 1,
    };
    let greatest = Shape {
        objects: 65535,
        attrs: 4,
    };
    check_causes(rt.alloc(), least)?;
    check_causes(rt.alloc(), SHAPE)?;
    check_causes(rt.alloc(), greatest)
}

/// Replies to a Submit that tell no cause.
const OTHERS: [&str; 8] = [
    "refused 6 0\n",
    "refused 6 12\n",
    "refused 5 3\n",
    "refused 12 6\n",
    "refused 6",
    "settled 2 at 6\n",
    "relay 2 at 0 [] [1:c0.2]\n",
    "dropped 2 chain 6 far 6\n",
];

#[test]
fn other_replies_tell_no_cause(rt: HostRuntime) -> Result<(), Fail> {
    for reply in &OTHERS {
        let line = format!(in rt.alloc(); "4 s3 submit 2 bad -> {reply}")?;
        if !is_read(rt.alloc(), None, line.as_str())? {
            return Err(Fail::new(format_args!("a cause is told: {reply}")));
        }
    }
    Ok(())
}
