//! How a join ends.
ghost use Rattle.std.specs.Prelude.{◌≡◌};
ghost use Rattle.std.specs.Option.{option_copied};
ghost use Rattle.sv_bytes.specs.Writing.{GrewOrRose};
ghost use Rattle.sv_join.specs.Faults.{wire_cause_number, reply_line, take_line};
ghost use Rattle.sv_join.specs.Statuses.{join_line, status_of};

use crate::outcome::JoinFault;
use crate::words::WORDS_LINE;
use std::alloc::AllocError;
use sv_bytes::Sink;
use sv_client::TakeFault;
use sv_ending::{Ending, tell_line, tell_number, tell_numbers};
use sv_player::ReplyFault;
use sv_wire::WireCause;

/// How a join ends.
#[derive(Debug, Drop)]
pub(crate) enum JoinEnding {
    /// As any call of the program may.
    Plain(Ending),

    /// The server gave a reply that the client does not take.
    Reply(ReplyFault),

    /// The server closed a connection over which a reply was awaited.
    Closed,
}

impl From<Ending> for JoinEnding {
    ghost use Rattle.std.specs.Prelude.{◌≡◌};
    ghost use Rattle.sv_join.specs.declared.ending.JoinEnding.TheVariants as endings;

    ghost from_gives = { λ ending e. e ≡ endings.Plain ending };

    fn from(ending: Ending) -> JoinEnding {
        JoinEnding::Plain(ending)
    }
}

impl From<AllocError> for JoinEnding {
    ghost use Rattle.std.specs.Prelude.{◌≡◌};
    ghost use Rattle.sv_ending.specs.declared.ending.Ending.TheVariants as plain;
    ghost use Rattle.sv_join.specs.declared.ending.JoinEnding.TheVariants as endings;

    ghost from_gives = { λ _ e. e ≡ endings.Plain plain.Memory };

    fn from(_e: AllocError) -> JoinEnding {
        JoinEnding::Plain(Ending::Memory)
    }
}

impl From<JoinFault> for JoinEnding {
    ghost use Rattle.std.specs.Prelude.{◌≡◌};
    ghost use Rattle.sv_join.specs.Statuses.{ending_of_fault};

    ghost from_gives = { λ fault e. e ≡ ending_of_fault fault };

    fn from(fault: JoinFault) -> JoinEnding {
        match fault {
            JoinFault::Link => JoinEnding::Plain(Ending::Link),
            JoinFault::Reply(fault) => JoinEnding::Reply(fault),
            JoinFault::Closed => JoinEnding::Closed,
            JoinFault::Memory => JoinEnding::Plain(Ending::Memory),
        }
    }
}

/// The number of a cause in the message grammar.
fn wire_cause_number(cause: WireCause) -> u8
    ensures { result ≡ wire_cause_number cause }
{
    match cause {
        WireCause::Short => 1,
        WireCause::Kind => 2,
        WireCause::Count => 3,
        WireCause::Order => 4,
        WireCause::Mask => 5,
        WireCause::Code => 6,
        WireCause::Large => 7,
        WireCause::Deep => 8,
        WireCause::Rest => 9,
    }
}

fn tell_take<E: Sink>(fault: TakeFault, err: &mut E)
    ensures { GrewOrRose (E.taken err.old) (E.taken err.new) (E.faults err.old) (E.faults err.new) (take_line fault) }
{
    match fault {
        TakeFault::Unasked => tell_line(b"reply: unasked\n", err),
        TakeFault::WrongKind => tell_line(b"reply: wrongkind\n", err),
        TakeFault::BadOrder => tell_line(b"reply: badorder\n", err),
        TakeFault::BadItem => tell_line(b"reply: baditem\n", err),
        TakeFault::Missing { pos, object } => {
            tell_numbers(b"reply: missing ", pos, object.0 as u32, err)
        }
        TakeFault::Memory => tell_line(b"memory\n", err),
    }
}

fn tell_reply<E: Sink>(fault: ReplyFault, err: &mut E)
    ensures { GrewOrRose (E.taken err.old) (E.taken err.new) (E.faults err.old) (E.faults err.new) (reply_line fault) }
{
    match fault {
        ReplyFault::Take(fault) => tell_take(fault, err),
        ReplyFault::Wire(fault) => tell_numbers(
            b"reply: malformed ",
            fault.at,
            wire_cause_number(fault.cause) as u32,
            err,
        ),
        ReplyFault::TooLong(size) => tell_number(b"reply: toolong ", size, err),
    }
}

/// Writes the line that tells of an ending. It takes no memory.
pub(crate) fn tell<E: Sink>(ending: &JoinEnding, named: Option<&str>, err: &mut E)
    ensures { GrewOrRose (E.taken err.old) (E.taken err.new) (E.faults err.old) (E.faults err.new) (join_line ending.now (option_copied named.entry)) }
{
    match ending {
        JoinEnding::Plain(ending) => sv_ending::tell(ending, WORDS_LINE, named, err),
        JoinEnding::Reply(fault) => tell_reply(*fault, err),
        JoinEnding::Closed => tell_line(b"closed\n", err),
    }
}

/// The status with which the program ends.
pub(crate) fn status_of(ending: &JoinEnding) -> u8
    ensures { result ≡ status_of ending.now }
{
    match ending {
        JoinEnding::Plain(ending) => sv_ending::status_of(ending),
        JoinEnding::Reply(_) => 11,
        JoinEnding::Closed => 12,
    }
}
