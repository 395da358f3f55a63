//! The turns of a scenario file.

ghost use Rattle.std.specs.Prelude.{◌≡◌, ◌≤◌, ◌<◌, [], IfOk, IfSome, Ok, length, decimal};
ghost use Rattle.std.specs.Str.{bytes_eq};
ghost use Rattle.serde_json.specs.View.{view, items_view};
ghost use Rattle.sv_scenario.specs.Faults.{Gives, each};
ghost use Rattle.sv_scenario.specs.Turns.{number_below, turn_in, turn_of, turns_of};
ghost use Rattle.sv_scenario.specs.Digits.{two_digits};

use crate::numbers::list_within;
use crate::place::{at_place, refuse};
use crate::{ReadFault, ScenarioCause, Turn};
use serde_json::Value;
use std::alloc::Global;
use sv_lists::List;
use sv_world::MOST_TURNS;

/// The number that one or two digits write, if they are digits.
fn two_digits(digits: &[u8]) -> u16
    ensures { result ≡ two_digits digits.now }
{
    match digits {
        [] => 0,
        [ones] => u16::from(ones.saturating_sub(b'0')),
        [tens, ones, ..] => {
            10 * u16::from(tens.saturating_sub(b'0')) + u16::from(ones.saturating_sub(b'0'))
        }
    }
}

/// Whether the bytes are the decimal digits of a number.
fn is_decimal(number: u8, digits: &[u8]) -> bool
    requires { number < 100 }
    ensures { result ≡ bytes_eq (decimal number) digits.now }
{
    if number < 10 {
        [b'0' + number].as_slice() == digits
    } else {
        [b'0' + number / 10, b'0' + number % 10].as_slice() == digits
    }
}

#[tactic(auto, using(crate::proofs::Decimals::below_is))]
fn number_below(limit: u16, digits: &[u8]) -> Option<u16>
    requires { limit ≤ 100 }
    ensures { result ≡ number_below limit digits.now }
{
    let number = two_digits(digits);
    if number < limit && is_decimal(number as u8, digits) {
        Some(number)
    } else {
        None
    }
}

#[tactic(auto, unfolding(crate::specs::Turns::turn_in))]
fn turn_in(alloc: Global, clients: u16, sessions: u16, word: &[u8]) -> Result<Turn, ReadFault>
    requires clients { clients ≤ 100 }
    requires sessions { sessions ≤ 100 }
    ensures { Gives (λ t. t) result (turn_in clients sessions word.now) }
{
    let turn = match word {
        [b'c', digits @ ..] => number_below(clients, digits).map(Turn::Client),
        [b's', digits @ ..] => number_below(sessions, digits).map(Turn::Session),
        [b't', digits @ ..] => number_below(clients, digits).map(Turn::Take),
        _ => None,
    };
    match turn {
        Some(turn) => Ok(turn),
        None => Err(refuse(alloc, ScenarioCause::Kind)),
    }
}

#[tactic(auto, unfolding(crate::specs::Turns::turn_of))]
fn turn_of(alloc: Global, clients: u16, sessions: u16, value: &Value) -> Result<Turn, ReadFault>
    requires clients { clients ≤ 100 }
    requires sessions { sessions ≤ 100 }
    ensures { Gives (λ t. t) result (turn_of clients sessions (view value.now)) }
{
    match value.as_str() {
        Some(word) => turn_in(alloc, clients, sessions, word.as_bytes()),
        None => Err(refuse(alloc, ScenarioCause::Kind)),
    }
}

fn each_turn(
    alloc: Global,
    clients: u16,
    sessions: u16,
    values: &[Value],
) -> Result<Vec<Turn>, ReadFault>
    requires clients { clients ≤ 100 }
    requires sessions { sessions ≤ 100 }
    ensures { Gives (λ v. v.items) result (each (turn_of clients sessions) [] (items_view values.now)) }
{
    let mut all = Vec::new(alloc);
    let mut rest = values;
    while let [value, tail @ ..] = rest {
        let turn = at_place(alloc, all.len(), turn_of(alloc, clients, sessions, value))?;
        all.push(turn)?;
        rest = tail;
    }
    Ok(all)
}

/// The turns of so many clients and sessions.
#[tactic(auto, unfolding(crate::specs::Turns::turns_of))]
pub(crate) fn turns_of(
    alloc: Global,
    clients: u16,
    sessions: u16,
    value: &Value,
) -> Result<List<Turn>, ReadFault>
    requires clients { clients ≤ 100 }
    requires sessions { sessions ≤ 100 }
    ensures { Gives (λ v. v) result (turns_of clients sessions (view value.now)) }
{
    let values = list_within(alloc, 0, MOST_TURNS, value)?;
    Ok(List::from_vec(each_turn(alloc, clients, sessions, values)?))
}
