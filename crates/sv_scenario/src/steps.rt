//! The scripts of a scenario file.

ghost use Rattle.std.specs.Prelude.{◌≡◌, [], option_map};
ghost use Rattle.serde_json.specs.View.{view, items_view};
ghost use Rattle.sv_text.specs.Reading.{reading};
ghost use Rattle.sv_text.specs.Tokens.{tokens_of};
ghost use Rattle.sv_scenario.specs.Faults.{Gives};
ghost use Rattle.sv_scenario.specs.Scripts.{read_text, act_of, act_step, show_step, observe_step, word_step, only, step_of, has_no_items, steps_from, steps_of};

use crate::numbers::list_within;
use crate::objects::{observed_of, shown_of};
use crate::place::{at_key, at_place, refuse};
use crate::{MOST_SCENARIO_BYTES, ReadFault, ScenarioCause, Step};
use serde_json::Value;
use std::alloc::Global;
use sv_lists::List;
use sv_text::{ParseFault, parse_action};
use sv_world::{Action, MOST_STEPS, Shape, check_action};

fn read_text(alloc: Global, text: &str) -> Result<Action, ReadFault>
    ensures { Gives (λ a. a) result (read_text (reading (tokens_of text.now))) }
{
    // No text in a file is longer than the file.
    if text.len() > MOST_SCENARIO_BYTES {
        return Err(ReadFault::Memory);
    }
    match parse_action(alloc, text) {
        Ok(action) => Ok(action),
        Err(ParseFault::Text(fault)) => Err(refuse(alloc, ScenarioCause::Text(fault))),
        Err(ParseFault::Memory) => Err(ReadFault::Memory),
    }
}

/// The action of a text, if it is one of the shape.
#[tactic(auto, unfolding(crate::specs::Scripts::act_of))]
fn act_of(alloc: Global, shape: Shape, value: &Value) -> Result<Action, ReadFault>
    ensures { Gives (λ a. a) result (act_of shape (view value.now)) }
{
    let Some(text) = value.as_str() else {
        return Err(refuse(alloc, ScenarioCause::Kind));
    };
    let action = read_text(alloc, text)?;
    match check_action(shape, &action) {
        Ok(()) => Ok(action),
        Err(cause) => Err(refuse(alloc, ScenarioCause::Action(cause))),
    }
}

fn act_step(alloc: Global, shape: Shape, value: &Value) -> Result<Step, ReadFault>
    ensures { Gives (λ s. s) result (act_step shape (view value.now)) }
{
    let action = at_key(alloc, "act", act_of(alloc, shape, value))?;
    Ok(Step::Act(action))
}

fn show_step(alloc: Global, shape: Shape, value: &Value) -> Result<Step, ReadFault>
    ensures { Gives (λ s. s) result (show_step shape (view value.now)) }
{
    let objects = at_key(alloc, "show", shown_of(alloc, shape.objects, value))?;
    Ok(Step::Show(objects))
}

fn observe_step(alloc: Global, shape: Shape, value: &Value) -> Result<Step, ReadFault>
    ensures { Gives (λ s. s) result (observe_step shape (view value.now)) }
{
    let objects = at_key(alloc, "observe", observed_of(alloc, shape.objects, value))?;
    Ok(Step::Observe(objects))
}

#[tactic(auto, unfolding(crate::specs::Scripts::word_step))]
fn word_step(alloc: Global, is_last: bool, word: &str) -> Result<Step, ReadFault>
    ensures { Gives (λ s. s) result (word_step is_last word.now) }
{
    if word == "poll" {
        Ok(Step::Poll)
    } else if word == "sync" {
        Ok(Step::Sync)
    } else if word == "cut" {
        Ok(Step::Cut)
    } else if word == "quit" {
        if is_last {
            Ok(Step::Quit)
        } else {
            Err(refuse(alloc, ScenarioCause::Last))
        }
    } else {
        Err(refuse(alloc, ScenarioCause::Kind))
    }
}

/// The value of a key of an object that has no other.
#[tactic(auto, unfolding(crate::specs::Scripts::only), using(crate::proofs::Counts::count_members_is))]
fn only<'a>(key: &str, value: &'a Value) -> Option<&'a Value>
    ensures { option_map (λ v. view v.now) result ≡ only key.now (view value.now) }
{
    match value.as_object() {
        Some(members) if members.len() == 1 => value.get(key),
        _ => None,
    }
}

#[tactic(auto, unfolding(crate::specs::Scripts::step_of))]
fn step_of(alloc: Global, shape: Shape, is_last: bool, value: &Value) -> Result<Step, ReadFault>
    ensures { Gives (λ s. s) result (step_of shape is_last (view value.now)) }
{
    if let Some(word) = value.as_str() {
        return word_step(alloc, is_last, word);
    }
    if let Some(act) = only("act", value) {
        return act_step(alloc, shape, act);
    }
    if let Some(show) = only("show", value) {
        return show_step(alloc, shape, show);
    }
    if let Some(observe) = only("observe", value) {
        return observe_step(alloc, shape, observe);
    }
    Err(refuse(alloc, ScenarioCause::Kind))
}

#[tactic(auto, using(crate::proofs::Counts::some_left))]
fn has_no_items(values: &[Value]) -> bool
    ensures { result ≡ has_no_items (items_view values.now) }
{
    match values {
        [] => true,
        [_, ..] => false,
    }
}

fn each_step(alloc: Global, shape: Shape, values: &[Value]) -> Result<Vec<Step>, ReadFault>
    ensures { Gives (λ v. v.items) result (steps_from shape [] (items_view values.now)) }
{
    let mut all = Vec::new(alloc);
    let mut rest = values;
    while let [value, tail @ ..] = rest {
        let is_last = has_no_items(tail);
        let step = at_place(alloc, all.len(), step_of(alloc, shape, is_last, value))?;
        all.push(step)?;
        rest = tail;
    }
    Ok(all)
}

/// The steps of one client.
#[tactic(auto, unfolding(crate::specs::Scripts::steps_of))]
pub(crate) fn steps_of(alloc: Global, shape: Shape, value: &Value) -> Result<List<Step>, ReadFault>
    ensures { Gives (λ v. v) result (steps_of shape (view value.now)) }
{
    let values = list_within(alloc, 0, MOST_STEPS, value)?;
    Ok(List::from_vec(each_step(alloc, shape, values)?))
}
