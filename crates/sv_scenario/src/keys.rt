//! The keys of an object of a scenario file.

ghost use Rattle.std.specs.Prelude.{◌≡◌, ◌++◌, map, string_bytes, option_map};
ghost use Rattle.serde_json.specs.View.{view, members_view};
ghost use Rattle.sv_scenario.specs.Faults.{Gives};
ghost use Rattle.sv_scenario.specs.Keys.{first_missing, is_among, first_unnamed, no_key, keys_of, needed};

use crate::place::{refuse, refuse_key};
use crate::{ReadFault, ScenarioCause};
use serde_json::{Map, Value};
use std::alloc::Global;

fn first_missing<'a>(names: &[&'a str], value: &Value) -> Option<&'a str>
    ensures { option_map (λ s. s.now) result ≡ first_missing (map (λ s. s.now) names.now) (view value.now) }
{
    for name in names {
        if value.get(*name).is_none() {
            return Some(*name);
        }
    }
    None
}

fn is_among(names: &[&str], key: &str) -> bool
    ensures { result ≡ is_among (map (λ s. s.now) names.now) key.now }
{
    for name in names {
        if key == *name {
            return true;
        }
    }
    false
}

fn first_unnamed<'a>(
    needed: &[&str],
    others: &[&str],
    members: &'a Map<String, Value>,
) -> Option<&'a str>
    ensures { option_map (λ s. s.now) result ≡ first_unnamed (map (λ s. s.now) needed.now ++ map (λ s. s.now) others.now) (members_view members.now.entries) }
{
    for (key, _value) in members.iter() {
        if !is_among(needed, key) && !is_among(others, key) {
            return Some(key.as_str());
        }
    }
    None
}

fn no_key(alloc: Global, key: Option<&str>) -> Result<(), ReadFault>
    ensures { Gives (λ u. u) result (no_key (option_map (λ s. s.now) key.entry)) }
{
    match key {
        None => Ok(()),
        Some(key) => Err(refuse_key(alloc, key)),
    }
}

/// Refuses what is no object with all of the needed keys, and no other but those of a second list.
#[tactic(auto, unfolding(crate::specs::Keys::keys_of))]
pub fn keys_of(
    alloc: Global,
    needed: &[&str],
    others: &[&str],
    value: &Value,
) -> Result<(), ReadFault>
    ensures { Gives (λ u. u) result (keys_of (map (λ s. s.now) needed.now) (map (λ s. s.now) others.now) (view value.now)) }
{
    let Some(members) = value.as_object() else {
        return Err(refuse(alloc, ScenarioCause::Kind));
    };
    no_key(alloc, first_missing(needed, value))?;
    no_key(alloc, first_unnamed(needed, others, members))
}

/// The value of a key that must be there.
#[tactic(auto, unfolding(crate::specs::Keys::needed))]
pub fn needed<'a>(alloc: Global, key: &str, value: &'a Value) -> Result<&'a Value, ReadFault>
    ensures { Gives (λ v. view v.now) result (needed key.now (view value.now)) }
{
    match value.get(key) {
        Some(found) => Ok(found),
        None => Err(refuse_key(alloc, key)),
    }
}
