//! The clients of a scenario file.

ghost use Rattle.std.specs.Prelude.{◌≡◌, ◌≤◌, [], codes, length, vec_len, IfOk};
ghost use Rattle.serde_json.specs.View.{view, items_view};
ghost use Rattle.sv_world.specs.Limits.{most_clients, most_sessions};
ghost use Rattle.sv_scenario.specs.Faults.{Gives, each};
ghost use Rattle.sv_scenario.specs.Keys.{value_at};
ghost use Rattle.sv_scenario.specs.Objects.{interest_of};
ghost use Rattle.sv_scenario.specs.Scenarios.{few_sessions, clients_of};
ghost use Rattle.sv_scenario.specs.Sessions.{sessions_in};
ghost use Rattle.sv_scenario.specs.Scripts.{plan_of, plans_of, steps_of};

use crate::keys::{keys_of, needed};
use crate::numbers::list_within;
use crate::objects::interest_of;
use crate::place::{at_key, at_place, refuse};
use crate::sessions::has_few_sessions;
use crate::steps::steps_of;
use crate::{Plan, ReadFault, ScenarioCause, Step};
use serde_json::Value;
use std::alloc::Global;
use sv_lists::List;
use sv_world::{MOST_CLIENTS, ObjectId, Shape};

fn interest_in(alloc: Global, shape: Shape, value: &Value) -> Result<List<ObjectId>, ReadFault>
    ensures { Gives (λ v. v) result (value_at (codes "interest") (interest_of shape.objects) (view value.now)) }
{
    let interest = needed(alloc, "interest", value)?;
    at_key(
        alloc,
        "interest",
        interest_of(alloc, shape.objects, interest),
    )
}

fn steps_in(alloc: Global, shape: Shape, value: &Value) -> Result<List<Step>, ReadFault>
    ensures { Gives (λ v. v) result (value_at (codes "steps") (steps_of shape) (view value.now)) }
{
    let steps = needed(alloc, "steps", value)?;
    at_key(alloc, "steps", steps_of(alloc, shape, steps))
}

#[tactic(auto, unfolding(crate::specs::Scripts::plan_of))]
fn plan_of(alloc: Global, shape: Shape, value: &Value) -> Result<Plan, ReadFault>
    ensures { Gives (λ p. p) result (plan_of shape (view value.now)) }
{
    keys_of(alloc, &["interest", "steps"], &[], value)?;
    let interest = interest_in(alloc, shape, value)?;
    let steps = steps_in(alloc, shape, value)?;
    Ok(Plan { interest, steps })
}

fn each_plan(alloc: Global, shape: Shape, values: &[Value]) -> Result<Vec<Plan>, ReadFault>
    ensures reads { Gives (λ v. v.items) result (each (plan_of shape) [] (items_view values.now)) }
    ensures count { IfOk result (λ v. vec_len v ≡ length values.now) }
{
    let mut all = Vec::new(alloc);
    let mut rest = values;
    while let [value, tail @ ..] = rest {
        let plan = at_place(alloc, all.len(), plan_of(alloc, shape, value))?;
        all.push(plan)?;
        rest = tail;
    }
    Ok(all)
}

#[tactic(auto, unfolding(crate::specs::Scripts::plans_of))]
fn plans_of(alloc: Global, shape: Shape, value: &Value) -> Result<List<Plan>, ReadFault>
    ensures reads { Gives (λ v. v) result (plans_of shape (view value.now)) }
    ensures count { IfOk result (λ v. length v ≤ most_clients) }
{
    let values = list_within(alloc, 1, MOST_CLIENTS as usize, value)?;
    Ok(List::from_vec(each_plan(alloc, shape, values)?))
}

fn few_sessions(alloc: Global, plans: List<Plan>) -> Result<List<Plan>, ReadFault>
    ensures reads { Gives (λ v. v) result (few_sessions plans) }
    ensures same { IfOk result (λ v. v ≡ plans) }
    ensures sessions { IfOk result (λ v. sessions_in v ≤ most_sessions) }
{
    if has_few_sessions(plans.as_slice()) {
        Ok(plans)
    } else {
        Err(refuse(alloc, ScenarioCause::Range))
    }
}

/// The clients, who have at most 64 sessions together.
#[tactic(auto, unfolding(crate::specs::Scenarios::clients_of))]
pub(crate) fn clients_of(
    alloc: Global,
    shape: Shape,
    value: &Value,
) -> Result<List<Plan>, ReadFault>
    ensures reads { Gives (λ v. v) result (clients_of shape (view value.now)) }
    ensures count { IfOk result (λ v. length v ≤ most_clients) }
    ensures sessions { IfOk result (λ v. sessions_in v ≤ most_sessions) }
{
    let plans = plans_of(alloc, shape, value)?;
    few_sessions(alloc, plans)
}
