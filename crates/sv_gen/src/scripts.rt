//! The scripts of the generated clients.

ghost use Rattle.std.specs.Prelude.{◌≡◌, ◌≤◌, ◌<◌, ◌+◌, ◌*◌, ◌++◌, IfOk, OnOk};
ghost use Rattle.sv_world.specs.Limits.{most_clients};
ghost use Rattle.sv_gen.specs.Generated.{round_steps, script, interest, plan, most_load};

use crate::acts::act;
use std::alloc::{AllocError, Global};
use sv_lists::List;
use sv_scenario::{Plan, Step};
use sv_world::ObjectId;

/// Appends sixteen acts among four objects, and a sync.
fn put_round(alloc: Global, half: u16, base: u16, steps: &mut Vec<Step>) -> Result<(), AllocError>
    requires half { half ≤ 1 }
    requires base { base ≤ 4 * most_load }
    ensures { OnOk result (steps.new.items ≡ steps.old.items ++ round_steps half base) }
{
    for index in 0..16u16 {
        steps.push(Step::Act(act(alloc, half, base, index)?))?;
    }
    steps.push(Step::Sync)?;
    Ok(())
}

fn script(alloc: Global, rounds: u16, half: u16, group: u16) -> Result<Vec<Step>, AllocError>
    requires half { half ≤ 1 }
    requires groups { group + rounds ≤ most_load }
    ensures { IfOk result (λ v. v.items ≡ script rounds half group) }
{
    let mut steps = Vec::new(alloc);
    for round in 0..rounds {
        put_round(alloc, half, 4 * (group + round), &mut steps)?;
    }
    Ok(steps)
}

fn interest(alloc: Global, group: u16) -> Result<List<ObjectId>, AllocError>
    requires { group ≤ most_load }
    ensures { IfOk result (λ v. v ≡ interest group) }
{
    let mut objects = List::new(alloc);
    objects.push(ObjectId(4 * group))?;
    objects.push(ObjectId(4 * group + 1))?;
    objects.push(ObjectId(4 * group + 2))?;
    objects.push(ObjectId(4 * group + 3))?;
    Ok(objects)
}

/// The client of a number, each of whose rounds has four objects.
#[tactic(auto, using(crate::proofs::Sizes::groups_fit))]
pub(crate) fn plan(alloc: Global, rounds: u16, client: u16) -> Result<Plan, AllocError>
    requires rounds { rounds ≤ 12 }
    requires client { client < most_clients }
    ensures { IfOk result (λ p. p ≡ plan rounds client) }
{
    let group = client / 2 * rounds;
    let interest = interest(alloc, group)?;
    let steps = script(alloc, rounds, client % 2, group)?;
    Ok(Plan {
        interest,
        steps: List::from_vec(steps),
    })
}
