//! The whole scenario.

ghost use Rattle.std.specs.Prelude.{◌≡◌, ◌≤◌, ◌*◌, map, IfOk, None};
ghost use Rattle.sv_world.specs.Control.{below};
ghost use Rattle.sv_world.specs.Limits.{most_clients};
ghost use Rattle.sv_scenario.specs.Limits.{IsGoodScenario};
ghost use Rattle.sv_gen.specs.Generated.{opening, world, plan, scenario, most_load, generated};

use crate::scripts::plan;
use std::alloc::{AllocError, Global};
use sv_lists::List;
use sv_scenario::{Plan, Scenario};
use sv_world::{MOST_BOUND, Shape, Value, World};

/// The greatest load.
pub const MOST_LOAD: u32 = 192;

fn opening(alloc: Global, object: u16) -> Result<Value, AllocError>
    ensures { IfOk result (λ v. v ≡ opening object) }
{
    let mut value = Value::new(alloc);
    value.push(100 + i64::from(object))?;
    value.push(0)?;
    Ok(value)
}

fn openings(alloc: Global, objects: u16) -> Result<Vec<Value>, AllocError>
    ensures { IfOk result (λ v. v.items ≡ map opening (below objects)) }
{
    let mut values = Vec::new(alloc);
    for object in 0..objects {
        values.push(opening(alloc, object)?)?;
    }
    Ok(values)
}

fn world(alloc: Global, objects: u16) -> Result<World, AllocError>
    ensures { IfOk result (λ w. w ≡ world objects) }
{
    Ok(World {
        shape: Shape { objects, attrs: 2 },
        values: List::from_vec(openings(alloc, objects)?),
    })
}

fn plans(alloc: Global, rounds: u16, clients: u16) -> Result<Vec<Plan>, AllocError>
    requires rounds { rounds ≤ 12 }
    requires clients { clients ≤ most_clients }
    ensures { IfOk result (λ v. v.items ≡ map (plan rounds) (below clients)) }
{
    let mut plans = Vec::new(alloc);
    for client in 0..clients {
        plans.push(plan(alloc, rounds, client)?)?;
    }
    Ok(plans)
}

#[tactic(auto, using(crate::proofs::Sizes::objects_fit))]
fn scenario(alloc: Global, pairs: u16, rounds: u16) -> Result<Scenario, AllocError>
    requires pairs { pairs ≤ 16 }
    requires rounds { rounds ≤ 12 }
    ensures { IfOk result (λ s. s ≡ scenario pairs rounds) }
{
    let world = world(alloc, 4 * (pairs * rounds))?;
    let clients = plans(alloc, rounds, 2 * pairs)?;
    Ok(Scenario {
        world,
        bound: MOST_BOUND,
        reach: None,
        clients: List::from_vec(clients),
        schedule: List::new(alloc),
    })
}

/// A scenario of load `n`, from 1 to 192.
///
/// It has `P = 1 + (n - 1) % 16` pairs of clients and `R = 1 + (n - 1) / 16` rounds. In each round the two clients of a pair each make
/// sixteen actions among four objects that no other pair touches; these move amounts of attribute 0 and count themselves on attribute
/// 1. The actions commute and no chain is over 31, so that the sums of a run are always the same.
#[tactic(auto, unfolding(crate::specs::Generated::generated))]
pub fn generate(alloc: Global, n: u32) -> Result<Scenario, AllocError>
    requires some { 1 ≤ n }
    requires most { n ≤ most_load }
    ensures ok { IfOk result (λ s. s ≡ generated n) }
    ensures good { IfOk result IsGoodScenario }
{
    let pairs = 1 + (n - 1) % 16;
    let rounds = 1 + (n - 1) / 16;
    scenario(alloc, pairs as u16, rounds as u16)
}
