//! The server that the players meet at, and all threads.
ghost use Rattle.sv_scenario.specs.Limits.{IsGoodScenario};

use crate::fault::Fault;
use crate::game::{WORLD, play};
use std::alloc::Global;
use std::rt::Clock;
use std::sync::Wait;
use std::thread;
use std::thread::{Scope, Threads};
use sv_door::Door;
use sv_link::{OpenGate, ThreadCrew};
use sv_scenario::{Scenario, read_scenario};
use sv_serve::serve_scenario;

/// Serves a world to whoever comes to the port, until both sessions are over. The journal that is given back is let go.
fn host<D: Door, R: Threads + Wait + Sync>(
    rt: &R,
    alloc: Global,
    scenario: &Scenario,
    port: u16,
    hall: &mut D,
) -> Result<(), Fault>
    requires { IsGoodScenario scenario.now }
{
    let mut crew = ThreadCrew::new(alloc);
    match serve_scenario(rt, alloc, scenario, port, hall, &mut crew, &OpenGate) {
        Ok(sequencer) => {
            drop(sequencer);
            Ok(())
        }
        Err(_) => Err(Fault::Server),
    }
}

/// Serves the world of the game.
fn serve<D: Door, R: Threads + Wait + Sync>(
    rt: &R,
    alloc: Global,
    port: u16,
    hall: &mut D,
) -> Result<(), Fault> {
    match read_scenario(alloc, WORLD.as_bytes()) {
        Ok(scenario) => {
            let served = host(rt, alloc, &scenario, port, hall);
            drop(scenario);
            served
        }
        Err(fault) => {
            drop(fault);
            Err(Fault::Server)
        }
    }
}

/// What both players saw, one after the other.
fn joined(ann: String, bob: &str) -> Result<String, Fault> {
    let mut text = ann;
    text.push_str(bob)?;
    Ok(text)
}

/// Where connections come from: for the server, and for each player.
#[derive(Drop)]
pub struct Doors<D> {
    pub hall: D,
    pub ann: D,
    pub bob: D,
}

/// Serves the world, and has both players play. What they saw, one after the other.
pub fn meet<D: Door + Send + Drop, R: Threads + Wait + Clock + Sync>(
    rt: &R,
    alloc: Global,
    port: u16,
    doors: Doors<D>,
) -> Result<String, Fault> {
    thread::scope(
        thread::scope_env(),
        rt,
        move |scope| -> Result<String, Fault> { meet_in(scope, rt, alloc, port, doors) },
    )
}

fn meet_in<'s, E: 's, D: Door + Send + Drop + 's, R: Threads + Wait + Clock + Sync>(
    scope: &'s Scope<'s, E>,
    rt: &'s R,
    alloc: Global,
    port: u16,
    doors: Doors<D>,
) -> Result<String, Fault> {
    let Doors { hall, ann, bob } = doors;
    let Ok(first) = scope.spawn(move || play(rt, alloc, port, 0, ann)) else {
        return Err(Fault::Start);
    };
    let Ok(second) = scope.spawn(move || play(rt, alloc, port, 1, bob)) else {
        return Err(Fault::Start);
    };
    let mut hall = hall;
    let served = serve(rt, alloc, port, &mut hall);
    let ann = first.join(rt);
    let bob = second.join(rt);
    served?;
    joined(ann?, bob?.as_str())
}
