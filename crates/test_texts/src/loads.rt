//! Tests of the generated scenarios.
ghost use Rattle.std.specs.Prelude.{◌≤◌};

use std::alloc::Global;
use std::test::Fail;
use sv_gen::generate;
use sv_scenario::{Plan, Scenario, Step, read_scenario, sessions_of};

/// The scenario of load 1 as a file, with `'` for each `"`.
const LOAD_1: &str =
    "{'attrs':2,'objects':[[100,0],[101,0],[102,0],[103,0]],'bound':32,'clients':[{'interest':[0,1,2,3],'steps':[{'act':'reads 0 1 writes 0 1 { set @0.0 (@0.0 - 1); set @1.0 (@1.0 + 1); set @0.1 (@0.1 + 1); }'},{'act':'reads 1 2 writes 1 2 { set @1.0 (@1.0 - 2); set @2.0 (@2.0 + 2); set @1.1 (@1.1 + 1); }'},{'act':'reads 2 3 writes 2 3 { set @2.0 (@2.0 - 3); set @3.0 (@3.0 + 3); set @2.1 (@2.1 + 1); }'},{'act':'reads 0 3 writes 0 3 { set @3.0 (@3.0 - 1); set @0.0 (@0.0 + 1); set @3.1 (@3.1 + 1); }'},{'act':'reads 0 1 writes 0 1 { set @0.0 (@0.0 - 2); set @1.0 (@1.0 + 2); set @0.1 (@0.1 + 1); }'},{'act':'reads 1 2 writes 1 2 { set @1.0 (@1.0 - 3); set @2.0 (@2.0 + 3); set @1.1 (@1.1 + 1); }'},{'act':'reads 2 3 writes 2 3 { set @2.0 (@2.0 - 1); set @3.0 (@3.0 + 1); set @2.1 (@2.1 + 1); }'},{'act':'reads 0 3 writes 0 3 { set @3.0 (@3.0 - 2); set @0.0 (@0.0 + 2); set @3.1 (@3.1 + 1); }'},{'act':'reads 0 1 writes 0 1 { set @0.0 (@0.0 - 3); set @1.0 (@1.0 + 3); set @0.1 (@0.1 + 1); }'},{'act':'reads 1 2 writes 1 2 { set @1.0 (@1.0 - 1); set @2.0 (@2.0 + 1); set @1.1 (@1.1 + 1); }'},{'act':'reads 2 3 writes 2 3 { set @2.0 (@2.0 - 2); set @3.0 (@3.0 + 2); set @2.1 (@2.1 + 1); }'},{'act':'reads 0 3 writes 0 3 { set @3.0 (@3.0 - 3); set @0.0 (@0.0 + 3); set @3.1 (@3.1 + 1); }'},{'act':'reads 0 1 writes 0 1 { set @0.0 (@0.0 - 1); set @1.0 (@1.0 + 1); set @0.1 (@0.1 + 1); }'},{'act':'reads 1 2 writes 1 2 { set @1.0 (@1.0 - 2); set @2.0 (@2.0 + 2); set @1.1 (@1.1 + 1); }'},{'act':'reads 2 3 writes 2 3 { set @2.0 (@2.0 - 3); set @3.0 (@3.0 + 3); set @2.1 (@2.1 + 1); }'},{'act':'reads 0 3 writes 0 3 { set @3.0 (@3.0 - 1); set @0.0 (@0.0 + 1); set @3.1 (@3.1 + 1); }'},'sync']},{'interest':[0,1,2,3],'steps':[{'act':'reads 0 2 writes 0 2 { set @0.0 (@0.0 - 1); set @2.0 (@2.0 + 1); set @0.1 (@0.1 + 1); }'},{'act':'reads 1 3 writes 1 3 { set @1.0 (@1.0 - 2); set @3.0 (@3.0 + 2); set @1.1 (@1.1 + 1); }'},{'act':'reads 0 2 writes 0 2 { set @2.0 (@2.0 - 3); set @0.0 (@0.0 + 3); set @2.1 (@2.1 + 1); }'},{'act':'reads 1 3 writes 1 3 { set @3.0 (@3.0 - 1); set @1.0 (@1.0 + 1); set @3.1 (@3.1 + 1); }'},{'act':'reads 0 2 writes 0 2 { set @0.0 (@0.0 - 2); set @2.0 (@2.0 + 2); set @0.1 (@0.1 + 1); }'},{'act':'reads 1 3 writes 1 3 { set @1.0 (@1.0 - 3); set @3.0 (@3.0 + 3); set @1.1 (@1.1 + 1); }'},{'act':'reads 0 2 writes 0 2 { set @2.0 (@2.0 - 1); set @0.0 (@0.0 + 1); set @2.1 (@2.1 + 1); }'},{'act':'reads 1 3 writes 1 3 { set @3.0 (@3.0 - 2); set @1.0 (@1.0 + 2); set @3.1 (@3.1 + 1); }'},{'act':'reads 0 2 writes 0 2 { set @0.0 (@0.0 - 3); set @2.0 (@2.0 + 3); set @0.1 (@0.1 + 1); }'},{'act':'reads 1 3 writes 1 3 { set @1.0 (@1.0 - 1); set @3.0 (@3.0 + 1); set @1.1 (@1.1 + 1); }'},{'act':'reads 0 2 writes 0 2 { set @2.0 (@2.0 - 2); set @0.0 (@0.0 + 2); set @2.1 (@2.1 + 1); }'},{'act':'reads 1 3 writes 1 3 { set @3.0 (@3.0 - 3); set @1.0 (@1.0 + 3); set @3.1 (@3.1 + 1); }'},{'act':'reads 0 2 writes 0 2 { set @0.0 (@0.0 - 1); set @2.0 (@2.0 + 1); set @0.1 (@0.1 + 1); }'},{'act':'reads 1 3 writes 1 3 { set @1.0 (@1.0 - 2); set @3.0 (@3.0 + 2); set @1.1 (@1.1 + 1); }'},{'act':'reads 0 2 writes 0 2 { set @2.0 (@2.0 - 3); set @0.0 (@0.0 + 3); set @2.1 (@2.1 + 1); }'},{'act':'reads 1 3 writes 1 3 { set @3.0 (@3.0 - 1); set @1.0 (@1.0 + 1); set @3.1 (@3.1 + 1); }'},'sync']}]}";

/// The sum of an attribute over the opening world.
fn total(scenario: &Scenario, attr: usize) -> i128 {
    let mut sum = 0i128;
    for value in scenario.world.values.as_slice() {
        if let Some(number) = value.as_slice().get(attr) {
            sum = sum.saturating_add(i128::from(*number));
        }
    }
    sum
}

fn acts(plan: &Plan) -> u32 {
    let mut count = 0u32;
    for step in plan.steps.as_slice() {
        if matches!(step, Step::Act(_)) {
            count = count.saturating_add(1);
        }
    }
    count
}

fn all_acts(scenario: &Scenario) -> u32 {
    let mut count = 0u32;
    for plan in scenario.clients.as_slice() {
        count = count.saturating_add(acts(plan));
    }
    count
}

/// Whether each plan has so many steps and an interest of four objects.
fn have_steps(plans: &[Plan], steps: usize) -> bool {
    for plan in plans {
        if plan.steps.len() != steps || plan.interest.len() != 4 {
            return false;
        }
    }
    true
}

/// A load has so many clients, objects and acts, each client has so many steps, and attribute 0 adds up to so much.
fn has_sums(
    alloc: Global,
    n: u32,
    counts: (usize, usize, u32, usize),
    sum: i128,
) -> Result<bool, Fail>
    requires some { 1 ≤ n }
    requires most { n ≤ 192 }
{
    let scenario = generate(alloc, n)?;
    let (clients, objects, made, steps) = counts;
    let is_so = scenario.clients.len() == clients
        && sessions_of(&scenario) as usize == clients
        && scenario.world.values.len() == objects
        && all_acts(&scenario) == made
        && total(&scenario, 0) == sum
        && total(&scenario, 1) == 0
        && have_steps(scenario.clients.as_slice(), steps);
    drop(scenario);
    Ok(is_so)
}

#[test]
fn loads_have_the_stated_sums(rt: HostRuntime) -> Result<(), Fail> {
    assert!(rt; has_sums(rt.alloc(), 1, (2, 4, 32, 17), 406)?);
    assert!(rt; has_sums(rt.alloc(), 2, (4, 8, 64, 17), 828)?);
    assert!(rt; has_sums(rt.alloc(), 16, (32, 64, 512, 17), 8416)?);
    assert!(rt; has_sums(rt.alloc(), 17, (2, 8, 64, 34), 828)?);
    assert!(rt; has_sums(rt.alloc(), 192, (32, 768, 6144, 204), 371_328)?);
    Ok(())
}

fn quoted(alloc: Global, text: &str) -> Result<Vec<u8>, Fail> {
    let mut bytes = Vec::new(alloc);
    for byte in text.as_bytes() {
        bytes.push(if *byte == b'\'' { b'"' } else { *byte })?;
    }
    Ok(bytes)
}

fn read_as_text(alloc: Global, file: &str) -> Result<String, Fail> {
    let bytes = quoted(alloc, file)?;
    let read = read_scenario(alloc, &bytes).ok().ok_or("it is a scenario")?;
    let text = format!(in alloc; "{read:?}");
    drop(read);
    Ok(text?)
}

fn load_as_text(alloc: Global) -> Result<String, Fail> {
    let made = generate(alloc, 1)?;
    let text = format!(in alloc; "{made:?}");
    drop(made);
    Ok(text?)
}

#[test]
fn load_1_is_the_scenario_of_its_file(rt: HostRuntime) -> Result<(), Fail> {
    let read = read_as_text(rt.alloc(), LOAD_1)?;
    let made = load_as_text(rt.alloc())?;
    assert!(rt; made.as_str() == read.as_str());
    Ok(())
}
