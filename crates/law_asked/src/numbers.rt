//! That the numbers which a scenario holds are those of their types. They always are, but contracts know it only of a value that is read. So
//! these functions read all numbers, and do nothing else.
ghost use Rattle.std.specs.Prelude.{All};
ghost use Rattle.law_asked.specs.Numbers.{StepFits, PlanFits, ScenarioFits};

use sv_scenario::{Plan, Scenario, Step};
use sv_wire::{read_action, read_values};

fn read_step(step: &Step)
    ensures { StepFits step.now }
{
    if let Step::Act(action) = step {
        read_action(action);
    }
}

fn read_steps(steps: &[Step])
    ensures { All StepFits steps.now }
{
    for step in steps {
        read_step(step);
    }
}

fn read_plan(plan: &Plan)
    ensures { PlanFits plan.now }
{
    read_steps(plan.steps.as_slice());
}

fn read_plans(plans: &[Plan])
    ensures { All PlanFits plans.now }
{
    for plan in plans {
        read_plan(plan);
    }
}

/// The numbers of a scenario's values and actions are those of their types.
pub fn read_scenario_numbers(scenario: &Scenario)
    ensures { ScenarioFits scenario.now }
{
    read_values(scenario.world.values.as_slice());
    read_plans(scenario.clients.as_slice());
}
