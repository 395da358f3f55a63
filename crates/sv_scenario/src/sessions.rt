//! How many sessions a scenario has.

ghost use Rattle.std.specs.Prelude.{◌≡◌, ◌≤◌, ◌^◌, nat_le, length};
ghost use Rattle.sv_world.specs.Limits.{most_sessions};
ghost use Rattle.sv_scenario.specs.Limits.{IsGoodScenario};
ghost use Rattle.sv_scenario.specs.Sessions.{cuts_by, cuts_in, sessions_of_plan, sessions_in, session_count};

use crate::{Plan, Scenario, Step};
use sv_world::MOST_SESSIONS;

fn cuts_by(step: &Step) -> usize
    ensures { result ≡ cuts_by step.now }
{
    match step {
        Step::Cut => 1,
        Step::Act(_) | Step::Poll | Step::Observe(_) | Step::Sync | Step::Show(_) | Step::Quit => 0,
    }
}

#[tactic(auto, using(crate::proofs::Sums::cuts_in_le))]
fn cuts_in(steps: &[Step]) -> usize
    ensures count { result ≡ cuts_in steps.now }
    ensures few { result ≤ length steps.now }
{
    let mut count = 0;
    for step in steps {
        count += cuts_by(step);
    }
    count
}

/// How many sessions a client has: one, and one more for each cut.
pub fn sessions_of_plan(plan: &Plan) -> usize
    ensures count { result ≡ sessions_of_plan plan.now }
    ensures few { result ≤ 2 ^ 63 }
{
    1 + cuts_in(plan.steps.as_slice())
}

/// Whether these clients have at most 64 sessions together.
pub(crate) fn has_few_sessions(plans: &[Plan]) -> bool
    ensures { result ≡ nat_le (sessions_in plans.now) most_sessions }
{
    let mut count = 0;
    for plan in plans {
        count += sessions_of_plan(plan);
        if count > MOST_SESSIONS as usize {
            return false;
        }
    }
    true
}

/// How many sessions these clients have together.
pub(crate) fn sessions_in(plans: &[Plan]) -> u16
    requires { sessions_in plans.now ≤ most_sessions }
    ensures { result ≡ sessions_in plans.now }
{
    let mut count = 0;
    for plan in plans {
        count += sessions_of_plan(plan) as u16;
    }
    count
}

/// How many sessions a scenario's run has, 1 to 64: one for each client, and one more for each cut. It takes no memory.
pub fn sessions_of(scenario: &Scenario) -> u16
    requires { IsGoodScenario scenario.now }
    ensures { result ≡ session_count scenario.now }
{
    sessions_in(scenario.clients.as_slice())
}
