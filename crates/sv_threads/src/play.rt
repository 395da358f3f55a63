//! A scenario's run on threads.
ghost use Rattle.std.specs.Prelude.{◌≡◌, ◌≢◌, ◌+◌, ◌≤◌, reverse, length, is_some, IfOk, IfSome, IsOk, Err};
ghost use Rattle.std.specs.List.{flat_map};
ghost use Rattle.sv_scenario.specs.Limits.{IsGoodScenario};
ghost use Rattle.sv_scenario.specs.Sessions.{session_count};
ghost use Rattle.sv_player.specs.Played.{lines_told};
ghost use Rattle.sv_threads.specs.Given.{keeper_after};
ghost use Rattle.sv_threads.specs.Pairs.{pairing, LeavesPairs, SomeDiffered};
ghost use Rattle.sv_threads.specs.Playing.{IsThreadedRun, TookAllIn, PlayCause, RunsOnce};

use crate::gathering::{RunRemains, gather, take_back};
use crate::opening::RunShared;
use crate::outcome::{PlayFault, PlayedAll};
use crate::settling::{settle_after, settle_all};
use crate::tasks::{Silence, Teller};
use law_asked::read_scenario_numbers;
use law_traffic::threaded_runs_leave_records;
use std::alloc::{AllocError, Global};
use std::sync::Wait;
use std::thread::Threads;
use sv_link::{Crew, Gate, Net, Ran};
use sv_lists::List;
use sv_lock::{Pass, SeqLock};
use sv_scenario::{Scenario, sessions_of};
use sv_sequencer::Sequencer;
use sv_watch::{Line, Watch};

/// Runs a scenario on threads: one job for each session, over the locked sequencer, and one for each client.
///
/// Each session has a pair of ends and a pass, made in the order of the sessions' numbers. Once all jobs are done, the keeper takes all passes
/// in, and all pairs are settled; so they are too where the run could not begin, but where a thread could not be started. Then the answer is
/// Start; where a pair can't be made or does not match it is Link, and else where anything had no memory it is Memory. Where a watch is given, it makes the line of each change of a client's view; else
/// there are no lines.
pub fn play_all<N: Net, C: Crew, G: Gate + Sync, R: Threads + Wait + Sync>(
    rt: &R,
    alloc: Global,
    scenario: &Scenario,
    lock: &SeqLock<Sequencer>,
    keeper: &mut Pass<Sequencer>,
    net: &mut N,
    crew: &mut C,
    gate: &G,
    watch: Option<&Watch>,
) -> Result<PlayedAll, PlayFault>
    requires good { IsGoodScenario scenario.now }
    requires passes { lock.now.passes ≡ session_count scenario.now }
    requires keeper { keeper.old ≡ keeper_after 0 lock.now scenario.now }
    requires watch { IfSome watch (λ w. w.now.shape ≡ scenario.now.world.shape) }
    ensures run { IfOk result (λ p. IsThreadedRun scenario.now (reverse keeper.new.seen) p.traces (N.settled net.old) (N.settled net.new) (C.ran crew.old) (C.ran crew.new)) }
    ensures lines { IfOk result (λ p. p.lines.items ≡ flat_map (lines_told (is_some watch.entry)) p.traces) }
    ensures keeper { IfOk result (λ p. TookAllIn scenario.now keeper.old keeper.new) }
    ensures cause { PlayCause (C.faults crew.old) (C.faults crew.new) (N.faults net.old) (N.faults net.new) result }
    ensures calm { N.calm net.old → N.calm net.new }
    ensures made { IfOk result (λ _. N.made net.new ≡ N.made net.old + session_count scenario.now) }
    ensures pairs { LeavesPairs (pairing (N.settled net.old) (N.unmatched net.old) (N.made net.old) (N.owed net.old)) (pairing (N.settled net.new) (N.unmatched net.new) (N.made net.new) (N.owed net.new)) result }
    ensures most { N.made net.new ≤ N.made net.old + session_count scenario.now }
    ensures ran { RunsOnce (session_count scenario.now + length scenario.now.clients) (C.ran crew.old) (C.ran crew.new) result }
    ensures certain { N.calm net.old → result ≡ Err PlayFault.Link → SomeDiffered (pairing (N.settled net.old) (N.unmatched net.old) (N.made net.old) (N.owed net.old)) (pairing (N.settled net.new) (N.unmatched net.new) (N.made net.new) (N.owed net.new)) }
{
    match watch {
        Some(watch) => RunShared {
            alloc,
            scenario,
            lock,
            gate,
            teller: watch,
        }
        .play(rt, keeper, net, crew),
        None => RunShared {
            alloc,
            scenario,
            lock,
            gate,
            teller: &Silence {
                shape: scenario.world.shape,
            },
        }
        .play(rt, keeper, net, crew),
    }
}

impl<'a, G: Gate + Sync, W: Teller + Sync> RunShared<'a, G, W> {
    /// The run, with whatever tells the changes.
    fn play<N: Net, C: Crew, R: Threads + Wait + Sync>(
        &self,
        rt: &R,
        keeper: &mut Pass<Sequencer>,
        net: &mut N,
        crew: &mut C,
    ) -> Result<PlayedAll, PlayFault>
        requires good { IsGoodScenario self.now.scenario.now }
        requires passes { self.now.lock.now.passes ≡ session_count self.now.scenario.now }
        requires keeper { keeper.old ≡ keeper_after 0 self.now.lock.now self.now.scenario.now }
        requires teller { (W.telling self.now.teller.now).shape ≡ self.now.scenario.now.world.shape }
        ensures run { IfOk result (λ p. IsThreadedRun self.now.scenario.now (reverse keeper.new.seen) p.traces (N.settled net.old) (N.settled net.new) (C.ran crew.old) (C.ran crew.new)) }
        ensures lines { IfOk result (λ p. p.lines.items ≡ flat_map (lines_told (W.telling self.now.teller.now).watched) p.traces) }
        ensures keeper { IfOk result (λ p. TookAllIn self.now.scenario.now keeper.old keeper.new) }
        ensures cause { PlayCause (C.faults crew.old) (C.faults crew.new) (N.faults net.old) (N.faults net.new) result }
        ensures calm { N.calm net.old → N.calm net.new }
        ensures made { IfOk result (λ _. N.made net.new ≡ N.made net.old + session_count self.now.scenario.now) }
        ensures pairs { LeavesPairs (pairing (N.settled net.old) (N.unmatched net.old) (N.made net.old) (N.owed net.old)) (pairing (N.settled net.new) (N.unmatched net.new) (N.made net.new) (N.owed net.new)) result }
        ensures most { N.made net.new ≤ N.made net.old + session_count self.now.scenario.now }
        ensures ran { RunsOnce (session_count self.now.scenario.now + length self.now.scenario.now.clients) (C.ran crew.old) (C.ran crew.new) result }
        ensures certain { N.calm net.old → result ≡ Err PlayFault.Link → SomeDiffered (pairing (N.settled net.old) (N.unmatched net.old) (N.made net.old) (N.owed net.old)) (pairing (N.settled net.new) (N.unmatched net.new) (N.made net.new) (N.owed net.new)) }
    {
        read_scenario_numbers(self.scenario);
        threaded_runs_leave_records();
        let mut left = RunRemains::new(
            self.alloc,
            sessions_of(self.scenario),
            self.scenario.clients.len(),
        )?;
        let tasks = match self.open(net, keeper, &mut left) {
            Ok(tasks) => tasks,
            Err(fault) => return Err(settle_after(net, left, fault)),
        };
        let outs = match crew.run_all(rt, tasks) {
            Ran::Done(outs) => outs,
            Ran::Failed => return Err(PlayFault::Start),
            Ran::Memory(tasks) => {
                take_back(tasks, &mut left);
                return Err(settle_after(net, left, PlayFault::Memory));
            }
        };
        gather(self.lock, keeper, outs, &mut left);
        let RunRemains {
            servers,
            clients,
            traces,
            lines,
            lacked,
        } = left;
        if !settle_all(net, servers, clients) {
            return Err(PlayFault::Link);
        }
        if lacked {
            return Err(PlayFault::Memory);
        }
        Ok(PlayedAll {
            traces: List::from_vec(traces),
            lines: all_lines(self.alloc, lines)?,
        })
    }
}

/// The lines of all clients, one after the other.
fn all_lines(alloc: Global, lines: Vec<Vec<Line>>) -> Result<Vec<Line>, AllocError>
    ensures { IfOk result (λ all. all.items ≡ flat_map (λ v. v.items) lines.items) }
{
    let mut all = Vec::new(alloc);
    for own in lines {
        for line in own {
            all.push(line)?;
        }
    }
    Ok(all)
}
