//! Jobs on threads, which talk over a pipe and meet at a gate.
ghost use Rattle.std.specs.Prelude.{◌≡◌, false};

use std::alloc::Global;
use std::process::Abort;
use std::sync::Wait;
use std::test::Fail;
use std::thread::Threads;
use sv_link::{
    Crew, End, EndRead, EndWrote, FewCrew, Gate, HoldGate, Job, Net, OpenGate, Pair, PipeEnd,
    PipeNet, Ran, ThreadCrew,
};

/// Says one byte, and hears one.
#[derive(Drop)]
struct Talk<'g, E: End, G: Gate> {
    end: E,
    gate: &'g G,
    session: u16,
    says: u8,
}

impl<'g, E: End + Send, G: Gate + Sync> Job for Talk<'g, E, G> {
    ghost use Rattle.std.specs.Prelude.{◌≡◌, false};

    type Out = Option<u8>;

    ghost ready = { λ job. (E.told job.end).closed ≡ false };

    ghost keeps = { λ _ _. Unit {0} };

    fn run<R: Threads + Wait + Sync>(self, _rt: &R) -> Option<u8> {
        let mut end = self.end;
        self.gate.pass(self.session, 1);
        if end.write(&[self.says]) != EndWrote::Took(1) {
            return None;
        }
        let mut heard = [0];
        match end.read(&mut heard) {
            EndRead::Got(_) => Some(heard[0]),
            _ => None,
        }
    }
}

/// Two threads talk. What the first of them heard, and the second.
fn two_talk<'r, R: Threads + Wait + Abort + Sync, C: Crew, G: Gate + Sync>(
    rt: &'r R,
    alloc: Global,
    crew: &mut C,
    gate: &'r G,
) -> Result<Ran<Option<u8>, Talk<'r, PipeEnd<'r, R>, G>>, Fail> {
    let mut net = PipeNet::new(alloc, rt);
    let Pair::Made(server, client) = net.pair() else {
        panic!(rt; "a pair is made");
    };
    let first = Talk {
        end: server,
        gate,
        session: 0,
        says: 7,
    };
    let second = Talk {
        end: client,
        gate,
        session: 1,
        says: 8,
    };
    let jobs = vec![in alloc; first, second]?;
    Ok(crew.run_all(rt, jobs))
}

#[test]
fn runs_two_jobs_at_once(rt: HostRuntime) -> Result<(), Fail> {
    let gate = HoldGate::new(0, 1, 1, 1);
    let mut crew = ThreadCrew::new(rt.alloc());
    let Ran::Done(heard) = two_talk(&rt, rt.alloc(), &mut crew, &gate)? else {
        panic!(&rt; "both run");
    };
    assert!(rt; heard.as_slice() == [Some(8), Some(7)].as_slice());
    assert!(rt; gate.met());
    assert!(rt; !gate.gave_up());
    Ok(())
}

#[test]
fn refuses_a_start(rt: HostRuntime) -> Result<(), Fail> {
    for place in 0..2 {
        let mut crew = FewCrew::new(rt.alloc(), place);
        let ran = two_talk(&rt, rt.alloc(), &mut crew, &OpenGate)?;
        assert!(rt; matches!(ran, Ran::Failed), "{place}");
    }
    let mut crew = FewCrew::new(rt.alloc(), 2);
    let ran = two_talk(&rt, rt.alloc(), &mut crew, &OpenGate)?;
    assert!(rt; matches!(ran, Ran::Done(_)));
    Ok(())
}
