//! A sequencer that callers share through a lock.
ghost use Rattle.std.specs.Prelude.{◌≡◌, ◌<◌, [], IsSome, Some};
ghost use Rattle.sv_journal.specs.Answer.{MayBeSession};
ghost use Rattle.sv_lock.specs.Passes.{session_number};

use super::opened;
use super::rows::BOUND_1;
use std::alloc::Global;
use std::sync::Wait;
use std::test::Fail;
use sv_lock::{Pass, SeqLock};
use sv_sequencer::Sequencer;
use sv_wire::Request;
use test_asked::{Asked, asked_in, check_lines, locked};

/// One request that is no End. It tells whether it was answered.
pub fn call<R: Wait>(
    rt: &R,
    lock: &SeqLock<Sequencer>,
    pass: &mut Pass<Sequencer>,
    request: Request,
) -> bool
    requires lock { pass.old.lock ≡ lock.now.id }
    requires session { IsSome pass.old.session }
    requires number { MayBeSession pass.old.base.sessions (session_number pass.old) }
    ensures same { (pass.new.lock ≡ pass.old.lock) × (pass.new.session ≡ pass.old.session) × (pass.new.base ≡ pass.old.base) }
{
    if let Request::End = request {
        drop(request);
        return false;
    }
    lock.call(rt, pass, request).is_ok()
}

/// What lines of one session ask, by its pass.
fn call_all<R: Wait>(
    rt: &R,
    alloc: Global,
    lock: &SeqLock<Sequencer>,
    pass: &mut Pass<Sequencer>,
    lines: &str,
) -> Result<(), Fail>
    requires lock { pass.old.lock ≡ lock.now.id }
    requires session { IsSome pass.old.session }
    requires number { MayBeSession pass.old.base.sessions (session_number pass.old) }
    ensures same { (pass.new.lock ≡ pass.old.lock) × (pass.new.session ≡ pass.old.session) × (pass.new.base ≡ pass.old.base) }
{
    for line in lines.lines() {
        let Asked { request, .. } = asked_in(alloc, line)?;
        call(rt, lock, pass, request);
    }
    Ok(())
}

fn through_a_pass<R: Wait>(
    rt: &R,
    alloc: Global,
    sequencer: Sequencer,
    lines: &str,
) -> Result<Sequencer, Fail>
    requires sessions { sequencer.rules.sessions ≡ Some 4 }
    requires empty { sequencer.journal.entries ≡ [] }
{
    let (lock, mut keeper) = locked(alloc, sequencer)?;
    let mut pass = lock.split(&mut keeper);
    let answer = call_all(rt, alloc, &lock, &mut pass, lines);
    lock.join(&mut keeper, pass);
    let sequencer = lock.close(keeper);
    match answer {
        Ok(()) => Ok(sequencer),
        Err(fail) => {
            drop(sequencer);
            Err(fail)
        }
    }
}

#[test]
fn bound_1_through_a_pass(rt: HostRuntime) -> Result<(), Fail> {
    let sequencer = opened(rt.alloc(), &[0], 1, None)?;
    let sequencer = through_a_pass(&rt, rt.alloc(), sequencer, BOUND_1)?;
    let told = check_lines(rt.alloc(), sequencer.journal(), 1, 0, BOUND_1);
    drop(sequencer);
    told
}
