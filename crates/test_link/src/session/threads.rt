//! Two sessions at once, whose second and third requests wait for each other.
ghost use Rattle.std.specs.Prelude.{◌≡◌, false, Some, IfOk};
ghost use Rattle.sv_session.specs.Serving.{MayServe};

use crate::session::frames::*;
use crate::session::opening::opened;
use std::alloc::Global;
use std::net::{Net as Sockets, TcpListener, TcpStream};
use std::sync::Wait;
use std::test::Fail;
use std::thread;
use std::thread::Threads;
use sv_link::{End, HoldGate, Net, Pair, PipeNet, Sent, TcpNet, send_all};
use sv_lock::{Pass, SeqLock};
use sv_sequencer::Sequencer;
use sv_session::{SessionOut, serve_session};
use test_calls::frames::joined;

/// A pair whose client's end was written these bytes.
fn written<N: Net>(net: &mut N, bytes: &[u8]) -> Result<(N::E, N::E), Fail>
    ensures { IfOk result (λ ends. (N.E.told ends.0).closed ≡ false) }
{
    let Pair::Made(server, mut client) = net.pair() else {
        return Err(Fail::new("no pair"));
    };
    match send_all(&mut client, bytes) {
        Sent::Whole => Ok((server, client)),
        Sent::Failed | Sent::Memory => Err(Fail::new("the client can't write")),
    }
}

/// Serves two sessions on two threads.
fn serve_two<R: Threads + Wait + Sync, E: End + Send>(
    rt: &R,
    alloc: Global,
    gate: &HoldGate,
    ends: (E, E),
) -> Result<(SessionOut, SessionOut), Fail>
    requires { ((E.told ends.0).closed ≡ false) × ((E.told ends.1).closed ≡ false) }
{
    let sequencer = opened(alloc)?;
    let (lock, mut keeper) = match SeqLock::new(alloc, sequencer, 2) {
        Ok(made) => made,
        Err((_, error)) => return Err(Fail::from(error)),
    };
    let mut first = lock.split(&mut keeper);
    let mut second = lock.split(&mut keeper);
    let shared = &lock;
    let (mut one, mut two) = ends;
    let ((first, left), (second, right)) = thread::join(
        rt,
        move || -> (Pass<Sequencer>, SessionOut)
            requires { MayServe shared.now first × (first.session ≡ Some 0) × ((E.told one).closed ≡ false) }
            ensures { (result.0.lock ≡ shared.entry.now.id) × (result.0.session ≡ Some 0) }
        {
            let out = serve_session(rt, alloc, shared, &mut first, &mut one, gate);
            (first, out)
        },
        move || -> (Pass<Sequencer>, SessionOut)
            requires { MayServe shared.now second × (second.session ≡ Some 1) × ((E.told two).closed ≡ false) }
            ensures { (result.0.lock ≡ shared.entry.now.id) × (result.0.session ≡ Some 1) }
        {
            let out = serve_session(rt, alloc, shared, &mut second, &mut two, gate);
            (second, out)
        },
    );
    lock.join(&mut keeper, first);
    lock.join(&mut keeper, second);
    let _sequencer = lock.close(keeper);
    Ok((left, right))
}

/// Both clients join, submit, poll and leave. Both sessions answer Left, and the requests met.
fn check_two<R: Threads + Wait + Sync, N: Net>(
    rt: &R,
    alloc: Global,
    net: &mut N,
) -> Result<(), Fail> {
    let asked = joined(alloc, &[JOIN_0, SUBMIT_INC_0, POLL, LEAVE])?;
    let (one, _client) = written(net, &asked)?;
    let asked = joined(alloc, &[JOIN_1, SUBMIT_INC_1, POLL, LEAVE])?;
    let (two, _other) = written(net, &asked)?;
    let gate = HoldGate::new(0, 2, 1, 3);
    let outs = serve_two(rt, alloc, &gate, (one, two))?;
    if outs != (SessionOut::Left, SessionOut::Left) {
        return Err(Fail::new("a session did not leave"));
    }
    if !gate.met() || gate.gave_up() {
        return Err(Fail::new("the requests did not meet"));
    }
    Ok(())
}

#[test]
fn two_sessions_run_at_once(rt: HostRuntime) -> Result<(), Fail> {
    let mut net = PipeNet::new(rt.alloc(), &rt);
    check_two(&rt, rt.alloc(), &mut net)
}

/// The same over sockets.
fn check_sockets<R>(rt: &R, alloc: Global) -> Result<(), Fail>
where
    R: Threads + Wait + Sync + Sockets<Listener = TcpListener, Stream = TcpStream>,
{
    let mut net = TcpNet::new(alloc, rt);
    check_two(rt, alloc, &mut net)
}

#[test]
fn two_sessions_run_over_sockets(rt: HostRuntime) -> Result<(), Fail> {
    check_sockets(&rt, rt.alloc())
}
