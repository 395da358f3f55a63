//! Readers that wait before anything comes. A reader that nobody wakes is told within seconds.
ghost use Rattle.std.specs.Prelude.{◌≡◌, false};

use std::alloc::AllocError;
use std::process::Abort;
use std::rt::Clock;
use std::sync::Wait;
use std::sync::atomic::{AtomicBool, Ordering};
use std::test::Fail;
use std::thread;
use std::thread::Threads;
use std::time::Duration;
use sv_link::{End, EndRead, Net, Pair, PipeNet, TcpNet};

fn pause(rt: &impl Clock, millis: u64) {
    thread::sleep(rt, Duration::from_millis(millis));
}

/// How often it is looked whether a reader has its answer, ten milliseconds after one another.
const LOOKS: u32 = 1_000;

/// Stops the test where the mark is not set within ten seconds.
fn wait_for(rt: &(impl Clock + Abort), mark: &AtomicBool, what: Does) {
    for _ in 0..LOOKS {
        if mark.load(Ordering::SeqCst) {
            return;
        }
        pause(rt, 10);
    }
    panic!(rt; "the reader was not woken: {what:?}");
}

/// What the other side does while the reader waits.
#[derive(Clone, Copy, Debug)]
enum Does {
    Writes,
    Closes,
    Goes,
}

/// Acts. What is left of the end goes only when the reader has its answer.
fn act<E: End>(end: E, does: Does) -> Option<E>
    requires { (E.told end).closed ≡ false }
{
    let mut end = end;
    match does {
        Does::Writes => {
            let _ = end.write(&[7]);
            Some(end)
        }
        Does::Closes => {
            end.close();
            Some(end)
        }
        Does::Goes => None,
    }
}

/// What the reader is told that waits while the other side acts.
fn told<R: Threads + Wait + Clock + Abort + Sync, E: End + Send>(
    rt: &R,
    reader: E,
    other: E,
    does: Does,
) -> Result<EndRead, AllocError>
    requires open { ((E.told reader).closed ≡ false) × ((E.told other).closed ≡ false) }
{
    let mark = AtomicBool::new(false);
    let came = &mark;
    thread::scope(
        thread::scope_env(),
        rt,
        move |scope| -> Result<EndRead, AllocError>
            requires open { ((E.told reader).closed ≡ false) × ((E.told other).closed ≡ false) }
        {
            let reading = scope.spawn(
                move || -> EndRead
                    requires { (E.told reader).closed ≡ false }
                {
                    let mut end = reader;
                    let answer = end.read(&mut [0; 4]);
                    came.store(true, Ordering::SeqCst);
                    answer
                },
            )?;
            pause(rt, 50);
            let left = act(other, does);
            wait_for(rt, came, does);
            drop(left);
            Ok(reading.join(rt))
        },
    )
}

/// The server's end and then the client's waits, while the other writes, closes or goes.
fn all_are_woken<R: Threads + Wait + Clock + Abort + Sync, N: Net>(
    rt: &R,
    net: &mut N,
) -> Result<(), Fail> {
    let rows = [
        (Does::Writes, EndRead::Got(1)),
        (Does::Closes, EndRead::Ended),
        (Does::Goes, EndRead::Ended),
    ];
    for (does, answer) in rows {
        let Pair::Made(server, client) = net.pair() else {
            panic!(rt; "a pair is made");
        };
        assert!(rt; told(rt, server, client, does)? == answer, "{does:?}");
        let Pair::Made(server, client) = net.pair() else {
            panic!(rt; "a pair is made");
        };
        assert!(rt; told(rt, client, server, does)? == answer, "{does:?}");
    }
    Ok(())
}

#[test]
fn readers_of_pipes_are_woken(rt: HostRuntime) -> Result<(), Fail> {
    let mut net = PipeNet::new(rt.alloc(), &rt);
    all_are_woken(&rt, &mut net)
}

#[test]
fn readers_over_tcp_are_woken(rt: HostRuntime) -> Result<(), Fail> {
    let mut net = TcpNet::new(rt.alloc(), &rt);
    all_are_woken(&rt, &mut net)
}
