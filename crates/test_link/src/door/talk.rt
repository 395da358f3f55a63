//! What a server and a client do at their doors: each makes an end, says a byte, hears one, and gives the end back.
ghost use Rattle.std.specs.Prelude.{◌≡◌, false};

use std::alloc::AllocError;
use std::process::Abort;
use std::rt::Clock;
use std::sync::Wait;
use std::sync::atomic::{AtomicBool, Ordering};
use std::thread;
use std::thread::Threads;
use std::time::Duration;
use sv_door::{Door, EndMade};
use sv_link::{End, EndRead, EndWrote};

/// The byte that comes, if one does.
pub(crate) fn hears<E: End>(end: &mut E) -> Option<u8>
    requires open { (E.told end.old).closed ≡ false }
    ensures pair { (E.told end.new).pair ≡ (E.told end.old).pair }
    ensures open { (E.told end.new).closed ≡ false }
{
    let mut into = [0];
    match end.read(&mut into) {
        EndRead::Got(_) => Some(into[0]),
        EndRead::Ended => None,
        EndRead::Failed => None,
        EndRead::Memory => None,
    }
}

/// Whether the byte was taken.
pub(crate) fn says<E: End>(end: &mut E, byte: u8) -> bool
    requires open { (E.told end.old).closed ≡ false }
    ensures pair { (E.told end.new).pair ≡ (E.told end.old).pair }
    ensures open { (E.told end.new).closed ≡ false }
{
    match end.write(&[byte]) {
        EndWrote::Took(_) => true,
        EndWrote::Failed => false,
        EndWrote::Memory => false,
    }
}

/// What a server hears that then says a byte, or, where it has none, closes its end while the client waits.
fn serves<D: Door>(rt: &impl Clock, door: &mut D, port: u16, byte: Option<u8>) -> Option<u8> {
    let EndMade::End(mut end) = door.accept(port) else {
        return None;
    };
    let heard = hears(&mut end);
    match byte {
        Some(byte) => {
            let _ = says(&mut end, byte);
        }
        None => waits(rt, 50),
    }
    door.give_back(end);
    heard
}

/// What a client hears that first says a byte.
fn visits<D: Door>(door: &mut D, port: u16, byte: u8) -> Option<u8> {
    let EndMade::End(mut end) = door.connect(port) else {
        return None;
    };
    let _ = says(&mut end, byte);
    let heard = hears(&mut end);
    door.give_back(end);
    heard
}

fn waits(rt: &impl Clock, millis: u64) {
    thread::sleep(rt, Duration::from_millis(millis));
}

/// How long a server and a client wait before they come to their doors.
#[derive(Clone, Copy)]
pub(crate) struct Delays {
    pub(crate) server: u64,
    pub(crate) client: u64,
}

/// How often it is looked whether two threads are done, ten milliseconds after one another.
const LOOKS: u32 = 1_000;

/// Stops the test where the marks are not both set within ten seconds.
fn wait_for(rt: &(impl Clock + Abort), marks: [&AtomicBool; 2]) {
    for _ in 0..LOOKS {
        if marks[0].load(Ordering::SeqCst) && marks[1].load(Ordering::SeqCst) {
            return;
        }
        waits(rt, 10);
    }
    panic!(rt; "a server or a client was not woken");
}

/// Whether a server and a client, each on a thread of its own, meet three times and hear each other, and at last that the server closes.
pub(crate) fn meet_thrice<R: Threads + Wait + Clock + Abort + Sync, D: Door + Send + Drop>(
    rt: &R,
    server: D,
    client: D,
    port: u16,
    delays: Delays,
) -> Result<bool, AllocError> {
    let marks = [AtomicBool::new(false), AtomicBool::new(false)];
    let (at_server, at_client) = (&marks[0], &marks[1]);
    thread::scope(thread::scope_env(), rt, move |scope| {
        let serving = scope.spawn(move || {
            let mut door = server;
            waits(rt, delays.server);
            let heard = [
                serves(rt, &mut door, port, Some(11)),
                serves(rt, &mut door, port, Some(12)),
                serves(rt, &mut door, port, None),
            ];
            at_server.store(true, Ordering::SeqCst);
            heard
        })?;
        let visiting = scope.spawn(move || {
            let mut door = client;
            waits(rt, delays.client);
            let heard = [
                visits(&mut door, port, 1),
                visits(&mut door, port, 2),
                visits(&mut door, port, 3),
            ];
            at_client.store(true, Ordering::SeqCst);
            heard
        })?;
        wait_for(rt, [at_server, at_client]);
        let served = serving.join(rt);
        let visited = visiting.join(rt);
        Ok(served == [Some(1), Some(2), Some(3)] && visited == [Some(11), Some(12), None])
    })
}
