//! Calls of the client, beside a server that sends what it is told to.
use std::alloc::{AllocError, Global};
use std::sync::Wait;
use std::thread;
use std::thread::Threads;
use sv_door::{Door, EndMade, PipeDoor};
use sv_join::run_join;
use sv_link::{End, send_all};
use test_calls::examples::FIRST;
use test_calls::{Printed, held, words};

pub const PORT: u16 = 7000;

/// The client's answer to a line of words, where the file `a` has the first example.
pub fn called<D: Door>(alloc: Global, line: &str, door: &mut D) -> Result<Printed, AllocError> {
    let words = words(alloc, line)?;
    let mut files = held(alloc, FIRST)?;
    let mut printed = Printed::nothing(alloc)?;
    printed.status = run_join(
        alloc,
        &words,
        &mut files,
        door,
        &mut printed.out,
        &mut printed.err,
    );
    Ok(printed)
}

/// Takes a client in, sends it these bytes and closes.
fn serves<D: Door>(door: &mut D, bytes: &[u8]) {
    let EndMade::End(mut end) = door.accept(PORT) else {
        return;
    };
    send_all(&mut end, bytes);
    end.close();
    door.give_back(end);
}

/// The client's answer to `join a 0 7000`, where the server sends these bytes and closes.
pub fn answered<R: Threads + Wait + Sync>(
    rt: &R,
    alloc: Global,
    bytes: &[u8],
) -> Result<Printed, AllocError> {
    let server = PipeDoor::new(alloc, rt, PORT)?;
    let client = server.another()?;
    thread::scope(thread::scope_env(), rt, move |scope| {
        let serving = scope.spawn(move || {
            let mut door = server;
            serves(&mut door, bytes)
        })?;
        let mut door = client;
        let printed = called(alloc, "join a 0 7000", &mut door);
        serving.join(rt);
        printed
    })
}
