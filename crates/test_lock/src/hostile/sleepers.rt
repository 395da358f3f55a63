//! Two threads that call one object in turn, each of them while the other has it.
ghost use Rattle.std.specs.Prelude.{◌≡◌, ℕ, List, [], ◌∷◌, ◌++◌, Some, None, IsSome, All, refl, ⊤};
ghost use Rattle.sv_lock.specs.Passes.{session_number};

use std::alloc::{AllocError, Global};
use std::sync::atomic::{AtomicU64, Ordering};
use std::sync::{Arc, Wait};
use std::test::Fail;
use std::thread::Threads;
use std::{hint, thread};
use sv_lock::{Object, Pass, SeqLock};

/// So many calls each of the two threads makes.
const CALLS: u64 = 4;

/// How often a thread looks for the other before it gives up.
const LOOKS: u32 = 20_000_000;

/// How long a step goes on once the other thread is about to call: longer than it looks before it sleeps.
const PAUSE: u32 = 2_000;

/// Where the two threads are. Steps and calls are counted over both, from 1.
#[derive(Drop)]
pub struct Places {
    stepping: AtomicU64,
    calling: AtomicU64,
    gave_up: AtomicU64,
}

impl Places {
    fn new() -> Places {
        Places {
            stepping: AtomicU64::new(0),
            calling: AtomicU64::new(0),
            gave_up: AtomicU64::new(0),
        }
    }

    /// Waits until so many were counted.
    fn wait_for(&self, count: &AtomicU64, least: u64) {
        for _ in 0..LOOKS {
            if count.load(Ordering::SeqCst) >= least {
                return;
            }
            thread::yield_now();
        }
        self.gave_up.store(1, Ordering::SeqCst);
    }

    /// The step of this number: it ends a while after the next call was begun.
    fn step(&self, number: u64) {
        self.stepping.store(number, Ordering::SeqCst);
        self.wait_for(
            &self.calling,
            number.saturating_add(1).min(CALLS.wrapping_mul(2)),
        );
        for _ in 0..PAUSE {
            hint::spin_loop();
            thread::yield_now();
        }
    }

    /// The call of this number is begun while the step before it goes on.
    fn call(&self, number: u64) {
        self.wait_for(&self.stepping, number.saturating_sub(1));
        self.calling.store(number, Ordering::SeqCst);
    }
}

/// Lists whose steps were made.
#[derive(Drop)]
pub struct Steps {
    places: Arc<Places>,
    made: Vec<u16>,
}

impl Object for Steps {
    type Request = ();

    type Reply = ();

    type Entry = u16;

    type Base = u8;

    ghost base = { λ s. 0 };

    ghost history = { λ s. s.made.items };

    ghost lawful = { λ base history. ⊤ };

    ghost entry = { λ number request reply. number };

    ghost number_of = { λ e. e };

    ghost whole = { λ reply history. ⊤ };

    ghost can_step = { λ base number request mine. ⊤ };

    ghost is_plain = { λ request. ⊥ };

    ghost number_of_entry = { λ number request reply. refl };

    fn step(&mut self, number: u16, _request: ()) -> Result<(), AllocError> {
        self.made.push(number)?;
        self.places.step(self.made.len() as u64);
        Ok(())
    }

    fn certify(&self) {}
}

/// Makes every second call, from this one on.
fn call_in_turn<R: Wait>(
    rt: &R,
    lock: &SeqLock<Steps>,
    mut pass: Pass<Steps>,
    places: &Places,
    first: u64,
) -> Pass<Steps>
    requires lock { pass.lock ≡ lock.now.id }
    requires session { IsSome pass.session }
    ensures same { (result.lock ≡ pass.lock) × (result.session ≡ pass.session) }
{
    for turn in 0..CALLS {
        places.call(turn.wrapping_mul(2).wrapping_add(first));
        let _ = lock.call(rt, &mut pass, ());
    }
    pass
}

/// The two threads.
fn call_both<R: Threads + Wait + Sync>(
    rt: &R,
    lock: &SeqLock<Steps>,
    one: Pass<Steps>,
    other: Pass<Steps>,
    places: &Places,
) -> (Pass<Steps>, Pass<Steps>)
    requires one { (one.lock ≡ lock.now.id) × (one.session ≡ Some 0) }
    requires other { (other.lock ≡ lock.now.id) × (other.session ≡ Some 1) }
    ensures one { (result.0.lock ≡ lock.now.id) × (result.0.session ≡ Some 0) }
    ensures other { (result.1.lock ≡ lock.now.id) × (result.1.session ≡ Some 1) }
{
    thread::join(
        rt,
        || -> Pass<Steps>
            requires { (one.lock ≡ lock.now.id) × (one.session ≡ Some 0) }
            ensures { (result.lock ≡ lock.entry.now.id) × (result.session ≡ Some 0) }
        { call_in_turn(rt, lock, one, places, 1) },
        || -> Pass<Steps>
            requires { (other.lock ≡ lock.now.id) × (other.session ≡ Some 1) }
            ensures { (result.lock ≡ lock.entry.now.id) × (result.session ≡ Some 1) }
        { call_in_turn(rt, lock, other, places, 2) },
    )
}

/// Whose steps were made.
fn take_turns<R: Threads + Wait + Sync>(
    rt: &R,
    alloc: Global,
    places: &Arc<Places>,
) -> Result<Vec<u16>, AllocError> {
    let steps = Steps {
        places: Arc::try_clone(places)?,
        made: Vec::new(alloc),
    };
    let (lock, mut keeper) = match SeqLock::new(alloc, steps, 2) {
        Ok(made) => made,
        Err((_, error)) => return Err(error),
    };
    let one = lock.split(&mut keeper);
    let other = lock.split(&mut keeper);
    let (one, other) = call_both(rt, &lock, one, other, places);
    lock.join(&mut keeper, one);
    lock.join(&mut keeper, other);
    let Steps { places: _, made } = lock.close(keeper);
    Ok(made)
}

/// Each call but the first is made while the other thread has the object for long, so its thread sleeps, and is woken by that one.
#[test]
fn every_thread_sleeps_and_is_woken(rt: HostRuntime) -> Result<(), Fail> {
    let places = Arc::new(rt.alloc(), Places::new())?;
    let made = take_turns(&rt, rt.alloc(), &places)?;
    assert_eq!(rt; made.as_slice(), [0u16, 1, 0, 1, 0, 1, 0, 1].as_slice());
    assert_eq!(rt; places.gave_up.load(Ordering::SeqCst), 0);
    Ok(())
}
