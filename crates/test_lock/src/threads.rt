//! Threads that count up a number through a lock: side by side, nested, out of memory, and let go.
ghost use Rattle.std.specs.Prelude.{◌≡◌, ℕ, ◌+◌, ◌<◌, ◌≤◌, List, [], ◌∷◌, ◌++◌, map, Contains, Some, None, IsSome, OnOk, IfOk};
ghost use Rattle.std.specs.Thread.{IsSync};
ghost use Rattle.sv_lock.specs.Passes.{session_number};

use crate::counter::{Added, Counter};
use std::alloc::{AllocError, Global};
use std::process::Abort;
use std::rt::Clock;
use std::sync::atomic::{AtomicBool, Ordering};
use std::sync::{Arc, Wait};
use std::test::Fail;
use std::thread;
use std::thread::Threads;
use std::time::Duration;
use sv_lock::{Pass, SeqLock};

// Adds 0, 1, 2 and so on, and says how many of these calls were answered.
fn add_up<R: Wait>(
    rt: &R,
    lock: &SeqLock<Counter>,
    mut pass: Pass<Counter>,
    count: u64,
) -> (Pass<Counter>, u64)
    requires lock { pass.lock ≡ lock.now.id }
    requires session { IsSome pass.session }
    requires small { count ≤ pass.base }
    ensures same { (result.0.lock ≡ pass.lock) × (result.0.session ≡ pass.session) × (result.0.base ≡ pass.base) }
{
    let mut left = count;
    for amount in 0..count {
        if lock.call(rt, &mut pass, amount).is_ok() {
            left = left.wrapping_sub(1);
        }
    }
    (pass, count.wrapping_sub(left))
}

// So many threads, each with a pass of its own, add the numbers below `count`. The keeper takes their passes in.
fn crowd<R: Threads + Wait + Sync>(
    rt: &R,
    lock: &SeqLock<Counter>,
    mut keeper: Pass<Counter>,
    threads: u16,
    count: u64,
) -> (Pass<Counter>, u64)
    requires keeper { (keeper.lock ≡ lock.now.id) × (keeper.session ≡ None) }
    requires room { keeper.made + threads ≤ lock.now.passes }
    requires small { count ≤ keeper.base }
    ensures same { (result.0.lock ≡ keeper.lock) × (result.0.session ≡ None) }
    ensures made { result.0.made ≡ keeper.made + threads }
    ensures ended { (n : ℕ) → keeper.made ≤ n → n < result.0.made → Contains (map (λ x. x.0) result.0.ended) n }
{
    if threads == 0 {
        return (keeper, 0);
    }
    let rest = threads - 1;
    let pass = lock.split(&mut keeper);
    let ((pass, answered), (mut keeper, others)) = thread::join(
        rt,
        || -> (Pass<Counter>, u64)
            requires pass { (pass.lock ≡ lock.now.id) × IsSome pass.session }
            requires small { count ≤ pass.base }
            ensures { (result.0.lock ≡ lock.entry.now.id) × (result.0.session ≡ pass.session) }
        { add_up(rt, lock, pass, count) },
        || -> (Pass<Counter>, u64)
            requires handle { IsSync R.row }
            requires keeper { (keeper.lock ≡ lock.now.id) × (keeper.session ≡ None) }
            requires room { keeper.made + rest ≤ lock.now.passes }
            requires small { count ≤ keeper.base }
            ensures same { (result.0.lock ≡ lock.entry.now.id) × (result.0.session ≡ None) }
            ensures made { result.0.made ≡ keeper.made + rest }
            ensures ended { (n : ℕ) → keeper.made ≤ n → n < result.0.made → Contains (map (λ x. x.0) result.0.ended) n }
        { crowd(rt, lock, keeper, rest, count) },
    );
    lock.join(&mut keeper, pass);
    (keeper, answered.wrapping_add(others))
}

// The counter after all threads are done, and how many of their calls were answered.
fn add_by<R: Threads + Wait + Sync>(
    rt: &R,
    alloc: Global,
    threads: u16,
    count: u64,
    pauses: u32,
) -> Result<(Counter, u64), AllocError>
    requires threads { (0 < threads) × (threads ≤ 64) }
{
    let mut counter = Counter::new(alloc, count, 0);
    counter.pauses = pauses;
    let (lock, keeper) = match SeqLock::new(alloc, counter, threads) {
        Ok(made) => made,
        Err((_, error)) => return Err(error),
    };
    let (keeper, answered) = crowd(rt, &lock, keeper, threads, count);
    Ok((lock.close(keeper), answered))
}

// Each number added 0, 1, 2 and so on, up to `count`.
fn all_in_order(added: &[Added], threads: u16, count: u64) -> bool {
    let mut next = [0u64; 64];
    for one in added.iter() {
        let by = usize::from(one.by);
        if by >= 64 || one.amount != next[by] {
            return false;
        }
        next[by] = next[by].wrapping_add(1);
    }
    next.iter()
        .take(usize::from(threads))
        .all(|made| *made == count)
}

// The same, on a thread of its own. Stops the test where it is not done within a while: then a thread sleeps that nobody wakes.
fn add_in_time<R: Threads + Wait + Clock + Abort + Sync>(
    rt: &R,
    alloc: Global,
    threads: u16,
    count: u64,
    pauses: u32,
) -> Result<(Counter, u64), AllocError>
    requires threads { (0 < threads) × (threads ≤ 64) }
{
    let mark = AtomicBool::new(false);
    let done = &mark;
    thread::scope(
        thread::scope_env(),
        rt,
        move |scope| -> Result<(Counter, u64), AllocError>
            requires handle { IsSync R.row }
            requires threads { (0 < threads) × (threads ≤ 64) }
        {
            let adding = scope.spawn(
                move || -> Result<(Counter, u64), AllocError>
                    requires handle { IsSync R.row }
                    requires threads { (0 < threads) × (threads ≤ 64) }
                {
                    let added = add_by(rt, alloc, threads, count, pauses);
                    done.store(true, Ordering::SeqCst);
                    added
                },
            )?;
            wait_for(rt, done);
            adding.join(rt)
        },
    )
}

// How often it is looked whether the threads are done, ten milliseconds after one another.
const LOOKS: u32 = 1_500;

fn wait_for(rt: &(impl Clock + Abort), done: &AtomicBool) {
    for _ in 0..LOOKS {
        if done.load(Ordering::SeqCst) {
            return;
        }
        thread::sleep(rt, Duration::from_millis(10));
    }
    panic!(rt; "a thread sleeps that nobody wakes");
}

// In the last row a call takes longer than any thread looks before it sleeps.
#[test]
fn threads_make_their_calls_in_order(rt: HostRuntime) -> Result<(), Fail> {
    for (threads, count, pauses) in [(2u16, 1_000u64, 0u32), (6, 3, 400_000)] {
        let (counter, answered) = add_in_time(&rt, rt.alloc(), threads, count, pauses)?;
        let calls = count.wrapping_mul(u64::from(threads));
        assert_eq!(rt; answered, calls);
        assert_eq!(rt; counter.added.len() as u64, calls);
        assert!(rt; all_in_order(counter.added.as_slice(), threads, count));
    }
    Ok(())
}

fn ask<R: Wait>(
    rt: &R,
    lock: &SeqLock<Counter>,
    pass: &mut Pass<Counter>,
    amount: u64,
) -> Option<u64>
    requires lock { pass.old.lock ≡ lock.now.id }
    requires session { IsSome pass.old.session }
    requires small { amount < pass.old.base }
    ensures same { (pass.new.lock ≡ pass.old.lock) × (pass.new.session ≡ pass.old.session) × (pass.new.base ≡ pass.old.base) }
{
    lock.call(rt, pass, amount).ok()
}

// One pass alone adds 5, 7, 1, 2, 3 and 4.
fn add_alone<R: Wait>(
    rt: &R,
    alloc: Global,
    failing: u64,
) -> Result<(Counter, [Option<u64>; 6], (Option<u16>, Option<u16>)), AllocError> {
    let counter = Counter::new(alloc, 10, failing);
    let (lock, mut keeper) = match SeqLock::new(alloc, counter, 1) {
        Ok(made) => made,
        Err((_, error)) => return Err(error),
    };
    let mut pass = lock.split(&mut keeper);
    let sessions = (keeper.session(), pass.session());
    let replies = [
        ask(rt, &lock, &mut pass, 5),
        ask(rt, &lock, &mut pass, 7),
        ask(rt, &lock, &mut pass, 1),
        ask(rt, &lock, &mut pass, 2),
        ask(rt, &lock, &mut pass, 3),
        ask(rt, &lock, &mut pass, 4),
    ];
    lock.join(&mut keeper, pass);
    Ok((lock.close(keeper), replies, sessions))
}

fn amounts(alloc: Global, counter: &Counter) -> Result<Vec<u64>, AllocError> {
    let mut amounts = Vec::new(alloc);
    for added in counter.added.iter() {
        amounts.push(added.amount)?;
    }
    Ok(amounts)
}

#[test]
fn one_pass_alone(rt: HostRuntime) -> Result<(), Fail> {
    let (counter, replies, sessions) = add_alone(&rt, rt.alloc(), 0)?;
    assert!(rt; sessions == (None, Some(0)));
    assert!(rt; replies == [Some(5), Some(12), Some(13), Some(15), Some(18), Some(22)]);
    assert_eq!(rt;
        amounts(rt.alloc(), &counter)?.as_slice(),
        [5u64, 7, 1, 2, 3, 4].as_slice()
    );
    Ok(())
}

#[test]
fn every_third_call_wants_memory(rt: HostRuntime) -> Result<(), Fail> {
    let (counter, replies, _) = add_alone(&rt, rt.alloc(), 3)?;
    assert!(rt; replies == [Some(5), Some(12), None, Some(14), Some(17), None]);
    assert_eq!(rt;
        amounts(rt.alloc(), &counter)?.as_slice(),
        [5u64, 7, 2, 3].as_slice()
    );
    Ok(())
}

// Makes so many passes, each before the one before it has called and was taken in.
fn nest<R: Wait>(rt: &R, lock: &SeqLock<Counter>, keeper: &mut Pass<Counter>, left: u64)
    requires keeper { (keeper.old.lock ≡ lock.now.id) × (keeper.old.session ≡ None) }
    requires room { keeper.old.made + left ≤ lock.now.passes }
    requires small { left < keeper.old.base }
    ensures same { (keeper.new.lock ≡ keeper.old.lock) × (keeper.new.session ≡ None) × (keeper.new.base ≡ keeper.old.base) }
    ensures made { keeper.new.made ≡ keeper.old.made + left }
    ensures ended { (n : ℕ) → keeper.old.made ≤ n → n < keeper.new.made → Contains (map (λ x. x.0) keeper.new.ended) n }
{
    if left == 0 {
        return;
    }
    let mut pass = lock.split(keeper);
    nest(rt, lock, keeper, left - 1);
    ask(rt, lock, &mut pass, left);
    lock.join(keeper, pass);
}

fn add_nested<R: Wait>(rt: &R, alloc: Global) -> Result<Counter, AllocError> {
    let counter = Counter::new(alloc, 100, 0);
    let (lock, mut keeper) = match SeqLock::new(alloc, counter, 64) {
        Ok(made) => made,
        Err((_, error)) => return Err(error),
    };
    nest(rt, &lock, &mut keeper, 64);
    Ok(lock.close(keeper))
}

#[test]
fn sixty_four_passes(rt: HostRuntime) -> Result<(), Fail> {
    let counter = add_nested(&rt, rt.alloc())?;
    assert_eq!(rt; counter.added.len(), 64);
    for (place, added) in counter.added.iter().enumerate() {
        assert_eq!(rt; usize::from(added.by).wrapping_add(place), 63);
        assert_eq!(rt; added.amount.wrapping_add(u64::from(added.by)), 64);
    }
    Ok(())
}

// Gives up before the lock is closed: at a call without memory, or with the sum of 5 and 7.
fn let_go<R: Wait>(rt: &R, alloc: Global, failing: u64, mark: &Arc<u8>) -> Result<u64, AllocError> {
    let mut counter = Counter::new(alloc, 10, failing);
    counter.mark = Some(Arc::try_clone(mark)?);
    let (lock, mut keeper) = match SeqLock::new(alloc, counter, 2) {
        Ok(made) => made,
        Err((_, error)) => return Err(error),
    };
    let mut pass = lock.split(&mut keeper);
    lock.call(rt, &mut pass, 5)?;
    drop(lock.split(&mut keeper));
    drop(keeper);
    lock.call(rt, &mut pass, 7)
}

#[test]
fn a_lock_is_let_go(rt: HostRuntime) -> Result<(), Fail> {
    let mark = Arc::new(rt.alloc(), 0u8)?;
    for (failing, sum) in [(0u64, Some(12u64)), (1, None), (2, None)] {
        assert!(rt; let_go(&rt, rt.alloc(), failing, &mark).ok() == sum);
        assert_eq!(rt; Arc::strong_count(&mark), 1);
    }
    Ok(())
}
