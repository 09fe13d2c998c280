ghost use Rattle.std.specs.Prelude.{◌≡◌, ◌<◌, ℕ, Some, IfOk, length, slice_get};
ghost use Rattle.hg_lock.specs.Locks.{count_of, tag_of};

use hg_lock::{Fits, Locks};
use std::alloc::{AllocError, Global};
use std::rt::Clock;
use std::snapshot::Snapshot;
use std::sync::Wait;
use std::sync::atomic::AtomicU64;
use std::sync::atomic::Ordering::SeqCst;
use std::test::Fail;
use std::thread::{Threads, map_indices, sleep, yield_now};
use std::time::Duration;

// A sum, of a list with a number, at a place there.
#[derive(Drop)]
struct Till {
    list: u64,
    lock: usize,
    sum: u64,
}

impl Fits for Till {
    ghost use Rattle.std.specs.Prelude.{◌≡◌};

    type Tag = Snapshot<u64>;

    ghost fits = { λ tag k till. (till.list ≡ tag.value) × (till.lock ≡ k) };
}

type Tills = Locks<Till>;

fn tills(alloc: Global, list: u64, count: usize) -> Result<Vec<Till>, AllocError>
    ensures fits { IfOk result (λ tills.
        (k : ℕ) (till : _) → slice_get tills.items k ≡ Some till →
        (till.list ≡ list) × (till.lock ≡ k)) }
    ensures count { IfOk result (λ tills. length tills.items ≡ count) }
{
    let mut tills = Vec::new(alloc);
    for lock in 0..count {
        let sum = 0;
        tills.push(Till { list, lock, sum })?;
    }
    Ok(tills)
}

fn open(alloc: Global, list: u64, count: usize) -> Result<Tills, Fail>
    ensures { IfOk result (λ locks. ((tag_of locks).value ≡ list) × (count_of locks ≡ count)) }
{
    Ok(Locks::new(alloc, tills(alloc, list, count)?, &Snapshot::of(&list))?)
}

// Adds to the sum at this place, and answers it. The value says itself where it lies.
fn add<R: Wait>(rt: &R, locks: &Tills, lock: usize, amount: u64) -> (usize, u64)
    requires { lock < count_of locks.now }
    ensures { result.0 ≡ lock }
{
    let (mut till, loan) = locks.take(rt, lock);
    till.sum = till.sum.saturating_add(amount);
    let found = (till.lock, till.sum);
    locks.give(till, loan);
    found
}

fn counted(alloc: Global, count: usize) -> Result<usize, Fail> {
    Ok(open(alloc, 7, count)?.count())
}

#[test]
fn each_value_lies_at_its_place(rt: HostRuntime) -> Result<(), Fail> {
    let alloc = rt.alloc();
    let counts = [
        counted(alloc, 0)?,
        counted(alloc, 1)?,
        counted(alloc, 2)?,
        counted(alloc, 3)?,
    ];
    let locks = open(alloc, 7, 3)?;
    let sums = [
        add(&rt, &locks, 0, 5),
        add(&rt, &locks, 2, 1),
        add(&rt, &locks, 0, 2),
        add(&rt, &locks, 1, 0),
        add(&rt, &locks, 2, 3),
    ];
    assert_eq!(rt;
        (counts, sums),
        ([0, 1, 2, 3], [(0, 5), (2, 1), (0, 7), (1, 0), (2, 4)])
    );
    Ok(())
}

// Adds 1 so many times.
fn add_ones<R: Wait>(rt: &R, locks: &Tills, lock: usize, times: u64)
    requires { lock < count_of locks.now }
{
    for _ in 0..times {
        add(rt, locks, lock, 1);
    }
}

#[test]
fn many_threads_add_to_one_sum(rt: HostRuntime) -> Result<(), Fail> {
    let locks = open(rt.alloc(), 7, 2)?;
    let done = map_indices(&rt, rt.alloc(), 8, &|_| add_ones(&rt, &locks, 1, 20_000))?;
    let found = (done.len(), add(&rt, &locks, 1, 0), add(&rt, &locks, 0, 0));
    assert_eq!(rt; found, (8, (1, 160_000), (0, 0)));
    Ok(())
}

// How often a thread looks for another before it gives up.
const TURNS: u64 = 10_000_000;

// Takes the lock, says so, and keeps it while the others fall asleep.
fn hold_for_a_while<R: Wait + Clock>(rt: &R, locks: &Tills, lock: usize, taken: &AtomicU64)
    requires { lock < count_of locks.now }
{
    let (till, loan) = locks.take(rt, lock);
    taken.store(1, SeqCst);
    sleep(rt, Duration::from_millis(100));
    locks.give(till, loan);
}

// Adds 1 once somebody holds the lock.
fn add_behind<R: Wait>(rt: &R, locks: &Tills, lock: usize, taken: &AtomicU64)
    requires { lock < count_of locks.now }
{
    for _ in 0..TURNS {
        if taken.load(SeqCst) == 1 {
            break;
        }
        yield_now();
    }
    add(rt, locks, lock, 1);
}

// One thread holds the lock while three wait for it. The answer is how many threads ended, and the sum.
fn woken<R: Threads + Wait + Clock + Sync>(
    rt: &R,
    alloc: Global,
    locks: &Tills,
    lock: usize,
) -> Result<(usize, u64), Fail>
    requires { lock < count_of locks.now }
{
    let taken = AtomicU64::new(0);
    let done = map_indices(
        rt,
        alloc,
        4,
        &|index| {
            if index == 0 {
                hold_for_a_while(rt, locks, lock, &taken);
            } else {
                add_behind(rt, locks, lock, &taken);
            }
        },
    )?;
    Ok((done.len(), add(rt, locks, lock, 0).1))
}

// A wake that is forgotten leaves this test asleep, and so does one at the other lock.
#[test]
fn each_sleeper_is_woken(rt: HostRuntime) -> Result<(), Fail> {
    let locks = open(rt.alloc(), 7, 2)?;
    let found = [
        woken(&rt, rt.alloc(), &locks, 0)?,
        woken(&rt, rt.alloc(), &locks, 1)?,
    ];
    assert_eq!(rt; found, [(4, 3), (4, 3)]);
    Ok(())
}
