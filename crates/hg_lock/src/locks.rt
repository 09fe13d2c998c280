//! A list of locks.

ghost use Rattle.std.specs.Prelude.{◌≡◌, ◌⊎◌, ◌<◌, ◌^◌, ◌==◌, [], ◌∷◌, ◌++◌, length, IfOk, OnOk, IsTrue, IsFalse};
ghost use Rattle.hg_lock.specs.Guarded.{line_of, spread};

use crate::fits::Fits;
use crate::guard::{AWAITED, FREE, Guard, HELD, Release, Seen, Seize};
use crate::loan::Loan;
use atomic_table::{Refused, Seat, Table};
use std::alloc::{AllocError, Global};
use std::hint::spin_loop;
use std::sync::Wait;
use std::thread::yield_now;

// How often a thread looks at a lock that is held before it sleeps. After the first of these looks it lets others run.
const LOOKS: u32 = 300;

const FIRST_LOOKS: u32 = 100;

// How many words a cache line has.
const LINE: usize = 8;

/// Values, each under a lock of its own. Two locks of a list can be held at once.
#[derive(Drop)]
pub struct Locks<X: Fits> {
    table: Table<Option<X>, Seen<X::Tag>, X::Tag, Guard<X>, Global>,
    count: usize,
    ghost words: { table.shared.table_id.words ≡ line_of count },
    ghost slots: { table.shared.table_id.slots ≡ line_of count },
    ghost small: { line_of count < 2 ^ 64 },
}

// A lock that was freed. It has no `Drop`: it ends in `wake` where somebody may sleep on it, and else in `settle`.
struct Freed<X, T> {
    lock: usize,
    awaited: bool,
    seat: Seat<Option<X>, Seen<T>>,
    ghost home: { seat.me.1 ≡ [] },
    // Somebody may sleep exactly where the step that freed the lock found `AWAITED`.
    ghost told: { awaited ≡ (seat.me.0.found == 2) },
}

// Nobody sleeps on the lock, so nobody is woken.
fn settle<X: Drop, T>(freed: Freed<X, T>)
    requires { IsFalse freed.awaited }
{
    let Freed {
        lock: _,
        awaited: _,
        seat: _,
    } = freed;
}

// Appends a value, in a cache line of its own.
fn lay<X: Drop>(slots: &mut Vec<Option<X>>, value: X) -> Result<(), AllocError>
    ensures { OnOk result (slots.new.items ≡ slots.old.items ++ spread (value ∷ [])) }
{
    slots.push(Some(value))?;
    for turn in 1..LINE {
        slots.push(None)?;
    }
    Ok(())
}

// A line for each value.
fn lines<X: Drop>(alloc: Global, values: Vec<X>) -> Result<Vec<Option<X>>, AllocError>
    ensures { IfOk result (λ slots. slots.items ≡ spread values.items) }
{
    let mut slots = Vec::new(alloc);
    for value in values {
        lay(&mut slots, value)?;
    }
    Ok(slots)
}

impl<X: Fits + Drop> Locks<X> {
    ghost use Rattle.hg_lock.specs.Guarded.{HasValue};
    ghost use Rattle.hg_lock.specs.Locks.{EachFits, IsLoanOf, count_of, lock_of, tag_of};

    /// A free lock for each value, in order.
    pub fn new(alloc: Global, values: Vec<X>, tag: &X::Tag) -> Result<Locks<X>, AllocError>
        requires { EachFits (X.fits tag.now) values.items }
        ensures tag { IfOk result (λ locks. tag_of locks ≡ tag.now) }
        ensures count { IfOk result (λ locks. count_of locks ≡ length values.items) }
    {
        let count = values.len();
        let slots = lines(alloc, values)?;
        let words = vec![in alloc; FREE; slots.len()]?;
        match Table::new(alloc, words.as_slice(), slots, tag) {
            Ok((table, _seat)) => Ok(Locks { table, count }),
            Err(Refused { slots: _ }) => Err(AllocError),
        }
    }

    /// How many locks there are.
    pub fn count(&self) -> usize
        ensures { result ≡ count_of self.now }
    {
        self.count
    }

    /// Sleeps while the lock is held. A thread that holds it already waits for itself.
    #[inline(always)]
    pub fn take<R: Wait>(&self, rt: &R, lock: usize) -> (X, Loan<X, X::Tag>)
        requires { lock < count_of self.now }
        ensures fits { X.fits (tag_of self.now) lock result.0 }
        ensures loan { IsLoanOf self.now result.1 }
        ensures lock { lock_of result.1 ≡ lock }
    {
        let mut seat = self.claim(rt, lock);
        let value = self.table.shared.exchange(&mut seat, LINE * lock, None);
        (value.unwrap(), Loan { lock, seat })
    }

    /// Frees the lock, with this value under it. It waits for nobody.
    #[inline(always)]
    pub fn give(&self, value: X, loan: Loan<X, X::Tag>)
        requires fits { X.fits (tag_of self.now) (lock_of loan) value }
        requires loan { IsLoanOf self.now loan }
    {
        let freed = self.free(value, loan);
        if freed.awaited {
            self.wake(freed);
        } else {
            settle(freed);
        }
    }

    // Takes the slot, by one step where the lock is free.
    fn claim<R: Wait>(&self, rt: &R, lock: usize) -> Seat<Option<X>, Seen<X::Tag>>
        requires { lock < count_of self.now }
        ensures list { result.table_id ≡ self.now.table.shared.table_id }
        ensures value { HasValue (X.fits (tag_of self.now)) lock result.me }
        ensures left { (result.me.0.left ≡ 1) ⊎ (result.me.0.left ≡ 2) }
    {
        match self.seize(lock, HELD) {
            Ok(seat) => seat,
            Err(found) => self.wait(rt, lock, found),
        }
    }

    // Takes the slot of a lock that was found held. `HELD` may have been written over `AWAITED` then, which is put back.
    #[cold]
    #[inline(never)]
    fn wait<R: Wait>(&self, rt: &R, lock: usize, found: u64) -> Seat<Option<X>, Seen<X::Tag>>
        requires { lock < count_of self.now }
        ensures list { result.table_id ≡ self.now.table.shared.table_id }
        ensures value { HasValue (X.fits (tag_of self.now)) lock result.me }
        ensures left { (result.me.0.left ≡ 2) ⊎ ((found ≡ 1) × (result.me.0.left ≡ 1)) }
    {
        if found == HELD && self.look(lock) == FREE {
            if let Ok(seat) = self.seize(lock, HELD) {
                return seat;
            }
        }
        self.sleep(rt, lock)
    }

    // Takes the slot, and sleeps until it can. Others may sleep still.
    fn sleep<R: Wait>(&self, rt: &R, lock: usize) -> Seat<Option<X>, Seen<X::Tag>>
        requires { lock < count_of self.now }
        ensures list { result.table_id ≡ self.now.table.shared.table_id }
        ensures value { HasValue (X.fits (tag_of self.now)) lock result.me }
        ensures left { result.me.0.left ≡ 2 }
    {
        for _ in rt.forever() {
            if let Ok(seat) = self.seize(lock, AWAITED) {
                return seat;
            }
            if self.look(lock) != FREE {
                self.table.shared.park(rt, LINE * lock, AWAITED as u32);
                self.look(lock);
            }
        }
        unreachable!()
    }

    // Writes the word of a lock, which is held from then on, and takes the slot if it was free. Else answers the word
    // that it found.
    fn seize(&self, lock: usize, word: u64) -> Result<Seat<Option<X>, Seen<X::Tag>>, u64>
        requires lock { lock < count_of self.now }
        requires held { FREE < word }
        ensures list { IfOk result (λ seat. seat.table_id ≡ self.now.table.shared.table_id) }
        ensures value { IfOk result (λ seat. HasValue (X.fits (tag_of self.now)) lock seat.me) }
        ensures left { IfOk result (λ seat. seat.me.0.left ≡ word) }
    {
        let (found, seat) = self
            .table
            .shared
            .swap_new_seat::<Seize<X>>(LINE * lock, word);
        if found == FREE { Ok(seat) } else { Err(found) }
    }

    // Looks for a while, as long as the lock is held.
    fn look(&self, lock: usize) -> u64
        requires { lock < count_of self.now }
    {
        for turn in 0..LOOKS {
            if self.table.shared.peek(LINE * lock) == FREE {
                return FREE;
            }
            if turn < FIRST_LOOKS {
                spin_loop();
            } else {
                yield_now();
            }
        }
        HELD
    }

    // Lays the value down and frees the lock. A lock whose slot is at home is free, by the rule.
    fn free(&self, value: X, loan: Loan<X, X::Tag>) -> Freed<X, X::Tag>
        requires fits { X.fits (tag_of self.now) (lock_of loan) value }
        requires loan { IsLoanOf self.now loan }
        ensures list { result.seat.table_id ≡ self.now.table.shared.table_id }
        ensures lock { (result.lock ≡ lock_of loan) × (result.lock < count_of self.now) }
    {
        let Loan { lock, mut seat } = loan;
        let shared = &self.table.shared;
        let place = LINE * lock;
        drop(shared.exchange(&mut seat, place, Some(value)));
        let found = shared.swap::<Release>(&mut seat, place, FREE);
        Freed {
            lock,
            awaited: found == AWAITED,
            seat,
        }
    }

    // Wakes one thread that sleeps on the lock.
    #[cold]
    #[inline(never)]
    fn wake(&self, freed: Freed<X, X::Tag>)
        requires lock { freed.lock < count_of self.now }
        requires awaited { IsTrue freed.awaited }
    {
        let Freed {
            lock,
            awaited: _,
            seat: _,
        } = freed;
        self.table.shared.wake_one(LINE * lock);
    }
}
