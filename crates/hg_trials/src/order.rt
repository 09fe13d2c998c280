//! A gate that holds workers until others have come as far as they have to.

use hg_base::{Gate, NoMemory};
use std::alloc::Global;
use std::sync::Wait;
use std::sync::atomic::AtomicU64;
use std::sync::atomic::Ordering::SeqCst;
use std::thread::yield_now;

// How often a worker looks for another before it gives up.
const TURNS: u64 = 10_000_000;

/// A worker, and the number of a step of its.
pub(crate) type Step = (u32, u32);

/// Before the first step of a pair its worker waits until the other worker has come to the second one. So the other has made all
/// of its steps before that.
#[derive(Drop)]
pub(crate) struct Order<'a> {
    holds: &'a [(Step, Step)],
    come: Vec<AtomicU64>,
    given_up: AtomicU64,
}

impl<'a> Order<'a> {
    pub(crate) fn new(alloc: Global, holds: &'a [(Step, Step)]) -> Result<Order<'a>, NoMemory> {
        let mut come = Vec::new(alloc);
        for _ in 0..217 {
            come.push(AtomicU64::new(0))?;
        }
        Ok(Order {
            holds,
            come,
            given_up: AtomicU64::new(0),
        })
    }

    /// Whether each worker came to each step that is named, and none gave up what it waited for.
    pub(crate) fn was_kept(&self) -> bool {
        let have_come = self.holds.iter().all(|(held, other)| self.has_come_to(*held)
            && self.has_come_to(*other));
        have_come && self.given_up.load(SeqCst) == 0
    }

    // A helper counts its buckets anew in each round, so a step may have come before.
    fn come_to(&self, step: Step) {
        let (worker, number) = step;
        if let Some(come) = self.come.get(worker as usize) {
            come.store(come.load(SeqCst).max(number as u64), SeqCst);
        }
    }

    fn has_come_to(&self, step: Step) -> bool {
        let (worker, number) = step;
        match self.come.get(worker as usize) {
            Some(come) => come.load(SeqCst) >= number as u64,
            None => false,
        }
    }

    fn wait_for(&self, step: Step) {
        for _ in 0..TURNS {
            if self.has_come_to(step) {
                return;
            }
            yield_now();
        }
        self.given_up.store(1, SeqCst);
    }
}

impl<'a> Gate for Order<'a> {
    fn at<R: Wait>(&self, _rt: &R, worker: u32, statement: u32) {
        self.come_to((worker, statement));
        for (held, other) in self.holds {
            if *held == (worker, statement) {
                self.wait_for(*other);
            }
        }
    }
}
