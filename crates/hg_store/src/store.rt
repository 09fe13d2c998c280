//! Buckets under locks.

ghost use Rattle.std.specs.Prelude.{◌≡◌, ℕ, ◌<◌, ◌%◌, ◌^◌, [], length, IfOk};
ghost use Rattle.hg_core.specs.Contents.{bucket_of};
ghost use Rattle.hg_lock.specs.Locks.{count_of};

use crate::held::Held;
use hg_base::{NoMemory, Rid};
use hg_bucket::Bucket;
use hg_lock::{Fits, Locks};
use hg_rule::{Board, BucketSeat, BucketSeatList, Pass};
use std::alloc::Global;
use std::snapshot::Snapshot;
use std::sync::Wait;

/// What lies under a bucket's lock: the bucket, and the seat that shows its content.
#[derive(Drop)]
pub struct Slot {
    pub(crate) bucket: Box<Bucket>,
    pub(crate) seat: BucketSeat,
}

impl Fits for Slot {
    ghost use Rattle.hg_store.specs.Slots.{SlotFits};

    type Tag = Snapshot<BucketSeat>;

    ghost fits = { SlotFits };
}

// What is left of a number that is divided by another one. By a power of two it is not divided: its last bits are left.
fn remainder(number: u64, divisor: u64) -> u64
    requires { 0 < divisor }
    ensures { result ≡ number % divisor }
{
    if divisor.is_power_of_two() {
        number & (divisor - 1)
    } else {
        number % divisor
    }
}

// The bucket of a record, of so many. Where table and key have a sum that fits, one remainder is taken.
fn bucket_among(count: u64, rid: Rid) -> u64
    requires some { 0 < count }
    requires few { count < 2 ^ 32 }
    ensures own { result ≡ bucket_of count rid }
    ensures within { result < count }
{
    let table = 31 * u64::from(rid.table.0);
    match rid.key.checked_add(table) {
        Some(sum) => remainder(sum, count),
        None => (rid.key % count + table) % count,
    }
}

// An empty bucket, with its seat.
fn slot_of(alloc: Global, seat: BucketSeat) -> Result<Slot, NoMemory>
    ensures seat { IfOk result (λ slot. slot.seat ≡ seat) }
    ensures empty { IfOk result (λ slot. slot.bucket.value ≡
        record
        { records = []; long = []; made = 0; undone = 0; group = 0; table = 0; interval = 0 }) }
{
    match Box::new(alloc, Bucket::new(alloc)) {
        Ok(bucket) => Ok(Slot { bucket, seat }),
        Err(_) => Err(NoMemory),
    }
}

/// The buckets of a board, each under a lock of its own.
#[derive(Drop)]
pub struct Store {
    pub(crate) locks: Locks<Slot>,
    ghost some: { 0 < count_of locks },
    ghost few: { count_of locks < 2 ^ 32 },
}

impl Store {
    ghost use Rattle.hg_rule.specs.Rules.{IsBacked};
    ghost use Rattle.hg_rule.specs.New.{EachFrom, IsNewBucket};
    ghost use Rattle.hg_rule.specs.Places.{HasFirst};
    ghost use Rattle.hg_rule.specs.Seats.{BoardId, board_id, sizes_of, view, IsSeatOf};
    ghost use Rattle.hg_store.specs.Stores.{store_board_id, store_buckets, held_board_id, held_number, Holds, Takes};

    /// An empty bucket for each seat. The seats are all those of one new board, in order.
    pub fn new(alloc: Global, seats: BucketSeatList) -> Result<Store, NoMemory>
        requires some { (0 < length seats) × (length seats < 2 ^ 32) }
        requires seats { (t : BoardId) × EachFrom (IsNewBucket t) 0 seats }
        ensures board { (t : BoardId) → EachFrom (IsNewBucket t) 0 seats →
            IfOk result (λ store. store_board_id store ≡ t) }
        ensures count { IfOk result (λ store. store_buckets store ≡ length seats) }
    {
        let seats = seats.into_vec();
        let tag = Snapshot::of(&seats[0]);
        let mut slots = Vec::with_capacity(alloc, seats.len())?;
        for seat in seats {
            slots.push(slot_of(alloc, seat)?)?;
        }
        let locks = Locks::new(alloc, slots, &tag)?;
        Ok(Store { locks })
    }

    /// Frees the buckets, with every version in them.
    pub fn free(self) {}

    /// How many there are.
    pub fn buckets(&self) -> u32
        ensures { result ≡ store_buckets self.now }
    {
        self.locks.count() as u32
    }

    /// The bucket of a record.
    pub fn bucket_of(&self, rid: Rid) -> u32
        ensures own { result ≡ bucket_of (store_buckets self.now) rid }
        ensures within { result < store_buckets self.now }
    {
        bucket_among(u64::from(self.buckets()), rid) as u32
    }

    /// Waits for the bucket's lock. The bucket's part of the state comes to the pass, which then knows what the rule says of
    /// it: each protected snapshot finds there what a table shows that never reclaims.
    pub fn take<P: Pass, R: Wait>(
        &self,
        rt: &R,
        board: &Board,
        bucket: u32,
        pass: &mut P,
    ) -> Held<'_>
        requires board { store_board_id self.now ≡ board_id board.now }
        requires own { IsSeatOf (board_id board.now) (P.seat_of pass.old) ×
            HasFirst (view (P.seat_of pass.old)) }
        requires bucket { bucket < store_buckets self.now }
        ensures held { (held_board_id result ≡ board_id board.now) × (held_number result ≡ bucket) }
        ensures view { Takes (view (P.seat_of pass.old)) bucket (view (P.seat_of pass.new)) }
        ensures holds { Holds (view (P.seat_of pass.new)) result }
        ensures backed { (mark : ℕ) ×
            IsBacked (sizes_of board.now) mark (view (P.seat_of pass.new)) }
        ensures own { IsSeatOf (board_id board.now) (P.seat_of pass.new) ×
            (P.rest_of pass.new ≡ P.rest_of pass.old) }
    {
        let (slot, loan) = self.locks.take(rt, bucket as usize);
        let Slot { bucket: data, seat } = slot;
        board.join_bucket(pass, seat);
        Held {
            locks: &self.locks,
            loan,
            bucket: data,
            number: bucket,
        }
    }
}
