//! A bucket that is held: what it shows, which makes no step, and how it is given back.

ghost use Rattle.std.specs.Prelude.{◌≡◌};
ghost use Rattle.hg_lock.specs.Locks.{IsLoanOf, lock_of};

use crate::store::Slot;
use hg_base::{Image, Rid, TableId, Totals, Writer};
use hg_bucket::Bucket;
use hg_lock::{Loan, Locks};
use hg_rule::{Board, BucketSeat, Pass};
use std::snapshot::Snapshot;

/// A bucket whose lock was taken. It has no `Drop`: it ends in `give`.
pub struct Held<'a> {
    pub(crate) locks: &'a Locks<Slot>,
    pub(crate) loan: Loan<Slot, Snapshot<BucketSeat>>,
    pub(crate) bucket: Box<Bucket>,
    pub(crate) number: u32,
    ghost lent: { IsLoanOf locks.now loan },
    ghost lock: { lock_of loan ≡ number },
}

impl<'a> Held<'a> {
    ghost use Rattle.std.specs.Prelude.{◌<◌, length, unwrap_or, IfSome};
    ghost use Rattle.std.specs.Option.{option_copied};
    ghost use Rattle.hg_base.specs.History.{nothing};
    ghost use Rattle.hg_core.specs.Contents.{look};
    ghost use Rattle.hg_core.specs.Replies.{read_by};
    ghost use Rattle.hg_bucket.specs.BucketModel.{record_at, read_at, versions_of, IsNextKey};
    ghost use Rattle.hg_rule.specs.declared.view.View.{View};
    ghost use Rattle.hg_rule.specs.Holding.{bucket, held};
    ghost use Rattle.hg_store.specs.Kept.{AreCountsOf, NoneBetween};
    ghost use Rattle.hg_store.specs.Stores.{held_records, Holds};

    /// What a transaction reads of a record: a deletion is an image of nothing, and none is where it sees no version.
    #[inline(always)]
    pub fn read(&self, rid: Rid, snapshot: u64, own: Writer) -> Option<&Image>
        ensures exact { option_copied result ≡
            read_at own snapshot (versions_of (held_records self.now).records rid) }
        ensures shown { (v : View) → Holds v self.now →
            unwrap_or (option_copied result) nothing ≡ read_by own snapshot (held v rid) }
    {
        self.bucket.read(rid, snapshot, own)
    }

    /// The least key of a table at or over a number, of those that have a version.
    pub fn next_key(&self, table: TableId, from: u64) -> Option<u64>
        ensures next { IsNextKey (held_records self.now).records table from result }
        ensures there { (v : View) → Holds v self.now →
            IfSome result (λ key. 0 < length (look (record_at table key) (bucket v).content)) }
        ensures none { (v : View) → Holds v self.now →
            NoneBetween (bucket v).content table from result }
    {
        self.bucket.next_key(table, from)
    }

    /// How many versions were made, undone and removed, and are held.
    pub fn counts(&self) -> Totals
        ensures { (v : View) → Holds v self.now → AreCountsOf (bucket v).counters result }
    {
        self.bucket.counts()
    }
}

impl<'a> Held<'a> {
    ghost use Rattle.hg_rule.specs.Places.{without_bucket};
    ghost use Rattle.hg_rule.specs.Seats.{board_id, view, IsSeatOf};
    ghost use Rattle.hg_store.specs.Stores.{held_board_id, Holds};

    /// The bucket's part of the state leaves the pass, and the lock is free. It waits for nobody.
    pub fn give<P: Pass>(self, board: &Board, pass: &mut P)
        requires board { held_board_id self ≡ board_id board.now }
        requires own { IsSeatOf (board_id board.now) (P.seat_of pass.old) }
        requires holds { Holds (view (P.seat_of pass.old)) self }
        ensures view { view (P.seat_of pass.new) ≡ without_bucket (view (P.seat_of pass.old)) }
        ensures own { IsSeatOf (board_id board.now) (P.seat_of pass.new) ×
            (P.rest_of pass.new ≡ P.rest_of pass.old) }
    {
        let Held {
            locks,
            loan,
            bucket,
            number,
        } = self;
        let seat = board.split_bucket(pass, number);
        locks.give(Slot { bucket, seat }, loan);
    }
}
