//! What a collector's pass removes in a bucket that it holds: it cuts one record, or cuts or sweeps a table. Each record that is visited
//! costs one step of the pass.

ghost use Rattle.std.specs.Prelude.{◌≡◌, ℕ, ◌+◌, ◌≤◌, length, take};
ghost use Rattle.hg_base.specs.declared.report.Kind.TheVariants.{Group, Table, Interval};
ghost use Rattle.hg_core.specs.Passes.{IsWhole, recorded, group_bound, table_bound};
ghost use Rattle.hg_core.specs.Contents.{bucket_of};
ghost use Rattle.hg_core.specs.Clean.{IsClean, IsCutAt};
ghost use Rattle.hg_bucket.specs.BucketModel.{long_keys, record_at, versions_of};
ghost use Rattle.hg_bucket.specs.Sweeping.{record_steps, sweep_steps};
ghost use Rattle.hg_rule.specs.Holding.{held};
ghost use Rattle.hg_rule.specs.Facts.{record_of};
ghost use Rattle.hg_rule.specs.Views.{pass as own_pass};
ghost use Rattle.hg_rule.specs.Removes.{removed_of, Reclaims};
ghost use Rattle.hg_rule.specs.Seats.{sizes_of, pass_view};
ghost use Rattle.hg_store.specs.Stores.{held_number, held_records};
ghost use Rattle.hg_store.specs.Passes.{IsCollectorHolding, IsSameBucket};
ghost use Rattle.hg_store.specs.Clearing.{Clears, Counts, Spends, AreGathered, IsListedAt, Leaves};

use crate::held::Held;
use hg_base::{Kind, Rid, Steps, TableId};
use hg_rule::{Board, CollectorPass};
use std::sync::ledger::Ledger;

// A record that has more than its oldest image, and its index in the bucket's list of them.
#[derive(Clone, Copy)]
struct Long {
    rid: Rid,
    at: usize,
}

/// What guards the versions of a table from a sweep: the horizon, and the snapshots that count there, ascending.
#[derive(Clone, Copy)]
pub struct Guards<'a> {
    pub horizon: u64,
    pub snapshots: &'a [u64],
}

impl<'a> Held<'a> {
    /// Cuts a record at the group bound of the pass's record, which is whole. The answer says how many versions went.
    pub fn cut_record(
        &mut self,
        board: &Board,
        pass: &mut CollectorPass,
        rid: Rid,
        bound: u64,
    ) -> u64
        requires holds { IsCollectorHolding board.now pass.old self.old }
        requires whole { IsWhole (sizes_of board.now).sessions
            (record_of (own_pass (pass_view pass.old))) }
        requires here { bucket_of (sizes_of board.now).buckets rid ≡ held_number self.old }
        requires bound { bound ≡ group_bound (record_of (own_pass (pass_view pass.old))) }
        ensures step { Reclaims (pass_view pass.old) rid Group (pass_view pass.new) }
        ensures gone { result ≡ removed_of (pass_view pass.old) rid Group }
        ensures holds { IsCollectorHolding board.now pass.new self.new ×
            IsSameBucket self.old self.new }
    {
        board.reclaim(pass, rid, Kind::Group);
        self.bucket.cut_record(rid, bound)
    }

    /// Cuts each record of a table at that table's bound by the pass's record, which is whole. The answer says how many versions
    /// went. A record that has only its oldest image costs nothing.
    pub fn cut_table(
        &mut self,
        board: &Board,
        pass: &mut CollectorPass,
        table: TableId,
        bound: u64,
    ) -> u64
        requires holds { IsCollectorHolding board.now pass.old self.old }
        requires whole { IsWhole (sizes_of board.now).sessions
            (record_of (own_pass (pass_view pass.old))) }
        requires bound { bound ≡ table_bound table (record_of (own_pass (pass_view pass.old))) }
        ensures steps { Clears (pass_view pass.old) table Table (pass_view pass.new) }
        ensures left { Leaves (pass_view pass.old) table Table (pass_view pass.new) }
        ensures cut { (k : ℕ) → IsCutAt bound (held (pass_view pass.new) (record_at table k)) }
        ensures gone { Counts (pass_view pass.old) Table result (pass_view pass.new) }
        ensures holds { IsCollectorHolding board.now pass.new self.new ×
            IsSameBucket self.old self.new }
    {
        board.look_at(pass);
        let mut gone = 0;
        let mut left = self.bucket.long_count(table);
        while left > 0 {
            left -= 1;
            let key = self.bucket.long_key(table, left);
            gone += self.cut_one(board, pass, Rid { table, key }, left, bound);
        }
        gone
    }

    // Cuts one record at its table's bound, where the bucket's list has it at that index.
    fn cut_one(
        &mut self,
        board: &Board,
        pass: &mut CollectorPass,
        rid: Rid,
        at: usize,
        bound: u64,
    ) -> u64
        requires holds { IsCollectorHolding board.now pass.old self.old }
        requires whole { IsWhole (sizes_of board.now).sessions
            (record_of (own_pass (pass_view pass.old))) }
        requires here { bucket_of (sizes_of board.now).buckets rid ≡ held_number self.old }
        requires listed { IsListedAt rid at self.old }
        requires bound { bound ≡ table_bound rid.table (record_of (own_pass (pass_view pass.old))) }
        ensures step { Reclaims (pass_view pass.old) rid Table (pass_view pass.new) }
        ensures gone { result ≡ removed_of (pass_view pass.old) rid Table }
        ensures holds { IsCollectorHolding board.now pass.new self.new ×
            IsSameBucket self.old self.new }
        // the list's records before this one are where they were
        ensures front { take at (long_keys (held_records self.new) rid.table) ≡
            take at (long_keys (held_records self.old) rid.table) }
    {
        board.reclaim(pass, rid, Kind::Table);
        self.bucket.cut_long(rid, at, bound)
    }
}

impl<'a> Held<'a> {
    /// Removes of each record of a table every version that no snapshot sees by the pass's record, which is whole. The guards
    /// are those of the table. The answer says how many versions went. A record that has only its oldest image costs nothing.
    pub fn sweep<L: Ledger>(
        &mut self,
        board: &Board,
        pass: &mut CollectorPass,
        table: TableId,
        guards: &Guards<'_>,
        steps: &mut Steps<L>,
    ) -> u64
        requires holds { IsCollectorHolding board.now pass.old self.old }
        requires whole { IsWhole (sizes_of board.now).sessions
            (record_of (own_pass (pass_view pass.old))) }
        requires gathered { AreGathered (record_of (own_pass (pass_view pass.old))) table
            guards.now.horizon guards.now.snapshots.now }
        ensures steps { Clears (pass_view pass.old) table Interval (pass_view pass.new) }
        ensures left { Leaves (pass_view pass.old) table Interval (pass_view pass.new) }
        ensures clean { (k : ℕ) →
            IsClean guards.now.horizon (recorded table (record_of (own_pass (pass_view pass.old))))
            (held (pass_view pass.new) (record_at table k)) }
        ensures gone { Counts (pass_view pass.old) Interval result (pass_view pass.new) }
        ensures holds { IsCollectorHolding board.now pass.new self.new ×
            IsSameBucket self.old self.new }
        // at most so many steps, by the bucket's own records
        ensures cost { steps.new ≤
            steps.old + sweep_steps table guards.now.snapshots.now (held_records self.old).records }
        ensures spends { Spends (pass_view pass.old) table (length guards.now.snapshots.now)
            steps.old steps.new }
    {
        board.look_at(pass);
        let mut gone = 0;
        let mut at = self.bucket.long_count(table);
        while at > 0 {
            at -= 1;
            let key = self.bucket.long_key(table, at);
            let rid = Rid { table, key };
            let long = Long { rid, at };
            gone += self.sweep_one(board, pass, long, guards, steps);
        }
        gone
    }

    // Sweeps one record, where the bucket's list has it at that index.
    fn sweep_one<L: Ledger>(
        &mut self,
        board: &Board,
        pass: &mut CollectorPass,
        long: Long,
        guards: &Guards<'_>,
        steps: &mut Steps<L>,
    ) -> u64
        requires holds { IsCollectorHolding board.now pass.old self.old }
        requires whole { IsWhole (sizes_of board.now).sessions
            (record_of (own_pass (pass_view pass.old))) }
        requires here { bucket_of (sizes_of board.now).buckets long.rid ≡ held_number self.old }
        requires listed { IsListedAt long.rid long.at self.old }
        requires gathered { AreGathered (record_of (own_pass (pass_view pass.old))) long.rid.table
            guards.now.horizon guards.now.snapshots.now }
        ensures step { Reclaims (pass_view pass.old) long.rid Interval (pass_view pass.new) }
        ensures gone { result ≡ removed_of (pass_view pass.old) long.rid Interval }
        ensures holds { IsCollectorHolding board.now pass.new self.new ×
            IsSameBucket self.old self.new }
        // the list's records before this one are where they were
        ensures front { take long.at (long_keys (held_records self.new) long.rid.table) ≡
            take long.at (long_keys (held_records self.old) long.rid.table) }
        ensures cost { steps.new ≤
            steps.old +
            record_steps guards.now.snapshots.now
            (versions_of (held_records self.old).records long.rid) }
    {
        let Long { rid, at } = long;
        board.reclaim(pass, rid, Kind::Interval);
        self.bucket
            .sweep_long(rid, at, guards.horizon, guards.snapshots, steps)
    }
}
