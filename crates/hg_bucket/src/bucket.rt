//! Records with their versions, and counters of them.

ghost use Rattle.std.specs.Prelude.{◌≡◌, ℕ, ◌+◌, ◌<◌, ◌≤◌, ◌^◌, length, take, slice_get, [], None, Some, not, IsTrue, IsOk, IfOk, IfSome, IfErr, OnOk, OnErr, drop, if◌then◌else◌};
ghost use Rattle.std.specs.Option.{option_copied};
ghost use Rattle.std.specs.List.{IsDistinct};
ghost use Rattle.std.specs.Map.{keys_of};
ghost use Rattle.hg_base.specs.History.{same_rid};
ghost use Rattle.hg_base.specs.Lists.{Each};
ghost use Rattle.hg_base.specs.declared.rid.Rid.{Rid};
ghost use Rattle.hg_bucket.specs.declared.refusal.WriteRefusal.TheVariants.{Open, Newer};
ghost use Rattle.hg_bucket.specs.Conflicts.{holder, newer, IsCause};
ghost use Rattle.hg_base.specs.declared.writer.Writer.{Writer};
ghost use Rattle.hg_chains.specs.Sweeps.{Rises};
ghost use Rattle.hg_base.specs.Lifetimes.{IsGuarded};
ghost use Rattle.hg_bucket.specs.Sweeping.{swept, IsClean, record_steps, sweep_steps};
ghost use Rattle.hg_bucket.specs.Long.{AreLong};
ghost use Rattle.hg_bucket.specs.BucketModel.{long_keys, versions_of, begins_open, installed, stamped, OthersStay, IsBelow, read_at, record_at, cut_at, left, counts_of, IsBalanced, IsNextKey};

use crate::records::Records;
use crate::refusal::WriteRefusal;
use hg_base::{Image, Rid, Steps, TableId, Totals, Writer};
use std::alloc::Global;
use std::marker::Model;
use std::sync::ledger::Ledger;

/// The records of a bucket, with counters of their versions.
#[derive(Drop)]
pub struct Bucket {
    records: Records,
    made: u64,
    undone: u64,
    group: u64,
    table: u64,
    interval: u64,
}

impl Model for Bucket {
    ghost use Rattle.hg_bucket.specs.BucketModel.{BucketModel, IsSound};

    ghost Value = { BucketModel };

    ghost view = { λ b. record { records = b.records.records; long = b.records.long; made = b.made; undone = b.undone; group = b.group; table = b.table; interval = b.interval } };

    ghost invariant = { λ b. IsSound record { records = b.records.records; long = b.records.long; made = b.made; undone = b.undone; group = b.group; table = b.table; interval = b.interval } };
}

impl Bucket {
    /// No record. It takes no memory.
    pub fn new(alloc: Global) -> Bucket
        ensures { result ≡
            record
            { records = []; long = []; made = 0; undone = 0; group = 0; table = 0; interval = 0 } }
    {
        Bucket {
            records: Records::new(alloc),
            made: 0,
            undone: 0,
            group: 0,
            table: 0,
            interval: 0,
        }
    }

    /// What a transaction reads of a record.
    pub fn read(&self, rid: Rid, snapshot: u64, own: Writer) -> Option<&Image>
        ensures { option_copied result ≡ read_at own snapshot (versions_of self.now.records rid) }
    {
        self.records.read(rid, snapshot, own)
    }

    /// Writes an image. A transaction's second write of a record replaces its first one. That takes no memory, and it isn't
    /// counted. The answer says whether a version was added.
    pub fn write(
        &mut self,
        rid: Rid,
        image: Image,
        snapshot: u64,
        mark: u64,
        by: Writer,
    ) -> Result<bool, WriteRefusal>
        requires { self.old.made < 2 ^ 40 }
        ensures open { IfSome (holder by mark (versions_of self.old.records rid))
            (λ w. result ≡ Err (Open w.session w.transaction)) }
        ensures newer { holder by mark (versions_of self.old.records rid) ≡ None →
            IfSome (newer snapshot (versions_of self.old.records rid))
            (λ n. result ≡ Err (Newer n)) }
        ensures cause { IfErr result (IsCause by snapshot mark (versions_of self.old.records rid)) }
        ensures replaced { IsTrue (begins_open by (versions_of self.old.records rid)) →
            IsOk result }
        ensures stored { OnOk result (versions_of self.new.records rid ≡
            installed by image (versions_of self.old.records rid)) }
        ensures others { OthersStay self.old.records self.new.records rid }
        ensures added { IfOk result
            (λ added. added ≡ not (begins_open by (versions_of self.old.records rid))) }
        ensures made { OnOk result
            (let more : ℕ = if begins_open by (versions_of self.old.records rid) then 0 else 1 in
            self.new ≡
            record self.old
            { records = self.new.records; long = self.new.long; made = self.old.made + more }) }
        ensures refused { OnErr result (self.new ≡ self.old) }
    {
        let added = self.records.write(rid, image, snapshot, mark, by)?;
        self.made += if added { 1 } else { 0 };
        Ok(added)
    }

    /// Removes the transaction's open write of a record. A record that has no other version is dropped.
    pub fn undo(&mut self, rid: Rid, by: Writer)
        requires { IsTrue (begins_open by (versions_of self.old.records rid)) }
        ensures here { versions_of self.new.records rid ≡
            drop 1 (versions_of self.old.records rid) }
        ensures others { OthersStay self.old.records self.new.records rid }
        ensures undone { self.new ≡
            record self.old
            { records = self.new.records; long = self.new.long; undone = self.old.undone + 1 } }
    {
        self.records.undo(rid, by);
        self.undone += 1;
    }

    /// Gives the transaction's open write of a record its number.
    pub fn stamp(&mut self, rid: Rid, by: Writer, number: u64)
        requires open_write { IsTrue (begins_open by (versions_of self.old.records rid)) }
        requires over { Each (IsBelow number) (drop 1 (versions_of self.old.records rid)) }
        ensures here { versions_of self.new.records rid ≡
            stamped by number (versions_of self.old.records rid) }
        ensures others { OthersStay self.old.records self.new.records rid }
        ensures counters { self.new ≡
            record self.old { records = self.new.records; long = self.new.long } }
    {
        self.records.stamp(rid, by, number);
    }

    /// Cuts a record's versions at a bound, for the group collector. The answer says how many went.
    pub fn cut_record(&mut self, rid: Rid, bound: u64) -> u64
        ensures here { versions_of self.new.records rid ≡
            cut_at bound (versions_of self.old.records rid) }
        ensures others { OthersStay self.old.records self.new.records rid }
        ensures gone { length (versions_of self.new.records rid) + result ≡
            length (versions_of self.old.records rid) }
        ensures group { self.new ≡
            record self.old
            { records = self.new.records; long = self.new.long; group = self.old.group + result } }
    {
        let gone = self.records.cut(rid, bound);
        self.group += gone;
        gone
    }

    /// How many records of a table can be shortened: each has more than its oldest image.
    pub fn long_count(&self, table: TableId) -> usize
        ensures count { result ≡ length (long_keys self.now table) }
        ensures whole { AreLong (long_keys self.now table) table self.now.records }
    {
        self.records.long_count(table)
    }

    /// The key of one of them. They stand in no order. Where one is cut or swept, those before it stay where they are: so a
    /// walk that begins at the last one meets each once.
    pub fn long_key(&self, table: TableId, at: usize) -> u64
        requires { at < length (long_keys self.now table) }
        ensures { slice_get (long_keys self.now table) at ≡ Some result }
    {
        self.records.long_key(table, at)
    }

    /// Cuts one of them at a bound, for the table collector. `at` is where `long_key` gives its key, so it isn't looked up. The
    /// answer says how many versions went.
    pub fn cut_long(&mut self, rid: Rid, at: usize, bound: u64) -> u64
        requires { slice_get (long_keys self.old rid.table) at ≡ Some rid.key }
        ensures here { versions_of self.new.records rid ≡
            cut_at bound (versions_of self.old.records rid) }
        ensures others { OthersStay self.old.records self.new.records rid }
        ensures gone { length (versions_of self.new.records rid) + result ≡
            length (versions_of self.old.records rid) }
        ensures table { self.new ≡
            record self.old
            { records = self.new.records; long = self.new.long; table = self.old.table + result } }
        ensures front { take at (long_keys self.new rid.table) ≡
            take at (long_keys self.old rid.table) }
    {
        let gone = self.records.cut_long(rid, at, bound);
        self.table += gone;
        gone
    }

    /// Removes of one of them every version that no snapshot sees, as `sweep` does of each record of a table. `at` is where
    /// `long_key` gives its key, so it isn't looked up. The answer says how many versions went.
    pub fn sweep_long<L: Ledger>(
        &mut self,
        rid: Rid,
        at: usize,
        horizon: u64,
        snapshots: &[u64],
        steps: &mut Steps<L>,
    ) -> u64
        requires stands { slice_get (long_keys self.old rid.table) at ≡ Some rid.key }
        requires rises { Rises snapshots.now }
        ensures here { versions_of self.new.records rid ≡
            swept horizon snapshots.now (versions_of self.old.records rid) }
        ensures clean { IsClean horizon snapshots.now (versions_of self.new.records rid) }
        ensures seen { (s : ℕ) (own : Writer) → IsGuarded horizon snapshots.now s →
            read_at own s (versions_of self.new.records rid) ≡
            read_at own s (versions_of self.old.records rid) }
        ensures others { OthersStay self.old.records self.new.records rid }
        ensures gone { length (versions_of self.new.records rid) + result ≡
            length (versions_of self.old.records rid) }
        ensures interval { let all = self.old.interval + result in self.new ≡
            record self.old
            { records = self.new.records; long = self.new.long; interval = all } }
        ensures front { take at (long_keys self.new rid.table) ≡
            take at (long_keys self.old rid.table) }
        ensures cost { steps.new ≤
            steps.old + record_steps snapshots.now (versions_of self.old.records rid) }
    {
        let swept = self.records.sweep_long(rid, at, horizon, snapshots, steps);
        self.interval += swept;
        swept
    }

    /// Cuts each record of a table at a bound. The answer says how many versions went. A record that has only its oldest
    /// image is passed over.
    pub fn cut_table(&mut self, table: TableId, bound: u64) -> u64
        ensures each { (k : ℕ) →
            versions_of self.new.records (record_at table k) ≡
            cut_at bound (versions_of self.old.records (record_at table k)) }
        ensures others { (q : Rid) → (q.table ≡ table → ⊥) →
            versions_of self.new.records q ≡ versions_of self.old.records q }
        ensures gone { left self.new.records + result ≡ left self.old.records }
        ensures counted { self.new ≡
            record self.old
            { records = self.new.records; long = self.new.long; table = self.old.table + result } }
    {
        let gone = self.records.cut_table(table, bound);
        self.table += gone;
        gone
    }

    /// Removes of each record of a table every version that no snapshot sees: its successor is numbered at or below the
    /// horizon, and none of the ascending snapshots lies in its lifetime. The answer says how many versions went. A record
    /// that has only its oldest image is passed over, and costs no step.
    pub fn sweep<L: Ledger>(
        &mut self,
        table: TableId,
        horizon: u64,
        snapshots: &[u64],
        steps: &mut Steps<L>,
    ) -> u64
        requires { Rises snapshots.now }
        ensures each { (k : ℕ) →
            versions_of self.new.records (record_at table k) ≡
            swept horizon snapshots.now (versions_of self.old.records (record_at table k)) }
        ensures clean { (k : ℕ) →
            IsClean horizon snapshots.now (versions_of self.new.records (record_at table k)) }
        ensures seen { (k s : ℕ) (own : Writer) → IsGuarded horizon snapshots.now s →
            read_at own s (versions_of self.new.records (record_at table k)) ≡
            read_at own s (versions_of self.old.records (record_at table k)) }
        ensures others { (q : Rid) → (q.table ≡ table → ⊥) →
            versions_of self.new.records q ≡ versions_of self.old.records q }
        ensures gone { left self.new.records + result ≡ left self.old.records }
        ensures counted { let all = self.old.interval + result in self.new ≡
            record self.old
            { records = self.new.records; long = self.new.long; interval = all } }
        ensures cost { steps.new ≤ steps.old + sweep_steps table snapshots.now self.old.records }
    {
        let gone = self.records.sweep_table(table, horizon, snapshots, steps);
        self.interval += gone;
        gone
    }

    /// The least key of a table at or over a number, of those that have a version.
    pub fn next_key(&self, table: TableId, from: u64) -> Option<u64>
        ensures next { IsNextKey self.now.records table from result }
        ensures there { IfSome result
            (λ key. 0 < length (versions_of self.now.records (record_at table key))) }
    {
        self.records.next_key(table, from)
    }

    /// How many versions were made, undone, removed by each collector, and are held.
    pub fn counts(&self) -> Totals
        ensures counts { result ≡ counts_of self.now }
        ensures balance { IsBalanced self.now }
        ensures distinct { IsDistinct same_rid (keys_of self.now.records) }
    {
        self.records.stand_once();
        Totals {
            made: self.made,
            undone: self.undone,
            group: self.group,
            table: self.table,
            interval: self.interval,
            left: self.made - self.undone - self.group - self.table - self.interval,
        }
    }
}
