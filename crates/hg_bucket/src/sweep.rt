//! Sweeps: of a record, and of a table's records.

ghost use Rattle.std.specs.Prelude.{◌≡◌, ℕ, ◌+◌, ◌≤◌, ◌^◌, length, Some, slice_get};
ghost use Rattle.hg_base.specs.declared.rid.Rid.{Rid};
ghost use Rattle.hg_chains.specs.Sweeps.{Rises};
ghost use Rattle.hg_bucket.specs.Sweeping.{swept, IsClean, record_steps, sweep_steps};
ghost use Rattle.hg_bucket.specs.BucketModel.{keys_in, versions_of, OthersStay, record_at, left};

use crate::places;
use crate::records::Records;
use hg_base::{Rid, Steps, TableId};
use std::sync::ledger::Ledger;

impl Records {
    /// Removes every version that no snapshot sees, of a record of which the caller knows where its table's list has it. The
    /// answer says how many went. The index is not searched.
    pub fn sweep_long<L: Ledger>(
        &mut self,
        rid: Rid,
        at: usize,
        horizon: u64,
        snapshots: &[u64],
        steps: &mut Steps<L>,
    ) -> u64
        requires stands { slice_get (keys_in self.old.long rid.table) at ≡ Some rid.key }
        requires rises { Rises snapshots.now }
        requires few { left self.old.records ≤ 2 ^ 40 }
        ensures here { versions_of self.new.records rid ≡
            swept horizon snapshots.now (versions_of self.old.records rid) }
        ensures clean { IsClean horizon snapshots.now (versions_of self.new.records rid) }
        ensures others { OthersStay self.old.records self.new.records rid }
        ensures gone { length (versions_of self.new.records rid) + result ≡
            length (versions_of self.old.records rid) }
        ensures left { left self.new.records + result ≡ left self.old.records }
        ensures listed { self.new.long ≡ self.old.long }
        ensures cost { steps.new ≤
            steps.old + record_steps snapshots.now (versions_of self.old.records rid) }
    {
        self.index.stands_once();
        let place = self.longs.place(rid.table, at);
        let base = places::number(&self.space, place);

        // A newest version always stays. Where it is the only one, its node isn't read.
        if self.chains.count(place) == 1 && base.is_none() {
            return 0;
        }
        let swept = self.chains.sweep(place, base, horizon, snapshots, steps);
        if !swept.base_gone {
            return swept.gone;
        }
        let _ = self.space.set_image(place, None);
        swept.gone + 1
    }

    /// Removes every version of a table's records that no snapshot sees. The answer says how many went.
    pub fn sweep_table<L: Ledger>(
        &mut self,
        table: TableId,
        horizon: u64,
        snapshots: &[u64],
        steps: &mut Steps<L>,
    ) -> u64
        requires rises { Rises snapshots.now }
        requires few { left self.old.records ≤ 2 ^ 40 }
        ensures each { (k : ℕ) →
            versions_of self.new.records (record_at table k) ≡
            swept horizon snapshots.now (versions_of self.old.records (record_at table k)) }
        ensures clean { (k : ℕ) →
            IsClean horizon snapshots.now (versions_of self.new.records (record_at table k)) }
        ensures others { (q : Rid) → (q.table ≡ table → ⊥) →
            versions_of self.new.records q ≡ versions_of self.old.records q }
        ensures left { left self.new.records + result ≡ left self.old.records }
        ensures cost { steps.new ≤ steps.old + sweep_steps table snapshots.now self.old.records }
    {
        let mut gone = 0;
        let mut left = self.long_count(table);
        while left > 0 {
            left -= 1;
            let key = self.long_key(table, left);
            gone += self.sweep_long(Rid { table, key }, left, horizon, snapshots, steps);
        }
        gone
    }
}
