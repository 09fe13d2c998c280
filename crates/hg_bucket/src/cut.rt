//! Cuts: of a record, and of a table's records.

ghost use Rattle.std.specs.Prelude.{◌≡◌, ℕ, ◌+◌, ◌≤◌, ◌^◌, length, take, Some, slice_get};
ghost use Rattle.hg_base.specs.declared.rid.Rid.{Rid};
ghost use Rattle.hg_bucket.specs.Parts.{records_of, AreKept, longs_of};
ghost use Rattle.hg_bucket.specs.BucketModel.{keys_in, versions_of, OthersStay, record_at, cut_at, left};
ghost use Rattle.hg_space.specs.Index.{place_of, IsIndex};

use crate::places::{Placed, drop_bare, leave_bare, settle};
use crate::records::Records;
use hg_base::{Rid, TableId};
use hg_chains::{Chains, Cut};
use hg_space::{RidIndex, Roster, TableSpace};

impl Records {
    /// Cuts a record's versions at a bound. The answer says how many went.
    pub fn cut(&mut self, rid: Rid, bound: u64) -> u64
        requires { left self.old.records ≤ 2 ^ 40 }
        ensures here { versions_of self.new.records rid ≡
            cut_at bound (versions_of self.old.records rid) }
        ensures others { OthersStay self.old.records self.new.records rid }
        ensures gone { length (versions_of self.new.records rid) + result ≡
            length (versions_of self.old.records rid) }
        ensures left { left self.new.records + result ≡ left self.old.records }
    {
        let Some(place) = self.index.place(rid) else {
            return 0;
        };
        cut(
            &mut self.index,
            &mut self.space,
            &mut self.chains,
            &mut self.longs,
            Placed { rid, place },
            bound,
        )
    }

    /// The same for a record of which the caller knows where its table's list has it. The index is not searched.
    pub fn cut_long(&mut self, rid: Rid, at: usize, bound: u64) -> u64
        requires stands { slice_get (keys_in self.old.long rid.table) at ≡ Some rid.key }
        requires few { left self.old.records ≤ 2 ^ 40 }
        ensures here { versions_of self.new.records rid ≡
            cut_at bound (versions_of self.old.records rid) }
        ensures others { OthersStay self.old.records self.new.records rid }
        ensures gone { length (versions_of self.new.records rid) + result ≡
            length (versions_of self.old.records rid) }
        ensures left { left self.new.records + result ≡ left self.old.records }
        ensures front { take at (keys_in self.new.long rid.table) ≡
            take at (keys_in self.old.long rid.table) }
    {
        self.index.stands_once();
        let place = self.longs.place(rid.table, at);
        cut(
            &mut self.index,
            &mut self.space,
            &mut self.chains,
            &mut self.longs,
            Placed { rid, place },
            bound,
        )
    }

    /// Cuts each record of a table at a bound. The answer says how many versions went.
    pub fn cut_table(&mut self, table: TableId, bound: u64) -> u64
        requires { left self.old.records ≤ 2 ^ 40 }
        ensures each { (k : ℕ) →
            versions_of self.new.records (record_at table k) ≡
            cut_at bound (versions_of self.old.records (record_at table k)) }
        ensures others { (q : Rid) → (q.table ≡ table → ⊥) →
            versions_of self.new.records q ≡ versions_of self.old.records q }
        ensures left { left self.new.records + result ≡ left self.old.records }
    {
        let mut gone = 0;
        let mut left = self.long_count(table);
        while left > 0 {
            left -= 1;
            let key = self.long_key(table, left);
            gone += self.cut_long(Rid { table, key }, left, bound);
        }
        gone
    }
}

// Cuts a record's versions at a bound. The answer says how many went. The index changes only where the record is dropped.
fn cut(
    index: &mut RidIndex,
    space: &mut TableSpace,
    chains: &mut Chains,
    longs: &mut Roster,
    placed: Placed,
    bound: u64,
) -> u64
    requires index { IsIndex index.old }
    requires kept { AreKept index.old chains.old space.old.places longs.old }
    requires has { place_of index.old placed.rid ≡ Some placed.place }
    requires few { left (records_of index.old chains.old space.old.places) ≤ 2 ^ 40 }
    ensures kept { AreKept index.new chains.new space.new.places longs.new }
    ensures here { versions_of (records_of index.new chains.new space.new.places) placed.rid ≡
        cut_at bound (versions_of (records_of index.old chains.old space.old.places) placed.rid) }
    ensures others { OthersStay (records_of index.old chains.old space.old.places)
        (records_of index.new chains.new space.new.places) placed.rid }
    ensures gone { length
        (versions_of (records_of index.new chains.new space.new.places) placed.rid) + result ≡
        length (versions_of (records_of index.old chains.old space.old.places) placed.rid) }
    ensures left { left (records_of index.new chains.new space.new.places) + result ≡
        left (records_of index.old chains.old space.old.places) }
    ensures front { (at : ℕ) →
        slice_get (keys_in (longs_of longs.old) placed.rid.table) at ≡ Some placed.rid.key →
        take at (keys_in (longs_of longs.new) placed.rid.table) ≡
        take at (keys_in (longs_of longs.old) placed.rid.table) }
{
    let Cut { image, gone } = chains.cut(placed.place, bound);
    let Some(newest) = image else {
        return 0;
    };
    let gone = gone + settle(space, placed.place, newest);
    leave_bare(longs, chains, placed);
    drop_bare(index, space, chains, placed);
    gone
}
