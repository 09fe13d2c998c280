//! Records with their versions.

ghost use Rattle.std.specs.Prelude.{◌≡◌, ◌+◌, ◌<◌, length, [], ◌∷◌, drop, Some, slice_get, IsTrue, OnOk, OnErr, IfSome};
ghost use Rattle.std.specs.List.{IsDistinct};
ghost use Rattle.std.specs.Map.{keys_of};
ghost use Rattle.hg_base.specs.History.{same_rid};
ghost use Rattle.hg_base.specs.Lists.{Each};
ghost use Rattle.std.specs.Option.{option_copied};
ghost use Rattle.hg_bucket.specs.Writes.{Writes};
ghost use Rattle.hg_bucket.specs.Long.{AreLong};
ghost use Rattle.hg_bucket.specs.BucketModel.{keys_in, versions_of, begins_open, open_write, stamped, OthersStay, IsBelow, read_at, record_at, IsNextKey, left};

use crate::places::{self, Placed, drop_bare, leave_bare};
use crate::refusal::WriteRefusal;
use hg_base::{Image, NoMemory, Rid, TableId, Writer};
use hg_chains::Chains;
use hg_space::{RidIndex, Roster, TableSpace};
use std::alloc::Global;
use std::marker::Model;

/// Records, each with its versions.
#[derive(Drop)]
pub(crate) struct Records {
    pub index: RidIndex,
    pub space: TableSpace,
    pub chains: Chains,
    pub longs: Roster,
}

impl Model for Records {
    ghost use Rattle.hg_bucket.specs.Parts.{Recorded, records_of, longs_of, AreKept};

    ghost Value = { Recorded };

    ghost view = { λ s. record { records = records_of s.index s.chains s.space.places; long = longs_of s.longs } };

    ghost invariant = { λ s. AreKept s.index s.chains s.space.places s.longs };
}

impl Records {
    pub fn new(alloc: Global) -> Records
        ensures { result ≡ record { records = []; long = [] } }
    {
        Records {
            index: RidIndex::new(alloc),
            space: TableSpace::new(alloc),
            chains: Chains::new(alloc),
            longs: Roster::new(alloc),
        }
    }

    /// What a transaction reads of a record.
    pub fn read(&self, rid: Rid, snapshot: u64, own: Writer) -> Option<&Image>
        ensures { option_copied result ≡ read_at own snapshot (versions_of self.now.records rid) }
    {
        let place = self.index.place(rid)?;
        match places::read_chain(&self.chains, place, snapshot, own) {
            Some(image) => Some(image),
            None => places::read(&self.space, place, snapshot),
        }
    }

    /// The least key of a table at or over a number, of those that have a version.
    pub fn next_key(&self, table: TableId, from: u64) -> Option<u64>
        ensures next { IsNextKey self.now.records table from result }
        ensures there { IfSome result
            (λ key. 0 < length (versions_of self.now.records (record_at table key))) }
    {
        self.index.next_key(table, from)
    }

    /// No record stands twice: for the counts, which tell it.
    pub fn stand_once(&self)
        ensures { IsDistinct same_rid (keys_of self.now.records) }
    {
        self.index.stands_once();
    }

    /// Writes an image. The answer says whether a version was added.
    pub fn write(
        &mut self,
        rid: Rid,
        image: Image,
        snapshot: u64,
        mark: u64,
        by: Writer,
    ) -> Result<bool, WriteRefusal>
        ensures writes { Writes by image snapshot mark self.old.records self.new.records rid
            result }
        ensures refused { OnErr result (self.new ≡ self.old) }
    {
        let Some(place) = self.index.place(rid) else {
            self.begin(rid, image, by)?;
            return Ok(true);
        };
        let refusal = places::conflict(&self.chains, &self.space, place, by, snapshot, mark);
        if let Some(refusal) = refusal {
            return Err(refusal);
        }
        Ok(places::add(
            &mut self.chains,
            &mut self.longs,
            Placed { rid, place },
            image,
            by,
        )?)
    }

    // Begins a record.
    fn begin(&mut self, rid: Rid, image: Image, by: Writer) -> Result<(), NoMemory>
        requires { versions_of self.old.records rid ≡ [] }
        ensures stored { OnOk result (versions_of self.new.records rid ≡ open_write by image ∷ []) }
        ensures others { OthersStay self.old.records self.new.records rid }
        ensures left { OnOk result (left self.new.records ≡ left self.old.records + 1) }
        ensures refused { OnErr result (self.new ≡ self.old) }
    {
        self.index.stands_once();
        let place = places::take(&mut self.space)?;
        if let Err(refused) = places::add(
            &mut self.chains,
            &mut self.longs,
            Placed { rid, place },
            image,
            by,
        ) {
            self.space.give_place(place);
            return Err(refused);
        }
        if let Err(refused) = self.index.insert(rid, place) {
            self.longs.leave(rid.table, place);
            self.chains.undo(place, by);
            self.space.give_place(place);
            return Err(refused);
        }
        Ok(())
    }

    /// Removes the transaction's open write of a record. A record that has no other version is dropped.
    pub fn undo(&mut self, rid: Rid, by: Writer)
        requires { IsTrue (begins_open by (versions_of self.old.records rid)) }
        ensures here { versions_of self.new.records rid ≡
            drop 1 (versions_of self.old.records rid) }
        ensures others { OthersStay self.old.records self.new.records rid }
        ensures left { left self.new.records + 1 ≡ left self.old.records }
    {
        let Some(place) = self.index.place(rid) else {
            return;
        };
        self.chains.undo(place, by);
        let placed = Placed { rid, place };
        leave_bare(&mut self.longs, &self.chains, placed);
        drop_bare(&mut self.index, &mut self.space, &self.chains, placed);
    }

    /// Gives the transaction's open write of a record its number.
    pub fn stamp(&mut self, rid: Rid, by: Writer, number: u64)
        requires open_write { IsTrue (begins_open by (versions_of self.old.records rid)) }
        requires over { Each (IsBelow number) (drop 1 (versions_of self.old.records rid)) }
        ensures here { versions_of self.new.records rid ≡
            stamped by number (versions_of self.old.records rid) }
        ensures others { OthersStay self.old.records self.new.records rid }
        ensures left { left self.new.records ≡ left self.old.records }
    {
        if let Some(place) = self.index.place(rid) {
            self.chains.stamp(place, by, number);
        }
    }

    /// How many records of a table can be shortened.
    pub fn long_count(&self, table: TableId) -> usize
        ensures count { result ≡ length (keys_in self.now.long table) }
        ensures whole { AreLong (keys_in self.now.long table) table self.now.records }
    {
        self.index.stands_once();
        self.longs.stand_once();
        self.longs.count(table)
    }

    /// The key of one of them.
    pub fn long_key(&self, table: TableId, at: usize) -> u64
        requires { at < length (keys_in self.now.long table) }
        ensures { slice_get (keys_in self.now.long table) at ≡ Some result }
    {
        self.longs.key(table, at)
    }
}
