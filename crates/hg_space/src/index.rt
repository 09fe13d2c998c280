//! Which place a record has.

ghost use Rattle.std.specs.Prelude.{◌≡◌, ◌↔◌, ℕ, ◌<◌, ◌≤◌, ◌^◌, [], Some, None, IsTrue, IsFalse, OnOk, OnErr};
ghost use Rattle.std.specs.BTreeMap.{insert_entry};
ghost use Rattle.std.specs.Map.{remove_entry};
ghost use Rattle.hg_base.specs.declared.rid.Rid.{Rid};
ghost use Rattle.hg_base.specs.History.{same_rid};
ghost use Rattle.hg_base.specs.RidOrder.{rid_cmp};
ghost use Rattle.hg_space.specs.Index.{place_of, HasPlace, IsIndex, IsNextKey};

use crate::slots::{Finding, Slots};
use hg_base::{NoMemory, Rid, TableId};
use std::alloc::Global;
use std::collections::BTreeMap;
use std::marker::Model;

/// A place for each record, and no place for two.
#[derive(Drop)]
pub struct RidIndex {
    places: BTreeMap<Rid, u32>,
    slots: Slots,
    alloc: Global,
}

impl Model for RidIndex {
    ghost use Rattle.std.specs.Prelude.{List, ℕ, length};
    ghost use Rattle.hg_base.specs.declared.rid.Rid.{Rid};

    ghost Value = { List (Rid × ℕ) };

    ghost use Rattle.hg_space.specs.Index.{IsIndex};
    ghost use Rattle.hg_space.specs.Slots.{AreFaithful, HaveRoom};

    ghost view = { λ a. a.places.entries };

    ghost invariant = { λ a. IsIndex a.places.entries × AreFaithful a.slots a.places.entries × HaveRoom a.slots (length a.places.entries) };
}

impl RidIndex {
    /// No record. It takes no memory.
    pub fn new(alloc: Global) -> RidIndex
        ensures { result ≡ [] }
    {
        RidIndex {
            places: BTreeMap::new(alloc),
            slots: Slots::new(alloc),
            alloc,
        }
    }

    /// No record stands twice, and no two have the same place: for clauses. It looks nothing up.
    pub fn stands_once(&self)
        ensures { IsIndex self.now }
    {
        let _ = &self.places;
    }

    /// The place of a record, if it has one. No two records have the same.
    pub fn place(&self, rid: Rid) -> Option<u64>
        ensures place { result ≡ place_of self.now rid }
        ensures index { IsIndex self.now }
    {
        match self.slots.look(rid) {
            Finding::There(place) => Some(place as u64),
            Finding::Absent => None,
            Finding::Unknown => self.searched(rid),
        }
    }

    // The place of a record, by a search in the order of the records.
    fn searched(&self, rid: Rid) -> Option<u64>
        ensures { result ≡ place_of self.now rid }
    {
        let place = self.places.get(&rid)?;
        Some(*place as u64)
    }

    /// Whether a place is past those that the index has numbers for.
    pub fn is_past(place: u64) -> bool
        ensures { IsTrue result ↔ (2 ^ 32 ≤ place) }
    {
        place > u32::MAX as u64
    }

    /// Gives a record a place.
    pub fn insert(&mut self, rid: Rid, place: u64) -> Result<(), NoMemory>
        requires new_record { place_of self.old rid ≡ None }
        requires new_place { (q : Rid) → HasPlace self.old q place → ⊥ }
        requires within { place < 2 ^ 32 }
        ensures here { OnOk result (place_of self.new rid ≡ Some place) }
        ensures others { (q : Rid) → IsFalse (same_rid rid q) →
            place_of self.new q ≡ place_of self.old q }
        ensures list { OnOk result (self.new ≡ insert_entry rid_cmp self.old rid place) }
        ensures refused { OnErr result (self.new ≡ self.old) }
    {
        let place = place as u32;
        self.slots.reserve(&self.places, self.alloc)?;
        self.places.insert(rid, place)?;
        self.slots.put(rid, place);
        Ok(())
    }

    /// Takes a record's place from it.
    pub fn remove(&mut self, rid: Rid) -> Option<u64>
        ensures place { result ≡ place_of self.old rid }
        ensures gone { place_of self.new rid ≡ None }
        ensures others { (q : Rid) → IsFalse (same_rid rid q) →
            place_of self.new q ≡ place_of self.old q }
        ensures list { self.new ≡ remove_entry (same_rid rid) self.old }
    {
        let place = self.places.remove(&rid).map(u64::from);
        self.slots.take_out(rid);
        place
    }

    /// The least key of a table, at or over a number, whose record has a place.
    pub fn next_key(&self, table: TableId, from: u64) -> Option<u64>
        ensures { IsNextKey self.now table from result }
    {
        let start = Rid { table, key: from };
        let (rid, _) = self.places.range(start..).next()?;
        if rid.table != table {
            return None;
        }
        Some(rid.key)
    }
}
