//! What each group of the history writes, by record and commit number.

ghost use Rattle.std.specs.Prelude.{◌≡◌, ℕ, ◌<◌, ◌≤◌, ◌^◌, ◌&&◌, ◌==◌, [], Some, None, if◌then◌else◌, is_none, is_some, option_copied, IfOk, OnOk, IfSome};
ghost use Rattle.hg_base.specs.declared.rid.Rid.{Rid};
ghost use Rattle.hg_base.specs.History.{History, same_rid, visible, does_write};
ghost use Rattle.hg_known.specs.Written.{image_at, told, IsLastAt, IsLastShown, IsNextRid, IsOfHistory, shown};

use crate::own::record_at;
use hg_base::{Image, NoMemory, Rid, Row, TableId};
use std::alloc::Global;
use std::collections::BTreeMap;
use std::marker::Model;
use std::ops::Bound;

/// A record, and the number of a group. Ordered by record, and then by number.
#[derive(Clone, Copy, PartialEq, Eq, PartialOrd, Ord)]
pub struct Slot {
    pub rid: Rid,
    pub number: u64,
}

/// Images by record and number.
#[derive(Drop)]
pub struct Writes {
    images: BTreeMap<Slot, Image>,
}

impl Model for Writes {
    ghost use Rattle.std.specs.Prelude.{List};
    ghost use Rattle.hg_base.specs.declared.image.Image.{Image};
    ghost use Rattle.hg_known.specs.declared.writes.Slot.{Slot};

    ghost Value = { List (Slot × Image) };

    ghost view = { λ a. a.images.entries };
}

impl Writes {
    /// No group writes anything. It takes no memory.
    pub fn new(alloc: Global) -> Writes
        ensures { result ≡ [] }
    {
        Writes {
            images: BTreeMap::new(alloc),
        }
    }

    /// The group of that number writes the record. The answer is whether it did not before.
    pub fn add(&mut self, rid: Rid, number: u64, image: Image) -> Result<bool, NoMemory>
        ensures first { IfOk result (λ first. first ≡ is_none (image_at self.old rid number)) }
        ensures added { OnOk result ((q : Rid) (n : ℕ) →
            image_at self.new q n ≡
            (if same_rid rid q && (number == n) then Some image else image_at self.old q
            n)) }
    {
        let slot = Slot { rid, number };
        let before = self.images.insert(slot, image)?;
        Ok(before.is_none())
    }

    /// Whether the group of that number writes the record.
    pub fn has(&self, rid: Rid, number: u64) -> bool
        ensures { result ≡ is_some (image_at self.now rid number) }
    {
        let slot = Slot { rid, number };
        self.images.contains_key(&slot)
    }

    /// The last write of the record that is numbered at or below a number.
    pub fn last(&self, rid: Rid, number: u64) -> Option<(u64, &Image)>
        ensures { IsLastAt self.now rid number (told result) }
    {
        let end = Slot { rid, number };
        let (slot, image) = self.images.range(..=end).next_back()?;
        if slot.rid != rid {
            return None;
        }
        Some((slot.number, image))
    }

    /// Whether the group of that number writes the record, as the history has it.
    pub fn does_write(&self, rid: Rid, number: u64) -> bool
        ensures { (h : History) → IsOfHistory h self.now → result ≡ does_write h number rid }
    {
        self.has(rid, number)
    }

    /// What a table that never reclaims shows of the record at a snapshot.
    pub fn visible(&self, rid: Rid, at: u64) -> Option<&Row>
        ensures { (h : History) → IsOfHistory h self.now →
            option_copied result ≡ (visible h rid at).row }
    {
        let (_, image) = self.last(rid, at)?;
        image.row.as_ref()
    }

    /// The greatest key of the table, at or below a key, that is written, with what is visible of it at a snapshot. Of no key over it
    /// is a row visible, and of none at all where there is no such key.
    pub fn last_shown(&self, table: TableId, key: u64, at: u64) -> Option<(u64, Option<&Row>)>
        ensures within { IfSome result (λ found. found.0 ≤ key) }
        ensures shown { (h : History) → IsOfHistory h self.now →
            IsLastShown h table key at (shown result) }
    {
        let end = Slot {
            rid: Rid { table, key },
            number: u64::MAX,
        };
        let (slot, image) = self.images.range(..=end).next_back()?;
        if slot.rid.table != table {
            return None;
        }
        if slot.number <= at {
            return Some((slot.rid.key, image.row.as_ref()));
        }
        Some((slot.rid.key, self.visible(slot.rid, at)))
    }

    /// The record of the least slot over a record and a number that is written.
    pub fn next_rid(&self, rid: Rid, number: u64) -> Option<Rid>
        ensures next { IsNextRid self.now rid number result }
        ensures small { IfSome result (λ r. (r.table.0 < 256) × (r.key < 2 ^ 64)) }
    {
        let start = Bound::Excluded(Slot { rid, number });
        let (slot, _) = self.images.range((start, Bound::Unbounded)).next()?;
        Some(record_at(slot.rid.table.0, slot.rid.key))
    }
}
