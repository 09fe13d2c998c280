//! The rows that a fetch has copied.

use hg_base::{NoMemory, Row};
use std::alloc::Global;
use std::collections::BinaryHeap;
use std::marker::Model;

/// Rows in the order in which they were copied, and a heap with the least of their keys: as many as rows are to be returned.
#[derive(Drop)]
pub(crate) struct Firsts {
    rows: Vec<(u64, Row)>,
    keys: BinaryHeap<u64>,
    most: usize,
}

impl Model for Firsts {
    ghost use Rattle.hg_cursor.specs.Firsts.{Copied};

    ghost Value = { Copied };

    ghost use Rattle.std.specs.BinaryHeap.{heap_items, IsHeap};
    ghost use Rattle.std.specs.Ordering.{nat_cmp};
    ghost use Rattle.hg_cursor.specs.Firsts.{AreLeast};

    ghost view = { λ a. record { rows = a.rows.items; most = a.most } };

    ghost use Rattle.std.specs.Prelude.{◌<◌};

    ghost invariant = { λ a. (0 < a.most) × IsHeap nat_cmp (heap_items a.keys) ×
        AreLeast a.most (heap_items a.keys) a.rows.items };
}

impl Firsts {
    ghost use Rattle.std.specs.Prelude.{◌≡◌, ℕ, ◌<◌, ◌≤◌, ◌⊎◌, List, [], ◌∷◌, ◌++◌, length, OnOk, OnErr};
    ghost use Rattle.std.specs.BinaryHeap.{heap_items, IsHeap};
    ghost use Rattle.std.specs.Ordering.{nat_cmp};
    ghost use Rattle.hg_base.specs.declared.value.Value.{Value};
    ghost use Rattle.hg_base.specs.Transcript.{passed};
    ghost use Rattle.hg_cursor.specs.Keys.{Rows};
    ghost use Rattle.hg_cursor.specs.Firsts.{AreLeast, IsNeeded, count_upto, rows_upto, Keeps};

    /// No row. It takes no memory.
    pub(crate) fn new(alloc: Global, most: usize) -> Firsts
        requires { 0 < most }
        ensures { result ≡ record { rows = []; most = most } }
    {
        Firsts {
            rows: Vec::new(alloc),
            keys: BinaryHeap::new(alloc),
            most,
        }
    }

    // Puts a key in the place of the greatest one, once there are as many keys as rows are to be returned.
    fn replace_greatest(keys: &mut BinaryHeap<u64>, key: u64)
        requires { 0 < length (heap_items keys.old) }
        ensures heap { IsHeap nat_cmp (heap_items keys.old) → IsHeap nat_cmp (heap_items keys.new) }
        ensures least { (n : ℕ) (rows : Rows) (row : List Value) →
            IsHeap nat_cmp (heap_items keys.old) →
            n ≤ length (heap_items keys.old) →
            IsNeeded key (record { rows = rows; most = n }) →
            AreLeast n (heap_items keys.old) rows →
            AreLeast n (heap_items keys.new) (rows ++ (key, row) ∷ []) }
    {
        if let Some(mut greatest) = keys.peek_mut() {
            *greatest = key;
        }
    }

    // Keeps a key among the least ones, of which there are as many as rows are to be returned, or all.
    fn keep_least(keys: &mut BinaryHeap<u64>, most: usize, key: u64) -> Result<(), NoMemory>
        requires { 0 < most }
        ensures heap { IsHeap nat_cmp (heap_items keys.old) → IsHeap nat_cmp (heap_items keys.new) }
        ensures least { (rows : Rows) (row : List Value) →
            IsHeap nat_cmp (heap_items keys.old) →
            IsNeeded key (record { rows = rows; most = most }) →
            AreLeast most (heap_items keys.old) rows →
            OnOk result (AreLeast most (heap_items keys.new) (rows ++ (key, row) ∷ [])) }
        ensures refused { OnErr result (heap_items keys.new ≡ heap_items keys.old) }
    {
        if keys.len() < most {
            keys.push(key)?;
            return Ok(());
        }
        Firsts::replace_greatest(keys, key);
        Ok(())
    }

    /// Adds a row that is needed.
    pub(crate) fn add(&mut self, key: u64, row: Row) -> Result<(), NoMemory>
        requires { IsNeeded key self.old }
        ensures added { OnOk result (self.new.rows ≡ self.old.rows ++ (key, row) ∷ []) }
        ensures most { self.new.most ≡ self.old.most }
        ensures needed { OnOk result (IsNeeded key self.new) }
        ensures refused { OnErr result (self.new ≡ self.old) }
    {
        self.rows.reserve(1)?;
        Firsts::keep_least(&mut self.keys, self.most, key)?;
        self.rows.push_reserved((key, row));
        Ok(())
    }

    /// How far the rows that are still needed go, once all up to `key` were added: to the last of the least keys where there are
    /// as many as rows are to be returned, and else to `limit`.
    pub(crate) fn limit_after(&self, key: u64, limit: u64) -> u64
        requires within { key ≤ limit }
        requires needed { IsNeeded key self.now }
        ensures within { (key ≤ result) × (result ≤ limit) }
        ensures enough { (result ≡ limit) ⊎ (self.now.most ≤ count_upto result self.now.rows) }
        ensures needed { IsNeeded result self.now }
    {
        if self.keys.len() < self.most {
            return limit;
        }
        match self.keys.peek() {
            Some(last) if *last <= limit => *last,
            Some(_) => limit,
            None => limit,
        }
    }

    /// The first of the rows up to `limit`, by key: as many as are to be returned, or all.
    pub(crate) fn into_rows(self, limit: u64) -> Vec<(u64, Row)>
        ensures { Keeps self.most limit (rows_upto limit self.rows) result.items
            (passed self.most limit result.items) }
    {
        let Firsts { rows, most, .. } = self;
        let mut rows = rows;
        rows.retain(|row| row.0 <= limit);
        rows.sort_unstable_by_key(|row| row.0);
        rows.truncate(most);
        rows
    }
}
