//! Which records of a table are listed.

ghost use Rattle.std.specs.Prelude.{◌≡◌, ℕ, ◌+◌, ◌<◌, ◌≤◌, ◌^◌, [], ◌∷◌, ◌++◌, length, take, Some, IsTrue, IfOk, OnOk, OnErr, slice_get, slice_set, vec_len, option_map, ◌↔◌};
ghost use Rattle.std.specs.List.{swap_remove};
ghost use Rattle.hg_space.specs.declared.roster.Listed.{Listed};
ghost use Rattle.hg_space.specs.Rosters.{list_of, keys_of, lists_in, Has, StandsNowhere, StandsIn, StandOnce};

use hg_base::{NoMemory, TableId};
use std::alloc::Global;
use std::marker::Model;

/// A record that a list has, and its place.
#[derive(Clone, Copy)]
pub(crate) struct Listed {
    key: u64,
    place: u64,
}

/// Where the record of a place stands: in which table's list, and at which index.
#[derive(Clone, Copy)]
pub(crate) struct Standing {
    table: TableId,
    at: u32,
}

/// For each table a list of some of its records.
#[derive(Drop)]
pub struct Roster {
    lists: Vec<Vec<Listed>>,
    standings: Vec<Standing>,
    alloc: Global,
}

impl Model for Roster {
    ghost use Rattle.std.specs.Prelude.{List};
    ghost use Rattle.hg_space.specs.declared.roster.Listed.{Listed};

    ghost Value = { List (List Listed) };

    ghost use Rattle.hg_space.specs.Rosters.{lists_in, trimmed, AreStanding};

    ghost view = { λ r. trimmed (lists_in r.lists.items) };

    ghost invariant = { λ r. AreStanding (lists_in r.lists.items) r.standings.items };
}

impl Roster {
    /// No list has a record. It takes no memory.
    pub fn new(alloc: Global) -> Roster
        ensures { result ≡ [] }
    {
        Roster {
            lists: Vec::new(alloc),
            standings: Vec::new(alloc),
            alloc,
        }
    }

    /// No place stands twice: for clauses. It looks nothing up.
    pub fn stand_once(&self)
        ensures { StandOnce self.now }
    {
        let _ = &self.standings;
    }

    /// How many records a table's list has.
    pub fn count(&self, table: TableId) -> usize
        ensures { result ≡ length (list_of self.now table.0) }
    {
        let Some(list) = self.lists.get(table.0 as usize) else {
            return 0;
        };
        list.len()
    }

    /// The key of one of them.
    pub fn key(&self, table: TableId, at: usize) -> u64
        requires { at < length (list_of self.now table.0) }
        ensures { slice_get (keys_of (list_of self.now table.0)) at ≡ Some result }
    {
        let list = &self.lists[table.0 as usize];
        list[at].key
    }

    /// The place of one of them.
    pub fn place(&self, table: TableId, at: usize) -> u64
        requires { at < length (list_of self.now table.0) }
        ensures { option_map (λ e. e.place) (slice_get (list_of self.now table.0) at) ≡
            Some result }
    {
        let list = &self.lists[table.0 as usize];
        list[at].place
    }

    /// Puts a record at the end of its table's list. No list has another of its place. A list of 2^32 records takes no more: that
    /// is refused as memory is.
    pub fn enter(&mut self, table: TableId, key: u64, place: u64) -> Result<(), NoMemory>
        requires new_place { StandsNowhere self.old place }
        requires small { place < 2 ^ 40 }
        ensures last { OnOk result (list_of self.new table.0 ≡
            list_of self.old table.0 ++ record { key = key; place = place } ∷ []) }
        ensures others { (t : ℕ) → (t ≡ table.0 → ⊥) → list_of self.new t ≡ list_of self.old t }
        ensures refused { OnErr result (self.new ≡ self.old) }
    {
        reach(&mut self.standings, place)?;
        let at = append(&mut self.lists, table, Listed { key, place }, self.alloc)?;
        self.standings[place as usize] = Standing { table, at };
        Ok(())
    }

    /// Takes the record of a place out of its table's list. The last one of the list comes to its index.
    pub fn leave(&mut self, table: TableId, place: u64)
        requires { StandsIn (list_of self.old table.0) place }
        ensures moved { (at : ℕ) (e : Listed) → slice_get (list_of self.old table.0) at ≡ Some e →
            e.place ≡ place →
            list_of self.new table.0 ≡ swap_remove (list_of self.old table.0) at e }
        ensures front { (at : ℕ) (e : Listed) → slice_get (list_of self.old table.0) at ≡ Some e →
            e.place ≡ place →
            take at (list_of self.new table.0) ≡ take at (list_of self.old table.0) }
        ensures stay { (e : Listed) →
            Has (list_of self.new table.0) e ↔
            (Has (list_of self.old table.0) e × (e.place ≡ place → ⊥)) }
        ensures others { (t : ℕ) → (t ≡ table.0 → ⊥) → list_of self.new t ≡ list_of self.old t }
    {
        let at = self.standings[place as usize].at;
        if let Some(moved) = take_out(&mut self.lists, table, at as usize) {
            self.standings[moved as usize].at = at;
        }
    }
}

// Begins lists, so that a table has one.
fn begin(lists: &mut Vec<Vec<Listed>>, table: TableId, alloc: Global) -> Result<(), NoMemory>
    ensures there { OnOk result (table.0 < vec_len lists.new) }
    ensures same { (t : ℕ) →
        list_of (lists_in lists.new.items) t ≡ list_of (lists_in lists.old.items) t }
{
    while lists.len() <= table.0 as usize {
        lists.push(Vec::new(alloc))?;
    }
    Ok(())
}

// Whether a list has as many records as an index can count.
fn is_full(list: &[Listed]) -> bool
    ensures { IsTrue result ↔ (2 ^ 32 ≤ length list.now) }
{
    list.len() >= 1 << 32
}

// Puts a record at the end of a table's list. The answer is its index.
fn append(
    lists: &mut Vec<Vec<Listed>>,
    table: TableId,
    listed: Listed,
    alloc: Global,
) -> Result<u32, NoMemory>
    ensures at { IfOk result (λ at. at ≡ length (list_of (lists_in lists.old.items) table.0)) }
    ensures last { OnOk result (list_of (lists_in lists.new.items) table.0 ≡
        list_of (lists_in lists.old.items) table.0 ++ listed ∷ []) }
    ensures others { (t : ℕ) → (t ≡ table.0 → ⊥) →
        list_of (lists_in lists.new.items) t ≡ list_of (lists_in lists.old.items) t }
    ensures refused { OnErr result ((t : ℕ) →
        list_of (lists_in lists.new.items) t ≡ list_of (lists_in lists.old.items) t) }
{
    begin(lists, table, alloc)?;
    let list = &mut lists[table.0 as usize];
    if is_full(list.as_slice()) {
        return Err(NoMemory);
    }
    let at = list.len() as u32;
    list.push(listed)?;
    Ok(at)
}

// Makes sure that a place has a standing.
fn reach(standings: &mut Vec<Standing>, place: u64) -> Result<(), NoMemory>
    requires { place < 2 ^ 40 }
    ensures there { OnOk result (place < vec_len standings.new) }
    ensures stay { (p : ℕ) → p < length standings.old.items →
        slice_get standings.new.items p ≡ slice_get standings.old.items p }
{
    let many = place as usize + 1;
    if standings.len() < many {
        let none = Standing {
            table: TableId(0),
            at: 0,
        };
        standings.resize(many, none)?;
    }
    Ok(())
}

// Takes one record out of a table's list. The answer is the place of the one that has come to its index, if one has.
fn take_out(lists: &mut Vec<Vec<Listed>>, table: TableId, at: usize) -> Option<u64>
    requires { at < length (list_of (lists_in lists.old.items) table.0) }
    ensures list { (e : Listed) →
        slice_get (list_of (lists_in lists.old.items) table.0) at ≡ Some e →
        list_of (lists_in lists.new.items) table.0 ≡
        swap_remove (list_of (lists_in lists.old.items) table.0) at e }
    ensures moved { result ≡
        option_map (λ e. e.place) (slice_get (list_of (lists_in lists.new.items) table.0) at) }
    ensures others { (t : ℕ) → (t ≡ table.0 → ⊥) →
        list_of (lists_in lists.new.items) t ≡ list_of (lists_in lists.old.items) t }
{
    let list = &mut lists[table.0 as usize];
    let _left = list.swap_remove(at);
    let moved = list.get(at)?;
    Some(moved.place)
}
