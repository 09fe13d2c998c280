//! What a pass gathered.

ghost use Rattle.std.specs.Prelude.{◌≡◌, ℕ, ◌<◌, ◌≤◌, [], ◌++◌, length, vec_capacity, All, IsPermutation, IfOk};
ghost use Rattle.std.specs.List.Sorted.{IsNonDecreasing, IsNonDecreasingBy};
ghost use Rattle.hg_core.specs.Passes.{lower, horizon, recorded, table_bound, group_bound};
ghost use Rattle.hg_rule.specs.declared.view.PassPart.{PassPart};
ghost use Rattle.hg_rule.specs.Facts.{record_of};
ghost use Rattle.hg_base.specs.declared.report.Entry.{Entry};
ghost use Rattle.hg_tracker.specs.Gathers.{AreEmpty, AreListsOf};
ghost use Rattle.hg_rule.specs.Rounds.{masked_scope, live_entry, entries_of};
ghost use Rattle.hg_tracker.specs.Entries.{times};

use crate::lists::{fill_claimed, fill_common, fill_moved, lowest_entry, lowest_of, rank, serve};
use hg_base::{Entry, NoMemory, Scope, TableId};
use hg_core::{Loaded, Register};
use std::alloc::Global;

/// The mark that a pass loaded, and what the registers show that it loaded after it. It is made once for the numbers of
/// sessions and tables, and each gather fills it again.
#[derive(Drop)]
pub struct Gathered {
    pub(crate) sessions: u32,
    pub(crate) mark: u64,
    pub(crate) horizon: u64,
    /// Live registers, by ascending session.
    pub(crate) entries: Vec<Entry>,
    /// The same by ascending number.
    pub(crate) ranked: Vec<Entry>,
    /// Those that were moved, by ascending number.
    pub(crate) moved: Vec<Entry>,
    /// The numbers of those that count for all tables, ascending.
    pub(crate) common: Vec<u64>,
    /// Of each table that a moved one counts for, the numbers of those that count for it, ascending. Of others nothing.
    pub(crate) lists: Vec<Vec<u64>>,
    /// Whether a moved one may count for some table. Else no table has a list of its own.
    pub(crate) claimed: bool,
}

// The tables of a mask, and all where none was loaded.
fn masked_scope(mask: Option<u64>) -> Scope
    ensures { result ≡ masked_scope mask }
{
    match mask {
        None => Scope::All,
        Some(mask) => Scope::Declared(mask),
    }
}

// For each table an empty list with room for so many numbers.
fn empty_lists(alloc: Global, sessions: u32, tables: u32) -> Result<Vec<Vec<u64>>, NoMemory>
    ensures count { IfOk result (λ lists. length lists.items ≡ tables) }
    ensures room { IfOk result
        (λ lists. All (λ list. sessions ≤ vec_capacity list) lists.items) }
    ensures empty { IfOk result (λ lists. AreEmpty lists.items) }
{
    let mut lists = Vec::with_capacity(alloc, tables as usize)?;
    for _ in 0..tables {
        let list: Vec<u64> = Vec::with_capacity(alloc, sessions as usize)?;
        lists.push(list)?;
    }
    Ok(lists)
}

impl Gathered {
    ghost use Rattle.hg_tracker.specs.Gathers.{tables_in, IsMadeFor, IsGatherOf};

    /// Takes all the memory that gathers of a board with so many sessions and tables need.
    pub fn new(alloc: Global, sessions: u32, tables: u32) -> Result<Gathered, NoMemory>
        requires { tables ≤ 64 }
        ensures { IfOk result (λ g. IsMadeFor sessions tables g) }
    {
        let lists = empty_lists(alloc, sessions, tables)?;
        Ok(Gathered {
            sessions,
            mark: 0,
            horizon: 0,
            entries: Vec::with_capacity(alloc, sessions as usize)?,
            ranked: Vec::with_capacity(alloc, sessions as usize)?,
            moved: Vec::with_capacity(alloc, sessions as usize)?,
            common: Vec::with_capacity(alloc, sessions as usize)?,
            lists,
            claimed: false,
        })
    }

    /// For how many tables it is made.
    pub fn tables(&self) -> usize
        ensures { result ≡ tables_in self.now }
    {
        self.lists.len()
    }

    /// The mark that the pass loaded.
    pub fn mark(&self) -> u64
        ensures { (sessions : ℕ) (part : PassPart) → IsGatherOf sessions part self.now →
            result ≡ part.mark }
    {
        self.mark
    }

    /// The least of the mark and the numbers of all registers that enter.
    pub fn horizon(&self) -> u64
        ensures { (sessions : ℕ) (part : PassPart) → IsGatherOf sessions part self.now →
            result ≡ horizon (record_of part) }
    {
        self.horizon
    }

    /// The bound of the group collector: the least of the horizon and all snapshots.
    pub fn least(&self) -> u64
        ensures { (sessions : ℕ) (part : PassPart) → IsGatherOf sessions part self.now →
            result ≡ group_bound (record_of part) }
    {
        lowest_entry(self.horizon, &self.ranked)
    }

    /// The bound of a table: the least of the horizon and the snapshots that count for it.
    pub fn bound(&self, t: TableId) -> u64
        requires there { t.0 < tables_in self.now }
        ensures { (sessions : ℕ) (part : PassPart) → IsGatherOf sessions part self.now →
            result ≡ table_bound t (record_of part) }
    {
        lowest_of(self.horizon, serve(&self.common, &self.lists[t.0 as usize]))
    }

    /// The snapshots that count for a table: those that were not moved, and those that were and declared it.
    pub fn for_table(&self, t: TableId) -> &[u64]
        requires there { t.0 < tables_in self.now }
        ensures rises { (sessions : ℕ) (part : PassPart) → IsGatherOf sessions part self.now →
            IsNonDecreasing result.now }
        ensures numbers { (sessions : ℕ) (part : PassPart) → IsGatherOf sessions part self.now →
            (n : ℕ) → times n result.now ≡ times n (recorded t (record_of part)) }
    {
        serve(&self.common, &self.lists[t.0 as usize])
    }

    /// The live registers, by ascending session.
    pub fn entries(&self) -> &[Entry]
        ensures { (sessions : ℕ) (part : PassPart) → IsGatherOf sessions part self.now →
            result.now ≡ entries_of part.loaded }
    {
        &self.entries
    }
}

impl Gathered {
    ghost use Rattle.hg_tracker.specs.Gathers.{tables_in, IsMadeFor, IsNotedOf, IsGatherOf};

    // A record begins at this mark.
    pub(crate) fn start(&mut self, mark: u64)
        ensures noted { IsNotedOf mark [] self.new }
        ensures made { (sessions tables : ℕ) → IsMadeFor sessions tables self.old →
            IsMadeFor sessions tables self.new }
    {
        self.mark = mark;
        self.horizon = mark;
        self.entries.clear();
    }

    // What was loaded of a session comes into the record.
    pub(crate) fn note(&mut self, session: u32, loaded: Loaded)
        requires room { length self.old.entries.items < vec_capacity self.old.entries }
        ensures mark { self.new.mark ≡ self.old.mark }
        ensures horizon { self.new.horizon ≡ lower self.old.horizon loaded.register }
        ensures entries { self.new.entries.items ≡
            self.old.entries.items ++ live_entry session loaded.register loaded.mask }
        ensures made { (sessions tables : ℕ) → IsMadeFor sessions tables self.old →
            IsMadeFor sessions tables self.new }
    {
        match loaded.register {
            Register::Idle => {}
            Register::Entering(number) => self.horizon = self.horizon.min(number),
            Register::Live { number, moved, .. } => {
                let entry = Entry {
                    session,
                    number,
                    scope: masked_scope(loaded.mask),
                    moved,
                };
                if self.entries.push(entry).is_err() {
                    unreachable!();
                }
            }
        }
    }

    // The entries are those of the record: ranks them, and makes the list for all tables, and those of tables that moved ones claim.
    pub(crate) fn sum_up(&mut self)
        requires made { IsMadeFor self.old.sessions (tables_in self.old) self.old }
        requires room { length self.old.entries.items ≤ self.old.sessions }
        ensures noted { (self.new.mark ≡ self.old.mark) × (self.new.horizon ≡ self.old.horizon) ×
            (self.new.entries.items ≡ self.old.entries.items) }
        ensures shuffled { IsPermutation self.new.entries.items self.new.ranked.items }
        ensures rises { IsNonDecreasingBy (λ (e : Entry). e.number) self.new.ranked.items }
        ensures lists { AreListsOf 0 self.new.common.items self.new.ranked.items
            self.new.lists.items }
        ensures made { IsMadeFor self.old.sessions (tables_in self.old) self.new }
    {
        rank(&mut self.ranked, &self.entries);
        fill_common(&mut self.common, &self.ranked);
        fill_moved(&mut self.moved, &self.ranked);
        fill_claimed(
            self.lists.as_mut_slice(),
            &mut self.claimed,
            &self.moved,
            &self.ranked,
            self.sessions,
        );
    }
}
