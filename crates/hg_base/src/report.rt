//! What a collector's pass found and removed.

ghost use Rattle.std.specs.Prelude.{◌≡◌, ◌≤◌, ◌++◌, ◌∷◌, [], length, map, IfOk, OnOk, OnErr};
ghost use Rattle.hg_base.specs.Reports.{told_of, sweep_of};

use crate::fault::NoMemory;
use crate::scope::Scope;
use std::alloc::{AllocError, Global};
use std::marker::Model;

/// Which collector.
#[derive(Clone, Copy, Debug, PartialEq, Eq)]
pub enum Kind {
    Group,
    Table,
    Interval,
}

/// A live snapshot that a pass met in a session's register. Where the session began anew before its mask was read, the scope may be
/// that of its later transaction.
#[derive(Clone, Copy)]
pub struct Entry {
    pub session: u32,
    pub number: u64,
    pub scope: Scope,
    /// Whether it was moved to the trackers of its declared tables.
    pub moved: bool,
}

/// An entry as it is printed.
#[derive(Clone, Copy)]
pub struct Told {
    pub session: u32,
    pub number: u64,
    pub moved: bool,
}

/// Entries by ascending session. A list has its room from when it is made, and can be filled again.
#[derive(Drop)]
pub struct EntryList {
    entries: Vec<Entry>,
}

impl Model for EntryList {
    ghost use Rattle.std.specs.Prelude.{vec_capacity};
    ghost use Rattle.hg_base.specs.Entries.{Entries};

    ghost Value = { Entries };

    ghost view = { λ a. record { list = a.entries.items; room = vec_capacity a.entries } };
}

impl From<Vec<Entry>> for EntryList {
    ghost from_gives = { λ entries list. list.list ≡ entries.items };

    fn from(entries: Vec<Entry>) -> EntryList {
        EntryList { entries }
    }
}

impl EntryList {
    /// None yet, with room for so many.
    pub fn with_capacity(alloc: Global, room: usize) -> Result<EntryList, NoMemory>
        ensures { IfOk result (λ list. (list.list ≡ []) × (room ≤ list.room)) }
    {
        let entries = Vec::with_capacity(alloc, room)?;
        Ok(EntryList { entries })
    }

    /// Has these entries in place of its own. No memory is taken.
    pub fn refill(&mut self, entries: &[Entry])
        requires room { length entries.now ≤ self.old.room }
        ensures list { self.new.list ≡ entries.now }
        ensures room { self.old.room ≤ self.new.room }
    {
        self.entries.clear();
        if self.entries.extend_from_slice(entries).is_err() {
            unreachable!();
        }
    }

    pub fn as_slice(&self) -> &[Entry]
        ensures { result.now ≡ self.now.list }
    {
        &self.entries
    }

    pub fn into_vec(self) -> Vec<Entry>
        ensures { result.items ≡ self.list }
    {
        self.entries
    }
}

/// Told entries by ascending session.
#[derive(Drop)]
pub struct ToldList {
    told: Vec<Told>,
}

impl Model for ToldList {
    ghost use Rattle.std.specs.Prelude.{List};
    ghost use Rattle.hg_base.specs.declared.report.Told.{Told};

    ghost Value = { List Told };

    ghost view = { λ a. a.told.items };
}

impl From<Vec<Told>> for ToldList {
    ghost from_gives = { λ told list. list ≡ told.items };

    fn from(told: Vec<Told>) -> ToldList {
        ToldList { told }
    }
}

impl ToldList {
    pub fn push(&mut self, told: Told) -> Result<(), NoMemory>
        ensures ok { OnOk result (self.new ≡ self.old ++ told ∷ []) }
        ensures err { OnErr result (self.new ≡ self.old) }
    {
        self.told.push(told)?;
        Ok(())
    }

    pub fn as_slice(&self) -> &[Told]
        ensures { result.now ≡ self.now }
    {
        &self.told
    }

    pub fn into_vec(self) -> Vec<Told>
        ensures { result.items ≡ self }
    {
        self.told
    }
}

/// A pass as its collector lends it: the mark and horizon of its gather, how many versions it removed, and the live
/// snapshots that it met.
#[derive(Drop)]
pub struct Report {
    pub kind: Kind,
    pub mark: u64,
    pub horizon: u64,
    pub removed: u64,
    pub entries: EntryList,
}

/// A report as it is printed.
#[derive(Drop)]
pub struct Sweep {
    pub kind: Kind,
    pub mark: u64,
    pub horizon: u64,
    pub removed: u64,
    pub held: ToldList,
}

impl Entry {
    /// The entry without its scope.
    pub fn told(&self) -> Told
        ensures { result ≡ told_of self.now }
    {
        Told {
            session: self.session,
            number: self.number,
            moved: self.moved,
        }
    }
}

fn tell(alloc: Global, entries: &[Entry]) -> Result<Vec<Told>, AllocError>
    ensures { IfOk result (λ told. told.items ≡ map told_of entries.now) }
{
    entries.iter().map(|entry| entry.told()).collect(alloc)
}

impl Report {
    /// The report without the scopes of its entries.
    pub fn told(&self) -> Result<Sweep, NoMemory>
        ensures { IfOk result (λ sweep. sweep ≡ sweep_of self.now) }
    {
        let entries = &self.entries.entries;
        let held = tell(*entries.allocator(), entries)?;
        Ok(Sweep {
            kind: self.kind,
            mark: self.mark,
            horizon: self.horizon,
            removed: self.removed,
            held: ToldList { told: held },
        })
    }
}
