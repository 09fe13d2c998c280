//! Statements with their sessions, in little memory.
//!
//! The numbers of all rows are in one list, and a put keeps where its own begin and how many they are. The two keys of a scan are
//! in that list too. So a statement takes 24 bytes, and 8 more for each number of its row or 16 more for its two keys. In the 24 is
//! the index of the next statement of its session. A row with a text is kept as it is, in a list of such rows.

ghost use Rattle.std.specs.Prelude.{◌≡◌, ℕ, ◌≤◌, ◌<◌, ◌+◌, ◌∷◌, ◌++◌, [], IfOk, OnErr, OnOk, fold, get_or, length, map, max, take};
ghost use Rattle.hg_base.specs.Lists.{greatest};
ghost use Rattle.hg_base.specs.Text.{opens};
ghost use Rattle.hg_base.specs.declared.statement.Statement.{Statement};
ghost use Rattle.hg_records.specs.Asked.{asked_by};
ghost use Rattle.hg_records.specs.Cursors.{cursor_in};
ghost use Rattle.hg_records.specs.Links.{led, next_from};

use crate::asked::Asked;
use crate::cursors::Cursors;
use crate::ends::{Ends, NOWHERE};
use crate::packed::{Packed, pack, unpack};
use hg_base::{MOST_RECORDS, MOST_SESSIONS, NoMemory, Row, Statement, TableId};
use std::alloc::Global;
use std::marker::Model;
use std::mem::size_of;

#[derive(Clone, Copy)]
pub(crate) struct Entry {
    session: u32,
    // the index of the session's next entry, or `NOWHERE`
    next: u32,
    packed: Packed,
}

const _: () = prove!(size_of::<Entry>() == 24);

/// Each statement with the session that says it.
#[derive(Drop)]
pub struct StatementList {
    entries: Vec<Entry>,
    numbers: Vec<i64>,
    rows: Vec<Row>,
    ends: Ends,
    cursors: Cursors,
}

impl Model for StatementList {
    ghost use Rattle.std.specs.Prelude.{ℕ, ◌≤◌, ◌*◌, List, length, map};
    ghost use Rattle.hg_base.specs.Lists.{Each};
    ghost use Rattle.hg_base.specs.declared.limits.TheConstants.{MOST_COLUMNS, MOST_RECORDS};
    ghost use Rattle.hg_base.specs.declared.statement.Statement.{Statement};
    ghost use Rattle.std.specs.Prelude.{[]};
    ghost use Rattle.hg_records.specs.Cursors.{AreCursored, KnowsCursors};
    ghost use Rattle.hg_records.specs.Links.{IsChained};
    ghost use Rattle.hg_records.specs.Packed.{HasSession, IsWithin, unpacked};

    ghost Value = { List (ℕ × Statement) };

    ghost view = { λ s. map (unpacked s.numbers.items s.rows.items) s.entries.items };

    ghost invariant = { λ s. (length s.entries.items ≤ MOST_RECORDS) × (length s.numbers.items ≤ MOST_COLUMNS * length s.entries.items) × (length s.rows.items ≤ length s.entries.items) × Each (IsWithin (length s.numbers.items) (length s.rows.items)) s.entries.items × Each HasSession s.entries.items × IsChained s.ends s.entries.items × AreCursored [] s.entries.items × KnowsCursors s.cursors.tables s.entries.items };
}

// The table of the cursor that a statement opens.
fn opens(statement: &Statement) -> Option<TableId>
    ensures { result ≡ opens statement.now }
{
    match statement {
        Statement::CursorOpen { table, .. } => Some(*table),
        _ => None,
    }
}

// The entry at l leads to the one at i.
fn lead(entries: &mut Vec<Entry>, l: u32, i: u32)
    ensures { entries.new.items ≡ led l i entries.old.items }
{
    if (l as usize) < entries.len() {
        entries[l as usize].next = i;
    }
}

fn greatest_session(entries: &[Entry]) -> u32
    ensures { result ≡ fold (λ most e. max most e.session) 1 entries.now }
{
    entries
        .iter()
        .fold(1, |most, entry| most.max(entry.session))
}

impl StatementList {
    pub fn new(alloc: Global) -> StatementList
        ensures { result ≡ [] }
    {
        StatementList {
            entries: Vec::new(alloc),
            numbers: Vec::new(alloc),
            rows: Vec::new(alloc),
            ends: Ends::new(),
            cursors: Cursors::new(),
        }
    }

    pub fn len(&self) -> usize
        ensures { result ≡ length self.now }
    {
        self.entries.len()
    }

    pub fn push(&mut self, session: u32, statement: Statement) -> Result<(), NoMemory>
        requires session { session ≤ MOST_SESSIONS }
        requires room { length self.old < MOST_RECORDS }
        ensures ok { OnOk result (self.new ≡ self.old ++ (session, statement) ∷ []) }
        ensures err { OnErr result (self.new ≡ self.old) }
    {
        self.entries.reserve(1)?;
        let cursor = self.cursors.of(session);
        let opened = opens(&statement);
        let packed = pack(&mut self.numbers, &mut self.rows, cursor, statement)?;
        let here = self.entries.len() as u32;
        self.entries.push(Entry {
            session,
            next: NOWHERE,
            packed,
        })?;
        let last = self.ends.note(session, here);
        self.cursors.note(session, opened);
        lead(&mut self.entries, last, here);
        Ok(())
    }

    /// The statement at i and its session. A row of one or two numbers takes no memory.
    pub fn get(&self, i: usize) -> Result<(u32, Statement), NoMemory>
        requires { i < length self.now }
        ensures { IfOk result (λ said. said ≡ get_or self.now i said) }
    {
        let entry = self.entries[i];
        let alloc = *self.numbers.allocator();
        let statement = unpack(alloc, &self.numbers, &self.rows, entry.packed)?;
        Ok((entry.session, statement))
    }

    /// The session at i, and what its statement asks.
    pub fn asked(&self, i: usize) -> (u32, Asked)
        requires { i < length self.now }
        ensures { (d : ℕ × Statement) →
            let said = get_or self.now i d in result ≡
            (said.0, asked_by (cursor_in said.0 (take i self.now)) said.1) }
    {
        let entry = self.entries[i];
        (entry.session, entry.packed.asked())
    }

    /// The greatest session, and 1 where there is no statement.
    pub fn sessions(&self) -> u32
        ensures { result ≡ max 1 (greatest (map (λ said. said.0) self.now)) }
    {
        greatest_session(&self.entries)
    }

    /// The index of a session's first statement, or `NOWHERE`.
    pub fn first_of(&self, session: u32) -> u32
        ensures { result ≡ next_from session 0 (map (λ said. said.0) self.now) }
    {
        self.ends.first(session)
    }

    /// The index of the next statement of the same session, or `NOWHERE`.
    pub fn after(&self, i: usize) -> u32
        requires { i < length self.now }
        ensures { (d : ℕ × Statement) →
            result ≡ next_from (get_or self.now i d).0 (i + 1) (map (λ said. said.0) self.now) }
    {
        self.entries[i].next
    }
}
