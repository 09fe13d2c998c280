//! A script that keeps the rules.

ghost use Rattle.std.specs.Prelude.{◌≡◌, ◌≤◌, ◌<◌, ◌+◌, ◌∷◌, ◌++◌, [], IfOk, None, OnOk, get_or, length, map, max};
ghost use Rattle.hg_base.specs.Lists.{greatest};
ghost use Rattle.hg_base.specs.Text.{cursor_before};
ghost use Rattle.hg_base.specs.Transcript.{of_session};
ghost use Rattle.hg_base.specs.declared.statement.Record.{Record};
ghost use Rattle.hg_records.specs.Asked.{said_by};
ghost use Rattle.hg_script.specs.Draft.{table_named};
ghost use Rattle.hg_records.specs.Links.{next_from};
ghost use Rattle.hg_script.specs.Meaning.{nothing};
ghost use Rattle.hg_script.specs.Numbered.{AreNumbered, records_before};

use crate::record_list::RecordList;
use crate::table::Table;
use crate::tables::Tables;
use hg_base::{MOST_RECORDS, MOST_SESSIONS, MOST_TABLES, NoMemory, Record, Statement};
use hg_records::{Asked, StatementList};
use std::alloc::Global;
use std::marker::Model;

/// The version, the tables in the order in which they are declared, and the statements in the order in which they stand.
#[derive(Drop)]
pub struct Script {
    version: u8,
    tables: Tables,
    statements: StatementList,
}

impl Model for Script {
    ghost use Rattle.std.specs.Prelude.{◌≤◌, ◌+◌, length};
    ghost use Rattle.hg_base.specs.Script as base;
    ghost use Rattle.hg_base.specs.declared.limits.TheConstants.{MOST_RECORDS, MOST_TABLES};
    ghost use Rattle.hg_script.specs.Numbered.{many_before, numbered};

    ghost Value = { base.Script };

    ghost view = { λ s. record { version = s.version; tables = s.tables; records = numbered (many_before s.version (length s.tables) + 1) s.statements } };

    ghost invariant = { λ s. (length s.tables ≤ MOST_TABLES) × (length s.statements ≤ MOST_RECORDS) };
}

impl Script {
    /// A script of no records.
    pub fn new(alloc: Global) -> Script
        ensures { result ≡ nothing }
    {
        Script {
            version: 1,
            tables: Tables::new(alloc),
            statements: StatementList::new(alloc),
        }
    }

    /// 1 where no record says another.
    pub fn version(&self) -> u8
        ensures { result ≡ self.now.version }
    {
        self.version
    }

    /// How many records stand before the statements: the tables, and the version record of version 2.
    pub fn records_before(&self) -> usize
        ensures { result ≡ records_before self.now }
    {
        self.tables.len() + if self.version == 1 { 0 } else { 1 }
    }

    /// A `TableId` is a table's place here.
    pub fn tables(&self) -> &[Table]
        ensures same { result.now ≡ self.now.tables }
        ensures most { length self.now.tables ≤ MOST_TABLES }
    {
        self.tables.as_slice()
    }

    /// The tables, to find one by its name.
    pub(crate) fn named(&self) -> &Tables
        ensures { result.now ≡ self.now.tables }
    {
        &self.tables
    }

    pub fn record_count(&self) -> usize
        ensures same { result ≡ length self.now.records }
        ensures most { length self.now.records ≤ MOST_RECORDS }

        // So a statement is found by its place.
        ensures places { AreNumbered self.now }
    {
        self.statements.len()
    }

    /// The statement at i, made anew. It takes no memory but for a row with a text or of more than two numbers.
    pub fn record(&self, i: usize) -> Result<Record, NoMemory>
        requires { i < length self.now.records }
        ensures { IfOk result (λ r. r ≡ get_or self.now.records i r) }
    {
        let (session, statement) = self.statements.get(i)?;
        let place = (self.records_before() + 1 + i) as u64;
        Ok(Record {
            place,
            session,
            statement,
        })
    }

    /// The session of the statement at i, and what it asks. This takes no memory.
    pub fn asked(&self, i: usize) -> (u32, Asked)
        requires { i < length self.now.records }
        ensures { (d : Record) →
            let r = get_or self.now.records i d in result ≡
            said_by (cursor_before self.now.records r.session r.place) r }
    {
        self.statements.asked(i)
    }

    /// The greatest number of a session, and 1 where there is no statement.
    pub fn sessions(&self) -> u32
        ensures { result ≡ max 1 (greatest (map (λ r. r.session) self.now.records)) }
    {
        self.statements.sessions()
    }

    /// The records of a session, in the order in which they stand. This takes no memory and little time.
    pub fn records_of(&self, session: u32) -> RecordList<'_>
        ensures { result ≡ of_session session self.now.records }
    {
        RecordList::new(self, session)
    }

    /// Where a session's first statement stands, or `NOWHERE`.
    pub(crate) fn first_of(&self, session: u32) -> u32
        ensures first { result ≡ next_from session 0 (map (λ r. r.session) self.now.records) }
        ensures most { length self.now.records ≤ MOST_RECORDS }
    {
        self.statements.first_of(session)
    }

    /// Where the next statement of the same session stands, or `NOWHERE`.
    pub(crate) fn after(&self, i: usize) -> u32
        requires { i < length self.now.records }
        ensures { (d : Record) →
            result ≡
            next_from (get_or self.now.records i d).session (i + 1)
            (map (λ r. r.session) self.now.records) }
    {
        self.statements.after(i)
    }

    /// The version record counts as one, so it comes first.
    pub(crate) fn set_version(&mut self, version: u8)
        requires { self.old.records ≡ [] }
        ensures { self.new ≡ record self.old { version = version } }
    {
        self.version = version;
    }

    /// Places go on from the tables, so tables come first.
    pub fn declare(&mut self, table: Table) -> Result<(), NoMemory>
        requires room { length self.old.tables < MOST_TABLES }
        requires fresh { table_named self.old.tables table.name ≡ None }
        requires first { self.old.records ≡ [] }
        ensures { OnOk result
            (self.new ≡ record self.old { tables = self.old.tables ++ table ∷ [] }) }
    {
        self.tables.push(table)?;
        Ok(())
    }

    /// Adds a statement after the others.
    pub fn add(&mut self, session: u32, statement: Statement) -> Result<(), NoMemory>
        requires session { session ≤ MOST_SESSIONS }
        requires room { length self.old.records < MOST_RECORDS }
        ensures { OnOk result (self.new ≡
            let place = records_before self.old + length self.old.records + 1 in
            let added : Record = record {
              place = place;
              session = session;
              statement = statement;
            } in
            record self.old { records = self.old.records ++ added ∷ [] }) }
    {
        self.statements.push(session, statement)?;
        Ok(())
    }
}
