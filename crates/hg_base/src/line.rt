//! What is answered and printed.

ghost use Rattle.std.specs.Prelude.{◌≡◌, ◌++◌, ◌∷◌, [], OnOk, OnErr};

use crate::fault::NoMemory;
use crate::report::Sweep;
use crate::rid::TableId;
use crate::row::{Row, RowList};
use crate::writer::Writer;
use std::alloc::Global;
use std::marker::Model;

/// What a statement is answered.
#[derive(Drop)]
pub enum Answer {
    /// The snapshot of the transaction.
    Begun(u64),
    Stored,
    Found(Row),
    /// No row is seen.
    Nothing,
    /// A row was there, and is deleted.
    Gone,
    Rows(RowList),
    /// The number of the group in which the transaction is committed.
    Committed(u64),
    /// A commit of a transaction that wrote nothing.
    Ended,
    Undone,
    /// Refused: the group of this number wrote the record after the snapshot.
    Newer(u64),
    /// Refused: another transaction has an open write of the record.
    OpenBy(Writer),
    /// Refused: the transaction did not declare the table.
    Undeclared(TableId),
    Swept(Sweep),
    /// A `gc` record of a run, whose collectors work concurrently with the sessions.
    Beside,
}

/// An answer, with the snapshot and the commit number of a statement that is a transaction of its own.
#[derive(Drop)]
pub struct Reply {
    pub at: Option<u64>,
    pub answer: Answer,
    pub number: Option<u64>,
}

/// The reply to a session's record. The reports of a run have session 0, and the round as their place.
#[derive(Drop)]
pub struct Line {
    pub session: u32,
    pub place: u64,
    pub reply: Reply,
}

/// Lines in the order in which they are printed.
#[derive(Drop)]
pub struct LineList {
    lines: Vec<Line>,
}

impl Model for LineList {
    ghost use Rattle.std.specs.Prelude.{List};
    ghost use Rattle.hg_base.specs.declared.line.Line.{Line};

    ghost Value = { List Line };

    ghost view = { λ a. a.lines.items };
}

impl From<Vec<Line>> for LineList {
    ghost from_gives = { λ lines list. list ≡ lines.items };

    fn from(lines: Vec<Line>) -> LineList {
        LineList { lines }
    }
}

impl LineList {
    pub fn new(alloc: Global) -> LineList
        ensures { result ≡ [] }
    {
        LineList {
            lines: Vec::new(alloc),
        }
    }

    pub fn push(&mut self, line: Line) -> Result<(), NoMemory>
        ensures ok { OnOk result (self.new ≡ self.old ++ line ∷ []) }
        ensures err { OnErr result (self.new ≡ self.old) }
    {
        self.lines.push(line)?;
        Ok(())
    }

    pub fn as_slice(&self) -> &[Line]
        ensures { result.now ≡ self.now }
    {
        &self.lines
    }

    pub fn into_vec(self) -> Vec<Line>
        ensures { result.items ≡ self }
    {
        self.lines
    }
}

/// How many versions were made, and where they went: undone by a rollback, removed by a collector, or left.
#[derive(Clone, Copy, Debug, PartialEq, Eq)]
pub struct Totals {
    pub made: u64,
    pub undone: u64,
    pub group: u64,
    pub table: u64,
    pub interval: u64,
    pub left: u64,
}

/// All that a run prints.
#[derive(Drop)]
pub struct Printed {
    pub lines: LineList,
    pub totals: Totals,
}
