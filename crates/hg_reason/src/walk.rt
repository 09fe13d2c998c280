//! The lines of a printed text, one after the other, each with the transaction that it belongs to.

use hg_base::{
    Answer, Line, MOST_SESSIONS, NoMemory, Record, Reply, Rid, Row, Scope, Statement, TableId,
};
use std::alloc::Global;
use std::collections::BTreeMap;
use std::mem;

/// The keys that a cursor has left, from `next` on. It is none if it has passed the greatest key.
#[derive(Clone, Copy)]
pub(crate) struct Rest {
    pub table: TableId,
    pub next: Option<u64>,
    pub high: u64,
}

/// The transaction of a session's last line: open at a snapshot, or over.
#[derive(Clone, Copy)]
pub(crate) struct Tx {
    pub number: u64,
    pub at: u64,
    pub scope: Scope,
    pub rest: Option<Rest>,
    pub is_open: bool,
}

/// A line, with the transaction that it belongs to.
#[derive(Drop)]
pub(crate) struct Said<'a> {
    pub session: u32,
    pub place: u64,
    pub statement: Statement,
    pub reply: &'a Reply,
    pub tx: Tx,
    /// Whether it is a transaction of its own.
    pub alone: bool,
}

/// What a transaction stored of each record: a row, or that it is deleted.
pub(crate) type Stored = BTreeMap<Rid, Option<Row>>;

/// What each session's last line left.
#[derive(Drop)]
pub(crate) struct Walk {
    txs: [Tx; MOST_SESSIONS as usize + 1],
    // what the open transaction of each session stored
    stored: Vec<Stored>,
}

const NONE: Tx = Tx {
    number: 0,
    at: 0,
    scope: Scope::All,
    rest: None,
    is_open: false,
};

/// The commit number that a line prints.
pub(crate) fn committed(said: &Said<'_>) -> Option<u64> {
    if said.alone {
        return said.reply.number;
    }
    match (&said.statement, &said.reply.answer) {
        (Statement::Commit, Answer::Committed(number)) => Some(*number),
        _ => None,
    }
}

/// The snapshot that a line prints.
pub(crate) fn snapshot_of(said: &Said<'_>) -> Option<u64> {
    match &said.reply.answer {
        Answer::Begun(at) => Some(*at),
        _ => said.reply.at,
    }
}

/// Whether a line ends its transaction.
pub(crate) fn ends(said: &Said<'_>) -> bool {
    said.alone
        || matches!(
            &said.statement,
            Statement::Commit | Statement::Rollback | Statement::CursorClose
        )
}

/// What a line stores of which record, if it does.
pub(crate) fn stored_by(said: &Said<'_>) -> Result<Option<(Rid, Option<Row>)>, NoMemory> {
    match (&said.statement, &said.reply.answer) {
        (Statement::Put(rid, row), Answer::Stored) => Ok(Some((*rid, Some(row.copy()?)))),
        (Statement::Del(rid), Answer::Gone) => Ok(Some((*rid, None))),
        _ => Ok(None),
    }
}

fn begun(reply: &Reply) -> u64 {
    match &reply.answer {
        Answer::Begun(at) => *at,
        _ => 0,
    }
}

// The table alone, as a cursor declares it.
fn only(table: TableId) -> Scope {
    Scope::Declared(1u64.checked_shl(u32::from(table.0)).unwrap_or(0))
}

// What a cursor has left after a fetch.
fn after_fetch(rest: Rest, most: u32, answer: &Answer) -> Rest {
    let Answer::Rows(rows) = answer else {
        return rest;
    };
    let rows = rows.as_slice();
    let next = match rows.last() {
        Some((key, _)) if rows.len() >= most as usize => key.checked_add(1),
        _ => rest.high.checked_add(1),
    };
    Rest { next, ..rest }
}

impl Walk {
    pub(crate) fn new(alloc: Global) -> Result<Walk, NoMemory> {
        let mut stored = Vec::new(alloc);
        for _ in 0..MOST_SESSIONS + 1 {
            stored.push(BTreeMap::new(alloc))?;
        }
        Ok(Walk {
            txs: [NONE; MOST_SESSIONS as usize + 1],
            stored,
        })
    }

    /// The transaction of a session's last line.
    pub(crate) fn tx(&self, session: u32) -> Tx {
        self.txs.get(session as usize).copied().unwrap_or(NONE)
    }

    /// What the open transaction of a session stored.
    pub(crate) fn stored(&self, session: u32) -> Option<&Stored> {
        self.stored.get(session as usize)
    }

    // The transaction that the next line of a session belongs to, and whether it is its own.
    fn next_tx(&self, session: u32, statement: &Statement, reply: &Reply) -> (Tx, bool) {
        let last = self.tx(session);
        let begun = Tx {
            number: last.number.saturating_add(1),
            at: begun(reply),
            scope: Scope::All,
            rest: None,
            is_open: true,
        };
        match statement {
            Statement::Begin(scope) => (
                Tx {
                    scope: *scope,
                    ..begun
                },
                false,
            ),
            Statement::CursorOpen { table, low, high } => {
                let rest = Some(Rest {
                    table: *table,
                    next: Some(*low),
                    high: *high,
                });
                (
                    Tx {
                        scope: only(*table),
                        rest,
                        ..begun
                    },
                    false,
                )
            }
            Statement::Gc(_) => (last, false),
            _ if last.is_open => (last, false),
            _ => (
                Tx {
                    at: reply.at.unwrap_or(0),
                    is_open: false,
                    ..begun
                },
                true,
            ),
        }
    }

    /// The line of a record.
    pub(crate) fn said<'a>(&self, asked: Record, line: &'a Line) -> Said<'a> {
        let (tx, alone) = self.next_tx(asked.session, &asked.statement, &line.reply);
        Said {
            session: asked.session,
            place: asked.place,
            statement: asked.statement,
            reply: &line.reply,
            tx,
            alone,
        }
    }

    /// Keeps what a line stores and leaves. What its transaction stored is returned if the line ends it.
    pub(crate) fn keep(
        &mut self,
        alloc: Global,
        said: &Said<'_>,
    ) -> Result<Option<Stored>, NoMemory> {
        if matches!(&said.statement, Statement::Gc(_)) {
            return Ok(None);
        }
        let Some(stored) = self.stored.get_mut(said.session as usize) else {
            return Ok(None);
        };
        if let Some((rid, row)) = stored_by(said)? {
            stored.insert(rid, row)?;
        }
        let ended = ends(said);
        if let Some(tx) = self.txs.get_mut(said.session as usize) {
            let rest = match (&said.statement, said.tx.rest) {
                (Statement::Fetch(most), Some(rest)) => Some(after_fetch(
                    rest,
                    *most,
                    &said.reply.answer,
                )),
                (_, rest) => rest,
            };
            *tx = Tx {
                rest,
                is_open: !ended,
                ..said.tx
            };
        }
        if !ended {
            return Ok(None);
        }
        Ok(Some(mem::replace(stored, BTreeMap::new(alloc))))
    }
}
