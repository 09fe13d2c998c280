//! What a session asks.

use crate::report::Kind;
use crate::rid::{Rid, TableId};
use crate::row::Row;
use crate::scope::Scope;

/// One statement of a session.
#[derive(Debug, Drop)]
pub enum Statement {
    Begin(Scope),
    Get(Rid),
    Put(Rid, Row),
    Del(Rid),
    /// Every key from `low` to `high`, both included.
    Scan { table: TableId, low: u64, high: u64 },
    /// Begins a transaction that reads every key from `low` to `high` in parts, all at its snapshot.
    CursorOpen { table: TableId, low: u64, high: u64 },
    /// The next rows of the open cursor: at most this many, which is at least 1.
    Fetch(u32),
    CursorClose,
    Commit,
    Rollback,
    /// One pass of a collector.
    Gc(Kind),
}

/// A record of a session: its place among all records of the script, counted from 1, the session and its statement.
#[derive(Drop)]
pub struct Record {
    pub place: u64,
    pub session: u32,
    pub statement: Statement,
}
