//! A cursor over a range of a table, at a snapshot.

ghost use Rattle.std.specs.Prelude.{◌≤◌};
ghost use Rattle.std.specs.Option.{ForSome};

use crate::buckets::{first_rows, last_passed};
use crate::request::Request;
use crate::tables::Tables;
use hg_base::{NoMemory, RowList, TableId};
use hg_rule::SessionPass;
use std::alloc::Global;
use std::sync::Wait;

/// The rows of a range that were not returned yet. It is plain data: its owner keeps the session live at the cursor's snapshot.
#[derive(Clone, Copy, Debug)]
pub struct Cursor {
    pub(crate) at: u64,
    pub(crate) table: TableId,
    pub(crate) high: u64,
    // The first key that was not passed. There is none once the cursor is done.
    pub(crate) rest: Option<u64>,
    ghost within: { ForSome rest (λ low. low ≤ high) },
}

impl Cursor {
    ghost use Rattle.std.specs.Prelude.{◌≡◌, ◌<◌, ℕ, List, None, is_none, IfOk, OnErr};
    ghost use Rattle.hg_base.specs.History.{History};
    ghost use Rattle.hg_core.specs.declared.log.LogEntry.{LogEntry};
    ghost use Rattle.hg_rule.specs.Seats.{board_id, sizes_of, session_view, IsSessionOf};
    ghost use Rattle.hg_store.specs.Stores.{store_buckets};
    ghost use Rattle.hg_cursor.specs.Logs.{IsHeard, ReadsAt, GoesOn};
    ghost use Rattle.hg_cursor.specs.Cursors.{at_of, table_of, high_of, rest_of, shown_at, FetchesRest};
    ghost use Rattle.hg_cursor.specs.Given.{begins_at, AreFirstOf, HasMoved};

    /// A cursor of which no row was returned yet.
    pub fn over(at: u64, table: TableId, low: u64, high: u64) -> Cursor
        ensures at { at_of result ≡ at }
        ensures table { table_of result ≡ table }
        ensures high { high_of result ≡ high }
        ensures rest { rest_of result ≡ begins_at low high }
    {
        let rest = if low <= high { Some(low) } else { None };
        Cursor {
            at,
            table,
            high,
            rest,
        }
    }

    /// Whether all rows were returned: the range is empty, or a fetch returned fewer rows than it was asked for, or the key of the
    /// last row is the last one of the range.
    pub fn done(&self) -> bool
        ensures { result ≡ is_none (rest_of self.now) }
    {
        self.rest.is_none()
    }

    /// The first `most` rows, by key, of those that were not returned yet, or all where there are fewer. Only buckets that can
    /// have a key of the rest of the range are taken, each at most once.
    pub fn fetch<R: Wait>(
        &mut self,
        rt: &R,
        alloc: Global,
        tables: &Tables<'_>,
        pass: &mut SessionPass,
        most: u32,
    ) -> Result<RowList, NoMemory>
        requires own { IsSessionOf (board_id tables.now.board.now) (sizes_of tables.now.board.now)
            pass.old }
        // the session is live at the cursor's snapshot, and has written nothing
        requires reads { ReadsAt (at_of self.old) (table_of self.old) (session_view pass.old) }
        requires most { 1 ≤ most }
        // the log gains one look for each bucket taken, also on Err; the rows are the first ones of these looks
        ensures looks { FetchesRest (store_buckets tables.now.store.now) most
            (session_view pass.old) (table_of self.old) (rest_of self.old) (high_of self.old)
            result (session_view pass.new) }
        // for each history in which the entries of this session's log are right
        ensures rows { IfOk result (λ rows. (h : History) (logs : ℕ → List LogEntry) →
            GoesOn (store_buckets tables.now.store.now) (session_view pass.new) h logs →
            AreFirstOf (shown_at h (table_of self.old) (at_of self.old)) most
            (rest_of self.old) (high_of self.old) rows) }
        ensures moved { IfOk result (λ rows. HasMoved most rows self.old self.new) }
        ensures refused { OnErr result (self.new ≡ self.old) }
        // the next fetch can follow
        ensures reads { ReadsAt (at_of self.old) (table_of self.old) (session_view pass.new) }
        ensures heard { IsHeard (session_view pass.old) → IsHeard (session_view pass.new) }
        ensures own { IsSessionOf (board_id tables.now.board.now) (sizes_of tables.now.board.now)
            pass.new }
    {
        let Some(low) = self.rest else {
            return Ok(RowList::from(Vec::new(alloc)));
        };
        let request = Request {
            at: self.at,
            table: self.table,
            low,
            high: self.high,
            most: most as usize,
        };
        let rows = first_rows(rt, alloc, tables.board, tables.store, pass, request)?;
        let reached = last_passed(rows.as_slice(), request.most, self.high);
        self.rest = if reached < self.high {
            Some(reached + 1)
        } else {
            None
        };
        Ok(rows)
    }
}
