//! A session's cursor: a scan that is read in parts, at one snapshot.
//!
//!     open_cursor     a transaction begins that declares the one table          no lock
//!     fetch           the next rows, of the buckets that can have them          each bucket once
//!     close_cursor    the transaction ends                                      no lock
//!
//! The transaction writes nothing, and its snapshot stays in use until the cursor is closed. So what other sessions commit and
//! what collectors remove meanwhile changes no row of a later fetch.

ghost use Rattle.std.specs.Prelude.{◌≡◌, ◌<◌, ◌≤◌, is_some, Option, Some, None, IsSome, IfOk, OnErr};
ghost use Rattle.hg_base.specs.declared.line.Answer.TheVariants.{Begun, Rows, Ended};
ghost use Rattle.hg_base.specs.declared.statement.Statement.TheVariants as say;
ghost use Rattle.hg_base.specs.Transcript.{Rest, only as only_table, rest_after};
ghost use Rattle.hg_session.specs.Cursors.{HasLeft, HasLookedOn};
ghost use Rattle.hg_session.specs.Engines.{engine_sizes};
ghost use Rattle.hg_session.specs.Frames.{SpendsNone, SpendsOne};
ghost use Rattle.hg_session.specs.Replies.{Answers, AnswersFrom, inside};
ghost use Rattle.hg_session.specs.Sessions.{IsOf, cursor_of, view_of, open_of, left_of, retries_of};

use crate::engine::Engine;
use crate::session::Session;
use crate::statements::only;
use hg_base::{NoMemory, RowList, TableId};
use hg_cursor::Cursor;
use std::sync::Wait;

impl Session {
    /// Whether a cursor is open.
    pub fn has_cursor(&self) -> bool
        ensures { result ≡ is_some (cursor_of self.now) }
    {
        self.cursor.is_some()
    }

    /// Opens a cursor over the keys of a table from `low` to `high`, both included, and returns its snapshot. It begins a
    /// transaction that declares this one table. It allocates nothing and takes no lock.
    pub fn open_cursor(&mut self, engine: &Engine, table: TableId, low: u64, high: u64) -> u64
        requires own { IsOf engine.now self.old }
        requires closed { open_of self.old ≡ None }
        requires left { 0 < left_of self.old }
        requires table { table.0 < (engine_sizes engine.now).tables }
        ensures answers { Answers (engine_sizes engine.now) (view_of self.old)
            (say.CursorOpen table low high) (inside (Begun result)) (view_of self.new) }
        ensures open { open_of self.new ≡
            Some (record { at = result; scope = only_table (Some table) }) }
        ensures cursor { IsSome (cursor_of self.new) }
        ensures rest { HasLeft self.new (Some (record { table = table; low = low; high = high })) }
        // one statement is counted
        ensures spent { SpendsOne engine.now self.old self.new }
    {
        self.spend();
        let snapshot = self.open(engine, only(table));
        self.cursor = Some(Cursor::over(snapshot.at, table, low, high));
        snapshot.at
    }

    /// The next `most` rows of the open cursor, by key, or all that are left where there are fewer. They are those that its
    /// transaction sees, so a scan from what the cursor has left would begin with them. Afterwards the cursor has left what comes
    /// after the last key passed (`moved`). A refusal leaves it as it was.
    pub fn fetch<R: Wait>(
        &mut self,
        rt: &R,
        engine: &Engine,
        most: u32,
    ) -> Result<RowList, NoMemory>
        requires own { IsOf engine.now self.old }
        requires cursor { IsSome (cursor_of self.old) }
        requires left { 0 < left_of self.old }
        requires most { 1 ≤ most }
        ensures answers { (rest : Option Rest) → HasLeft self.old rest → IfOk result (λ rows.
            AnswersFrom rest (engine_sizes engine.now) (view_of self.old) (say.Fetch most)
            (inside (Rows rows)) (view_of self.new)) }
        ensures moved { (rest : Option Rest) → HasLeft self.old rest → IfOk result (λ rows.
            HasLeft self.new (rest_after (say.Fetch most) (Rows rows) rest)) }
        // out of memory: it looked at what the cursor has left, which stays
        ensures refused { OnErr result
            (HasLookedOn (cursor_of self.old) (view_of self.old) (view_of self.new) ×
            (cursor_of self.new ≡ cursor_of self.old)) }
        ensures cursor { IsSome (cursor_of self.new) }
        ensures open { open_of self.new ≡ open_of self.old }
        // one statement is counted
        ensures spent { SpendsOne engine.now self.old self.new }
    {
        self.spend();
        let Some(mut cursor) = self.cursor else {
            unreachable!();
        };
        let tables = engine.tables();
        let rows = cursor.fetch(rt, self.alloc, &tables, &mut self.pass, most)?;
        self.cursor = Some(cursor);
        Ok(rows)
    }

    /// Closes the cursor, and ends its transaction. It allocates nothing and takes no lock.
    pub fn close_cursor(&mut self, engine: &Engine)
        requires own { IsOf engine.now self.old }
        requires cursor { IsSome (cursor_of self.old) }
        ensures answers { Answers (engine_sizes engine.now) (view_of self.old) say.CursorClose
            (inside Ended) (view_of self.new) }
        ensures over { open_of self.new ≡ None }
        ensures retries { retries_of self.new ≡ retries_of self.old }
        // no cursor is open, and no statement is counted
        ensures stays { SpendsNone engine.now self.old self.new }
    {
        self.cursor = None;
        self.end(engine);
    }
}
