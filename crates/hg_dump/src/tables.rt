//! The tables of a script, read at a snapshot.

ghost use Rattle.std.specs.Prelude.{◌≡◌, OnOk};
ghost use Rattle.hg_rule.specs.Facts.{StartsWith};
ghost use Rattle.hg_rule.specs.Seats.{board_id, sizes_of, session_view, IsSessionOf};
ghost use Rattle.hg_store.specs.Stores.{store_buckets};
ghost use Rattle.hg_cursor.specs.Cursors.{at_of, table_of};
ghost use Rattle.hg_cursor.specs.Logs.{ReadsAt};
ghost use Rattle.hg_dump.specs.Exports.{IsReading, Looks};
ghost use Rattle.hg_dump.specs.Writes.{IsOver, HasWritten, HasWrittenAll, HasWrittenTable, HasWrittenTables};

use crate::header::heading_text;
use crate::puts::puts_text;
use hg_base::{NoMemory, TableId};
use hg_cursor::{Cursor, Tables};
use hg_rule::SessionPass;
use hg_script::Script;
use std::alloc::Global;
use std::sync::Wait;

/// A fetch asks for so many rows.
pub const FETCHED: u32 = 1_024;

/// The tables that are read, the script that declares them, and the snapshot at which they are read.
#[derive(Drop)]
pub(crate) struct Reading<'a> {
    pub(crate) alloc: Global,
    pub(crate) tables: Tables<'a>,
    pub(crate) script: &'a Script,
    pub(crate) at: u64,
}

impl<'a> Reading<'a> {
    ghost use Rattle.hg_dump.specs.Readings.{board_in, store_in, script_in, at_in};

    // The next rows of a cursor, as puts.
    fn write_rows<R: Wait>(
        &self,
        rt: &R,
        table: TableId,
        cursor: &mut Cursor,
        pass: &mut SessionPass,
        into: &mut Vec<u8>,
    ) -> Result<(), NoMemory>
        requires own { IsSessionOf (board_id (board_in self.now)) (sizes_of (board_in self.now))
            pass.old }
        requires reads { ReadsAt (at_of cursor.old) (table_of cursor.old) (session_view pass.old) }
        requires table { table_of cursor.old ≡ table }
        ensures rows { OnOk result (HasWritten (script_in self.now).tables
            (store_buckets (store_in self.now)) cursor.old cursor.new (session_view pass.new)
            into.old.items into.new.items) }
        ensures starts { StartsWith into.new.items into.old.items }
        ensures looks { Looks (session_view pass.old) (session_view pass.new) }
        ensures reads { ReadsAt (at_of cursor.old) (table_of cursor.old) (session_view pass.new) }
        ensures own { IsSessionOf (board_id (board_in self.now)) (sizes_of (board_in self.now))
            pass.new }
    {
        let rows = cursor.fetch(rt, self.alloc, &self.tables, pass, FETCHED)?;
        puts_text(self.alloc, self.script, table, rows.as_slice(), into)
    }

    // All rows of a cursor from which nothing was fetched.
    fn write_rest<R: Wait>(
        &self,
        rt: &R,
        table: TableId,
        cursor: &mut Cursor,
        pass: &mut SessionPass,
        into: &mut Vec<u8>,
    ) -> Result<(), NoMemory>
        requires own { IsSessionOf (board_id (board_in self.now)) (sizes_of (board_in self.now))
            pass.old }
        requires reads { IsReading (at_in self.now) (session_view pass.old) }
        requires from { IsOver (at_in self.now) table cursor.old }
        ensures rows { OnOk result (HasWrittenTable (script_in self.now).tables
            (store_buckets (store_in self.now)) (at_in self.now) table (session_view pass.new)
            into.old.items into.new.items) }
        ensures starts { StartsWith into.new.items into.old.items }
        ensures looks { Looks (session_view pass.old) (session_view pass.new) }
        ensures reads { IsReading (at_in self.now) (session_view pass.new) }
        ensures own { IsSessionOf (board_id (board_in self.now)) (sizes_of (board_in self.now))
            pass.new }
    {
        for _ in rt.forever() {
            if cursor.done() {
                break;
            }
            self.write_rows(rt, table, cursor, pass, into)?;
        }
        Ok(())
    }

    // All rows of a table.
    fn write_table<R: Wait>(
        &self,
        rt: &R,
        table: TableId,
        pass: &mut SessionPass,
        into: &mut Vec<u8>,
    ) -> Result<(), NoMemory>
        requires own { IsSessionOf (board_id (board_in self.now)) (sizes_of (board_in self.now))
            pass.old }
        requires reads { IsReading (at_in self.now) (session_view pass.old) }
        ensures rows { OnOk result (HasWrittenTable (script_in self.now).tables
            (store_buckets (store_in self.now)) (at_in self.now) table (session_view pass.new)
            into.old.items into.new.items) }
        ensures starts { StartsWith into.new.items into.old.items }
        ensures looks { Looks (session_view pass.old) (session_view pass.new) }
        ensures reads { IsReading (at_in self.now) (session_view pass.new) }
        ensures own { IsSessionOf (board_id (board_in self.now)) (sizes_of (board_in self.now))
            pass.new }
    {
        let mut cursor = Cursor::over(self.at, table, 0, u64::MAX);
        self.write_rest(rt, table, &mut cursor, pass, into)
    }

    // The tables in their order.
    fn write_tables<R: Wait>(
        &self,
        rt: &R,
        pass: &mut SessionPass,
        into: &mut Vec<u8>,
    ) -> Result<(), NoMemory>
        requires own { IsSessionOf (board_id (board_in self.now)) (sizes_of (board_in self.now))
            pass.old }
        requires reads { IsReading (at_in self.now) (session_view pass.old) }
        ensures rows { OnOk result (HasWrittenTables (script_in self.now).tables
            (script_in self.now).tables (store_buckets (store_in self.now)) (at_in self.now)
            (session_view pass.new) into.old.items into.new.items) }
        ensures starts { StartsWith into.new.items into.old.items }
        ensures looks { Looks (session_view pass.old) (session_view pass.new) }
        ensures reads { IsReading (at_in self.now) (session_view pass.new) }
        ensures own { IsSessionOf (board_id (board_in self.now)) (sizes_of (board_in self.now))
            pass.new }
    {
        for i in 0..self.script.tables().len() {
            self.write_table(rt, TableId(i as u8), pass, into)?;
        }
        Ok(())
    }

    /// The whole dump.
    pub(crate) fn write_all<R: Wait>(
        &self,
        rt: &R,
        pass: &mut SessionPass,
        into: &mut Vec<u8>,
    ) -> Result<(), NoMemory>
        requires own { IsSessionOf (board_id (board_in self.now)) (sizes_of (board_in self.now))
            pass.old }
        requires reads { IsReading (at_in self.now) (session_view pass.old) }
        ensures rows { OnOk result (HasWrittenAll (script_in self.now)
            (store_buckets (store_in self.now)) (at_in self.now) (session_view pass.new)
            into.old.items into.new.items) }
        ensures starts { StartsWith into.new.items into.old.items }
        ensures looks { Looks (session_view pass.old) (session_view pass.new) }
        ensures reads { IsReading (at_in self.now) (session_view pass.new) }
        ensures own { IsSessionOf (board_id (board_in self.now)) (sizes_of (board_in self.now))
            pass.new }
    {
        heading_text(self.alloc, self.script, into)?;
        self.write_tables(rt, pass, into)
    }
}
