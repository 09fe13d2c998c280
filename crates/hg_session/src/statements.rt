//! A session's statements: get, scan, put and del.
//!
//!     in a transaction     is the table declared? then look or write at the transaction's snapshot      get_inside ..
//!     outside of one       begin, look or write, and end or commit: a transaction of its own            get_alone ..

ghost use Rattle.std.specs.Prelude.{◌≡◌, ◌<◌, ℕ, [], not, Some, None, Err, IsTrue, IfOk, IfErr, IfSome, OnErr};
ghost use Rattle.hg_base.specs.declared.limits.TheConstants.{MOST_TABLES};
ghost use Rattle.hg_base.specs.declared.statement.Statement.TheVariants as say;
ghost use Rattle.hg_base.specs.History.{nothing};
ghost use Rattle.hg_base.specs.Transcript.{has};
ghost use Rattle.hg_base.specs.Transcript as base;
ghost use Rattle.hg_core.specs.Words.{IsBelow};
ghost use Rattle.hg_session.specs.Engines.{engine_sizes};
ghost use Rattle.hg_session.specs.Sessions.{IsIn, IsOf, is_alone, view_of, open_of, cursor_of, left_of, opened_of, written_of};
ghost use Rattle.hg_session.specs.Replies.{Answers, IsRefusedIf, IsAtOwn, get_at, get_reply, put_at, put_reply, del_at, del_reply, scan_at, scan_reply, refused_at};
ghost use Rattle.hg_session.specs.Firsts.{AnswersWrite, ShowsPut, ShowsWrite};
ghost use Rattle.hg_session.specs.Alone.{WritesAlone, IsRefusedAlone};
ghost use Rattle.hg_session.specs.Frames.{KeepsCounts, KeepsOpened, KeepsWritten, SpendsWithin};
ghost use Rattle.hg_session.specs.Gains.{Gains, IsRefusedBy, entries_of, outside_entries};
ghost use Rattle.hg_session.specs.Refused.{LeavesLooks, LeavesNoWrite};

use crate::answers::{Deleted, GetRefusal, PutRefusal, Read, Scanned, Written};
use crate::commit::commit_open;
use crate::del::{del_alone, del_inside};
use crate::engine::Engine;
use crate::get::{get_alone, get_inside};
use crate::put::{put_alone, put_inside};
use crate::rollback::undo_open;
use crate::scan::{scan_alone, scan_inside};
use crate::session::Session;
use crate::write::write_one;
use hg_base::{Image, NoMemory, Rid, Row, Scope, Snapshot, TableId};
use hg_bucket::WriteRefusal;
use hg_cursor::Range;
use hg_rule::Ask;
use std::sync::Wait;

// What a transaction that is one statement declares.
pub(crate) fn only(table: TableId) -> Scope
    requires { table.0 < MOST_TABLES }
    ensures is { result ≡ base.only (Some table) }
    ensures below { (tables : ℕ) → table.0 < tables → IsBelow tables result }
{
    Scope::only(table)
}

// A refusal, with the snapshot at which it was.
pub(crate) fn refused_at(at: u64, refusal: WriteRefusal) -> PutRefusal
    ensures { result ≡ refused_at at refusal }
{
    match refusal {
        WriteRefusal::Open {
            session,
            transaction,
        } => PutRefusal::Open {
            at,
            session,
            transaction,
        },
        WriteRefusal::Newer { number } => PutRefusal::Newer { at, number },
        WriteRefusal::NoMemory => PutRefusal::NoMemory,
    }
}

impl Session {
    ghost use Rattle.hg_session.specs.declared.answers.GetRefusal.TheVariants as refusal;

    /// The row of a record, as the transaction sees it, or none.
    pub fn get<R: Wait>(&mut self, rt: &R, engine: &Engine, rid: Rid) -> Result<Read, GetRefusal>
        requires own { IsOf engine.now self.old }
        requires cursor { cursor_of self.old ≡ None }
        requires left { 0 < left_of self.old }
        requires table { rid.table.0 < (engine_sizes engine.now).tables }
        ensures reply { IfSome (get_reply (is_alone self.old) result) (λ reply.
            Answers (engine_sizes engine.now) (view_of self.old) (say.Get rid) reply
            (view_of self.new)) }
        // in a transaction the snapshot is the transaction's own
        ensures at { IsAtOwn (open_of self.old) (get_at result) }
        // exactly if a transaction is open that did not declare the table
        ensures undeclared { IsRefusedIf (open_of self.old) rid.table result
            (refusal.Undeclared rid.table) }
        // out of memory: it looked, and did nothing else
        ensures refused { result ≡ Err refusal.NoMemory →
            LeavesLooks (open_of self.old) rid.table rid.key rid.key (view_of self.old)
            (view_of self.new) }
        ensures cursor { cursor_of self.new ≡ None }
        // one statement is counted, and what is open stays
        ensures spent { SpendsWithin engine.now self.old self.new }
    {
        self.spend();
        match self.opened {
            Some(snapshot) => get_inside(rt, engine, self, snapshot, rid),
            None => Ok(get_alone(rt, engine, self, rid)?),
        }
    }

    /// Every key from `low` to `high` with a visible row, by ascending key. Each bucket that can have one is locked once.
    pub fn scan<R: Wait>(
        &mut self,
        rt: &R,
        engine: &Engine,
        table: TableId,
        low: u64,
        high: u64,
    ) -> Result<Scanned, GetRefusal>
        requires own { IsOf engine.now self.old }
        requires cursor { cursor_of self.old ≡ None }
        requires left { 0 < left_of self.old }
        requires table { table.0 < (engine_sizes engine.now).tables }
        ensures reply { IfSome (scan_reply (is_alone self.old) result) (λ reply.
            Answers (engine_sizes engine.now) (view_of self.old) (say.Scan table low high) reply
            (view_of self.new)) }
        // in a transaction the snapshot is the transaction's own
        ensures at { IsAtOwn (open_of self.old) (scan_at result) }
        // exactly if a transaction is open that did not declare the table
        ensures undeclared { IsRefusedIf (open_of self.old) table result
            (refusal.Undeclared table) }
        // out of memory: it looked, and did nothing else
        ensures refused { result ≡ Err refusal.NoMemory →
            LeavesLooks (open_of self.old) table low high (view_of self.old) (view_of self.new) }
        ensures cursor { cursor_of self.new ≡ None }
        // one statement is counted, and what is open stays
        ensures spent { SpendsWithin engine.now self.old self.new }
    {
        self.spend();
        let range = Range { table, low, high };
        match self.opened {
            Some(snapshot) => scan_inside(rt, engine, self, snapshot, range),
            None => Ok(scan_alone(rt, engine, self, range)?),
        }
    }
}

impl Session {
    ghost use Rattle.hg_session.specs.declared.answers.PutRefusal.TheVariants as refusal;

    /// Writes a row. In a transaction it is open until this commits. Outside of one it is committed, and the answer has its
    /// number. The row has as many values as its table has columns.
    pub fn put<R: Wait>(
        &mut self,
        rt: &R,
        engine: &Engine,
        rid: Rid,
        row: Row,
    ) -> Result<Written, PutRefusal>
        requires own { IsOf engine.now self.old }
        requires cursor { cursor_of self.old ≡ None }
        requires left { 0 < left_of self.old }
        requires table { rid.table.0 < (engine_sizes engine.now).tables }
        // the reply answers the statement, and it has its first cause
        ensures reply { IfSome (put_reply (is_alone self.old) result) (λ reply.
            AnswersWrite (engine_sizes engine.now) (view_of self.old) (say.Put rid row) rid reply
            (view_of self.new)) }
        // in a transaction the snapshot is the transaction's own
        ensures at { IsAtOwn (open_of self.old) (put_at result) }
        // exactly if a transaction is open that did not declare the table
        ensures undeclared { IsRefusedIf (open_of self.old) rid.table result
            (refusal.Undeclared rid.table) }
        // out of memory: no version of the record is left
        ensures refused { result ≡ Err refusal.NoMemory →
            LeavesNoWrite (open_of self.old) rid (record { row = Some row }) (view_of self.old)
            (view_of self.new) }
        ensures cursor { cursor_of self.new ≡ None }
        // one statement is counted, and what is open stays
        ensures spent { SpendsWithin engine.now self.old self.new }
    {
        self.spend();
        match self.opened {
            Some(snapshot) => put_inside(rt, engine, self, snapshot, rid, row),
            None => put_alone(rt, engine, self, rid, row),
        }
    }

    /// Looks first, as a get does. A row that is seen is deleted. Where none is, nothing is written, and no conflict is tested.
    pub fn del<R: Wait>(&mut self, rt: &R, engine: &Engine, rid: Rid) -> Result<Deleted, PutRefusal>
        requires own { IsOf engine.now self.old }
        requires cursor { cursor_of self.old ≡ None }
        requires left { 0 < left_of self.old }
        requires table { rid.table.0 < (engine_sizes engine.now).tables }
        // the reply answers the statement, and it has its first cause
        ensures reply { IfSome (del_reply (is_alone self.old) result) (λ reply.
            AnswersWrite (engine_sizes engine.now) (view_of self.old) (say.Del rid) rid reply
            (view_of self.new)) }
        // in a transaction the snapshot is the transaction's own
        ensures at { IsAtOwn (open_of self.old) (del_at result) }
        // exactly if a transaction is open that did not declare the table
        ensures undeclared { IsRefusedIf (open_of self.old) rid.table result
            (refusal.Undeclared rid.table) }
        // out of memory: no version of the record is left
        ensures refused { result ≡ Err refusal.NoMemory →
            LeavesNoWrite (open_of self.old) rid nothing (view_of self.old) (view_of self.new) }
        ensures cursor { cursor_of self.new ≡ None }
        // one statement is counted, and what is open stays
        ensures spent { SpendsWithin engine.now self.old self.new }
    {
        self.spend();
        match self.opened {
            Some(snapshot) => del_inside(rt, engine, self, snapshot, rid),
            None => del_alone(rt, engine, self, rid),
        }
    }
}

impl Session {
    // Whether a table is outside of those that the open transaction declared. That is logged.
    pub(crate) fn is_outside(&mut self, engine: &Engine, snapshot: Snapshot, table: TableId) -> bool
        requires own { IsIn engine.now 1 1 self.old }
        requires opened { opened_of self.old ≡ Some snapshot }
        requires table { table.0 < (engine_sizes engine.now).tables }
        ensures is { result ≡ not (has snapshot.scope table) }
        ensures gains { Gains (view_of self.old) (outside_entries result table) (view_of self.new) }
        ensures kept { KeepsWritten self.old self.new }
        ensures own { IsIn engine.now 0 1 self.new }
    {
        if snapshot.scope.has(table) {
            return false;
        }
        engine.board().look(&mut self.pass, &Ask::Outside(table));
        true
    }

    // Writes an image in the open transaction.
    pub(crate) fn write_row<R: Wait>(
        &mut self,
        rt: &R,
        engine: &Engine,
        snapshot: Snapshot,
        rid: Rid,
        image: Image,
    ) -> Result<(), WriteRefusal>
        requires own { IsIn engine.now 0 1 self.old }
        requires opened { opened_of self.old ≡ Some snapshot }
        requires table { IsTrue (has snapshot.scope rid.table) ×
            (rid.table.0 < (engine_sizes engine.now).tables) }
        ensures gains { Gains (view_of self.old) (entries_of rid image result) (view_of self.new) }
        ensures refused { IfErr result
            (IsRefusedBy (engine_sizes engine.now) (view_of self.old) snapshot.at) }
        // by logs that were heard in the call, the answer is the first cause
        ensures first { ShowsWrite (view_of self.old) rid snapshot.at result (view_of self.new) }
        ensures kept { KeepsOpened self.old self.new }
        // a refused write is not listed
        ensures unwritten { OnErr result (written_of self.new ≡ written_of self.old) }
        ensures own { IsIn engine.now 0 0 self.new }
    {
        self.written.reserve()?;
        let tables = engine.tables();
        match write_one(rt, &tables, &mut self.pass, rid, image, snapshot.at) {
            Ok(true) => {
                self.written.push_reserved(rid);
                Ok(())
            }
            Ok(false) => Ok(()),
            Err(refusal) => Err(refusal),
        }
    }

    // Writes, and commits the transaction, which is this one write.
    #[inline(always)]
    pub(crate) fn write_alone<R: Wait>(
        &mut self,
        rt: &R,
        engine: &Engine,
        snapshot: Snapshot,
        rid: Rid,
        image: Image,
    ) -> Result<Option<u64>, PutRefusal>
        requires own { IsIn engine.now 0 1 self.old }
        requires opened { opened_of self.old ≡ Some snapshot }
        requires unwritten { written_of self.old ≡ [] }
        requires table { IsTrue (has snapshot.scope rid.table) ×
            (rid.table.0 < (engine_sizes engine.now).tables) }
        ensures stored { IfOk result
            (WritesAlone (view_of self.old) rid image snapshot.at (view_of self.new)) }
        ensures refused { IfErr result (IsRefusedAlone (engine_sizes engine.now) (view_of self.old)
            rid image snapshot.at (view_of self.new)) }
        ensures first { ShowsPut (view_of self.old) rid snapshot.at result (view_of self.new) }
        ensures over { opened_of self.new ≡ None }
        ensures kept { KeepsCounts self.old self.new }
        ensures own { IsIn engine.now 0 0 self.new }
    {
        if let Err(refusal) = self.write_row(rt, engine, snapshot, rid, image) {
            undo_open(rt, engine, self);
            return Err(refused_at(snapshot.at, refusal));
        }
        match commit_open(rt, engine, self, snapshot) {
            Ok(receipt) => Ok(receipt.map(|receipt| receipt.number)),
            Err(NoMemory) => {
                undo_open(rt, engine, self);
                Err(PutRefusal::NoMemory)
            }
        }
    }
}
