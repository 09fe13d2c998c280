//! What a record answers if it is a reply to a statement.

ghost use Rattle.std.specs.Prelude.{◌≡◌, ◌+◌, ◌≤◌, IfOk};
ghost use Rattle.hg_base.specs.Text.{kinds_of};
ghost use Rattle.hg_report.specs.Fields.{fields_of};
ghost use Rattle.hg_report.specs.Guess.{answer_guess, commit_guess, del_guess, gc_guess, get_guess, kind_guess, put_guess, refusal_guess, scan_guess, sweep_guess};

use crate::fields::{natural_at, says, session_in};
use crate::values::row_in;
use hg_base::{Answer, Column, Kind, NoMemory, RowList, Sweep, TableId, ToldList, Writer};
use hg_records::Asked;
use hg_script::Table;
use std::alloc::Global;

pub(crate) fn kinds_of(tables: &[Table], table: TableId) -> &[Column]
    ensures { result.now ≡ kinds_of tables.now table }
{
    match tables.get(table.0 as usize) {
        Some(table) => table.kinds(),
        None => &[],
    }
}

fn kind_guess(row: &[&[u8]], i: usize) -> Kind
    ensures { result ≡ kind_guess (fields_of row.now) i }
{
    if says(row, i, b"group") {
        Kind::Group
    } else if says(row, i, b"table") {
        Kind::Table
    } else {
        Kind::Interval
    }
}

pub(crate) fn sweep_guess(alloc: Global, row: &[&[u8]], i: usize) -> Sweep
    requires { i ≤ 4 }
    ensures { result ≡ sweep_guess (fields_of row.now) i }
{
    Sweep {
        kind: kind_guess(row, i + 1),
        mark: natural_at(row, i + 2),
        horizon: natural_at(row, i + 3),
        removed: natural_at(row, i + 4),
        held: ToldList::from(Vec::new(alloc)),
    }
}

fn refusal_guess(table: TableId, row: &[&[u8]], i: usize) -> Answer
    requires { i ≤ 4 }
    ensures { result ≡ refusal_guess table (fields_of row.now) i }
{
    if says(row, i + 1, b"newer") {
        Answer::Newer(natural_at(row, i + 2))
    } else if says(row, i + 1, b"open") {
        Answer::OpenBy(Writer {
            session: session_in(row, i + 2),
            transaction: natural_at(row, i + 3),
        })
    } else {
        Answer::Undeclared(table)
    }
}

fn get_guess(
    alloc: Global,
    tables: &[Table],
    table: TableId,
    row: &[&[u8]],
    i: usize,
) -> Result<Option<Answer>, NoMemory>
    requires { i ≤ 4 }
    ensures { IfOk result (λ o. o ≡ get_guess tables.now table (fields_of row.now) i) }
{
    if says(row, i, b"row") {
        return match row_in(alloc, row, i + 1, kinds_of(tables, table))? {
            Some(values) => Ok(Some(Answer::Found(values))),
            None => Ok(None),
        };
    }
    if says(row, i, b"none") {
        return Ok(Some(Answer::Nothing));
    }
    Ok(Some(Answer::Undeclared(table)))
}

fn put_guess(table: TableId, row: &[&[u8]], i: usize) -> Answer
    requires { i ≤ 4 }
    ensures { result ≡ put_guess table (fields_of row.now) i }
{
    if says(row, i, b"stored") {
        Answer::Stored
    } else {
        refusal_guess(table, row, i)
    }
}

fn del_guess(table: TableId, row: &[&[u8]], i: usize) -> Answer
    requires { i ≤ 4 }
    ensures { result ≡ del_guess table (fields_of row.now) i }
{
    if says(row, i, b"gone") {
        Answer::Gone
    } else if says(row, i, b"none") {
        Answer::Nothing
    } else {
        refusal_guess(table, row, i)
    }
}

fn scan_guess(alloc: Global, table: TableId, row: &[&[u8]], i: usize) -> Answer
    ensures { result ≡ scan_guess table (fields_of row.now) i }
{
    if says(row, i, b"rows") {
        Answer::Rows(RowList::from(Vec::new(alloc)))
    } else {
        Answer::Undeclared(table)
    }
}

fn commit_guess(row: &[&[u8]], i: usize) -> Answer
    requires { i ≤ 4 }
    ensures { result ≡ commit_guess (fields_of row.now) i }
{
    if says(row, i, b"committed") {
        Answer::Committed(natural_at(row, i + 1))
    } else {
        Answer::Ended
    }
}

fn gc_guess(alloc: Global, row: &[&[u8]], i: usize) -> Answer
    requires { i ≤ 4 }
    ensures { result ≡ gc_guess (fields_of row.now) i }
{
    if says(row, i, b"beside") {
        Answer::Beside
    } else {
        Answer::Swept(sweep_guess(alloc, row, i))
    }
}

pub(crate) fn answer_guess(
    alloc: Global,
    tables: &[Table],
    asked: Asked,
    row: &[&[u8]],
    i: usize,
) -> Result<Option<Answer>, NoMemory>
    requires { i ≤ 4 }
    ensures { IfOk result (λ o. o ≡ answer_guess tables.now asked (fields_of row.now) i) }
{
    match asked {
        Asked::Begin => Ok(Some(Answer::Begun(natural_at(row, i + 1)))),
        Asked::Get(table) => get_guess(alloc, tables, table, row, i),
        Asked::Put(table) => Ok(Some(put_guess(table, row, i))),
        Asked::Del(table) => Ok(Some(del_guess(table, row, i))),
        Asked::Scan(table) => Ok(Some(scan_guess(alloc, table, row, i))),
        Asked::CursorOpen(_) => Ok(Some(Answer::Begun(natural_at(row, i + 1)))),
        Asked::Fetch(Some(_)) => Ok(Some(Answer::Rows(RowList::from(Vec::new(alloc))))),
        Asked::Fetch(None) => Ok(None),
        Asked::CursorClose => Ok(Some(Answer::Ended)),
        Asked::Commit => Ok(Some(commit_guess(row, i))),
        Asked::Rollback => Ok(Some(Answer::Undone)),
        Asked::Gc => Ok(Some(gc_guess(alloc, row, i))),
    }
}
