//! A statement without the values of its row, and how a statement is taken apart and put together again.

ghost use Rattle.std.specs.Prelude.{◌≡◌, ℤ, List, Option, None, ◌≤◌, ◌<◌, ◌+◌, ◌^◌, ◌++◌, IfOk, OnErr, OnOk, drop, length, map, take};
ghost use Rattle.hg_base.specs.declared.rid.TableId as table;
ghost use Rattle.hg_base.specs.declared.statement.Statement.TheVariants as say;
ghost use Rattle.hg_base.specs.declared.value.Value as value;
ghost use Rattle.hg_base.specs.declared.value.Value.TheVariants.{Number};
ghost use Rattle.hg_records.specs.Asked.{asked_by};
ghost use Rattle.hg_records.specs.Cursors.{HasCursor};
ghost use Rattle.hg_records.specs.Packed.{HasKeys, HasValues, added, added_rows, keys_in, packed_as, packed_keys, statement_in};

use crate::asked::Asked;
use hg_base::{Kind, MOST_COLUMNS, NoMemory, Rid, Row, Scope, Statement, TableId};
use std::alloc::Global;

/// A statement. The values of a put and the keys of a scan are kept elsewhere. Fields lie in the order in which they are written, the
/// narrow ones next to the tag.
#[derive(Clone, Copy)]
pub(crate) enum Packed {
    /// The scope is every table.
    Begin,
    /// The scope is these tables, a bit for each.
    BeginDeclared(u64),
    Get {
        table: TableId,
        key: u64,
    },
    /// A row of numbers, by how many they are and the place of the first among all numbers.
    Put {
        table: TableId,
        count: u8,
        first: u32,
        key: u64,
    },
    /// A row with a text, by its place among such rows.
    PutRow {
        table: TableId,
        place: u32,
        key: u64,
    },
    Del {
        table: TableId,
        key: u64,
    },
    /// The two keys are among the numbers, from this place on.
    Scan {
        table: TableId,
        first: u32,
    },
    CursorOpen {
        table: TableId,
        first: u32,
    },
    /// The number of rows, and the table of the session's cursor.
    Fetch(u32, Option<TableId>),
    CursorClose,
    Commit,
    Rollback,
    Gc(Kind),
}

impl Packed {
    pub(crate) fn asked(self) -> Asked
        ensures { (numbers : List ℤ) (rows : List (List value.Value))
            (cursor : Option table.TableId) → HasCursor cursor self →
            result ≡ asked_by cursor (statement_in numbers rows self) }
    {
        match self {
            Packed::Begin => Asked::Begin,
            Packed::BeginDeclared(_) => Asked::Begin,
            Packed::Get { table, .. } => Asked::Get(table),
            Packed::Put { table, .. } => Asked::Put(table),
            Packed::PutRow { table, .. } => Asked::Put(table),
            Packed::Del { table, .. } => Asked::Del(table),
            Packed::Scan { table, .. } => Asked::Scan(table),
            Packed::CursorOpen { table, .. } => Asked::CursorOpen(table),
            Packed::Fetch(_, cursor) => Asked::Fetch(cursor),
            Packed::CursorClose => Asked::CursorClose,
            Packed::Commit => Asked::Commit,
            Packed::Rollback => Asked::Rollback,
            Packed::Gc(_) => Asked::Gc,
        }
    }
}

// Takes a put apart: its numbers are added after the others, or its row with a text after the other rows.
fn pack_put(
    numbers: &mut Vec<i64>,
    rows: &mut Vec<Row>,
    rid: Rid,
    row: Row,
) -> Result<Packed, NoMemory>
    requires room { length numbers.old.items < 2 ^ 32 }
    requires few { length rows.old.items < 2 ^ 32 }
    ensures packed { IfOk result (λ packed.
        packed ≡
        packed_as None (length numbers.old.items) (length rows.old.items) (say.Put rid row)) }
    ensures numbers { OnOk result
        (numbers.new.items ≡ numbers.old.items ++ added (say.Put rid row)) }
    ensures rows { OnOk result (rows.new.items ≡ rows.old.items ++ added_rows (say.Put rid row)) }
    ensures within { IfOk result (HasValues (length numbers.new.items) (length rows.new.items)) }
    ensures few { OnOk result (length (added (say.Put rid row)) ≤ MOST_COLUMNS) }
    ensures err { OnErr result (numbers.new.items ≡ numbers.old.items) }
    ensures rows_err { OnErr result (rows.new.items ≡ rows.old.items) }
{
    let Rid { table, key } = rid;
    let count = row.len() as u8;
    if let Some(own) = row.numbers() {
        let first = numbers.len() as u32;
        numbers.extend_from_slice(own)?;
        return Ok(Packed::Put {
            table,
            count,
            first,
            key,
        });
    }
    let place = rows.len() as u32;
    rows.push(row)?;
    Ok(Packed::PutRow { table, place, key })
}

// Adds the two keys of a scan after the numbers, and returns the place of the first.
fn pack_keys(numbers: &mut Vec<i64>, low: u64, high: u64) -> Result<u32, NoMemory>
    requires { length numbers.old.items < 2 ^ 32 }
    ensures first { IfOk result (λ first. first ≡ length numbers.old.items) }
    ensures numbers { OnOk result
        (numbers.new.items ≡ numbers.old.items ++ packed_keys low high) }
    ensures err { OnErr result (numbers.new.items ≡ numbers.old.items) }
{
    let first = numbers.len() as u32;
    numbers.extend_from_slice(&[low.cast_signed(), high.cast_signed()])?;
    Ok(first)
}

/// Takes the statement apart. `cursor` is the table of the cursor that its session opened last.
pub(crate) fn pack(
    numbers: &mut Vec<i64>,
    rows: &mut Vec<Row>,
    cursor: Option<TableId>,
    statement: Statement,
) -> Result<Packed, NoMemory>
    requires room { length numbers.old.items < 2 ^ 32 }
    requires few { length rows.old.items < 2 ^ 32 }
    ensures packed { IfOk result (λ packed.
        packed ≡
        packed_as cursor (length numbers.old.items) (length rows.old.items) statement) }
    ensures numbers { OnOk result (numbers.new.items ≡ numbers.old.items ++ added statement) }
    ensures rows { OnOk result (rows.new.items ≡ rows.old.items ++ added_rows statement) }
    ensures within { IfOk result (HasValues (length numbers.new.items) (length rows.new.items)) }
    ensures few { OnOk result (length (added statement) ≤ MOST_COLUMNS) }
    ensures keys { OnOk result (HasKeys statement) }
    ensures err { OnErr result (numbers.new.items ≡ numbers.old.items) }
    ensures rows_err { OnErr result (rows.new.items ≡ rows.old.items) }
{
    match statement {
        Statement::Begin(Scope::All) => Ok(Packed::Begin),
        Statement::Begin(Scope::Declared(mask)) => Ok(Packed::BeginDeclared(mask)),
        Statement::Get(Rid { table, key }) => Ok(Packed::Get { table, key }),
        Statement::Put(rid, row) => pack_put(numbers, rows, rid, row),
        Statement::Del(Rid { table, key }) => Ok(Packed::Del { table, key }),
        Statement::Scan { table, low, high } => {
            let first = pack_keys(numbers, low, high)?;
            Ok(Packed::Scan { table, first })
        }
        Statement::CursorOpen { table, low, high } => {
            let first = pack_keys(numbers, low, high)?;
            Ok(Packed::CursorOpen { table, first })
        }
        Statement::Fetch(most) => Ok(Packed::Fetch(most, cursor)),
        Statement::CursorClose => Ok(Packed::CursorClose),
        Statement::Commit => Ok(Packed::Commit),
        Statement::Rollback => Ok(Packed::Rollback),
        Statement::Gc(kind) => Ok(Packed::Gc(kind)),
    }
}

// The row of so many numbers, from the one at `first` on.
fn unpack_row(alloc: Global, numbers: &[i64], first: u32, count: u8) -> Result<Row, NoMemory>
    requires some { 1 ≤ count }
    requires most { count ≤ MOST_COLUMNS }
    requires within { first + count ≤ length numbers.now }
    ensures { IfOk result (λ row. row ≡ map Number (take count (drop first numbers.now))) }
{
    let first = first as usize;
    Row::from_slice(alloc, &numbers[first..first + count as usize])
}

// The two keys of a scan, of which the first is at `first`.
fn unpack_keys(numbers: &[i64], first: u32) -> (u64, u64)
    requires { first + 2 ≤ length numbers.now }
    ensures { result ≡ keys_in first numbers.now }
{
    let first = first as usize;
    let kept = &numbers[first..first + 2];
    (kept[0].cast_unsigned(), kept[1].cast_unsigned())
}

/// Puts a statement together. A row of one or two numbers takes no memory.
pub(crate) fn unpack(
    alloc: Global,
    numbers: &[i64],
    rows: &[Row],
    packed: Packed,
) -> Result<Statement, NoMemory>
    requires { HasValues (length numbers.now) (length rows.now) packed }
    ensures { IfOk result (λ s. s ≡ statement_in numbers.now rows.now packed) }
{
    match packed {
        Packed::Begin => Ok(Statement::Begin(Scope::All)),
        Packed::BeginDeclared(mask) => Ok(Statement::Begin(Scope::Declared(mask))),
        Packed::Get { table, key } => Ok(Statement::Get(Rid { table, key })),
        Packed::Put {
            table,
            count,
            first,
            key,
        } => {
            let row = unpack_row(alloc, numbers, first, count)?;
            Ok(Statement::Put(Rid { table, key }, row))
        }
        Packed::PutRow { table, place, key } => {
            let row = rows[place as usize].copy()?;
            Ok(Statement::Put(Rid { table, key }, row))
        }
        Packed::Del { table, key } => Ok(Statement::Del(Rid { table, key })),
        Packed::Scan { table, first } => {
            let (low, high) = unpack_keys(numbers, first);
            Ok(Statement::Scan { table, low, high })
        }
        Packed::CursorOpen { table, first } => {
            let (low, high) = unpack_keys(numbers, first);
            Ok(Statement::CursorOpen { table, low, high })
        }
        Packed::Fetch(most, _) => Ok(Statement::Fetch(most)),
        Packed::CursorClose => Ok(Statement::CursorClose),
        Packed::Commit => Ok(Statement::Commit),
        Packed::Rollback => Ok(Statement::Rollback),
        Packed::Gc(kind) => Ok(Statement::Gc(kind)),
    }
}
