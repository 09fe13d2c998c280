//! A record with its fields read, each once, before its rules are tested.

ghost use Rattle.std.specs.Prelude.{◌≡◌, IfOk, drop, false, length};
ghost use Rattle.csv.specs.Records.{fields_of};
ghost use Rattle.hg_script.specs.Draft.{draft_of, kinds_at, table_named, values_by};
ghost use Rattle.hg_script.specs.Fields.{nth};
ghost use Rattle.hg_base.specs.Number.{natural_of};
ghost use Rattle.hg_script.specs.declared.draft.Ask.TheVariants.{Put, CursorOpen};
ghost use Rattle.hg_script.specs.declared.word.Word.TheVariants as word;
ghost use Rattle.hg_script.specs.Rules.{ask_number_breaks, ask_range_breaks, ask_value_breaks, fields_breaks};
ghost use Rattle.hg_script.specs.Meaning.{rid_of, statement_of};

use crate::columns::Columns;
use crate::kind::find_kind;
use crate::rules::{FIRST_TABLE, kinds_at};
use crate::scope::find_scope;
use crate::tables::Tables;
use crate::values::Values;
use crate::word::{Word, field};
use csv::ByteRecord;
use hg_base::{Kind, Natural, NoMemory, Rid, Scope, Statement, TableId, read_natural};
use std::alloc::Global;

/// What a session's record asks. A table that is not declared is `None`, and so is a scope that names one, and a collector that
/// is not there.
#[derive(Drop)]
pub enum Ask {
    Begin {
        scope: Option<Scope>,
    },
    Get {
        table: Option<TableId>,
        key: Natural,
    },
    Put {
        table: Option<TableId>,
        key: Natural,
        values: Values,
    },
    Del {
        table: Option<TableId>,
        key: Natural,
    },
    Scan {
        table: Option<TableId>,
        low: Natural,
        high: Natural,
    },
    CursorOpen {
        table: Option<TableId>,
        low: Natural,
        high: Natural,
    },
    Fetch {
        most: Natural,
    },
    CursorClose,
    Commit,
    Rollback,
    Gc {
        kind: Option<Kind>,
    },
}

/// A record that has the fields of its word.
#[derive(Drop)]
pub enum Draft {
    Version(Natural),
    /// Whether the name is one that a table may take, and the columns.
    Table { fresh: bool, columns: Columns },
    Session { session: Natural, ask: Ask },
}

fn rid_at(table: Option<TableId>, key: Natural) -> Rid
    ensures { result ≡ rid_of table key }
{
    Rid {
        table: table.unwrap_or(FIRST_TABLE),
        key: key.value(),
    }
}

impl Ask {
    /// The statement that is asked, where every number is one.
    pub(crate) fn into_statement(self) -> Statement
        requires number { ask_number_breaks self ≡ false }
        requires range { ask_range_breaks self ≡ false }
        requires value { ask_value_breaks self ≡ false }
        ensures { result ≡ statement_of self }
    {
        match self {
            Ask::Begin { scope } => Statement::Begin(scope.unwrap_or(Scope::All)),
            Ask::Get { table, key } => Statement::Get(rid_at(table, key)),
            Ask::Put { table, key, values } => Statement::Put(
                rid_at(table, key),
                values.into_row(),
            ),
            Ask::Del { table, key } => Statement::Del(rid_at(table, key)),
            Ask::Scan { table, low, high } => Statement::Scan {
                table: table.unwrap_or(FIRST_TABLE),
                low: low.value(),
                high: high.value(),
            },
            Ask::CursorOpen { table, low, high } => Statement::CursorOpen {
                table: table.unwrap_or(FIRST_TABLE),
                low: low.value(),
                high: high.value(),
            },
            Ask::Fetch { most } => Statement::Fetch(most.value() as u32),
            Ask::CursorClose => Statement::CursorClose,
            Ask::Commit => Statement::Commit,
            Ask::Rollback => Statement::Rollback,
            Ask::Gc { kind } => Statement::Gc(kind.unwrap_or(Kind::Group)),
        }
    }
}

// What a record of the word `put` asks.
fn put_at(alloc: Global, version: u8, tables: &Tables, row: &ByteRecord) -> Result<Ask, NoMemory>
    requires fields { fields_breaks word.Put (length (fields_of row.now)) ≡ false }
    ensures { IfOk result (λ ask.
        let fields = fields_of row.now in let table = table_named tables.now (nth fields 2) in
        ask ≡
        Put table (natural_of (nth fields 3))
        (values_by version (kinds_at tables.now table) (drop 4 fields))) }
{
    let table = tables.find(field(row, 2));
    Ok(Ask::Put {
        table,
        values: Values::read(alloc, version, kinds_at(tables.as_slice(), table), row)?,
        key: read_natural(field(row, 3)),
    })
}

// What a record of the word `open` asks.
fn open_at(tables: &Tables, row: &ByteRecord) -> Ask
    requires fields { fields_breaks word.Open (length (fields_of row.now)) ≡ false }
    ensures { let fields = fields_of row.now in result ≡
        CursorOpen (table_named tables.now (nth fields 2)) (natural_of (nth fields 3))
        (natural_of (nth fields 4)) }
{
    Ask::CursorOpen {
        table: tables.find(field(row, 2)),
        low: read_natural(field(row, 3)),
        high: read_natural(field(row, 4)),
    }
}

impl Draft {
    /// Reads the fields of a record that has as many as its word asks for.
    pub(crate) fn read(
        alloc: Global,
        version: u8,
        tables: &Tables,
        word: Word,
        row: &ByteRecord,
    ) -> Result<Draft, NoMemory>
        requires fields { fields_breaks word (length (fields_of row.now)) ≡ false }
        ensures { IfOk result
            (λ draft. draft ≡ draft_of version tables.now word (fields_of row.now)) }
    {
        let ask = match word {
            Word::Version => return Ok(Draft::Version(read_natural(field(row, 1)))),
            Word::Table => return Ok(Draft::Table {
                fresh: tables.is_free(field(row, 1)),
                columns: Columns::read(alloc, version, field(row, 2))?,
            }),
            Word::Begin => Ask::Begin {
                scope: find_scope(tables, row),
            },
            Word::Get => Ask::Get {
                table: tables.find(field(row, 2)),
                key: read_natural(field(row, 3)),
            },
            Word::Put => put_at(alloc, version, tables, row)?,
            Word::Del => Ask::Del {
                table: tables.find(field(row, 2)),
                key: read_natural(field(row, 3)),
            },
            Word::Scan => Ask::Scan {
                table: tables.find(field(row, 2)),
                low: read_natural(field(row, 3)),
                high: read_natural(field(row, 4)),
            },
            Word::Commit => Ask::Commit,
            Word::Rollback => Ask::Rollback,
            Word::Gc => Ask::Gc {
                kind: find_kind(field(row, 2)),
            },
            Word::Open => open_at(tables, row),
            Word::Fetch => Ask::Fetch {
                most: read_natural(field(row, 2)),
            },
            Word::Close => Ask::CursorClose,
        };
        Ok(Draft::Session {
            session: read_natural(field(row, 0)),
            ask,
        })
    }
}
