//! The fields of answers, appended to a record.

ghost use Rattle.std.specs.Prelude.{◌≡◌, ◌++◌, ◌∷◌, [], OnOk, codes, decimal, if◌then◌else◌, map, false};
ghost use Rattle.std.specs.List.{flat_map, list_any};
ghost use Rattle.csv.specs.Writing.{needs_byte};
ghost use Rattle.hg_base.specs.declared.line.Answer.TheVariants.{Swept};
ghost use Rattle.hg_base.specs.Text.{answer_fields, held_fields, kind_word, name_of, row_fields, told_as, value_field};
ghost use Rattle.hg_records.specs.Bytes.{flexible_writer, further_bytes};

use crate::bytes::add_number;
use crate::values::add_row;
use hg_base::{Answer, Kind, NoMemory, Reply, Row, Sweep, TableId, Told, Writer};
use hg_records::{add_field, add_plain};
use hg_script::Table;

fn name_of(tables: &[Table], table: TableId) -> &[u8]
    ensures { result.now ≡ name_of tables.now table }
{
    match tables.get(table.0 as usize) {
        Some(table) => table.name(),
        None => b"",
    }
}

fn kind_word(kind: Kind) -> &'static [u8]
    ensures { result.now ≡ kind_word kind }
{
    match kind {
        Kind::Group => b"group",
        Kind::Table => b"table",
        Kind::Interval => b"interval",
    }
}

// A number after its word.
fn add_numbered(text: &mut Vec<u8>, word: &[u8], number: u64) -> Result<(), NoMemory>
    requires { list_any (needs_byte flexible_writer) word.now ≡ false }
    ensures { OnOk result (text.new.items ≡
        text.old.items ++ flat_map further_bytes (word.now ∷ decimal number ∷ [])) }
{
    add_plain(text, word)?;
    add_number(text, number)
}

// A number after its word, if it is printed.
fn add_told(text: &mut Vec<u8>, word: &[u8], number: Option<u64>) -> Result<(), NoMemory>
    requires { list_any (needs_byte flexible_writer) word.now ≡ false }
    ensures { OnOk result
        (text.new.items ≡ text.old.items ++ flat_map further_bytes (told_as word.now number)) }
{
    match number {
        Some(n) => add_numbered(text, word, n),
        None => Ok(()),
    }
}

pub(crate) fn add_sweep(text: &mut Vec<u8>, sweep: &Sweep) -> Result<(), NoMemory>
    ensures { OnOk result (text.new.items ≡
        text.old.items ++ flat_map further_bytes (answer_fields [] (Swept sweep.now))) }
{
    add_field(text, b"swept")?;
    add_field(text, kind_word(sweep.kind))?;
    add_number(text, sweep.mark)?;
    add_number(text, sweep.horizon)?;
    add_number(text, sweep.removed)
}

// The name of a table that is not declared.
fn add_undeclared(text: &mut Vec<u8>, name: &[u8]) -> Result<(), NoMemory>
    ensures { OnOk result (text.new.items ≡
        text.old.items ++
        flat_map further_bytes (codes "refused" ∷ codes "undeclared" ∷ name.now ∷ [])) }
{
    add_field(text, b"refused")?;
    add_field(text, b"undeclared")?;
    add_field(text, name)
}

fn add_found(text: &mut Vec<u8>, row: &Row) -> Result<(), NoMemory>
    ensures { OnOk result (text.new.items ≡
        text.old.items ++ flat_map further_bytes (codes "row" ∷ map value_field row.now)) }
{
    add_plain(text, b"row")?;
    add_row(text, row)
}

fn add_newer(text: &mut Vec<u8>, number: u64) -> Result<(), NoMemory>
    ensures { OnOk result (text.new.items ≡
        text.old.items ++
        flat_map further_bytes (codes "refused" ∷ codes "newer" ∷ decimal number ∷ [])) }
{
    add_plain(text, b"refused")?;
    add_numbered(text, b"newer", number)
}

fn add_writer(text: &mut Vec<u8>, writer: Writer) -> Result<(), NoMemory>
    ensures { OnOk result (text.new.items ≡
        text.old.items ++
        flat_map further_bytes
        (codes "refused" ∷ codes "open" ∷ decimal writer.session ∷ decimal writer.transaction ∷
        [])) }
{
    add_plain(text, b"refused")?;
    add_numbered(text, b"open", u64::from(writer.session))?;
    add_number(text, writer.transaction)
}

fn add_answer(text: &mut Vec<u8>, tables: &[Table], answer: &Answer) -> Result<(), NoMemory>
    ensures { OnOk result (text.new.items ≡
        text.old.items ++ flat_map further_bytes (answer_fields tables.now answer.now)) }
{
    match answer {
        Answer::Begun(snapshot) => add_numbered(text, b"begun", *snapshot),
        Answer::Stored => add_plain(text, b"stored"),
        Answer::Found(row) => add_found(text, row),
        Answer::Nothing => add_plain(text, b"none"),
        Answer::Gone => add_plain(text, b"gone"),
        Answer::Rows(rows) => add_numbered(text, b"rows", rows.as_slice().len() as u64),
        Answer::Committed(number) => add_numbered(text, b"committed", *number),
        Answer::Ended => add_plain(text, b"ended"),
        Answer::Undone => add_plain(text, b"undone"),
        Answer::Newer(number) => add_newer(text, *number),
        Answer::OpenBy(writer) => add_writer(text, *writer),
        Answer::Undeclared(table) => add_undeclared(text, name_of(tables, *table)),
        Answer::Swept(sweep) => add_sweep(text, sweep),
        Answer::Beside => add_plain(text, b"beside"),
    }
}

pub(crate) fn add_reply(text: &mut Vec<u8>, tables: &[Table], reply: &Reply) -> Result<(), NoMemory>
    ensures { OnOk result (text.new.items ≡
        text.old.items ++
        flat_map further_bytes (told_as (codes "at") reply.now.at ++
        answer_fields tables.now reply.now.answer ++
        told_as (codes "committed") reply.now.number)) }
{
    add_told(text, b"at", reply.at)?;
    add_answer(text, tables, &reply.answer)?;
    add_told(text, b"committed", reply.number)
}

pub(crate) fn add_count(text: &mut Vec<u8>, at: Option<u64>, rows: u64) -> Result<(), NoMemory>
    ensures { OnOk result (text.new.items ≡
        text.old.items ++
        flat_map further_bytes
        (told_as (codes "at") at ++ codes "rows" ∷ decimal rows ∷ [])) }
{
    add_told(text, b"at", at)?;
    add_numbered(text, b"rows", rows)
}

pub(crate) fn add_key(text: &mut Vec<u8>, key: u64, row: &Row) -> Result<(), NoMemory>
    ensures { OnOk result (text.new.items ≡
        text.old.items ++ flat_map further_bytes (row_fields (key, row.now))) }
{
    add_field(text, b"row")?;
    add_number(text, key)?;
    add_row(text, row)
}

fn moved_word(moved: bool) -> &'static [u8]
    ensures { result.now ≡ (if moved then codes "moved" else codes "unmoved") }
{
    if moved { b"moved" } else { b"unmoved" }
}

pub(crate) fn add_held(text: &mut Vec<u8>, told: Told) -> Result<(), NoMemory>
    ensures { OnOk result
        (text.new.items ≡ text.old.items ++ flat_map further_bytes (held_fields told)) }
{
    add_field(text, b"held")?;
    add_number(text, u64::from(told.session))?;
    add_number(text, told.number)?;
    add_field(text, moved_word(told.moved))
}
