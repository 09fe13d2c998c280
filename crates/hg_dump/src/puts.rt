//! The puts of rows.

ghost use Rattle.std.specs.Prelude.{◌≡◌, ◌++◌, ◌∷◌, OnErr, OnOk, codes, decimal, map};
ghost use Rattle.std.specs.List.{flat_map};
ghost use Rattle.hg_base.specs.Text.{name_of, value_field};
ghost use Rattle.hg_records.specs.Bytes.{further_bytes, record_bytes};
ghost use Rattle.hg_dump.specs.Records.{put_fields};
ghost use Rattle.hg_dump.specs.Rows.{kept_in};

use crate::digits::{add_integer, add_natural};
use hg_base::{NoMemory, Row, TableId, Value};
use hg_records::{add_field, add_first, end_record};
use hg_script::{Script, Table};
use std::alloc::Global;

fn name_of(tables: &[Table], table: TableId) -> &[u8]
    ensures { result.now ≡ name_of tables.now table }
{
    match tables.get(table.0 as usize) {
        Some(table) => table.name(),
        None => b"",
    }
}

fn add_value(text: &mut Vec<u8>, value: &Value) -> Result<(), NoMemory>
    ensures { OnOk result
        (text.new.items ≡ text.old.items ++ further_bytes (value_field value.now)) }
{
    match value {
        Value::Number(n) => add_integer(text, *n),
        Value::Text(bytes) => add_field(text, bytes.as_bytes()),
    }
}

fn add_values(text: &mut Vec<u8>, row: &Row) -> Result<(), NoMemory>
    ensures { OnOk result
        (text.new.items ≡ text.old.items ++ flat_map further_bytes (map value_field row.now)) }
{
    for i in 0..row.len() {
        add_value(text, &row.value(i))?;
    }
    Ok(())
}

// Adds one put of session 1, into the table of this name.
#[tactic(auto, using(crate::proofs::RecordBytes::written_put))]
fn write_put(text: &mut Vec<u8>, name: &[u8], key: u64, row: &Row) -> Result<(), NoMemory>
    ensures { OnOk result (text.new.items ≡ text.old.items ++
        record_bytes (codes "1" ∷ codes "put" ∷ name.now ∷ decimal key ∷ map value_field row.now)) }
{
    add_first(text, b"1")?;
    add_field(text, b"put")?;
    add_field(text, name)?;
    add_natural(text, key)?;
    add_values(text, row)?;
    end_record(text)?;
    Ok(())
}

fn write_puts(
    text: &mut Vec<u8>,
    tables: &[Table],
    table: TableId,
    rows: &[(u64, Row)],
) -> Result<(), NoMemory>
    ensures { OnOk result (text.new.items ≡ text.old.items ++
        flat_map record_bytes (map (put_fields tables.now) (kept_in table rows.now))) }
{
    let name = name_of(tables, table);
    for (key, row) in rows {
        write_put(text, name, *key, row)?;
    }
    Ok(())
}

/// Adds a put for each of these rows of a table, given by their keys.
pub fn puts_text(
    alloc: Global,
    script: &Script,
    table: TableId,
    rows: &[(u64, Row)],
    into: &mut Vec<u8>,
) -> Result<(), NoMemory>
    ensures text { OnOk result (into.new.items ≡ into.old.items ++
        flat_map record_bytes (map (put_fields script.now.tables) (kept_in table rows.now))) }
    ensures refused { OnErr result (into.new.items ≡ into.old.items) }
{
    let mut text = Vec::new(alloc);
    write_puts(&mut text, script.tables(), table, rows)?;
    into.extend_from_slice(&text)?;
    Ok(())
}
