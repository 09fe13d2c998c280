//! The records before the rows: that of the version, and those of the tables.

ghost use Rattle.std.specs.Prelude.{◌≡◌, ◌++◌, OnErr, OnOk, IfOk, map};
ghost use Rattle.std.specs.List.{flat_map};
ghost use Rattle.hg_records.specs.Bytes.{further_bytes, record_bytes};
ghost use Rattle.hg_dump.specs.Records.{columns_field, heading, letter_of, table_fields, version_records};

use crate::digits::add_natural;
use hg_base::{Column, NoMemory};
use hg_records::{add_field, add_first, end_record};
use hg_script::{Script, Table};
use std::alloc::Global;

fn letter_of(kind: Column) -> u8
    ensures { result ≡ letter_of kind }
{
    match kind {
        Column::Number => b'n',
        Column::Text => b't',
    }
}

fn letters_of(alloc: Global, kinds: &[Column]) -> Result<Vec<u8>, NoMemory>
    ensures { IfOk result (λ letters. letters.items ≡ map letter_of kinds.now) }
{
    let letters = kinds.iter().map(|kind| letter_of(*kind)).collect(alloc)?;
    Ok(letters)
}

fn add_columns(
    alloc: Global,
    text: &mut Vec<u8>,
    version: u8,
    kinds: &[Column],
) -> Result<(), NoMemory>
    ensures { OnOk result
        (text.new.items ≡ text.old.items ++ further_bytes (columns_field version kinds.now)) }
{
    if version == 1 {
        return add_natural(text, kinds.len() as u64);
    }
    add_field(text, &letters_of(alloc, kinds)?)
}

#[tactic(auto, using(crate::proofs::RecordBytes::written_two))]
fn write_version(text: &mut Vec<u8>, version: u8) -> Result<(), NoMemory>
    ensures { OnOk result
        (text.new.items ≡ text.old.items ++ flat_map record_bytes (version_records version)) }
{
    if version != 1 {
        add_first(text, b"version")?;
        add_natural(text, u64::from(version))?;
        end_record(text)?;
    }
    Ok(())
}

#[tactic(auto, using(crate::proofs::RecordBytes::written_three))]
fn write_table(
    alloc: Global,
    text: &mut Vec<u8>,
    version: u8,
    table: &Table,
) -> Result<(), NoMemory>
    ensures { OnOk result
        (text.new.items ≡ text.old.items ++ record_bytes (table_fields version table.now)) }
{
    add_first(text, b"table")?;
    add_field(text, table.name())?;
    add_columns(alloc, text, version, table.kinds())?;
    end_record(text)?;
    Ok(())
}

fn write_tables(
    alloc: Global,
    text: &mut Vec<u8>,
    version: u8,
    tables: &[Table],
) -> Result<(), NoMemory>
    ensures { OnOk result (text.new.items ≡
        text.old.items ++ flat_map record_bytes (map (table_fields version) tables.now)) }
{
    for table in tables {
        write_table(alloc, text, version, table)?;
    }
    Ok(())
}

/// Adds the version record, if the script's version has one, and its table records.
pub fn heading_text(alloc: Global, script: &Script, into: &mut Vec<u8>) -> Result<(), NoMemory>
    ensures text { OnOk result
        (into.new.items ≡ into.old.items ++ flat_map record_bytes (heading script.now)) }
    ensures refused { OnErr result (into.new.items ≡ into.old.items) }
{
    let mut text = Vec::new(alloc);
    write_version(&mut text, script.version())?;
    write_tables(alloc, &mut text, script.version(), script.tables())?;
    into.extend_from_slice(&text)?;
    Ok(())
}
