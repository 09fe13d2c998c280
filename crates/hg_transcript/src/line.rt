//! The records of whole lines, and of the totals.

ghost use Rattle.std.specs.Prelude.{◌≡◌, ◌++◌, OnOk, map};
ghost use Rattle.std.specs.List.{flat_map};
ghost use Rattle.hg_base.specs.Text.{held_fields, line_records, more_fields, of_line, row_fields, totals_records};
ghost use Rattle.hg_records.specs.Bytes.{record_bytes};

use crate::record::{write_head, write_held, write_total};
use crate::row_start::RowStart;
use crate::usual::add_usual;
use hg_base::{Answer, Line, NoMemory, Row, Told, Totals};
use hg_script::Table;

fn write_rows(text: &mut Vec<u8>, line: &Line, rows: &[(u64, Row)]) -> Result<(), NoMemory>
    ensures { OnOk result (text.new.items ≡
        text.old.items ++
        flat_map record_bytes (map (of_line line.now) (map row_fields rows.now))) }
{
    let start = RowStart::new(line.session, line.place);
    for (key, row) in rows {
        start.write(text, *key, row)?;
    }
    Ok(())
}

fn write_all_held(text: &mut Vec<u8>, line: &Line, held: &[Told]) -> Result<(), NoMemory>
    ensures { OnOk result (text.new.items ≡
        text.old.items ++
        flat_map record_bytes (map (of_line line.now) (map held_fields held.now))) }
{
    for told in held {
        write_held(text, line.session, line.place, *told)?;
    }
    Ok(())
}

// The further records of a reply.
fn write_more(text: &mut Vec<u8>, line: &Line) -> Result<(), NoMemory>
    ensures { OnOk result (text.new.items ≡
        text.old.items ++
        flat_map record_bytes
        (map (of_line line.now) (more_fields line.now.reply.answer))) }
{
    match &line.reply.answer {
        Answer::Rows(rows) => write_rows(text, line, rows.as_slice()),
        Answer::Swept(sweep) => write_all_held(text, line, sweep.held.as_slice()),
        _ => Ok(()),
    }
}

/// Adds the records of a reply field by field.
pub(crate) fn write_records(
    text: &mut Vec<u8>,
    tables: &[Table],
    line: &Line,
) -> Result<(), NoMemory>
    ensures { OnOk result (text.new.items ≡
        text.old.items ++ flat_map record_bytes (line_records tables.now line.now)) }
{
    write_head(text, tables, line)?;
    write_more(text, line)
}

pub(crate) fn write_line(text: &mut Vec<u8>, tables: &[Table], line: &Line) -> Result<(), NoMemory>
    ensures { OnOk result (text.new.items ≡
        text.old.items ++ flat_map record_bytes (line_records tables.now line.now)) }
{
    if add_usual(text, line)? {
        return Ok(());
    }
    write_records(text, tables, line)
}

pub(crate) fn write_lines(
    text: &mut Vec<u8>,
    tables: &[Table],
    lines: &[Line],
) -> Result<(), NoMemory>
    ensures { OnOk result (text.new.items ≡
        text.old.items ++
        flat_map record_bytes (flat_map (line_records tables.now) lines.now)) }
{
    for line in lines {
        write_line(text, tables, line)?;
    }
    Ok(())
}

pub(crate) fn write_totals(text: &mut Vec<u8>, totals: &Totals) -> Result<(), NoMemory>
    ensures { OnOk result
        (text.new.items ≡ text.old.items ++ flat_map record_bytes (totals_records totals.now)) }
{
    write_total(text, b"made", totals.made)?;
    write_total(text, b"undone", totals.undone)?;
    write_total(text, b"group", totals.group)?;
    write_total(text, b"table", totals.table)?;
    write_total(text, b"interval", totals.interval)?;
    write_total(text, b"left", totals.left)
}
