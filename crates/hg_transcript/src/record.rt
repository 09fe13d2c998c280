//! The records of a text, each appended whole.

ghost use Rattle.std.specs.Prelude.{◌≡◌, ◌++◌, ◌∷◌, [], OnOk, codes, decimal};
ghost use Rattle.std.specs.List.{flat_map};
ghost use Rattle.hg_base.specs.declared.line.Answer.TheVariants.{Swept};
ghost use Rattle.hg_base.specs.Text.{answer_fields, held_fields, of_line, row_fields, told_as, total_fields};
ghost use Rattle.hg_records.specs.Bytes.{further_bytes, record_bytes};
ghost use Rattle.hg_transcript.specs.Piece.{behind};

use crate::answer::{add_count, add_held, add_key, add_reply, add_sweep};
use crate::bytes::{add_number, begin_reply};
use hg_base::{Line, NoMemory, Row, Sweep, Told};
use hg_records::{begin_record, end_record};
use hg_script::Table;

/// Adds the first record of a reply.
pub(crate) fn write_head(text: &mut Vec<u8>, tables: &[Table], line: &Line) -> Result<(), NoMemory>
    ensures { OnOk result (text.new.items ≡
        text.old.items ++
        record_bytes (of_line line.now (told_as (codes "at") line.now.reply.at ++
        answer_fields tables.now line.now.reply.answer ++
        told_as (codes "committed") line.now.reply.number))) }
{
    begin_reply(text, line.session, line.place)?;
    add_reply(text, tables, &line.reply)?;
    end_record(text)
}

/// Adds the first record of a scan of so many rows.
pub(crate) fn write_scan(
    text: &mut Vec<u8>,
    session: u32,
    place: u64,
    at: Option<u64>,
    rows: u64,
) -> Result<(), NoMemory>
    ensures { OnOk result (text.new.items ≡
        text.old.items ++
        record_bytes (behind session place
        (told_as (codes "at") at ++ codes "rows" ∷ decimal rows ∷ []))) }
{
    begin_reply(text, session, place)?;
    add_count(text, at, rows)?;
    end_record(text)
}

/// Adds the first record of a report.
pub(crate) fn write_sweep(
    text: &mut Vec<u8>,
    session: u32,
    place: u64,
    sweep: &Sweep,
) -> Result<(), NoMemory>
    ensures { OnOk result (text.new.items ≡
        text.old.items ++
        record_bytes (behind session place (answer_fields [] (Swept sweep.now)))) }
{
    begin_reply(text, session, place)?;
    add_sweep(text, sweep)?;
    end_record(text)
}

/// Adds the record of one row of a scan.
pub(crate) fn write_row(
    text: &mut Vec<u8>,
    session: u32,
    place: u64,
    key: u64,
    row: &Row,
) -> Result<(), NoMemory>
    ensures { OnOk result (text.new.items ≡
        text.old.items ++ record_bytes (behind session place (row_fields (key, row.now)))) }
{
    begin_reply(text, session, place)?;
    add_key(text, key, row)?;
    end_record(text)
}

/// Adds the record of one held snapshot of a report.
pub(crate) fn write_held(
    text: &mut Vec<u8>,
    session: u32,
    place: u64,
    told: Told,
) -> Result<(), NoMemory>
    ensures { OnOk result (text.new.items ≡
        text.old.items ++ record_bytes (behind session place (held_fields told))) }
{
    begin_reply(text, session, place)?;
    add_held(text, told)?;
    end_record(text)
}

fn add_total(text: &mut Vec<u8>, n: u64) -> Result<(), NoMemory>
    ensures { OnOk result
        (text.new.items ≡ text.old.items ++ flat_map further_bytes (decimal n ∷ [])) }
{
    add_number(text, n)
}

/// Adds the record of one of the totals.
pub(crate) fn write_total(text: &mut Vec<u8>, word: &[u8], n: u64) -> Result<(), NoMemory>
    ensures { OnOk result
        (text.new.items ≡ text.old.items ++ record_bytes (total_fields word.now n)) }
{
    begin_record(text, b"total", word)?;
    add_total(text, n)?;
    end_record(text)
}
