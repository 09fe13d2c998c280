//! What a record of a conversation asks besides statements, and how a reply is said.

ghost use Rattle.std.specs.Prelude.{◌≡◌, ◌++◌, OnOk};
ghost use Rattle.csv.specs.Records.{fields_of};
ghost use Rattle.hg_records.specs.Bytes.{record_bytes};
ghost use Rattle.hg_exact.specs.AnswerText.{answer_text};
ghost use Rattle.hg_exact.specs.Conversed.{Replied, asks_totals as does_ask};

use csv::ByteRecord;
use hg_base::{Answer, Line, NoMemory};
use hg_script::Table;
use hg_transcript::{add_line, add_note};

/// Whether a record asks for the totals.
pub(crate) fn asks_totals(row: &ByteRecord) -> bool
    ensures { result ≡ does_ask (fields_of row.now) }
{
    if row.len() != 1 {
        return false;
    }
    match row.get(0) {
        Some(word) => word == b"totals".as_slice(),
        None => false,
    }
}

/// Adds the text of a line. Before a report comes how many snapshots it holds.
pub(crate) fn add_reply(text: &mut Vec<u8>, tables: &[Table], line: &Line) -> Result<(), NoMemory>
    ensures { OnOk result (text.new.items ≡
        text.old.items ++ answer_text record_bytes (Replied tables.now line.now)) }
{
    if let Answer::Swept(sweep) = &line.reply.answer {
        add_note(text, b"holds", sweep.held.as_slice().len() as u64)?;
    }
    add_line(text, tables, line)
}
