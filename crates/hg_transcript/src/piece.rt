//! The records of a text, one by one.

ghost use Rattle.std.specs.Prelude.{◌≡◌, ◌++◌, OnOk};
ghost use Rattle.hg_records.specs.Bytes.{record_bytes};
ghost use Rattle.hg_transcript.specs.Piece.{piece_fields, total_word};

use crate::record::{write_head, write_held, write_row, write_scan, write_sweep, write_total};
use hg_base::{Line, NoMemory, Row, Sweep, TableId, Told};
use hg_script::Table;

/// What one record says.
#[derive(Drop)]
pub enum Piece {
    /// A reply of one record.
    Line(Line),
    /// The first record of a scan's rows, of which so many are to come.
    Scan {
        session: u32,
        place: u64,
        at: Option<u64>,
        table: TableId,
        left: u64,
    },
    /// The first record of a report.
    Sweep {
        session: u32,
        place: u64,
        sweep: Sweep,
    },
    Row {
        session: u32,
        place: u64,
        key: u64,
        row: Row,
    },
    Held {
        session: u32,
        place: u64,
        told: Told,
    },
    /// One of the six totals, by how many are before it.
    Total {
        index: u8,
        number: u64,
    },
}

fn total_word(index: u8) -> &'static [u8]
    ensures { result.now ≡ total_word index }
{
    match index {
        0 => b"made",
        1 => b"undone",
        2 => b"group",
        3 => b"table",
        4 => b"interval",
        _ => b"left",
    }
}

impl Piece {
    /// Adds the record to a text.
    pub fn write(&self, text: &mut Vec<u8>, tables: &[Table]) -> Result<(), NoMemory>
        ensures { OnOk result (text.new.items ≡
            text.old.items ++ record_bytes (piece_fields tables.now self.now)) }
    {
        match self {
            Piece::Line(line) => write_head(text, tables, line),
            Piece::Scan {
                session,
                place,
                at,
                left,
                ..
            } => write_scan(text, *session, *place, *at, *left),
            Piece::Sweep {
                session,
                place,
                sweep,
            } => write_sweep(text, *session, *place, sweep),
            Piece::Row {
                session,
                place,
                key,
                row,
            } => write_row(text, *session, *place, *key, row),
            Piece::Held {
                session,
                place,
                told,
            } => write_held(text, *session, *place, *told),
            Piece::Total { index, number } => write_total(text, total_word(*index), *number),
        }
    }
}
