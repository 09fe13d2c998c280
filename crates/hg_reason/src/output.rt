//! The records of a printed text, and how replies are written.

use hg_base::{Natural, Statement, read_natural};

// Where the record at this number begins, counted from 1: after so many line ends that are in no quotes.
fn start_of(text: &[u8], number: u64) -> usize {
    let mut left = number;
    let mut is_quoted = false;
    for (i, b) in text.iter().enumerate() {
        if left <= 1 {
            return i;
        }
        if *b == b'"' {
            is_quoted = !is_quoted;
        }
        if *b == b'\n' && !is_quoted {
            left = left.saturating_sub(1);
        }
    }
    text.len()
}

/// The first line of the record at this number, counted from 1.
pub(crate) fn nth_record(text: &[u8], number: u64) -> &[u8] {
    let rest = text.get(start_of(text, number)..).unwrap_or(&[]);
    match rest.iter().position(|b| *b == b'\n') {
        Some(end) => &rest[..end],
        None => rest,
    }
}

/// The place of the script's record that a record of the text names.
pub(crate) fn place_in(record: &[u8]) -> Option<u64> {
    let field = record.split(|b| *b == b',').nth(1)?;
    match read_natural(field) {
        Natural::Is(place) => Some(place),
        _ => None,
    }
}

/// How the reply to a statement is written, after its session and place.
pub(crate) fn forms_of(statement: &Statement) -> &'static str {
    match statement {
        Statement::Begin(_) | Statement::CursorOpen { .. } => "begun with the snapshot",
        Statement::Get(_) => "row with a value for each column, or none",
        Statement::Put(..) => "stored, or refused with its cause",
        Statement::Del(_) => "gone, none, or refused with its cause",
        Statement::Scan { .. } | Statement::Fetch(_) =>
            "rows with their number, and a record row,KEY,.. for each",
        Statement::Commit => "committed with its number, or ended",
        Statement::Rollback => "undone",
        Statement::CursorClose => "ended",
        Statement::Gc(_) =>
            "swept with the collector and three numbers, and a record held for each open transaction",
    }
}
