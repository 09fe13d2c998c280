//! What a record says if it may come next.

ghost use Rattle.std.specs.Prelude.{◌≡◌, IfOk};
ghost use Rattle.hg_report.specs.Fields.{fields_of};
ghost use Rattle.hg_report.specs.Guess.{first_guess, head_guess, held_guess, row_guess};

use crate::answer::{kinds_of, sweep_guess};
use crate::fields::{natural_at, says, session_in};
use crate::reply::reply_guess;
use crate::values::row_in;
use hg_base::{NoMemory, TableId, Told};
use hg_script::{Script, Table};
use hg_transcript::Piece;
use std::alloc::Global;

fn head_guess(alloc: Global, script: &Script, row: &[&[u8]]) -> Result<Option<Piece>, NoMemory>
    ensures { IfOk result (λ o. o ≡ head_guess script.now (fields_of row.now)) }
{
    let session = session_in(row, 0);
    let place = natural_at(row, 1);
    if session == 0 {
        return Ok(Some(Piece::Sweep {
            session: 0,
            place,
            sweep: sweep_guess(alloc, row, 2),
        }));
    }
    reply_guess(alloc, script, session, place, row)
}

/// The first of the totals, or a line's first record.
pub(crate) fn first_guess(
    alloc: Global,
    script: &Script,
    row: &[&[u8]],
) -> Result<Option<Piece>, NoMemory>
    ensures { IfOk result (λ o. o ≡ first_guess script.now (fields_of row.now)) }
{
    if says(row, 0, b"total") {
        return Ok(Some(Piece::Total {
            index: 0,
            number: natural_at(row, 2),
        }));
    }
    head_guess(alloc, script, row)
}

/// A row of a scan or a fetch.
pub(crate) fn row_guess(
    alloc: Global,
    tables: &[Table],
    session: u32,
    place: u64,
    table: TableId,
    row: &[&[u8]],
) -> Result<Option<Piece>, NoMemory>
    ensures { IfOk result (λ o. o ≡ row_guess tables.now session place table (fields_of row.now)) }
{
    match row_in(alloc, row, 4, kinds_of(tables, table))? {
        Some(values) => Ok(Some(Piece::Row {
            session,
            place,
            key: natural_at(row, 3),
            row: values,
        })),
        None => Ok(None),
    }
}

/// A held snapshot of a report.
pub(crate) fn held_guess(session: u32, place: u64, row: &[&[u8]]) -> Piece
    ensures { result ≡ held_guess session place (fields_of row.now) }
{
    Piece::Held {
        session,
        place,
        told: Told {
            session: session_in(row, 3),
            number: natural_at(row, 4),
            moved: says(row, 5, b"moved"),
        },
    }
}
