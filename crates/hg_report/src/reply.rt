//! What a record says if it is the first of a reply.

ghost use Rattle.std.specs.Prelude.{◌≡◌, ◌≢◌, ℕ, ◌+◌, ◌<◌, ◌≤◌, IfNone, IfOk, IfSome, length};
ghost use Rattle.hg_base.specs.Text.{is_write};
ghost use Rattle.hg_script.specs.Numbered.{AreNumbered, records_before};
ghost use Rattle.hg_report.specs.Fields.{fields_of};
ghost use Rattle.hg_report.specs.Guess.{answer_place, answered_guess, asked_at, at_guess, number_guess, piece_of, reply_guess, the_table};

use crate::answer::answer_guess;
use crate::fields::{natural_at, says};
use hg_base::{Answer, Line, NoMemory, Reply, TableId};
use hg_records::Asked;
use hg_script::{Script, Table};
use hg_transcript::Piece;
use std::alloc::Global;

fn at_guess(asked: Asked, row: &[&[u8]]) -> Option<u64>
    ensures { result ≡ at_guess asked (fields_of row.now) }
{
    if asked.table().is_some() && says(row, 2, b"at") {
        Some(natural_at(row, 3))
    } else {
        None
    }
}

fn the_table(asked: Asked) -> TableId
    ensures { result ≡ the_table asked }
{
    match asked {
        Asked::Fetch(cursor) => cursor.unwrap_or(TableId(0)),
        asked => asked.table().unwrap_or(TableId(0)),
    }
}

fn is_write(answer: &Answer) -> bool
    ensures { result ≡ is_write answer.now }
{
    match answer {
        Answer::Stored => true,
        Answer::Gone => true,
        _ => false,
    }
}

fn number_guess(answer: &Answer, row: &[&[u8]], i: usize) -> Option<u64>
    requires { i ≤ 4 }
    ensures { result ≡ number_guess answer.now (fields_of row.now) i }
{
    if is_write(answer) && says(row, i + 1, b"committed") {
        Some(natural_at(row, i + 2))
    } else {
        None
    }
}

fn answer_place(at: Option<u64>) -> usize
    ensures same { result ≡ answer_place at }
    ensures small { result ≤ 4 }
{
    if at.is_some() { 4 } else { 2 }
}

// The piece that an answer is.
fn piece_of(
    asked: Asked,
    session: u32,
    place: u64,
    at: Option<u64>,
    row: &[&[u8]],
    answer: Answer,
) -> Piece
    ensures { result ≡
        piece_of asked session place at (fields_of row.now) (answer_place at) answer }
{
    let i = answer_place(at);
    match answer {
        Answer::Rows(_) => Piece::Scan {
            session,
            place,
            at,
            table: the_table(asked),
            left: natural_at(row, i + 1),
        },
        Answer::Swept(sweep) => Piece::Sweep {
            session,
            place,
            sweep,
        },
        answer => {
            let number = number_guess(&answer, row, i);
            Piece::Line(Line {
                session,
                place,
                reply: Reply { at, answer, number },
            })
        }
    }
}

fn answered_guess(
    alloc: Global,
    tables: &[Table],
    asked: Asked,
    session: u32,
    place: u64,
    row: &[&[u8]],
) -> Result<Option<Piece>, NoMemory>
    ensures { IfOk result (λ o.
        o ≡
        answered_guess tables.now asked session place (at_guess asked (fields_of row.now))
        (fields_of row.now)) }
{
    let at = at_guess(asked, row);
    match answer_guess(alloc, tables, asked, row, answer_place(at))? {
        Some(answer) => Ok(Some(piece_of(asked, session, place, at, row, answer))),
        None => Ok(None),
    }
}

// The index of the record of that place. Places go on from the records before the statements.
fn index_of(script: &Script, place: u64) -> Option<usize>
    ensures found { IfSome result
        (λ i. (i < length script.now.records) × (place ≡ records_before script.now + i + 1)) }
    ensures places { AreNumbered script.now }
    ensures none { IfNone result
        ((i : ℕ) → i < length script.now.records → place ≢ records_before script.now + i + 1) }
{
    let count = script.record_count();
    let behind = place.checked_sub(script.records_before() as u64)?;
    let i = behind.checked_sub(1)? as usize;
    if i < count { Some(i) } else { None }
}

// What the record of that session and place asks.
fn asked_at(script: &Script, session: u32, place: u64) -> Option<Asked>
    ensures { result ≡ asked_at script.now.records session place }
{
    let Some(i) = index_of(script, place) else {
        return None;
    };
    let (by, asked) = script.asked(i);
    if by == session { Some(asked) } else { None }
}

pub(crate) fn reply_guess(
    alloc: Global,
    script: &Script,
    session: u32,
    place: u64,
    row: &[&[u8]],
) -> Result<Option<Piece>, NoMemory>
    ensures { IfOk result (λ o. o ≡ reply_guess script.now session place (fields_of row.now)) }
{
    match asked_at(script, session, place) {
        Some(asked) => answered_guess(alloc, script.tables(), asked, session, place, row),
        None => Ok(None),
    }
}
