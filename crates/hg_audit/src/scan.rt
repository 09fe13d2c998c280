//! Whether the rows of a scan, or of a fetch, are those that the line's transaction sees.

ghost use Rattle.std.specs.Prelude.{◌≡◌, ◌↔◌, List, None, unwrap_or, is_some, option_map, option_copied, if◌then◌else◌, IsTrue};
ghost use Rattle.hg_base.specs.History.{History, nothing, seen};
ghost use Rattle.hg_base.specs.Transcript as script;
ghost use Rattle.hg_base.specs.Transcript.{own_writes};
ghost use Rattle.hg_base.specs.Replies.{AreFirst, AreRows, IsFetched};
ghost use Rattle.hg_known.specs.Lines.{rest_of, said_of};
ghost use Rattle.hg_known.specs.Owned.{HasOwn, own_at};
ghost use Rattle.hg_known.specs.Written.{IsOfHistory};
ghost use Rattle.hg_audit.specs.Seen.{IsNextStored, NoneSeen, look, other_look, own_look};

use crate::reply::{is_row, see};
use hg_base::{Answer, Rid, Row, TableId};
use hg_known::{Own, Rest, Said, Tx, Writes};

// The least key of the table, at or over `from`, that the transaction stored.
fn next_stored(own: &Own, tx: Tx, table: TableId, from: u64) -> Option<u64>
    ensures { IsNextStored own.now tx.session tx.number table from result }
{
    let rid = own.next(tx, Rid { table, key: from })?;
    if rid.table != table {
        return None;
    }
    Some(rid.key)
}

// Whether the last that the transaction stored of a record is a row.
fn stores_row(own: &Own, tx: Tx, rid: Rid) -> bool
    ensures { result ≡ is_some (unwrap_or (own_at own.now tx.session tx.number rid) nothing).row }
{
    match own.image(tx, rid) {
        Some(image) => image.row.is_some(),
        None => false,
    }
}

// Whether the transaction stored no row at a key from `from` to `to`.
fn none_stored(own: &Own, tx: Tx, table: TableId, from: u64, to: u64) -> bool
    ensures { IsTrue result ↔ NoneSeen (own_look own.now tx.session tx.number table) from to }
{
    let mut from = from;
    while let Some(key) = next_stored(own, tx, table, from) {
        if key > to {
            return true;
        }
        if stores_row(own, tx, Rid { table, key }) {
            return false;
        }
        if key == to {
            return true;
        }
        from = key + 1;
    }
    true
}

// Whether a row that is visible of a record is seen by the transaction, which did not store the record.
fn is_shown(own: &Own, tx: Tx, rid: Rid, row: Option<&Row>) -> bool
    ensures { result ≡
        is_some (if is_some (own_at own.now tx.session tx.number rid) then None else option_copied
        row.entry) }
{
    row.is_some() && !own.has(tx, rid)
}

// Whether of no key from `from` to `to`, but for those that the transaction stored, a row is visible.
fn none_shown(writes: &Writes, own: &Own, now: &Said, table: TableId, from: u64, to: u64) -> bool
    ensures { (h : History) → IsOfHistory h writes.now →
        (IsTrue result ↔ NoneSeen
        (other_look h own.now now.now.session now.now.transaction now.now.at table) from
        to) }
{
    let tx = Tx {
        session: now.session,
        number: now.transaction,
    };
    let mut to = to;
    while let Some((key, row)) = writes.last_shown(table, to, now.at) {
        if key < from {
            return true;
        }
        if is_shown(own, tx, Rid { table, key }, row) {
            return false;
        }
        if key == from {
            return true;
        }
        to = key - 1;
    }
    true
}

// Whether no key from `from` to `to` is seen as a row.
fn none_seen(writes: &Writes, own: &Own, now: &Said, table: TableId, from: u64, to: u64) -> bool
    ensures { (h : History) (earlier : List script.Said) → IsOfHistory h writes.now →
        HasOwn own.now earlier (said_of now.now) →
        (IsTrue result ↔ NoneSeen (look h earlier (said_of now.now) table) from to) }
{
    let tx = Tx {
        session: now.session,
        number: now.transaction,
    };
    if !none_stored(own, tx, table, from, to) {
        return false;
    }
    none_shown(writes, own, now, table, from, to)
}

/// Whether these are the rows of the range that a line's transaction sees, by ascending key.
pub fn is_scanned(writes: &Writes, own: &Own, now: &Said, range: Rest, rows: &[(u64, Row)]) -> bool
    ensures { (h : History) (earlier : List script.Said) → IsOfHistory h writes.now →
        HasOwn own.now earlier (said_of now.now) →
        (IsTrue result ↔ AreRows (look h earlier (said_of now.now) range.table)
        (rest_of range).low range.high rows.now) }
{
    let table = range.table;
    let high = range.high;
    let mut from = range.next;
    for (key, row) in rows {
        let Some(first) = from else {
            return false;
        };
        if *key < first || *key > high {
            return false;
        }
        if !is_row(see(writes, own, now, Rid { table, key: *key }), row) {
            return false;
        }
        if *key > first && !none_seen(writes, own, now, table, first, *key - 1) {
            return false;
        }
        from = key.checked_add(1);
    }
    match from {
        Some(first) => none_seen(writes, own, now, table, first, high),
        None => true,
    }
}

// Whether these are the first `most` rows of what a cursor has left, or all of them if it has fewer. Only the keys up to the last one
// that the fetch passed are looked at.
fn are_first(
    writes: &Writes,
    own: &Own,
    now: &Said,
    most: u32,
    rest: Rest,
    rows: &[(u64, Row)],
) -> bool
    ensures { (h : History) (earlier : List script.Said) → IsOfHistory h writes.now →
        HasOwn own.now earlier (said_of now.now) →
        (IsTrue result ↔ AreFirst (look h earlier (said_of now.now) rest.table) most
        (rest_of rest).low rest.high rows.now) }
{
    if rows.len() > most as usize {
        return false;
    }
    let last = rest.passed(most, rows);
    if last > rest.high {
        return false;
    }
    is_scanned(writes, own, now, Rest { high: last, ..rest }, rows)
}

/// Whether the answer to a fetch has the first `most` rows of what the cursor of the line's transaction has left.
pub fn is_fetched(writes: &Writes, own: &Own, now: &Said, most: u32) -> bool
    ensures { (h : History) (earlier : List script.Said) → IsOfHistory h writes.now →
        HasOwn own.now earlier (said_of now.now) →
        (IsTrue result ↔
        IsFetched (seen h (own_writes earlier (said_of now.now)) now.now.at) most
        (option_map rest_of now.now.rest) now.now.reply.now.answer) }
{
    let Some(rest) = now.rest else {
        return false;
    };
    match &now.reply.answer {
        Answer::Rows(rows) => are_first(writes, own, now, most, rest, rows.as_slice()),
        _ => false,
    }
}
