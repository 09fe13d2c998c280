//! Why the rows of a scan or a fetch are wrong.

use crate::history::Slot;
use crate::judged::Judged;
use hg_base::{Answer, NoMemory, Rid, Row, Statement, TableId};
use std::collections::BTreeMap;

// The keys of a table that are asked for, and at most how many of them.
#[derive(Clone, Copy)]
struct Range {
    table: TableId,
    low: u64,
    high: u64,
    most: usize,
}

// The range of a scan, or what is left to a fetch.
fn range_of(judged: &Judged<'_>) -> Option<Range> {
    match (&judged.said.statement, judged.said.tx.rest) {
        (Statement::Scan { table, low, high }, _) => Some(Range {
            table: *table,
            low: *low,
            high: *high,
            most: usize::MAX,
        }),
        (Statement::Fetch(most), Some(rest)) => Some(Range {
            table: rest.table,
            low: rest.next?,
            high: rest.high,
            most: *most as usize,
        }),
        _ => None,
    }
}

// The rows of the range that the line's transaction sees, by key.
fn rows_in<'a>(judged: &Judged<'a>, range: Range) -> Result<BTreeMap<u64, &'a Row>, NoMemory> {
    let mut rows = BTreeMap::new(judged.alloc);
    let first = Rid {
        table: range.table,
        key: range.low,
    };
    for (slot, _) in judged.history.writes.range(
        Slot {
            rid: first,
            number: 0,
        }..,
    ) {
        if slot.rid.table != range.table || slot.rid.key > range.high {
            break;
        }
        if let Some(row) = judged.see(slot.rid).row() {
            rows.insert(slot.rid.key, row)?;
        }
    }
    if judged.said.alone {
        return Ok(rows);
    }
    if let Some(stored) = judged.walk.stored(judged.said.session) {
        for (rid, row) in stored.range(first..) {
            if rid.table != range.table || rid.key > range.high {
                break;
            }
            if let Some(row) = row {
                rows.insert(rid.key, row)?;
            }
        }
    }
    Ok(rows)
}

fn printed(answer: &Answer) -> &[(u64, Row)] {
    match answer {
        Answer::Rows(rows) => rows.as_slice(),
        _ => &[],
    }
}

fn is_same(printed: Option<&(u64, Row)>, key: u64, row: &Row) -> bool {
    match printed {
        Some((other, found)) => *other == key && found.same(row),
        None => false,
    }
}

/// The first row that is wrong or missing, or how many there are.
pub(crate) fn explain_rows(judged: &Judged<'_>) -> Result<String, NoMemory> {
    let Some(range) = range_of(judged) else {
        return Ok(format!(in judged.alloc;
            "a sound reply is rows,0, since the cursor has passed the greatest key"
        )?);
    };
    let rows = rows_in(judged, range)?;
    let count = rows.len().min(range.most);
    let found = printed(&judged.said.reply.answer);
    for (i, (key, row)) in rows.iter().take(range.most).enumerate() {
        if is_same(found.get(i), *key, row) {
            continue;
        }
        let number = i.saturating_add(1);
        let origin = judged.origin(judged.see(Rid {
            table: range.table,
            key: *key,
        }))?;
        let row = judged.row(*key, row)?;
        return Ok(format!(in judged.alloc;
            "a sound reply has rows,{count}, and row {number} is {row}, {origin}"
        )?);
    }
    let at = judged.said.tx.at;
    Ok(format!(in judged.alloc; "a sound reply has rows,{count}, at snapshot {at}")?)
}
