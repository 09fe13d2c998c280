//! All rows of a range at once, at one snapshot.
//!
//! Each bucket that can have a key of the range is taken once, in ascending order, and logged by one look. The others are not
//! taken or logged. Which keys of a bucket are looked up is in own_keys.rt.

ghost use Rattle.std.specs.Prelude.{◌≡◌, ◌++◌, ◌<◌, ◌≤◌, [], IfOk, OnOk};
ghost use Rattle.hg_core.specs.Replies.{read_by};
ghost use Rattle.hg_rule.specs.declared.view.View.{View};
ghost use Rattle.hg_rule.specs.Holding.{bucket as bucket_in, held as held_in};
ghost use Rattle.hg_rule.specs.Seats.{board_id, sizes_of, session_view, IsSessionOf};
ghost use Rattle.hg_store.specs.Stores.{store_buckets, Holds};
ghost use Rattle.hg_cursor.specs.Keys.{rows_at, read_of, IsFirstOwn};
ghost use Rattle.hg_cursor.specs.Logs.{IsHeard, MayRead};
ghost use Rattle.hg_cursor.specs.Looks.{WhereOwn};
ghost use Rattle.hg_cursor.specs.Scans.{AppendsAll, SeesAll, Scans};

use crate::own_keys::{first_key, is_reached, next_after, next_from};
use crate::range::Range;
use crate::tables::Tables;
use hg_base::{Image, NoMemory, Rid, Row, RowList, Writer};
use hg_rule::SessionPass;
use hg_store::Held;
use std::alloc::Global;
use std::sync::Wait;

// A range, as a transaction sees it that reads at this snapshot. `own` is the least key there of the bucket that is read.
#[derive(Clone, Copy)]
struct Sought {
    at: u64,
    range: Range,
    own: u64,
}

// Adds the row that a transaction reads of a record, and says whether it reads one.
fn push_row(
    held: &Held<'_>,
    rid: Rid,
    at: u64,
    by: Writer,
    rows: &mut Vec<(u64, Row)>,
) -> Result<bool, NoMemory>
    ensures { (v : View) → Holds v held.now →
        OnOk result (rows.new.items ≡
        rows.old.items ++ rows_at rid.key (read_by by at (held_in v rid)).row) }
{
    if let Some(Image { row: Some(row) }) = held.read(rid, at, by) {
        rows.push((rid.key, row.copy()?))?;
        return Ok(true);
    }
    Ok(false)
}

// Adds the rows that a transaction reads of the bucket held, from its first key in the range on. Its own keys are `count` apart.
fn push_rows(
    held: &Held<'_>,
    count: u64,
    sought: Sought,
    by: Writer,
    rows: &mut Vec<(u64, Row)>,
) -> Result<(), NoMemory>
    requires some { 0 < count }
    requires within { sought.own ≤ sought.range.high }
    ensures { WhereOwn held.now count sought.range.table sought.own
        (λ v b. OnOk result (AppendsAll
        (read_of by sought.at sought.range.table (bucket_in v).content)
        sought.own sought.range.high rows.old.items rows.new.items)) }
{
    let table = sought.range.table;
    let high = sought.range.high;
    // as if the own key before the first one had been read
    let mut last = sought.own.wrapping_sub(count);
    let mut next = next_from(held, table, count, sought.own, high);
    while let Some(key) = next {
        let found = push_row(held, Rid { table, key }, sought.at, by, rows)?;
        let is_dense = found && key.wrapping_sub(last) == count;
        next = next_after(held, table, count, key, high, is_dense);
        last = key;
    }
    Ok(())
}

// Takes a bucket, logs a look at a range of it, and adds its rows.
fn see_range<R: Wait>(
    rt: &R,
    tables: &Tables<'_>,
    pass: &mut SessionPass,
    bucket: u32,
    sought: Sought,
    rows: &mut Vec<(u64, Row)>,
) -> Result<(), NoMemory>
    requires own { IsSessionOf (board_id tables.now.board.now) (sizes_of tables.now.board.now)
        pass.old }
    requires reads { MayRead sought.at sought.range.table (session_view pass.old) }
    requires bucket { bucket < store_buckets tables.now.store.now }
    requires first { IsFirstOwn (store_buckets tables.now.store.now) bucket sought.range.table
        sought.range.low sought.range.high sought.own }
    ensures sees { SeesAll (store_buckets tables.now.store.now) (session_view pass.old)
        sought.range.table sought.range.low sought.range.high bucket rows.old.items result
        (session_view pass.new) rows.new.items }
    ensures heard { IsHeard (session_view pass.new) }
    ensures own { IsSessionOf (board_id tables.now.board.now) (sizes_of tables.now.board.now)
        pass.new }
{
    let by = pass.writer();
    let count = u64::from(tables.store.buckets());
    let held = tables.store.take(rt, tables.board, bucket, pass);
    let range = sought.range;
    held.see(tables.board, pass, range.table, range.low, range.high);
    let pushed = push_rows(&held, count, sought, by, rows);
    held.give(tables.board, pass);
    pushed
}

// No row, with room for those of a narrow range, so that they are not moved while the others are read.
fn room_for(alloc: Global, range: Range) -> Result<Vec<(u64, Row)>, NoMemory>
    ensures { IfOk result (λ rows. rows.items ≡ []) }
{
    Ok(Vec::with_capacity(alloc, range.room())?)
}

/// Every row of the range that the transaction sees, by ascending key.
pub fn scan<R: Wait>(
    rt: &R,
    alloc: Global,
    tables: &Tables<'_>,
    pass: &mut SessionPass,
    at: u64,
    range: Range,
) -> Result<RowList, NoMemory>
    requires own { IsSessionOf (board_id tables.now.board.now) (sizes_of tables.now.board.now)
        pass.old }
    requires reads { MayRead at range.table (session_view pass.old) }
    // the log gains one look for each bucket taken, also on Err
    ensures scans { Scans (store_buckets tables.now.store.now) (session_view pass.old)
        range.table range.low range.high result (session_view pass.new) }
    ensures heard { IsHeard (session_view pass.old) → IsHeard (session_view pass.new) }
    ensures own { IsSessionOf (board_id tables.now.board.now) (sizes_of tables.now.board.now)
        pass.new }
{
    let mut rows = room_for(alloc, range)?;
    let count = tables.store.buckets();
    let home = tables.store.bucket_of(range.first());
    for bucket in 0..count {
        if is_reached(bucket, home, count, range) {
            let own = first_key(bucket, home, count, range);
            see_range(
                rt,
                tables,
                pass,
                bucket,
                Sought { at, range, own },
                &mut rows,
            )?;
        }
    }
    rows.sort_unstable_by_key(|row| row.0);
    Ok(RowList::from(rows))
}
