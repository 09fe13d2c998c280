//! One record, at one snapshot.

ghost use Rattle.std.specs.Prelude.{◌≡◌, ◌∷◌, [], List, Option, is_some, unwrap_or, IfOk};
ghost use Rattle.std.specs.Option.{option_copied};
ghost use Rattle.hg_base.specs.History.{nothing};
ghost use Rattle.hg_base.specs.declared.value.Value.{Value};
ghost use Rattle.hg_core.specs.Reading.{saw};
ghost use Rattle.hg_rule.specs.Seats.{board_id, sizes_of, session_view, IsSessionOf};
ghost use Rattle.hg_store.specs.Stores.{store_buckets};
ghost use Rattle.hg_cursor.specs.Keys.{rows_at};
ghost use Rattle.hg_cursor.specs.Logs.{Adds, IsHeard, MayRead};

use crate::tables::Tables;
use hg_base::{Image, NoMemory, Rid, Row};
use hg_rule::SessionPass;
use std::sync::Wait;

// The row of an image.
fn row_of(image: Option<&Image>) -> Result<Option<Row>, NoMemory>
    ensures { IfOk result (λ row. row ≡ (unwrap_or (option_copied image.entry) nothing).row) }
{
    match image {
        Some(Image { row: Some(row) }) => Ok(Some(row.copy()?)),
        Some(Image { row: None }) | None => Ok(None),
    }
}

// Whether an image is a row.
fn is_there(image: Option<&Image>) -> bool
    ensures { result ≡ is_some (unwrap_or (option_copied image.entry) nothing).row }
{
    match image {
        Some(image) => image.row.is_some(),
        None => false,
    }
}

/// Takes a record's bucket, logs a look at the record, and copies the row that the transaction reads, if there is one.
pub fn read_row<R: Wait>(
    rt: &R,
    tables: &Tables<'_>,
    pass: &mut SessionPass,
    at: u64,
    rid: Rid,
) -> Result<Option<Row>, NoMemory>
    requires own { IsSessionOf (board_id tables.now.board.now) (sizes_of tables.now.board.now)
        pass.old }
    requires reads { MayRead at rid.table (session_view pass.old) }
    // the log gains the look, also on Err
    ensures adds { (row : Option (List Value)) ×
        (Adds (session_view pass.old)
        (saw (store_buckets tables.now.store.now) rid (rows_at rid.key row) ∷ [])
        (session_view pass.new) × IfOk result (λ r. r ≡ row)) }
    ensures heard { IsHeard (session_view pass.new) }
    ensures own { IsSessionOf (board_id tables.now.board.now) (sizes_of tables.now.board.now)
        pass.new }
{
    let by = pass.writer();
    let bucket = tables.store.bucket_of(rid);
    let held = tables.store.take(rt, tables.board, bucket, pass);
    held.see(tables.board, pass, rid.table, rid.key, rid.key);
    let row = row_of(held.read(rid, at, by));
    held.give(tables.board, pass);
    row
}

/// The same, and says only whether there is a row. It allocates nothing.
pub fn has_row<R: Wait>(
    rt: &R,
    tables: &Tables<'_>,
    pass: &mut SessionPass,
    at: u64,
    rid: Rid,
) -> bool
    requires own { IsSessionOf (board_id tables.now.board.now) (sizes_of tables.now.board.now)
        pass.old }
    requires reads { MayRead at rid.table (session_view pass.old) }
    ensures adds { (row : Option (List Value)) ×
        (Adds (session_view pass.old)
        (saw (store_buckets tables.now.store.now) rid (rows_at rid.key row) ∷ [])
        (session_view pass.new) × (result ≡ is_some row)) }
    ensures heard { IsHeard (session_view pass.new) }
    ensures own { IsSessionOf (board_id tables.now.board.now) (sizes_of tables.now.board.now)
        pass.new }
{
    let by = pass.writer();
    let bucket = tables.store.bucket_of(rid);
    let held = tables.store.take(rt, tables.board, bucket, pass);
    held.see(tables.board, pass, rid.table, rid.key, rid.key);
    let there = is_there(held.read(rid, at, by));
    held.give(tables.board, pass);
    there
}
