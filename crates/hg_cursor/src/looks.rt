//! What a fetch reads of one bucket.

ghost use Rattle.std.specs.Prelude.{◌≡◌, ◌<◌, ◌≤◌, ◌++◌, IfOk, OnOk};
ghost use Rattle.hg_core.specs.Replies.{read_by};
ghost use Rattle.hg_rule.specs.declared.view.View.{View};
ghost use Rattle.hg_rule.specs.Holding.{bucket as bucket_in, held as held_in};
ghost use Rattle.hg_rule.specs.Seats.{board_id, sizes_of, session_view, IsSessionOf};
ghost use Rattle.hg_store.specs.Stores.{store_board_id, store_buckets, Holds};
ghost use Rattle.hg_cursor.specs.Firsts.{IsNeeded};
ghost use Rattle.hg_cursor.specs.Keys.{rows_at};
ghost use Rattle.hg_cursor.specs.Logs.{IsHeard, ReadsAt};
ghost use Rattle.hg_cursor.specs.Looks.{WhereOwn, IsFirstKey, AppendsFirst, Sees};

use crate::firsts::Firsts;
use crate::own_keys::{next_after, next_from};
use crate::request::Request;
use hg_base::{Image, NoMemory, Rid, Writer};
use hg_rule::{Board, SessionPass};
use hg_store::{Held, Store};
use std::sync::Wait;

/// A look at one bucket, for the rows of a request that have keys up to `limit`. `own` is the bucket's first key in the range.
#[derive(Clone, Copy)]
pub(crate) struct Look {
    pub(crate) request: Request,
    pub(crate) own: u64,
    pub(crate) limit: u64,
}

// Copies the row that a transaction reads of a record, and says whether it reads one.
fn push_row(
    held: &Held<'_>,
    rid: Rid,
    at: u64,
    by: Writer,
    firsts: &mut Firsts,
) -> Result<bool, NoMemory>
    requires { IsNeeded rid.key firsts.old }
    ensures added { (v : View) → Holds v held.now →
        OnOk result (firsts.new.rows ≡
        firsts.old.rows ++ rows_at rid.key (read_by by at (held_in v rid)).row) }
    ensures most { firsts.new.most ≡ firsts.old.most }
    ensures needed { OnOk result (IsNeeded rid.key firsts.new) }
{
    if let Some(Image { row: Some(row) }) = held.read(rid, at, by) {
        firsts.add(rid.key, row.copy()?)?;
        return Ok(true);
    }
    Ok(false)
}

// Copies the rows that a transaction reads of the bucket held, by key, as long as they are needed. Returns the new limit: up to it
// all of the bucket's rows were copied.
fn push_rows(
    held: &Held<'_>,
    look: Look,
    count: u64,
    by: Writer,
    firsts: &mut Firsts,
) -> Result<u64, NoMemory>
    requires some { 0 < count }
    requires within { look.own ≤ look.limit }
    requires needed { IsNeeded look.limit firsts.old }
    ensures most { firsts.new.most ≡ firsts.old.most }
    ensures rows { WhereOwn held.now count look.request.table look.own
        (λ v b. IfOk result (AppendsFirst by look (bucket_in v).content firsts.old firsts.new)) }
    ensures needed { IfOk result (λ limit. IsNeeded limit firsts.new) }
    ensures reached { IfOk result (λ limit. look.own ≤ limit) }
{
    let table = look.request.table;
    let mut limit = look.limit;
    // as if the own key before the first one had been read
    let mut last = look.own.wrapping_sub(count);
    let mut next = next_from(held, table, count, look.own, limit);
    while let Some(key) = next {
        let found = push_row(held, Rid { table, key }, look.request.at, by, firsts)?;
        limit = firsts.limit_after(key, limit);
        let is_dense = found && key.wrapping_sub(last) == count;
        next = next_after(held, table, count, key, limit, is_dense);
        last = key;
    }
    Ok(limit)
}

// Takes the bucket of a look, logs the look over the whole range of the request, and copies the rows that are needed. Returns the
// new limit: up to it all of the bucket's rows were copied.
pub(crate) fn see_bucket<R: Wait>(
    rt: &R,
    board: &Board,
    store: &Store,
    pass: &mut SessionPass,
    look: Look,
    firsts: &mut Firsts,
) -> Result<u64, NoMemory>
    requires board { store_board_id store.now ≡ board_id board.now }
    requires buckets { store_buckets store.now ≡ (sizes_of board.now).buckets }
    requires own { IsSessionOf (board_id board.now) (sizes_of board.now) pass.old }
    requires reads { ReadsAt look.request.at look.request.table (session_view pass.old) }
    requires first { IsFirstKey (store_buckets store.now) look.request.low look.own }
    requires within { (look.own ≤ look.limit) × (look.limit ≤ look.request.high) }
    // no row that is not needed is read
    requires needed { IsNeeded look.limit firsts.old }
    ensures sees { Sees (store_buckets store.now) look (session_view pass.old) firsts.old
        result (session_view pass.new) firsts.new }
    ensures needed { IfOk result (λ limit. IsNeeded limit firsts.new) }
    ensures reached { IfOk result (λ limit. look.own ≤ limit) }
    ensures heard { IsHeard (session_view pass.new) }
    ensures own { IsSessionOf (board_id board.now) (sizes_of board.now) pass.new }
{
    let request = look.request;
    let by = pass.writer();
    let count = u64::from(store.buckets());
    let bucket = store.bucket_of(Rid {
        table: request.table,
        key: look.own,
    });
    let held = store.take(rt, board, bucket, pass);
    held.see(board, pass, request.table, request.low, request.high);
    let reached = push_rows(&held, look, count, by, firsts);
    held.give(board, pass);
    reached
}
