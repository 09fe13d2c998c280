//! The first rows of a range: a walk over the buckets.

ghost use Rattle.std.specs.Prelude.{◌≡◌, ◌+◌, ◌<◌, ◌≤◌, ◌&&◌, nat_lt, nat_le};
ghost use Rattle.hg_rule.specs.Seats.{board_id, sizes_of, session_view, IsSessionOf};
ghost use Rattle.hg_store.specs.Stores.{store_board_id, store_buckets};
ghost use Rattle.hg_cursor.specs.Logs.{IsHeard, ReadsAt};
ghost use Rattle.hg_base.specs.Transcript.{passed};
ghost use Rattle.hg_cursor.specs.Cursors.{Fetches};

use crate::firsts::Firsts;
use crate::looks::{Look, see_bucket};
use crate::request::Request;
use hg_base::{NoMemory, Row, RowList};
use hg_rule::{Board, SessionPass};
use hg_store::Store;
use std::alloc::Global;
use std::sync::Wait;

// Whether a further bucket can have a key up to `limit`: the one whose first key is so many over the first one of the range.
fn is_needed(ahead: u64, count: u64, low: u64, limit: u64) -> bool
    ensures { result ≡ (nat_lt ahead count && nat_le (low + ahead) limit) }
{
    ahead < count && low <= limit && ahead <= limit - low
}

// The last key that a fetch of `most` rows up to `high` has passed.
pub(crate) fn last_passed(rows: &[(u64, Row)], most: usize, high: u64) -> u64
    ensures { result ≡ passed most high rows.now }
{
    if rows.len() < most {
        return high;
    }
    match rows.last() {
        Some(row) => row.0,
        None => high,
    }
}

// The first rows of a range, by key: as many as are asked for, or all.
pub(crate) fn first_rows<R: Wait>(
    rt: &R,
    alloc: Global,
    board: &Board,
    store: &Store,
    pass: &mut SessionPass,
    request: Request,
) -> Result<RowList, NoMemory>
    requires board { store_board_id store.now ≡ board_id board.now }
    requires buckets { store_buckets store.now ≡ (sizes_of board.now).buckets }
    requires own { IsSessionOf (board_id board.now) (sizes_of board.now) pass.old }
    requires reads { ReadsAt request.at request.table (session_view pass.old) }
    requires range { request.low ≤ request.high }
    requires most { 0 < request.most }
    ensures gains { Fetches (store_buckets store.now) request.most (session_view pass.old)
        request.table request.low request.high result (session_view pass.new) }
    ensures reads { ReadsAt request.at request.table (session_view pass.new) }
    ensures heard { IsHeard (session_view pass.old) → IsHeard (session_view pass.new) }
    ensures own { IsSessionOf (board_id board.now) (sizes_of board.now) pass.new }
{
    let mut firsts = Firsts::new(alloc, request.most);
    let count = u64::from(store.buckets());
    let mut limit = request.high;
    let mut ahead = 0;
    while is_needed(ahead, count, request.low, limit) {
        let own = request.low + ahead;
        let look = Look {
            request,
            own,
            limit,
        };
        limit = see_bucket(rt, board, store, pass, look, &mut firsts)?;
        ahead += 1;
    }
    Ok(RowList::from(firsts.into_rows(limit)))
}
