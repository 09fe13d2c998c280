//! What a cursor reads.

ghost use Rattle.std.specs.Prelude.{◌≡◌};
ghost use Rattle.hg_rule.specs.Seats.{board_id, sizes_of};
ghost use Rattle.hg_store.specs.Stores.{store_board_id, store_buckets};

use hg_rule::Board;
use hg_store::Store;

/// The tables of an engine: its board, and the store with their buckets.
#[derive(Clone, Copy)]
pub struct Tables<'a> {
    pub board: &'a Board,
    pub store: &'a Store,
    ghost same_board: { store_board_id store.now ≡ board_id board.now },
    ghost buckets: { store_buckets store.now ≡ (sizes_of board.now).buckets },
}
