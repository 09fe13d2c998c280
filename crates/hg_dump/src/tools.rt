//! What an export works with.

ghost use Rattle.std.specs.Prelude.{◌≡◌};
ghost use Rattle.hg_store.specs.Stores.{store_board_id, store_buckets};
ghost use Rattle.hg_tracker.specs.Boards.{trackers_board_id, board_sizes};

use hg_script::Script;
use hg_store::Store;
use hg_tracker::Trackers;

/// What an export works with: the trackers and the store of one engine, and the script that declares its tables.
#[derive(Clone, Copy)]
pub struct Tools<'a> {
    pub trackers: &'a Trackers,
    pub store: &'a Store,
    pub script: &'a Script,
    ghost same_board: { store_board_id store.now ≡ trackers_board_id trackers.now },
    ghost buckets: { store_buckets store.now ≡ (board_sizes trackers.now).buckets },
}
