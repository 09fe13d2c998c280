//! What a visit works with.

ghost use Rattle.std.specs.Prelude.{◌≡◌};
ghost use Rattle.hg_store.specs.Stores.{store_board_id};
ghost use Rattle.hg_tracker.specs.Boards.{trackers_board_id, board_sizes};
ghost use Rattle.hg_tracker.specs.Gathers.{tables_in};

use hg_store::Store;
use hg_tracker::{Gathered, Trackers};

// What each visit of a round of intervals works with: the trackers and the store of one engine, and what the round gathered.
#[derive(Clone, Copy)]
pub(crate) struct Tools<'a> {
    pub(crate) trackers: &'a Trackers,
    pub(crate) store: &'a Store,
    pub(crate) gathered: &'a Gathered,
    ghost same_board: { store_board_id store.now ≡ trackers_board_id trackers.now },
    ghost tables: { tables_in gathered.now ≡ (board_sizes trackers.now).tables },
}
