//! What an engine lends its collectors.

ghost use Rattle.std.specs.Prelude.{◌≡◌, ◌<◌};
ghost use Rattle.hg_group.specs.Lists.{groups_board_id};
ghost use Rattle.hg_store.specs.Stores.{store_board_id, store_buckets};
ghost use Rattle.hg_tracker.specs.Boards.{trackers_board_id, board_of, board_sizes};

use hg_group::GroupList;
use hg_store::Store;
use hg_tracker::Trackers;

/// The words of a board, its buckets, and its list of groups.
#[derive(Drop)]
pub struct Lent<'a> {
    pub(crate) trackers: &'a Trackers,
    pub(crate) store: &'a Store,
    pub(crate) groups: &'a GroupList,
    ghost store_is: { store_board_id store.now ≡ trackers_board_id trackers.now },
    ghost groups_are: { groups_board_id groups.now ≡ trackers_board_id trackers.now },
    ghost buckets_are: { store_buckets store.now ≡ (board_sizes trackers.now).buckets },
    ghost some: { 0 < store_buckets store.now },
}

impl<'a> Lent<'a> {
    ghost use Rattle.hg_collectors.specs.Lent.{lent_board};

    /// These three, which are of one board.
    pub fn new(trackers: &'a Trackers, store: &'a Store, groups: &'a GroupList) -> Lent<'a>
        requires boards { (store_board_id store.now ≡ trackers_board_id trackers.now) ×
            (groups_board_id groups.now ≡ trackers_board_id trackers.now) }
        requires buckets { (0 < store_buckets store.now) ×
            (store_buckets store.now ≡ (board_sizes trackers.now).buckets) }
        ensures { lent_board result ≡ board_of trackers.now }
    {
        Lent {
            trackers,
            store,
            groups,
        }
    }
}
