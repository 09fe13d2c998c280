//! The intake of groups: they are taken up to a bound, oldest first.

ghost use Rattle.std.specs.Prelude.{◌≡◌, ◌<◌, ◌≤◌, ◌^◌, vec_capacity};
ghost use Rattle.hg_base.specs.declared.report.Kind.TheVariants.{Group};
ghost use Rattle.hg_core.specs.Passes.{IsWhole, group_bound};
ghost use Rattle.hg_core.specs.Counters.{removed_all};

use crate::cuts::{cut_all, cut_batch};
use crate::group::GroupCollector;
use hg_group::GroupList;
use hg_rule::Board;
use hg_store::Store;
use std::sync::Wait;

impl GroupCollector {
    ghost use Rattle.hg_rule.specs.Facts.{record_of};
    ghost use Rattle.hg_rule.specs.Views.{pass as own_pass};
    ghost use Rattle.hg_rule.specs.Seats.{board_id, sizes_of, IsPassOf};
    ghost use Rattle.hg_store.specs.Stores.{store_board_id, store_buckets};
    ghost use Rattle.hg_group.specs.Lists.{groups_board_id};
    ghost use Rattle.hg_collectors.specs.GroupCollectors.{pass_of, view_of};
    ghost use Rattle.hg_collectors.specs.Taking.{TakesAll};

    /// Takes groups until as many as the bound were taken, as many at a time as there is room for, and cuts the records of each. No
    /// bucket is held while it waits for the commit lock. The answer says how many versions went.
    pub(crate) fn take_groups<R: Wait>(
        &mut self,
        rt: &R,
        board: &Board,
        store: &Store,
        groups: &GroupList,
        bound: u64,
    ) -> u64
        requires boards { (store_board_id store.now ≡ board_id board.now) ×
            (groups_board_id groups.now ≡ board_id board.now) }
        requires buckets { (0 < store_buckets store.now) ×
            (store_buckets store.now ≡ (sizes_of board.now).buckets) }
        requires own { IsPassOf (board_id board.now) (pass_of self.old) }
        requires whole { IsWhole (sizes_of board.now).sessions
            (record_of (own_pass (view_of self.old))) }
        requires bound { bound ≡ group_bound (record_of (own_pass (view_of self.old))) }
        requires few { removed_all Group (own_pass (view_of self.old)).visits ≤ 2 ^ 41 }
        ensures takes { TakesAll (sizes_of board.now).buckets bound (view_of self.old) result
            (view_of self.new) }
        ensures own { IsPassOf (board_id board.now) (pass_of self.new) }
        ensures same { (self.new.rounds.gathered ≡ self.old.rounds.gathered) ×
            (self.new.rounds.report ≡ self.old.rounds.report) }
        ensures room { vec_capacity self.new.rids ≡ vec_capacity self.old.rids }
    {
        let pass = &mut self.rounds.pass;
        let rids = &mut self.rids;
        let mut gone = 0;
        while let Some(last) = groups.take_some(rt, board, bound, rids, pass) {
            gone += cut_batch(rt, board, store, pass, rids, bound);
            gone += cut_all(rt, board, store, pass, last.records.as_slice(), bound);
        }
        gone + cut_batch(rt, board, store, pass, rids, bound)
    }
}
