//! The group collector.

ghost use Rattle.std.specs.Prelude.{◌≡◌, ◌<◌, ◌≤◌, IfOk, IfErr};
ghost use Rattle.hg_rule.specs.Seats.{BoardId, IsPassOf};
ghost use Rattle.hg_store.specs.Stores.{store_board_id, store_buckets};
ghost use Rattle.hg_group.specs.Lists.{groups_board_id};
ghost use Rattle.hg_tracker.specs.Boards.{trackers_board_id, board_sizes};

use hg_base::{Kind, NoMemory, Report, Rid};
use hg_group::GroupList;
use hg_rounds::Rounds;
use hg_rule::CollectorPass;
use hg_store::Store;
use hg_tracker::Trackers;
use std::alloc::Global;
use std::sync::Wait;

// How many records of groups that are taken together there is room for. The commit lock is held for no more at a time.
const ROOM: usize = 2048;

/// The group collector of a board, with room for the records of groups that are taken together.
#[derive(Drop)]
pub struct GroupCollector {
    pub rounds: Rounds,
    pub(crate) rids: Vec<Rid>,
}

impl GroupCollector {
    ghost use Rattle.hg_rule.specs.declared.view.Sizes.{Sizes};
    ghost use Rattle.std.specs.Borrow.{sem};
    ghost use Rattle.hg_rounds.specs.Lending.{LendsPass, EndsAs};
    ghost use Rattle.hg_collectors.specs.contracts.group.GroupCollector.{the_row};
    ghost use Rattle.hg_collectors.specs.GroupCollectors.{pass_of, view_of, report_in, with_pass, IsCollectorOf, Collects};

    /// Takes all memory that passes at a board of so many sessions and tables need. A refusal hands the pass back.
    pub fn new(
        alloc: Global,
        pass: CollectorPass,
        sessions: u32,
        tables: u32,
    ) -> Result<GroupCollector, (CollectorPass, NoMemory)>
        requires tables { tables ≤ 64 }
        ensures collector { (t : BoardId) (z : Sizes) → IsPassOf t pass → z.sessions ≡ sessions →
            z.tables ≡ tables → IfOk result (IsCollectorOf t z) }
        ensures same { IfOk result (λ c. pass_of c ≡ pass) }
        ensures refused { IfErr result (λ e. e.0 ≡ pass) }
    {
        let Ok(rids) = Vec::with_capacity(alloc, ROOM) else {
            return Err((pass, NoMemory));
        };
        match Rounds::new(alloc, Kind::Group, pass, sessions, tables) {
            Ok(rounds) => Ok(GroupCollector { rounds, rids }),
            Err(refused) => Err(refused),
        }
    }

    /// Lends the pass between two rounds.
    pub fn lend(&mut self) -> &mut CollectorPass
        ensures* back { sem 𝓛 (LendsPass the_row with_pass self.entry result) }
        ensures pass { result.now ≡ pass_of self.old }
    {
        self.rounds.lend()
    }

    /// One round. It waits for the commit lock and for buckets' locks, one at a time.
    pub fn collect<R: Wait>(
        &mut self,
        rt: &R,
        trackers: &Trackers,
        store: &Store,
        groups: &GroupList,
    )
        requires own { IsCollectorOf (trackers_board_id trackers.now) (board_sizes trackers.now)
            self.old }
        requires boards { (store_board_id store.now ≡ trackers_board_id trackers.now) ×
            (groups_board_id groups.now ≡ trackers_board_id trackers.now) }
        requires buckets { (0 < store_buckets store.now) ×
            (store_buckets store.now ≡ (board_sizes trackers.now).buckets) }
        ensures collects { Collects (board_sizes trackers.now) (view_of self.old)
            (report_in self.new) (view_of self.new) }
        ensures own { IsCollectorOf (trackers_board_id trackers.now) (board_sizes trackers.now)
            self.new }
    {
        let board = trackers.board();
        trackers.gather(&mut self.rounds.pass, &mut self.rounds.gathered);
        board.look_at(&mut self.rounds.pass);
        let bound = self.rounds.gathered.least();
        let removed = self.take_groups(rt, board, store, groups, bound);
        self.rounds.rewrite(Kind::Group, removed);
    }

    /// One round, and its report, for callers of the library.
    pub fn pass<R: Wait>(
        &mut self,
        rt: &R,
        trackers: &Trackers,
        store: &Store,
        groups: &GroupList,
    ) -> &Report
        requires own { IsCollectorOf (trackers_board_id trackers.now) (board_sizes trackers.now)
            self.old }
        requires boards { (store_board_id store.now ≡ trackers_board_id trackers.now) ×
            (groups_board_id groups.now ≡ trackers_board_id trackers.now) }
        requires buckets { (0 < store_buckets store.now) ×
            (store_buckets store.now ≡ (board_sizes trackers.now).buckets) }
        ensures* ends { sem 𝓛 (EndsAs the_row self.entry (λ c.
            Collects (board_sizes trackers.now) (view_of self.old) result.now (view_of c) ×
            IsCollectorOf (trackers_board_id trackers.now) (board_sizes trackers.now) c)) }
    {
        self.collect(rt, trackers, store, groups);
        self.rounds.report()
    }
}
