//! The engine that all sessions share.

ghost use Rattle.std.specs.Prelude.{◌≡◌, ◌<◌};
ghost use Rattle.hg_rule.specs.Seats.{board_id, sizes_of};
ghost use Rattle.hg_tracker.specs.Boards.{board_of};
ghost use Rattle.hg_group.specs.Lists.{groups_board_id, groups_sessions};
ghost use Rattle.hg_store.specs.Stores.{store_board_id, store_buckets};

use crate::session_list::{SessionList, seat_all};
use crate::totals::totals_with;
use hg_base::{NoMemory, Rid, Totals};
use hg_cursor::Tables;
use hg_group::GroupList;
use hg_rule::{Board, BucketSeatList, CollectorPass, CommitSeat, Seats};
use hg_store::Store;
use hg_tracker::Trackers;
use std::alloc::Global;
use std::sync::Wait;

/// A table, as it is declared.
#[derive(Clone, Copy, Debug, PartialEq, Eq)]
pub struct TableDecl {
    pub columns: u8,
}

/// The collectors' passes of an engine.
#[derive(Drop)]
pub struct Passes {
    pub group: CollectorPass,
    pub table: CollectorPass,
    pub interval: CollectorPass,
}

// The words of a board, its buckets, and what commits.
#[derive(Drop)]
pub(crate) struct Shared {
    pub(crate) trackers: Trackers,
    pub(crate) store: Store,
    pub(crate) groups: GroupList,
    ghost store_is: { store_board_id store ≡ board_id (board_of trackers) },
    ghost groups_are: { groups_board_id groups ≡ board_id (board_of trackers) },
    ghost sessions_are: { groups_sessions groups ≡ (sizes_of (board_of trackers)).sessions },
    ghost buckets_are: { store_buckets store ≡ (sizes_of (board_of trackers)).buckets },
    ghost some: { 0 < store_buckets store },
}

impl Shared {
    fn free(self) {
        let Shared {
            trackers: _,
            store,
            groups,
        } = self;
        store.free();
        groups.free();
    }
}

/// The words of a board, its buckets, and what commits. They are in a box, so that the proof of a function that names an engine does not go
/// through their types.
#[derive(Drop)]
pub struct Engine {
    pub(crate) shared: Box<Shared>,
}

impl Engine {
    ghost use Rattle.std.specs.Prelude.{◌*◌, ◌^◌, ◌≤◌, length, IfOk};
    ghost use Rattle.hg_core.specs.Contents.{bucket_of};
    ghost use Rattle.hg_rule.specs.New.{EachFrom, IsNewBucket, IsNewCommit, IsNewPass};
    ghost use Rattle.hg_rule.specs.Seats.{pass_view, IsPassOf};
    ghost use Rattle.hg_session.specs.Ended.{IsEnded, KeepsLogs, KeepsRemoved};
    ghost use Rattle.hg_session.specs.Engines.{engine_board, engine_board_id, engine_groups, engine_sizes, engine_store};
    ghost use Rattle.hg_session.specs.Opened.{IsNewOf};
    ghost use Rattle.hg_session.specs.Passing.{AreAlone};
    ghost use Rattle.hg_session.specs.Visited.{AreTotals, HasVisited};

    /// An engine with empty buckets, each of its sessions, and the collectors' passes. A session may run so many statements
    /// as `quota` says.
    pub fn open(
        alloc: Global,
        sessions: u32,
        tables: &[TableDecl],
        buckets: u32,
        quota: u64,
    ) -> Result<(Engine, SessionList, Passes), NoMemory>
        requires tables { length tables.now ≤ 64 }
        requires buckets { 0 < buckets }
        requires room { sessions * quota ≤ 2 ^ 40 }
        ensures sizes { IfOk result (λ o.
            engine_sizes o.0 ≡
            record
            { sessions = sessions; tables = length tables.now; buckets = buckets; quota = quota }) }
        ensures count { IfOk result (λ o. length o.1 ≡ sessions) }
        ensures sessions { IfOk result (λ o. EachFrom (IsNewOf o.0 quota) 1 o.1) }
        ensures alone { IfOk result (λ o. AreAlone o.0 o.2) }
        ensures passes { IfOk result (λ o.
            IsNewPass (engine_board_id o.0) 0 o.2.group ×
            IsNewPass (engine_board_id o.0) 1 o.2.table ×
            IsNewPass (engine_board_id o.0) 2 o.2.interval) }
    {
        let (board, seats) = Board::new(alloc, sessions, tables.len() as u32, buckets, quota)?;
        let Seats {
            sessions: places,
            buckets: seats,
            commit,
            group,
            table,
            interval,
        } = seats;
        let passes = Passes {
            group,
            table,
            interval,
        };
        let engine = Engine::over(alloc, board, seats, commit, sessions)?;
        let Ok(sessions) = seat_all(alloc, places.into_vec(), quota) else {
            engine.free();
            return Err(NoMemory);
        };
        Ok((engine, SessionList::from(sessions), passes))
    }

    // An engine on a new board, which has so many sessions.
    fn over(
        alloc: Global,
        board: Board,
        buckets: BucketSeatList,
        commit: CommitSeat,
        sessions: u32,
    ) -> Result<Engine, NoMemory>
        requires some { (0 < length buckets) × (length buckets < 2 ^ 32) }
        requires buckets { (length buckets ≡ (sizes_of board).buckets) ×
            EachFrom (IsNewBucket (board_id board)) 0 buckets }
        requires commit { IsNewCommit (board_id board) commit }
        requires sessions { sessions ≡ (sizes_of board).sessions }
        ensures { IfOk result (λ engine. engine_board engine ≡ board) }
    {
        let store = Store::new(alloc, buckets)?;
        let Ok(groups) = GroupList::new(alloc, commit, sessions) else {
            store.free();
            return Err(NoMemory);
        };
        let shared = Shared {
            trackers: Trackers::new(board),
            store,
            groups,
        };
        match Box::new(alloc, shared) {
            Ok(shared) => Ok(Engine { shared }),
            Err(refused) => {
                refused.value.free();
                Err(NoMemory)
            }
        }
    }

    /// Frees the engine, with all versions that are left.
    pub fn free(self) {
        Box::into_inner(self.shared).free();
    }

    /// The board, with the calls that take and give snapshots.
    pub fn trackers(&self) -> &Trackers
        ensures { board_of result.now ≡ engine_board self.now }
    {
        &self.shared.trackers
    }

    /// The words that all share.
    pub fn board(&self) -> &Board
        ensures { result.now ≡ engine_board self.now }
    {
        self.shared.trackers.board()
    }

    /// The list of groups.
    pub fn groups(&self) -> &GroupList
        ensures { result.now ≡ engine_groups self.now }
    {
        &self.shared.groups
    }

    /// The locked buckets.
    pub fn store(&self) -> &Store
        ensures { result.now ≡ engine_store self.now }
    {
        &self.shared.store
    }

    // What its sessions read.
    pub(crate) fn tables(&self) -> Tables<'_>
        ensures board { result.board.now ≡ engine_board self.now }
        ensures store { result.store.now ≡ engine_store self.now }
    {
        Tables {
            board: self.board(),
            store: self.store(),
        }
    }

    // The bucket of a record.
    pub(crate) fn bucket_of(&self, rid: Rid) -> u32
        ensures own { result ≡ bucket_of (engine_sizes self.now).buckets rid }
        ensures within { result < (engine_sizes self.now).buckets }
    {
        self.store().bucket_of(rid)
    }

    /// The sums of all buckets' counts. They are those of some history that contains each group of the logs once, and one list of
    /// steps from a new board ends with it and with what the pass has (`totals`). All sessions and all other passes were joined to
    /// the pass. Each bucket is taken once, in order, and nothing is removed from it (`visited`). The call waits for the commit
    /// lock and for each bucket's lock, and allocates nothing.
    pub fn totals<R: Wait>(&self, rt: &R, pass: &mut CollectorPass) -> Totals
        requires own { IsPassOf (engine_board_id self.now) pass.old }
        requires ended { IsEnded (engine_sizes self.now) (pass_view pass.old) }
        ensures totals { AreTotals (engine_sizes self.now) (pass_view pass.old) result }
        ensures visited { HasVisited (pass_view pass.old) (engine_sizes self.now).buckets
            (pass_view pass.new) }
        ensures kept { KeepsLogs (pass_view pass.old) (pass_view pass.new) }
        ensures removed { KeepsRemoved (pass_view pass.old) (pass_view pass.new) }
        ensures ended { IsEnded (engine_sizes self.now) (pass_view pass.new) }
        ensures own { IsPassOf (engine_board_id self.now) pass.new }
    {
        let (held, seat) = self.groups().take(rt);
        let (totals, seat) = totals_with(rt, self.board(), self.store(), seat, pass);
        held.give(seat);
        totals
    }
}
