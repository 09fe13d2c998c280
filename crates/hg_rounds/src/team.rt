//! The team: one pass, and room for its helpers.

ghost use Rattle.std.specs.Prelude.{◌≡◌, ◌<◌, ◌≤◌, IfOk, IfErr};
ghost use Rattle.hg_rule.specs.Views.{pass as own_pass};
ghost use Rattle.hg_rule.specs.Sharing.{MaySplit};
ghost use Rattle.hg_rule.specs.Seats.{BoardId, pass_view, IsPassOf};
ghost use Rattle.hg_store.specs.Stores.{store_board_id, store_buckets};
ghost use Rattle.hg_tracker.specs.Boards.{trackers_board_id, board_sizes};

use crate::crew::{hire, retire, work};
use crate::draws::{Drawer, Draws};
use crate::helper::Helper;
use crate::rounds::Rounds;
use crate::tools::Tools;
use hg_base::{Gate, Kind, NoMemory, Report};
use hg_rule::CollectorPass;
use hg_store::Store;
use hg_tracker::Trackers;
use std::alloc::Global;
use std::sync::Wait;
use std::thread::Threads;

/// Makes rounds of the interval collector with a fixed number of helpers, each in a thread of its own.
#[derive(Drop)]
pub struct SweepTeam {
    pub rounds: Rounds,
    pub(crate) count: u32,
    pub(crate) helpers: Vec<Helper>,
    pub(crate) draws: Draws,
    pub(crate) drawer: Drawer,
}

impl SweepTeam {
    ghost use Rattle.hg_rule.specs.declared.view.Sizes.{Sizes};
    ghost use Rattle.std.specs.Borrow.{sem};
    ghost use Rattle.hg_rounds.specs.Lending.{LendsPass, EndsAs};
    ghost use Rattle.hg_rounds.specs.contracts.team.SweepTeam.{the_row};
    ghost use Rattle.hg_rounds.specs.Teams.{pass_of, view_of, report_in, size_of, draws_of, with_pass, IsTeamOf, IsShared, SweepsBeside};

    /// Allocates all that rounds with so many helpers need on a board of so many sessions and tables. If memory runs out, the pass comes
    /// back.
    pub fn new(
        alloc: Global,
        pass: CollectorPass,
        helpers: u32,
        sessions: u32,
        tables: u32,
    ) -> Result<SweepTeam, (CollectorPass, NoMemory)>
        requires tables { tables ≤ 64 }
        requires helpers { (0 < helpers) × (helpers ≤ 16) }
        // for each board of which the pass is one, and which has so many sessions and tables
        ensures team { (t : BoardId) (z : Sizes) →
            IsPassOf t pass → MaySplit helpers (own_pass (pass_view pass)).share →
            z.sessions ≡ sessions → z.tables ≡ tables → IfOk result (IsTeamOf t z) }
        ensures size { IfOk result (λ c. size_of c ≡ helpers) }
        ensures same { IfOk result (λ c. pass_of c ≡ pass) }
        ensures refused { IfErr result (λ e. e.0 ≡ pass) }
    {
        let Ok(places) = Vec::with_capacity(alloc, helpers as usize) else {
            return Err((pass, NoMemory));
        };
        let Ok((draws, drawer)) = Draws::new(alloc) else {
            return Err((pass, NoMemory));
        };
        match Rounds::new(alloc, Kind::Interval, pass, sessions, tables) {
            Ok(rounds) => Ok(SweepTeam {
                rounds,
                count: helpers,
                helpers: places,
                draws,
                drawer,
            }),
            Err(refused) => Err(refused),
        }
    }

    /// Lends the pass between two rounds.
    pub fn lend(&mut self) -> &mut CollectorPass
        ensures* back { sem 𝓛 (LendsPass the_row with_pass self.entry result) }
        ensures pass { result.now ≡ pass_of self.old }
    {
        self.rounds.lend()
    }

    /// One round. Helper h asks the gate as worker 200 + h before each of its buckets, counted from 1. It holds one bucket's lock
    /// at a time.
    pub fn collect<R: Threads + Wait + Sync, G: Gate + Sync>(
        &mut self,
        rt: &R,
        trackers: &Trackers,
        store: &Store,
        gate: &G,
    )
        requires own { IsTeamOf (trackers_board_id trackers.now) (board_sizes trackers.now)
            self.old }
        requires board { store_board_id store.now ≡ trackers_board_id trackers.now }
        requires buckets { store_buckets store.now ≡ (board_sizes trackers.now).buckets }
        ensures sweeps { SweepsBeside (board_sizes trackers.now) (view_of self.old)
            (report_in self.new) (view_of self.new) }
        ensures shared { IsShared (size_of self.old) (board_sizes trackers.now).buckets
            (view_of self.old) (draws_of self.new) (view_of self.new) }
        ensures size { size_of self.new ≡ size_of self.old }
        ensures own { IsTeamOf (trackers_board_id trackers.now) (board_sizes trackers.now)
            self.new }
    {
        trackers.gather(&mut self.rounds.pass, &mut self.rounds.gathered);
        let board = trackers.board();
        hire(
            board,
            &mut self.rounds.pass,
            &self.draws,
            &mut self.drawer,
            self.count,
            &mut self.helpers,
        );
        let tools = Tools {
            trackers,
            store,
            gathered: &self.rounds.gathered,
        };
        work(rt, &tools, &self.draws, gate, self.helpers.as_mut_slice());
        let removed = retire(
            board,
            &mut self.rounds.pass,
            &self.draws,
            &mut self.drawer,
            &mut self.helpers,
        );
        self.rounds.rewrite(Kind::Interval, removed);
    }

    /// One round, and its report, for callers of the library.
    pub fn pass<R: Threads + Wait + Sync, G: Gate + Sync>(
        &mut self,
        rt: &R,
        trackers: &Trackers,
        store: &Store,
        gate: &G,
    ) -> &Report
        requires own { IsTeamOf (trackers_board_id trackers.now) (board_sizes trackers.now)
            self.old }
        requires board { store_board_id store.now ≡ trackers_board_id trackers.now }
        requires buckets { store_buckets store.now ≡ (board_sizes trackers.now).buckets }
        // what `collect` says, of the team as it is once the report is given back
        ensures* ends { sem 𝓛 (EndsAs the_row self.entry (λ c.
            SweepsBeside (board_sizes trackers.now) (view_of self.old) result.now (view_of c)
            × IsShared (size_of self.old) (board_sizes trackers.now).buckets (view_of self.old)
            (draws_of c) (view_of c)
            × (size_of c ≡ size_of self.old)
            × IsTeamOf (trackers_board_id trackers.now) (board_sizes trackers.now) c)) }
    {
        self.collect(rt, trackers, store, gate);
        self.rounds.report()
    }
}
