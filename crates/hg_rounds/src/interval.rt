//! The interval collector, and its visits of buckets: each bucket is taken, swept and given back.

ghost use Rattle.std.specs.Prelude.{◌≡◌, ◌<◌, ◌≤◌, IfOk, IfErr, ◌^◌};
ghost use Rattle.hg_rule.specs.Facts.{record_of};
ghost use Rattle.hg_rule.specs.Views.{pass as own_pass};
ghost use Rattle.hg_rule.specs.Seats.{BoardId, IsPassOf, board_id, sizes_of, pass_view};
ghost use Rattle.hg_store.specs.Stores.{store_board_id, store_buckets, held_board_id, held_number, Holds};
ghost use Rattle.hg_tracker.specs.Boards.{trackers_board_id, board_sizes};
ghost use Rattle.hg_base.specs.declared.report.Kind.TheVariants.{Interval};
ghost use Rattle.hg_core.specs.Counters.{total, removed_all};
ghost use Rattle.hg_rule.specs.Holding.{bucket};
ghost use Rattle.hg_tracker.specs.Gathers.{tables_in, IsGatherOf};
ghost use Rattle.hg_rounds.specs.Visits.{Visits, VisitsAll};
ghost use Rattle.hg_rounds.specs.Tables.{ClearsTables};
ghost use Rattle.hg_rounds.specs.Sweeping.{IsCleanBy};
ghost use Rattle.hg_rounds.specs.Costs.{SpendsTables, VisitCosts, VisitsCost};

use crate::rounds::Rounds;
use crate::tools::Tools;
use hg_base::{Kind, NoMemory, Report, Steps, TableId};
use hg_rule::{Board, CollectorPass};
use hg_store::{Guards, Held, Store};
use hg_tracker::{Gathered, Trackers};
use std::alloc::Global;
use std::sync::Wait;
use std::sync::ledger::Ledger;

/// The interval collector of a board.
#[derive(Drop)]
pub struct IntervalCollector {
    pub rounds: Rounds,
}

impl IntervalCollector {
    ghost use Rattle.hg_rule.specs.declared.view.Sizes.{Sizes};
    ghost use Rattle.std.specs.Borrow.{sem};
    ghost use Rattle.hg_rounds.specs.Lending.{LendsPass, EndsAs};
    ghost use Rattle.hg_rounds.specs.contracts.interval.IntervalCollector.{the_row};
    ghost use Rattle.hg_rounds.specs.Costs.{VisitsCost};
    ghost use Rattle.hg_rounds.specs.IntervalCollectors.{pass_of, view_of, report_in, with_pass, IsCollectorOf, Sweeps};

    /// Takes all memory that passes at a board of so many sessions and tables need. A refusal hands the pass back.
    pub fn new(
        alloc: Global,
        pass: CollectorPass,
        sessions: u32,
        tables: u32,
    ) -> Result<IntervalCollector, (CollectorPass, NoMemory)>
        requires tables { tables ≤ 64 }
        ensures collector { (t : BoardId) (z : Sizes) → IsPassOf t pass → z.sessions ≡ sessions →
            z.tables ≡ tables → IfOk result (IsCollectorOf t z) }
        ensures same { IfOk result (λ c. pass_of c ≡ pass) }
        ensures refused { IfErr result (λ e. e.0 ≡ pass) }
    {
        match Rounds::new(alloc, Kind::Interval, pass, sessions, tables) {
            Ok(rounds) => Ok(IntervalCollector { rounds }),
            Err(refused) => Err(refused),
        }
    }

    /// Lends the pass between two rounds.
    pub fn lend(&mut self) -> &mut CollectorPass
        ensures* back { sem 𝓛 (LendsPass the_row with_pass self.entry result) }
        ensures pass { result.now ≡ pass_of self.old }
    {
        self.rounds.lend()
    }

    /// One round. It waits for buckets' locks, one at a time.
    pub fn collect<R: Wait, L: Ledger>(
        &mut self,
        rt: &R,
        trackers: &Trackers,
        store: &Store,
        steps: &mut Steps<L>,
    )
        requires own { IsCollectorOf (trackers_board_id trackers.now) (board_sizes trackers.now)
            self.old }
        requires board { store_board_id store.now ≡ trackers_board_id trackers.now }
        requires buckets { store_buckets store.now ≡ (board_sizes trackers.now).buckets }
        ensures sweeps { Sweeps (board_sizes trackers.now) (view_of self.old) (report_in self.new)
            (view_of self.new) }
        ensures cost { VisitsCost (board_sizes trackers.now)
            (record_of (own_pass (view_of self.new))) (board_sizes trackers.now).buckets
            steps.old steps.new }
        ensures own { IsCollectorOf (trackers_board_id trackers.now) (board_sizes trackers.now)
            self.new }
    {
        let rounds = &mut self.rounds;
        trackers.gather(&mut rounds.pass, &mut rounds.gathered);
        let tools = Tools {
            trackers,
            store,
            gathered: &rounds.gathered,
        };
        let removed = visit_all(rt, &tools, &mut rounds.pass, steps);
        rounds.rewrite(Kind::Interval, removed);
    }

    /// One round, and its report, for callers of the library.
    pub fn pass<R: Wait, L: Ledger>(
        &mut self,
        rt: &R,
        trackers: &Trackers,
        store: &Store,
        steps: &mut Steps<L>,
    ) -> &Report
        requires own { IsCollectorOf (trackers_board_id trackers.now) (board_sizes trackers.now)
            self.old }
        requires board { store_board_id store.now ≡ trackers_board_id trackers.now }
        requires buckets { store_buckets store.now ≡ (board_sizes trackers.now).buckets }
        ensures* ends { sem 𝓛 (EndsAs the_row self.entry (λ c.
            Sweeps (board_sizes trackers.now) (view_of self.old) result.now (view_of c) ×
            IsCollectorOf (trackers_board_id trackers.now) (board_sizes trackers.now) c ×
            VisitsCost (board_sizes trackers.now) (record_of (own_pass (view_of c)))
            (board_sizes trackers.now).buckets steps.old steps.new)) }
    {
        self.collect(rt, trackers, store, steps);
        self.rounds.report()
    }
}

// Sweeps each table of a bucket that is held. The answer says how many versions went.
fn sweep_tables<L: Ledger>(
    board: &Board,
    pass: &mut CollectorPass,
    held: &mut Held,
    gathered: &Gathered,
    steps: &mut Steps<L>,
) -> u64
    requires own { IsPassOf (board_id board.now) pass.old }
    requires tables { tables_in gathered.now ≡ (sizes_of board.now).tables }
    requires shown { IsGatherOf (sizes_of board.now).sessions (own_pass (pass_view pass.old))
        gathered.now }
    requires holds { Holds (pass_view pass.old) held.old }
    requires few { total (bucket (pass_view pass.old)).content ≤ 2 ^ 40 }
    ensures clears { ClearsTables Interval (IsCleanBy (record_of (own_pass (pass_view pass.old))))
        (sizes_of board.now).tables result (pass_view pass.old) (pass_view pass.new) }
    ensures holds { Holds (pass_view pass.new) held.new }
    ensures held { (held_board_id held.new ≡ held_board_id held.old) ×
        (held_number held.new ≡ held_number held.old) }
    ensures own { IsPassOf (board_id board.now) pass.new }
    ensures cost { SpendsTables (sizes_of board.now).tables
        (record_of (own_pass (pass_view pass.old))) (pass_view pass.old) steps.old steps.new }
{
    let horizon = gathered.horizon();
    let mut gone = 0;
    for number in 0..gathered.tables() {
        let table = TableId(number as u8);
        let snapshots = gathered.for_table(table);
        let guards = Guards { horizon, snapshots };
        gone += held.sweep(board, pass, table, &guards, steps);
    }
    gone
}

// Takes bucket `b`, sweeps each of its tables by what the pass gathered last, and gives the bucket back. The answer says how
// many versions went.
pub(crate) fn visit_bucket<R: Wait, L: Ledger>(
    rt: &R,
    tools: &Tools<'_>,
    pass: &mut CollectorPass,
    b: u32,
    steps: &mut Steps<L>,
) -> u64
    requires own { IsPassOf (trackers_board_id tools.now.trackers.now) pass.old }
    requires shown { IsGatherOf (board_sizes tools.now.trackers.now).sessions
        (own_pass (pass_view pass.old)) tools.now.gathered.now }
    requires bucket { b < store_buckets tools.now.store.now }
    ensures visits { Visits Interval (IsCleanBy (record_of (own_pass (pass_view pass.old)))) b
        result (pass_view pass.old) (pass_view pass.new) }
    ensures shown { IsGatherOf (board_sizes tools.now.trackers.now).sessions
        (own_pass (pass_view pass.new)) tools.now.gathered.now }
    ensures few { removed_all Interval (own_pass (pass_view pass.new)).visits ≤ 2 ^ 41 }
    ensures cost { VisitCosts (board_sizes tools.now.trackers.now)
        (record_of (own_pass (pass_view pass.old))) b steps.old steps.new }
    ensures own { IsPassOf (trackers_board_id tools.now.trackers.now) pass.new }
{
    let board = tools.trackers.board();
    let mut held = tools.store.take(rt, board, b, pass);
    let gone = sweep_tables(board, pass, &mut held, tools.gathered, steps);
    held.give(board, pass);
    gone
}

// Visits each bucket, in order. The answer says how many versions went.
fn visit_all<R: Wait, L: Ledger>(
    rt: &R,
    tools: &Tools<'_>,
    pass: &mut CollectorPass,
    steps: &mut Steps<L>,
) -> u64
    requires own { IsPassOf (trackers_board_id tools.now.trackers.now) pass.old }
    requires shown { IsGatherOf (board_sizes tools.now.trackers.now).sessions
        (own_pass (pass_view pass.old)) tools.now.gathered.now }
    ensures visits { VisitsAll Interval (IsCleanBy (record_of (own_pass (pass_view pass.old))))
        (store_buckets tools.now.store.now) result (pass_view pass.old) (pass_view pass.new) }
    ensures cost { VisitsCost (board_sizes tools.now.trackers.now)
        (record_of (own_pass (pass_view pass.old))) (store_buckets tools.now.store.now)
        steps.old steps.new }
    ensures own { IsPassOf (trackers_board_id tools.now.trackers.now) pass.new }
{
    let mut gone = 0;
    for b in 0..tools.store.buckets() {
        gone += visit_bucket(rt, tools, pass, b, steps);
    }
    gone
}
