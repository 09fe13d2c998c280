//! The table collector, and its visits of buckets: each bucket is taken, cut and given back.

ghost use Rattle.std.specs.Prelude.{◌≡◌, ◌<◌, ◌≤◌, IfOk, IfErr, ◌^◌};
ghost use Rattle.hg_rule.specs.Seats.{BoardId, IsPassOf, board_id, sizes_of, pass_view};
ghost use Rattle.hg_store.specs.Stores.{store_board_id, store_buckets, held_board_id, held_number, Holds};
ghost use Rattle.hg_tracker.specs.Boards.{trackers_board_id, board_sizes};
ghost use Rattle.hg_base.specs.declared.report.Kind.TheVariants.{Table};
ghost use Rattle.hg_core.specs.Counters.{total, removed_all};
ghost use Rattle.hg_rule.specs.Facts.{record_of};
ghost use Rattle.hg_rule.specs.Holding.{bucket};
ghost use Rattle.hg_rule.specs.Views.{pass as own_pass};
ghost use Rattle.hg_tracker.specs.Gathers.{tables_in, IsGatherOf};
ghost use Rattle.hg_rounds.specs.Visits.{Visits, VisitsAll};
ghost use Rattle.hg_rounds.specs.Tables.{ClearsTables};
ghost use Rattle.hg_rounds.specs.Cutting.{IsCutBy};

use crate::rounds::Rounds;
use hg_base::{Kind, NoMemory, Report, TableId};
use hg_rule::{Board, CollectorPass};
use hg_store::{Held, Store};
use hg_tracker::{Gathered, Trackers};
use std::alloc::Global;
use std::sync::Wait;

/// The table collector of a board.
#[derive(Drop)]
pub struct TableCollector {
    pub rounds: Rounds,
}

impl TableCollector {
    ghost use Rattle.std.specs.Prelude.{ℕ};
    ghost use Rattle.hg_rule.specs.declared.view.Sizes.{Sizes};
    ghost use Rattle.hg_rule.specs.Rules.{IsBacked};
    ghost use Rattle.std.specs.Borrow.{sem};
    ghost use Rattle.hg_rounds.specs.Lending.{LendsPass, EndsAs};
    ghost use Rattle.hg_rounds.specs.contracts.table.TableCollector.{the_row};
    ghost use Rattle.hg_rounds.specs.TableCollectors.{pass_of, view_of, report_in, with_pass, IsCollectorOf, Cuts};

    /// Takes all memory that passes at a board of so many sessions and tables need. A refusal hands the pass back.
    pub fn new(
        alloc: Global,
        pass: CollectorPass,
        sessions: u32,
        tables: u32,
    ) -> Result<TableCollector, (CollectorPass, NoMemory)>
        requires tables { tables ≤ 64 }
        ensures collector { (t : BoardId) (z : Sizes) → IsPassOf t pass → z.sessions ≡ sessions →
            z.tables ≡ tables → IfOk result (IsCollectorOf t z) }
        ensures same { IfOk result (λ c. pass_of c ≡ pass) }
        ensures refused { IfErr result (λ e. e.0 ≡ pass) }
    {
        match Rounds::new(alloc, Kind::Table, pass, sessions, tables) {
            Ok(rounds) => Ok(TableCollector { rounds }),
            Err(refused) => Err(refused),
        }
    }

    /// Lends the pass between two rounds.
    pub fn lend(&mut self) -> &mut CollectorPass
        ensures* back { sem 𝓛 (LendsPass the_row with_pass self.entry result) }
        ensures pass { result.now ≡ pass_of self.old }
    {
        self.rounds.lend()
    }

    /// One round. A snapshot is long in use where it is `long` commits or more behind the mark. It waits for buckets' locks, one
    /// at a time. All that the rule says of the pass's view is known at its end.
    pub fn collect<R: Wait>(&mut self, rt: &R, trackers: &Trackers, store: &Store, long: u64)
        requires own { IsCollectorOf (trackers_board_id trackers.now) (board_sizes trackers.now)
            self.old }
        requires board { store_board_id store.now ≡ trackers_board_id trackers.now }
        requires buckets { store_buckets store.now ≡ (board_sizes trackers.now).buckets }
        ensures cuts { Cuts (board_sizes trackers.now) long (view_of self.old) (report_in self.new)
            (view_of self.new) }
        ensures backed { (mark : ℕ) × IsBacked (board_sizes trackers.now) mark (view_of self.new) }
        ensures own { IsCollectorOf (trackers_board_id trackers.now) (board_sizes trackers.now)
            self.new }
    {
        let rounds = &mut self.rounds;
        trackers.gather(&mut rounds.pass, &mut rounds.gathered);
        trackers.move_long(&mut rounds.pass, &mut rounds.gathered, long);
        let removed = visit_all(rt, trackers, store, &mut rounds.pass, &rounds.gathered);
        rounds.rewrite(Kind::Table, removed);
        trackers.board().look_at(&mut rounds.pass);
    }

    /// One round, and its report, for callers of the library.
    pub fn pass<R: Wait>(
        &mut self,
        rt: &R,
        trackers: &Trackers,
        store: &Store,
        long: u64,
    ) -> &Report
        requires own { IsCollectorOf (trackers_board_id trackers.now) (board_sizes trackers.now)
            self.old }
        requires board { store_board_id store.now ≡ trackers_board_id trackers.now }
        requires buckets { store_buckets store.now ≡ (board_sizes trackers.now).buckets }
        ensures* ends { sem 𝓛 (EndsAs the_row self.entry (λ c.
            Cuts (board_sizes trackers.now) long (view_of self.old) result.now (view_of c) ×
            IsCollectorOf (trackers_board_id trackers.now) (board_sizes trackers.now) c)) }
    {
        self.collect(rt, trackers, store, long);
        self.rounds.report()
    }
}

// Cuts each table of a bucket that is held, at its own bound. The answer says how many versions went.
fn cut_tables(board: &Board, pass: &mut CollectorPass, held: &mut Held, gathered: &Gathered) -> u64
    requires own { IsPassOf (board_id board.now) pass.old }
    requires tables { tables_in gathered.now ≡ (sizes_of board.now).tables }
    requires shown { IsGatherOf (sizes_of board.now).sessions (own_pass (pass_view pass.old))
        gathered.now }
    requires holds { Holds (pass_view pass.old) held.old }
    requires few { total (bucket (pass_view pass.old)).content ≤ 2 ^ 40 }
    ensures clears { ClearsTables Table (IsCutBy (record_of (own_pass (pass_view pass.old))))
        (sizes_of board.now).tables result (pass_view pass.old) (pass_view pass.new) }
    ensures holds { Holds (pass_view pass.new) held.new }
    ensures held { (held_board_id held.new ≡ held_board_id held.old) ×
        (held_number held.new ≡ held_number held.old) }
    ensures own { IsPassOf (board_id board.now) pass.new }
{
    let mut gone = 0;
    for number in 0..gathered.tables() {
        let table = TableId(number as u8);
        let bound = gathered.bound(table);
        gone += held.cut_table(board, pass, table, bound);
    }
    gone
}

// Takes bucket `b`, cuts each of its tables by what the pass gathered and moved last, and gives the bucket back. The answer
// says how many versions went.
fn visit_bucket<R: Wait>(
    rt: &R,
    trackers: &Trackers,
    store: &Store,
    pass: &mut CollectorPass,
    gathered: &Gathered,
    b: u32,
) -> u64
    requires own { IsPassOf (trackers_board_id trackers.now) pass.old }
    requires board { store_board_id store.now ≡ trackers_board_id trackers.now }
    requires tables { tables_in gathered.now ≡ (board_sizes trackers.now).tables }
    requires shown { IsGatherOf (board_sizes trackers.now).sessions (own_pass (pass_view pass.old))
        gathered.now }
    requires bucket { b < store_buckets store.now }
    ensures visits { Visits Table (IsCutBy (record_of (own_pass (pass_view pass.old)))) b result
        (pass_view pass.old) (pass_view pass.new) }
    ensures shown { IsGatherOf (board_sizes trackers.now).sessions (own_pass (pass_view pass.new))
        gathered.now }
    ensures few { removed_all Table (own_pass (pass_view pass.new)).visits ≤ 2 ^ 41 }
    ensures own { IsPassOf (trackers_board_id trackers.now) pass.new }
{
    let board = trackers.board();
    let mut held = store.take(rt, board, b, pass);
    let gone = cut_tables(board, pass, &mut held, gathered);
    held.give(board, pass);
    gone
}

// Visits each bucket, in order. The answer says how many versions went.
fn visit_all<R: Wait>(
    rt: &R,
    trackers: &Trackers,
    store: &Store,
    pass: &mut CollectorPass,
    gathered: &Gathered,
) -> u64
    requires own { IsPassOf (trackers_board_id trackers.now) pass.old }
    requires board { store_board_id store.now ≡ trackers_board_id trackers.now }
    requires tables { tables_in gathered.now ≡ (board_sizes trackers.now).tables }
    requires shown { IsGatherOf (board_sizes trackers.now).sessions (own_pass (pass_view pass.old))
        gathered.now }
    ensures visits { VisitsAll Table (IsCutBy (record_of (own_pass (pass_view pass.old))))
        (store_buckets store.now) result (pass_view pass.old) (pass_view pass.new) }
    ensures own { IsPassOf (trackers_board_id trackers.now) pass.new }
{
    let mut gone = 0;
    for b in 0..store.buckets() {
        gone += visit_bucket(rt, trackers, store, pass, gathered, b);
    }
    gone
}
