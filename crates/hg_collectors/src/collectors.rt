//! The three collectors of an engine, as a replay and a run use them, and what makes their rounds.

ghost use Rattle.std.specs.Prelude.{◌≡◌, ◌≢◌, ◌+◌, ◌≤◌, IfOk, ◌<◌};
ghost use Rattle.hg_rule.specs.Seats.{BoardId};
ghost use Rattle.hg_collectors.specs.Lent.{lent_board_id, lent_sizes};
ghost use Rattle.hg_base.specs.declared.report.Sweep.{Sweep};
ghost use Rattle.hg_collectors.specs.Rounding.{IsRoundBy};
ghost use Rattle.hg_base.specs.declared.report.Kind.TheVariants as kinds;
ghost use Rattle.hg_collectors.specs.GroupCollectors as by_group;
ghost use Rattle.hg_rounds.specs.TableCollectors as by_table;
ghost use Rattle.hg_rounds.specs.IntervalCollectors as by_one;
ghost use Rattle.hg_collectors.specs.Workers as by_worker;

use crate::group::GroupCollector;
use crate::interval::IntervalWorker;
use crate::lent::Lent;
use crate::pace::NoGate;
use hg_base::{Gate, Kind, NoMemory, Steps, Sweep};
use hg_rounds::{IntervalCollector, TableCollector};
use hg_rule::CollectorPass;
use std::alloc::Global;
use std::marker::Brand;
use std::sync::Wait;
use std::sync::ledger::{Blank, Ledger};
use std::thread::Threads;

/// The three, each with the room that its rounds need.
#[derive(Drop)]
pub struct Collectors {
    pub group: GroupCollector,
    pub table: TableCollector,
    pub interval: IntervalWorker,
}

/// For how many sessions and tables there is room, and how many helpers share a round of the interval collector.
#[derive(Drop)]
pub struct Room {
    pub sessions: u32,
    pub tables: u32,
    pub sweepers: u32,
}

impl Collectors {
    ghost use Rattle.hg_base.specs.declared.report.Kind.{Kind};
    ghost use Rattle.hg_rule.specs.declared.view.Sizes.{Sizes};
    ghost use Rattle.hg_collectors.specs.Swept.{HasSwept, swept_by};
    ghost use Rattle.hg_collectors.specs.Collecting.{AreCollectorsOf, IsLone, pass_in, removed_of, view_in};
    ghost use Rattle.hg_collectors.specs.Workers.{HasHelpers};

    /// The collectors of an engine, with these passes. If memory runs out, the passes are lost.
    pub fn new(
        alloc: Global,
        group: CollectorPass,
        table: CollectorPass,
        interval: CollectorPass,
        room: Room,
    ) -> Result<Collectors, NoMemory>
        requires tables { room.tables ≤ 64 }
        requires sweepers { room.sweepers ≤ 16 }
        ensures helpers { IfOk result (λ c. HasHelpers room.sweepers c.interval) }
        ensures same { IfOk result (λ c.
            (pass_in kinds.Group c ≡ group) × (pass_in kinds.Table c ≡ table) ×
            (pass_in kinds.Interval c ≡ interval)) }
        // for each board whose passes these are, each with its own part alone, and which has so many sessions and tables
        ensures own { (t : BoardId) (z : Sizes) →
            IsLone t 0 group × IsLone t 1 table × IsLone t 2 interval →
            z.sessions ≡ room.sessions → z.tables ≡ room.tables →
            IfOk result (AreCollectorsOf t z) }
    {
        let Ok(group) = GroupCollector::new(alloc, group, room.sessions, room.tables) else {
            return Err(NoMemory);
        };
        let Ok(table) = TableCollector::new(alloc, table, room.sessions, room.tables) else {
            return Err(NoMemory);
        };
        let interval = IntervalWorker::new(
            alloc,
            interval,
            room.sweepers,
            room.sessions,
            room.tables,
        )?;
        Ok(Collectors {
            group,
            table,
            interval,
        })
    }

    /// One round of the collector of that kind, as it is told.
    pub fn collect<R: Threads + Wait + Sync>(
        &mut self,
        rt: &R,
        lent: &Lent,
        kind: Kind,
        long: u64,
    ) -> Result<Sweep, NoMemory>
        requires own { AreCollectorsOf (lent_board_id lent.now) (lent_sizes lent.now) self.old }
        ensures round { IfOk result (λ sweep.
            IsRoundBy kind (lent_sizes lent.now) long (view_in kind self.old) sweep
            (view_in kind self.new)) }
        ensures others { (k : Kind) → k ≢ kind → view_in k self.new ≡ view_in k self.old }
        ensures swept { IfOk result (λ sweep.
            HasSwept kind (lent_sizes lent.now).sessions (view_in kind self.old) sweep
            (view_in kind self.new)) }
        ensures removed { IfOk result (λ sweep.
            (k : Kind) → removed_of k self.new ≡ removed_of k self.old + swept_by k sweep) }
        // also where memory for what is told is refused
        ensures kept { (k : Kind) → removed_of k self.old ≤ removed_of k self.new }
        ensures own { AreCollectorsOf (lent_board_id lent.now) (lent_sizes lent.now) self.new }
    {
        match kind {
            Kind::Group => self.group.make_round(rt, lent, long),
            Kind::Table => self.table.make_round(rt, lent, long),
            Kind::Interval => sweep_round(rt, lent, &NoGate, &mut self.interval),
        }
    }

    /// Frees the three, with the room for their rounds.
    pub fn free(self) {}
}

/// The group or the table collector, on what an engine lends. A snapshot that is `long` commit numbers behind the mark is long in use.
/// The interval collector is none: its team starts threads, which no proof follows through a trait.
pub(crate) trait Worker {
    ghost use Rattle.hg_base.specs.declared.report.Kind.{Kind};
    ghost use Rattle.hg_base.specs.declared.report.Sweep.{Sweep};
    ghost use Rattle.hg_rule.specs.declared.view.View.{View};
    ghost use Rattle.hg_collectors.specs.declared.lent.Lent.{Lent};

    ghost kind: { Kind };

    ghost view_of: { Self → View };

    ghost is_of: { Lent → Self → Type 0 };

    /// One round, as it is told. The round is made where memory for what is told is refused, too.
    fn make_round<R: Wait>(&mut self, rt: &R, lent: &Lent, long: u64) -> Result<Sweep, NoMemory>
        requires own { is_of lent.now self.old }
        ensures round { IfOk result (λ sweep.
            IsRoundBy kind (lent_sizes lent.now) long (view_of self.old) sweep
            (view_of self.new)) }
        ensures made { (sweep : Sweep) ×
            IsRoundBy kind (lent_sizes lent.now) long (view_of self.old) sweep
            (view_of self.new) }
        ensures own { is_of lent.now self.new };
}

impl Worker for GroupCollector {
    ghost kind = { kinds.Group };

    ghost view_of = { by_group.view_of };

    ghost is_of = { λ l c. by_group.IsCollectorOf (lent_board_id l) (lent_sizes l) c };

    fn make_round<R: Wait>(&mut self, rt: &R, lent: &Lent, _long: u64) -> Result<Sweep, NoMemory> {
        self.collect(rt, lent.trackers, lent.store, lent.groups);
        self.rounds.report.told()
    }
}

impl Worker for TableCollector {
    ghost kind = { kinds.Table };

    ghost view_of = { by_table.view_of };

    ghost is_of = { λ l c. by_table.IsCollectorOf (lent_board_id l) (lent_sizes l) c };

    fn make_round<R: Wait>(&mut self, rt: &R, lent: &Lent, long: u64) -> Result<Sweep, NoMemory> {
        self.collect(rt, lent.trackers, lent.store, long);
        self.rounds.report.told()
    }
}

// A round of the interval collector, whose steps nobody reads.
fn sweep_intervals<R: Wait, L: Ledger>(
    collector: &mut IntervalCollector,
    rt: &R,
    lent: &Lent,
    blank: Blank,
) -> Result<Sweep, NoMemory>
    requires own { by_one.IsCollectorOf (lent_board_id lent.now) (lent_sizes lent.now)
        collector.old }
    requires name { blank.name ≡ L.name }
    requires parts { blank.parts ≡ L.parts }
    requires some { 0 < blank.parts }
    ensures round { IfOk result (λ sweep.
        IsRoundBy kinds.Interval (lent_sizes lent.now) 0 (by_one.view_of collector.old) sweep
        (by_one.view_of collector.new)) }
    ensures made { (sweep : Sweep) ×
        IsRoundBy kinds.Interval (lent_sizes lent.now) 0 (by_one.view_of collector.old) sweep
        (by_one.view_of collector.new) }
    ensures own { by_one.IsCollectorOf (lent_board_id lent.now) (lent_sizes lent.now)
        collector.new }
{
    let mut steps: Steps<L> = Steps::new(blank);
    collector.collect(rt, lent.trackers, lent.store, &mut steps);
    collector.rounds.report.told()
}

/// A round of the interval collector, or of its team, whose helpers ask the gate before each bucket, and what its report says. If memory
/// for that runs out, the round was made all the same.
pub(crate) fn sweep_round<R: Threads + Wait + Sync, G: Gate + Sync>(
    rt: &R,
    lent: &Lent,
    gate: &G,
    worker: &mut IntervalWorker,
) -> Result<Sweep, NoMemory>
    requires own { by_worker.IsCollectorOf (lent_board_id lent.now) (lent_sizes lent.now)
        worker.old }
    ensures round { IfOk result (λ sweep.
        IsRoundBy kinds.Interval (lent_sizes lent.now) 0 (by_worker.view_of worker.old) sweep
        (by_worker.view_of worker.new)) }
    ensures made { (sweep : Sweep) ×
        IsRoundBy kinds.Interval (lent_sizes lent.now) 0 (by_worker.view_of worker.old) sweep
        (by_worker.view_of worker.new) }
    ensures own { by_worker.IsCollectorOf (lent_board_id lent.now) (lent_sizes lent.now)
        worker.new }
{
    match worker {
        IntervalWorker::One(one) => sweep_intervals::<R, Brand>(one, rt, lent, Blank::new(1)),
        IntervalWorker::Team(team) => {
            team.collect(rt, lent.trackers, lent.store, gate);
            team.rounds.report.told()
        }
    }
}
