//! The collectors of a run, each in a thread of its own.

ghost use Rattle.hg_collectors.specs.GroupCollectors as groups;
ghost use Rattle.hg_rounds.specs.TableCollectors as tables;
ghost use Rattle.hg_collectors.specs.Workers as intervals;
ghost use Rattle.hg_collectors.specs.Lent.{lent_board_id, lent_sizes};
ghost use Rattle.hg_collectors.specs.Collecting.{AreCollectorsOf, HasMadeGroups, HasMadeIntervals, HasMadeTables, HaveMadeAll};
ghost use Rattle.hg_collectors.specs.Rounding.{HasPlaces, HavePlaces};

use crate::collectors::Collectors;
use crate::interval::IntervalWorker;
use crate::lent::Lent;
use crate::pace::{GROUP, INTERVAL, TABLE};
use crate::round_list::{Plan, RoundList, make_rounds, make_sweeps};
use hg_base::{Gate, NoMemory};
use hg_rounds::TableCollector;
use std::alloc::Global;
use std::sync::Wait;
use std::thread;
use std::thread::Threads;

/// What the rounds of each collector were told as.
#[derive(Drop)]
pub struct RoundLists {
    pub group: RoundList,
    pub table: RoundList,
    pub interval: RoundList,
}

impl RoundLists {
    ghost use Rattle.std.specs.Prelude.{IfOk};
    ghost use Rattle.hg_collectors.specs.Rounding.{HasPlaces, HavePlaces, HasMadeAll};

    /// None yet, with places for so many of each.
    pub fn with_places(alloc: Global, rounds: u32) -> Result<RoundLists, NoMemory>
        ensures { IfOk result (HavePlaces rounds) }
    {
        let group = RoundList::with_places(alloc, rounds)?;
        let table = RoundList::with_places(alloc, rounds)?;
        let interval = RoundList::with_places(alloc, rounds)?;
        Ok(RoundLists {
            group,
            table,
            interval,
        })
    }
}

// What the rounds of a run are made with.
#[derive(Drop)]
struct Run<'a, G, R> {
    rt: &'a R,
    lent: &'a Lent<'a>,
    plan: &'a Plan<'a, G>,
}

// The rounds of a plan by the table collector and by the interval collector, concurrently.
fn run_two<G: Gate + Sync, R: Threads + Wait + Sync>(
    run: &Run<G, R>,
    table: &mut TableCollector,
    table_told: &mut RoundList,
    interval: &mut IntervalWorker,
    interval_told: &mut RoundList,
)
    requires table { tables.IsCollectorOf (lent_board_id run.now.lent.now)
        (lent_sizes run.now.lent.now) table.old ×
        HasPlaces run.now.plan.now.rounds table_told.old }
    requires interval { intervals.IsCollectorOf (lent_board_id run.now.lent.now)
        (lent_sizes run.now.lent.now) interval.old ×
        HasPlaces run.now.plan.now.rounds interval_told.old }
    ensures table { HasMadeTables run.now.lent.now run.now.plan.now.long
        run.now.plan.now.rounds table.old table_told.new table.new }
    ensures interval { HasMadeIntervals run.now.lent.now run.now.plan.now.long
        run.now.plan.now.rounds interval.old interval_told.new interval.new }
{
    thread::join_mut(
        run.rt,
        &mut ||
            requires { tables.IsCollectorOf (lent_board_id run.now.lent.now)
                (lent_sizes run.now.lent.now) table.now ×
                HasPlaces run.now.plan.now.rounds table_told.now }
            ensures { HasMadeTables run.entry.now.lent.now run.entry.now.plan.now.long
                run.entry.now.plan.now.rounds table.entry.now table_told.exit.now
                table.exit.now }
        { make_rounds(run.rt, run.lent, run.plan, TABLE, table, table_told) },
        &mut ||
            requires { intervals.IsCollectorOf (lent_board_id run.now.lent.now)
                (lent_sizes run.now.lent.now) interval.now ×
                HasPlaces run.now.plan.now.rounds interval_told.now }
            ensures { HasMadeIntervals run.entry.now.lent.now run.entry.now.plan.now.long
                run.entry.now.plan.now.rounds interval.entry.now interval_told.exit.now
                interval.exit.now }
        {
            make_sweeps(
                run.rt,
                run.lent,
                run.plan,
                INTERVAL,
                interval,
                interval_told,
            )
        },
    );
}

/// The rounds of a plan by each collector, all collectors concurrently.
pub fn run_collectors<G: Gate + Sync, R: Threads + Wait + Sync>(
    rt: &R,
    lent: &Lent,
    plan: &Plan<G>,
    collectors: &mut Collectors,
    told: &mut RoundLists,
)
    requires own { AreCollectorsOf (lent_board_id lent.now) (lent_sizes lent.now)
        collectors.old }
    requires places { HavePlaces plan.now.rounds told.old }
    ensures made { HaveMadeAll (lent_sizes lent.now) plan.now.long plan.now.rounds
        collectors.old told.new collectors.new }
    ensures own { AreCollectorsOf (lent_board_id lent.now) (lent_sizes lent.now) collectors.new }
{
    let run = &Run { rt, lent, plan };
    let Collectors {
        group,
        table,
        interval,
    } = collectors;
    let RoundLists {
        group: group_told,
        table: table_told,
        interval: interval_told,
    } = told;
    thread::join_mut(
        rt,
        &mut ||
            requires { groups.IsCollectorOf (lent_board_id run.now.lent.now)
                (lent_sizes run.now.lent.now) group.now ×
                HasPlaces run.now.plan.now.rounds group_told.now }
            ensures { HasMadeGroups run.entry.now.lent.now run.entry.now.plan.now.long
                run.entry.now.plan.now.rounds group.entry.now group_told.exit.now
                group.exit.now }
        { make_rounds(run.rt, run.lent, run.plan, GROUP, group, group_told) },
        &mut ||
            requires { (tables.IsCollectorOf (lent_board_id run.now.lent.now)
                (lent_sizes run.now.lent.now) table.now ×
                HasPlaces run.now.plan.now.rounds table_told.now) ×
                (intervals.IsCollectorOf (lent_board_id run.now.lent.now)
                (lent_sizes run.now.lent.now) interval.now ×
                HasPlaces run.now.plan.now.rounds interval_told.now) }
            ensures { HasMadeTables run.entry.now.lent.now run.entry.now.plan.now.long
                run.entry.now.plan.now.rounds table.entry.now table_told.exit.now
                table.exit.now ×
                HasMadeIntervals run.entry.now.lent.now run.entry.now.plan.now.long
                run.entry.now.plan.now.rounds interval.entry.now interval_told.exit.now
                interval.exit.now }
        { run_two(run, table, table_told, interval, interval_told) },
    );
}
