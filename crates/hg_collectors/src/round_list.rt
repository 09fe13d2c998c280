//! The plan of a run, and the list of a collector's rounds.
//!
//! A collector's worker makes its rounds one after the other, and asks the gate before each. What its reports say is kept in places
//! that were allocated before the first. If memory for a report runs out, the worker stops, and the list says so.

ghost use Rattle.hg_base.specs.declared.report.Kind.TheVariants as kinds;
ghost use Rattle.hg_collectors.specs.Workers as interval;
ghost use Rattle.hg_collectors.specs.Lent.{lent_board_id, lent_sizes};
ghost use Rattle.hg_collectors.specs.Rounding.{HasPlaces, HasMadeAll};

use crate::collectors::{Worker, sweep_round};
use crate::interval::IntervalWorker;
use crate::lent::Lent;
use hg_base::{Gate, NoMemory, Sweep};
use std::alloc::Global;
use std::sync::Wait;
use std::thread::Threads;

/// What a worker asks before each step, how many rounds each collector makes, and how far behind the mark a snapshot is long in
/// use.
#[derive(Drop)]
pub struct Plan<'a, G> {
    pub gate: &'a G,
    pub rounds: u32,
    pub long: u64,
}

/// What a collector's rounds were told as, in their order.
#[derive(Drop)]
pub struct RoundList {
    pub sweeps: Vec<Sweep>,
    pub refused: bool,
}

impl RoundList {
    ghost use Rattle.std.specs.Prelude.{IfOk};
    ghost use Rattle.hg_collectors.specs.Rounding.{HasPlaces};

    /// None yet, with places for so many.
    pub fn with_places(alloc: Global, rounds: u32) -> Result<RoundList, NoMemory>
        ensures { IfOk result (HasPlaces rounds) }
    {
        let sweeps = Vec::with_capacity(alloc, rounds as usize)?;
        Ok(RoundList {
            sweeps,
            refused: false,
        })
    }
}

/// Makes the rounds of a plan.
pub(crate) fn make_rounds<C: Worker, G: Gate, R: Wait>(
    rt: &R,
    lent: &Lent,
    plan: &Plan<G>,
    worker: u32,
    collector: &mut C,
    told: &mut RoundList,
)
    requires own { C.is_of lent.now collector.old }
    requires places { HasPlaces plan.now.rounds told.old }
    ensures made { HasMadeAll C.kind (lent_sizes lent.now) plan.now.long plan.now.rounds
        (C.view_of collector.old) told.new (C.view_of collector.new) }
    ensures own { C.is_of lent.now collector.new }
{
    for round in 0..plan.rounds {
        plan.gate.at(rt, worker, round + 1);
        let Ok(sweep) = collector.make_round(rt, lent, plan.long) else {
            told.refused = true;
            return;
        };
        told.sweeps.push_reserved(sweep);
    }
}

/// Makes the interval collector's rounds of a plan. A team's helpers ask the gate too.
pub(crate) fn make_sweeps<G: Gate + Sync, R: Threads + Wait + Sync>(
    rt: &R,
    lent: &Lent,
    plan: &Plan<G>,
    worker: u32,
    collector: &mut IntervalWorker,
    told: &mut RoundList,
)
    requires own { interval.IsCollectorOf (lent_board_id lent.now) (lent_sizes lent.now)
        collector.old }
    requires places { HasPlaces plan.now.rounds told.old }
    ensures made { HasMadeAll kinds.Interval (lent_sizes lent.now) plan.now.long plan.now.rounds
        (interval.view_of collector.old) told.new (interval.view_of collector.new) }
    ensures own { interval.IsCollectorOf (lent_board_id lent.now) (lent_sizes lent.now)
        collector.new }
{
    for round in 0..plan.rounds {
        plan.gate.at(rt, worker, round + 1);
        let Ok(swept) = sweep_round(rt, lent, plan.gate, collector) else {
            told.refused = true;
            return;
        };
        told.sweeps.push_reserved(swept);
    }
}
