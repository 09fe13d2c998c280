//! All workers concurrently, each in a thread of its own.

ghost use Rattle.std.specs.Prelude.{◌<◌, ℕ, length, slice_index_or, All};
ghost use Rattle.hg_session.specs.Engines.{engine_sizes};
ghost use Rattle.hg_run.specs.declared.work.Worker.{Worker};
ghost use Rattle.hg_run.specs.Collecting.{AreCollectors};
ghost use Rattle.hg_collectors.specs.Rounding.{HavePlaces};
ghost use Rattle.hg_collectors.specs.Collecting.{HaveMadeAll};
ghost use Rattle.hg_run.specs.Working.{IsHired, HasEnded};

use crate::gc::lent_by;
use crate::work::Worker;
use hg_base::Gate;
use hg_collectors::{Collectors, Plan, RoundLists, run_collectors};
use hg_session::Engine;
use std::sync::Wait;
use std::thread;
use std::thread::Threads;

// Each session's worker.
fn run_workers<G: Gate + Sync, R: Threads + Wait + Sync>(
    rt: &R,
    engine: &Engine,
    gate: &G,
    workers: &mut [Worker],
)
    requires { All (IsHired engine.now) workers.old }
    ensures { (i : ℕ) (d : Worker) → i < length workers.old →
        HasEnded engine.now (slice_index_or workers.old i d) (slice_index_or workers.new i d) }
{
    let count = workers.len().max(1);
    thread::for_each_mut(
        rt,
        workers,
        count,
        &|_, worker| worker.work(rt, engine, gate),
    );
}

// Each collector's.
fn collect_beside<G: Gate + Sync, R: Threads + Wait + Sync>(
    rt: &R,
    engine: &Engine,
    plan: &Plan<G>,
    collectors: &mut Collectors,
    told: &mut RoundLists,
)
    requires own { AreCollectors engine.now collectors.old }
    requires places { HavePlaces plan.now.rounds told.old }
    ensures made { HaveMadeAll (engine_sizes engine.now) plan.now.long plan.now.rounds
        collectors.old told.new collectors.new }
    ensures own { AreCollectors engine.now collectors.new }
{
    run_collectors(rt, &lent_by(engine), plan, collectors, told);
}

/// The sessions' workers, concurrently with the collectors'.
pub(crate) fn run_beside<G: Gate + Sync, R: Threads + Wait + Sync>(
    rt: &R,
    engine: &Engine,
    plan: &Plan<G>,
    workers: &mut [Worker],
    collectors: &mut Collectors,
    told: &mut RoundLists,
)
    requires hired { All (IsHired engine.now) workers.old }
    requires own { AreCollectors engine.now collectors.old }
    requires places { HavePlaces plan.now.rounds told.old }
    ensures ended { (i : ℕ) (d : Worker) → i < length workers.old →
        HasEnded engine.now (slice_index_or workers.old i d) (slice_index_or workers.new i d) }
    ensures made { HaveMadeAll (engine_sizes engine.now) plan.now.long plan.now.rounds
        collectors.old told.new collectors.new }
    ensures own { AreCollectors engine.now collectors.new }
{
    let gate = plan.gate;
    thread::join_mut(
        rt,
        &mut ||
            requires { All (IsHired engine.now) workers.now }
            ensures { (i : ℕ) (d : Worker) → i < length workers.entry.now →
                HasEnded engine.entry.now (slice_index_or workers.entry.now i d)
                (slice_index_or workers.exit.now i d) }
        { run_workers(rt, engine, gate, workers) },
        &mut ||
            requires { AreCollectors engine.now collectors.now ×
                HavePlaces plan.now.rounds told.now }
            ensures { HaveMadeAll (engine_sizes engine.entry.now) plan.entry.now.long
                plan.entry.now.rounds collectors.entry.now told.exit.now collectors.exit.now
                × AreCollectors engine.entry.now collectors.exit.now }
        { collect_beside(rt, engine, plan, collectors, told) },
    );
}
