//! The run of a script in threads.
//!
//!     hire       each session gets a worker, with the records that it has to run
//!     beside     all workers run: the sessions', and one for each collector
//!     gather     the lines of each session by number, and then of each collector's rounds
//!     retire     the sessions go back to their list

ghost use Rattle.std.specs.Prelude.{◌≡◌, ◌+◌, ◌++◌, ◌∷◌, [], ◌<◌, ◌≤◌, ◌^◌, length, false, vec_capacity, IfOk, IfErr, OnOk};
ghost use Rattle.hg_base.specs.Lists.{Each};
ghost use Rattle.hg_run.specs.declared.work.Worker.{Worker};
ghost use Rattle.hg_session.specs.Engines.{engine_sizes};
ghost use Rattle.hg_run.specs.Collecting.{AreCollectors};
ghost use Rattle.hg_run.specs.Driven.{AreBack, HasDrivenAll, MayDrive};
ghost use Rattle.hg_collectors.specs.Telling.{sweep_lines};
ghost use Rattle.hg_run.specs.Working.{AreWilling, hired, lines_in, sessions_in};

use crate::beside::run_beside;
use crate::crew::Crew;
use crate::reply::inside;
use crate::work::Worker;
use hg_base::{Answer, Gate, Line, NoMemory, Sweep};
use hg_collectors::{Plan, RoundList, RoundLists};
use hg_script::Script;
use hg_session::{Engine, Session};
use hg_transcript::Transcript;
use std::alloc::Global;
use std::mem;
use std::sync::Wait;
use std::thread::Threads;

// A worker for each session. A refusal hands the sessions back.
fn hire<'a>(
    alloc: Global,
    script: &'a Script,
    list: Vec<Session>,
) -> Result<Vec<Worker<'a>>, Vec<Session>>
    requires { length list.items < 2 ^ 32 }
    ensures hired { IfOk result (λ workers. workers.items ≡ hired script.now 1 list.items) }
    ensures refused { IfErr result (λ sessions. sessions.items ≡ list.items) }
{
    let Ok(mut workers) = Vec::with_capacity(alloc, list.len()) else {
        return Err(list);
    };
    let mut number = 0;
    for session in list {
        number += 1;
        workers.push_reserved(Worker {
            session,
            records: script.records_of(number),
            transcript: Transcript::new(alloc, script),
            refused: false,
        });
    }
    Ok(workers)
}

// The sessions of the workers, after those that are there. There are places for all.
fn retire(workers: Vec<Worker>, sessions: &mut Vec<Session>)
    requires { length sessions.old.items + length workers.items ≤ vec_capacity sessions.old }
    ensures { sessions.new.items ≡ sessions.old.items ++ sessions_in workers.entry.items }
{
    for worker in workers {
        sessions.push_reserved(worker.session);
    }
}

// Adds the line of a collector's round.
fn add_round(transcript: &mut Transcript, place: u64, sweep: Sweep) -> Result<(), NoMemory>
    ensures lines { OnOk result
        (transcript.new.lines ≡ transcript.old.lines ++ sweep_lines place (sweep ∷ [])) }
    ensures tables { transcript.new.tables ≡ transcript.old.tables }
{
    transcript.push(&Line {
        session: 0,
        place,
        reply: inside(Answer::Swept(sweep)),
    })
}

// Adds the lines of a collector's rounds, of which none was refused memory.
fn add_rounds(transcript: &mut Transcript, told: RoundList) -> Result<(), NoMemory>
    ensures lines { OnOk result
        (transcript.new.lines ≡ transcript.old.lines ++ sweep_lines 1 told.sweeps.items) }
    ensures tables { transcript.new.tables ≡ transcript.old.tables }
    ensures willing { OnOk result (told.refused ≡ false) }
{
    if told.refused {
        return Err(NoMemory);
    }
    let mut place = 0;
    for sweep in told.sweeps {
        place += 1;
        add_round(transcript, place, sweep)?;
    }
    Ok(())
}

// Adds those of all collectors.
fn add_all_rounds(transcript: &mut Transcript, told: RoundLists) -> Result<(), NoMemory>
    ensures lines { OnOk result (transcript.new.lines ≡
        transcript.old.lines ++
        (sweep_lines 1 told.group.sweeps.items ++
        (sweep_lines 1 told.table.sweeps.items ++
        sweep_lines 1 told.interval.sweeps.items))) }
    ensures tables { transcript.new.tables ≡ transcript.old.tables }
    ensures willing { OnOk result ((told.group.refused ≡ false) ×
        (told.table.refused ≡ false) × (told.interval.refused ≡ false)) }
{
    let RoundLists {
        group,
        table,
        interval,
    } = told;
    add_rounds(transcript, group)?;
    add_rounds(transcript, table)?;
    add_rounds(transcript, interval)
}

// The lines of each session by number. None was refused memory.
fn gather_lines<'a>(
    alloc: Global,
    script: &'a Script,
    workers: &[Worker<'a>],
) -> Result<Transcript<'a>, NoMemory>
    requires { Each (λ (w : Worker). w.transcript.tables ≡ script.now.tables) workers.now }
    ensures lines { IfOk result (λ transcript. transcript.lines ≡ lines_in workers.now) }
    ensures tables { IfOk result (λ transcript. transcript.tables ≡ script.now.tables) }
    ensures willing { OnOk result (Each (λ (w : Worker). w.refused ≡ false) workers.now) }
{
    let mut transcript = Transcript::new(alloc, script);
    for worker in workers {
        if worker.refused {
            return Err(NoMemory);
        }
        transcript.append(&worker.transcript)?;
    }
    Ok(transcript)
}

// All lines: those of each session by number, and then those of each collector's rounds. Nobody was refused memory.
fn gather<'a>(
    alloc: Global,
    script: &'a Script,
    workers: &[Worker<'a>],
    told: RoundLists,
) -> Result<Transcript<'a>, NoMemory>
    requires { Each (λ (w : Worker). w.transcript.tables ≡ script.now.tables) workers.now }
    ensures lines { IfOk result (λ transcript.
        transcript.lines ≡
        lines_in workers.now ++
        (sweep_lines 1 told.group.sweeps.items ++
        (sweep_lines 1 told.table.sweeps.items ++
        sweep_lines 1 told.interval.sweeps.items))) }
    ensures tables { IfOk result (λ transcript. transcript.tables ≡ script.now.tables) }
    ensures willing { OnOk result (AreWilling workers.now told) }
{
    let mut transcript = gather_lines(alloc, script, workers)?;
    match add_all_rounds(&mut transcript, told) {
        Ok(()) => Ok(transcript),
        Err(NoMemory) => Err(NoMemory),
    }
}

/// The driver of `run`: each session runs its own records in a thread of its own, and concurrently each collector makes its
/// rounds. A `gc` is answered `beside`. At the end of its records a session rolls back what is open, or closes its cursor. The gate is
/// asked before each statement and each round. A worker that runs out of memory ends early, and leaves no transaction and no cursor
/// open either. The engine may have more sessions than the script.
pub fn run_on<'a, R: Threads + Wait + Sync, G: Gate + Sync>(
    rt: &R,
    alloc: Global,
    script: &'a Script,
    plan: &Plan<G>,
    engine: &Engine,
    crew: &mut Crew,
) -> Result<Transcript<'a>, NoMemory>
    requires { MayDrive engine.now script.now crew.old.sessions.items crew.old.collectors }
    ensures driven { IfOk result (λ transcript.
        HasDrivenAll (engine_sizes engine.now) plan.now.long plan.now.rounds script.now.records
        crew.old.sessions.items crew.old.collectors transcript.lines crew.new.sessions.items
        crew.new.collectors) }
    ensures tables { IfOk result (λ transcript. transcript.tables ≡ script.now.tables) }
    ensures back { AreBack engine.now crew.old.sessions.items crew.new.sessions.items }
    ensures collectors { AreCollectors engine.now crew.new.collectors }
{
    let mut told = RoundLists::with_places(alloc, plan.rounds)?;
    let back = Vec::with_capacity(alloc, crew.sessions.len())?;
    let list = mem::replace(&mut crew.sessions, back);
    let mut workers = match hire(alloc, script, list) {
        Ok(workers) => workers,
        Err(list) => {
            crew.sessions = list;
            return Err(NoMemory);
        }
    };
    run_beside(
        rt,
        engine,
        plan,
        workers.as_mut_slice(),
        &mut crew.collectors,
        &mut told,
    );
    let transcript = gather(alloc, script, workers.as_slice(), told);
    retire(workers, &mut crew.sessions);
    transcript
}
