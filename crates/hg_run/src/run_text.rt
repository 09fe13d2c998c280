//! What is printed for a script that runs in threads.

ghost use Rattle.std.specs.Prelude.{◌≡◌, length, IfOk};
ghost use Rattle.hg_base.specs.Script.{run};
ghost use Rattle.hg_base.specs.Sound.{IsSound};
ghost use Rattle.hg_base.specs.Text.{IsFit};
ghost use Rattle.hg_script.specs.Lawful.{IsLawful};
ghost use Rattle.hg_session.specs.Engines.{engine_sizes};
ghost use Rattle.hg_words.specs.Options.{AreWithin};
ghost use Rattle.hg_run.specs.Driven.{MayDrive};
ghost use Rattle.hg_run.specs.Ended.{HasRunToEnd};
ghost use Rattle.hg_run.specs.Printing.{IsPrintedFor, PrintsOneRun};
ghost use Rattle.hg_run.specs.Words.{settings_in};

use crate::crew::Crew;
use crate::ended::{Ended, close_crew};
use crate::engine::open_for;
use crate::run::run_on;
use hg_base::{Gate, NoMemory};
use hg_collectors::{Pace, Plan};
use hg_script::Script;
use hg_session::Engine;
use hg_words::Options;
use std::alloc::Global;
use std::sync::Wait;
use std::thread::Threads;

// Takes the crew of an engine through a script, and closes it.
fn run_crew<'a, R: Threads + Wait + Sync, G: Gate + Sync>(
    rt: &R,
    alloc: Global,
    script: &'a Script,
    plan: &Plan<G>,
    engine: &Engine,
    crew: Crew,
) -> Result<Ended<'a>, NoMemory>
    requires may { MayDrive engine.now script.now crew.sessions.items crew.collectors }
    requires all { length crew.sessions.items ≡ (engine_sizes engine.now).sessions }
    ensures ended { IfOk result (λ o.
        HasRunToEnd engine.now plan.now.long plan.now.rounds script.now crew.sessions.items
        crew.collectors o.transcript.lines o.totals) }
    ensures tables { IfOk result (λ o. o.transcript.tables ≡ script.now.tables) }
{
    let mut crew = crew;
    let driven = run_on(rt, alloc, script, plan, engine, &mut crew);
    close_crew(rt, engine, crew, driven)
}

// Opens an engine for a script, and runs the script there.
fn run_script<'a, R: Threads + Wait + Sync, G: Gate + Sync>(
    rt: &R,
    alloc: Global,
    script: &'a Script,
    options: &Options,
    gate: &G,
) -> Result<Ended<'a>, NoMemory>
    requires lawful { IsLawful script.now }
    requires within { AreWithin options.now }
    ensures sound { IfOk result (λ o.
        IsSound (run options.now.rounds) script.now
        (record { lines = o.transcript.lines; totals = o.totals })) }
    ensures fit { IfOk result (λ o.
        IsFit script.now (record { lines = o.transcript.lines; totals = o.totals })) }
    ensures one_run { IfOk result (λ o.
        PrintsOneRun 0 (settings_in (run options.now.rounds) options.now) script.now
        o.transcript.lines o.totals) }
    ensures tables { IfOk result (λ o. o.transcript.tables ≡ script.now.tables) }
{
    let plan = Plan {
        gate,
        rounds: options.rounds,
        long: options.long,
    };
    let (engine, crew) = open_for(alloc, script, options)?;
    let ended = run_crew(rt, alloc, script, &plan, &engine, crew);
    engine.free();
    ended
}

/// Runs a script in threads, and gives the text that is printed for it.
pub(crate) fn run_all<R: Threads + Wait + Sync, G: Gate + Sync>(
    rt: &R,
    alloc: Global,
    script: &Script,
    options: &Options,
    gate: &G,
) -> Result<Vec<u8>, NoMemory>
    requires lawful { IsLawful script.now }
    requires within { AreWithin options.now }
    ensures { IfOk result (λ text.
        IsPrintedFor (settings_in (run options.now.rounds) options.now) script.now text.items) }
{
    let records = script.record_count() as u64;
    let pace = Pace::new(alloc, script.sessions(), records, options.rounds, gate)?;
    let ended = run_script(rt, alloc, script, options, &pace)?;
    ended.into_text()
}
