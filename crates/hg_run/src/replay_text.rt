//! What is printed for a script that runs on one thread.

ghost use Rattle.std.specs.Prelude.{◌≡◌, length, IfOk};
ghost use Rattle.hg_base.specs.Script.{replay};
ghost use Rattle.hg_base.specs.Sound.{IsSound};
ghost use Rattle.hg_base.specs.Text.{IsFit};
ghost use Rattle.hg_script.specs.Lawful.{IsLawful};
ghost use Rattle.hg_session.specs.Engines.{engine_sizes};
ghost use Rattle.hg_words.specs.Options.{AreWithin};
ghost use Rattle.hg_run.specs.Driven.{MayDrive};
ghost use Rattle.hg_run.specs.Ended.{HasReplayedToEnd};
ghost use Rattle.hg_run.specs.Few.{KeepsFew};
ghost use Rattle.hg_run.specs.Printing.{AreExact, IsPrintedFor, PrintsOneRun};
ghost use Rattle.hg_run.specs.Words.{settings_in};

use crate::crew::Crew;
use crate::ended::{Ended, close_crew};
use crate::engine::open_for;
use crate::replay::replay_on;
use hg_base::NoMemory;
use hg_script::Script;
use hg_session::Engine;
use hg_words::Options;
use std::alloc::Global;
use std::sync::Wait;
use std::thread::Threads;

// Takes the crew of an engine through a script on one thread, record by record, and closes it.
fn replay_crew<'a, R: Threads + Wait + Sync>(
    rt: &R,
    alloc: Global,
    script: &'a Script,
    options: &Options,
    engine: &Engine,
    crew: Crew,
) -> Result<Ended<'a>, NoMemory>
    requires may { MayDrive engine.now script.now crew.sessions.items crew.collectors }
    requires all { length crew.sessions.items ≡ (engine_sizes engine.now).sessions }
    ensures ended { IfOk result (λ o.
        HasReplayedToEnd engine.now options.now.long script.now crew.sessions.items
        crew.collectors o.transcript.lines o.totals) }
    ensures tables { IfOk result (λ o. o.transcript.tables ≡ script.now.tables) }
{
    let mut crew = crew;
    let driven = replay_on(rt, alloc, script, options, engine, &mut crew);
    close_crew(rt, engine, crew, driven)
}

/// Runs a script on one thread, record by record, and gives its lines and its totals.
pub(crate) fn replay_lines<'a, R: Threads + Wait + Sync>(
    rt: &R,
    alloc: Global,
    script: &'a Script,
    options: &Options,
) -> Result<Ended<'a>, NoMemory>
    requires lawful { IsLawful script.now }
    requires within { AreWithin options.now }
    ensures sound { IfOk result (λ o.
        IsSound replay script.now (record { lines = o.transcript.lines; totals = o.totals })) }
    ensures exact { IfOk result (λ o. AreExact replay script.now o.transcript.lines) }
    ensures few { IfOk result (λ o. KeepsFew script.now o.transcript.lines) }
    ensures fit { IfOk result (λ o.
        IsFit script.now (record { lines = o.transcript.lines; totals = o.totals })) }
    ensures one_run { IfOk result (λ o.
        PrintsOneRun 0 (settings_in replay options.now) script.now o.transcript.lines o.totals) }
    ensures tables { IfOk result (λ o. o.transcript.tables ≡ script.now.tables) }
{
    let (engine, crew) = open_for(alloc, script, options)?;
    let ended = replay_crew(rt, alloc, script, options, &engine, crew);
    engine.free();
    ended
}

/// The text that is printed for a script that runs on one thread.
pub(crate) fn replay<R: Threads + Wait + Sync>(
    rt: &R,
    alloc: Global,
    script: &Script,
    options: &Options,
) -> Result<Vec<u8>, NoMemory>
    requires lawful { IsLawful script.now }
    requires within { AreWithin options.now }
    ensures { IfOk result
        (λ text. IsPrintedFor (settings_in replay options.now) script.now text.items) }
{
    let ended = replay_lines(rt, alloc, script, options)?;
    ended.into_text()
}
