//! What is printed for a script whose tables are read while it runs.
//!
//!     dump_on       the run, and concurrently the reader exports all tables once
//!     close_read    the reader exports them again, after all others ended
//!
//! The text is that of the run, and then each dump under the number of its snapshot.

ghost use Rattle.std.specs.Prelude.{◌≡◌, [], ◌++◌, IfOk, OnOk, codes, decimal, string_bytes};
ghost use Rattle.hg_base.specs.Script.{Script, run};
ghost use Rattle.hg_base.specs.Text.{text_of};
ghost use Rattle.hg_records.specs.Bytes.{record_bytes};
ghost use Rattle.hg_script.specs.Lawful.{IsLawful};
ghost use Rattle.hg_session.specs.Engines.{engine_sizes};
ghost use Rattle.hg_words.specs.Options.{AreWithin};
ghost use Rattle.hg_run.specs.Driven.{MayDrive};
ghost use Rattle.hg_run.specs.Reader.{IsOpenedBeside, alloc_in, engine_in, script_in};
ghost use Rattle.hg_run.specs.Dumping.{HasReadBoth, HasRunAndRead, IsDumpedFor, part_text};
ghost use Rattle.hg_run.specs.Words.{settings_in};

use crate::crew::Crew;
use crate::dump::dump_on;
use crate::end::close_read;
use crate::ended::{Ended, free_crew};
use crate::engine::open_beside;
use crate::free::free_pass;
use crate::reader::Reader;
use hg_base::{Gate, NoMemory};
use hg_collectors::{Pace, Plan};
use hg_rule::SessionPass;
use hg_script::Script;
use hg_words::Options;
use std::alloc::{AllocError, Global};
use std::sync::Wait;
use std::thread::Threads;

// The title of a part: `snapshot,` and a number.
fn title(alloc: Global, at: u64) -> Result<String, AllocError>
    ensures { IfOk result
        (λ text. string_bytes text ≡ codes "snapshot," ++ (decimal at ++ codes "\n")) }
{
    format!(in alloc; "snapshot,{at}\n")
}

// Adds a dump under the number of its snapshot.
fn add_part(alloc: Global, text: &mut Vec<u8>, at: u64, dump: &[u8]) -> Result<(), NoMemory>
    ensures { OnOk result (text.new.items ≡ text.old.items ++ part_text at dump.now) }
{
    let title = title(alloc, at)?;
    text.extend_from_slice(title.as_bytes())?;
    text.extend_from_slice(dump)?;
    Ok(())
}

/// Two dumps, each with its snapshot.
#[derive(Drop)]
pub(crate) struct Dumps {
    pub(crate) first: Vec<u8>,
    pub(crate) at: u64,
    pub(crate) last: Vec<u8>,
    pub(crate) end: u64,
}

// Takes the crew of an engine through a script in threads while the reader reads, and closes it after the reader has read once more.
fn read_crew<'e, 'a, R: Threads + Wait + Sync, G: Gate + Sync>(
    rt: &R,
    reader: &Reader<'e, 'a>,
    plan: &Plan<G>,
    crew: Crew,
    extra: SessionPass,
    dumps: &mut Dumps,
) -> Result<Ended<'a>, NoMemory>
    requires may { MayDrive (engine_in reader.now) (script_in reader.now) crew.sessions.items
        crew.collectors }
    requires opened { IsOpenedBeside (script_in reader.now)
        (engine_sizes (engine_in reader.now)).buckets (engine_in reader.now)
        crew.sessions.items crew.collectors extra }
    ensures ended { IfOk result (λ o.
        HasRunAndRead (alloc_in reader.now) (engine_in reader.now) plan.now.long plan.now.rounds
        (script_in reader.now) crew.sessions.items crew.collectors extra dumps.old
        o.transcript.lines o.totals dumps.new) }
    ensures tables { IfOk result (λ o. o.transcript.tables ≡ (script_in reader.now).tables) }
{
    let mut crew = crew;
    let mut extra = extra;
    match dump_on(rt, reader, plan, &mut crew, &mut extra, &mut dumps.first) {
        Ok((transcript, at)) => {
            dumps.at = at;
            let (totals, end) = close_read(
                rt,
                reader,
                crew.sessions,
                crew.collectors,
                extra,
                &mut dumps.last,
            )?;
            dumps.end = end;
            Ok(Ended { transcript, totals })
        }
        Err(NoMemory) => {
            free_crew(crew);
            free_pass(extra);
            Err(NoMemory)
        }
    }
}

// Opens an engine for a script, and runs the script there with a reader. The dumps are empty at first.
fn run_and_read<'a, R: Threads + Wait + Sync, G: Gate + Sync>(
    rt: &R,
    alloc: Global,
    script: &'a Script,
    options: &Options,
    gate: &G,
    dumps: &mut Dumps,
) -> Result<Ended<'a>, NoMemory>
    requires lawful { IsLawful script.now }
    requires within { AreWithin options.now }
    requires empty { (dumps.old.first.items ≡ []) × (dumps.old.last.items ≡ []) }
    ensures read { IfOk result (λ o.
        HasReadBoth (settings_in (run options.now.rounds) options.now) script.now
        o.transcript.lines o.totals dumps.new) }
    ensures tables { IfOk result (λ o. o.transcript.tables ≡ script.now.tables) }
{
    let plan = Plan {
        gate,
        rounds: options.rounds,
        long: options.long,
    };
    let (engine, crew, extra) = open_beside(alloc, script, options)?;
    let reader = Reader {
        alloc,
        engine: &engine,
        script,
    };
    let ended = read_crew(rt, &reader, &plan, crew, extra, dumps);
    engine.free();
    ended
}

// The text of a run, and then the dumps.
fn text_with(alloc: Global, ended: Ended, dumps: &Dumps) -> Result<Vec<u8>, NoMemory>
    ensures { (script : Script) → script.tables ≡ ended.entry.transcript.tables →
        IfOk result (λ text. text.items ≡
        text_of record_bytes script
        (record { lines = ended.entry.transcript.lines; totals = ended.entry.totals }) ++
        (part_text dumps.now.at dumps.now.first.items ++
        part_text dumps.now.end dumps.now.last.items)) }
{
    let mut text = ended.into_text()?;
    add_part(alloc, &mut text, dumps.at, &dumps.first)?;
    add_part(alloc, &mut text, dumps.end, &dumps.last)?;
    Ok(text)
}

/// Runs a script in threads, and gives the text that is printed for it, with a dump that was read meanwhile and one of the end.
pub(crate) fn dump_all<R: Threads + Wait + Sync, G: Gate + Sync>(
    rt: &R,
    alloc: Global,
    script: &Script,
    options: &Options,
    gate: &G,
) -> Result<Vec<u8>, NoMemory>
    requires lawful { IsLawful script.now }
    requires within { AreWithin options.now }
    ensures { IfOk result (λ text.
        IsDumpedFor (settings_in (run options.now.rounds) options.now) script.now text.items) }
{
    let records = script.record_count() as u64;
    let pace = Pace::new(alloc, script.sessions(), records, options.rounds, gate)?;
    let mut dumps = Dumps {
        first: Vec::new(alloc),
        at: 0,
        last: Vec::new(alloc),
        end: 0,
    };
    let ended = run_and_read(rt, alloc, script, options, &pace, &mut dumps)?;
    text_with(alloc, ended, &dumps)
}
