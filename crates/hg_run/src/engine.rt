//! An engine for a script.

ghost use Rattle.std.specs.Prelude.{◌≡◌, ◌+◌, ◌*◌, ◌^◌, ◌<◌, ◌≤◌, length, map, max, IfOk};
ghost use Rattle.hg_script.specs.Lawful.{IsLawful};
ghost use Rattle.hg_session.specs.Engines.{engine_sizes};
ghost use Rattle.hg_words.specs.Options.{AreWithin};
ghost use Rattle.hg_collectors.specs.Workers.{HasHelpers};
ghost use Rattle.hg_run.specs.ForAll.{IsOpenedForAll, IsOpenedOf};
ghost use Rattle.hg_run.specs.Driven.{IsOpenedFor, IsOpenedWith, sessions_in};
ghost use Rattle.hg_run.specs.Reader.{IsOpenedBeside};
ghost use Rattle.hg_run.specs.Words.{sweepers_in};

use crate::crew::Crew;
use hg_base::{MOST_SESSIONS, MOST_TABLES, NoMemory};
use hg_collectors::{Collectors, Room};
use hg_rule::SessionPass;
use hg_script::Script;
use hg_session::{Engine, Passes, TableDecl};
use hg_words::{Command, Options};
use std::alloc::Global;

/// How many statements a session may run where they are not known before: all sessions together have 2^40.
pub(crate) const MOST_STATEMENTS: u64 = 1 << 34;

// The tables that a script declares, each with its columns. An engine counts them, and reads no columns.
fn declared(alloc: Global, script: &Script) -> Result<Vec<TableDecl>, NoMemory>
    ensures many { IfOk result (λ tables. length tables.items ≡ length script.now.tables) }
    ensures columns { IfOk result (λ tables.
        map (λ t. t.columns) tables.items ≡ map (λ d. length d.kinds) script.now.tables) }
{
    let mut tables = Vec::new(alloc);
    for table in script.tables() {
        tables.push(TableDecl {
            columns: table.columns(),
        })?;
    }
    Ok(tables)
}

// How many threads share an interval round.
fn sweepers_of(options: &Options) -> u32
    requires within { AreWithin options.now }
    ensures asked { result ≡ sweepers_in options.now }
    ensures few { result ≤ 16 }
{
    match options.command {
        Command::Run => options.sweepers,
        _ => 1,
    }
}

// An engine of so many buckets for these tables, with a crew. A session may run as many statements as the quota says.
fn open(
    alloc: Global,
    tables: &[TableDecl],
    buckets: u32,
    quota: u64,
    room: Room,
) -> Result<(Engine, Crew), NoMemory>
    requires tables { (length tables.now ≤ 64) × (room.tables ≡ length tables.now) }
    requires buckets { 0 < buckets }
    requires room { room.sessions * quota ≤ 2 ^ 40 }
    requires sweepers { room.sweepers ≤ 16 }
    ensures opened { IfOk result (λ o.
        IsOpenedOf
        (record
        { sessions = room.sessions; tables = room.tables; buckets = buckets; quota = quota }) o.0
        o.1.sessions.items o.1.collectors) }
    ensures helpers { IfOk result (λ o. HasHelpers room.sweepers o.1.collectors.interval) }
{
    let (engine, list, passes) = Engine::open(alloc, room.sessions, tables, buckets, quota)?;
    let Passes {
        group,
        table,
        interval,
    } = passes;
    let Ok(collectors) = Collectors::new(alloc, group, table, interval, room) else {
        engine.free();
        return Err(NoMemory);
    };
    let crew = Crew {
        sessions: list.into_vec(),
        collectors,
    };
    Ok((engine, crew))
}

// An engine for the tables of a script, with so many sessions more than the script has. A session may run as many statements as the
// script has, and two more for each of the further sessions.
fn open_with(
    alloc: Global,
    script: &Script,
    options: &Options,
    more: u32,
) -> Result<(Engine, Crew), NoMemory>
    requires lawful { IsLawful script.now }
    requires within { AreWithin options.now }
    requires few { more ≤ 1 }
    ensures opened { IfOk result (λ o.
        IsOpenedWith (more + sessions_in script.now) script.now options.now.buckets o.0
        o.1.sessions.items o.1.collectors) }
    ensures helpers { IfOk result (λ o.
        HasHelpers (sweepers_in options.now) o.1.collectors.interval) }
    ensures quota { IfOk result (λ o.
        (engine_sizes o.0).quota ≡ max 1 (length script.now.records + 2 * more)) }
{
    let tables = declared(alloc, script)?;
    let sessions = script.sessions() + more;
    // A session has at most all records, and each begins one transaction and stores one write at most.
    let quota = (script.record_count() as u64 + 2 * more as u64).max(1);
    let room = Room {
        sessions,
        tables: tables.len() as u32,
        sweepers: sweepers_of(options),
    };
    open(alloc, &tables, options.buckets, quota, room)
}

/// An engine for all sessions and tables that there may be, with its crew: it is not known yet which will come.
pub(crate) fn open_for_all(alloc: Global, buckets: u32) -> Result<(Engine, Crew), NoMemory>
    requires { 0 < buckets }
    ensures { IfOk result (λ o. IsOpenedForAll o.0 o.1.sessions.items o.1.collectors) }
{
    let room = Room {
        sessions: MOST_SESSIONS,
        tables: MOST_TABLES.into(),
        sweepers: 1,
    };
    let tables = vec![in alloc; TableDecl { columns: 1 }; MOST_TABLES as usize]?;
    open(alloc, &tables, buckets, MOST_STATEMENTS, room)
}

/// An engine for the tables and the sessions of a script, with its crew. A session may run as many
/// statements as the script has.
pub fn open_for(
    alloc: Global,
    script: &Script,
    options: &Options,
) -> Result<(Engine, Crew), NoMemory>
    requires lawful { IsLawful script.now }
    requires within { AreWithin options.now }
    ensures opened { IfOk result (λ o.
        IsOpenedFor script.now options.now.buckets o.0 o.1.sessions.items o.1.collectors) }
    ensures helpers { IfOk result (λ o.
        HasHelpers (sweepers_in options.now) o.1.collectors.interval) }
{
    open_with(alloc, script, options, 0)
}

/// The same with one session more, whose pass it gives out: the reader of a dump, which begins two transactions.
pub fn open_beside(
    alloc: Global,
    script: &Script,
    options: &Options,
) -> Result<(Engine, Crew, SessionPass), NoMemory>
    requires lawful { IsLawful script.now }
    requires within { AreWithin options.now }
    ensures opened { IfOk result (λ o.
        IsOpenedBeside script.now options.now.buckets o.0 o.1.sessions.items o.1.collectors
        o.2) }
    ensures helpers { IfOk result (λ o.
        HasHelpers (sweepers_in options.now) o.1.collectors.interval) }
{
    let (engine, crew) = open_with(alloc, script, options, 1)?;
    let mut crew = crew;
    match crew.sessions.pop() {
        Some(last) => Ok((engine, crew, last.into_pass())),
        None => unreachable!(),
    }
}
