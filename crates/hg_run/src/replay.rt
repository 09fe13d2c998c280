//! The run of a script on one thread: its records, one after the other.

ghost use Rattle.std.specs.Prelude.{◌≡◌, ℕ, suc, ◌<◌, ◌≤◌, [], length, get_or, IfOk, OnErr, OnOk};
ghost use Rattle.hg_base.specs.declared.report.Kind.{Kind};
ghost use Rattle.hg_base.specs.Transcript.{of_session};
ghost use Rattle.hg_collectors.specs.Collecting.{removed_of};
ghost use Rattle.hg_session.specs.declared.session.Session.{Session};
ghost use Rattle.hg_session.specs.Engines.{engine_sizes};
ghost use Rattle.hg_session.specs.Finished.{logs_of};
ghost use Rattle.hg_run.specs.Listed.{ArePlaced, AreReady, none_left, one_more};
ghost use Rattle.hg_run.specs.Asked.{IsOnTables, MayAsk, Replies, collector_asked};
ghost use Rattle.hg_run.specs.Collecting.{AreCollectors, TellsAll};
ghost use Rattle.hg_run.specs.Driven.{IsEngineFor, AreBack, HasDrivenOne, MayDrive};
ghost use Rattle.hg_run.specs.Few.{LeavesFewIfSwept};
ghost use Rattle.hg_run.specs.Played.{HasPlayed, HasPlayedOut};
ghost use Rattle.hg_run.specs.Unsaid.{HasRunOutAt};

use crate::crew::Crew;
use crate::end::close_all;
use crate::moment::sweep_known;
use crate::turn::{answer, catch_up, turn};
use hg_base::{Kind, Line, NoMemory, Reply, Statement};
use hg_script::Script;
use hg_session::Engine;
use hg_transcript::Transcript;
use hg_words::Options;
use std::alloc::Global;
use std::sync::Wait;
use std::thread::Threads;

// The collector that a statement asks for.
pub(crate) fn asked(statement: &Statement) -> Option<Kind>
    ensures { result ≡ collector_asked statement.now }
{
    match statement {
        Statement::Gc(kind) => Some(*kind),
        Statement::Begin(_) => None,
        Statement::Get(_) => None,
        Statement::Put(_, _) => None,
        Statement::Del(_) => None,
        Statement::Scan { .. } => None,
        Statement::CursorOpen { .. } => None,
        Statement::Fetch(_) => None,
        Statement::CursorClose => None,
        Statement::Commit => None,
        Statement::Rollback => None,
    }
}

// The session at i answers a statement, or a collector does for it.
pub(crate) fn reply_at<R: Threads + Wait + Sync>(
    rt: &R,
    engine: &Engine,
    crew: &mut Crew,
    i: usize,
    statement: Statement,
    long: u64,
) -> Result<Reply, NoMemory>
    requires ready { AreReady engine.now i (one_more (suc i) none_left) crew.old.sessions.items }
    requires some { 0 < (engine_sizes engine.now).buckets }
    requires may { (d : Session) → MayAsk (get_or crew.old.sessions.items i d) statement }
    requires tables { IsOnTables (engine_sizes engine.now).tables statement }
    requires collectors { AreCollectors engine.now crew.old.collectors }
    ensures replied { IfOk result (λ reply.
        Replies engine.now crew.old.sessions.items i statement reply crew.new.sessions.items) }
    ensures ready { OnOk result ((left : ℕ → ℕ) →
        AreReady engine.now i (one_more (suc i) left) crew.old.sessions.items →
        AreReady engine.now i left crew.new.sessions.items) }
    ensures told { IfOk result (λ reply.
        TellsAll (engine_sizes engine.now) long crew.old.collectors reply crew.new.collectors) }
    ensures kept { (k : Kind) →
        removed_of k crew.old.collectors ≤ removed_of k crew.new.collectors }
    ensures stopped { OnErr result
        (HasRunOutAt engine.now i crew.old.sessions.items crew.new.sessions.items) }
    ensures placed { ArePlaced engine.now crew.new.sessions.items }
    ensures collectors { AreCollectors engine.now crew.new.collectors }
    ensures few { IfOk result (λ reply.
        LeavesFewIfSwept engine.now crew.new.sessions.items crew.new.collectors reply) }
{
    match asked(&statement) {
        Some(kind) => sweep_known(rt, engine, crew, i, kind, long),
        None => answer(rt, engine, &mut crew.sessions, i, statement),
    }
}

/// Answers the records of a script in their order. A reply is kept as its text alone. At the end each session hears how far the others
/// came: so it is known that each write was answered by what the others had open then.
pub(crate) fn play<'a, R: Threads + Wait + Sync>(
    rt: &R,
    alloc: Global,
    engine: &Engine,
    crew: &mut Crew,
    script: &'a Script,
    long: u64,
) -> Result<Transcript<'a>, NoMemory>
    requires fits { IsEngineFor script.now engine.now }
    requires ready { AreReady engine.now 0 (λ j. length (of_session j script.now.records))
        crew.old.sessions.items }
    requires none { (j : ℕ) → logs_of crew.old.sessions.items j ≡ [] }
    requires collectors { AreCollectors engine.now crew.old.collectors }
    ensures tables { IfOk result (λ transcript. transcript.tables ≡ script.now.tables) }
    ensures played { IfOk result (λ transcript.
        HasPlayed engine.now long crew.old.collectors crew.new.collectors crew.new.sessions.items
        script.now transcript.lines) }
    ensures placed { ArePlaced engine.now crew.new.sessions.items }
    ensures collectors { AreCollectors engine.now crew.new.collectors }
{
    let mut last = 0;
    let mut transcript = Transcript::new(alloc, script);
    for next in 0..script.record_count() {
        let record = script.record(next)?;
        let i = record.session as usize - 1;
        turn(engine, &mut crew.sessions, i, last);
        let reply = reply_at(rt, engine, crew, i, record.statement, long)?;
        last = i;
        let line = Line {
            session: record.session,
            place: record.place,
            reply,
        };
        transcript.push(&line)?;
    }
    catch_up(engine, &mut crew.sessions, last);
    Ok(transcript)
}

/// The driver of `replay`: answers a script on one thread, record by record, and rolls back what is open at its end, or closes its
/// cursor. Running out of memory ends it early, and leaves no transaction and no cursor open either.
pub fn replay_on<'a, R: Threads + Wait + Sync>(
    rt: &R,
    alloc: Global,
    script: &'a Script,
    options: &Options,
    engine: &Engine,
    crew: &mut Crew,
) -> Result<Transcript<'a>, NoMemory>
    requires may { MayDrive engine.now script.now crew.old.sessions.items crew.old.collectors }
    requires all { length crew.old.sessions.items ≡ (engine_sizes engine.now).sessions }
    ensures driven { IfOk result (λ transcript.
        HasDrivenOne (engine_sizes engine.now) options.now.long script.now.records
        crew.old.sessions.items crew.old.collectors transcript.lines crew.new.sessions.items
        crew.new.collectors) }
    ensures played { IfOk result (λ transcript.
        HasPlayedOut engine.now crew.old.collectors crew.new.collectors crew.new.sessions.items
        script.now transcript.lines) }
    ensures tables { IfOk result (λ transcript. transcript.tables ≡ script.now.tables) }
    ensures back { AreBack engine.now crew.old.sessions.items crew.new.sessions.items }
    ensures collectors { AreCollectors engine.now crew.new.collectors }
{
    let transcript = play(rt, alloc, engine, crew, script, options.long);
    close_all(rt, engine, &mut crew.sessions);
    transcript
}
