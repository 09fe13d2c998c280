//! Statements of a conversation, one at a time.
//!
//! A replay knows its records beforehand, and how many each session has. Here the next one comes when the one before is answered. What is
//! known in between (`IsLive`) is the same. A statement for which there is no memory, or a session that has run all that it may, ends the
//! conversation: then what was answered is still what a replay prints (`HasStopped`).

ghost use Rattle.std.specs.Prelude.{◌≡◌, ℕ, ◌-◌, ◌<◌, ◌≤◌, ◌+◌, ◌∷◌, ◌++◌, [], List, length, map, get_or, false, true, IfOk, OnErr, IsErrOf};
ghost use Rattle.hg_base.specs.declared.line.Line.{Line};
ghost use Rattle.hg_base.specs.declared.statement.Record.{Record};
ghost use Rattle.hg_base.specs.Lists.{greatest};
ghost use Rattle.hg_base.specs.Script.{Script, replay};
ghost use Rattle.hg_base.specs.Sound.{all_said};
ghost use Rattle.hg_base.specs.Transcript.{history_of, of_session};
ghost use Rattle.hg_exact.specs.Lawful.{AreAnswered};
ghost use Rattle.hg_exact.specs.Replayed.{plain, replayed};
ghost use Rattle.hg_exact.specs.SoFar.{AreFinal};
ghost use Rattle.hg_exact.specs.State.{start};
ghost use Rattle.hg_script.specs.Lawful.{MayStand};
ghost use Rattle.hg_script.specs.Rules.{is_open, is_reading};
ghost use Rattle.hg_session.specs.declared.session.Session.{Session};
ghost use Rattle.hg_session.specs.Engines.{engine_sizes};
ghost use Rattle.hg_session.specs.Sessions.{left_of};
ghost use Rattle.hg_run.specs.Collecting.{AreCollectors};
ghost use Rattle.hg_run.specs.Listed.{ArePlaced};
ghost use Rattle.hg_run.specs.Live.{HasStopped, IsLive, MayCome};
ghost use Rattle.hg_run.specs.Untold.{HaveTold};

use crate::crew::Crew;
use crate::end::{close, close_all};
use crate::gc::sweep;
use crate::replay::reply_at;
use crate::turn::{catch_up, turn};
use hg_base::{Kind, NoMemory, Record, Reply, Totals};
use hg_session::{Engine, Session};
use hg_talk::Stop;
use std::sync::Wait;
use std::thread::Threads;

// Whether the session at i has run all statements that it may.
fn is_spent(list: &Vec<Session>, i: usize) -> bool
    requires { i < length list.now.items }
    ensures left { (d : Session) → result ≡ false → 0 < left_of (get_or list.now.items i d) }
    ensures none { (d : Session) → result ≡ true → left_of (get_or list.now.items i d) ≡ 0 }
{
    list[i].left() == 0
}

/// Answers the next record, where the session at `last` ran last.
pub(crate) fn answer_next<R: Threads + Wait + Sync>(
    rt: &R,
    engine: &Engine,
    crew: &mut Crew,
    last: usize,
    asked: Record,
    long: u64,
) -> Result<Reply, Stop>
    requires some { 0 < (engine_sizes engine.now).buckets }
    requires may { MayCome engine.now crew.old.sessions.items last asked.session
        asked.statement }
    requires collectors { AreCollectors engine.now crew.old.collectors }
    ensures live { IfOk result (λ reply.
        (records : List Record) (lines : List Line) →
        IsLive engine.now crew.old.sessions.items last records lines →
        MayStand (is_open asked.session records) (is_reading asked.session records)
        asked.statement →
        IsLive engine.now crew.new.sessions.items (asked.session - 1) (records ++ asked ∷ [])
        (lines ++ (record { session = asked.session; place = asked.place; reply = reply }) ∷ [])) }
    // if it is a report, the collectors removed what it says
    ensures told { IfOk result (λ reply.
        (lines : List Line) → HaveTold crew.old.collectors lines →
        HaveTold crew.new.collectors
        (lines ++ (record { session = asked.session; place = asked.place; reply = reply }) ∷ [])) }
    // it was not answered, and those before it were: no line tells what it left in its session's log
    ensures stopped { OnErr result ((records : List Record) (lines : List Line) →
        IsLive engine.now crew.old.sessions.items last records lines →
        HasStopped engine.now crew.new.sessions.items (asked.session - 1) records lines) }
    // the session has run all statements that it may
    ensures spent { IsErrOf result Stop.Spent → (records : List Record) (lines : List Line) →
        IsLive engine.now crew.old.sessions.items last records lines →
        (engine_sizes engine.now).quota ≤ length (of_session asked.session records) }
    ensures placed { ArePlaced engine.now crew.new.sessions.items }
    ensures collectors { AreCollectors engine.now crew.new.collectors }
{
    let i = asked.session as usize - 1;
    turn(engine, &mut crew.sessions, i, last);
    if is_spent(&crew.sessions, i) {
        return Err(Stop::Spent);
    }
    Ok(reply_at(rt, engine, crew, i, asked.statement, long)?)
}

// A collector makes a round that nobody asked for and nobody is told of. If there is no memory for it, it is not made.
fn round_unasked<R: Threads + Wait + Sync>(
    rt: &R,
    engine: &Engine,
    crew: &mut Crew,
    last: usize,
    kind: Kind,
    long: u64,
) -> Result<(), NoMemory>
    requires live { (records : List Record) × (lines : List Line) ×
        IsLive engine.now crew.old.sessions.items last records lines }
    requires collectors { AreCollectors engine.now crew.old.collectors }
    ensures live { (records : List Record) (lines : List Line) →
        IsLive engine.now crew.old.sessions.items last records lines →
        IsLive engine.now crew.new.sessions.items last records lines }
    ensures told { (lines : List Line) → HaveTold crew.old.collectors lines →
        HaveTold crew.new.collectors lines }
    ensures placed { ArePlaced engine.now crew.new.sessions.items }
    ensures collectors { AreCollectors engine.now crew.new.collectors }
{
    sweep(rt, engine, crew, last, kind, long)?;
    Ok(())
}

/// Each collector makes a round that nobody asked for and nobody is told of, if there is memory for it.
pub(crate) fn collect_unasked<R: Threads + Wait + Sync>(
    rt: &R,
    engine: &Engine,
    crew: &mut Crew,
    last: usize,
    long: u64,
)
    requires live { (records : List Record) × (lines : List Line) ×
        IsLive engine.now crew.old.sessions.items last records lines }
    requires collectors { AreCollectors engine.now crew.old.collectors }
    ensures live { (records : List Record) (lines : List Line) →
        IsLive engine.now crew.old.sessions.items last records lines →
        IsLive engine.now crew.new.sessions.items last records lines }
    ensures told { (lines : List Line) → HaveTold crew.old.collectors lines →
        HaveTold crew.new.collectors lines }
    ensures collectors { AreCollectors engine.now crew.new.collectors }
{
    let _ = round_unasked(rt, engine, crew, last, Kind::Group, long);
    let _ = round_unasked(rt, engine, crew, last, Kind::Table, long);
    let _ = round_unasked(rt, engine, crew, last, Kind::Interval, long);
}

/// Ends a conversation, also where it was stopped at a statement: rolls back what is open, settles and counts. Its lines are those that a
/// replay of its records prints, but for what reports say was removed and moved, and the totals balance.
pub(crate) fn end_live<R: Wait>(rt: &R, engine: &Engine, crew: Crew, last: usize) -> Totals
    requires stopped { (records : List Record) × (lines : List Line) ×
        HasStopped engine.now crew.sessions.items last records lines }
    requires collectors { AreCollectors engine.now crew.collectors }
    ensures exact { (script : Script) (lines : List Line) →
        HasStopped engine.now crew.sessions.items last script.records lines →
        AreAnswered (start (greatest (map (λ r. r.session) script.records))) script.records →
        map plain lines ≡ replayed script }
    // where all was answered, the totals are those of a replay, but for rounds that nobody was told of
    ensures counted { (script : Script) (lines : List Line) →
        IsLive engine.now crew.sessions.items last script.records lines →
        HaveTold crew.collectors lines →
        AreFinal (all_said replay script lines) (history_of (all_said replay script lines)) result }
    ensures balance { result.made ≡
        result.undone + result.group + result.table + result.interval + result.left }
{
    let Crew {
        sessions,
        collectors,
    } = crew;
    let mut sessions = sessions;
    catch_up(engine, &mut sessions, last);
    close_all(rt, engine, &mut sessions);
    close(rt, engine, sessions, collectors)
}
