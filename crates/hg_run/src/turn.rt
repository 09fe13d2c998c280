//! Sessions of one thread, each in its turn.
//!
//! A session knows of another what it heard at a meeting. Before its statement it meets the session that ran last, and so has
//! heard every log as it is: its snapshot and its commit number are then over all that was printed before. If its write is
//! refused for another's, it meets that other session, whose log shows that the write is open. A meeting leaves cursors as they
//! are.

ghost use Rattle.std.specs.Prelude.{◌≡◌, ℕ, suc, ◌-◌, ◌<◌, ◌≢◌, length, get_or, None, IfOk, OnErr, OnOk};
ghost use Rattle.hg_base.specs.declared.writer.Writer.{Writer};
ghost use Rattle.hg_core.specs.Phases.{IsSession};
ghost use Rattle.hg_rule.specs.Moves.{joined};
ghost use Rattle.hg_rule.specs.Agreed.{IsMet};
ghost use Rattle.hg_session.specs.declared.session.Session.{Session};
ghost use Rattle.hg_session.specs.Engines.{engine_sizes};
ghost use Rattle.hg_session.specs.Sessions.{IsOf, view_of, left_of};
ghost use Rattle.hg_session.specs.Finished.{logs_of};
ghost use Rattle.hg_run.specs.Caught.{HasCaughtUp, HasOwn, SeesAll};
ghost use Rattle.hg_run.specs.Listed.{ArePlaced, AreReady, HasChangedAt, HasRunOne, KeepCursors, SawAt, none_left, one_more};
ghost use Rattle.hg_run.specs.Meeting.{HaveMet};
ghost use Rattle.hg_run.specs.Asked.{IsAnswered, IsOnTables, MayAsk, Replies, collector_asked};
ghost use Rattle.hg_run.specs.Unsaid.{HasRunOut, HasRunOutAt};

use crate::reply::ask;
use hg_base::{Answer, NoMemory, Reply, Statement};
use hg_session::{Engine, Session};
use std::sync::Wait;

// The session at i meets the one at j.
fn meet_two(engine: &Engine, list: &mut Vec<Session>, i: usize, j: usize)
    requires first { i < length list.old.items }
    requires second { j < length list.old.items }
    requires apart { i ≢ j }
    requires own { (d : Session) →
        IsOf engine.now (get_or list.old.items i d) × IsOf engine.now (get_or list.old.items j d) }
    ensures backed { (d : Session) →
        IsMet (engine_sizes engine.now) (joined (view_of (get_or list.old.items i d))
        (view_of (get_or list.old.items j d))) }
    ensures met { HaveMet engine.now i j list.old.items list.new.items }
{
    if i < j {
        let (front, back) = list.split_at_mut(j);
        front[i].meet(engine, &mut back[0]);
    } else {
        let (front, back) = list.split_at_mut(i);
        back[0].meet(engine, &mut front[j]);
    }
}

/// The session at i meets the one that ran last, where that is another.
pub(crate) fn turn(engine: &Engine, list: &mut Vec<Session>, i: usize, last: usize)
    requires ready { AreReady engine.now last none_left list.old.items }
    requires within { i < length list.old.items }
    ensures logs { logs_of list.new.items ≡ logs_of list.old.items }
    ensures cursors { KeepCursors list.old.items list.new.items }
    ensures saw { (seen : ℕ) → SawAt seen last list.old.items → SawAt seen i list.new.items }
    ensures ready { (left : ℕ → ℕ) → AreReady engine.now last left list.old.items →
        AreReady engine.now i left list.new.items }
    // the session at i has seen then all that the other had seen, and has heard its own log as it stands
    ensures sees { SeesAll last list.old.items i list.new.items }
    ensures own { i ≢ last → HasOwn i list.new.items }
{
    if i != last {
        meet_two(engine, list, i, last);
    }
}

/// Each session meets the one that ran last, in turn. So none has heard of another's log more than there is: each log stood, at every
/// look, as it was known then. The answer is which session has seen all then.
pub(crate) fn catch_up(engine: &Engine, list: &mut Vec<Session>, last: usize) -> usize
    requires ready { AreReady engine.now last none_left list.old.items }
    ensures logs { logs_of list.new.items ≡ logs_of list.old.items }
    ensures saw { (seen : ℕ) → SawAt seen last list.old.items → SawAt seen result list.new.items }
    ensures ready { AreReady engine.now result none_left list.new.items }
    ensures caught { HasCaughtUp last list.old.items }
{
    let mut seer = last;
    for i in 0..list.len() {
        turn(engine, list, i, seer);
        seer = i;
    }
    seer
}

// The session at i answers a statement.
fn ask_at<R: Wait>(
    rt: &R,
    engine: &Engine,
    list: &mut Vec<Session>,
    i: usize,
    statement: Statement,
) -> Result<Reply, NoMemory>
    requires within { i < length list.old.items }
    requires own { (d : Session) → IsOf engine.now (get_or list.old.items i d) }
    requires left { (d : Session) → 0 < left_of (get_or list.old.items i d) }
    requires may { (d : Session) → MayAsk (get_or list.old.items i d) statement }
    requires tables { IsOnTables (engine_sizes engine.now).tables statement }
    requires other { collector_asked statement ≡ None }
    ensures others { HasChangedAt i list.old.items list.new.items }
    ensures answers { (d : Session) →
        IfOk result (λ reply.
        IsAnswered (engine_sizes engine.now) (get_or list.old.items i d) statement reply
        (get_or list.new.items i d)) }
    ensures stopped { (d : Session) →
        OnErr result (HasRunOut (get_or list.old.items i d) (get_or list.new.items i d)) }
    ensures ran { (d : Session) →
        HasRunOne engine.now (get_or list.old.items i d) (get_or list.new.items i d) }
{
    ask(rt, engine, &mut list[i], statement)
}

// Where a write of the session at i is refused for another's, it meets that other session.
fn show(engine: &Engine, list: &mut Vec<Session>, i: usize, answer: &Answer)
    requires ready { AreReady engine.now i none_left list.old.items }
    requires other { (writer : Writer) → answer.now ≡ Answer.OpenBy writer →
        IsSession (engine_sizes engine.now).sessions writer.session × (writer.session ≢ suc i) }
    ensures backed { (d : Session) (writer : Writer) → answer.now ≡ Answer.OpenBy writer →
        IsMet (engine_sizes engine.now) (joined (view_of (get_or list.old.items i d))
        (view_of (get_or list.old.items (writer.session - 1) d))) }
    ensures logs { logs_of list.new.items ≡ logs_of list.old.items }
    ensures cursors { KeepCursors list.old.items list.new.items }
    ensures saw { (seen : ℕ) → SawAt seen i list.old.items → SawAt seen i list.new.items }
    ensures sees { SeesAll i list.old.items i list.new.items }
    ensures ready { (left : ℕ → ℕ) → AreReady engine.now i left list.old.items →
        AreReady engine.now i left list.new.items }
{
    if let Answer::OpenBy(writer) = answer {
        meet_two(engine, list, i, writer.session as usize - 1);
    }
}

/// The session at i answers a statement of its own.
pub(crate) fn answer<R: Wait>(
    rt: &R,
    engine: &Engine,
    list: &mut Vec<Session>,
    i: usize,
    statement: Statement,
) -> Result<Reply, NoMemory>
    requires ready { AreReady engine.now i (one_more (suc i) none_left) list.old.items }
    requires some { 0 < (engine_sizes engine.now).buckets }
    requires may { (d : Session) → MayAsk (get_or list.old.items i d) statement }
    requires tables { IsOnTables (engine_sizes engine.now).tables statement }
    requires other { collector_asked statement ≡ None }
    ensures replied { IfOk result
        (λ reply. Replies engine.now list.old.items i statement reply list.new.items) }
    ensures ready { OnOk result ((left : ℕ → ℕ) →
        AreReady engine.now i (one_more (suc i) left) list.old.items →
        AreReady engine.now i left list.new.items) }
    ensures stopped { OnErr result (HasRunOutAt engine.now i list.old.items list.new.items) }
    ensures placed { ArePlaced engine.now list.new.items }
{
    let reply = ask_at(rt, engine, list, i, statement)?;
    show(engine, list, i, &reply.answer);
    Ok(reply)
}
