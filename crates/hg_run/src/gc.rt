//! A `gc`: one round of a collector.
//!
//!     session i meets the pass      the pass has heard every log then, as session i has
//!     the round                     its record reaches to the end of each log
//!     each session meets the pass   what was loaded of its register is what its log shows open, and it has seen the mark

ghost use Rattle.std.specs.Prelude.{◌≡◌, ℕ, ◌+◌, ◌<◌, ◌≤◌, ◌≢◌, length, get_or, IfOk, OnErr, OnOk};
ghost use Rattle.hg_base.specs.declared.report.Kind.{Kind};
ghost use Rattle.hg_session.specs.declared.session.Session.{Session};
ghost use Rattle.hg_session.specs.Engines.{engine_sizes, engine_board_id, engine_board};
ghost use Rattle.hg_session.specs.Finished.{AreAmong};
ghost use Rattle.hg_run.specs.Listed.{ArePlaced, AreReady, HasChangedAt, none_left};
ghost use Rattle.hg_run.specs.Asked.{Replies};
ghost use Rattle.hg_collectors.specs.Rounding.{IsRoundBy};
ghost use Rattle.hg_collectors.specs.Swept.{HasMetSessions, HasSwept, swept_by};
ghost use Rattle.hg_run.specs.Meeting.{HasMetPass};
ghost use Rattle.hg_run.specs.Collecting.{AreCollectors, TellsAll};
ghost use Rattle.hg_run.specs.Unsaid.{HasOnlyMet};
ghost use Rattle.hg_collectors.specs.Collecting.{removed_of, view_in};
ghost use Rattle.hg_collectors.specs.Workers.{view_of, IsCollectorOf};
ghost use Rattle.hg_rule.specs.Agreed.{AgreesWith};
ghost use Rattle.hg_rule.specs.Moves.{meeting};
ghost use Rattle.hg_collectors.specs.Lent.{lent_board};
ghost use Rattle.hg_base.specs.declared.statement.Statement.TheVariants as say;
ghost use Rattle.hg_base.specs.declared.report.Kind.TheVariants as kinds;
ghost use Rattle.hg_rule.specs.Views.{session as session_part};
ghost use Rattle.hg_session.specs.Sessions.{IsOf, cursor_of, left_of, number_of, seen_by, view_of as session_view};

use crate::crew::Crew;
use crate::reply::inside;
use hg_base::{Answer, Kind, NoMemory, Reply, Sweep};
use hg_collectors::{Collectors, IntervalWorker, Lent};
use hg_session::{Engine, Session};
use std::sync::Wait;
use std::thread::Threads;

/// What an engine lends its collectors: the words of its board, its buckets, and its list of groups.
pub(crate) fn lent_by<'a>(engine: &'a Engine) -> Lent<'a>
    ensures { lent_board result ≡ engine_board engine.now }
{
    Lent::new(engine.trackers(), engine.store(), engine.groups())
}

// A session meets the pass of the interval collector, one or a team, between two rounds.
fn meet_worker(worker: &mut IntervalWorker, engine: &Engine, session: &mut Session)
    requires own { IsCollectorOf (engine_board_id engine.now) (engine_sizes engine.now) worker.old
        × IsOf engine.now session.old }
    ensures agrees { AgreesWith (view_of worker.old) (number_of session.old)
        (session_part (session_view session.old)) }
    ensures pass { view_of worker.new ≡ meeting (view_of worker.old) (session_view session.old) }
    ensures view { session_view session.new ≡
        meeting (session_view session.old) (view_of worker.new) }
    ensures kept { left_of session.new ≡ left_of session.old }
    ensures cursor { cursor_of session.new ≡ cursor_of session.old }
    ensures own { IsCollectorOf (engine_board_id engine.now) (engine_sizes engine.now) worker.new
        × IsOf engine.now session.new }
{
    match worker {
        IntervalWorker::One(one) => session.meet_pass(engine, one.lend()),
        IntervalWorker::Team(team) => session.meet_pass(engine, team.lend()),
    }
}

// It meets the pass of the collector of that kind.
fn meet(collectors: &mut Collectors, engine: &Engine, kind: Kind, session: &mut Session)
    requires own { AreCollectors engine.now collectors.old × IsOf engine.now session.old }
    ensures met { HasMetPass (view_in kind collectors.old) session.old session.new }
    ensures pass { (k : Kind) →
        HasMetSessions (view_in k collectors.old) (view_in k collectors.new) }
    ensures heard { AreAmong (seen_by session.old) (view_in kind collectors.new).sights }
    ensures removed { (k : Kind) → removed_of k collectors.new ≡ removed_of k collectors.old }
    ensures own { AreCollectors engine.now collectors.new × IsOf engine.now session.new }
{
    match kind {
        Kind::Group => session.meet_pass(engine, collectors.group.lend()),
        Kind::Table => session.meet_pass(engine, collectors.table.lend()),
        Kind::Interval => meet_worker(&mut collectors.interval, engine, session),
    }
}

// The session at i meets the pass of that kind of collector.
fn meet_at(
    engine: &Engine,
    list: &mut Vec<Session>,
    collectors: &mut Collectors,
    kind: Kind,
    i: usize,
)
    requires within { i < length list.old.items }
    requires own { (d : Session) → IsOf engine.now (get_or list.old.items i d) }
    requires collectors { AreCollectors engine.now collectors.old }
    ensures others { HasChangedAt i list.old.items list.new.items }
    ensures met { (d : Session) →
        HasMetPass (view_in kind collectors.old) (get_or list.old.items i d)
        (get_or list.new.items i d) }
    ensures own { (d : Session) → IsOf engine.now (get_or list.new.items i d) }
    ensures pass { (k : Kind) →
        HasMetSessions (view_in k collectors.old) (view_in k collectors.new) }
    ensures heard { (d : Session) →
        AreAmong (seen_by (get_or list.old.items i d)) (view_in kind collectors.new).sights }
    ensures removed { (k : Kind) → removed_of k collectors.new ≡ removed_of k collectors.old }
    ensures collectors { AreCollectors engine.now collectors.new }
{
    meet(collectors, engine, kind, &mut list[i]);
}

// Each session does.
fn meet_all(engine: &Engine, list: &mut Vec<Session>, collectors: &mut Collectors, kind: Kind)
    requires own { (d : Session) (k : ℕ) → k < length list.old.items →
        IsOf engine.now (get_or list.old.items k d) }
    requires collectors { AreCollectors engine.now collectors.old }
    ensures many { length list.new.items ≡ length list.old.items }
    ensures met { (d : Session) (k : ℕ) → k < length list.old.items →
        HasMetPass (view_in kind collectors.old) (get_or list.old.items k d)
        (get_or list.new.items k d) }
    ensures own { (d : Session) (k : ℕ) → k < length list.old.items →
        IsOf engine.now (get_or list.new.items k d) }
    ensures pass { (k : Kind) →
        HasMetSessions (view_in k collectors.old) (view_in k collectors.new) }
    ensures removed { (k : Kind) → removed_of k collectors.new ≡ removed_of k collectors.old }
    ensures collectors { AreCollectors engine.now collectors.new }
{
    for k in 0..list.len() {
        meet_at(engine, list, collectors, kind, k);
    }
}

// One round of the collector of that kind, as it is told.
fn round<R: Threads + Wait + Sync>(
    rt: &R,
    engine: &Engine,
    collectors: &mut Collectors,
    kind: Kind,
    long: u64,
) -> Result<Sweep, NoMemory>
    requires own { AreCollectors engine.now collectors.old }
    ensures round { IfOk result (λ sweep.
        IsRoundBy kind (engine_sizes engine.now) long (view_in kind collectors.old) sweep
        (view_in kind collectors.new)) }
    ensures others { (k : Kind) → k ≢ kind →
        view_in k collectors.new ≡ view_in k collectors.old }
    ensures swept { IfOk result (λ sweep.
        HasSwept kind (engine_sizes engine.now).sessions (view_in kind collectors.old) sweep
        (view_in kind collectors.new)) }
    ensures removed { IfOk result (λ sweep.
        (k : Kind) →
        removed_of k collectors.new ≡ removed_of k collectors.old + swept_by k sweep) }
    ensures kept { (k : Kind) → removed_of k collectors.old ≤ removed_of k collectors.new }
    ensures own { AreCollectors engine.now collectors.new }
{
    collectors.collect(rt, &lent_by(engine), kind, long)
}

/// A round of one collector, as the session at i asks.
pub(crate) fn sweep<R: Threads + Wait + Sync>(
    rt: &R,
    engine: &Engine,
    crew: &mut Crew,
    i: usize,
    kind: Kind,
    long: u64,
) -> Result<Reply, NoMemory>
    requires ready { AreReady engine.now i none_left crew.old.sessions.items }
    requires collectors { AreCollectors engine.now crew.old.collectors }
    ensures replied { IfOk result (λ reply.
        Replies engine.now crew.old.sessions.items i (say.Gc kind) reply
        crew.new.sessions.items) }
    ensures ready { OnOk result ((left : ℕ → ℕ) →
        AreReady engine.now i left crew.old.sessions.items →
        AreReady engine.now i left crew.new.sessions.items) }
    ensures told { IfOk result (λ reply.
        TellsAll (engine_sizes engine.now) long crew.old.collectors reply crew.new.collectors) }
    // also where memory runs out
    ensures kept { (k : Kind) →
        removed_of k crew.old.collectors ≤ removed_of k crew.new.collectors }
    ensures stopped { OnErr result
        (HasOnlyMet engine.now i crew.old.sessions.items crew.new.sessions.items) }
    ensures placed { ArePlaced engine.now crew.new.sessions.items }
    ensures collectors { AreCollectors engine.now crew.new.collectors }
{
    meet_at(engine, &mut crew.sessions, &mut crew.collectors, kind, i);
    let swept = round(rt, engine, &mut crew.collectors, kind, long)?;
    meet_all(engine, &mut crew.sessions, &mut crew.collectors, kind);
    Ok(inside(Answer::Swept(swept)))
}
