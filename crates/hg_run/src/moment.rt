//! A round of a collector, after which one look shows all logs and all visits of one state.
//!
//!     sweep             a round between meetings of its pass with the sessions
//!     look_together     all sessions and all passes at once
//!
//! So after an interval round few versions are held. A conversation's own rounds do without the look.

ghost use Rattle.std.specs.Prelude.{◌≡◌, ℕ, ◌<◌, ◌≤◌, length, get_or, IfOk, OnErr, OnOk};
ghost use Rattle.hg_base.specs.declared.report.Kind.{Kind};
ghost use Rattle.hg_base.specs.declared.statement.Statement.TheVariants as say;
ghost use Rattle.hg_collectors.specs.Collecting.{removed_of, view_in};
ghost use Rattle.hg_collectors.specs.Swept.{HasMetSessions};
ghost use Rattle.hg_session.specs.declared.session.Session.{Session};
ghost use Rattle.hg_session.specs.Engines.{engine_sizes};
ghost use Rattle.hg_session.specs.Lent.{HasSeenMore};
ghost use Rattle.hg_session.specs.Moment.{AreAtOnce};
ghost use Rattle.hg_run.specs.Asked.{Replies};
ghost use Rattle.hg_run.specs.Collecting.{AreCollectors, TellsAll, passes_of};
ghost use Rattle.hg_run.specs.Few.{LeavesFewIfSwept};
ghost use Rattle.hg_run.specs.Listed.{ArePlaced, AreReady, none_left};
ghost use Rattle.hg_run.specs.Unsaid.{HasOnlyMet};

use crate::crew::Crew;
use crate::gc::sweep;
use hg_base::{Kind, NoMemory, Reply};
use hg_collectors::{Collectors, IntervalWorker};
use hg_session::{Engine, Session, look_together};
use std::sync::Wait;
use std::thread::Threads;

// All sessions and all collectors' passes meet at once.
fn look(engine: &Engine, list: &mut Vec<Session>, collectors: &mut Collectors)
    requires some { 0 < length list.old.items }
    requires placed { ArePlaced engine.now list.old.items }
    requires collectors { AreCollectors engine.now collectors.old }
    ensures moment { AreAtOnce engine.now list.old.items (passes_of collectors.old) }
    ensures many { length list.new.items ≡ length list.old.items }
    ensures same { (d : Session) (k : ℕ) → k < length list.old.items →
        HasSeenMore engine.now (get_or list.old.items k d) (get_or list.new.items k d) }
    ensures pass { (k : Kind) →
        HasMetSessions (view_in k collectors.old) (view_in k collectors.new) }
    ensures own { AreCollectors engine.now collectors.new }
{
    let group = collectors.group.lend();
    let table = collectors.table.lend();
    match &mut collectors.interval {
        IntervalWorker::One(one) => look_together(engine, list, group, table, one.lend()),
        IntervalWorker::Team(team) => look_together(engine, list, group, table, team.lend()),
    }
}

/// A round of one collector, as the session at i asks, and then a look.
pub(crate) fn sweep_known<R: Threads + Wait + Sync>(
    rt: &R,
    engine: &Engine,
    crew: &mut Crew,
    i: usize,
    kind: Kind,
    long: u64,
) -> Result<Reply, NoMemory>
    requires ready { AreReady engine.now i none_left crew.old.sessions.items }
    requires some { 0 < (engine_sizes engine.now).buckets }
    requires collectors { AreCollectors engine.now crew.old.collectors }
    ensures replied { IfOk result (λ reply.
        Replies engine.now crew.old.sessions.items i (say.Gc kind) reply
        crew.new.sessions.items) }
    ensures ready { OnOk result ((left : ℕ → ℕ) →
        AreReady engine.now i left crew.old.sessions.items →
        AreReady engine.now i left crew.new.sessions.items) }
    ensures told { IfOk result (λ reply.
        TellsAll (engine_sizes engine.now) long crew.old.collectors reply crew.new.collectors) }
    ensures kept { (k : Kind) →
        removed_of k crew.old.collectors ≤ removed_of k crew.new.collectors }
    ensures stopped { OnErr result
        (HasOnlyMet engine.now i crew.old.sessions.items crew.new.sessions.items) }
    ensures placed { ArePlaced engine.now crew.new.sessions.items }
    ensures collectors { AreCollectors engine.now crew.new.collectors }
    // after an interval round each record is clean, in a state that has all logs and visits
    ensures few { IfOk result (λ reply.
        LeavesFewIfSwept engine.now crew.new.sessions.items crew.new.collectors reply) }
{
    let reply = sweep(rt, engine, crew, i, kind, long)?;
    look(engine, &mut crew.sessions, &mut crew.collectors);
    Ok(reply)
}
