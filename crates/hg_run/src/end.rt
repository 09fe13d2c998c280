//! The end of a replay or a run.
//!
//!     roll back    each transaction that is open, in the order of sessions, or close its cursor
//!     finish       every session's part goes to one pass, to which the others were joined
//!     read         for a dump, the reader meets that pass, exports once more, and then its part goes there too
//!     settle       a round of the table collector cuts each table of each bucket at the mark
//!     count        each bucket

ghost use Rattle.std.specs.Prelude.{◌≡◌, ℕ, suc, ◌<◌, ◌≢◌, List, length, get_or, None, IfOk, OnErr};
ghost use Rattle.hg_rule.specs.Facts.{StartsWith};
ghost use Rattle.hg_rule.specs.New.{EachFrom};
ghost use Rattle.hg_dump.specs.Exports.{MayExport};
ghost use Rattle.hg_rounds.specs.TableCollectors.{view_of, IsCollectorOf};
ghost use Rattle.hg_headline.specs.Counted.{Closes};
ghost use Rattle.hg_session.specs.declared.session.Session.{Session};
ghost use Rattle.hg_session.specs.Engines.{engine_board_id, engine_sizes};
ghost use Rattle.hg_session.specs.Sessions.{IsOf, number_of, log_of, open_of, seen_by};
ghost use Rattle.hg_session.specs.Ended.{IsEnded};
ghost use Rattle.hg_session.specs.Finished.{logs_of, IsClosed};
ghost use Rattle.hg_session.specs.Settled.{HasHeardAll};
ghost use Rattle.hg_session.specs.Opened.{seated};
ghost use Rattle.hg_collectors.specs.declared.collectors.Collectors.{Collectors};
ghost use Rattle.hg_run.specs.Listed.{IsPlaced};
ghost use Rattle.hg_run.specs.Collecting.{AreCollectors};
ghost use Rattle.hg_run.specs.Closed.{AreAllThere, HasBrought, IsClosedBy};
ghost use Rattle.hg_run.specs.Reader.{IsReadAndClosed, alloc_in, engine_in, script_in};

use crate::reader::Reader;
use hg_base::{NoMemory, Totals};
use hg_collectors::Collectors;
use hg_rounds::TableCollector;
use hg_rule::SessionPass;
use hg_session::{Engine, Session, finish_some, join_all, settle};
use std::sync::Wait;

/// Closes the session's cursor, if one is open, or rolls its transaction back.
pub(crate) fn close_one<R: Wait>(rt: &R, engine: &Engine, session: &mut Session)
    requires { IsOf engine.now session.old }
    ensures closed { open_of session.new ≡ None }
    ensures closes { Closes (log_of session.old) (log_of session.new) }
    ensures number { number_of session.new ≡ number_of session.old }
    ensures kept { StartsWith (seen_by session.new) (seen_by session.old) }
    ensures own { IsOf engine.now session.new }
{
    if session.has_cursor() {
        session.close_cursor(engine);
    } else if session.is_open() {
        session.rollback(rt, engine);
    }
}

// The same for the session at i.
fn close_at<R: Wait>(rt: &R, engine: &Engine, list: &mut Vec<Session>, i: usize)
    requires within { i < length list.old.items }
    requires own { (d : Session) → IsOf engine.now (get_or list.old.items i d) }
    ensures many { length list.new.items ≡ length list.old.items }
    ensures closed { (d : Session) → open_of (get_or list.new.items i d) ≡ None }
    ensures closes { (d : Session) →
        Closes (log_of (get_or list.old.items i d)) (log_of (get_or list.new.items i d)) }
    ensures number { (d : Session) →
        number_of (get_or list.new.items i d) ≡ number_of (get_or list.old.items i d) }
    ensures kept { (d : Session) →
        StartsWith (seen_by (get_or list.new.items i d)) (seen_by (get_or list.old.items i d)) }
    ensures rest { (d : Session) (k : ℕ) → k ≢ i →
        get_or list.new.items k d ≡ get_or list.old.items k d }
    ensures own { (d : Session) → IsOf engine.now (get_or list.new.items i d) }
{
    close_one(rt, engine, &mut list[i]);
}

/// Closes every open cursor and rolls every open transaction back, in the order of sessions.
pub(crate) fn close_all<R: Wait>(rt: &R, engine: &Engine, list: &mut Vec<Session>)
    requires { (d : Session) (k : ℕ) → k < length list.old.items →
        IsPlaced engine.now k (get_or list.old.items k d) }
    ensures many { length list.new.items ≡ length list.old.items }
    ensures closed { EachFrom (IsClosed engine.now) 1 list.new.items }
    ensures closes { (j : ℕ) → Closes (logs_of list.old.items j) (logs_of list.new.items j) }
    ensures kept { (d : Session) (k : ℕ) → k < length list.old.items →
        StartsWith (seen_by (get_or list.new.items k d)) (seen_by (get_or list.old.items k d)) }
{
    for i in 0..list.len() {
        close_at(rt, engine, list, i);
    }
}

// All passes, and the first sessions, go to the table collector's pass, which has seen then all that any of them had seen, and knows
// what each pass did.
fn bring(engine: &Engine, list: Vec<Session>, collectors: Collectors) -> TableCollector
    requires closed { EachFrom (IsClosed engine.now) 1 list.items }
    requires collectors { AreCollectors engine.now collectors }
    ensures own { IsCollectorOf (engine_board_id engine.now) (engine_sizes engine.now) result }
    ensures brought { HasBrought engine.now list.items collectors (view_of result) }
{
    let Collectors {
        group,
        mut table,
        interval,
    } = collectors;
    join_all(
        engine,
        table.lend(),
        group.rounds.into_pass(),
        interval.into_pass(),
    );
    finish_some(engine, list, table.lend());
    table
}

// Settles and counts, where all passes and all sessions went to the collector's pass.
fn count<R: Wait>(rt: &R, engine: &Engine, collector: TableCollector) -> Totals
    requires own { IsCollectorOf (engine_board_id engine.now) (engine_sizes engine.now) collector }
    requires ended { IsEnded (engine_sizes engine.now) (view_of collector) }
    requires heard { HasHeardAll (engine_sizes engine.now) (view_of collector) }
    ensures { (list : List Session) (collectors : Collectors) →
        AreAllThere engine.now list collectors (view_of collector) →
        IsClosedBy engine.now list collectors result }
{
    let mut collector = collector;
    engine.board().look_at(collector.lend());
    settle(rt, engine, &mut collector);
    engine.totals(rt, collector.lend())
}

/// Ends a replay or a run once no transaction and no cursor is open, and counts. It takes no memory.
pub fn close<R: Wait>(rt: &R, engine: &Engine, list: Vec<Session>, collectors: Collectors) -> Totals
    requires many { length list.items ≡ (engine_sizes engine.now).sessions }
    requires closed { EachFrom (IsClosed engine.now) 1 list.items }
    requires collectors { AreCollectors engine.now collectors }
    ensures { IsClosedBy engine.now list.items collectors result }
{
    let collector = bring(engine, list, collectors);
    count(rt, engine, collector)
}

/// Ends the run of a dump, once no transaction and no cursor is open: the reader is the last session. It exports once more after all
/// others ended.
pub fn close_read<R: Wait>(
    rt: &R,
    reader: &Reader,
    list: Vec<Session>,
    collectors: Collectors,
    pass: SessionPass,
    into: &mut Vec<u8>,
) -> Result<(Totals, u64), NoMemory>
    requires many { suc (length list.items) ≡ (engine_sizes (engine_in reader.now)).sessions }
    requires closed { EachFrom (IsClosed (engine_in reader.now)) 1 list.items }
    requires collectors { AreCollectors (engine_in reader.now) collectors }
    requires reads { MayExport (engine_board_id (engine_in reader.now))
        (engine_sizes (engine_in reader.now)) pass }
    requires last { IsClosed (engine_in reader.now) (suc (length list.items))
        (seated (alloc_in reader.now) 0 pass) }
    ensures closed { IfOk result (λ r.
        IsReadAndClosed (alloc_in reader.now) (engine_in reader.now) (script_in reader.now)
        list.items collectors pass into.old.items into.new.items r.0 r.1) }
    ensures refused { OnErr result (into.new.items ≡ into.old.items) }
{
    let engine = reader.engine;
    let mut pass = pass;
    let mut collector = bring(engine, list, collectors);
    collector.lend().meet(engine.board(), &mut pass);
    let at = reader.read(rt, &mut pass, into)?;
    pass.finish(engine.board(), collector.lend());
    Ok((count(rt, engine, collector), at))
}
