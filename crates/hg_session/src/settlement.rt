//! Settling: after all sessions have ended, each record is cut to what a last snapshot sees. It is one round of the table collector.
//!
//!     gather       every register is idle, so the bound of each table is the mark
//!     visits       each table of each bucket is cut at that bound
//!
//! No session runs any more, so the mark is the greatest number of the logs during the whole round.

ghost use Rattle.std.specs.Prelude.{◌≡◌, ℕ, ◌<◌, ◌-◌, ◌^◌};
ghost use Rattle.hg_core.specs.Logs.{newest_of};
ghost use Rattle.hg_rule.specs.Reading.{passes_in};
ghost use Rattle.hg_headline.specs.Totalled.{WasLeftCut};
ghost use Rattle.hg_rounds.specs.TableCollectors.{view_of, report_in, IsCollectorOf, Cuts};
ghost use Rattle.hg_session.specs.Engines.{engine_board_id, engine_sizes};
ghost use Rattle.hg_session.specs.Ended.{logs_in, visits_in, IsEnded};
ghost use Rattle.hg_session.specs.Settled.{HasHeardAll, KeepsOthers, RemovesForTables};

use crate::engine::Engine;
use hg_rounds::TableCollector;
use std::sync::Wait;

/// Makes one round of the table collector, after all sessions have ended: each bucket is visited once, in order, and nothing else
/// is done (`round`). All other parts were joined to the collector's pass, which knows every session's whole log. So each bucket is
/// given back with its records cut at the greatest number of the logs (`settled`), and no version is removed for another collector.
pub fn settle<R: Wait>(rt: &R, engine: &Engine, collector: &mut TableCollector)
    requires own { IsCollectorOf (engine_board_id engine.now) (engine_sizes engine.now)
        collector.old }
    requires ended { IsEnded (engine_sizes engine.now) (view_of collector.old) }
    requires heard { HasHeardAll (engine_sizes engine.now) (view_of collector.old) }
    ensures round { Cuts (engine_sizes engine.now) (2 ^ 64 - 1) (view_of collector.old)
        (report_in collector.new) (view_of collector.new) }
    ensures settled { (b : ℕ) → b < (engine_sizes engine.now).buckets →
        WasLeftCut (engine_sizes engine.now).buckets
        (newest_of (engine_sizes engine.now).sessions (logs_in (view_of collector.old)))
        (passes_in (view_of collector.new).parts) (visits_in (view_of collector.new)) b }
    ensures removed { (p : ℕ) →
        RemovesForTables (visits_in (view_of collector.old) p)
        (visits_in (view_of collector.new) p) }
    // no other pass has visits or a journal that it had not
    ensures others { KeepsOthers (view_of collector.old) (view_of collector.new) }
    ensures logs { logs_in (view_of collector.new) ≡ logs_in (view_of collector.old) }
    ensures passes { passes_in (view_of collector.new).parts ≡
        passes_in (view_of collector.old).parts }
    // all parts and all logs are still there
    ensures ended { IsEnded (engine_sizes engine.now) (view_of collector.new) ×
        HasHeardAll (engine_sizes engine.now) (view_of collector.new) }
    ensures own { IsCollectorOf (engine_board_id engine.now) (engine_sizes engine.now)
        collector.new }
{
    // No snapshot is in use, so none is moved, however long one would have to be in use.
    collector.collect(rt, engine.trackers(), engine.store(), u64::MAX);
}
