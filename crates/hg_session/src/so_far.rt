//! The counts of all buckets between two statements, where one thread has all sessions.
//!
//!     pass of session 1
//!     [ session 1 | lent 2 | lent 3 | .. ]               all logs, as they are
//!     [ session 1 | bucket 0 | lent 2 | lent 3 | .. ]    counts of bucket 0
//!     [ session 1 | bucket 1 | lent 2 | lent 3 | .. ]    counts of bucket 1
//!
//! No single state has all buckets in the pass's hands. But the logs are in parts that the pass keeps all the time, so they are the same
//! for every bucket, and what a bucket made and took back is in the logs. Transactions and cursors stay open.

ghost use Rattle.std.specs.Prelude.{◌≡◌, ℕ, ◌<◌, List, length, get_or};
ghost use Rattle.hg_core.specs.declared.log.LogEntry.{LogEntry};
ghost use Rattle.hg_rule.specs.Facts.{StartsWith};
ghost use Rattle.hg_rule.specs.Seats.{session_view, IsSessionOf};
ghost use Rattle.hg_session.specs.declared.session.Session.{Session};
ghost use Rattle.hg_session.specs.Engines.{engine_board_id, engine_sizes};
ghost use Rattle.hg_session.specs.Lent.{HasSeenMore};
ghost use Rattle.hg_session.specs.Sessions.{IsOf, number_of};
ghost use Rattle.hg_session.specs.SoFar.{ShowLogs, CountLogs, AreSoFar};
ghost use Rattle.hg_session.specs.Visited.{Counts};
ghost use Rattle.std.specs.Prelude.{suc};

use crate::engine::Engine;
use crate::lending::{lend_all, return_all};
use crate::session::Session;
use crate::totals::add;
use hg_base::Totals;
use hg_rule::SessionPass;
use std::sync::Wait;

// Takes one bucket, reads its counts, and gives it back.
fn count_one<R: Wait>(rt: &R, engine: &Engine, bucket: u32, holder: &mut SessionPass) -> Totals
    requires own { IsSessionOf (engine_board_id engine.now) (engine_sizes engine.now) holder.old }
    requires bucket { bucket < (engine_sizes engine.now).buckets }
    ensures counts { Counts (engine_sizes engine.now) (session_view holder.old) bucket result
        (session_view holder.new) }
    ensures own { IsSessionOf (engine_board_id engine.now) (engine_sizes engine.now) holder.new }
{
    let held = engine.store().take(rt, engine.board(), bucket, holder);
    let counts = held.counts();
    held.give(engine.board(), holder);
    counts
}

// The sums of all buckets' counts. The pass has the parts of all sessions.
fn count_each<R: Wait>(rt: &R, engine: &Engine, holder: &mut SessionPass) -> Totals
    requires own { IsSessionOf (engine_board_id engine.now) (engine_sizes engine.now) holder.old }
    requires logs { (logs : ℕ → List LogEntry) ×
        ShowLogs (engine_sizes engine.now) (session_view holder.old).parts logs }
    ensures counted { (logs : ℕ → List LogEntry) →
        ShowLogs (engine_sizes engine.now) (session_view holder.old).parts logs →
        CountLogs (engine_sizes engine.now).sessions logs result }
    ensures parts { (session_view holder.new).parts ≡ (session_view holder.old).parts }
    ensures kept { StartsWith (session_view holder.new).sights (session_view holder.old).sights }
    ensures own { IsSessionOf (engine_board_id engine.now) (engine_sizes engine.now) holder.new }
{
    let mut sums = Totals {
        made: 0,
        undone: 0,
        group: 0,
        table: 0,
        interval: 0,
        left: 0,
    };
    for bucket in 0..engine.store().buckets() {
        let counts = count_one(rt, engine, bucket, holder);
        sums = add(sums, counts);
    }
    sums
}

/// The sums of all buckets' counts as they are now. They are what all sessions' logs made and took back, and they balance. Each bucket is
/// taken once. The call waits for each bucket's lock, and allocates nothing; no log changes.
pub fn count_so_far<R: Wait>(rt: &R, engine: &Engine, list: &mut Vec<Session>) -> Totals
    requires some { 0 < length list.old.items }
    requires many { length list.old.items ≡ (engine_sizes engine.now).sessions }
    requires own { (d : Session) (k : ℕ) → k < length list.old.items →
        IsOf engine.now (get_or list.old.items k d) }
    requires numbers { (d : Session) (k : ℕ) → k < length list.old.items →
        number_of (get_or list.old.items k d) ≡ suc k }
    ensures counted { AreSoFar engine.now list.old.items result }
    ensures many { length list.new.items ≡ length list.old.items }
    ensures same { (d : Session) (k : ℕ) → k < length list.old.items →
        HasSeenMore engine.now (get_or list.old.items k d) (get_or list.new.items k d) }
{
    let (front, back) = list.split_at_mut(1);
    let holder = &mut front[0].pass;
    lend_all(engine, back, holder);
    engine.board().look_at(holder);
    let totals = count_each(rt, engine, holder);
    return_all(engine, back, holder);
    totals
}
