//! One look at all sessions and all collectors' passes together, between two statements, where one thread has them all.
//!
//!     pass of session 1
//!     [ session 1 | lent 2 | lent 3 | .. ]                               all logs, as they are
//!     [ session 1 | pass 2 | pass 1 | pass 0 | lent 2 | lent 3 | .. ]    and all visits: the mark is loaded once
//!     [ session 1 ]                                                      each part is back
//!
//! So there is a state of the board that has all these logs and visits, and what the invariant says of them together holds.

ghost use Rattle.std.specs.Prelude.{◌≡◌, ℕ, suc, ◌<◌, length, get_or};
ghost use Rattle.hg_rule.specs.Seats.{IsPassOf};
ghost use Rattle.hg_session.specs.declared.session.Session.{Session};
ghost use Rattle.hg_session.specs.Engines.{engine_board_id, engine_sizes};
ghost use Rattle.hg_session.specs.Lent.{HasSeenMore};
ghost use Rattle.hg_session.specs.Moment.{AreAtOnce, HaveMetOne};
ghost use Rattle.hg_session.specs.Passing.{AreAlone, passes_with};
ghost use Rattle.hg_session.specs.Sessions.{IsOf, number_of};

use crate::engine::Engine;
use crate::lending::{lend_all, return_all};
use crate::session::Session;
use hg_rule::CollectorPass;

/// Some state has the logs of all sessions, and the visits of the three passes, as they are now. The call takes no lock and
/// allocates nothing; no log and no visit changes.
pub fn look_together(
    engine: &Engine,
    list: &mut Vec<Session>,
    group: &mut CollectorPass,
    table: &mut CollectorPass,
    interval: &mut CollectorPass,
)
    requires some { 0 < length list.old.items }
    requires many { length list.old.items ≡ (engine_sizes engine.now).sessions }
    requires own { (d : Session) (k : ℕ) → k < length list.old.items →
        IsOf engine.now (get_or list.old.items k d) }
    requires numbers { (d : Session) (k : ℕ) → k < length list.old.items →
        number_of (get_or list.old.items k d) ≡ suc k }
    requires alone { AreAlone engine.now (passes_with group.old table.old interval.old) }
    ensures moment { AreAtOnce engine.now list.old.items
        (passes_with group.old table.old interval.old) }
    ensures many { length list.new.items ≡ length list.old.items }
    ensures same { (d : Session) (k : ℕ) → k < length list.old.items →
        HasSeenMore engine.now (get_or list.old.items k d) (get_or list.new.items k d) }
    ensures met { HaveMetOne (passes_with group.old table.old interval.old)
        (passes_with group.new table.new interval.new) }
    ensures passes { IsPassOf (engine_board_id engine.now) group.new ×
        IsPassOf (engine_board_id engine.now) table.new ×
        IsPassOf (engine_board_id engine.now) interval.new }
{
    let (front, back) = list.split_at_mut(1);
    let holder = &mut front[0].pass;
    lend_all(engine, back, holder);
    holder.meet_three(engine.board(), group, table, interval);
    return_all(engine, back, holder);
}
