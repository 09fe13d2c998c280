//! How an open transaction is taken back.

ghost use Rattle.std.specs.Prelude.{◌≡◌, ◌∷◌, [], List, map, false, None, IsSome, IsTrue};
ghost use Rattle.hg_base.specs.declared.rid.Rid.{Rid};
ghost use Rattle.hg_base.specs.History.{NoneTwice, is_among};
ghost use Rattle.hg_core.specs.declared.log.LogEntry.TheVariants.{Undid, Over};
ghost use Rattle.hg_core.specs.Logs.{own_writes, open_in};
ghost use Rattle.hg_core.specs.Reading.{UndoesAll};
ghost use Rattle.hg_rule.specs.Views.{session, HasOnlySession};
ghost use Rattle.hg_rule.specs.Holding.{writer as writer_of};
ghost use Rattle.hg_rule.specs.Seats.{session_view, IsSessionOf};
ghost use Rattle.hg_session.specs.Engines.{engine_board_id, engine_sizes};
ghost use Rattle.hg_session.specs.Sessions.{IsIn, view_of, log_of, opened_of};
ghost use Rattle.hg_session.specs.Frames.{KeepsCounts};
ghost use Rattle.hg_session.specs.Gains.{Gains, HasUndone};

use crate::engine::Engine;
use crate::session::Session;
use hg_base::{Rid, Writer};
use hg_group::RidList;
use hg_rule::SessionPass;
use std::sync::Wait;

// Takes one write back. Its bucket is held for that alone.
fn undo_one<R: Wait>(rt: &R, engine: &Engine, pass: &mut SessionPass, rid: Rid, by: Writer)
    requires own { IsSessionOf (engine_board_id engine.now) (engine_sizes engine.now) pass.old }
    requires only { HasOnlySession (session_view pass.old) }
    requires unstamped { (session (session_view pass.old)).stamped ≡ false }
    requires by { by ≡ writer_of (session_view pass.old) }
    requires mine { IsSome (open_in rid (session (session_view pass.old)).log) }
    ensures undone { HasUndone (session_view pass.old) (rid ∷ []) (session_view pass.new) }
    ensures own { IsSessionOf (engine_board_id engine.now) (engine_sizes engine.now) pass.new }
{
    let board = engine.board();
    let bucket = engine.bucket_of(rid);
    let mut held = engine.store().take(rt, board, bucket, pass);
    held.undo(board, pass, rid, by);
    held.give(board, pass);
}

// Takes these writes back, the last one first. The list keeps its room.
fn undo_each<R: Wait>(
    rt: &R,
    engine: &Engine,
    pass: &mut SessionPass,
    records: &mut RidList,
    by: Writer,
)
    requires own { IsSessionOf (engine_board_id engine.now) (engine_sizes engine.now) pass.old }
    requires only { HasOnlySession (session_view pass.old) }
    requires unstamped { (session (session_view pass.old)).stamped ≡ false }
    requires by { by ≡ writer_of (session_view pass.old) }
    requires once { NoneTwice records.old.list }
    requires mine { (rid : Rid) → IsTrue (is_among rid records.old.list) →
        IsSome (open_in rid (session (session_view pass.old)).log) }
    ensures undone { HasUndone (session_view pass.old) records.old.list (session_view pass.new) }
    ensures emptied { records.new.list ≡ [] }
    ensures own { IsSessionOf (engine_board_id engine.now) (engine_sizes engine.now) pass.new }
{
    while let Some(rid) = records.pop() {
        undo_one(rt, engine, pass, rid, by);
    }
}

// Takes each write of the open transaction back, the last one first, and ends it.
pub(crate) fn undo_open<R: Wait>(rt: &R, engine: &Engine, session: &mut Session)
    requires own { IsIn engine.now 0 0 session.old }
    requires opened { IsSome (opened_of session.old) }
    ensures gains { (undone : List Rid) ×
        (UndoesAll (own_writes (log_of session.old)) undone ×
        Gains (view_of session.old) (Over ∷ map Undid undone) (view_of session.new)) }
    ensures over { opened_of session.new ≡ None }
    ensures kept { KeepsCounts session.old session.new }
    ensures own { IsIn engine.now 0 0 session.new }
{
    let by = session.pass.writer();
    undo_each(rt, engine, &mut session.pass, &mut session.written, by);
    engine.trackers().end(&mut session.pass);
    session.opened = None;
}
