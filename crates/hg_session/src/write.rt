//! How a session writes a record.

ghost use Rattle.std.specs.Prelude.{◌≡◌, ◌<◌, not, is_some, IsTrue, IfOk, IfErr};
ghost use Rattle.hg_base.specs.Transcript.{has};
ghost use Rattle.hg_core.specs.Logs.{wrotes, open_in};
ghost use Rattle.hg_rule.specs.Holding.{snapshot as snapshot_of, tables as tables_of};
ghost use Rattle.hg_rule.specs.Seats.{board_id, sizes_of, session_view, IsSessionOf};
ghost use Rattle.hg_rule.specs.Views.{session, HasOnlySession};
ghost use Rattle.hg_store.specs.Passes.{IsInTransaction};
ghost use Rattle.hg_session.specs.Firsts.{ShowsWrite};
ghost use Rattle.hg_session.specs.Gains.{HasWritten, IsRefusedBy};

use hg_base::{Image, Rid};
use hg_bucket::WriteRefusal;
use hg_cursor::Tables;
use hg_rule::SessionPass;
use hg_store::Author;
use std::sync::Wait;

// Writes one image in the open transaction. Its bucket is held for that alone. The answer says whether the transaction had no open
// write of the record before.
pub(crate) fn write_one<R: Wait>(
    rt: &R,
    tables: &Tables<'_>,
    pass: &mut SessionPass,
    rid: Rid,
    image: Image,
    at: u64,
) -> Result<bool, WriteRefusal>
    requires own { IsSessionOf (board_id tables.now.board.now) (sizes_of tables.now.board.now)
        pass.old }
    requires only { HasOnlySession (session_view pass.old) }
    requires open { IsInTransaction (session (session_view pass.old)) }
    requires at { at ≡ snapshot_of (session_view pass.old) }
    requires table { IsTrue (has (tables_of (session_view pass.old)) rid.table) ×
        (rid.table.0 < (sizes_of tables.now.board.now).tables) }
    requires room { wrotes (session (session_view pass.old)).log <
        (sizes_of tables.now.board.now).quota }
    ensures written { HasWritten (session_view pass.old) rid image result
        (session_view pass.new) }
    ensures added { IfOk result (λ added.
        added ≡ not (is_some (open_in rid (session (session_view pass.old)).log))) }
    ensures refused { IfErr result (IsRefusedBy (sizes_of tables.now.board.now)
        (session_view pass.old) at) }
    ensures first { ShowsWrite (session_view pass.old) rid at result (session_view pass.new) }
    ensures own { IsSessionOf (board_id tables.now.board.now) (sizes_of tables.now.board.now)
        pass.new }
{
    let board = tables.board;
    let author = Author {
        writer: pass.writer(),
        snapshot: at,
    };
    let bucket = tables.store.bucket_of(rid);
    let mut held = tables.store.take(rt, board, bucket, pass);
    let written = held.write(board, pass, rid, image, author);
    held.give(board, pass);
    written
}
