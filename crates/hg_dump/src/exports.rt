//! Exports of all tables.

ghost use Rattle.std.specs.Prelude.{◌≡◌, ◌++◌, ℕ, List, IfOk, OnErr};
ghost use Rattle.hg_base.specs.History.{History};
ghost use Rattle.hg_base.specs.Lists.{Each};
ghost use Rattle.hg_core.specs.declared.log.LogEntry.{LogEntry};
ghost use Rattle.hg_rule.specs.Facts.{StartsWith};
ghost use Rattle.hg_rule.specs.Seats.{session_view, IsSessionOf};
ghost use Rattle.hg_store.specs.Stores.{store_buckets};
ghost use Rattle.hg_tracker.specs.Begun.{AtMost};
ghost use Rattle.hg_tracker.specs.Boards.{trackers_board_id, board_sizes};
ghost use Rattle.hg_cursor.specs.Logs.{GoesOn};
ghost use Rattle.hg_dump.specs.Records.{dump_text};
ghost use Rattle.hg_dump.specs.Rows.{rows_at};
ghost use Rattle.hg_dump.specs.Exports.{HasRead, MayExport};

use crate::tables::Reading;
use crate::tools::Tools;
use hg_base::{NoMemory, Scope};
use hg_cursor::Tables;
use hg_rule::SessionPass;
use std::alloc::Global;
use std::sync::Wait;

/// Appends the dump of the script's tables at a snapshot, and returns the snapshot. A refusal leaves `into` as it was. In either
/// case the transaction that read the tables is over.
pub fn export<R: Wait>(
    rt: &R,
    alloc: Global,
    tools: &Tools<'_>,
    pass: &mut SessionPass,
    into: &mut Vec<u8>,
) -> Result<u64, NoMemory>
    requires own { MayExport (trackers_board_id tools.now.trackers.now)
        (board_sizes tools.now.trackers.now) pass.old }
    // for each history in which the entries of this session's log are right
    ensures text { IfOk result (λ s. (h : History) (logs : ℕ → List LogEntry) →
        GoesOn (store_buckets tools.now.store.now) (session_view pass.new) h logs →
        into.new.items ≡ into.old.items ++
        dump_text tools.now.script.now (rows_at tools.now.script.now.tables h s)) }
    ensures fresh { IfOk result (λ s. Each (AtMost s) (session_view pass.old).sights) }
    ensures starts { StartsWith into.new.items into.old.items }
    ensures refused { OnErr result (into.new.items ≡ into.old.items) }
    ensures read { HasRead (session_view pass.old) result (session_view pass.new) }
    ensures own { IsSessionOf (trackers_board_id tools.now.trackers.now)
        (board_sizes tools.now.trackers.now) pass.new }
{
    let before = into.len();
    let at = tools.trackers.begin(pass, Scope::All).at;
    let reading = Reading {
        alloc,
        tables: Tables {
            board: tools.trackers.board(),
            store: tools.store,
        },
        script: tools.script,
        at,
    };
    let written = reading.write_all(rt, pass, into);
    tools.trackers.end(pass);
    if written.is_err() {
        into.truncate(before);
        return Err(NoMemory);
    }
    Ok(at)
}
