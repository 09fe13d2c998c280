//! The totals in the midst of a conversation.
//!
//! While one session's pass has the parts of all others, each bucket is counted (`count_so_far`). What the buckets made and took back is
//! in the logs, and the logs are what the lines say. No log, cursor or transaction changes.

ghost use Rattle.std.specs.Prelude.{◌≡◌, ◌+◌, List};
ghost use Rattle.hg_base.specs.declared.line.Line.{Line};
ghost use Rattle.hg_base.specs.declared.statement.Record.{Record};
ghost use Rattle.hg_base.specs.Script.{Script, replay};
ghost use Rattle.hg_base.specs.Sound.{all_said};
ghost use Rattle.hg_exact.specs.SoFar.{made_so_far, undone_so_far};
ghost use Rattle.hg_run.specs.Collecting.{AreCollectors};
ghost use Rattle.hg_run.specs.Live.{IsLive};

use crate::crew::Crew;
use hg_base::Totals;
use hg_session::{Engine, count_so_far};
use std::sync::Wait;

/// The totals as they are now.
pub(crate) fn count_live<R: Wait>(rt: &R, engine: &Engine, crew: &mut Crew, _last: usize) -> Totals
    requires live { (records : List Record) × (lines : List Line) ×
        IsLive engine.now crew.old.sessions.items _last records lines }
    requires collectors { AreCollectors engine.now crew.old.collectors }
    ensures live { (records : List Record) (lines : List Line) →
        IsLive engine.now crew.old.sessions.items _last records lines →
        IsLive engine.now crew.new.sessions.items _last records lines }
    ensures made { (script : Script) (lines : List Line) →
        IsLive engine.now crew.old.sessions.items _last script.records lines →
        result.made ≡ made_so_far (all_said replay script lines) }
    ensures undone { (script : Script) (lines : List Line) →
        IsLive engine.now crew.old.sessions.items _last script.records lines →
        result.undone ≡ undone_so_far (all_said replay script lines) }
    ensures balance { result.made ≡
        result.undone + result.group + result.table + result.interval + result.left }
    ensures collectors { crew.new.collectors ≡ crew.old.collectors }
{
    count_so_far(rt, engine, &mut crew.sessions)
}
