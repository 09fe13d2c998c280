//! What a session reads of a range.
//!
//! Each bucket that can have a key of the range is locked once, in ascending order, and logged by one look. The others are not
//! locked or logged.

ghost use Rattle.std.specs.Prelude.{◌≡◌, ◌+◌, [], ◌++◌, ◌<◌, true, false, Some, None, Err, IsTrue, IfOk, IfSome, OnOk, OnErr};
ghost use Rattle.hg_base.specs.declared.line.Answer.TheVariants.{Rows};
ghost use Rattle.hg_base.specs.declared.statement.Statement.TheVariants as say;
ghost use Rattle.hg_base.specs.Transcript.{has};
ghost use Rattle.hg_cursor.specs.Scans.{Scans};
ghost use Rattle.hg_session.specs.Engines.{engine_sizes};
ghost use Rattle.hg_session.specs.Sessions.{IsIn, view_of, opened_of};
ghost use Rattle.hg_session.specs.declared.answers.GetRefusal.TheVariants as refusal;
ghost use Rattle.hg_session.specs.Replies.{Answers, IsRefusedIf, IsAtOwn, scan_at, reading, scan_reply};
ghost use Rattle.hg_session.specs.Frames.{KeepsCounts, KeepsOpened, KeepsWritten};
ghost use Rattle.hg_session.specs.Refused.{HasLooked, HasGivenUp};

use crate::answers::{GetRefusal, Scanned};
use crate::engine::Engine;
use crate::session::Session;
use crate::statements::only;
use hg_base::{NoMemory, RowList, Snapshot};
use hg_cursor::{Range, scan};
use std::sync::Wait;

// Sees a range of each bucket that can have a key of it.
fn scan_rows<R: Wait>(
    rt: &R,
    engine: &Engine,
    session: &mut Session,
    snapshot: Snapshot,
    range: Range,
) -> Result<RowList, NoMemory>
    requires own { IsIn engine.now 0 1 session.old }
    requires opened { opened_of session.old ≡ Some snapshot }
    requires table { IsTrue (has snapshot.scope range.table) }
    ensures gains { Scans (engine_sizes engine.now).buckets (view_of session.old) range.table
        range.low range.high result (view_of session.new) }
    ensures kept { KeepsWritten session.old session.new }
    ensures own { IsIn engine.now 0 1 session.new }
{
    scan(
        rt,
        session.alloc,
        &engine.tables(),
        &mut session.pass,
        snapshot.at,
        range,
    )
}

// In the open transaction.
pub(crate) fn scan_inside<R: Wait>(
    rt: &R,
    engine: &Engine,
    session: &mut Session,
    snapshot: Snapshot,
    range: Range,
) -> Result<Scanned, GetRefusal>
    requires own { IsIn engine.now 1 1 session.old }
    requires opened { opened_of session.old ≡ Some snapshot }
    requires table { range.table.0 < (engine_sizes engine.now).tables }
    ensures reply { IfSome (scan_reply false result) (λ reply.
        Answers (engine_sizes engine.now) (view_of session.old)
        (say.Scan range.table range.low range.high) reply (view_of session.new)) }
    // the snapshot is the transaction's own
    ensures at { IsAtOwn (Some snapshot) (scan_at result) }
    // exactly if the transaction did not declare the table
    ensures undeclared { IsRefusedIf (Some snapshot) range.table result
        (refusal.Undeclared range.table) }
    // out of memory: it looked, and did nothing else
    ensures refused { result ≡ Err refusal.NoMemory →
        HasLooked range.table range.low range.high (view_of session.old) (view_of session.new) }
    ensures kept { KeepsOpened session.old session.new }
    ensures own { IsIn engine.now 0 0 session.new }
{
    let table = range.table;
    if session.is_outside(engine, snapshot, table) {
        return Err(GetRefusal::Undeclared { table });
    }
    let rows = scan_rows(rt, engine, session, snapshot, range)?;
    Ok(Scanned {
        at: snapshot.at,
        rows,
    })
}

// A transaction of its own.
pub(crate) fn scan_alone<R: Wait>(
    rt: &R,
    engine: &Engine,
    session: &mut Session,
    range: Range,
) -> Result<Scanned, NoMemory>
    requires own { IsIn engine.now 1 1 session.old }
    requires closed { opened_of session.old ≡ None }
    requires table { range.table.0 < (engine_sizes engine.now).tables }
    ensures reply { IfOk result (λ scanned.
        Answers (engine_sizes engine.now) (view_of session.old)
        (say.Scan range.table range.low range.high)
        (reading true scanned.at (Rows scanned.rows)) (view_of session.new)) }
    ensures refused { OnErr result (HasGivenUp range.table range.low range.high []
        (view_of session.old) (view_of session.new)) }
    ensures open { opened_of session.new ≡ None }
    ensures kept { KeepsCounts session.old session.new }
    ensures own { IsIn engine.now 0 0 session.new }
{
    let snapshot = session.open(engine, only(range.table));
    let rows = scan_rows(rt, engine, session, snapshot, range);
    session.end(engine);
    Ok(Scanned {
        at: snapshot.at,
        rows: rows?,
    })
}
