//! What a session reads of a record.

ghost use Rattle.std.specs.Prelude.{◌≡◌, ◌<◌, List, Option, Some, None, [], ◌∷◌, true, false, Err, IsTrue, IfOk, IfSome, OnErr};
ghost use Rattle.hg_base.specs.declared.statement.Statement.TheVariants as say;
ghost use Rattle.hg_base.specs.declared.value.Value.{Value};
ghost use Rattle.hg_base.specs.Transcript.{has};
ghost use Rattle.hg_cursor.specs.Keys.{rows_at};
ghost use Rattle.hg_session.specs.declared.answers.GetRefusal.TheVariants as refusal;
ghost use Rattle.hg_core.specs.Reading.{saw};
ghost use Rattle.hg_session.specs.Engines.{engine_sizes};
ghost use Rattle.hg_session.specs.Sessions.{IsIn, view_of, opened_of};
ghost use Rattle.hg_session.specs.Replies.{Answers, IsRefusedIf, IsAtOwn, get_at, reading, row_answer, get_reply};
ghost use Rattle.hg_session.specs.Frames.{KeepsCounts, KeepsOpened, KeepsWritten};
ghost use Rattle.hg_session.specs.Gains.{Gains};
ghost use Rattle.hg_session.specs.Refused.{HasLooked, HasGivenUp};

use crate::answers::{GetRefusal, Read};
use crate::engine::Engine;
use crate::session::Session;
use crate::statements::only;
use hg_base::{NoMemory, Rid, Row, Snapshot};
use hg_cursor::read_row;
use std::sync::Wait;

// Sees one record, and copies its row.
fn see_row<R: Wait>(
    rt: &R,
    engine: &Engine,
    session: &mut Session,
    snapshot: Snapshot,
    rid: Rid,
) -> Result<Option<Row>, NoMemory>
    requires own { IsIn engine.now 0 1 session.old }
    requires opened { opened_of session.old ≡ Some snapshot }
    requires table { IsTrue (has snapshot.scope rid.table) }
    ensures gains { (row : Option (List Value)) ×
        (Gains (view_of session.old)
        (saw (engine_sizes engine.now).buckets rid (rows_at rid.key row) ∷ [])
        (view_of session.new) × IfOk result (λ r. r ≡ row)) }
    ensures kept { KeepsWritten session.old session.new }
    ensures own { IsIn engine.now 0 1 session.new }
{
    read_row(rt, &engine.tables(), &mut session.pass, snapshot.at, rid)
}

// In the open transaction.
pub(crate) fn get_inside<R: Wait>(
    rt: &R,
    engine: &Engine,
    session: &mut Session,
    snapshot: Snapshot,
    rid: Rid,
) -> Result<Read, GetRefusal>
    requires own { IsIn engine.now 1 1 session.old }
    requires opened { opened_of session.old ≡ Some snapshot }
    requires table { rid.table.0 < (engine_sizes engine.now).tables }
    ensures reply { IfSome (get_reply false result) (λ reply.
        Answers (engine_sizes engine.now) (view_of session.old) (say.Get rid) reply
        (view_of session.new)) }
    // the snapshot is the transaction's own
    ensures at { IsAtOwn (Some snapshot) (get_at result) }
    // exactly if the transaction did not declare the table
    ensures undeclared { IsRefusedIf (Some snapshot) rid.table result
        (refusal.Undeclared rid.table) }
    // out of memory: it looked, and did nothing else
    ensures refused { result ≡ Err refusal.NoMemory →
        HasLooked rid.table rid.key rid.key (view_of session.old) (view_of session.new) }
    ensures kept { KeepsOpened session.old session.new }
    ensures own { IsIn engine.now 0 0 session.new }
{
    if session.is_outside(engine, snapshot, rid.table) {
        return Err(GetRefusal::Undeclared { table: rid.table });
    }
    let row = see_row(rt, engine, session, snapshot, rid)?;
    Ok(Read {
        at: snapshot.at,
        row,
    })
}

// A transaction of its own.
pub(crate) fn get_alone<R: Wait>(
    rt: &R,
    engine: &Engine,
    session: &mut Session,
    rid: Rid,
) -> Result<Read, NoMemory>
    requires own { IsIn engine.now 1 1 session.old }
    requires closed { opened_of session.old ≡ None }
    requires table { rid.table.0 < (engine_sizes engine.now).tables }
    ensures reply { IfOk result (λ read.
        Answers (engine_sizes engine.now) (view_of session.old) (say.Get rid)
        (reading true read.at (row_answer read.row)) (view_of session.new)) }
    ensures refused { OnErr result
        (HasGivenUp rid.table rid.key rid.key [] (view_of session.old) (view_of session.new)) }
    ensures open { opened_of session.new ≡ None }
    ensures kept { KeepsCounts session.old session.new }
    ensures own { IsIn engine.now 0 0 session.new }
{
    let snapshot = session.open(engine, only(rid.table));
    let row = see_row(rt, engine, session, snapshot, rid);
    session.end(engine);
    Ok(Read {
        at: snapshot.at,
        row: row?,
    })
}
