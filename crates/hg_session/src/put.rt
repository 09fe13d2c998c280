//! What a session writes.

ghost use Rattle.std.specs.Prelude.{◌≡◌, ◌<◌, true, false, Some, None, Err, IfSome};
ghost use Rattle.hg_base.specs.declared.statement.Statement.TheVariants as say;
ghost use Rattle.hg_session.specs.declared.answers.PutRefusal.TheVariants as refusal;
ghost use Rattle.hg_session.specs.Engines.{engine_sizes};
ghost use Rattle.hg_session.specs.Sessions.{IsIn, view_of, opened_of};
ghost use Rattle.hg_session.specs.Replies.{IsRefusedIf, IsAtOwn, put_at, put_reply};
ghost use Rattle.hg_session.specs.Firsts.{AnswersWrite};
ghost use Rattle.hg_session.specs.Frames.{KeepsCounts, KeepsOpened};
ghost use Rattle.hg_session.specs.Refused.{HasLooked, LeavesNoWrite};

use crate::answers::{PutRefusal, Written};
use crate::engine::Engine;
use crate::session::Session;
use crate::statements::{only, refused_at};
use hg_base::{Image, Rid, Row, Snapshot, TableId};
use std::sync::Wait;

// In the open transaction.
pub(crate) fn put_inside<R: Wait>(
    rt: &R,
    engine: &Engine,
    session: &mut Session,
    snapshot: Snapshot,
    rid: Rid,
    row: Row,
) -> Result<Written, PutRefusal>
    requires own { IsIn engine.now 1 1 session.old }
    requires opened { opened_of session.old ≡ Some snapshot }
    requires table { rid.table.0 < (engine_sizes engine.now).tables }
    ensures reply { IfSome (put_reply false result) (λ reply.
        AnswersWrite (engine_sizes engine.now) (view_of session.old) (say.Put rid row) rid reply
        (view_of session.new)) }
    // the snapshot is the transaction's own
    ensures at { IsAtOwn (Some snapshot) (put_at result) }
    // exactly if the transaction did not declare the table
    ensures undeclared { IsRefusedIf (Some snapshot) rid.table result
        (refusal.Undeclared rid.table) }
    // out of memory: no version of the record is left
    ensures refused { result ≡ Err refusal.NoMemory →
        HasLooked rid.table rid.key rid.key (view_of session.old) (view_of session.new) }
    ensures kept { KeepsOpened session.old session.new }
    ensures own { IsIn engine.now 0 0 session.new }
{
    if session.is_outside(engine, snapshot, rid.table) {
        return Err(PutRefusal::Undeclared { table: rid.table });
    }
    let image = Image { row: Some(row) };
    match session.write_row(rt, engine, snapshot, rid, image) {
        Ok(()) => Ok(Written {
            at: snapshot.at,
            number: None,
        }),
        Err(refusal) => Err(refused_at(snapshot.at, refusal)),
    }
}

// A transaction of its own.
pub(crate) fn put_alone<R: Wait>(
    rt: &R,
    engine: &Engine,
    session: &mut Session,
    rid: Rid,
    row: Row,
) -> Result<Written, PutRefusal>
    requires own { IsIn engine.now 1 1 session.old }
    requires closed { opened_of session.old ≡ None }
    requires table { rid.table.0 < (engine_sizes engine.now).tables }
    ensures reply { IfSome (put_reply true result) (λ reply.
        AnswersWrite (engine_sizes engine.now) (view_of session.old) (say.Put rid row) rid reply
        (view_of session.new)) }
    ensures declared { (t : TableId) → result ≡ Err (refusal.Undeclared t) → ⊥ }
    // out of memory: no version of the record is left
    ensures refused { result ≡ Err refusal.NoMemory →
        LeavesNoWrite None rid (record { row = Some row }) (view_of session.old)
        (view_of session.new) }
    ensures open { opened_of session.new ≡ None }
    ensures kept { KeepsCounts session.old session.new }
    ensures own { IsIn engine.now 0 0 session.new }
{
    let snapshot = session.open(engine, only(rid.table));
    let image = Image { row: Some(row) };
    let number = session.write_alone(rt, engine, snapshot, rid, image)?;
    Ok(Written {
        at: snapshot.at,
        number,
    })
}
